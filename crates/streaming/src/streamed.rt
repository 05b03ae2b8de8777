//! A whole stream.
ghost use Rattle.std.specs.Prelude.{◌≡◌, [], false, true, IfOk, IfErr};
ghost use Rattle.sector_device.specs.DiskState.{HasAnswered};
ghost use Rattle.session.specs.Accessors.{device_of, machine_of, rom_of, pending_of, acknowledged_of, is_broken};
ghost use Rattle.streaming.specs.Streamed.{HasStreamedAll, IsStreamCause, faults_after_stream, left_by};

use crate::error::StreamError;
use crate::obeying::{End, stream_on};
use crate::state_room::StateRoom;
use cartridge::Cartridge;
use exact_text::Output;
use input_lines::LineInput;
use sector_device::{Refused, SectorDevice};
use session::{Session, SessionError, resume};
use std::alloc::Global;

/// Resumes the game on a device, writes `resumed N`, and obeys the lines of an input as they come,
/// each before more is read. A line is a line of a script, or one of these; an empty one is counted
/// and skipped, and the last may lack its newline. As in `play`, `saved N` is written after each
/// save: one at each `save`, right after the input that makes 3,200 unsaved, and at the end if any is
/// unsaved.
///
/// | Line | What is done | Answer |
/// |---|---|---|
/// | `picture` | nothing | the machine's picture as plain PGM |
/// | `state` | nothing | `state K`, and the K bytes of the machine's state |
/// | `memory ADDR N` | nothing | the bytes, sixteen a line, as nothing closes them |
/// | `power` | the power switch, off and on, one input | none |
/// | `restore N`, and N bytes | the machine becomes the one of this state, one input | `restored` |
/// | `keep K` | nothing; the machine is kept under K, 0 to 999, in place of one that was | `kept K` |
/// | `back K` | the machine becomes the one that was kept last under K, one input. The line is wrong where none was | `back K` |
///
/// A save that is due comes before the answer.
///
/// Refusals: `Memory` for the room for states, and those of `resume`, with nothing read and nothing written; then whichever comes
/// first of `GenerationsUsedUp`, `Device`, `CountFull` and `Output`, as in `play`; `Line` with the number of the first
/// wrong line, counted from 1, `Snapshot` where the bytes of `restore` are no state, or fewer to the end of the input, `OtherCartridge` where
/// they are a state of another cartridge, `Memory` for a `power` or for the first `keep` of a number, and `Input` if a read fails, all once what
/// was given before is saved and reported. A line of more than 64 bytes is wrong as soon as that many are read, and so
/// is the line with the number `u64::MAX`, whatever it says.
pub fn stream<D: SectorDevice, R: LineInput, W: Output>(
    alloc: Global,
    device: D,
    cartridge: &Cartridge,
    input: &mut R,
    out: &mut W,
) -> Result<Session<D>, Refused<StreamError, D>>
    ensures streamed { IfOk result (λ s.
        HasStreamedAll cartridge.now (D.disk device) (D.disk (device_of s)) (acknowledged_of s) (machine_of s)
        (R.remaining input.old)
        (R.remaining input.new) (W.contents out.old) (W.contents out.new)) }
    ensures whole { IfOk result (λ s. (pending_of s ≡ []) × (is_broken s ≡ false) × (rom_of s ≡ cartridge.now)) }
    ensures refused { IfErr result (λ refused.
        IsStreamCause refused.why cartridge.now (D.disk device) (D.disk refused.device) (R.remaining input.old)
        (R.remaining input.new)
        (W.contents out.old) (W.contents out.new)) }

    // only a read and a write that failed are told as such
    ensures input { IfErr result (λ refused. refused.why ≡ StreamError.Input → R.has_failed input.new ≡ true) }
    ensures output { IfErr result (λ refused. refused.why ≡ StreamError.Session SessionError.Output →
        W.has_failed out.new ≡ true) }

    ensures answered { HasAnswered (λ refused. faults_after_stream refused.why) (D.disk device)
        (D.disk (left_by result)) result }
{
    let Ok(mut room) = StateRoom::new(alloc, cartridge) else {
        return Err(Refused {
            why: StreamError::Session(SessionError::Memory),
            device,
        });
    };
    let mut session = match resume(alloc, device, cartridge) {
        Ok(session) => session,
        Err(refused) => return Err(Refused {
            why: StreamError::Session(refused.why),
            device: refused.device,
        }),
    };
    match stream_on(&mut session, alloc, cartridge, &mut room, input, out) {
        Ok(End::Whole) => Ok(session),
        Ok(End::Wrong(number)) => Err(Refused {
            why: StreamError::Line(number),
            device: session.into_device(),
        }),
        Ok(End::Failed) => Err(Refused {
            why: StreamError::Input,
            device: session.into_device(),
        }),
        Ok(End::Damaged) => Err(Refused {
            why: StreamError::Snapshot,
            device: session.into_device(),
        }),
        Ok(End::OtherCartridge) => Err(Refused {
            why: StreamError::OtherCartridge,
            device: session.into_device(),
        }),
        Ok(End::NoMemory) => Err(Refused {
            why: StreamError::Memory,
            device: session.into_device(),
        }),
        Err(why) => Err(Refused {
            why: StreamError::Session(why),
            device: session.into_device(),
        }),
    }
}
