//! From ROM bytes and lines as they come to a report, pictures and a device.

ghost use Rattle.std.specs.Prelude.{◌≡◌, true, IfErr, OnOk};
ghost use Rattle.cartridge.specs.Accepted.{IsAccepted};
ghost use Rattle.sector_device.specs.DiskState.{HasAnswered};
ghost use Rattle.streaming.specs.Streamed.{HasStreamed};
ghost use Rattle.streaming.specs.declared.obeying.End.TheVariants.{Whole};
ghost use Rattle.commands.specs.Stream.{IsStreamPlayCause};
ghost use Rattle.commands.specs.Refusals.{faults_after};
ghost use Rattle.sector_device.specs.Refusal.{left_by};

use crate::error::CommandError;
use cartridge::Cartridge;
use exact_text::Output;
use input_lines::LineInput;
use sector_device::{Refused, SectorDevice};
use session::SessionError;
use std::alloc::Global;
use streaming::{StreamError, stream};

/// Takes up the game that a device holds, writes `resumed N`, and obeys the lines of an input as they come: those of a script, and
/// `picture`, which writes the machine's picture as plain PGM, 46,093 bytes. `saved N` is written after each save.
///
/// Refusals, in this order, each of which hands the device back: what is wrong with the image, with nothing read and nothing written;
/// those of the stream: what was given before a wrong line, or before a read that failed, is saved and told.
pub fn stream_play<D: SectorDevice, R: LineInput, W: Output>(
    alloc: Global,
    device: D,
    rom: Vec<u8>,
    input: &mut R,
    out: &mut W,
) -> Result<D, Refused<CommandError, D>>
    ensures accepted { OnOk result (IsAccepted rom.items) }
    ensures streamed { OnOk result
        (HasStreamed rom.items (D.disk device) (D.disk (left_by result)) Whole (R.remaining input.old)
        (R.remaining input.new)
        (W.contents out.old) (W.contents out.new)) }
    ensures cause { IfErr result (λ refused.
        IsStreamPlayCause rom.items (record { before = R.remaining input.old; since = R.remaining input.new })
        (record {
          old = D.disk device;
          now = D.disk refused.device;
          output = record { before = W.contents out.old; since = W.contents out.new };
        })
        refused.why) }
    ensures untouched { IfErr result (λ refused.
        (fault : _) → refused.why ≡ CommandError.Cart fault → refused.device ≡ device) }
    ensures output { IfErr result (λ refused.
        refused.why ≡ CommandError.Stream (StreamError.Session SessionError.Output) →
        W.has_failed out.new ≡ true) }
    ensures input { IfErr result (λ refused.
        refused.why ≡ CommandError.Stream StreamError.Input → R.has_failed input.new ≡ true) }
    ensures answered { HasAnswered (λ refused. faults_after refused.why) (D.disk device)
        (D.disk (left_by result)) result }
{
    let cartridge = match Cartridge::read(rom) {
        Ok(cartridge) => cartridge,
        Err(fault) => return Err(Refused {
            why: CommandError::Cart(fault),
            device,
        }),
    };
    match stream(alloc, device, &cartridge, input, out) {
        Ok(session) => Ok(session.into_device()),
        Err(refused) => Err(Refused {
            why: CommandError::Stream(refused.why),
            device: refused.device,
        }),
    }
}
