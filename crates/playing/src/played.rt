//! A whole play.
ghost use Rattle.std.specs.Prelude.{◌≡◌, ◌⊎◌, ◌+◌, ℕ, [], length, false, true, IfOk, IfErr};
ghost use Rattle.std.specs.Io.KnownBytes.{Appends};
ghost use Rattle.sector_device.specs.DiskState.{HasAnswered};
ghost use Rattle.sector_device.specs.Runs.{HoldsSince};
ghost use Rattle.session.specs.Calls.{faults_after};
ghost use Rattle.session.specs.Accessors.{device_of, machine_of, rom_of, pending_of, acknowledged_of, is_broken, left_by};
ghost use Rattle.playing.specs.Played.{PlayImage, HasPlayed, HasReached, IsNotTakenUp, HasStopped, HasFoundNoMemory};
ghost use Rattle.playing.specs.Report.{report_of};
ghost use Rattle.script.specs.Inputs.{inputs_of_moves};

use crate::moves::play_on;
use cartridge::Cartridge;
use exact_text::Output;
use script::Move;
use sector_device::{Refused, SectorDevice};
use session::{Session, SessionError, resume};
use std::alloc::Global;

/// Resumes the game on a device, writes `resumed N`, makes the moves, and writes `saved N` after
/// each save: one at each `Save`, right after the input that makes 3,200 unsaved, and at the end if
/// any is unsaved. N is the count of all inputs.
///
/// Refusals: those of `resume`, with nothing written to the report; then whichever comes first of
/// `GenerationsUsedUp`, `Device`, `CountFull`, `Output` and, at a power switch, `Memory`. What was saved stays saved: the report then has the
/// first of its lines, followed, only on `Output`, by a part of the next, and each image that is
/// left has all inputs up to each N that these lines report.
pub fn play<D: SectorDevice, W: Output>(
    alloc: Global,
    device: D,
    cartridge: &Cartridge,
    moves: &[Move],
    report: &mut W,
) -> Result<Session<D>, Refused<SessionError, D>>
    // at Ok
    ensures played { IfOk result (λ s. (D.disk device).honest →
        HasPlayed cartridge.now (D.disk device) (D.disk (device_of s)) (inputs_of_moves moves.now)) }
    ensures reached { IfOk result (λ s. (D.disk device).honest →
        HasReached cartridge.now (D.disk device) (acknowledged_of s) (machine_of s) (inputs_of_moves moves.now)) }
    ensures report { IfOk result (λ s. (count : ℕ) × (acknowledged_of s ≡ count + length (inputs_of_moves moves.now)) ×
        Appends (W.contents report.old) (W.contents report.new) (report_of count moves.now)) }
    ensures whole { IfOk result (λ s. (pending_of s ≡ []) × (is_broken s ≡ false) × (rom_of s ≡ cartridge.now)) }

    // where it is refused: not taken up, or stopped after that, or at a power switch with no memory for it
    ensures refused { IfErr result (λ refused.
        IsNotTakenUp cartridge.now (D.disk device) (D.disk refused.device) refused.why (W.contents report.old)
        (W.contents report.new)
        ⊎ HasStopped cartridge.now (D.disk device) (D.disk refused.device) moves.now refused.why (W.contents report.old)
        (W.contents report.new)
        ⊎ HasFoundNoMemory cartridge.now (D.disk device) (D.disk refused.device) moves.now refused.why
        (W.contents report.old) (W.contents report.new)) }

    // only a write that failed is told as one
    ensures output { IfErr result (λ refused. refused.why ≡ SessionError.Output → W.has_failed report.new ≡ true) }

    // at each moment
    ensures images { (D.disk device).honest →
        HoldsSince (D.disk device) (D.disk (left_by result))
        (PlayImage cartridge.now (D.disk device) (inputs_of_moves moves.now)) }

    ensures answered { HasAnswered (λ refused. faults_after refused.why) (D.disk device) (D.disk (left_by result))
        result }
{
    let mut session = match resume(alloc, device, cartridge) {
        Ok(session) => session,
        Err(refused) => return Err(refused),
    };
    match play_on(&mut session, alloc, cartridge, moves, report) {
        Ok(true) => Ok(session),
        Ok(false) => Err(Refused {
            why: SessionError::Memory,
            device: session.into_device(),
        }),
        Err(why) => Err(Refused {
            why,
            device: session.into_device(),
        }),
    }
}
