//! A save of both devices: the recording first.
ghost use Rattle.std.specs.Prelude.{◌≡◌, ◌+◌, [], List, ℕ, length, false, true, IfOk, IfErr, OnOk, OnErr};
ghost use Rattle.machine.specs.Machine.{Input as GivenInput};
ghost use Rattle.sector_device.specs.Runs.{HoldsSince};
ghost use Rattle.recording.specs.Accessors.{device_of as device_of_recording, is_broken as is_broken_recording};
ghost use Rattle.recording.specs.declared.fault.RecordingFault.TheVariants.{Full};
ghost use Rattle.session.specs.Inputs.{can_be_logged};
ghost use Rattle.session.specs.Accessors.{device_of, rom_of, pending_of, acknowledged_of, is_broken, IsUnchanged};
ghost use Rattle.replaying.specs.Agreeing.{Agrees, AllAgree};
ghost use Rattle.recorded_play.specs.Steps.{game, BothAdvance, BothStop, IsInStep};

use crate::error::RecordError;
use recording::Recording;
use sector_device::SectorDevice;
use session::{Session, SessionError};

/// Writes what is unsaved to the recording, and only when that is synced saves the session. The
/// answer is the count of all inputs, which both devices then have. With nothing unsaved it makes no
/// device call.
///
/// Refusals: `Recording` with `Full`, with no device call made, or `Device`; then `Session` with `GenerationsUsedUp` or `Device`: each image of the recording then has at least
/// the inputs that any image of the SAVE stands for.
pub fn save_both<D: SectorDevice, E: SectorDevice>(
    session: &mut Session<D>,
    recording: &mut Recording<E>,
) -> Result<u64, RecordError>
    requires whole { is_broken session.old ≡ false }
    requires open { is_broken_recording recording.old ≡ false }
    requires logged { can_be_logged (pending_of session.old) ≡ true }
    ensures saved { IfOk result (λ all. (all ≡ acknowledged_of session.old + length (pending_of session.old)) ×
        (acknowledged_of session.new ≡ all) × (pending_of session.new ≡ [])) }
    ensures whole { OnOk result ((is_broken session.new ≡ false) × (is_broken_recording recording.new ≡ false)) }
    ensures comes { OnOk result (BothAdvance (game session.old recording.old) (game session.new recording.new) []) }
    ensures halts { IfErr result (λ why.
        BothStop (game session.old recording.old) (game session.new recording.new) [] why) }
    ensures nothing { pending_of session.old ≡ [] →
        (recording.new ≡ recording.old) × IsUnchanged session.old session.new }
    ensures full { IfErr result (λ why. why ≡ RecordError.Recording Full →
        (recording.new ≡ recording.old) × (session.new ≡ session.old)) }
    ensures kept { OnErr result (acknowledged_of session.new ≡ acknowledged_of session.old) }
    ensures rom { rom_of session.new ≡ rom_of session.old }
    ensures no_output { IfErr result (λ why. ¬ (why ≡ RecordError.Session SessionError.Output)) }

    // At each moment: first the recording alone moves, then the SAVE alone.
    ensures recorded { (rom : List ℕ) (all : List GivenInput) → IsInStep rom (game session.old recording.old) all →
        HoldsSince (E.disk (device_of_recording recording.old)) (E.disk (device_of_recording recording.new)) (λ r.
        (s : List (List ℕ)) → (D.disk (device_of session.old)).image s → Agrees rom s r) }
    ensures moved { (rom : List ℕ) (all : List GivenInput) → IsInStep rom (game session.old recording.old) all →
        HoldsSince (D.disk (device_of session.old)) (D.disk (device_of session.new)) (λ s.
        (r : List (List ℕ)) → (E.disk (device_of_recording recording.new)).image r → Agrees rom s r) }
    ensures agree { (rom : List ℕ) (all : List GivenInput) → IsInStep rom (game session.old recording.old) all →
        AllAgree rom (D.disk (device_of session.new)) (E.disk (device_of_recording recording.new)) }
{
    if let Err(why) = recording.append(session.unsaved()) {
        return Err(RecordError::Recording(why));
    }
    match session.save() {
        Ok(count) => Ok(count),
        Err(why) => Err(RecordError::Session(why)),
    }
}
