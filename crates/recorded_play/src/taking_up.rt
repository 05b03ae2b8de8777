//! A game that is taken up with its recording.
ghost use Rattle.std.specs.Prelude.{◌≡◌, [], length, false, Ok, Err, IfOk, IfErr};
ghost use Rattle.snapshot.specs.Legal.{IsMachineOf};
ghost use Rattle.sector_device.specs.DiskState.{HasAnswered};
ghost use Rattle.recording.specs.Accessors.{device_of as device_of_recording, is_broken as is_broken_recording};
ghost use Rattle.session.specs.Accessors.{device_of, machine_of, rom_of, pending_of, acknowledged_of, is_broken};
ghost use Rattle.session.specs.LookAccessors.{device_of_look, machine_of_look, rom_of_look, count_of_look, generation_of_look};
ghost use Rattle.log_format.specs.Content.{generation_in};
ghost use Rattle.replaying.specs.Agreeing.{AllAgree};
ghost use Rattle.recorded_play.specs.GoingOn.{LookAdvances, LookStops};
ghost use Rattle.recorded_play.specs.Steps.{save_faults_after, recording_faults_after};
ghost use Rattle.recorded_play.specs.Whole.{HasTakenUp, IsNotTakenUp, save_left, recording_left};

use crate::catching_up::catch_up;
use crate::error::{RecordError, RecordRefused};
use crate::recorded_game::RecordedGame;
use cartridge::Cartridge;
use recording::{Recording, open_recording};
use sector_device::SectorDevice;
use session::{Look, Session, look_at};
use std::alloc::Global;

/// Resumes the game that was looked at, and gives it what the recording has beyond it.
fn resume_and_catch_up<D: SectorDevice, E: SectorDevice>(
    alloc: Global,
    look: Look<D>,
    recording: Recording<E>,
    cartridge: &Cartridge,
) -> Result<RecordedGame<D, E>, RecordRefused<D, E>>
    requires rom { rom_of_look look ≡ cartridge.now }
    requires open { is_broken_recording recording ≡ false }
    requires generation { (D.disk (device_of_look look)).honest →
        generation_of_look look ≡ generation_in (D.disk (device_of_look look)).sectors }
    ensures goes { IfOk result (λ game.
        LookAdvances cartridge.now (D.disk (device_of_look look)) (D.disk (device_of game.session))
        (E.disk (device_of_recording recording)) (E.disk (device_of_recording game.recording))
        (record {
          count = count_of_look look;
          machine = machine_of_look look;
        }) (acknowledged_of game.session) (machine_of game.session)) }
    ensures whole { IfOk result (λ game. (pending_of game.session ≡ []) × (is_broken game.session ≡ false) ×
        (is_broken_recording game.recording ≡ false) × (rom_of game.session ≡ cartridge.now)) }
    ensures stops { IfErr result (λ refused.
        LookStops cartridge.now (D.disk (device_of_look look)) (D.disk refused.save)
        (E.disk (device_of_recording recording)) (E.disk refused.recording)
        (record { count = count_of_look look; machine = machine_of_look look }) refused.why) }
    ensures save_answered { HasAnswered (λ refused. save_faults_after refused.why) (D.disk (device_of_look look))
        (D.disk (save_left result)) result }
    ensures recording_answered { HasAnswered (λ refused. recording_faults_after refused.why)
        (E.disk (device_of_recording recording)) (E.disk (recording_left result)) result }
{
    let mut recording = recording;
    let mut session = match look.resume(alloc, cartridge) {
        Ok(session) => session,
        Err(refused) => return Err(RecordRefused {
            why: RecordError::Session(refused.why),
            save: refused.device,
            recording: recording.into_device(),
        }),
    };
    match catch_up(&mut session, &mut recording) {
        Ok(()) => Ok(RecordedGame { session, recording }),
        Err(why) => Err(RecordRefused {
            why,
            save: session.into_device(),
            recording: recording.into_device(),
        }),
    }
}

/// Takes up the game of a SAVE with its recording: what the recording has beyond the SAVE was
/// played, so the session is given it and saves it. Nothing is written to the recording.
///
/// Refusals, in this order: those of a look at the SAVE, as `Session`; those of opening the
/// recording, as `Recording`; `Behind` if the recording has fewer inputs than the SAVE, all with
/// nothing written; then `Session` with `Memory`, `GenerationsUsedUp` or `Device`, or `Recording` with `Device`.
pub fn take_up<D: SectorDevice, E: SectorDevice>(
    alloc: Global,
    save: D,
    recording: E,
    cartridge: &Cartridge,
) -> Result<RecordedGame<D, E>, RecordRefused<D, E>>
    ensures taken_up { IfOk result (λ game. HasTakenUp cartridge.now (D.disk save) (D.disk (device_of game.session))
        (E.disk recording) (E.disk (device_of_recording game.recording)) (acknowledged_of game.session)
        (machine_of game.session)) }
    ensures whole { IfOk result (λ game. (pending_of game.session ≡ []) × (is_broken game.session ≡ false) ×
        (is_broken_recording game.recording ≡ false) × (rom_of game.session ≡ cartridge.now)) }
    ensures refused { IfErr result (λ refused. IsNotTakenUp cartridge.now (D.disk save) (D.disk refused.save)
        (E.disk recording) (E.disk refused.recording) refused.why) }
    ensures agree { (D.disk save).honest → (E.disk recording).honest →
        AllAgree cartridge.now (D.disk save) (E.disk recording) →
        AllAgree cartridge.now (D.disk (save_left result)) (E.disk (recording_left result)) }
    ensures save_answered { HasAnswered (λ refused. save_faults_after refused.why) (D.disk save)
        (D.disk (save_left result)) result }
    ensures recording_answered { HasAnswered (λ refused. recording_faults_after refused.why) (E.disk recording)
        (E.disk (recording_left result)) result }
{
    let look = match look_at(alloc, save, cartridge) {
        Ok(look) => look,
        Err(refused) => return Err(RecordRefused {
            why: RecordError::Session(refused.why),
            save: refused.device,
            recording,
        }),
    };
    let recording = match open_recording(alloc, recording, cartridge.digest()) {
        Ok(recording) => recording,
        Err(refused) => return Err(RecordRefused {
            why: RecordError::Recording(refused.why),
            save: look.into_device(),
            recording: refused.device,
        }),
    };
    let count = recording.input_count();
    if count < look.count() {
        return Err(RecordRefused {
            why: RecordError::Behind(count),
            save: look.into_device(),
            recording: recording.into_device(),
        });
    }
    resume_and_catch_up(alloc, look, recording, cartridge)
}
