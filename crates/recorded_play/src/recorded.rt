//! A whole recorded play.
ghost use Rattle.std.specs.Prelude.{◌≡◌, [], false, true, Ok, Err, IfOk, IfErr};
ghost use Rattle.sector_device.specs.DiskState.{HasAnswered};
ghost use Rattle.recording.specs.Accessors.{device_of as device_of_recording, is_broken as is_broken_recording};
ghost use Rattle.session.specs.Stands.{IsAtRest};
ghost use Rattle.session.specs.Accessors.{device_of, machine_of, rom_of, pending_of, acknowledged_of, is_broken};
ghost use Rattle.streaming.specs.declared.obeying.End.TheVariants.{Whole as WholeInput};
ghost use Rattle.replaying.specs.Agreeing.{AllAgree};
ghost use Rattle.recorded_play.specs.Steps.{save_faults_after, recording_faults_after};
ghost use Rattle.recorded_play.specs.Whole.{HasRecorded, IsRecordCause, save_left, recording_left};

use crate::error::{RecordError, RecordRefused};
use crate::recorded_game::RecordedGame;
use crate::taking_up::take_up;
use cartridge::Cartridge;
use exact_text::Output;
use input_lines::LineInput;
use sector_device::SectorDevice;
use session::SessionError;
use std::alloc::Global;
use streaming::{End, StateRoom, stream_on};

/// What is left of a game that stops.
fn stopped<D: SectorDevice, E: SectorDevice>(
    game: RecordedGame<D, E>,
    why: RecordError,
) -> RecordRefused<D, E>
    ensures { result ≡ record {
      why = why;
      save = device_of game.session;
      recording = device_of_recording game.recording;
    } }
{
    let RecordedGame { session, recording } = game;
    RecordRefused {
        why,
        save: session.into_device(),
        recording: recording.into_device(),
    }
}

/// Takes up a game with its recording, writes `resumed N`, with N the count of all inputs, which
/// both devices have, and obeys the lines of an input as `stream` does, but that `power`, `restore`, `keep` and `back` are wrong
/// lines, and that each save writes the unsaved inputs to the recording first. Whatever is left of both devices agrees if it did
/// before: a power cut at any moment is two devices whose calls all fail from then on.
///
/// Refusals: `Session` with `Memory` for the room for a snapshot, and those of `take_up`, with nothing read and nothing written to the report; then whichever
/// comes first of `Recording` with `Full`, with nothing of that save written, or `Device`, and
/// `Session` with `GenerationsUsedUp`, `Device`, `CountFull` or `Output`; `Line` with the number of the first
/// wrong line, counted from 1, and `Input` if a read fails, both once what was given before is saved
/// and reported.
pub fn record<D: SectorDevice, E: SectorDevice, R: LineInput, W: Output>(
    alloc: Global,
    save: D,
    recording: E,
    cartridge: &Cartridge,
    input: &mut R,
    out: &mut W,
) -> Result<RecordedGame<D, E>, RecordRefused<D, E>>
    ensures recorded { IfOk result (λ game. HasRecorded cartridge.now (D.disk save) (D.disk (device_of game.session))
        (E.disk recording) (E.disk (device_of_recording game.recording)) WholeInput (R.remaining input.old)
        (R.remaining input.new)
        (W.contents out.old) (W.contents out.new)) }
    ensures whole { IfOk result (λ game. (pending_of game.session ≡ []) × (is_broken game.session ≡ false) ×
        (is_broken_recording game.recording ≡ false) × (rom_of game.session ≡ cartridge.now)) }
    ensures rests { IfOk result (λ game. (D.disk save).honest →
        IsAtRest cartridge.now (D.disk (device_of game.session)) (acknowledged_of game.session) []
        (machine_of game.session)) }
    ensures refused { IfErr result (λ refused.
        IsRecordCause refused.why cartridge.now (D.disk save) (D.disk refused.save)
        (E.disk recording) (E.disk refused.recording) (R.remaining input.old) (R.remaining input.new)
        (W.contents out.old) (W.contents out.new)) }

    // only a read and a write that failed are told as such
    ensures input { IfErr result (λ refused. refused.why ≡ RecordError.Input → R.has_failed input.new ≡ true) }
    ensures output { IfErr result (λ refused. refused.why ≡ RecordError.Session SessionError.Output →
        W.has_failed out.new ≡ true) }

    // Whatever a power cut leaves of both agrees.
    ensures agree { (D.disk save).honest → (E.disk recording).honest →
        AllAgree cartridge.now (D.disk save) (E.disk recording) →
        AllAgree cartridge.now (D.disk (save_left result)) (E.disk (recording_left result)) }

    ensures save_answered { HasAnswered (λ refused. save_faults_after refused.why) (D.disk save)
        (D.disk (save_left result)) result }
    ensures recording_answered { HasAnswered (λ refused. recording_faults_after refused.why) (E.disk recording)
        (E.disk (recording_left result)) result }
{
    let Ok(mut room) = StateRoom::new(alloc, cartridge) else {
        return Err(RecordRefused {
            why: RecordError::Session(SessionError::Memory),
            save,
            recording,
        });
    };
    let mut game = match take_up(alloc, save, recording, cartridge) {
        Ok(game) => game,
        Err(refused) => return Err(refused),
    };
    match stream_on(&mut game, alloc, cartridge, &mut room, input, out) {
        Ok(End::Whole) => Ok(game),
        Ok(End::Wrong(number)) => Err(stopped(game, RecordError::Line(number))),
        Ok(End::Failed) => Err(stopped(game, RecordError::Input)),
        Ok(End::Damaged) => unreachable!(),
        Ok(End::OtherCartridge) => unreachable!(),
        Ok(End::NoMemory) => unreachable!(),
        Err(why) => Err(stopped(game, why)),
    }
}
