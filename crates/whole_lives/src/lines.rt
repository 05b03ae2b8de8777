//! A game played by lines, as the program plays it.
ghost use Rattle.std.specs.Prelude.{◌≡◌, Some, None, IfOk, IfErr};
ghost use Rattle.sector_device.specs.MemoryDevice.{memory};
ghost use Rattle.whole_lives.specs.Devices.{EachStands, IsSound, IsTakenUp, memories, memories_of, position_of};
ghost use Rattle.whole_lives.specs.Lines.{AskByLines, ObeyLines, RefuseLines};
ghost use Rattle.whole_lives.specs.Rounds.{GivesWhole, StopsGiving};

use crate::devices::Devices;
use crate::error::{LifeError, LifeRefused};
use crate::player::{Game, Given, Player, Stopped};
use cartridge::Cartridge;
use exact_text::CheckedOutput;
use input_lines::CheckedInput;
use recorded_play::record;
use sector_device::MemoryDevice;
use std::alloc::Global;
use streaming::stream;

/// Resumes the game of a SAVE alone and obeys the lines.
fn give_alone(
    alloc: Global,
    save: MemoryDevice,
    cartridge: &Cartridge,
    lines: &[u8],
) -> Result<Given, Stopped>
    ensures gives { IfOk result (λ given.
        GivesWhole AskByLines ObeyLines cartridge.now (record { save = memory save; recording = None }) (memories_of given.game) lines.now
        given.report.items (position_of given.game)) }
    ensures begun { IfOk result (λ given. IsTakenUp cartridge.now given.game) }
    ensures stops { IfErr result (λ stopped.
        StopsGiving AskByLines RefuseLines cartridge.now (record { save = memory save; recording = None }) (memories stopped.refused.devices)
        lines.now stopped.report.items stopped.refused.why) }
    ensures sound { IfErr result (λ stopped.
        EachStands cartridge.now (record { save = memory save; recording = None }) → IsSound stopped.refused.why) }
{
    let mut input = CheckedInput::new(lines);
    let mut report = CheckedOutput::new(Vec::new(alloc));
    match stream(alloc, save, cartridge, &mut input, &mut report) {
        Ok(session) => Ok(Given {
            game: Game {
                session,
                recording: None,
            },
            report: report.into_writer(),
        }),
        Err(refused) => Err(Stopped {
            refused: LifeRefused {
                why: LifeError::Stream(refused.why),
                devices: Devices {
                    save: refused.device,
                    recording: None,
                },
            },
            report: report.into_writer(),
        }),
    }
}

/// Takes up a game with its recording and obeys the lines.
fn give_recorded(
    alloc: Global,
    save: MemoryDevice,
    recording: MemoryDevice,
    cartridge: &Cartridge,
    lines: &[u8],
) -> Result<Given, Stopped>
    ensures gives { IfOk result (λ given.
        GivesWhole AskByLines ObeyLines cartridge.now (record { save = memory save; recording = Some (memory recording) })
        (memories_of given.game) lines.now given.report.items (position_of given.game)) }
    ensures begun { IfOk result (λ given. IsTakenUp cartridge.now given.game) }
    ensures stops { IfErr result (λ stopped.
        StopsGiving AskByLines RefuseLines cartridge.now (record { save = memory save; recording = Some (memory recording) })
        (memories stopped.refused.devices) lines.now stopped.report.items stopped.refused.why) }
    ensures sound { IfErr result (λ stopped.
        EachStands cartridge.now (record { save = memory save; recording = Some (memory recording) }) →
        IsSound stopped.refused.why) }
{
    let mut input = CheckedInput::new(lines);
    let mut report = CheckedOutput::new(Vec::new(alloc));
    match record(alloc, save, recording, cartridge, &mut input, &mut report) {
        Ok(recorded) => Ok(Given {
            game: Game {
                session: recorded.session,
                recording: Some(recorded.recording),
            },
            report: report.into_writer(),
        }),
        Err(refused) => Err(Stopped {
            refused: LifeRefused {
                why: LifeError::Record(refused.why),
                devices: Devices {
                    save: refused.save,
                    recording: Some(refused.recording),
                },
            },
            report: report.into_writer(),
        }),
    }
}

/// Plays by the lines of a stream: as `stream` does, or as `record` where there is a recording.
pub struct Lines;

impl Player for Lines {
    ghost asks = { AskByLines };

    ghost obeys = { ObeyLines };

    ghost refuses = { RefuseLines };

    fn play(
        alloc: Global,
        devices: Devices,
        cartridge: &Cartridge,
        text: &[u8],
    ) -> Result<Given, Stopped> {
        let Devices { save, recording } = devices;
        match recording {
            Some(recording) => give_recorded(alloc, save, recording, cartridge, text),
            None => give_alone(alloc, save, cartridge, text),
        }
    }
}
