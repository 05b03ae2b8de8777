//! What takes a game up from its devices and plays it.
ghost use Rattle.std.specs.Prelude.{◌≡◌, IfOk, IfErr};
ghost use Rattle.whole_lives.specs.Lives.{Asking};
ghost use Rattle.whole_lives.specs.Devices.{EachStands, IsSound, IsTakenUp, Obeying, Refusing, memories, memories_of, position_of};
ghost use Rattle.whole_lives.specs.Rounds.{GivesWhole, StopsGiving};

use crate::devices::Devices;
use crate::error::LifeRefused;
use cartridge::Cartridge;
use recording::Recording;
use sector_device::MemoryDevice;
use session::Session;
use std::alloc::Global;

/// A game that was taken up, and its recording, where it has one.
#[derive(Drop)]
pub struct Game {
    pub session: Session<MemoryDevice>,
    pub recording: Option<Recording<MemoryDevice>>,
}

impl Game {
    /// Its devices.
    pub(crate) fn into_devices(self) -> Devices
        ensures { memories result ≡ memories_of self }
    {
        let Game { session, recording } = self;
        Devices {
            save: session.into_device(),
            recording: match recording {
                Some(recording) => Some(recording.into_device()),
                None => None,
            },
        }
    }
}

/// What was given to a game, and what it reported.
#[derive(Drop)]
pub struct Given {
    pub game: Game,
    pub report: Vec<u8>,
}

/// A refusal, and what was reported before it.
#[derive(Drop)]
pub struct Stopped {
    pub refused: LifeRefused,
    pub report: Vec<u8>,
}

/// What takes a game up from its devices and plays it by a text, whose words are its own: whatever they ask for, a life is one.
pub trait Player {
    /// What a text asks for of a game that goes on at a position, and what is told of it.
    ghost asks: { Asking };

    /// What it says of a text that it obeyed to its end: what the devices were and are, and its report.
    ghost obeys: { Obeying };

    /// Why a text is refused, and its report up to there.
    ghost refuses: { Refusing };

    /// Takes the game up and obeys the text to its end.
    fn play(
        alloc: Global,
        devices: Devices,
        cartridge: &Cartridge,
        text: &[u8],
    ) -> Result<Given, Stopped>
        ensures gives { IfOk result (λ given.
            GivesWhole asks obeys cartridge.now (memories devices) (memories_of given.game) text.now given.report.items
            (position_of given.game)) }
        ensures begun { IfOk result (λ given. IsTakenUp cartridge.now given.game) }
        ensures stops { IfErr result (λ stopped.
            StopsGiving asks refuses cartridge.now (memories devices) (memories stopped.refused.devices) text.now
            stopped.report.items stopped.refused.why) }
        ensures sound { IfErr result (λ stopped.
            EachStands cartridge.now (memories devices) → IsSound stopped.refused.why) };
}
