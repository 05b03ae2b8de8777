//! A game that is recorded, as what moves are made on.
ghost use Rattle.std.specs.Prelude.{◌≡◌, ◌∷◌, [], length, false, true};
ghost use Rattle.recording.specs.Accessors.{is_broken as is_broken_recording};
ghost use Rattle.session.specs.Inputs.{can_be_logged};
ghost use Rattle.session.specs.Accessors.{machine_of, rom_of, pending_of, acknowledged_of, is_broken};
ghost use Rattle.session.specs.declared.error.SessionError.TheVariants.{Output};
ghost use Rattle.recorded_play.specs.declared.error.RecordError.TheVariants.{Session as OfSession};
ghost use Rattle.recorded_play.specs.Steps.{game, BothAdvance, BothStop, told_as};

use crate::error::RecordError;
use crate::saving::save_both;
use cartridge::Cartridge;
use machine::{Input, Machine};
use playing::Playable;
use recording::Recording;
use sector_device::SectorDevice;
use session::{Counts, Session, SessionError};
use std::alloc::Global;

/// A game that is recorded: its session, and the recording of its inputs.
#[derive(Drop)]
pub struct RecordedGame<D: SectorDevice, E: SectorDevice> {
    pub session: Session<D>,
    pub recording: Recording<E>,
}

/// Each save writes what is unsaved to the recording, and only when that is synced saves the session.
impl<D: SectorDevice, E: SectorDevice> Playable for RecordedGame<D, E> {
    type Fault = RecordError;

    ghost acknowledged = { λ g. acknowledged_of g.session };

    ghost unsaved = { λ g. length (pending_of g.session) };

    ghost machine = { λ g. machine_of g.session };

    ghost rom = { λ g. rom_of g.session };

    ghost takes_states = { false };

    ghost whole = { λ g. (is_broken g.session ≡ false) × (is_broken_recording g.recording ≡ false) ×
        (can_be_logged (pending_of g.session) ≡ true) };

    ghost gives = { λ a b input. BothAdvance (game a.session a.recording) (game b.session b.recording) (input ∷ []) };

    ghost saves = { λ a b. BothAdvance (game a.session a.recording) (game b.session b.recording) [] };

    ghost refuses = { λ a b input why. BothStop (game a.session a.recording) (game b.session b.recording) (input ∷
        []) why };

    ghost fails = { λ a b why. BothStop (game a.session a.recording) (game b.session b.recording) [] why };

    ghost unwritten = { OfSession Output };

    ghost told_as = { λ why. told_as why };

    fn counts(&self) -> Counts {
        self.session.counts()
    }

    fn takes_states() -> bool {
        false
    }

    fn machine(&self) -> &Machine {
        self.session.machine()
    }

    fn draw_late(&mut self) {
        self.session.draw_late();
    }

    fn input(&mut self, input: Input) -> Result<(), RecordError> {
        match self.session.input(input) {
            Ok(()) => Ok(()),
            Err(why) => Err(RecordError::Session(why)),
        }
    }

    fn power(&mut self, _alloc: Global, _cartridge: &Cartridge) -> Result<bool, RecordError> {
        Ok(false)
    }

    fn restore(&mut self, _bytes: &[u8], _cartridge: &Cartridge) -> Result<bool, RecordError> {
        Ok(false)
    }

    fn save(&mut self) -> Result<u64, RecordError> {
        match save_both(&mut self.session, &mut self.recording) {
            Ok(count) => Ok(count),
            Err(why) => Err(why),
        }
    }

    fn unwritten() -> RecordError {
        RecordError::Session(SessionError::Output)
    }
}
