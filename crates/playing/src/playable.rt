//! What moves are made on: a game that inputs are given to, and that is saved.
ghost use Rattle.std.specs.Prelude.{◌≡◌, ◌≢◌, ◌<◌, ◌+◌, ◌-◌, ◌^◌, ◌∷◌, [], ℕ, List, Bool, length, true, false, OnOk, OnErr, IfOk, IfErr};
ghost use Rattle.machine.specs.Machine.{MachineState, Input as GivenInput, Power, State, as_input, applied};
ghost use Rattle.snapshot.specs.Legal.{IsLegalSnapshot, IsOfImage};
ghost use Rattle.snapshot.specs.Reading.{machine_in};
ghost use Rattle.session.specs.Calls.{most_unsaved};
ghost use Rattle.session.specs.Accessors.{machine_of, rom_of, pending_of, acknowledged_of, is_broken};
ghost use Rattle.session.specs.declared.error.SessionError.{SessionError as WhyOfSession};
ghost use Rattle.session.specs.declared.error.SessionError.TheVariants.{Output};
ghost use Rattle.playing.specs.Going.{place, SaveAdvances, SaveStops};

use cartridge::Cartridge;
use machine::{Input, Machine};
use sector_device::SectorDevice;
use session::{Counts, Session, SessionError};
use std::alloc::Global;

/// A game that inputs are given to, and that is saved.
pub trait Playable {
    /// Why an input, a save or a line of a report is refused.
    type Fault;

    /// How many of its inputs are acknowledged as saved.
    ghost acknowledged: { Self → ℕ };

    /// How many are not.
    ghost unsaved: { Self → ℕ };

    /// The machine after all of them.
    ghost machine: { Self → MachineState };

    /// The ROM of its cartridge.
    ghost rom: { Self → List ℕ };

    /// Whether the power switch and another machine of the cartridge are inputs of it, too.
    ghost takes_states: { Bool };

    /// Whether it goes on: no save of it failed half way.
    ghost whole: { Self → Type 0 };

    /// An input leads from here to there.
    ghost gives: { Self → Self → GivenInput → Type 0 };

    /// A save leads from here to there.
    ghost saves: { Self → Self → Type 0 };

    /// An input is refused, which leads from here to there.
    ghost refuses: { Self → Self → GivenInput → Self.Fault → Type 0 };

    /// A save is refused, which leads from here to there.
    ghost fails: { Self → Self → Self.Fault → Type 0 };

    /// The fault of a line that could not be written.
    ghost unwritten: { Self.Fault };

    /// What a fault is to a report: only a line that could not be written is written in part.
    ghost told_as: { Self.Fault → WhyOfSession };

    /// How many inputs there are, how many are saved and how many are not.
    fn counts(&self) -> Counts
        ensures all { result.all ≡ acknowledged self.now + unsaved self.now }
        ensures pending { result.pending ≡ unsaved self.now };

    /// Whether the power switch and another machine of the cartridge are inputs of it, too.
    fn takes_states() -> bool
        ensures { result ≡ takes_states };

    /// The machine after all inputs.
    fn machine(&self) -> &Machine
        ensures machine { result.now ≡ machine self.now }
        ensures of { IsOfImage (rom self.now) (machine self.now) };

    /// Draws the lines of the machine's picture that were only noted when they were due.
    fn draw_late(&mut self)
        ensures { self.new ≡ self.old };

    /// Gives the machine one input, which is not saved yet.
    fn input(&mut self, input: Input) -> Result<(), Self::Fault>
        requires whole { whole self.old }
        requires few { unsaved self.old < most_unsaved }
        ensures given { OnOk result (gives self.old self.new (as_input input)) }
        ensures machine { OnOk result (machine self.new ≡ applied (as_input input) (machine self.old)) }
        ensures unsaved { OnOk result (unsaved self.new ≡ unsaved self.old + 1) }
        ensures whole { OnOk result (whole self.new) }
        ensures refused { IfErr result (λ why. refuses self.old self.new (as_input input) why) }
        ensures acknowledged { acknowledged self.new ≡ acknowledged self.old }
        ensures rom { rom self.new ≡ rom self.old }
        ensures not_told { IfErr result (λ why. told_as why ≡ SessionError.Output → ⊥) };

    /// Switches the power of the machine off and on, which is not saved yet. The answer is whether there was memory for it: where there is
    /// none, nothing changes, and one more input could have been counted. A game that takes no states answers the same as one with no memory.
    fn power(&mut self, alloc: Global, cartridge: &Cartridge) -> Result<bool, Self::Fault>
        requires whole { whole self.old }
        requires few { unsaved self.old < most_unsaved }
        requires of { rom self.old ≡ cartridge.now }
        ensures given { IfOk result (λ done. done ≡ true → gives self.old self.new Power) }
        ensures machine { IfOk result (λ done. done ≡ true → machine self.new ≡ applied Power (machine self.old)) }
        ensures unsaved { IfOk result (λ done. done ≡ true → unsaved self.new ≡ unsaved self.old + 1) }
        ensures nothing { IfOk result (λ done. done ≡ false → (self.new ≡ self.old) ×
            (takes_states ≡ true → acknowledged self.old + unsaved self.old ≢ 2 ^ 64 - 1)) }
        ensures whole { OnOk result (whole self.new) }
        ensures refused { IfErr result (λ why. refuses self.old self.new Power why) }
        ensures acknowledged { acknowledged self.new ≡ acknowledged self.old }
        ensures rom { rom self.new ≡ rom self.old }
        ensures not_told { IfErr result (λ why. told_as why ≡ SessionError.Output → ⊥) };

    /// Goes on with the machine of a snapshot, which is not saved yet. The answer is whether the bytes are a legal snapshot of the cartridge:
    /// where they are none, nothing changes. A game that takes no states answers the same.
    fn restore(&mut self, bytes: &[u8], cartridge: &Cartridge) -> Result<bool, Self::Fault>
        requires whole { whole self.old }
        requires few { unsaved self.old < most_unsaved }
        requires of { rom self.old ≡ cartridge.now }
        ensures given { IfOk result (λ done.
            done ≡ true → gives self.old self.new (State (machine_in cartridge.now bytes.now))) }
        ensures machine { IfOk result (λ done. done ≡ true → machine self.new ≡ machine_in cartridge.now bytes.now) }
        ensures legal { IfOk result (λ done. done ≡ true → IsLegalSnapshot cartridge.now bytes.now) }
        ensures unsaved { IfOk result (λ done. done ≡ true → unsaved self.new ≡ unsaved self.old + 1) }
        ensures nothing { IfOk result (λ done.
            done ≡ false → (self.new ≡ self.old) × (takes_states ≡ true → ¬ IsLegalSnapshot cartridge.now bytes.now)) }
        ensures whole { OnOk result (whole self.new) }
        ensures refused { IfErr result (λ why.
            refuses self.old self.new (State (machine_in cartridge.now bytes.now)) why) }
        ensures acknowledged { acknowledged self.new ≡ acknowledged self.old }
        ensures rom { rom self.new ≡ rom self.old }
        ensures not_told { IfErr result (λ why. told_as why ≡ SessionError.Output → ⊥) };

    /// Saves what is not saved. The answer is the count of all inputs.
    fn save(&mut self) -> Result<u64, Self::Fault>
        requires whole { whole self.old }
        ensures saved { OnOk result (saves self.old self.new) }
        ensures all { IfOk result (λ all. all ≡ acknowledged self.old + unsaved self.old) }
        ensures machine { OnOk result (machine self.new ≡ machine self.old) }
        ensures acknowledged { OnOk result (acknowledged self.new ≡ acknowledged self.old + unsaved self.old) }
        ensures unsaved { OnOk result (unsaved self.new ≡ 0) }
        ensures whole { OnOk result (whole self.new) }
        ensures failed { IfErr result (λ why. fails self.old self.new why) }
        ensures kept { OnErr result (acknowledged self.new ≡ acknowledged self.old) }
        ensures rom { rom self.new ≡ rom self.old }
        ensures not_told { IfErr result (λ why. told_as why ≡ SessionError.Output → ⊥) };

    /// The fault of a line that could not be written.
    fn unwritten() -> Self::Fault
        ensures is { result ≡ unwritten }
        ensures told { told_as unwritten ≡ SessionError.Output };
}

impl<D: SectorDevice> Playable for Session<D> {
    type Fault = SessionError;

    ghost acknowledged = { λ s. acknowledged_of s };

    ghost unsaved = { λ s. length (pending_of s) };

    ghost machine = { λ s. machine_of s };

    ghost rom = { λ s. rom_of s };

    ghost takes_states = { true };

    ghost whole = { λ s. is_broken s ≡ false };

    ghost gives = { λ a b input. SaveAdvances (place a) (place b) (input ∷ []) };

    ghost saves = { λ a b. SaveAdvances (place a) (place b) [] };

    ghost refuses = { λ a b input why. SaveStops (place a) (place b) (input ∷ []) why };

    ghost fails = { λ a b why. SaveStops (place a) (place b) [] why };

    ghost unwritten = { Output };

    ghost told_as = { λ why. why };

    fn counts(&self) -> Counts {
        Session::counts(self)
    }

    fn takes_states() -> bool {
        true
    }

    fn machine(&self) -> &Machine {
        Session::machine(self)
    }

    fn draw_late(&mut self) {
        Session::draw_late(self);
    }

    fn input(&mut self, input: Input) -> Result<(), SessionError> {
        match Session::input(self, input) {
            Ok(()) => Ok(()),
            Err(why) => Err(why),
        }
    }

    fn power(&mut self, alloc: Global, cartridge: &Cartridge) -> Result<bool, SessionError> {
        match Session::power(self, alloc, cartridge) {
            Ok(()) => Ok(true),
            Err(why) => match why {
                SessionError::Memory => Ok(false),
                _ => Err(why),
            },
        }
    }

    fn restore(&mut self, bytes: &[u8], cartridge: &Cartridge) -> Result<bool, SessionError> {
        match Session::restore(self, bytes, cartridge) {
            Ok(()) => Ok(true),
            Err(why) => match why {
                SessionError::Damaged(_) => Ok(false),
                _ => Err(why),
            },
        }
    }

    fn save(&mut self) -> Result<u64, SessionError> {
        match Session::save(self) {
            Ok(count) => Ok(count),
            Err(why) => Err(why),
        }
    }

    fn unwritten() -> SessionError {
        SessionError::Output
    }
}
