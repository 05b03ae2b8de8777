//! A session: a machine, the inputs that are not saved, and the log on its device.
ghost use Rattle.std.specs.Prelude.{◌≡◌, ◌↔◌, ◌≤◌, ◌<◌, ◌+◌, ◌-◌, ◌^◌, ◌⊎◌, ◌++◌, ◌∷◌, [], false, true, length, vec_capacity, Some, Ok, Err, OnOk, OnErr, IfOk, IfErr, IsErrOf};
ghost use Rattle.sha2.specs.Sha256.{sha256};
ghost use Rattle.machine.specs.Machine.{Power, State, as_input, applied};
ghost use Rattle.snapshot.specs.Encoding.{encoded, snapshot_length};
ghost use Rattle.snapshot.specs.Legal.{IsMachineOf, IsOfImage};
ghost use Rattle.sector_device.specs.DiskState.{HasAnswered, HasHanded};
ghost use Rattle.sector_device.specs.Runs.{HoldsSince};
ghost use Rattle.log_format.specs.Content.{need, generation_in};
ghost use Rattle.sector_log.specs.Accessors.{device_of as device_of_store, is_broken as is_broken_store, id_of, entries_of};
ghost use Rattle.session.specs.Calls.{IsRestoreAnswer, IsSaved, IsSaveCause, most_unsaved, input_answer, faults_after, fits_log};
ghost use Rattle.session.specs.Stands.{IsAtRest, StandsAt, StandsBetween};
ghost use Rattle.session.specs.Inputs.{can_be_logged, entry_of, inputs_of, no_input};
ghost use Rattle.session.specs.Resting.{IsOfItsRom, own_prop, LeadsTo, leads_prop, RestsUnlessBroken, rests_prop};
ghost use Rattle.session.specs.declared.error.SessionError.TheVariants.{Memory};

use crate::entry::{entry_of, no_input};
use crate::error::{Damage, SessionError};
use crate::save::{push, write_pending};
use cartridge::Cartridge;
use machine::{Input, Machine};
use sector_device::{HandingDevice, SectorDevice};
use sector_log::{Entry, Store};
use snapshot::{decode_into, powered};
use std::alloc::Global;
use std::mem;
use std::snapshot::Snapshot;

/// The most inputs that can be unsaved.
pub const MOST_UNSAVED: u64 = 3_200;

/// How many inputs there are, and how many of them are saved.
#[derive(Clone, Copy, Debug, PartialEq, Eq)]
pub struct Counts {
    /// All inputs that were accepted since the new game.
    pub all: u64,
    /// Those of them that no power cut can lose any more.
    pub acknowledged: u64,
    /// The others.
    pub pending: u64,
}

/// A game that is being played. `new_game`, `new_game_from` and `resume` allocate all that it
/// needs: no call of it takes memory.
#[derive(Drop)]
pub struct Session<D: SectorDevice> {
    pub(crate) store: Store<D>,
    pub(crate) machine: Machine,
    /// The inputs that are not saved, an entry each.
    pub(crate) pending: Vec<Entry>,
    /// Room for a snapshot.
    pub(crate) encoded: Vec<u8>,
    pub(crate) acknowledged: u64,
    /// The machine after the saved inputs, which clauses alone know: it takes no memory.
    pub(crate) saved: Snapshot<Machine>,
    ghost few: { length pending.items ≤ most_unsaved },
    ghost reserved: { most_unsaved ≤ vec_capacity pending },
    ghost counted: { acknowledged + length pending.items < 2 ^ 64 },
    ghost room: { length encoded.items ≡ snapshot_length (length machine.processor.memory.banks.ram) },
    ghost short: { length encoded.items < 2 ^ 32 },
    ghost large: { need (length encoded.items) ≤ length (D.disk (device_of_store store)).sectors },
    ghost id: { id_of store ≡ sha256 machine.processor.memory.banks.rom },
    ghost own: { IsOfItsRom machine } by { own_prop machine },
    ghost leads: { LeadsTo saved.value pending.items machine } by { leads_prop saved.value pending.items machine },
    ghost rests: { RestsUnlessBroken machine.processor.memory.banks.rom (D.disk (device_of_store store)) (entries_of store) (record { count = acknowledged; machine = saved.value }) (is_broken_store store) } by { rests_prop machine.processor.memory.banks.rom (D.disk (device_of_store store)) (entries_of store) (record { count = acknowledged; machine = saved.value }) (is_broken_store store) },
}

impl<D: SectorDevice> Session<D> {
    ghost use Rattle.session.specs.Accessors.{device_of, machine_of, rom_of, pending_of, acknowledged_of, saved_of, is_broken, log_in, generation_in_use, IsUnchanged};

    // A session with nothing pending over the store of a new generation.
    pub(crate) fn at(
        store: Store<D>,
        machine: Machine,
        pending: Vec<Entry>,
        encoded: Vec<u8>,
        acknowledged: u64,
    ) -> Self
        requires whole { is_broken_store store ≡ false }
        requires empty { pending.items ≡ [] }
        requires reserved { most_unsaved ≤ vec_capacity pending }
        requires room { length encoded.items ≡ snapshot_length (length machine.processor.memory.banks.ram) }
        requires short { length encoded.items < 2 ^ 32 }
        requires large { need (length encoded.items) ≤ length (D.disk (device_of_store store)).sectors }
        requires id { id_of store ≡ sha256 machine.processor.memory.banks.rom }
        requires own { IsOfItsRom machine }
        requires rests { RestsUnlessBroken machine.processor.memory.banks.rom (D.disk (device_of_store store))
            (entries_of store) (record { count = acknowledged; machine = machine }) false }
        ensures store { result.store ≡ store }
        ensures machine { result.machine ≡ machine }
        ensures pending { result.pending.items ≡ [] }
        ensures acknowledged { result.acknowledged ≡ acknowledged }
        ensures saved { result.saved.value ≡ machine }
    {
        let saved = Snapshot::of(&machine);
        Session {
            store,
            machine,
            pending,
            encoded,
            acknowledged,
            saved,
        }
    }

    /// How many inputs there are, how many are saved and how many are not.
    pub fn counts(&self) -> Counts
        ensures { result ≡ record {
          all = acknowledged_of self.now + length (pending_of self.now);
          acknowledged = acknowledged_of self.now;
          pending = length (pending_of self.now);
        } }
    {
        let pending = self.pending.len() as u64;
        Counts {
            all: self.acknowledged + pending,
            acknowledged: self.acknowledged,
            pending,
        }
    }

    /// The machine after all inputs.
    pub fn machine(&self) -> &Machine
        ensures machine { result.now ≡ machine_of self.now }
        ensures of { IsOfImage (rom_of self.now) (machine_of self.now) }
    {
        &self.machine
    }

    /// The inputs that are not saved, the first of them first. For a power switch or another machine there stands an entry that is no
    /// input of a log.
    pub fn unsaved(&self) -> &[Entry]
        ensures pending { result.now ≡ pending_of self.now }
    {
        &self.pending
    }

    /// A read-only view of the device. Unless the session is broken, its one image stands for the saved inputs and the machine after them,
    /// whatever the unsaved ones are; what they lead to with the unsaved ones is said where these can be logged.
    pub fn device(&self) -> &D
        ensures device { result.now ≡ device_of self.now }
        ensures rests { is_broken self.now ≡ false → can_be_logged (pending_of self.now) ≡ true →
            (D.disk (device_of self.now)).honest →
            IsAtRest (rom_of self.now) (D.disk (device_of self.now)) (acknowledged_of self.now) (pending_of self.now)
            (machine_of self.now) }
        ensures stands { is_broken self.now ≡ false → (D.disk (device_of self.now)).honest →
            StandsAt (rom_of self.now) (D.disk (device_of self.now)) (saved_of self.now) }
    {
        self.store.device()
    }

    /// Draws the lines of the machine's picture that were only noted when they were due. No value
    /// changes: the rows are then read and written quickly.
    pub fn draw_late(&mut self)
        ensures { self.new ≡ self.old }
    {
        self.machine.draw_late();
    }

    /// Gives the machine one input, which is not saved yet. It makes no device call.
    ///
    /// Refusals, in this order, none of which changes anything: `Broken`; `SaveFirst` at 3,200
    /// unsaved inputs; `CountFull` at `u64::MAX` inputs.
    pub fn input(&mut self, input: Input) -> Result<(), SessionError>
        ensures answer { result ≡ input_answer (is_broken self.old) (length (pending_of self.old))
            (acknowledged_of self.old + length (pending_of self.old)) }
        ensures machine { OnOk result (machine_of self.new ≡ applied (as_input input) (machine_of self.old)) }
        ensures pending { OnOk result (pending_of self.new ≡ pending_of self.old ++ entry_of (as_input input) ∷ []) }
        ensures given { OnOk result (inputs_of (pending_of self.new) ≡
            inputs_of (pending_of self.old) ++ as_input input ∷ []) }
        ensures logged { OnOk result (can_be_logged (pending_of self.new) ≡ can_be_logged (pending_of self.old)) }
        ensures refused { OnErr result (IsUnchanged self.old self.new) }
        ensures device { device_of self.new ≡ device_of self.old }
        ensures kept { (acknowledged_of self.new ≡ acknowledged_of self.old) ×
            (is_broken self.new ≡ is_broken self.old) ×
            (rom_of self.new ≡ rom_of self.old) }
        ensures saved { saved_of self.new ≡ saved_of self.old }
        ensures log { (log_in self.new ≡ log_in self.old) × (generation_in_use self.new ≡ generation_in_use self.old) }
    {
        if let Err(why) = self.takes_input() {
            return Err(why);
        }
        self.machine.apply(input);
        push(&mut self.pending, entry_of(input));
        Ok(())
    }

    // Whether one more input is taken.
    fn takes_input(&self) -> Result<(), SessionError>
        ensures answer { result ≡ input_answer (is_broken self.now) (length (pending_of self.now))
            (acknowledged_of self.now + length (pending_of self.now)) }
        ensures few { OnOk result (length (pending_of self.now) < most_unsaved) }
        ensures counted { OnOk result (acknowledged_of self.now + length (pending_of self.now) < 2 ^ 64 - 1) }
    {
        if self.store.is_broken() {
            return Err(SessionError::Broken);
        }
        let pending = self.pending.len();
        if pending == MOST_UNSAVED as usize {
            return Err(SessionError::SaveFirst);
        }
        if self.acknowledged + pending as u64 == u64::MAX {
            return Err(SessionError::CountFull);
        }
        Ok(())
    }

    /// Goes on with the machine of a snapshot: one input, which no log holds and which is not saved yet. It makes no device call and takes no
    /// memory; the next save begins a generation with a snapshot.
    ///
    /// Condition: the cartridge is the session's own.
    ///
    /// Refusals, in this order, none of which changes anything: those of `input`; `Damaged` with `Snapshot`, for bytes that are no legal
    /// snapshot of the cartridge.
    pub fn restore(&mut self, bytes: &[u8], cartridge: &Cartridge) -> Result<(), SessionError>
        requires { rom_of self.old ≡ cartridge.now }
        ensures answer { IsRestoreAnswer cartridge.now bytes.now
            (input_answer (is_broken self.old) (length (pending_of self.old))
            (acknowledged_of self.old + length (pending_of self.old))) result }
        ensures machine { OnOk result (IsMachineOf cartridge.now (machine_of self.new) ×
            (encoded (machine_of self.new) ≡ bytes.now)) }
        ensures pending { OnOk result (pending_of self.new ≡
            pending_of self.old ++ entry_of (State (machine_of self.new)) ∷ []) }
        ensures refused { OnErr result (IsUnchanged self.old self.new) }
        ensures same { OnErr result (self.new ≡ self.old) }
        ensures device { device_of self.new ≡ device_of self.old }
        ensures kept { (acknowledged_of self.new ≡ acknowledged_of self.old) ×
            (is_broken self.new ≡ is_broken self.old) ×
            (rom_of self.new ≡ rom_of self.old) }
        ensures saved { saved_of self.new ≡ saved_of self.old }
        ensures log { (log_in self.new ≡ log_in self.old) × (generation_in_use self.new ≡ generation_in_use self.old) }
    {
        if let Err(why) = self.takes_input() {
            return Err(why);
        }
        match decode_into(bytes, cartridge, &mut self.machine) {
            Ok(()) => {
                push(&mut self.pending, no_input());
                Ok(())
            }
            Err(fault) => Err(SessionError::Damaged(Damage::Snapshot(fault))),
        }
    }

    /// Switches the power of the machine off and on: one input, which no log holds and which is not saved yet. It makes no device call; the
    /// next save begins a generation with a snapshot.
    ///
    /// Condition: the cartridge is the session's own.
    ///
    /// Refusals: those of `input`, in its order; then `Memory`, for the machine at power-on.
    pub fn power(&mut self, alloc: Global, cartridge: &Cartridge) -> Result<(), SessionError>
        requires { rom_of self.old ≡ cartridge.now }
        ensures answer { (result ≡ input_answer (is_broken self.old) (length (pending_of self.old))
            (acknowledged_of self.old + length (pending_of self.old))) ⊎ ((result ≡ Err Memory) ×
            (input_answer (is_broken self.old) (length (pending_of self.old))
            (acknowledged_of self.old + length (pending_of self.old)) ≡ Ok tt)) }
        ensures machine { OnOk result (machine_of self.new ≡ applied Power (machine_of self.old)) }
        ensures pending { OnOk result (pending_of self.new ≡ pending_of self.old ++ entry_of Power ∷ []) }
        ensures refused { OnErr result (IsUnchanged self.old self.new) }
        ensures same { OnErr result (self.new ≡ self.old) }
        ensures device { device_of self.new ≡ device_of self.old }
        ensures kept { (acknowledged_of self.new ≡ acknowledged_of self.old) ×
            (is_broken self.new ≡ is_broken self.old) ×
            (rom_of self.new ≡ rom_of self.old) }
        ensures saved { saved_of self.new ≡ saved_of self.old }
        ensures log { (log_in self.new ≡ log_in self.old) × (generation_in_use self.new ≡ generation_in_use self.old) }
    {
        if let Err(why) = self.takes_input() {
            return Err(why);
        }
        let Ok(machine) = powered(alloc, cartridge, &self.machine) else {
            return Err(SessionError::Memory);
        };
        drop(mem::replace(&mut self.machine, machine));
        push(&mut self.pending, no_input());
        Ok(())
    }

    /// Saves what is pending: after the log if it can hold it, otherwise as a new generation with a
    /// snapshot of the machine. On Ok no power cut loses any of the inputs, and the answer is the
    /// count of all inputs. With nothing pending it makes no device call.
    ///
    /// Refusals, in this order: `Broken`; `GenerationsUsedUp`, if a new generation is needed and there is none
    /// left, which changes nothing; `Device`, after which the session is broken.
    pub fn save(&mut self) -> Result<u64, SessionError>
        // what it answers
        ensures ok { IfOk result (λ all. (all ≡ acknowledged_of self.old + length (pending_of self.old)) ×
            (acknowledged_of self.new ≡ all) × (pending_of self.new ≡ []) × (is_broken self.old ≡ false) ×
            (is_broken self.new ≡ false)) }
        ensures cause { IfErr result (λ why.
            IsSaveCause why (is_broken self.old) (fits_log (log_in self.old) (pending_of self.old))
            (generation_in_use self.old)) }
        ensures worn { IfErr result (λ why.
            why ≡ SessionError.GenerationsUsedUp → (D.disk (device_of self.new)).honest →
            generation_in (D.disk (device_of self.new)).sectors ≡ 2 ^ 64 - 1) }
        ensures unchanged { IfErr result (λ why. (why ≡ SessionError.Device) ⊎ IsUnchanged self.old self.new) }
        ensures refused { OnErr result ((pending_of self.new ≡ pending_of self.old) ×
            (acknowledged_of self.new ≡ acknowledged_of self.old)) }
        ensures broken { (is_broken self.new ≡ true) ↔
            ((is_broken self.old ≡ true) ⊎ IsErrOf result SessionError.Device) }
        ensures nothing { is_broken self.old ≡ false → pending_of self.old ≡ [] → IsUnchanged self.old self.new ×
            (result ≡ Ok (acknowledged_of self.old)) }
        ensures machine { (machine_of self.new ≡ machine_of self.old) × (rom_of self.new ≡ rom_of self.old) }
        ensures position { IfOk result (λ all. saved_of self.new ≡ record { count = all; machine = machine_of self.old }) }
        ensures kept { OnErr result (saved_of self.new ≡ saved_of self.old) }

        // what the device stands for: at the start, at each moment, and at Ok
        ensures stood { is_broken self.old ≡ false → can_be_logged (pending_of self.old) ≡ true →
            (D.disk (device_of self.old)).honest →
            IsAtRest (rom_of self.old) (D.disk (device_of self.old)) (acknowledged_of self.old) (pending_of self.old)
            (machine_of self.old) }
        ensures stands { is_broken self.old ≡ false → (D.disk (device_of self.old)).honest →
            StandsAt (rom_of self.old) (D.disk (device_of self.old)) (saved_of self.old) }
        ensures images { is_broken self.old ≡ false → (D.disk (device_of self.old)).honest →
            HoldsSince (D.disk (device_of self.old)) (D.disk (device_of self.new))
            (StandsBetween (can_be_logged (pending_of self.old)) (rom_of self.old) (Some (saved_of self.old))
            (inputs_of (pending_of self.old))
            (record {
              count = acknowledged_of self.old + length (pending_of self.old);
              machine = machine_of self.old;
            })) }
        ensures rests { IfOk result (λ all. (D.disk (device_of self.old)).honest →
            IsAtRest (rom_of self.old) (D.disk (device_of self.new)) all [] (machine_of self.old)) }
        ensures saved { IfOk result (λ all. (D.disk (device_of self.old)).honest → 0 < length (pending_of self.old) →
            IsSaved (fits_log (log_in self.old) (pending_of self.old)) (rom_of self.old) all (machine_of self.old)
            (pending_of self.old) (D.disk (device_of self.old)).sectors (D.disk (device_of self.new)).sectors) }

        ensures answered { HasAnswered faults_after (D.disk (device_of self.old)) (D.disk (device_of self.new)) result }
    {
        if self.store.is_broken() {
            return Err(SessionError::Broken);
        }
        let all = self.acknowledged + self.pending.len() as u64;
        if self.pending.is_empty() {
            return Ok(all);
        }
        match write_pending(
            &mut self.store,
            &self.machine,
            &self.pending,
            &mut self.encoded,
            all,
        ) {
            Ok(()) => {
                self.pending.clear();
                self.acknowledged = all;
                self.saved = Snapshot::of(&self.machine);
                Ok(all)
            }
            Err(why) => Err(why),
        }
    }

    /// The device as it is. What is not saved is lost.
    pub fn into_device(self) -> D
        ensures device { result ≡ device_of self }
        ensures rests { is_broken self ≡ false → can_be_logged (pending_of self) ≡ true → (D.disk result).honest →
            IsAtRest (rom_of self) (D.disk result) (acknowledged_of self) (pending_of self) (machine_of self) }
        ensures stands { is_broken self ≡ false → (D.disk result).honest →
            StandsAt (rom_of self) (D.disk result) (saved_of self) }
    {
        self.store.into_device()
    }
}

impl<D: SectorDevice + Drop> Session<D> {
    ghost use Rattle.session.specs.Accessors.{machine_of};

    /// The machine after all inputs. The device is dropped: what is not saved is lost.
    pub fn into_machine(self) -> Machine
        ensures { result ≡ machine_of self }
    {
        self.machine
    }
}

impl<D: HandingDevice> Session<D> {
    ghost use Rattle.session.specs.Accessors.{device_of, KeepsAllBut};

    /// Hands out the next call that the device noted, if there is one. Nothing changes of the session, nor of what its device stands for.
    pub fn next_call(&mut self) -> Option<D::Call>
        ensures hands { D.hands (device_of self.old) result (device_of self.new) }
        ensures disk { HasHanded (D.disk (device_of self.old)) (D.disk (device_of self.new)) }
        ensures kept { KeepsAllBut self.old self.new }
    {
        self.store.next_call()
    }
}
