//! A game that was looked at, and resuming it.
ghost use Rattle.std.specs.Prelude.{◌≡◌, ◌≢◌, ◌<◌, ◌-◌, ◌^◌, ◌⊎◌, [], false, length, IfOk, IfErr};
ghost use Rattle.cartridge.specs.Header.{ram_length_of};
ghost use Rattle.snapshot.specs.Encoding.{encoded, snapshot_length};
ghost use Rattle.snapshot.specs.Legal.{IsMachineOf};
ghost use Rattle.sector_device.specs.DiskState.{HasAnswered};
ghost use Rattle.sector_device.specs.Runs.{HoldsSince};
ghost use Rattle.input_entries.specs.Inputs.{inputs};
ghost use Rattle.sector_log.specs.OpenedAccessors.{device_under, found_generation, seen};
ghost use Rattle.session.specs.Calls.{faults_after};
ghost use Rattle.session.specs.Stands.{IsAtRest, StandsAsBefore};
ghost use Rattle.session.specs.Found.{IsTakeUpCause};
ghost use Rattle.session.specs.Recovery.{IsRecovered};
ghost use Rattle.session.specs.Resting.{IsOfItsRom, own_prop, LooksAt, looks_prop};
ghost use Rattle.session.specs.declared.error.SessionError.TheVariants.{Device, Output};

use crate::begin::{begin_with, room_with};
use crate::error::SessionError;
use crate::session::Session;
use cartridge::Cartridge;
use machine::Machine;
use sector_device::{Refused, SectorDevice};
use sector_log::{Found, Opened};
use snapshot::encode;
use std::alloc::Global;

/// A game that was looked at: its machine, how many inputs brought it there, and the device on
/// which nothing was written.
#[derive(Drop)]
pub struct Look<D: SectorDevice> {
    pub(crate) opened: Opened<D>,
    pub(crate) machine: Machine,
    pub(crate) snapshot: Vec<u8>,
    pub(crate) count: u64,
    pub(crate) logged: u64,
    ghost own: { IsOfItsRom machine } by { own_prop machine },
    ghost encoded: { snapshot.items ≡ encoded machine },
    ghost long: { length snapshot.items ≡ snapshot_length (ram_length_of machine.processor.memory.banks.rom) },
    ghost short: { length snapshot.items < 2 ^ 32 },
    ghost looks: { LooksAt (D.disk (device_under opened)) (found_generation opened) count logged machine } by { looks_prop (D.disk (device_under opened)) (found_generation opened) count logged machine },
}

/// How many of the inputs of a game are in its log, of which the others came before the snapshot.
fn logged_of<D: SectorDevice>(opened: &Opened<D>, count: u64, machine: &Machine) -> u64
    requires { IsRecovered machine.now.processor.memory.banks.rom (seen opened.now) 0 count machine.now }
    ensures { result ≡ length (inputs (seen opened.now).log) }
{
    match opened.found() {
        Found::Intact(header) => count - header.base,
        _ => 0,
    }
}

impl<D: SectorDevice> Look<D> {
    ghost use Rattle.session.specs.Accessors.{device_of, machine_of, rom_of, pending_of, acknowledged_of, saved_of, is_broken, left_by};
    ghost use Rattle.session.specs.LookAccessors.{device_of_look, machine_of_look, rom_of_look, count_of_look, logged_of_look, generation_of_look};

    /// A look at what was opened, with the machine that was rebuilt, and room for its snapshot.
    pub(crate) fn at(opened: Opened<D>, count: u64, machine: Machine, mut room: Vec<u8>) -> Self
        requires recovered { IsRecovered machine.processor.memory.banks.rom (seen opened) 0 count machine }
        requires room { length room.items ≡ snapshot_length (ram_length_of machine.processor.memory.banks.rom) }
        requires short { length room.items < 2 ^ 32 }
        requires looks { LooksAt (D.disk (device_under opened)) (found_generation opened) count
            (length (inputs (seen opened).log)) machine }
        ensures opened { result.opened ≡ opened }
        ensures machine { result.machine ≡ machine }
        ensures count { (result.count ≡ count) × (result.logged ≡ length (inputs (seen opened).log)) }
        ensures of { IsMachineOf machine.processor.memory.banks.rom machine }
    {
        let logged = logged_of(&opened, count, &machine);
        encode(&machine, &mut room);
        Look {
            opened,
            machine,
            snapshot: room,
            count,
            logged,
        }
    }

    /// How many inputs there are.
    pub fn count(&self) -> u64
        ensures { result ≡ count_of_look self.now }
    {
        self.count
    }

    /// How many of these inputs are in the log. The others came before its snapshot.
    pub fn logged(&self) -> u64
        ensures { result ≡ logged_of_look self.now }
    {
        self.logged
    }

    /// The generation of the log.
    pub fn generation(&self) -> u64
        ensures { result ≡ generation_of_look self.now }
    {
        self.opened.generation()
    }

    /// The machine after all inputs.
    pub fn machine(&self) -> &Machine
        ensures { result.now ≡ machine_of_look self.now }
    {
        &self.machine
    }

    /// The snapshot of the machine.
    pub fn snapshot(&self) -> &[u8]
        ensures { result.now ≡ encoded (machine_of_look self.now) }
    {
        &self.snapshot
    }

    /// A read-only view of the device, each image of which stands for what was seen.
    pub fn device(&self) -> &D
        ensures device { result.now ≡ device_of_look self.now }
        ensures rests { (D.disk (device_of_look self.now)).honest →
            IsAtRest (rom_of_look self.now) (D.disk (device_of_look self.now)) (count_of_look self.now) []
            (machine_of_look self.now) }
    {
        self.opened.device()
    }

    /// The device as it is.
    pub fn into_device(self) -> D
        ensures device { result ≡ device_of_look self }
        ensures rests { (D.disk result).honest →
            IsAtRest (rom_of_look self) (D.disk result) (count_of_look self) [] (machine_of_look self) }
    {
        self.opened.into_device()
    }

    /// Resumes the game, and begins a new generation with it. A power cut at any moment leaves an
    /// image that stands for what was seen. Condition: the look was at a game of this cartridge.
    ///
    /// Refusals, in this order: `Memory` and `GenerationsUsedUp`, which change nothing; `Device`.
    pub fn resume(
        self,
        alloc: Global,
        cartridge: &Cartridge,
    ) -> Result<Session<D>, Refused<SessionError, D>>
        requires { rom_of_look self ≡ cartridge.now }

        // what is taken up
        ensures begun { IfOk result (λ s. (pending_of s ≡ []) × (is_broken s ≡ false) × (rom_of s ≡ cartridge.now)) }
        ensures same { IfOk result (λ s.
            (acknowledged_of s ≡ count_of_look self) × (machine_of s ≡ machine_of_look self)) }
        ensures saved { IfOk result (λ s. saved_of s ≡ record { count = acknowledged_of s; machine = machine_of s }) }
        ensures of { IfOk result (λ s. IsMachineOf cartridge.now (machine_of s)) }

        // what the device stands for, at Ok and at each moment
        ensures rests { IfOk result (λ s. (D.disk (device_of_look self)).honest →
            IsAtRest cartridge.now (D.disk (device_of s)) (acknowledged_of s) [] (machine_of s)) }
        ensures images { (D.disk (device_of_look self)).honest →
            HoldsSince (D.disk (device_of_look self)) (D.disk (left_by result))
            (StandsAsBefore cartridge.now (D.disk (device_of_look self))) }
        ensures untouched { IfErr result (λ refused. (refused.why ≡ Device) ⊎ (refused.device ≡ device_of_look self)) }

        // when it is refused
        ensures can { IfOk result (λ s. generation_of_look self < 2 ^ 64 - 1) }
        ensures cause { IfErr result (λ refused.
            (D.disk (device_of_look self)).honest → IsTakeUpCause (generation_of_look self) refused.why) }

        // no report is written, so none fails
        ensures no_report { IfErr result (λ refused. refused.why ≢ Output) }

        ensures answered { HasAnswered (λ refused. faults_after refused.why) (D.disk (device_of_look self))
            (D.disk (left_by result)) result }
    {
        let Look {
            opened,
            machine,
            snapshot,
            count,
            logged: _,
        } = self;
        let Ok(room) = room_with(alloc, snapshot) else {
            drop(machine);
            return Err(Refused {
                why: SessionError::Memory,
                device: opened.into_device(),
            });
        };
        begin_with(opened, cartridge, count, machine, room)
    }
}
