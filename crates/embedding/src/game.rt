//! A game whose disk is the host's: it hands out the calls that the host has to make.

ghost use Rattle.std.specs.Prelude.{◌≡◌, ◌<◌, ◌+◌, ◌*◌, ◌++◌, ◌∷◌, ◌⊎◌, [], true, false, ℕ, List, length, slice_range, Some, Ok, IfOk, IfErr, OnOk, OnErr};
ghost use Rattle.cartridge.specs.Accepted.{IsAccepted, refusal_of};
ghost use Rattle.cartridge.specs.Header.{has_battery, ram_length_of};
ghost use Rattle.memory_map.specs.Stores.{region_of};
ghost use Rattle.machine.specs.Machine.{Power, State, start, as_input, applied, picture_rows};
ghost use Rattle.snapshot.specs.Encoding.{snapshot_length};
ghost use Rattle.state_header.specs.States.{state_length, state_of};
ghost use Rattle.sector_device.specs.DiskState.{Follows, HasHanded, sector_at};
ghost use Rattle.sector_device.specs.Runs.{HoldsSince};
ghost use Rattle.log_format.specs.Content.{need};
ghost use Rattle.session.specs.Accessors.{device_of, machine_of, rom_of, pending_of, acknowledged_of, saved_of, is_broken, IsUnchanged, KeepsAllBut, KeepsSaved};
ghost use Rattle.session.specs.Calls.{input_answer};
ghost use Rattle.session.specs.Stands.{IsAtRest, StandsAt, StandsBetween};
ghost use Rattle.session.specs.Inputs.{can_be_logged, entry_of, inputs_of};
ghost use Rattle.battery_files.specs.Battery.{battery_length, battery_of};
ghost use Rattle.battery_files.specs.Importing.{start_with};
ghost use Rattle.machine.specs.Looking.{bytes_from, shades_of};
ghost use Rattle.embedding.specs.Games.{IsBatteryCause, IsBeginCause, IsCartCause, IsFrom, IsImportCause, IsPowerAnswer, IsSaveCause, IsTakeUpCause, IsTaken, KeepsInputs};
ghost use Rattle.embedding.specs.Calls.{image_calls};
ghost use Rattle.embedding.specs.HostDevices.{HasHandedOut, calls_of, count_of, handed_of, host_disk, waiting_of};
ghost use Rattle.embedding.specs.States.{IsStateAnswer};

use crate::console::copied;
use crate::host_device::{Call, HostDevice};
use crate::states::{named, told_of_other, write_state};
use battery_files::{battery_length, battery_of, machine_with_battery, refusal_of_file};
use cartridge::{Cartridge, refusal};
use machine::{Input, Region, write_memory, write_shades};
use refusals::Refusal;
use sector_device::{DeviceFault, SectorDevice};
use session::{Session, SessionError, new_game, new_game_from, resume, sectors_needed};
use state_header::{HEADER_LENGTH, Named};
use std::alloc::Global;

/// A game on a device that notes the calls for its host. `next_call` hands out each call once, in order; what was handed out leaves the memory.
#[derive(Drop)]
pub struct Game {
    session: Session<HostDevice>,
    cartridge: Cartridge,
    ghost own: { rom_of session ≡ cartridge },
}

/// How many sectors a game of this image needs.
///
/// Refusals, in this order: `Cart`; `Memory`.
pub fn sectors_of(alloc: Global, rom: &[u8]) -> Result<u64, Refusal>
    ensures need { IfOk result (λ sectors. sectors ≡ need (snapshot_length (ram_length_of rom.now))) }
    ensures cause { IfErr result (IsCartCause rom.now) }
{
    if let Some(why) = refusal(rom) {
        return Err(Refusal::Cart(why));
    }
    let Ok(cartridge) = copied(alloc, rom) else {
        return Err(Refusal::Memory);
    };
    Ok(sectors_needed(&cartridge))
}

/// Fills a device with the sectors of an image, which the host's disk holds.
fn fill_from(device: &mut HostDevice, image: &[u8])
    requires size { length image.now ≡ 512 * count_of device.old }
    requires new { (handed_of device.old ≡ []) × (waiting_of device.old ≡ []) }
    ensures sectors { (k : ℕ) → k < count_of device.old →
        sector_at (host_disk device.new).sectors k ≡ slice_range image.now (512 * k) (512 * k + 512) }
    ensures handed { handed_of device.new ≡ image_calls image.now (count_of device.old) }
    ensures waiting { waiting_of device.new ≡ [] }
    ensures count { count_of device.new ≡ count_of device.old }
{
    let mut sector = [0; 512];
    for at in 0..device.count() {
        let from = 512 * at as usize;
        sector.copy_from_slice(&image[from..from + 512]);
        device.fill(at, &sector);
    }
    device.fill_done();
}

impl Game {
    /// Begins a game at power-on on a device of so many zero sectors. The calls that begin it are the first that the host has to make.
    ///
    /// Refusals, in this order: `Cart`; `Memory`; `Session` with `Memory` or `TooSmall`.
    pub fn begin(alloc: Global, rom: &[u8], sectors: usize) -> Result<Game, Refusal>
        ensures begun { IfOk result (λ g.
            (acknowledged_of g.session ≡ 0) × (pending_of g.session ≡ []) × (is_broken g.session ≡ false)) }
        ensures machine { IfOk result (λ g. (machine_of g.session ≡ start rom.now) × (rom_of g.session ≡ rom.now)) }
        ensures rests { IfOk result (λ g. IsAtRest rom.now (host_disk (device_of g.session)) 0 [] (start rom.now)) }
        ensures saved { IfOk result (λ g. saved_of g.session ≡ record { count = 0; machine = start rom.now }) }
        ensures accepted { IfOk result (λ g. IsAccepted rom.now) }
        ensures cause { IfErr result (IsBeginCause rom.now sectors) }
        ensures sectors { IfOk result (λ g. count_of (device_of g.session) ≡ sectors) }
        ensures first { IfOk result (λ g. handed_of (device_of g.session) ≡ []) }
    {
        if let Some(why) = refusal(rom) {
            return Err(Refusal::Cart(why));
        }
        let Ok(cartridge) = copied(alloc, rom) else {
            return Err(Refusal::Memory);
        };
        let Ok(device) = HostDevice::new(alloc, sectors) else {
            return Err(Refusal::Memory);
        };
        match new_game(alloc, device, &cartridge) {
            Ok(session) => Ok(Game { session, cartridge }),
            Err(refused) => Err(Refusal::Session(refused.why)),
        }
    }

    /// Begins a game with the RAM and the clocks of a battery file, on a device of so many zero sectors. The calls that begin it are the first that
    /// the host has to make.
    ///
    /// Refusals, in this order: `Cart`; `NoBattery`; `BatteryLength` for a file that has neither as many bytes as the RAM nor, with a clock, 44 or
    /// 48 more; `Memory`; `Session` with `Memory` or `TooSmall`.
    pub fn import(
        alloc: Global,
        rom: &[u8],
        battery: &[u8],
        sectors: usize,
    ) -> Result<Game, Refusal>
        ensures begun { IfOk result (λ g.
            (acknowledged_of g.session ≡ 0) × (pending_of g.session ≡ []) × (is_broken g.session ≡ false)) }
        ensures machine { IfOk result (λ g.
            (machine_of g.session ≡ start_with rom.now battery.now) × (rom_of g.session ≡ rom.now)) }
        ensures saved { IfOk result (λ g.
            saved_of g.session ≡ record { count = 0; machine = start_with rom.now battery.now }) }
        ensures rests { IfOk result (λ g.
            IsAtRest rom.now (host_disk (device_of g.session)) 0 [] (start_with rom.now battery.now)) }
        ensures taken { IfOk result (λ g. IsTaken rom.now battery.now) }
        ensures cause { IfErr result (IsImportCause rom.now battery.now sectors) }
        ensures sectors { IfOk result (λ g. count_of (device_of g.session) ≡ sectors) }
        ensures first { IfOk result (λ g. handed_of (device_of g.session) ≡ []) }
    {
        if let Some(why) = refusal(rom) {
            return Err(Refusal::Cart(why));
        }
        if let Some(why) = refusal_of_file(rom, battery) {
            return Err(why);
        }
        let Ok(cartridge) = copied(alloc, rom) else {
            return Err(Refusal::Memory);
        };
        let machine = match machine_with_battery(alloc, &cartridge, battery) {
            Ok(machine) => machine,
            Err(why) => return Err(why),
        };
        let Ok(device) = HostDevice::new(alloc, sectors) else {
            drop(machine);
            return Err(Refusal::Memory);
        };
        match new_game_from(alloc, device, &cartridge, machine) {
            Ok(session) => Ok(Game { session, cartridge }),
            Err(refused) => Err(Refusal::Session(refused.why)),
        }
    }

    /// Gives the machine one input, which is not saved yet.
    ///
    /// Refusals, none of which changes anything: those of `Session::input`.
    pub fn input(&mut self, input: Input) -> Result<(), SessionError>
        ensures answer { result ≡ input_answer (is_broken self.old.session) (length (pending_of self.old.session))
            (acknowledged_of self.old.session + length (pending_of self.old.session)) }
        ensures machine { OnOk result (machine_of self.new.session ≡
            applied (as_input input) (machine_of self.old.session)) }
        ensures pending { OnOk result (pending_of self.new.session ≡
            pending_of self.old.session ++ entry_of (as_input input) ∷ []) }
        ensures refused { OnErr result (IsUnchanged self.old.session self.new.session) }
        ensures kept { KeepsSaved self.old.session self.new.session }
    {
        self.session.input(input)
    }

    /// Switches the power of the machine off and on: one input, which is not saved yet.
    ///
    /// Refusals, none of which changes anything: those of `Session::power`.
    pub fn power(&mut self, alloc: Global) -> Result<(), SessionError>
        ensures answer { IsPowerAnswer (input_answer (is_broken self.old.session) (length (pending_of self.old.session))
            (acknowledged_of self.old.session + length (pending_of self.old.session))) result }
        ensures machine { OnOk result (machine_of self.new.session ≡ applied Power (machine_of self.old.session)) }
        ensures pending { OnOk result (pending_of self.new.session ≡
            pending_of self.old.session ++ entry_of Power ∷ []) }
        ensures refused { OnErr result (IsUnchanged self.old.session self.new.session) }
        ensures kept { KeepsSaved self.old.session self.new.session }
    {
        self.session.power(alloc, &self.cartridge)
    }

    /// Goes on with the machine of a state: one input, which is not saved yet. It takes no memory.
    ///
    /// Refusals, in this order, none of which changes anything: those of `Session::input`; `Damaged` with `Snapshot` for bytes that do not begin with
    /// the header of a state; `OtherCartridge` for the header of another ROM, no matter what stands behind it; `Damaged` with `Snapshot` for what is
    /// no legal snapshot behind this ROM's.
    pub fn restore(&mut self, bytes: &[u8]) -> Result<(), SessionError>
        ensures answer { IsStateAnswer self.old.cartridge bytes.now
            (input_answer (is_broken self.old.session) (length (pending_of self.old.session))
            (acknowledged_of self.old.session + length (pending_of self.old.session))) result }
        ensures machine { OnOk result (state_of (machine_of self.new.session) ≡ bytes.now) }
        ensures pending { OnOk result (pending_of self.new.session ≡
            pending_of self.old.session ++ entry_of (State (machine_of self.new.session)) ∷ []) }
        ensures refused { OnErr result (IsUnchanged self.old.session self.new.session) }
        ensures kept { KeepsSaved self.old.session self.new.session }
    {
        // No snapshot has no bytes: to these the session answers why it takes no input, and else that they are damaged.
        match named(bytes, &self.cartridge) {
            Named::Same => self
                .session
                .restore(&bytes[HEADER_LENGTH..], &self.cartridge),
            Named::Other => told_of_other(self.session.restore(&[], &self.cartridge)),
            Named::Nothing => self.session.restore(&[], &self.cartridge),
        }
    }

    /// Saves what is pending. At `Ok` the calls that are to be handed out end with the sync that makes it sure: once the host has made them all, no
    /// power cut loses any of the inputs. The answer is the count of all inputs.
    ///
    /// Refusals: those of `Session::save`, of which `Device` means that there was no memory for the note of a call.
    pub fn save(&mut self) -> Result<u64, SessionError>
        // the calls that the host has to make: those that it has by now stay, and more may stand behind them
        ensures calls { Follows (calls_of (device_of self.old.session)) (calls_of (device_of self.new.session)) }
        ensures handed { handed_of (device_of self.new.session) ≡ handed_of (device_of self.old.session) }

        // at Ok the device rests at all inputs
        ensures all { IfOk result (λ all.
            (all ≡ acknowledged_of self.old.session + length (pending_of self.old.session)) ×
            (acknowledged_of self.new.session ≡ all) × (pending_of self.new.session ≡ [])) }
        ensures cause { IfErr result (IsSaveCause self.old.session self.new.session) }
        ensures rests { IfOk result (λ all.
            IsAtRest (rom_of self.old.session) (host_disk (device_of self.new.session)) all []
            (machine_of self.old.session)) }

        // no input is added or lost, also where it is refused
        ensures inputs { KeepsInputs self.old.session self.new.session }
        ensures position { IfOk result (λ all.
            saved_of self.new.session ≡ record { count = all; machine = machine_of self.old.session }) }
        ensures kept { OnErr result (saved_of self.new.session ≡ saved_of self.old.session) }
        ensures whole { IfOk result (λ all. is_broken self.new.session ≡ false) }
        ensures unchanged { IfErr result (λ why.
            (why ≡ SessionError.Device) ⊎ IsUnchanged self.old.session self.new.session) }

        // at each moment the device stands for a prefix of the inputs that has all that were told before
        ensures images { is_broken self.old.session ≡ false →
            HoldsSince (host_disk (device_of self.old.session)) (host_disk (device_of self.new.session))
            (StandsBetween (can_be_logged (pending_of self.old.session)) (rom_of self.old.session)
            (Some (saved_of self.old.session)) (inputs_of (pending_of self.old.session))
            (record {
              count = acknowledged_of self.old.session + length (pending_of self.old.session);
              machine = machine_of self.old.session;
            })) }
        ensures stood { is_broken self.old.session ≡ false → can_be_logged (pending_of self.old.session) ≡ true →
            IsAtRest (rom_of self.old.session) (host_disk (device_of self.old.session))
            (acknowledged_of self.old.session) (pending_of self.old.session) (machine_of self.old.session) }
        ensures stands { is_broken self.old.session ≡ false →
            StandsAt (rom_of self.old.session) (host_disk (device_of self.old.session)) (saved_of self.old.session) }
        ensures machine { (machine_of self.new.session ≡ machine_of self.old.session) ×
            (rom_of self.new.session ≡ rom_of self.old.session) }
    {
        self.session.save()
    }

    /// The next call that the host has to make, if there is one that was not handed out.
    pub fn next_call(&mut self) -> Option<Call>
        ensures call { HasHandedOut (device_of self.old.session) result (device_of self.new.session) }
        ensures disk { HasHanded (host_disk (device_of self.old.session)) (host_disk (device_of self.new.session)) }
        ensures kept { KeepsAllBut self.old.session self.new.session }
    {
        self.session.next_call()
    }

    /// How many inputs there are, saved and unsaved.
    pub fn count(&self) -> u64
        ensures { result ≡ acknowledged_of self.now.session + length (pending_of self.now.session) }
    {
        self.session.counts().all
    }

    /// Writes the picture, as `Console::picture` does. Condition: there are 23,040 bytes.
    pub fn picture(&mut self, shades: &mut [u8])
        requires { length shades.old ≡ 23040 }
        ensures shades { shades.new ≡ shades_of (picture_rows (machine_of self.old.session)) }
        ensures session { self.new.session ≡ self.old.session }
    {
        self.session.draw_late();
        write_shades(self.session.machine().picture(), shades);
    }

    /// The bytes of a state: 22,647, and those of the cartridge's RAM.
    pub fn state_length(&self) -> usize
        ensures length { result ≡ state_length (length (machine_of self.now.session).processor.memory.banks.ram) }
    {
        let machine = self.session.machine();
        HEADER_LENGTH + snapshot::length(machine.region(Region::CartRam).len())
    }

    /// Writes the state, as `Console::state` does. Condition: there are as many bytes as `state_length` says.
    pub fn state(&mut self, bytes: &mut [u8])
        requires { length bytes.old ≡
            state_length (length (machine_of self.old.session).processor.memory.banks.ram) }
        ensures state { bytes.new ≡ state_of (machine_of self.old.session) }
        ensures session { self.new.session ≡ self.old.session }
    {
        self.session.draw_late();
        write_state(self.session.machine(), &self.cartridge, bytes);
    }

    /// Writes what the program would read from `address` on, as `Console::memory` does.
    pub fn memory(&self, address: u16, bytes: &mut [u8])
        ensures { bytes.new ≡ bytes_from (machine_of self.now.session) address (length bytes.old) }
    {
        write_memory(self.session.machine(), address, bytes);
    }

    /// The bytes of a memory of the machine, whatever is closed or mapped.
    pub fn region(&self, region: Region) -> &[u8]
        ensures { result.now ≡ region_of (machine_of self.now.session).processor.memory region }
    {
        self.session.machine().region(region)
    }

    /// The bytes of the battery file: those of the cartridge's RAM, and 48 more for the clock of MBC3.
    pub fn battery_length(&self) -> usize
        ensures { result ≡ battery_length (rom_of self.now.session) }
    {
        battery_length(&self.cartridge)
    }

    /// Writes the battery file of the machine after all inputs, saved and unsaved. Condition: there are as many bytes as `battery_length` says.
    ///
    /// Refusals, in this order: `NoBattery`; `Memory`.
    pub fn battery(&self, alloc: Global, bytes: &mut [u8]) -> Result<(), Refusal>
        requires { length bytes.old ≡ battery_length (rom_of self.now.session) }
        ensures battery { OnOk result ((has_battery (rom_of self.now.session) ≡ true) ×
            (bytes.new ≡ battery_of (machine_of self.now.session))) }
        ensures refused { OnErr result (bytes.new ≡ bytes.old) }
        ensures cause { IfErr result (IsBatteryCause (rom_of self.now.session)) }
    {
        if !self.cartridge.has_battery() {
            return Err(Refusal::NoBattery);
        }
        let Ok(file) = battery_of(alloc, self.session.machine()) else {
            return Err(Refusal::Memory);
        };
        bytes.copy_from_slice(&file);
        Ok(())
    }

    /// Takes up the game that an image of a device stands for. The calls that begin its new generation are the first that the host has to make,
    /// on a device that holds the image.
    ///
    /// Refusals, in this order: `Device` with `SizeNotSectors` for an image that is not whole sectors; `Cart`; `Memory`; `Session` with those of
    /// `resume`.
    pub fn resume(alloc: Global, rom: &[u8], image: &[u8]) -> Result<Game, Refusal>
        ensures begun { IfOk result (λ g.
            (pending_of g.session ≡ []) × (is_broken g.session ≡ false) × (rom_of g.session ≡ rom.now)) }
        ensures saved { IfOk result (λ g.
            saved_of g.session ≡ record { count = acknowledged_of g.session; machine = machine_of g.session }) }
        ensures rests { IfOk result (λ g.
            IsAtRest rom.now (host_disk (device_of g.session)) (acknowledged_of g.session) [] (machine_of g.session)) }
        ensures sectors { IfOk result (λ g. 512 * count_of (device_of g.session) ≡ length image.now) }
        // what put the image on the device, and nothing else, is not handed out
        ensures handed { IfOk result (λ g. handed_of (device_of g.session) ≡
            image_calls image.now (count_of (device_of g.session))) }
        ensures from { IfOk result (λ g. IsFrom rom.now image.now (acknowledged_of g.session) (machine_of g.session)) }
        ensures accepted { IfOk result (λ g. IsAccepted rom.now) }
        ensures cause { IfErr result (IsTakeUpCause rom.now image.now) }
    {
        if image.len() % 512 != 0 {
            return Err(Refusal::Device(DeviceFault::SizeNotSectors(image.len() as u64)));
        }
        if let Some(why) = refusal(rom) {
            return Err(Refusal::Cart(why));
        }
        let Ok(cartridge) = copied(alloc, rom) else {
            return Err(Refusal::Memory);
        };
        let Ok(mut device) = HostDevice::new(alloc, image.len() / 512) else {
            return Err(Refusal::Memory);
        };
        fill_from(&mut device, image);
        match resume(alloc, device, &cartridge) {
            Ok(session) => Ok(Game { session, cartridge }),
            Err(refused) => Err(Refusal::Session(refused.why)),
        }
    }
}
