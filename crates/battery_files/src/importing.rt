//! A machine that begins with a battery file.

ghost use Rattle.std.specs.Prelude.{◌≡◌, ◌≢◌, ◌≤◌, ◌<◌, ◌+◌, true, false, IfErr, IfOk, IfSome, IfNone, length};
ghost use Rattle.cartridge.specs.Accepted.{IsAccepted};
ghost use Rattle.cartridge.specs.Header.{has_battery, ram_length_of};
ghost use Rattle.bank_controllers.specs.Clock.{IsLegalClock};
ghost use Rattle.snapshot.specs.Legal.{IsMachineOf};
ghost use Rattle.snapshot.specs.Table.{kind_of_image};
ghost use Rattle.battery_files.specs.Battery.{has_clock};
ghost use Rattle.battery_files.specs.Importing.{IsImportCause, clock_in, is_taken_length, kept_by, ram_in, start_with, start_with_ram};

use crate::battery::{CLOCK_LENGTH, is_clocked};
use bank_controllers::ClockRegisters;
use cartridge::{Cartridge, Controller, controller_in, has_battery_in, ram_length_in};
use machine::{Machine, Region};
use refusals::Refusal;
use snapshot::set_clocks;
use std::alloc::{AllocError, Global};

/// The bytes after the RAM where the time of writing has four of them.
const SHORT_CLOCK_LENGTH: usize = 44;

/// The bytes of the registers of one clock.
const REGISTERS_LENGTH: usize = 20;

/// Whether a file for the cartridge in an accepted image may have so many bytes.
fn is_taken_length(image: &[u8], size: usize) -> bool
    requires { IsAccepted image.now }
    ensures { result ≡ is_taken_length image.now size }
{
    let ram = ram_length_in(image);
    size == ram
        || (is_clocked(controller_in(image))
            && (size == ram + SHORT_CLOCK_LENGTH || size == ram + CLOCK_LENGTH))
}

/// Why a file is not taken for the cartridge in an accepted image, if it is not. It takes no memory.
///
/// Refusals, in this order: `NoBattery`; `BatteryLength` for a file that has neither as many bytes as the RAM nor, with a clock, 44 or 48 more.
pub fn refusal_of_file(image: &[u8], battery: &[u8]) -> Option<Refusal>
    requires { IsAccepted image.now }
    ensures none { IfNone result ((has_battery image.now ≡ true) ×
        (is_taken_length image.now (length battery.now) ≡ true)) }
    ensures some { IfSome result (IsImportCause image.now battery.now) }
    ensures memory { IfSome result (λ why. why ≢ Refusal.Memory) }
{
    if !has_battery_in(image) {
        return Some(Refusal::NoBattery);
    }
    if !is_taken_length(image, battery.len()) {
        return Some(Refusal::BatteryLength {
            found: battery.len() as u64,
            needed: ram_length_in(image) as u64,
        });
    }
    None
}

/// The same of a cartridge.
fn refusal(cartridge: &Cartridge, battery: &[u8]) -> Option<Refusal>
    ensures none { IfNone result ((has_battery cartridge.now ≡ true) ×
        (is_taken_length cartridge.now (length battery.now) ≡ true)) }
    ensures some { IfSome result (IsImportCause cartridge.now battery.now) }
    ensures accepted { IsAccepted cartridge.now }
{
    refusal_of_file(cartridge.rom(), battery)
}

/// What the RAM of a cartridge with this controller keeps of a byte.
fn kept_by(kind: Controller, byte: u8) -> u8
    ensures { result ≡ kept_by kind byte }
{
    match kind {
        Controller::Mbc2 => byte % 16,
        _ => byte,
    }
}

/// The RAM in a file.
fn ram_in(
    alloc: Global,
    kind: Controller,
    ram: usize,
    battery: &[u8],
) -> Result<Vec<u8>, AllocError>
    requires { ram ≤ length battery.now }
    ensures { IfOk result (λ bytes. bytes.items ≡ ram_in kind ram battery.now) }
{
    battery[..ram]
        .iter()
        .map(|byte| kept_by(kind, *byte))
        .collect(alloc)
}

/// The registers of a clock in a file, from this offset on.
fn clock_in(battery: &[u8], offset: usize) -> ClockRegisters
    requires { offset + 20 ≤ length battery.now }
    ensures clock { result ≡ clock_in battery.now offset }
    ensures legal { IsLegalClock result }
{
    let high = battery[offset + 16];
    ClockRegisters {
        seconds: battery[offset] % 64,
        minutes: battery[offset + 4] % 64,
        hours: battery[offset + 8] % 32,
        day_low: battery[offset + 12],
        day_high: 64 * (high / 64) + high % 2,
    }
}

/// The machine at power-on with the RAM of a file.
fn machine_with_ram(
    alloc: Global,
    cartridge: &Cartridge,
    battery: &[u8],
) -> Result<Machine, AllocError>
    requires { ram_length_of cartridge.now ≤ length battery.now }
    ensures machine { IfOk result (λ m. m ≡ start_with_ram cartridge.now battery.now) }
{
    let ram = ram_in(
        alloc,
        cartridge.controller(),
        cartridge.ram_length(),
        battery,
    )?;
    let mut machine = Machine::power_on(alloc, cartridge)?;
    machine.fill(Region::CartRam, &ram);
    Ok(machine)
}

/// The machine at power-on with the RAM and the clocks of a battery file. A file without clocks leaves them as they are at power-on, and
/// for MBC2 only the lower four bits of a byte count.
///
/// Refusals, in this order: `NoBattery`; `Length` for a file that has neither as many bytes as the RAM nor, with a clock, 44 or 48 more;
/// `Memory`.
pub fn machine_with_battery(
    alloc: Global,
    cartridge: &Cartridge,
    battery: &[u8],
) -> Result<Machine, Refusal>
    ensures taken { IfOk result (λ m.
        (has_battery cartridge.now ≡ true) × (is_taken_length cartridge.now (length battery.now) ≡ true)) }
    ensures machine { IfOk result (λ m. m ≡ start_with cartridge.now battery.now) }
    ensures of { IfOk result (λ m. IsMachineOf cartridge.now m) }
    ensures cause { IfErr result (IsImportCause cartridge.now battery.now) }
{
    if let Some(why) = refusal(cartridge, battery) {
        return Err(why);
    }
    let Ok(mut machine) = machine_with_ram(alloc, cartridge, battery) else {
        return Err(Refusal::Memory);
    };
    let ram = cartridge.ram_length();
    if battery.len() <= ram {
        return Ok(machine);
    }
    let live = clock_in(battery, ram);
    let latched = clock_in(battery, ram + REGISTERS_LENGTH);
    set_clocks(&mut machine, live, latched);
    Ok(machine)
}
