//! The battery file of a machine.

ghost use Rattle.std.specs.Prelude.{◌≡◌, ◌≤◌, ◌++◌, IfOk, length};
ghost use Rattle.bank_controllers.specs.State.{has_clock as has_clock_of};
ghost use Rattle.battery_files.specs.Battery.{battery_length, battery_of, clock_bytes, has_clock};

use bank_controllers::ClockRegisters;
use cartridge::{Cartridge, Controller};
use machine::{Machine, Region};
use std::alloc::{AllocError, Global};

/// The bytes of a file after the RAM: ten registers of four bytes, and a time of eight.
pub(crate) const CLOCK_LENGTH: usize = 48;

/// Whether the controller is an MBC3 with its clock.
pub(crate) fn is_clocked(kind: Controller) -> bool
    ensures { result ≡ has_clock_of kind }
{
    matches!(kind, Controller::Mbc3Clock)
}

/// Whether the cartridge has the clock of MBC3.
pub fn has_clock(cartridge: &Cartridge) -> bool
    ensures { result ≡ has_clock cartridge.now }
{
    is_clocked(cartridge.controller())
}

/// The bytes of a battery file of this cartridge as it is written: those of the RAM, and 48 more for a clock.
pub fn battery_length(cartridge: &Cartridge) -> usize
    ensures { result ≡ battery_length cartridge.now }
{
    if has_clock(cartridge) {
        return cartridge.ram_length() + CLOCK_LENGTH;
    }
    cartridge.ram_length()
}

/// The live clock and the latched one in four bytes a register, and eight bytes 00 for the time.
#[rattlefmt::skip]
fn clock_bytes(live: ClockRegisters, latched: ClockRegisters) -> [u8; 48]
    ensures { result ≡ clock_bytes live latched }
{
    [
        live.seconds, 0, 0, 0,
        live.minutes, 0, 0, 0,
        live.hours, 0, 0, 0,
        live.day_low, 0, 0, 0,
        live.day_high, 0, 0, 0,
        latched.seconds, 0, 0, 0,
        latched.minutes, 0, 0, 0,
        latched.hours, 0, 0, 0,
        latched.day_low, 0, 0, 0,
        latched.day_high, 0, 0, 0,
        0, 0, 0, 0, 0, 0, 0, 0,
    ]
}

/// Bytes with a clock's after them.
fn with_clock(
    mut bytes: Vec<u8>,
    live: ClockRegisters,
    latched: ClockRegisters,
) -> Result<Vec<u8>, AllocError>
    ensures { IfOk result (λ file. file.items ≡ bytes.items ++ clock_bytes live latched) }
{
    bytes.extend_from_slice(&clock_bytes(live, latched))?;
    Ok(bytes)
}

/// The bytes of the cartridge's RAM.
fn ram_of(alloc: Global, machine: &Machine) -> Result<Vec<u8>, AllocError>
    ensures { IfOk result (λ ram. ram.items ≡ machine.now.processor.memory.banks.ram) }
{
    machine.region(Region::CartRam).to_vec(alloc)
}

/// The battery file of a machine: the cartridge's RAM, and after it 48 bytes if there is the clock of MBC3. The time in them is 0.
pub fn battery_of(alloc: Global, machine: &Machine) -> Result<Vec<u8>, AllocError>
    ensures { IfOk result (λ bytes. bytes.items ≡ battery_of machine.now) }
{
    let banks = machine.state().bus.banks;
    let ram = ram_of(alloc, machine)?;
    if is_clocked(banks.kind) {
        return with_clock(ram, banks.clock, banks.latched);
    }
    Ok(ram)
}
