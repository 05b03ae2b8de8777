//! The power switch, and the clocks of a machine.

ghost use Rattle.std.specs.Prelude.{◌≡◌, IfOk};
ghost use Rattle.bank_controllers.specs.CartridgeState.{IsSameCartridge};
ghost use Rattle.bank_controllers.specs.State.{IsClockOf};
ghost use Rattle.machine.specs.Machine.{powered, start, with_clocks};
ghost use Rattle.snapshot.specs.Legal.{IsMachineOf};

use bank_controllers::ClockRegisters;
use cartridge::Cartridge;
use machine::{Machine, Region};
use std::alloc::{AllocError, Global};

/// Sets the live clock and the latched one. Condition: each is one of this controller.
pub fn set_clocks(machine: &mut Machine, live: ClockRegisters, latched: ClockRegisters)
    requires live { IsClockOf machine.old.processor.memory.banks.state.kind live }
    requires latched { IsClockOf machine.old.processor.memory.banks.state.kind latched }
    ensures { machine.new ≡ with_clocks live latched machine.old }
{
    let mut state = machine.state();
    state.bus.banks.clock = live;
    state.bus.banks.latched = latched;
    machine.restore(&state);
}

/// The machine after its power was switched off and on: what a battery keeps, the RAM and the clocks, is as it was, and all else as at
/// power-on. Refused if there is no memory.
///
/// Condition: the machine has this cartridge's ROM, and the controller, the rumble motor and the length of RAM that this ROM asks for.
pub fn powered(
    alloc: Global,
    cartridge: &Cartridge,
    machine: &Machine,
) -> Result<Machine, AllocError>
    requires { IsSameCartridge machine.now.processor.memory.banks (start cartridge.now).processor.memory.banks }
    ensures machine { IfOk result (λ m. m ≡ powered machine.now) }
    ensures of { IfOk result (λ m. IsMachineOf cartridge.now m) }
{
    // its contract says that the image is an accepted one
    let _ = cartridge.rom();
    let mut fresh = Machine::power_on(alloc, cartridge)?;
    if !cartridge.has_battery() {
        return Ok(fresh);
    }
    let kept = machine.state().bus.banks;
    fresh.fill(Region::CartRam, machine.region(Region::CartRam));
    set_clocks(&mut fresh, kept.clock, kept.latched);
    Ok(fresh)
}
