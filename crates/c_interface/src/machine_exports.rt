//! The exports of a machine.

ghost use Rattle.std.specs.Prelude.{◌≡◌, length, replicate, true};
ghost use Rattle.machine.specs.Machine.{start, after, picture_rows, powered, seconds_passed};
ghost use Rattle.machine.specs.Machine.{Frame};
ghost use Rattle.snapshot.specs.Legal.{IsMachineOf};
ghost use Rattle.state_header.specs.States.{state_length, state_of};
ghost use Rattle.machine.specs.Looking.{bytes_from, shades_of};
ghost use Rattle.refusals.specs.Codes.{done};
ghost use Rattle.c_interface.specs.Codes.{IsMadeCode, IsRestoredCode, no_memory};

use crate::codes::{DONE, NO_MEMORY};
use crate::machine_handle::MachineHandle;
use embedding::Console;
use std::alloc::Global;

/// Makes the machine of an image at power-on. A refusal leaves `out` as it was.
#[unsafe(no_mangle)]
pub extern "C" fn gbkeep_raw_machine_new(alloc: Global, rom: &[u8], out: &mut MachineHandle) -> u32
    ensures held { result ≡ done → out.new.held ≡ true }
    ensures cartridge { result ≡ done → out.new.value.cartridge ≡ rom.now }
    ensures machine { result ≡ done → out.new.value.machine ≡ start rom.now }
    ensures refused { ¬ (result ≡ done) → out.new ≡ out.old }
    ensures code { IsMadeCode rom.now result }
{
    let console = match Console::new(alloc, rom) {
        Ok(console) => console,
        Err(why) => return why.code(),
    };
    let Ok(held) = Box::new(alloc, console) else {
        return NO_MEMORY;
    };
    *out = MachineHandle::of(held);
    DONE
}

/// Frees a machine.
#[unsafe(no_mangle)]
pub extern "C" fn gbkeep_raw_machine_free(machine: MachineHandle)
    requires held { machine.held ≡ true }
{
    drop(machine.into_box());
}

/// Plays `count` frames with these buttons.
#[unsafe(no_mangle)]
pub extern "C" fn gbkeep_raw_machine_frames(
    machine: MachineHandle,
    buttons: u8,
    count: u32,
    out: &mut MachineHandle,
)
    requires held { machine.held ≡ true }
    ensures held { out.new.held ≡ true }
    ensures machine { out.new.value.machine ≡ after machine.value.machine (replicate count (Frame buttons)) }
    ensures cartridge { out.new.value.cartridge ≡ machine.value.cartridge }
{
    let mut console = machine.into_box();
    console.frames(buttons, count);
    *out = MachineHandle::of(console);
}

/// Lets seconds pass on the clock.
#[unsafe(no_mangle)]
pub extern "C" fn gbkeep_raw_machine_seconds(
    machine: MachineHandle,
    seconds: u32,
    out: &mut MachineHandle,
)
    requires held { machine.held ≡ true }
    ensures held { out.new.held ≡ true }
    ensures machine { out.new.value.machine ≡ seconds_passed seconds machine.value.machine }
    ensures cartridge { out.new.value.cartridge ≡ machine.value.cartridge }
{
    let mut console = machine.into_box();
    console.seconds(seconds);
    *out = MachineHandle::of(console);
}

/// Switches the power off and on. A refusal, which is for want of memory, leaves the machine as it was.
#[unsafe(no_mangle)]
pub extern "C" fn gbkeep_raw_machine_power(
    alloc: Global,
    machine: MachineHandle,
    out: &mut MachineHandle,
) -> u32
    requires held { machine.held ≡ true }
    ensures held { out.new.held ≡ true }
    ensures machine { result ≡ done → out.new.value.machine ≡ powered machine.value.machine }
    ensures refused { ¬ (result ≡ done) → (result ≡ no_memory) × (out.new.value.machine ≡ machine.value.machine) }
    ensures cartridge { out.new.value.cartridge ≡ machine.value.cartridge }
{
    let mut console = machine.into_box();
    let code = match console.power(alloc) {
        Ok(()) => DONE,
        Err(_) => NO_MEMORY,
    };
    *out = MachineHandle::of(console);
    code
}

/// Writes the picture into 23,040 bytes.
#[unsafe(no_mangle)]
pub extern "C" fn gbkeep_raw_machine_picture(
    machine: MachineHandle,
    shades: &mut [u8],
    out: &mut MachineHandle,
)
    requires held { machine.held ≡ true }
    requires room { length shades.old ≡ 23040 }
    ensures held { out.new.held ≡ true }
    ensures shades { shades.new ≡ shades_of (picture_rows machine.value.machine) }
    ensures machine { out.new.value.machine ≡ machine.value.machine }
    ensures cartridge { out.new.value.cartridge ≡ machine.value.cartridge }
{
    let mut console = machine.into_box();
    console.picture(shades);
    *out = MachineHandle::of(console);
}

/// How many bytes a state has.
#[unsafe(no_mangle)]
pub extern "C" fn gbkeep_raw_machine_state_length(
    machine: MachineHandle,
    out: &mut MachineHandle,
) -> usize
    requires held { machine.held ≡ true }
    ensures held { out.new.held ≡ true }
    ensures length { result ≡ state_length (length machine.value.machine.processor.memory.banks.ram) }
    ensures machine { out.new.value.machine ≡ machine.value.machine }
    ensures cartridge { out.new.value.cartridge ≡ machine.value.cartridge }
{
    let console = machine.into_box();
    let bytes = console.state_length();
    *out = MachineHandle::of(console);
    bytes
}

/// Writes the state.
#[unsafe(no_mangle)]
pub extern "C" fn gbkeep_raw_machine_state(
    machine: MachineHandle,
    bytes: &mut [u8],
    out: &mut MachineHandle,
)
    requires held { machine.held ≡ true }
    requires room { length bytes.old ≡ state_length (length machine.value.machine.processor.memory.banks.ram) }
    ensures held { out.new.held ≡ true }
    ensures state { bytes.new ≡ state_of machine.value.machine }
    ensures machine { out.new.value.machine ≡ machine.value.machine }
    ensures cartridge { out.new.value.cartridge ≡ machine.value.cartridge }
{
    let mut console = machine.into_box();
    console.state(bytes);
    *out = MachineHandle::of(console);
}

/// Takes the machine whose state this is. A refusal leaves the machine as it was.
#[unsafe(no_mangle)]
pub extern "C" fn gbkeep_raw_machine_restore(
    machine: MachineHandle,
    bytes: &[u8],
    out: &mut MachineHandle,
) -> u32
    requires held { machine.held ≡ true }
    ensures held { out.new.held ≡ true }
    ensures state { result ≡ done → state_of out.new.value.machine ≡ bytes.now }
    ensures of { result ≡ done → IsMachineOf machine.value.cartridge out.new.value.machine }
    ensures refused { ¬ (result ≡ done) → out.new.value.machine ≡ machine.value.machine }
    ensures code { IsRestoredCode machine.value.cartridge bytes.now result }
    ensures cartridge { out.new.value.cartridge ≡ machine.value.cartridge }
{
    let mut console = machine.into_box();
    let code = match console.restore(bytes) {
        Ok(()) => DONE,
        Err(why) => why.code(),
    };
    *out = MachineHandle::of(console);
    code
}

/// Writes what the program would read from `address` on.
#[unsafe(no_mangle)]
pub extern "C" fn gbkeep_raw_machine_memory(
    machine: MachineHandle,
    address: u16,
    bytes: &mut [u8],
    out: &mut MachineHandle,
)
    requires held { machine.held ≡ true }
    ensures held { out.new.held ≡ true }
    ensures bytes { bytes.new ≡ bytes_from machine.value.machine address (length bytes.old) }
    ensures machine { out.new.value.machine ≡ machine.value.machine }
    ensures cartridge { out.new.value.cartridge ≡ machine.value.cartridge }
{
    let console = machine.into_box();
    console.memory(address, bytes);
    *out = MachineHandle::of(console);
}
