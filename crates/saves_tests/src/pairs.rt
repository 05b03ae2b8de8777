//! Cartridges, devices and games of the tests. These have no contract, so that a test's proof does not follow the numbers.
use crate::asserting::{OrStop, holds, same};
use cartridge::Cartridge;
use input_entries::Logged;
use machine::{Input, Machine, Region};
use recording::{Recording, create_recording, open_recording};
use sector_device::{MemoryDevice, SectorDevice};
use session::{Look, look_at, new_game};
use snapshot::{encode, length};
use std::alloc::Global;
use std::process::Abort;
use std::test::Fail;

/// A cartridge of 32 KiB with a clock, 8 KiB of RAM and this first title byte; its program turns the
/// display off and halts.
pub(crate) fn cartridge_of(alloc: Global, title: u8) -> Result<Cartridge, Fail> {
    let mut rom = vec![in alloc; 0u8; 0x8000]?;
    set(&mut rom, 0x134, title);
    set(&mut rom, 0x147, 0x10);
    set(&mut rom, 0x149, 0x02);
    let program = [0x3E, 0x00, 0xE0, 0x40, 0x76, 0x18, 0xFD];
    for (index, byte) in program.iter().enumerate() {
        set(&mut rom, 0x100usize.saturating_add(index), *byte);
    }
    Cartridge::read(rom).map_err(|_| Fail::from("no cartridge"))
}

fn set(bytes: &mut [u8], at: usize, value: u8) {
    if let Some(place) = bytes.get_mut(at) {
        *place = value;
    }
}

/// The snapshot of a machine.
fn snapshot_of(alloc: Global, machine: &Machine) -> Result<Vec<u8>, Fail> {
    let ram = machine.region(Region::CartRam).len();
    if ram > 131_072 {
        return Err(Fail::from("too much RAM"));
    }
    let mut bytes = vec![in alloc; 0u8; length(ram)]?;
    encode(machine, &mut bytes);
    Ok(bytes)
}

/// The device of a new game.
pub(crate) fn new_save(rt: &impl Abort, alloc: Global, cartridge: &Cartridge) -> MemoryDevice {
    let device = MemoryDevice::new(alloc, 188, 1000).or_stop(rt);
    let Ok(session) = new_game(alloc, device, cartridge) else {
        panic!(rt; "not begun");
    };
    copy(rt, alloc, &session.into_device())
}

/// The device of a new recording with so many sectors.
pub(crate) fn new_recording(
    rt: &impl Abort,
    alloc: Global,
    cartridge: &Cartridge,
    sectors: usize,
) -> MemoryDevice {
    let device = MemoryDevice::new(alloc, sectors, 1000).or_stop(rt);
    let Ok(recording) = create_recording(alloc, device, cartridge.digest()) else {
        panic!(rt; "not created");
    };
    copy(rt, alloc, &recording.into_device())
}

/// A new game and a new recording of this cartridge.
pub(crate) fn new_pair(rt: &impl Abort, alloc: Global, cartridge: &Cartridge) -> Pair {
    Pair {
        save: new_save(rt, alloc, cartridge),
        recording: new_recording(rt, alloc, cartridge, 8),
    }
}

/// A device with the sectors of the last sync, and an empty record.
pub(crate) fn copy(rt: &impl Abort, alloc: Global, device: &MemoryDevice) -> MemoryDevice {
    device.image(alloc, &[]).or_stop(rt)
}

/// Both devices.
#[derive(Drop)]
pub(crate) struct Pair {
    pub(crate) save: MemoryDevice,
    pub(crate) recording: MemoryDevice,
}

pub(crate) fn both(rt: &impl Abort, alloc: Global, pair: &Pair) -> Pair {
    Pair {
        save: copy(rt, alloc, &pair.save),
        recording: copy(rt, alloc, &pair.recording),
    }
}

pub(crate) fn looked_at(
    rt: &impl Abort,
    alloc: Global,
    save: MemoryDevice,
    cartridge: &Cartridge,
) -> Look<MemoryDevice> {
    let Ok(look) = look_at(alloc, save, cartridge) else {
        panic!(rt; "not looked at");
    };
    look
}

pub(crate) fn opened(
    rt: &impl Abort,
    alloc: Global,
    recording: MemoryDevice,
    cartridge: &Cartridge,
) -> Recording<MemoryDevice> {
    let Ok(recording) = open_recording(alloc, recording, cartridge.digest()) else {
        panic!(rt; "not opened");
    };
    recording
}

/// The inputs that a recording holds.
pub(crate) fn inputs_of(
    rt: &impl Abort,
    alloc: Global,
    recording: &mut Recording<MemoryDevice>,
) -> Result<Vec<Input>, Fail> {
    let mut inputs = Vec::new(alloc);
    assert!(rt; !recording.is_broken());
    let used = recording.sectors_used();
    for number in 0..used {
        add_sector(rt, recording, number, &mut inputs)?;
    }
    Ok(inputs)
}

fn add_sector(
    rt: &impl Abort,
    recording: &mut Recording<MemoryDevice>,
    number: u64,
    inputs: &mut Vec<Input>,
) -> Result<(), Fail> {
    assert!(rt; !recording.is_broken());
    assert!(rt; number < recording.sectors_used());
    holds!(rt; recording.read_sector(number + 1).is_ok());
    for entry in recording.entries() {
        match entry.logged() {
            Some(Logged::Frames { buttons, times }) => {
                for _i in 0..times {
                    inputs.push(Input::Frame(buttons))?;
                }
            }
            Some(Logged::Seconds(seconds)) => inputs.push(Input::Seconds(seconds))?,
            None => return Err(Fail::from("no input")),
        }
    }
    Ok(())
}

/// The snapshot of the machine after these inputs from power-on.
fn played(alloc: Global, cartridge: &Cartridge, inputs: &[Input]) -> Result<Vec<u8>, Fail> {
    let mut machine = Machine::power_on(alloc, cartridge)?;
    for input in inputs {
        machine.apply(*input);
    }
    snapshot_of(alloc, &machine)
}

/// The recording of these devices holds at least the inputs of their SAVE, whose machine is the one after the first of them.
/// Answers the counts of both.
pub(crate) fn agree(
    rt: &impl Abort,
    alloc: Global,
    pair: Pair,
    cartridge: &Cartridge,
) -> (u64, u64) {
    let Pair { save, recording } = pair;
    let look = looked_at(rt, alloc, save, cartridge);
    let mut recording = opened(rt, alloc, recording, cartridge);
    let inputs = inputs_of(rt, alloc, &mut recording).or_stop(rt);
    let count = look.count();
    same!(rt; inputs.len() as u64, recording.input_count());
    assert!(rt; count <= inputs.len() as u64);
    let want = played(alloc, cartridge, &inputs[..count as usize]).or_stop(rt);
    let found = snapshot_of(alloc, look.machine()).or_stop(rt);
    holds!(rt; found == want);
    (count, recording.input_count())
}
