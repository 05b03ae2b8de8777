//! Cartridges, devices and sessions of the tests. These have no contract, so that a test's proof does not follow the numbers.
use crate::asserting::{OrStop, holds, same};
use cartridge::Cartridge;
use machine::{Input, Machine, Region};
use sector_device::{MemoryDevice, Refused, SectorDevice};
use session::{Counts, Session, SessionError, new_game, new_game_from, resume};
use snapshot::{decode, encode, length};
use std::alloc::Global;
use std::process::Abort;
use std::test::Fail;

/// The display is turned off. Then what the buttons select is added to C in a loop, so that each frame leaves another machine.
const PROGRAM: [u8; 45] = [
    0x3E, 0x00, 0xE0, 0x40, 0x3E, 0x20, 0xE0, 0x00, 0xF0, 0x00, 0x81, 0x4F, 0x08, 0x00, 0xC0, 0x08,
    0x00, 0xC0, 0x08, 0x00, 0xC0, 0x08, 0x00, 0xC0, 0x08, 0x00, 0xC0, 0x08, 0x00, 0xC0, 0x08, 0x00,
    0xC0, 0x08, 0x00, 0xC0, 0x08, 0x00, 0xC0, 0x08, 0x00, 0xC0, 0x23, 0x18, 0xDB,
];

/// A cartridge of 32 KiB with this type, RAM code and first title byte.
pub(crate) fn cartridge_of(
    alloc: Global,
    kind: u8,
    ram_code: u8,
    title: u8,
) -> Result<Cartridge, Fail> {
    let mut rom = vec![in alloc; 0u8; 0x8000]?;
    set(&mut rom, 0x134, title);
    set(&mut rom, 0x147, kind);
    set(&mut rom, 0x149, ram_code);
    for (index, byte) in PROGRAM.iter().enumerate() {
        set(&mut rom, 0x100usize.saturating_add(index), *byte);
    }
    Cartridge::read(rom).map_err(|_| Fail::from("no cartridge"))
}

fn set(bytes: &mut [u8], at: usize, value: u8) {
    if let Some(place) = bytes.get_mut(at) {
        *place = value;
    }
}

/// With a clock and 8 KiB of RAM: a session of it needs 188 sectors.
pub(crate) fn cartridge(alloc: Global) -> Result<Cartridge, Fail> {
    cartridge_of(alloc, 0x10, 0x02, b'A')
}

/// Another ROM with a clock and 8 KiB of RAM.
pub(crate) fn other_cartridge(alloc: Global) -> Result<Cartridge, Fail> {
    cartridge_of(alloc, 0x10, 0x02, b'B')
}

/// Inputs that are each an entry of their own, and of which each leaves another machine. They take no time to play.
pub(crate) fn seconds(i: u32) -> Input {
    Input::Seconds(i % 7 + 1)
}

/// Frames with no button and with button 0 pressed, in turn.
pub(crate) fn alternating(i: u32) -> Input {
    if i % 2 == 0 {
        Input::Frame(0)
    } else {
        Input::Frame(1)
    }
}

/// The snapshot of a machine.
pub(crate) fn snapshot_of(alloc: Global, machine: &Machine) -> Result<Vec<u8>, Fail> {
    let ram = machine.region(Region::CartRam).len();
    if ram > 131_072 {
        return Err(Fail::from("too much RAM"));
    }
    let mut bytes = vec![in alloc; 0u8; length(ram)]?;
    encode(machine, &mut bytes);
    Ok(bytes)
}

pub(crate) fn apply(machine: &mut Machine, input: Input) {
    machine.apply(input);
}

/// The snapshot of the machine after so many seconds since power-on.
pub(crate) fn clock_snapshot(
    alloc: Global,
    cartridge: &Cartridge,
    inputs: u32,
) -> Result<Vec<u8>, Fail> {
    let mut machine = Machine::power_on(alloc, cartridge)?;
    for i in 0..inputs {
        apply(&mut machine, seconds(i));
    }
    snapshot_of(alloc, &machine)
}

/// The snapshot of the machine after so many alternating frames since power-on.
pub(crate) fn frames_snapshot(
    alloc: Global,
    cartridge: &Cartridge,
    inputs: u32,
) -> Result<Vec<u8>, Fail> {
    let mut machine = Machine::power_on(alloc, cartridge)?;
    for i in 0..inputs {
        apply(&mut machine, alternating(i));
    }
    snapshot_of(alloc, &machine)
}

/// A device of zeros, with room to record 1,000 writes and syncs.
pub(crate) fn fresh(alloc: Global, sectors: usize) -> Result<MemoryDevice, Fail> {
    Ok(MemoryDevice::new(alloc, sectors, 1000)?)
}

pub(crate) fn begun(
    rt: &impl Abort,
    alloc: Global,
    device: MemoryDevice,
    cartridge: &Cartridge,
) -> Session<MemoryDevice> {
    let Ok(session) = new_game(alloc, device, cartridge) else {
        panic!(rt; "not begun");
    };
    session
}

/// The device that a new game leaves, whether it was begun or refused.
pub(crate) fn left_by_new_game(
    alloc: Global,
    device: MemoryDevice,
    cartridge: &Cartridge,
) -> (Option<SessionError>, MemoryDevice) {
    match new_game(alloc, device, cartridge) {
        Ok(session) => (None, session.into_device()),
        Err(refused) => (Some(refused.why), refused.device),
    }
}

/// The device that a game with the machine of this snapshot leaves, whether it was begun or refused.
pub(crate) fn left_by_game_from(
    rt: &impl Abort,
    alloc: Global,
    device: MemoryDevice,
    cartridge: &Cartridge,
    bytes: &[u8],
) -> (Option<SessionError>, MemoryDevice) {
    let Ok(machine) = decode(alloc, bytes, cartridge) else {
        panic!(rt; "no machine");
    };
    match new_game_from(alloc, device, cartridge, machine) {
        Ok(session) => (None, session.into_device()),
        Err(refused) => (Some(refused.why), refused.device),
    }
}

pub(crate) fn resumed(
    rt: &impl Abort,
    alloc: Global,
    device: MemoryDevice,
    cartridge: &Cartridge,
) -> Session<MemoryDevice> {
    let Ok(session) = resume(alloc, device, cartridge) else {
        panic!(rt; "not resumed");
    };
    session
}

/// A resume that is refused.
pub(crate) fn refused(
    rt: &impl Abort,
    alloc: Global,
    device: MemoryDevice,
    cartridge: &Cartridge,
) -> Refused<SessionError, MemoryDevice> {
    match resume(alloc, device, cartridge) {
        Ok(_) => panic!(rt; "resumed"),
        Err(refused) => refused,
    }
}

/// How many inputs a resume finds.
pub(crate) fn count(
    rt: &impl Abort,
    alloc: Global,
    device: MemoryDevice,
    cartridge: &Cartridge,
) -> u64 {
    resumed(rt, alloc, device, cartridge).counts().all
}

/// A resume finds so many inputs, and the machine with this snapshot.
pub(crate) fn resumes_at(
    rt: &impl Abort,
    alloc: Global,
    device: MemoryDevice,
    cartridge: &Cartridge,
    inputs: u64,
    bytes: &[u8],
) {
    let session = resumed(rt, alloc, device, cartridge);
    same!(rt;
        session.counts(),
        Counts {
            all: inputs,
            acknowledged: inputs,
            pending: 0
        }
    );
    let found = snapshot_of(alloc, session.machine()).or_stop(rt);
    holds!(rt; found.as_slice() == bytes);
}

/// Gives a session the alternating frames from one index up to another.
pub(crate) fn give_frames(
    rt: &impl Abort,
    session: &mut Session<MemoryDevice>,
    from: u32,
    to: u32,
) {
    for i in from..to {
        give_input(rt, session, alternating(i));
    }
}

pub(crate) fn give_input(rt: &impl Abort, session: &mut Session<MemoryDevice>, input: Input) {
    same!(rt; session.input(input), Ok(()));
}

/// Gives a session the seconds from one index up to another.
pub(crate) fn give(rt: &impl Abort, session: &mut Session<MemoryDevice>, from: u32, to: u32) {
    for i in from..to {
        give_input(rt, session, seconds(i));
    }
}

/// What `input` answers.
pub(crate) fn answer(session: &mut Session<MemoryDevice>, input: Input) -> Option<SessionError> {
    session.input(input).err()
}

/// A save that succeeds and answers so many.
pub(crate) fn save(rt: &impl Abort, session: &mut Session<MemoryDevice>, want: u64) {
    same!(rt; session.save(), Ok(want));
}

/// A save that is refused.
pub(crate) fn refused_save(rt: &impl Abort, session: &mut Session<MemoryDevice>) -> SessionError {
    match session.save() {
        Ok(_) => panic!(rt; "saved"),
        Err(why) => why,
    }
}

pub(crate) fn counts(session: &Session<MemoryDevice>) -> [u64; 3] {
    let counts = session.counts();
    [counts.all, counts.acknowledged, counts.pending]
}

/// The writes and syncs that its device has recorded.
pub(crate) fn calls(session: &Session<MemoryDevice>) -> usize {
    session.device().calls()
}

pub(crate) fn into_device(session: Session<MemoryDevice>) -> MemoryDevice {
    session.into_device()
}

/// The device of a new game of this cartridge on 188 sectors, with so many seconds saved and all of it synced.
pub(crate) fn game(
    rt: &impl Abort,
    alloc: Global,
    cartridge: &Cartridge,
    inputs: u32,
) -> MemoryDevice {
    let mut session = begun(rt, alloc, fresh(alloc, 188).or_stop(rt), cartridge);
    give(rt, &mut session, 0, inputs);
    save(rt, &mut session, u64::from(inputs));
    session.into_device().image(alloc, &[]).or_stop(rt)
}

/// What a cut leaves where of the unsynced writes those are kept whose place modulo two is true.
pub(crate) fn image(
    alloc: Global,
    device: &MemoryDevice,
    keeps: [bool; 2],
) -> Result<MemoryDevice, Fail> {
    let mut kept = Vec::new(alloc);
    for _i in 0..60 {
        kept.push(keeps[0])?;
        kept.push(keeps[1])?;
    }
    Ok(device.image(alloc, &kept)?)
}

pub(crate) fn sector(rt: &impl Abort, device: &mut MemoryDevice, at: u64) -> [u8; 512] {
    let mut bytes = [9; 512];
    assert!(rt; at < device.count());
    holds!(rt; device.read(at, &mut bytes).is_ok());
    bytes
}

/// The sector has these bytes from there on.
pub(crate) fn has_bytes(
    rt: &impl Abort,
    device: &mut MemoryDevice,
    at: u64,
    from: usize,
    want: &[u8],
) {
    let bytes = sector(rt, device, at);
    assert!(rt; from < 512);
    holds!(rt; bytes[from..].starts_with(want));
}

/// The sector is zeros from there on.
pub(crate) fn is_blank_from(rt: &impl Abort, device: &mut MemoryDevice, at: u64, from: usize) {
    let bytes = sector(rt, device, at);
    for i in from..512 {
        same!(rt; bytes[i], 0);
    }
}

pub(crate) fn put(rt: &impl Abort, device: &mut MemoryDevice, at: u64, from: usize, bytes: &[u8]) {
    let mut whole = sector(rt, device, at);
    assert!(rt; from < 512);
    for (i, byte) in whole[from..].iter_mut().zip(bytes) {
        *i = *byte;
    }
    assert!(rt; at < device.count());
    holds!(rt; device.write(at, &whole).is_ok());
}

/// The device as it is, all of it synced and with an empty record.
pub(crate) fn settled(rt: &impl Abort, alloc: Global, mut device: MemoryDevice) -> MemoryDevice {
    holds!(rt; device.sync().is_ok());
    device.image(alloc, &[]).or_stop(rt)
}
