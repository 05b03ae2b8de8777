//! Lives of a SAVE alone: of one round or none, and lives that are refused.
use crate::asserting::{OrStop, holds, same};
use crate::lives::{Keeps, NONE, Row, is_refused, lives_as};
use cartridge::Cartridge;
use sector_device::MemoryDevice;
use session::{SessionError, new_game};
use std::alloc::Global;
use std::process::Abort;
use std::test::Fail;
use streaming::StreamError;
use whole_lives::{Devices, LifeError};

/// The display is turned off. Then what the buttons select is added to C in a loop, so that each frame leaves another machine.
const PROGRAM: [u8; 45] = [
    0x3E, 0x00, 0xE0, 0x40, 0x3E, 0x20, 0xE0, 0x00, 0xF0, 0x00, 0x81, 0x4F, 0x08, 0x00, 0xC0, 0x08,
    0x00, 0xC0, 0x08, 0x00, 0xC0, 0x08, 0x00, 0xC0, 0x08, 0x00, 0xC0, 0x08, 0x00, 0xC0, 0x08, 0x00,
    0xC0, 0x08, 0x00, 0xC0, 0x08, 0x00, 0xC0, 0x08, 0x00, 0xC0, 0x23, 0x18, 0xDB,
];

/// A cartridge of 32 KiB with a clock and 8 KiB of RAM: a session of it needs 188 sectors.
fn cartridge(alloc: Global) -> Result<Cartridge, Fail> {
    let mut rom = vec![in alloc; 0u8; 0x8000]?;
    set(&mut rom, 0x147, 0x10);
    set(&mut rom, 0x149, 0x02);
    for (index, byte) in PROGRAM.iter().enumerate() {
        set(&mut rom, 0x100usize.saturating_add(index), *byte);
    }
    Cartridge::read(rom).map_err(|_| Fail::from("no cartridge"))
}

fn set(bytes: &mut [u8], at: usize, value: u8) {
    if let Some(place) = bytes.get_mut(at) {
        *place = value;
    }
}

/// The device of a SAVE alone.
fn alone(save: MemoryDevice) -> Devices {
    Devices {
        save,
        recording: None,
    }
}

/// A new game on 188 sectors, with room to record so many writes and syncs from its end on.
fn new_device(rt: &impl Abort, alloc: Global, cartridge: &Cartridge, room: usize) -> Devices {
    let device = MemoryDevice::new(alloc, 188, room).or_stop(rt);
    let Ok(session) = new_game(alloc, device, cartridge) else {
        panic!(rt; "not begun");
    };
    alone(session.into_device().image(alloc, &[]).or_stop(rt))
}

const FIVE_SAVED: &[u8] = b"frames 00 5\nsave\n";

const AMPLE: Row = (FIVE_SAVED, 1000, 0, NONE);

/// A new game lives this round, and then goes on there.
fn ends(rt: &impl Abort, alloc: Global, calls: u64, end: (&[u8], bool), report: &[u8]) {
    let cartridge = cartridge(alloc).or_stop(rt);
    let devices = new_device(rt, alloc, &cartridge, 1000);
    let row = (FIVE_SAVED, calls, 0, NONE);
    lives_as(rt, alloc, devices, &cartridge, &[row], &[end], report);
}

#[test]
fn a_round_with_ample_calls_does_all_its_lines(rt: HostRuntime) {
    let whole = (b"resumed 0\nsaved 5\n".as_slice(), true);
    ends(&rt, rt.alloc(), 1000, whole, b"resumed 5\n");
}

#[test]
fn a_round_with_no_calls_does_nothing(rt: HostRuntime) {
    ends(&rt, rt.alloc(), 0, (b"".as_slice(), false), b"resumed 0\n");
}

/// A resume makes 161 calls, and a save two more: with one call less its sync is not made.
#[test]
fn a_round_has_exactly_its_calls(rt: HostRuntime) {
    let whole = (b"resumed 0\nsaved 5\n".as_slice(), true);
    ends(&rt, rt.alloc(), 163, whole, b"resumed 5\n");
    let cut = (b"resumed 0\n".as_slice(), false);
    ends(&rt, rt.alloc(), 162, cut, b"resumed 0\n");
}

/// Frames with no button and with one pressed, in turn, a line each.
fn add_alternating(lines: &mut Vec<u8>, pairs: u8) -> Result<(), Fail> {
    for _i in 0..pairs {
        lines.extend_from_slice(b"frames 00 1\nframes 01 1\n")?;
    }
    Ok(())
}

/// Saves 40 alternating frames, and then 80 more.
fn two_saves(alloc: Global) -> Result<Vec<u8>, Fail> {
    let mut lines = Vec::new(alloc);
    add_alternating(&mut lines, 20)?;
    lines.extend_from_slice(b"save\n")?;
    add_alternating(&mut lines, 40)?;
    lines.extend_from_slice(b"save\n")?;
    Ok(lines)
}

/// The sync of the second save is not made, and what the cut keeps of its two writes is where the game goes on.
#[test]
fn a_cut_save_keeps_what_survives(rt: HostRuntime) {
    let alloc = rt.alloc();
    let cartridge = cartridge(alloc).or_stop(&rt);
    let lines = two_saves(alloc).or_stop(&rt);
    for (kept, report) in [
        ([true, true], b"resumed 120\n".as_slice()),
        ([true, false], b"resumed 84\n".as_slice()),
        ([false, true], b"resumed 40\n".as_slice()),
    ] {
        let keeps = Keeps {
            save: kept,
            recording: [false, false],
        };
        let devices = new_device(&rt, alloc, &cartridge, 1000);
        let row = (lines.as_slice(), CALLS_TO_THE_SYNC, 0, keeps);
        let end = (b"resumed 0\nsaved 40\n".as_slice(), false);
        lives_as(&rt, alloc, devices, &cartridge, &[row], &[end], report);
    }
}

/// The device gets so many calls before the sync of the second save: 161 of the resume, two of the first save, and two writes.
const CALLS_TO_THE_SYNC: u64 = 165;

const FAILED: LifeError = LifeError::Stream(StreamError::Session(SessionError::Device));

#[test]
fn a_full_record_ends_the_life(rt: HostRuntime) {
    let alloc = rt.alloc();
    let cartridge = cartridge(alloc).or_stop(&rt);
    // The resume records 97 writes and syncs, and the save has no room for another.
    let devices = new_device(&rt, alloc, &cartridge, 97);
    let left = is_refused(&rt, alloc, devices, &cartridge, &[AMPLE], FAILED);
    holds!(rt; !left.save.blown());
    same!(rt; left.save.calls(), 97);
}

#[test]
fn a_call_that_was_set_to_fail_ends_the_life(rt: HostRuntime) {
    let alloc = rt.alloc();
    let cartridge = cartridge(alloc).or_stop(&rt);
    let mut devices = new_device(&rt, alloc, &cartridge, 1000);
    // the sync of the save
    devices.save.fail_at(163, false);
    let left = is_refused(&rt, alloc, devices, &cartridge, &[AMPLE], FAILED);
    holds!(rt; !left.save.blown());
    let left = alone(left.save.image(alloc, &[true]).or_stop(&rt));
    lives_as(&rt, alloc, left, &cartridge, &[], &[], b"resumed 5\n");
}

#[test]
fn a_life_without_a_game_is_refused(rt: HostRuntime) {
    let alloc = rt.alloc();
    let cartridge = cartridge(alloc).or_stop(&rt);
    let devices = alone(MemoryDevice::new(alloc, 188, 1000).or_stop(&rt));
    let why = LifeError::Stream(StreamError::Session(SessionError::NoSession));
    is_refused(&rt, alloc, devices, &cartridge, &[AMPLE], why);
}
