//! New games.
use crate::asserting::{OrStop, holds, same};
use crate::games::{
    begun, cartridge, cartridge_of, clock_snapshot, counts, fresh, game, has_bytes, into_device,
    is_blank_from, left_by_game_from, left_by_new_game, resumes_at,
};
use cartridge::Cartridge;
use sector_device::MemoryDevice;
use session::{SessionError, sectors_needed};
use std::alloc::Global;
use std::process::Abort;

/// A device of a sector too few is synced, and nothing is written.
fn is_too_small(rt: &impl Abort, alloc: Global, cartridge: &Cartridge, need: u64) {
    let device = fresh(alloc, (need as usize).saturating_sub(1)).or_stop(rt);
    let (why, device) = left_by_new_game(alloc, device, cartridge);
    same!(rt; why, Some(SessionError::TooSmall { need }));
    same!(rt; device.calls(), 1);
}

/// A game without inputs is begun on a device.
fn begins_empty(
    rt: &impl Abort,
    alloc: Global,
    device: MemoryDevice,
    cartridge: &Cartridge,
) -> MemoryDevice {
    let session = begun(rt, alloc, device, cartridge);
    same!(rt; counts(&session), [0, 0, 0]);
    into_device(session)
}

fn needs_sectors(rt: &impl Abort, alloc: Global, cartridge: &Cartridge, want: u64) {
    same!(rt; sectors_needed(cartridge), want);
    is_too_small(rt, alloc, cartridge, want);
    let device = fresh(alloc, want as usize).or_stop(rt);
    let device = begins_empty(rt, alloc, device, cartridge);
    let bytes = clock_snapshot(alloc, cartridge, 0).or_stop(rt);
    resumes_at(rt, alloc, device, cartridge, 0, &bytes);
}

#[test]
fn sectors_that_are_needed(rt: HostRuntime) {
    let alloc = rt.alloc();
    for (kind, ram_code, want) in [(0x00, 0x00, 156), (0x10, 0x02, 188)] {
        let cartridge = cartridge_of(alloc, kind, ram_code, b'A').or_stop(&rt);
        needs_sectors(&rt, alloc, &cartridge, want);
    }
}

/// The root and the first sector of the snapshot of a new game.
fn is_first_generation(
    rt: &impl Abort,
    device: &mut MemoryDevice,
    cartridge: &Cartridge,
    bytes: &[u8],
) {
    let root = b"GBKPROOT\x02\x00\x00\x00\x01\x00\x00\x00\x00\x00\x00\x00";
    has_bytes(rt, device, 1, 0, root);
    has_bytes(rt, device, 1, 20, &cartridge.digest());
    let count_and_length = b"\x00\x00\x00\x00\x00\x00\x00\x00\x4f\x78\x00\x00";
    has_bytes(rt, device, 1, 52, count_and_length);
    is_blank_from(rt, device, 1, 64);
    is_blank_from(rt, device, 0, 0);
    is_blank_from(rt, device, 95, 0);
    let first = bytes.get(..512).unwrap_or(b"short".as_slice());
    has_bytes(rt, device, 127, 0, first);
}

#[test]
fn a_new_game_is_the_first_generation(rt: HostRuntime) {
    let alloc = rt.alloc();
    let cartridge = cartridge(alloc).or_stop(&rt);
    // A sync; 32 blank log sectors, 61 of the snapshot, a sync, the root and a sync.
    let device = MemoryDevice::new(alloc, 188, 97).or_stop(&rt);
    let mut device = begins_empty(&rt, alloc, device, &cartridge);
    same!(rt; device.calls(), 97);
    let bytes = clock_snapshot(alloc, &cartridge, 0).or_stop(&rt);
    is_first_generation(&rt, &mut device, &cartridge, &bytes);
}

#[test]
fn games_with_a_given_machine_are_refused(rt: HostRuntime) {
    let alloc = rt.alloc();
    let cartridge = cartridge(alloc).or_stop(&rt);
    let bytes = clock_snapshot(alloc, &cartridge, 3).or_stop(&rt);
    // A sector too few: it was synced, and nothing was written. Room for a call too few: all but the last one were made.
    for (sectors, room, want, calls) in [
        (187, 1000, SessionError::TooSmall { need: 188 }, 1),
        (188, 96, SessionError::Device, 96),
    ] {
        let device = MemoryDevice::new(alloc, sectors, room).or_stop(&rt);
        let (why, device) = left_by_game_from(&rt, alloc, device, &cartridge, &bytes);
        same!(rt; why, Some(want));
        same!(rt; device.calls(), calls);
    }
}
