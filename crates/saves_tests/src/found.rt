//! What a resume finds on a device and refuses. Then it has made one sync and written nothing.
use crate::asserting::{OrStop, same};
use crate::games::{
    answer, begun, cartridge, counts, fresh, game, give, into_device, other_cartridge, put,
    refused, resumed, save, settled,
};
use cartridge::Cartridge;
use machine::Input;
use sector_device::MemoryDevice;
use session::{Damage, SessionError};
use snapshot::SnapError;
use std::alloc::Global;
use std::process::Abort;

/// The resume of this device is refused so, twice, and no sector is written.
fn is_refused(
    rt: &impl Abort,
    alloc: Global,
    device: MemoryDevice,
    cartridge: &Cartridge,
    why: SessionError,
) -> MemoryDevice {
    let made = device.calls();
    let first = refused(rt, alloc, device, cartridge);
    same!(rt; first.why, why);
    same!(rt; first.device.calls(), made.saturating_add(1));
    let second = refused(rt, alloc, first.device, cartridge);
    same!(rt; second.why, why);
    same!(rt; second.device.calls(), made.saturating_add(2));
    second.device
}

/// Bytes that are put into a sector from there on.
#[derive(Clone, Copy)]
struct Change {
    at: u64,
    from: usize,
    bytes: [u8; 8],
}

/// A game of three inputs on so many sectors, changed so.
fn changed(
    rt: &impl Abort,
    alloc: Global,
    cartridge: &Cartridge,
    sectors: usize,
    changes: &[Change],
) -> MemoryDevice {
    let mut session = begun(rt, alloc, fresh(alloc, sectors).or_stop(rt), cartridge);
    give(rt, &mut session, 0, 3);
    save(rt, &mut session, 3);
    let mut device = into_device(session);
    for change in changes {
        put(rt, &mut device, change.at, change.from, &change.bytes);
    }
    settled(rt, alloc, device)
}

/// The base of the game's root.
fn base(base: u64) -> Change {
    Change {
        at: 1,
        from: 52,
        bytes: base.to_le_bytes(),
    }
}

/// The length of the snapshot in the game's root, and four zeros behind it.
fn snapshot_length(length: u32) -> Change {
    Change {
        at: 1,
        from: 60,
        bytes: u64::from(length).to_le_bytes(),
    }
}

/// The head of the third entry of its log. Behind it nothing is looked at.
fn third_entry() -> Change {
    Change {
        at: 95,
        from: 20,
        bytes: [2, 0, 0, 0, 0, 0, 0, 0],
    }
}

/// The first bytes of its snapshot as zeros.
fn no_snapshot() -> Change {
    Change {
        at: 127,
        from: 0,
        bytes: [0; 8],
    }
}

#[test]
fn an_empty_device_has_no_session(rt: HostRuntime) {
    let alloc = rt.alloc();
    let cartridge = cartridge(alloc).or_stop(&rt);
    for sectors in [0, 1, 2, 188] {
        let device = fresh(alloc, sectors).or_stop(&rt);
        is_refused(&rt, alloc, device, &cartridge, SessionError::NoSession);
    }
}

#[test]
fn another_rom_comes_before_damage(rt: HostRuntime) {
    let alloc = rt.alloc();
    let ours = cartridge(alloc).or_stop(&rt);
    let other = other_cartridge(alloc).or_stop(&rt);
    for change in [base(u64::MAX), no_snapshot(), third_entry()] {
        let device = changed(&rt, alloc, &ours, 188, &[change]);
        is_refused(&rt, alloc, device, &other, SessionError::OtherCartridge);
    }
}

#[test]
fn damage_is_told_in_its_order(rt: HostRuntime) {
    let alloc = rt.alloc();
    let cartridge = cartridge(alloc).or_stop(&rt);
    let field = Damage::Snapshot(SnapError::Field(0));
    for (changes, damage) in [
        ([base(u64::MAX), base(u64::MAX)], Damage::Count),
        ([base(u64::MAX - 2), base(u64::MAX - 2)], Damage::Count),
        ([base(u64::MAX), no_snapshot()], Damage::Count),
        ([base(u64::MAX), third_entry()], Damage::Count),
        ([no_snapshot(), no_snapshot()], field),
        ([no_snapshot(), third_entry()], field),
        ([third_entry(), third_entry()], Damage::Entry(2)),
    ] {
        let device = changed(&rt, alloc, &cartridge, 188, &changes);
        is_refused(
            &rt,
            alloc,
            device,
            &cartridge,
            SessionError::Damaged(damage),
        );
    }
}

#[test]
fn a_snapshot_that_does_not_fit(rt: HostRuntime) {
    let alloc = rt.alloc();
    let cartridge = cartridge(alloc).or_stop(&rt);
    let device = changed(&rt, alloc, &cartridge, 188, &[snapshot_length(u32::MAX)]);
    let short = SessionError::TooSmall { need: 16_777_282 };
    is_refused(&rt, alloc, device, &cartridge, short);
}

#[test]
fn the_last_generation_is_used_up(rt: HostRuntime) {
    let alloc = rt.alloc();
    let cartridge = cartridge(alloc).or_stop(&rt);
    let last = Change {
        at: 1,
        from: 12,
        bytes: u64::MAX.to_le_bytes(),
    };
    let device = changed(&rt, alloc, &cartridge, 188, &[last]);
    is_refused(
        &rt,
        alloc,
        device,
        &cartridge,
        SessionError::GenerationsUsedUp,
    );
    let device = changed(&rt, alloc, &cartridge, 188, &[last, third_entry()]);
    let wrong = SessionError::Damaged(Damage::Entry(2));
    is_refused(&rt, alloc, device, &cartridge, wrong);
}

#[test]
fn the_greatest_count(rt: HostRuntime) {
    let alloc = rt.alloc();
    let cartridge = cartridge(alloc).or_stop(&rt);
    let mut device = game(&rt, alloc, &cartridge, 0);
    put(&rt, &mut device, 1, 52, &u64::MAX.to_le_bytes());
    let device = settled(&rt, alloc, device);
    let mut session = resumed(&rt, alloc, device, &cartridge);
    same!(rt; counts(&session), [u64::MAX, u64::MAX, 0]);
    same!(rt;
        answer(&mut session, Input::Frame(0)),
        Some(SessionError::CountFull)
    );
    same!(rt; counts(&session), [u64::MAX, u64::MAX, 0]);
    save(&rt, &mut session, u64::MAX);
}
