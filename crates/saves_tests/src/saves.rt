//! Inputs and saves.
use crate::asserting::{OrStop, holds, same};
use crate::games::{
    answer, begun, calls, cartridge, counts, frames_snapshot, fresh, give, give_frames, give_input,
    into_device, put, refused_save, resumed, resumes_at, save, settled, snapshot_of,
};
use cartridge::Cartridge;
use machine::Input;
use sector_device::MemoryDevice;
use session::{Session, SessionError};
use std::alloc::Global;
use std::process::Abort;

/// A session of 40 saved frames, whose save of 80 more in two sectors has failed at its sync.
fn cut(rt: &impl Abort, alloc: Global, cartridge: &Cartridge) -> Session<MemoryDevice> {
    let mut device = fresh(alloc, 188).or_stop(rt);
    // Opening takes three calls, beginning 96, the first save two, the second two writes and this sync.
    device.fail_at(104, false);
    let mut session = begun(rt, alloc, device, cartridge);
    give_frames(rt, &mut session, 0, 40);
    save(rt, &mut session, 40);
    give_frames(rt, &mut session, 40, 120);
    same!(rt; refused_save(rt, &mut session), SessionError::Device);
    session
}

/// An input and a save are refused, make no call, and leave the counts.
fn is_broken(rt: &impl Abort, session: &mut Session<MemoryDevice>) {
    let made = calls(session);
    same!(rt; answer(session, Input::Frame(0)), Some(SessionError::Broken));
    same!(rt; refused_save(rt, session), SessionError::Broken);
    same!(rt; calls(session), made);
    same!(rt; counts(session), [120, 40, 80]);
}

fn has_snapshot(rt: &impl Abort, alloc: Global, session: &Session<MemoryDevice>, bytes: &[u8]) {
    holds!(rt; snapshot_of(alloc, session.machine()).or_stop(rt).as_slice() == bytes);
}

#[test]
fn a_failed_save_breaks_the_session(rt: HostRuntime) {
    let alloc = rt.alloc();
    let cartridge = cartridge(alloc).or_stop(&rt);
    let mut session = cut(&rt, alloc, &cartridge);
    same!(rt; counts(&session), [120, 40, 80]);
    is_broken(&rt, &mut session);
    let bytes = frames_snapshot(alloc, &cartridge, 120).or_stop(&rt);
    has_snapshot(&rt, alloc, &session, &bytes);
    // The device goes on: its reads give all that was written.
    resumes_at(&rt, alloc, into_device(session), &cartridge, 120, &bytes);
}

/// One input more is refused, and changes nothing; behind a save it is taken.
fn saves_first(rt: &impl Abort, alloc: Global, session: &mut Session<MemoryDevice>) {
    let before = snapshot_of(alloc, session.machine()).or_stop(rt);
    same!(rt; answer(session, Input::Frame(1)), Some(SessionError::SaveFirst));
    same!(rt; counts(session), [3200, 0, 3200]);
    has_snapshot(rt, alloc, session, &before);
    save(rt, session, 3200);
    give_input(rt, session, Input::Frame(1));
    same!(rt; counts(session), [3201, 3200, 1]);
    save(rt, session, 3201);
}

#[test]
fn save_first_at_3200(rt: HostRuntime) {
    let alloc = rt.alloc();
    let cartridge = cartridge(alloc).or_stop(&rt);
    let mut session = begun(&rt, alloc, fresh(alloc, 188).or_stop(&rt), &cartridge);
    give(&rt, &mut session, 0, 3200);
    saves_first(&rt, alloc, &mut session);
    let bytes = snapshot_of(alloc, session.machine()).or_stop(&rt);
    resumes_at(&rt, alloc, into_device(session), &cartridge, 3201, &bytes);
}

/// A session in the last generation.
fn in_the_last_generation(
    rt: &impl Abort,
    alloc: Global,
    cartridge: &Cartridge,
) -> Session<MemoryDevice> {
    let session = begun(rt, alloc, fresh(alloc, 188).or_stop(rt), cartridge);
    let mut device = into_device(resumed(rt, alloc, into_device(session), cartridge));
    // The second generation stands in slot 0, as the one before the last does.
    put(rt, &mut device, 0, 12, &(u64::MAX - 1).to_le_bytes());
    let device = settled(rt, alloc, device);
    resumed(rt, alloc, device, cartridge)
}

/// In the last generation a save that fits is made, and one that does not is refused and changes nothing.
#[test]
fn the_last_generation(rt: HostRuntime) {
    let alloc = rt.alloc();
    let cartridge = cartridge(alloc).or_stop(&rt);
    let mut session = in_the_last_generation(&rt, alloc, &cartridge);
    give(&rt, &mut session, 0, 2689);
    let made = calls(&session);
    same!(rt; refused_save(&rt, &mut session), SessionError::GenerationsUsedUp);
    same!(rt; counts(&session), [2689, 0, 2689]);
    same!(rt; calls(&session), made);
    give_input(&rt, &mut session, Input::Seconds(1));
    same!(rt; counts(&session), [2690, 0, 2690]);
    let mut session = in_the_last_generation(&rt, alloc, &cartridge);
    give(&rt, &mut session, 0, 2688);
    save(&rt, &mut session, 2688);
}
