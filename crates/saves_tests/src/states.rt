//! The power switch, and states as inputs.
use crate::asserting::{OrStop, holds, same};
use crate::games::{
    alternating, cartridge, counts, fresh, image, into_device, resumes_at, seconds, snapshot_of,
};
use cartridge::Cartridge;
use sector_device::MemoryDevice;
use session::{Damage, Session, SessionError, new_game};
use snapshot::SnapError;
use std::alloc::Global;
use std::process::Abort;

/// A session, and how a state with a byte less, a state and the power switch were answered.
#[derive(Drop)]
struct Switched {
    session: Session<MemoryDevice>,
    /// The snapshot after the three inputs that are saved.
    saved: Vec<u8>,
    answers: [Option<SessionError>; 3],
}

/// A new game with three saved inputs, two more, the state after the three, one more, the power switch, and one more. The device fails
/// after so many calls.
fn given_more(rt: &impl Abort, alloc: Global, cartridge: &Cartridge, calls: u64) -> Switched {
    let mut device = fresh(alloc, 188).or_stop(rt);
    device.fuse(calls);
    let Ok(mut session) = new_game(alloc, device, cartridge) else {
        panic!(rt; "not begun");
    };
    let _ = session.input(seconds(0));
    let _ = session.input(seconds(1));
    let _ = session.input(alternating(1));
    let _ = session.save();
    let saved = snapshot_of(alloc, session.machine()).or_stop(rt);
    let _ = session.input(seconds(3));
    let _ = session.input(alternating(0));
    let damaged = session
        .restore(saved.get(1..).unwrap_or(&[]), cartridge)
        .err();
    let restored = session.restore(&saved, cartridge).err();
    let _ = session.input(alternating(1));
    let powered = session.power(alloc, cartridge).err();
    let _ = session.input(seconds(2));
    Switched {
        session,
        saved,
        answers: [damaged, restored, powered],
    }
}

/// A save behind a state, cut after each number of calls, leaves the game before it or behind it.
#[test]
fn a_state_is_saved_whole_or_not_at_all(rt: HostRuntime) {
    let alloc = rt.alloc();
    let cartridge = cartridge(alloc).or_stop(&rt);
    let Switched {
        mut session,
        saved,
        answers,
    } = given_more(&rt, alloc, &cartridge, u64::MAX);
    let damage = Damage::Snapshot(SnapError::SnapLength(30_798));
    same!(rt; answers, [Some(SessionError::Damaged(damage)), None, None]);
    same!(rt; counts(&session), [9, 3, 6]);
    let made = session.device().calls();
    let behind = snapshot_of(alloc, session.machine()).or_stop(&rt);
    holds!(rt; behind.as_slice() != saved.as_slice());
    same!(rt; session.save(), Ok(9));
    same!(rt; counts(&session), [9, 9, 0]);
    // It is a generation.
    let calls = session.device().calls().saturating_sub(made);
    same!(rt; calls, 96);
    resumes_at(&rt, alloc, into_device(session), &cartridge, 9, &behind);
    // Opening takes three calls, beginning 96, the first save two.
    for k in [101, 102, 140, 194] {
        let Switched { mut session, .. } = given_more(&rt, alloc, &cartridge, k);
        same!(rt; session.save(), Err(SessionError::Device));
        let device = into_device(session);
        for keeps in [[false, false], [true, true], [true, false]] {
            let left = image(alloc, &device, keeps).or_stop(&rt);
            resumes_at(&rt, alloc, left, &cartridge, 3, &saved);
        }
    }
    // All was written but for the last sync.
    let Switched { mut session, .. } = given_more(&rt, alloc, &cartridge, 196);
    same!(rt; session.save(), Err(SessionError::Device));
    let device = into_device(session);
    let none = image(alloc, &device, [false, false]).or_stop(&rt);
    resumes_at(&rt, alloc, none, &cartridge, 3, &saved);
    let all = image(alloc, &device, [true, true]).or_stop(&rt);
    resumes_at(&rt, alloc, all, &cartridge, 9, &behind);
}
