//! Lives of a SAVE and its recording, and lives that are refused.
use crate::asserting::{OrStop, holds, same};
use crate::lives::{Keeps, NONE, Row, is_refused, lives_as as ends_as};
use crate::pairs::{Pair, agree, cartridge_of, new_pair};
use cartridge::Cartridge;
use recorded_play::RecordError;
use recording::RecordingFault;
use session::SessionError;
use std::alloc::Global;
use std::process::Abort;
use whole_lives::{Devices, Game, LifeError};

/// The devices of a new game and of a new recording.
fn new_devices(rt: &impl Abort, alloc: Global, cartridge: &Cartridge) -> Devices {
    let Pair { save, recording } = new_pair(rt, alloc, cartridge);
    Devices {
        save,
        recording: Some(recording),
    }
}

/// A life of the rounds of these rows, of a new game and a new recording, has these ends; then both are taken up and agree, with this count.
fn lives_as(
    rt: &impl Abort,
    alloc: Global,
    cartridge: &Cartridge,
    rows: &[Row],
    ends: &[(&[u8], bool)],
    report: &[u8],
    count: u64,
) {
    let devices = new_devices(rt, alloc, cartridge);
    let lived = ends_as(rt, alloc, devices, cartridge, rows, ends, report);
    let Game { session, recording } = lived.game;
    let Some(recording) = recording else {
        panic!(rt; "no recording");
    };
    let left = Pair {
        save: session.into_device(),
        recording: recording.into_device(),
    };
    same!(rt; agree(rt, alloc, left, cartridge), (count, count));
}

/// Two rounds that are not cut short, and between them one that gets no call.
#[test]
fn rounds_go_on_where_the_last_one_ended(rt: HostRuntime) {
    let alloc = rt.alloc();
    let cartridge = cartridge_of(alloc, b'A').or_stop(&rt);
    lives_as(
        &rt,
        alloc,
        &cartridge,
        &[
            (b"seconds 3\nsave\nseconds 4\n".as_slice(), 1000, 1000, NONE),
            (b"seconds 5\n".as_slice(), 0, 1000, NONE),
            (b"seconds 6".as_slice(), 1000, 1000, NONE),
        ],
        &[
            (b"resumed 0\nsaved 1\nsaved 2\n".as_slice(), true),
            (b"".as_slice(), false),
            (b"resumed 2\nsaved 3\n".as_slice(), true),
        ],
        b"resumed 3\n",
        3,
    );
}

/// Of the SAVE a resume makes 161 calls, and a save two more: with one call less its sync is not made. The recording was saved before it,
/// and what it alone has is taken up.
#[test]
fn what_only_the_recording_has_is_taken_up(rt: HostRuntime) {
    let alloc = rt.alloc();
    let cartridge = cartridge_of(alloc, b'A').or_stop(&rt);
    for (calls, report, whole) in [
        (161, b"resumed 0\n".as_slice(), false),
        (162, b"resumed 0\n".as_slice(), false),
        (163, b"resumed 0\nsaved 1\n".as_slice(), true),
    ] {
        lives_as(
            &rt,
            alloc,
            &cartridge,
            &[
                (b"seconds 3\n".as_slice(), calls, 1000, NONE),
                (b"".as_slice(), 1000, 1000, NONE),
            ],
            &[(report, whole), (b"resumed 1\n".as_slice(), true)],
            b"resumed 1\n",
            1,
        );
    }
}

/// The recording's device gets so many calls before the sync of a first save.
const CALLS_TO_THE_SYNC: u64 = 12;

/// The write of the recording is not synced, and the cut keeps it or not.
#[test]
fn a_cut_keeps_what_is_chosen(rt: HostRuntime) {
    let alloc = rt.alloc();
    let cartridge = cartridge_of(alloc, b'A').or_stop(&rt);
    for (kept, report, count) in [
        (false, b"resumed 0\n".as_slice(), 0),
        (true, b"resumed 1\n".as_slice(), 1),
    ] {
        let keeps = Keeps {
            save: [true, true],
            recording: [kept, kept],
        };
        lives_as(
            &rt,
            alloc,
            &cartridge,
            &[(b"seconds 3\n".as_slice(), 1000, CALLS_TO_THE_SYNC, keeps)],
            &[(b"resumed 0\n".as_slice(), false)],
            report,
            count,
        );
    }
}

/// A wrong line ends a life, and both devices have what came before it.
fn wrong_line(rt: &impl Abort, alloc: Global, cartridge: &Cartridge) {
    let row = (b"seconds 3\nno line\n".as_slice(), 1000, 1000, NONE);
    let devices = new_devices(rt, alloc, cartridge);
    let why = LifeError::Record(RecordError::Line(2));
    let left = is_refused(rt, alloc, devices, cartridge, &[row], why);
    let Devices { save, recording } = left;
    let Some(recording) = recording else {
        panic!(rt; "no recording");
    };
    let left = Pair { save, recording };
    same!(rt; agree(rt, alloc, left, cartridge), (1, 1));
}

/// A call of either device that fails by no fuse ends a life.
fn failed_calls(rt: &impl Abort, alloc: Global, cartridge: &Cartridge, rows: &[Row]) {
    let mut failing = new_devices(rt, alloc, cartridge);
    failing.save.fail_at(3, false);
    let why = LifeError::Record(RecordError::Session(SessionError::Device));
    is_refused(rt, alloc, failing, cartridge, rows, why);
    let mut failing = new_devices(rt, alloc, cartridge);
    if let Some(recording) = &mut failing.recording {
        recording.fail_at(2, false);
    }
    let why = LifeError::Record(RecordError::Recording(RecordingFault::Device));
    is_refused(rt, alloc, failing, cartridge, rows, why);
}

#[test]
fn refusals_by_no_fuse_end_the_life(rt: HostRuntime) {
    let alloc = rt.alloc();
    let cartridge = cartridge_of(alloc, b'A').or_stop(&rt);
    wrong_line(&rt, alloc, &cartridge);
    let rows = [(b"seconds 3\n".as_slice(), 1000, 1000, NONE)];
    failed_calls(&rt, alloc, &cartridge, &rows);
    let other = cartridge_of(alloc, b'B').or_stop(&rt);
    let devices = new_devices(&rt, alloc, &cartridge);
    let why = LifeError::Record(RecordError::Session(SessionError::OtherCartridge));
    is_refused(&rt, alloc, devices, &other, &rows, why);
}
