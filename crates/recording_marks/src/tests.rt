//! Worked marks, and recordings that are the ones they know.

use crate::{Known, Mark, MarkFault, known_line, known_of, read_mark};
use input_entries::{Entry, are_inputs};
use recording::{RecordingFault, create_recording};
use sector_device::MemoryDevice;
use sha2::{Digest, Sha256};
use std::alloc::Global;
use std::process::Abort;

const ID: [u8; 32] = [7; 32];

/// A recording of two frames, seconds, and a frame, on a device.
fn recorded(rt: &impl Abort, alloc: Global, last: u8) -> MemoryDevice {
    let Ok(device) = MemoryDevice::new(alloc, 4, 1_000) else {
        panic!(rt; "no memory");
    };
    let Ok(mut recording) = create_recording(alloc, device, ID) else {
        panic!(rt; "not created");
    };
    let inputs = [
        Entry::frame(5),
        Entry::frame(5),
        Entry::seconds(259),
        Entry::frame(last),
    ];
    assert!(rt; are_inputs(&inputs));
    assert!(rt; recording.append(&inputs).is_ok());
    recording.into_device()
}

/// What is known of the recording whose last frame is so, where its game has `count` inputs; `None` where it is not the one that was known.
fn known(
    rt: &impl Abort,
    alloc: Global,
    last: u8,
    before: Option<Known>,
    count: u64,
) -> Option<Known> {
    match known_of(alloc, recorded(rt, alloc, last), ID, before, count).answer {
        Ok(known) => Some(known),
        Err(MarkFault::Other) => None,
        Err(MarkFault::Recording(_)) => panic!(rt; "not read"),
    }
}

/// The same, of one that has to be the one that was known.
fn known_again(
    rt: &impl Abort,
    alloc: Global,
    last: u8,
    before: Option<Known>,
    count: u64,
) -> Known {
    let Some(known) = known(rt, alloc, last, before, count) else {
        panic!(rt; "another recording");
    };
    known
}

#[test]
fn the_digest_is_of_five_bytes_an_input(rt: HostRuntime) {
    let bytes = [0, 5, 0, 0, 0, 0, 5, 0, 0, 0, 1, 3, 1, 0, 0, 0, 9, 0, 0, 0];
    for count in 0..5 {
        let known = known_again(&rt, rt.alloc(), 9, None, count as u64);
        assert_eq!(rt; known.count, count as u64);
        assert_eq!(rt; known.digest, Sha256::digest(&bytes[..5 * count]));
    }
}

#[test]
fn another_recording_is_told_apart(rt: HostRuntime) {
    let three = known_again(&rt, rt.alloc(), 9, None, 3);
    let four = known_again(&rt, rt.alloc(), 9, Some(three), 4);
    assert_eq!(rt; four.count, 4);
    // both begin with the three inputs, and differ in the fourth
    assert!(rt; known(&rt, rt.alloc(), 8, Some(three), 4).is_some());
    assert!(rt; known(&rt, rt.alloc(), 8, Some(four), 4).is_none());
    let more = Known {
        count: 5,
        digest: four.digest,
    };
    assert!(rt; known(&rt, rt.alloc(), 9, Some(more), 4).is_none());
}

#[test]
fn what_is_no_recording_is_refused(rt: HostRuntime) {
    let Ok(device) = MemoryDevice::new(rt.alloc(), 4, 1_000) else {
        panic!(rt; "no memory");
    };
    let answer = known_of(rt.alloc(), device, ID, None, 0).answer;
    assert!(rt;
        matches!(
            answer,
            Err(MarkFault::Recording(RecordingFault::NoRecording))
        )
    );
    let device = recorded(&rt, rt.alloc(), 9);
    let answer = known_of(rt.alloc(), device, [8; 32], None, 0).answer;
    assert!(rt;
        matches!(
            answer,
            Err(MarkFault::Recording(RecordingFault::OtherCartridge))
        )
    );
}

#[test]
fn marks_are_read_back(rt: HostRuntime) {
    let line = known_line(&Known {
        count: 18_446_744_073_709_551_615,
        digest: [0xa9; 32],
    });
    assert_eq!(rt; line.len(), 86);
    assert!(rt; line.starts_with("18446744073709551615 a9a9"));
    let Ok(text) = format!(in rt.alloc(); "some.rec\ngbkeep record\n{line}") else {
        panic!(rt; "no memory");
    };
    let Some(Mark::Remembered(known)) = read_mark(text.as_bytes()) else {
        panic!(rt; "not read");
    };
    assert_eq!(rt; known.count, 18_446_744_073_709_551_615);
    assert_eq!(rt; known.digest, [0xa9; 32]);
    assert!(rt; matches!(read_mark(b"some.rec\ngbkeep record\n"), Some(Mark::Named)));
    assert!(rt; matches!(read_mark(b"\ngbkeep record\n"), Some(Mark::Named)));
}

/// Whether a text whose third line is so is a mark.
fn is_a_mark(rt: &impl Abort, alloc: Global, count: &str, end: &str) -> bool {
    let zeros = "00000000000000000000000000000000000000000000000000000000000000";
    let Ok(text) = format!(in alloc; "a\ngbkeep record\n{count} {zeros}{end}") else {
        panic!(rt; "no memory");
    };
    read_mark(text.as_bytes()).is_some()
}

#[test]
fn what_is_no_mark_is_not_read(rt: HostRuntime) {
    assert!(rt; read_mark(b"").is_none());
    assert!(rt; read_mark(b"some.rec\n").is_none());
    assert!(rt; read_mark(b"gbkeep record\n").is_none());
    assert!(rt; read_mark(b"some.rec\ngbkeep record").is_none());
    assert!(rt; is_a_mark(&rt, rt.alloc(), "1", "00\n"));
    assert!(rt; !is_a_mark(&rt, rt.alloc(), "01", "00\n"));
    assert!(rt; !is_a_mark(&rt, rt.alloc(), "", "00\n"));
    assert!(rt; !is_a_mark(&rt, rt.alloc(), "-1", "00\n"));
    assert!(rt; !is_a_mark(&rt, rt.alloc(), "+1", "00\n"));
    assert!(rt; !is_a_mark(&rt, rt.alloc(), "1", "0\n"));
    assert!(rt; !is_a_mark(&rt, rt.alloc(), "1", "AA\n"));
    assert!(rt; !is_a_mark(&rt, rt.alloc(), "1", "00"));
    assert!(rt; !is_a_mark(&rt, rt.alloc(), "18446744073709551616", "00\n"));
}
