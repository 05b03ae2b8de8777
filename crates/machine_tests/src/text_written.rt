//! Texts that are written whole or cut short.
use crate::asserting::{OrStop, holds, same};
use arrayvec::ArrayVec;
use exact_text::{
    CheckedOutput, OutputFailed, byte_digits, number_digits, word_digits, write_whole,
};
use std::io::{self, Write};
use std::process::Abort;

/// A writer that takes at most `most` bytes a call, and fails once `room` bytes are taken.
#[derive(Drop)]
struct Scripted {
    taken: ArrayVec<u8, 32>,
    calls: u8,
    most: usize,
    room: usize,
}

impl Write for Scripted {
    fn write(&mut self, buf: &[u8]) -> io::Result<usize> {
        self.calls = self.calls.saturating_add(1);
        let room = self.room.saturating_sub(self.taken.len());
        if room == 0 {
            return Err(io::Error::from(io::ErrorKind::Other));
        }
        let count = buf.len().min(self.most).min(room);
        for byte in &buf[..count] {
            let _ = self.taken.try_push(*byte);
        }
        Ok(count)
    }

    fn flush(&mut self) -> io::Result<()> {
        Ok(())
    }
}

#[derive(Drop)]
struct Case {
    most: usize,
    room: usize,
    outcome: Result<(), OutputFailed>,
    taken: &'static [u8],
    calls: u8,
}

fn run(rt: &impl Abort, case: &Case) {
    let mut out = Scripted {
        taken: ArrayVec::new(),
        calls: 0,
        most: case.most,
        room: case.room,
    };
    let outcome = write_whole(&mut CheckedOutput::new(&mut out), b"saved 120\n");
    same!(rt; outcome, case.outcome);
    holds!(rt; out.taken.as_slice() == case.taken);
    same!(rt; out.calls, case.calls);
}

#[test]
fn writes_all_or_stops_at_the_first_failure(rt: HostRuntime) {
    let failed = Err(OutputFailed);
    let cases = [
        Case {
            most: 32,
            room: 32,
            outcome: Ok(()),
            taken: b"saved 120\n",
            calls: 1,
        },
        Case {
            most: 1,
            room: 32,
            outcome: Ok(()),
            taken: b"saved 120\n",
            calls: 10,
        },
        Case {
            most: 32,
            room: 4,
            outcome: failed,
            taken: b"save",
            calls: 2,
        },
        Case {
            most: 3,
            room: 0,
            outcome: failed,
            taken: b"",
            calls: 1,
        },
        Case {
            most: 0,
            room: 32,
            outcome: failed,
            taken: b"",
            calls: 1,
        },
    ];
    for case in &cases {
        run(&rt, case);
    }
}

fn writes_into(rt: &impl Abort, room: &mut [u8]) {
    let mut out = CheckedOutput::new(room);
    same!(*rt; write_whole(&mut out, b"3A"), Ok(()));
    same!(*rt; write_whole(&mut out, b"C6C6"), Err(OutputFailed));
}

#[test]
fn writes_into_a_slice(rt: HostRuntime) {
    let mut buffer = [0; 4];
    writes_into(&rt, &mut buffer);
    same!(rt; buffer, *b"3AC6");
}

#[test]
fn gives_digits(rt: HostRuntime) {
    same!(rt; byte_digits(0x09).as_str(), "09");
    same!(rt; byte_digits(0xAF).as_str(), "AF");
    same!(rt; word_digits(0xC0F9).as_str(), "C0F9");
    same!(rt; word_digits(0).as_str(), "0000");
    same!(rt; number_digits(0).as_str(), "0");
    same!(rt; number_digits(u64::MAX).as_str(), "18446744073709551615");
}
