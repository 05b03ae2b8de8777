//! Lines of an input, as they are read.
use crate::asserting::holds;
use input_lines::{CheckedInput, NextLine, Unread, next_line};
use std::io;
use std::io::{ErrorKind, Read};
use std::process::Abort;

/// Gives so many bytes a read, and fails behind them where that is wanted.
#[derive(Drop)]
struct Slow<'a> {
    rest: &'a [u8],
    most: usize,
    fails: bool,
}

impl<'a> Read for Slow<'a> {
    fn read(&mut self, buf: &mut [u8]) -> io::Result<usize> {
        if self.rest.is_empty() && self.fails {
            return Err(ErrorKind::Other.into());
        }
        let count = self.rest.len().min(self.most).min(buf.len());
        buf[..count].copy_from_slice(&self.rest[..count]);
        self.rest = &self.rest[count..];
        Ok(count)
    }
}

/// What is to come next.
#[derive(Clone, Copy, Debug)]
enum Wanted<'a> {
    Line(&'a [u8]),
    TooLong,
    End,
    Failed,
}

fn is_wanted(found: &NextLine, wanted: Wanted<'_>) -> bool {
    match (found, wanted) {
        (NextLine::Line(text), Wanted::Line(line)) => text.as_slice() == line,
        (NextLine::TooLong, Wanted::TooLong) => true,
        (NextLine::End, Wanted::End) => true,
        (NextLine::Failed, Wanted::Failed) => true,
        _ => false,
    }
}

/// Reads an input line by line, with 1, 100 and all bytes a read, and looks at what comes and at what is left unread.
fn reads(rt: &impl Abort, bytes: &[u8], fails: bool, wanted: &[Wanted<'_>], left: &[u8]) {
    for most in [1, 100, 10_000] {
        let mut input = CheckedInput::new(Slow {
            rest: bytes,
            most,
            fails,
        });
        let mut unread = Unread::new();
        for next in wanted {
            let found = next_line(&mut unread, &mut input);
            holds!(rt; is_wanted(&found, *next), "{found:?}, and not {next:?}");
        }
        holds!(rt; unread.as_slice() == left);
    }
}

#[test]
fn lines_end_in_a_newline_or_at_the_end(rt: HostRuntime) {
    reads(&rt, b"", false, &[Wanted::End, Wanted::End], b"");
    reads(
        &rt,
        b"\n\nr 0100\nq",
        false,
        &[
            Wanted::Line(b""),
            Wanted::Line(b""),
            Wanted::Line(b"r 0100"),
            Wanted::Line(b"q"),
            Wanted::End,
            Wanted::End,
        ],
        b"",
    );
    reads(
        &rt,
        b"a\r\nb\n",
        false,
        &[Wanted::Line(b"a\r"), Wanted::Line(b"b"), Wanted::End],
        b"",
    );
}

/// Lines of 512, 513, 513 and 512 bytes, and the last ones of 512 and 513 without a newline.
#[test]
fn a_line_has_512_bytes_at_most(rt: HostRuntime) {
    let line = [b'a'; 512];
    let mut bytes = [b'a'; 2567];
    bytes[512] = b'\n';
    bytes[1026] = b'\n';
    bytes[1540] = b'\n';
    bytes[2053] = b'\n';
    let wanted = [
        Wanted::Line(&line),
        Wanted::TooLong,
        Wanted::TooLong,
        Wanted::Line(&line),
    ];
    reads(&rt, &bytes[..2054], false, &wanted, b"");
    for (end, last) in [
        (2054, Wanted::End),
        (2566, Wanted::Line(&line)),
        (2567, Wanted::TooLong),
    ] {
        let mut all = [Wanted::End; 6];
        all[..4].copy_from_slice(&wanted);
        all[4] = last;
        reads(&rt, &bytes[..end], false, &all, b"");
    }
}

/// A line of 5,000 bytes between short ones, and one that the input ends in.
#[test]
fn a_long_line_is_skipped(rt: HostRuntime) {
    let mut bytes = [b'a'; 5010];
    bytes[2] = b'\n';
    bytes[5003] = b'\n';
    reads(
        &rt,
        &bytes,
        false,
        &[
            Wanted::Line(b"aa"),
            Wanted::TooLong,
            Wanted::Line(b"aaaaaa"),
            Wanted::End,
        ],
        b"",
    );
    reads(
        &rt,
        &bytes[..5003],
        false,
        &[Wanted::Line(b"aa"), Wanted::TooLong, Wanted::End],
        b"",
    );
}

/// What was read of a line stays, if it has 512 bytes at most.
#[test]
fn a_read_fails(rt: HostRuntime) {
    reads(&rt, b"", true, &[Wanted::Failed, Wanted::Failed], b"");
    reads(
        &rt,
        b"ab\ncd",
        true,
        &[Wanted::Line(b"ab"), Wanted::Failed, Wanted::Failed],
        b"cd",
    );
    let line = [b'a'; 1200];
    reads(&rt, &line[..512], true, &[Wanted::Failed], &line[..512]);
    reads(&rt, &line, true, &[Wanted::Failed], b"");
}
