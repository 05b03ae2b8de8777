//! What lines are read from, which tells whether a read has failed.
ghost use Rattle.std.specs.Prelude.{◌≡◌, ◌<◌, Bool, ℕ, List, Option, false, true, IfOk, OnErr};
ghost use Rattle.std.specs.Io.{ReadsAtMost};
ghost use Rattle.std.specs.Io.KnownBytes.{ReadConsumes};

use std::io::Read;
use thiserror::Error;

/// A read failed.
#[derive(Clone, Copy, Debug, PartialEq, Eq, Error)]
#[error("input failed")]
pub struct InputFailed;

/// What bytes are read from. No call answers that it failed unless a read has failed, and it gives bytes in a finite number of reads.
pub trait LineInput {
    /// The bytes that reads will give from here on, where they are known.
    ghost remaining: { Self → Option (List ℕ) };
    /// Whether a read has failed.
    ghost has_failed: { Self → Bool };
    /// How many reads may give bytes from here on, at most.
    ghost reads_left: { Self → ℕ };

    /// Reads some bytes into the front of `buf`, and answers how many: none only at the end, or where `buf` is empty.
    fn read(&mut self, buf: &mut [u8]) -> Result<usize, InputFailed>
        ensures bound { ReadsAtMost result buf.new }
        ensures bytes { ReadConsumes (remaining self.old) (remaining self.new) result buf.new }
        ensures failed { OnErr result (has_failed self.new ≡ true) }
        ensures fewer { IfOk result (λ count. 0 < count → reads_left self.new < reads_left self.old) };
}

/// A reader that is seen to fail: a read that fails is kept in mind, and the read behind 2^64 - 1 that gave bytes fails.
#[derive(Drop)]
pub struct CheckedInput<R: Read> {
    reader: R,
    has_failed: bool,
    reads_left: u64,
}

impl<R: Read> CheckedInput<R> {
    /// Over a reader of which no read has failed.
    pub fn new(reader: R) -> Self
        ensures reader { result.reader ≡ reader }
        ensures failed { result.has_failed ≡ false }
    {
        CheckedInput {
            reader,
            has_failed: false,
            reads_left: u64::MAX,
        }
    }
}

impl<R: Read> LineInput for CheckedInput<R> {
    ghost remaining = { λ input. R.remaining input.reader };

    ghost has_failed = { λ input. input.has_failed };

    ghost reads_left = { λ input. input.reads_left };

    fn read(&mut self, buf: &mut [u8]) -> Result<usize, InputFailed> {
        if self.reads_left > 0 {
            if let Ok(count) = self.reader.read(buf) {
                if count > 0 {
                    self.reads_left -= 1;
                }
                return Ok(count);
            }
        }
        self.has_failed = true;
        Err(InputFailed)
    }
}
