//! What text is written to, which tells whether a write has failed.
ghost use Rattle.std.specs.Prelude.{◌≡◌, Bool, ℕ, List, Option, false, true, OnErr};
ghost use Rattle.exact_text.specs.Written.{HasTaken};

use std::fmt::Display;
use std::io::Write;
use thiserror::Error;

/// A write failed, or took no byte.
#[derive(Clone, Copy, Debug, PartialEq, Eq, Error)]
#[error("output failed")]
pub struct OutputFailed;

/// What bytes are written to. No call answers that it failed unless a write has failed.
pub trait Output {
    /// The bytes that it has, where they are known.
    ghost contents: { Self → Option (List ℕ) };
    /// Whether a write has failed.
    ghost has_failed: { Self → Bool };

    /// Writes some of these bytes, the first ones: at least one, if there are any. A write that fails has taken none.
    fn write_some(&mut self, bytes: &[u8]) -> Result<usize, OutputFailed>
        ensures taken { HasTaken result bytes.now (contents self.old) (contents self.new) }
        ensures failed { OnErr result (has_failed self.new ≡ true) };

    /// Writes text as it is formatted. What was written where it fails is not told.
    fn write_fmt<D: Display + Drop>(&mut self, text: D) -> Result<(), OutputFailed>
        ensures failed { OnErr result (has_failed self.new ≡ true) };
}

/// A writer that is seen to fail: each write that fails, or that takes none of some bytes, is kept in mind.
#[derive(Drop)]
pub struct CheckedOutput<W: Write> {
    writer: W,
    has_failed: bool,
}

impl<W: Write> CheckedOutput<W> {
    /// Over a writer of which no write has failed.
    pub fn new(writer: W) -> Self
        ensures writer { result.writer ≡ writer }
        ensures failed { result.has_failed ≡ false }
    {
        CheckedOutput {
            writer,
            has_failed: false,
        }
    }

    /// The writer.
    pub fn into_writer(self) -> W
        ensures { result ≡ self.writer }
    {
        self.writer
    }
}

impl<W: Write> Output for CheckedOutput<W> {
    ghost contents = { λ output. W.contents output.writer };

    ghost has_failed = { λ output. output.has_failed };

    fn write_some(&mut self, bytes: &[u8]) -> Result<usize, OutputFailed> {
        match self.writer.write(bytes) {
            Ok(count) if count > 0 || bytes.is_empty() => Ok(count),
            _ => {
                self.has_failed = true;
                Err(OutputFailed)
            }
        }
    }

    fn write_fmt<D: Display + Drop>(&mut self, text: D) -> Result<(), OutputFailed> {
        match self.writer.write_fmt(text) {
            Ok(()) => Ok(()),
            Err(_) => {
                self.has_failed = true;
                Err(OutputFailed)
            }
        }
    }
}
