//! What is remembered of the bytes that a test sent.

ghost use Rattle.std.specs.Prelude.{◌≡◌, ◌≤◌, ◌∷◌, ◌++◌, [], length, codes};
ghost use Rattle.std.specs.Str.{bytes_eq};
ghost use Rattle.circular_buffer.specs.Buffer.{keep_last};
ghost use Rattle.test_run.specs.Told.{told_one, nothing_told, is_in_line};

use arrayvec::ArrayVec;
use std::marker::Model;

/// How many of the last bytes are remembered: as many as each of the words has.
const KEPT: usize = 6;

/// What is remembered of the bytes that were sent.
#[derive(Drop)]
pub(crate) struct Told {
    /// The last bytes.
    last: ArrayVec<u8, 6>,
    /// Whether `Passed` was among them.
    passed: bool,
    /// Whether `Failed` was among them.
    failed: bool,
}

impl Model for Told {
    ghost use Rattle.test_run.specs.Told.{ToldState};

    ghost Value = { ToldState };

    ghost view = { λ t. record { last = t.last.items; passed = t.passed; failed = t.failed } };
}

/// Puts a byte after the last ones.
fn keep(last: &mut ArrayVec<u8, 6>, byte: u8)
    ensures { last.new.items ≡ keep_last 6 (last.old.items ++ byte ∷ []) }
{
    if last.len() == KEPT {
        let _ = last.remove(0);
    }
    last.push(byte);
}

impl Told {
    /// Nothing was sent.
    pub(crate) fn new() -> Self
        ensures { result ≡ nothing_told }
    {
        Told {
            last: ArrayVec::new(),
            passed: false,
            failed: false,
        }
    }

    /// This byte was sent.
    pub(crate) fn add(&mut self, byte: u8)
        ensures { self.new ≡ told_one self.old byte }
    {
        keep(&mut self.last, byte);
        self.passed |= self.ends_with(b"Passed");
        self.failed |= self.ends_with(b"Failed");
    }

    /// Whether the last bytes are this word.
    fn ends_with(&self, word: &[u8]) -> bool
        ensures { result ≡ bytes_eq self.now.last word.now }
    {
        self.last.as_slice() == word
    }

    /// Whether `Passed` was sent.
    pub(crate) fn has_passed(&self) -> bool
        ensures { result ≡ self.now.passed }
    {
        self.passed
    }

    /// Whether `Failed` was sent.
    pub(crate) fn has_failed(&self) -> bool
        ensures { result ≡ self.now.failed }
    {
        self.failed
    }

    /// Whether a line has begun and not ended.
    pub(crate) fn is_in_line(&self) -> bool
        ensures { result ≡ is_in_line self.now.last }
    {
        match self.last.last() {
            Some(byte) => *byte != b'\n',
            None => false,
        }
    }
}
