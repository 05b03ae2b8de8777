//! The lines of a report.
ghost use Rattle.std.specs.Prelude.{◌≡◌, ℕ, List, Option, None, true, OnOk, OnErr};
ghost use Rattle.std.specs.Io.KnownBytes.{Appends};
ghost use Rattle.exact_text.specs.Written.{AppendsProperPrefix};
ghost use Rattle.playing.specs.Lines.{resumed_line, saved_line};

use arrayvec::ArrayString;
use exact_text::{Output, OutputFailed, number_digits, write_whole};

fn resumed_text(count: u64) -> ArrayString<32>
    ensures { result.bytes ≡ (resumed_line count).text }
{
    let mut text = ArrayString::new();
    text.push_str("resumed ");
    text.push_str(number_digits(count).as_str());
    text.push('\n');
    text
}

fn saved_text(count: u64) -> ArrayString<32>
    ensures { result.bytes ≡ (saved_line count).text }
{
    let mut text = ArrayString::new();
    text.push_str("saved ");
    text.push_str(number_digits(count).as_str());
    text.push('\n');
    text
}

/// Writes the line `resumed N`: a session was resumed at this count.
pub fn write_resumed<W: Output>(out: &mut W, count: u64) -> Result<(), OutputFailed>
    ensures ok { OnOk result (Appends (W.contents out.old) (W.contents out.new) (resumed_line count).text) }
    ensures err { OnErr result
        (AppendsProperPrefix (W.contents out.old) (W.contents out.new) (resumed_line count).text) }
    ensures failed { OnErr result (W.has_failed out.new ≡ true) }
{
    write_whole(out, resumed_text(count).as_bytes())
}

/// Writes the line `saved N`: this count of inputs is saved.
pub fn write_saved<W: Output>(out: &mut W, count: u64) -> Result<(), OutputFailed>
    ensures ok { OnOk result (Appends (W.contents out.old) (W.contents out.new) (saved_line count).text) }
    ensures err { OnErr result (AppendsProperPrefix (W.contents out.old) (W.contents out.new) (saved_line count).text) }
    ensures failed { OnErr result (W.has_failed out.new ≡ true) }
{
    write_whole(out, saved_text(count).as_bytes())
}

/// A report that moves are made over.
pub trait Report {
    /// What it has, where that is known.
    ghost contents: { Self → Option (List ℕ) };
    /// Whether a line of it has failed.
    ghost has_failed: { Self → Type 0 };

    /// Writes the line `saved N`: this count of inputs is saved.
    fn saved(&mut self, count: u64) -> Result<(), OutputFailed>
        ensures ok { OnOk result (Appends (contents self.old) (contents self.new) (saved_line count).text) }
        ensures err { OnErr result
            (AppendsProperPrefix (contents self.old) (contents self.new) (saved_line count).text) }
        ensures failed { OnErr result (has_failed self.new) };
}

impl<W: Output> Report for W {
    ghost contents = { W.contents };

    ghost has_failed = { λ out. W.has_failed out ≡ true };

    fn saved(&mut self, count: u64) -> Result<(), OutputFailed> {
        write_saved(self, count)
    }
}

/// A report that nothing is written to, and that never fails.
#[derive(Drop)]
pub struct Silent;

impl Report for Silent {
    ghost contents = { λ _. None };

    ghost has_failed = { λ _. ⊥ };

    fn saved(&mut self, _count: u64) -> Result<(), OutputFailed> {
        Ok(())
    }
}
