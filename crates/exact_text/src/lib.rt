//! Text whose bytes are known, and writing it whole or not.
//!
//! A line is built in an `ArrayString`, which takes no memory, and `write_whole` hands it to an
//! `Output`, which tells whether a write has failed; `CheckedOutput` makes one of any writer. What
//! several calls have written together is told by the laws in `proofs/Writes.antt`.
#![tactic(auto)]

ghost use Rattle.std.specs.Prelude.{◌≡◌, ◌+◌, ◌<◌, ◌≤◌, ◌++◌, decimal, length, true, OnOk, OnErr};
ghost use Rattle.std.specs.Io.KnownBytes.{Appends};
ghost use Rattle.arrayvec.specs.ArrayString.{array_string_len};
ghost use Rattle.exact_text.specs.Hex.{hex_digit, byte_text, word_text};
ghost use Rattle.exact_text.specs.Written.{AppendsProperPrefix};

mod digest;
mod output;

use arrayvec::ArrayString;
pub use digest::digest_digits;
use itoa::Buffer;
pub use output::{CheckedOutput, Output, OutputFailed};

/// Writes the whole text, in as many writes as the output asks for.
///
/// The first write that fails ends it with `OutputFailed`, and no write is tried again: the output
/// then has a proper prefix of the text, and a write has failed.
pub fn write_whole<W: Output>(out: &mut W, text: &[u8]) -> Result<(), OutputFailed>
    ensures ok { OnOk result (Appends (W.contents out.old) (W.contents out.new) text.now) }
    ensures err { OnErr result
        (AppendsProperPrefix (W.contents out.old) (W.contents out.new) text.now) }
    ensures failed { OnErr result (W.has_failed out.new ≡ true) }
{
    let mut written = 0;
    while written < text.len() {
        match out.write_some(&text[written..]) {
            Ok(count) => written += count,
            Err(failed) => return Err(failed),
        }
    }
    Ok(())
}

/// A number in decimal digits.
pub fn number_digits(number: u64) -> ArrayString<20>
    ensures digits { result.bytes ≡ decimal number }
    ensures len { array_string_len result ≤ 20 }
{
    let mut buffer = Buffer::new();
    let mut text = ArrayString::new();
    text.push_str(buffer.format(number));
    text
}

fn digit(value: u8) -> char
    requires { value < 16 }
    ensures value { result ≡ hex_digit value }
    ensures ascii { result < 128 }
{
    if value < 10 {
        (b'0' + value) as char
    } else {
        (b'A' + (value - 10)) as char
    }
}

/// A byte as two upper-case hexadecimal digits.
pub fn byte_digits(value: u8) -> ArrayString<2>
    ensures digits { result.bytes ≡ byte_text value }
    ensures len { array_string_len result ≡ 2 }
{
    let mut text = ArrayString::new();
    text.push(digit(value / 16));
    text.push(digit(value % 16));
    text
}

/// A word as four upper-case hexadecimal digits, those of the high byte first.
pub fn word_digits(value: u16) -> ArrayString<4>
    ensures digits { result.bytes ≡ word_text value }
    ensures len { array_string_len result ≡ 4 }
{
    let mut text = ArrayString::new();
    text.push_str(byte_digits((value / 256) as u8).as_str());
    text.push_str(byte_digits((value % 256) as u8).as_str());
    text
}
