//! The text of SAVE.time.
ghost use Rattle.std.specs.Prelude.{◌≡◌, ◌≤◌, ◌<◌, ◌+◌, length, ◌++◌, IfOk, IfSome, Ok, Err, true};
ghost use Rattle.arrayvec.specs.ArrayString.{array_string_len};
ghost use Rattle.cartridge_clock.specs.Texts.{line_bytes, text_of, IsTextOf};

use crate::giving::LAST_SECOND;
use crate::until::Line;
use arrayvec::{ArrayString, ArrayVec};
use exact_text::number_digits;
use std::str;

/// The bytes of the longest text that is read.
pub const MOST_BYTES: usize = 512;
/// The lines that it has at most.
pub const MOST_LINES: usize = 8;

/// Why a text is none of SAVE.time.
#[derive(Clone, Copy, Debug, PartialEq, Eq)]
pub enum TextFault {
    /// It has more than 512 bytes.
    Long,
    /// It has more than eight lines.
    Many,
    /// Its lines are not two numbers each, as they are written: a count of inputs, and a second of eleven digits at most.
    Wrong,
}

/// One line of the text.
fn line_text(line: Line) -> ArrayString<48>
    ensures bytes { result.bytes ≡ line_bytes line }
    ensures len { array_string_len result ≤ 48 }
{
    let mut text = ArrayString::new();
    text.push_str(number_digits(line.count).as_str());
    text.push_str(" ");
    text.push_str(number_digits(line.until).as_str());
    text.push_str("\n");
    text
}

/// The text of these lines. Condition: there are eight at most.
#[tactic(auto, using(std::proofs::lemmas::List::Sums::fold_more))]
pub fn lines_text(lines: &[Line]) -> ArrayString<384>
    requires { length lines.now ≤ 8 }
    ensures { result.bytes ≡ text_of lines.now }
{
    let mut text = ArrayString::new();
    for line in lines {
        text.push_str(line_text(*line).as_str());
    }
    text
}

/// What a line may say: it is so where it is the line of that.
fn parsed_line(text: &str) -> Option<Line> {
    let (count, until) = text.split_once(" ")?;
    Some(Line {
        count: count.parse().ok()?,
        until: until.parse().ok()?,
    })
}

/// What the lines may say.
fn parsed(text: &str) -> Result<ArrayVec<Line, 8>, TextFault> {
    let mut lines = ArrayVec::new();
    for piece in text.split('\n') {
        let Some(line) = parsed_line(piece) else {
            return Err(TextFault::Wrong);
        };
        if line.until > LAST_SECOND {
            return Err(TextFault::Wrong);
        }
        if lines.len() == MOST_LINES {
            return Err(TextFault::Many);
        }
        lines.push(line);
    }
    Ok(lines)
}

/// What stands before this end, if it is the end.
fn without_end<'a>(text: &'a [u8], end: &[u8]) -> Option<&'a [u8]>
    ensures { IfSome result (λ front. text.now ≡ front.now ++ end.now) }
{
    match text.strip_suffix(end) {
        Some(front) => Some(front),
        None => None,
    }
}

/// Whether this is the text of these lines, with or without the end of the last one.
fn is_text_of(text: &[u8], lines: &ArrayVec<Line, 8>) -> bool
    ensures { result ≡ true → IsTextOf (lines.now).items text.now }
{
    let written = lines_text(lines.as_slice());
    let written = written.as_str().as_bytes();
    if text == written {
        return true;
    }
    let Some(front) = without_end(written, b"\n") else {
        return false;
    };
    text == front
}

/// The lines of a text; none of an empty one. The end of the last line may be missing.
pub fn read_lines(text: &[u8]) -> Result<ArrayVec<Line, 8>, TextFault>
    ensures lines { IfOk result (λ lines. IsTextOf lines.items text.now) }
    ensures long { MOST_BYTES < length text.now → result ≡ Err TextFault.Long }
{
    if text.len() > MOST_BYTES {
        return Err(TextFault::Long);
    }
    if text.is_empty() {
        return Ok(ArrayVec::new());
    }
    let Ok(words) = str::from_utf8(text) else {
        return Err(TextFault::Wrong);
    };
    let words = match words.strip_suffix("\n") {
        Some(front) => front,
        None => words,
    };
    match parsed(words) {
        Err(why) => Err(why),
        Ok(lines) => {
            if is_text_of(text, &lines) {
                Ok(lines)
            } else {
                Err(TextFault::Wrong)
            }
        }
    }
}
