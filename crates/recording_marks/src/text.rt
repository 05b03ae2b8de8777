//! The text of a mark.
ghost use Rattle.std.specs.Prelude.{◌≡◌, ◌++◌, ℕ, List, IfSome};
ghost use Rattle.recording_marks.specs.Marks.{known_text, mark_text, second_line};

use crate::knowing::Known;
use arrayvec::ArrayString;
use exact_text::{digest_digits, number_digits};
use hex::FromHex;
use std::str;

/// The end of the first line of a mark, and its second line.
pub const SECOND_LINE: &str = "\ngbkeep record\n";

/// What a mark says.
#[derive(Clone, Copy)]
pub enum Mark {
    /// The recording's name.
    Named,
    /// And what is known of it.
    Remembered(Known),
}

/// The third line of a mark.
pub fn known_line(known: &Known) -> ArrayString<88>
    ensures { result.bytes ≡ known_text known.now }
{
    let mut text = ArrayString::new();
    text.push_str(number_digits(known.count).as_str());
    text.push_str(" ");
    text.push_str(digest_digits(known.digest).as_str());
    text.push_str("\n");
    text
}

/// What the bytes of a file say, if they are a mark.
pub fn read_mark(text: &[u8]) -> Option<Mark>
    ensures { IfSome result (λ mark. (name : List ℕ) × (text.now ≡ mark_text name mark)) }
{
    if let Some(_name) = before_second_line(text) {
        return Some(Mark::Named);
    }
    let known = last_line(text)?;
    let line = known_line(&known);
    let first = without_end(text, line.as_bytes())?;
    let _name = before_second_line(first)?;
    Some(Mark::Remembered(known))
}

/// The name that stands before the second line, if that is the end.
fn before_second_line(text: &[u8]) -> Option<&[u8]>
    ensures { IfSome result (λ name. text.now ≡ name.now ++ second_line) }
{
    without_end(text, SECOND_LINE.as_bytes())
}

/// What stands before this end, if it is the end.
fn without_end<'a>(text: &'a [u8], end: &[u8]) -> Option<&'a [u8]>
    ensures { IfSome result (λ first. text.now ≡ first.now ++ end.now) }
{
    match text.strip_suffix(end) {
        Some(first) => Some(first),
        None => None,
    }
}

/// What the last line may say: it is so where it is the line of that.
fn last_line(text: &[u8]) -> Option<Known> {
    let text = str::from_utf8(text).ok()?;
    let (_first, line) = text.strip_suffix("\n")?.rsplit_once("\n")?;
    let (count, digest) = line.split_once(" ")?;
    Some(Known {
        count: count.parse().ok()?,
        digest: FromHex::from_hex(digest).ok()?,
    })
}
