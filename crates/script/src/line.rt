//! One line of a script.

ghost use Rattle.std.specs.Prelude.{◌≡◌, ◌≤◌, ◌<◌, IfSome, if◌then◌else◌};
ghost use Rattle.std.specs.Char.{digit_value, is_digit};
ghost use Rattle.std.specs.Str.{bytes_eq};
ghost use Rattle.std.specs.Str.Parse.{digits_value};
ghost use Rattle.script.specs.Line.{HasTimes, byte_of, count_of, is_count, move_of_line, move_of_one, move_of_two, move_of_three};

use crate::cutting::cut;
use crate::moves::Move;

const SPACE: u8 = b' ';

/// The most digits of a number.
const MOST_DIGITS: usize = 10;

/// The most frames of one line.
const MOST_TIMES: u32 = 1_000_000;

/// The move of one line, without its newline: `frame BB`, `frames BB N`, `seconds N`, `save` or `power`, as `read_script` takes them.
/// `None` where it is none of these; an empty line is none.
pub fn read_line(line: &[u8]) -> Option<Move>
    ensures line { result ≡ move_of_line line.now }
    ensures times { IfSome result HasTimes }
{
    let (name, rest) = cut(line, SPACE);
    let Some(rest) = rest else {
        return lone(name);
    };
    let (word, rest) = cut(rest, SPACE);
    let Some(rest) = rest else {
        return with_one(name, word);
    };
    let (count, rest) = cut(rest, SPACE);
    match rest {
        None => with_two(name, word, count),
        Some(_) => None,
    }
}

fn lone(name: &[u8]) -> Option<Move>
    ensures line { result ≡ move_of_one name.now }
    ensures times { IfSome result HasTimes }
{
    if is_word(name, b"save") {
        return Some(Move::Save);
    }
    if is_word(name, b"power") {
        return Some(Move::Power);
    }
    None
}

fn with_one(name: &[u8], word: &[u8]) -> Option<Move>
    ensures line { result ≡ move_of_two name.now word.now }
    ensures times { IfSome result HasTimes }
{
    if is_word(name, b"frame") {
        let buttons = read_byte(word)?;
        return Some(Move::Frames { buttons, times: 1 });
    }
    if is_word(name, b"seconds") {
        let count = read_count(word, 0, u32::MAX)?;
        return Some(Move::Seconds(count));
    }
    None
}

fn with_two(name: &[u8], word: &[u8], count: &[u8]) -> Option<Move>
    ensures line { result ≡ move_of_three name.now word.now count.now }
    ensures times { IfSome result HasTimes }
{
    if !is_word(name, b"frames") {
        return None;
    }
    let buttons = read_byte(word)?;
    let times = read_count(count, 1, MOST_TIMES)?;
    Some(Move::Frames { buttons, times })
}

fn is_word(word: &[u8], name: &[u8]) -> bool
    ensures { result ≡ bytes_eq word.now name.now }
{
    word == name
}

/// The byte that exactly two hexadecimal digits write, in either case.
pub fn read_byte(word: &[u8]) -> Option<u8>
    ensures { result ≡ byte_of word.now }
{
    match word {
        [high, low] => {
            let high = digit_in(*high, 16)?;
            let low = digit_in(*low, 16)?;
            Some(high * 16 + low)
        }
        _ => None,
    }
}

/// The number that one to ten decimal digits write, if it lies between two limits.
pub fn read_count(word: &[u8], least: u32, most: u32) -> Option<u32>
    ensures value { result ≡ count_of least most word.now }
    ensures least { IfSome result (λ count. least ≤ count) }
    ensures most { IfSome result (λ count. count ≤ most) }
{
    let value = decimal(word)?;
    if value < u64::from(least) || value > u64::from(most) {
        return None;
    }
    Some(value as u32)
}

/// The number that one to ten decimal digits write.
fn decimal(word: &[u8]) -> Option<u64>
    ensures { result ≡ (if is_count word.now then Some (digits_value 10 word.now) else None) }
{
    if word.is_empty() || word.len() > MOST_DIGITS {
        return None;
    }
    let mut value = 0;
    for byte in word {
        let digit = digit_in(*byte, 10)?;
        value = value * 10 + u64::from(digit);
    }
    Some(value)
}

/// The value of a digit in base 2 to 16, in either case.
pub fn digit_in(byte: u8, radix: u8) -> Option<u8>
    requires least { 2 ≤ radix }
    requires most { radix ≤ 16 }
    ensures value { result ≡ (if is_digit byte radix then Some (digit_value byte) else None) }
    ensures below { IfSome result (λ digit. digit < radix) }
{
    match char::from(byte).to_digit(u32::from(radix)) {
        Some(digit) => Some(digit as u8),
        None => None,
    }
}
