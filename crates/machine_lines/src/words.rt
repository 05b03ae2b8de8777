//! The words of lines about a machine.

ghost use Rattle.std.specs.Prelude.{◌≡◌, ◌≤◌, ◌<◌, ◌^◌, IfSome};
ghost use Rattle.machine_lines.specs.KeptStates.{slots};
ghost use Rattle.machine_lines.specs.Words.{address_of, hex_of, room_of, size_of, slot_of};

use script::{digit_in, read_count};

/// The most digits of an address.
const ADDRESS_DIGITS: usize = 4;

/// The most lines, or bytes, that one order lists.
const MOST_ROOM: u32 = 65_536;

/// The highest number under which a state is kept.
const LAST_SLOT: u32 = 999;

/// The most bytes behind a line.
const MOST_GIVEN: u32 = 1_048_576;

/// A count of lines, or of bytes: 1 to 65,536.
pub fn read_room(word: &[u8]) -> Option<u32>
    ensures { result ≡ room_of word.now }
{
    read_count(word, 1, MOST_ROOM)
}

/// A number under which a state is kept: 0 to 999.
pub fn read_slot(word: &[u8]) -> Option<u32>
    ensures number { result ≡ slot_of word.now }
    ensures below { IfSome result (λ number. number < slots) }
{
    read_count(word, 0, LAST_SLOT)
}

/// An address: one hexadecimal digit to four.
pub fn read_address(word: &[u8]) -> Option<u16>
    ensures { result ≡ address_of word.now }
{
    read_hex(word, ADDRESS_DIGITS)
}

/// The number that one hexadecimal digit to `most` write, in either case. Condition: `most` is 4 at most.
pub fn read_hex(word: &[u8], most: usize) -> Option<u16>
    requires { most ≤ 4 }
    ensures number { result ≡ hex_of most word.now }
    ensures below { IfSome result (λ value. value < 16 ^ most) }
{
    if word.is_empty() || word.len() > most {
        return None;
    }
    let mut value = 0;
    for byte in word {
        let digit = digit_in(*byte, 16)?;
        value = value * 16 + u16::from(digit);
    }
    Some(value)
}

/// How many bytes stand behind a line: 1 to 1,048,576.
pub fn read_size(word: &[u8]) -> Option<u32>
    ensures { result ≡ size_of word.now }
{
    read_count(word, 1, MOST_GIVEN)
}
