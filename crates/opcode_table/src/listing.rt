//! The line of an instruction in a listing.

ghost use Rattle.std.specs.Prelude.{◌≡◌, ◌+◌, ◌++◌, ◌≤◌, slice_index};
ghost use Rattle.arrayvec.specs.ArrayString.{array_string_len};
ghost use Rattle.opcode_table.specs.Listing.{bytes_column, list_line};

use crate::decoding::decode;
use crate::text::write_text;
use arrayvec::ArrayString;
use exact_text::{byte_digits, word_digits};

/// Room for a line of a listing, with its newline.
pub type Line = ArrayString<32>;

#[tactic(auto, unfolding(crate::specs::Listing::bytes_column))]
fn push_bytes(line: &mut Line, length: u8, bytes: [u8; 3])
    requires { array_string_len line.old + 6 ≤ 32 }
    ensures column { line.new.bytes ≡ line.old.bytes ++ bytes_column length (slice_index bytes 0) (slice_index bytes 1) (slice_index bytes 2) }
    ensures len { array_string_len line.new ≡ array_string_len line.old + 6 }
{
    line.push_str(byte_digits(bytes[0]).as_str());
    if length == 1 {
        line.push_str("    ");
        return;
    }
    line.push_str(byte_digits(bytes[1]).as_str());
    if length == 2 {
        line.push_str("  ");
        return;
    }
    line.push_str(byte_digits(bytes[2]).as_str());
}

/// The line of the instruction that begins with these bytes at this address: the address in four
/// hexadecimal digits, the bytes of the instruction as digit pairs in six columns, its text and a
/// newline, as in `0101 C35001 JP 0150`.
#[tactic(auto, unfolding(crate::specs::Listing::list_line))]
pub fn list_line(address: u16, bytes: [u8; 3]) -> Line
    ensures { result.bytes ≡ list_line address (slice_index bytes 0) (slice_index bytes 1) (slice_index bytes 2) }
{
    let decoded = decode(bytes);
    let text = write_text(&decoded.instr);
    let mut line = Line::new();
    line.push_str(word_digits(address).as_str());
    line.push_str(" ");
    push_bytes(&mut line, decoded.length, bytes);
    line.push_str(" ");
    line.push_str(text.as_str());
    line.push_str("\n");
    line
}
