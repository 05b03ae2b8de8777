//! Bytes as the machine sees them, as lines of sixteen.

ghost use Rattle.std.specs.Prelude.{◌≡◌, ◌≤◌, true, OnErr, OnOk};
ghost use Rattle.std.specs.Io.KnownBytes.{Appends};
ghost use Rattle.exact_text.specs.Written.{AppendsProperPrefix};
ghost use Rattle.machine_lines.specs.Texts.{memory_line, memory_text};

use arrayvec::ArrayString;
use exact_text::{Output, OutputFailed, byte_digits, word_digits, write_whole};
use machine::Machine;

/// The bytes of a line.
const ROW: u32 = 16;

/// A line of `count` bytes, with its newline.
fn line(machine: &Machine, address: u16, count: u32) -> ArrayString<64>
    requires { count ≤ 16 }
    ensures { result.bytes ≡ memory_line machine.now address count }
{
    let mut text = ArrayString::new();
    text.push_str(word_digits(address).as_str());
    let mut place = address;
    for _i in 0..count {
        text.push_str(" ");
        text.push_str(byte_digits(machine.peek(place)).as_str());
        place = place.wrapping_add(1);
    }
    text.push_str("\n");
    text
}

/// Writes `count` bytes from an address on, sixteen a line. Addresses wrap around after FFFF.
pub(crate) fn write_memory<W: Output>(
    machine: &Machine,
    address: u16,
    count: u32,
    out: &mut W,
) -> Result<(), OutputFailed>
    ensures ok { OnOk result
        (Appends (W.contents out.old) (W.contents out.new) (memory_text machine.now address count)) }
    ensures err { OnErr result
        (AppendsProperPrefix (W.contents out.old) (W.contents out.new) (memory_text machine.now address count)) }
    ensures failed { OnErr result (W.has_failed out.new ≡ true) }
{
    let mut place = address;
    for _i in 0..count / ROW {
        let text = line(machine, place, ROW);
        if let Err(fault) = write_whole(out, text.as_bytes()) {
            return Err(fault);
        }
        place = place.wrapping_add(16);
    }
    if count % ROW == 0 {
        return Ok(());
    }
    let text = line(machine, place, count % ROW);
    write_whole(out, text.as_bytes())
}
