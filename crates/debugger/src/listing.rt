//! Instructions as a machine sees them.

ghost use Rattle.std.specs.Prelude.{◌≡◌, [], ◌∷◌, true, OnOk, OnErr};
ghost use Rattle.std.specs.Io.KnownBytes.{Appends};
ghost use Rattle.exact_text.specs.Written.{AppendsProperPrefix};
ghost use Rattle.debugger.specs.Listing.{byte_after, line_at, address_after, lines_from};

use exact_text::{Output, OutputFailed, write_whole};
use machine::Machine;
use opcode_table::{Line, decode, list_line};

/// The three bytes from an address on; addresses wrap around.
fn three_bytes(machine: &Machine, address: u16) -> [u8; 3]
    ensures { result ≡ byte_after machine.now address 0 ∷ byte_after machine.now address 1 ∷
        byte_after machine.now address 2 ∷ [] }
{
    [
        machine.peek(address),
        machine.peek(address.wrapping_add(1)),
        machine.peek(address.wrapping_add(2)),
    ]
}

fn line(machine: &Machine, address: u16) -> Line
    ensures { result.bytes ≡ line_at machine.now address }
{
    list_line(address, three_bytes(machine, address))
}

fn address_after(machine: &Machine, address: u16) -> u16
    ensures { result ≡ address_after machine.now address }
{
    let length = decode(three_bytes(machine, address)).length;
    address.wrapping_add(u16::from(length))
}

/// Writes the lines of `count` instructions.
pub(crate) fn write_lines<W: Output>(
    machine: &Machine,
    mut address: u16,
    count: u32,
    out: &mut W,
) -> Result<(), OutputFailed>
    ensures ok { OnOk result
        (Appends (W.contents out.old) (W.contents out.new) (lines_from machine.now address count)) }
    ensures err { OnErr result
        (AppendsProperPrefix (W.contents out.old) (W.contents out.new) (lines_from machine.now address count)) }
    ensures failed { OnErr result (W.has_failed out.new ≡ true) }
{
    for _i in 0..count {
        let text = line(machine, address);
        if let Err(fault) = write_whole(out, text.as_bytes()) {
            return Err(fault);
        }
        address = address_after(machine, address);
    }
    Ok(())
}
