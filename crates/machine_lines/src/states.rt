//! A machine as its state.

ghost use Rattle.std.specs.Prelude.{◌≡◌, ◌++◌, length, true, OnErr, OnOk};
ghost use Rattle.std.specs.Io.KnownBytes.{Appends};
ghost use Rattle.exact_text.specs.Written.{AppendsProperPrefix};
ghost use Rattle.snapshot.specs.Encoding.{snapshot_length};
ghost use Rattle.state_header.specs.States.{state_of};
ghost use Rattle.machine_lines.specs.Texts.{state_text};

use crate::texts::write_count;
use cartridge::Cartridge;
use exact_text::{Output, OutputFailed, write_whole};
use machine::Machine;
use snapshot::encode;
use state_header::header;

/// Writes how many bytes the machine's state has, and its bytes. Conditions: the machine is one of the cartridge, and the slice has room for its
/// snapshot.
pub(crate) fn write_state<W: Output>(
    machine: &Machine,
    cartridge: &Cartridge,
    snapshot: &mut [u8],
    out: &mut W,
) -> Result<(), OutputFailed>
    requires rom { machine.now.processor.memory.banks.rom ≡ cartridge.now }
    requires room { length snapshot.old ≡ snapshot_length (length machine.now.processor.memory.banks.ram) }
    ensures ok { OnOk result (Appends (W.contents out.old) (W.contents out.new) (state_text (state_of machine.now))) }
    ensures err { OnErr result
        (AppendsProperPrefix (W.contents out.old) (W.contents out.new) (state_text (state_of machine.now))) }
    ensures failed { OnErr result (W.has_failed out.new ≡ true) }
    ensures room { length snapshot.new ≡ length snapshot.old }
{
    encode(machine, snapshot);
    write_parts(&header(cartridge), snapshot, out)
}

fn write_parts<W: Output>(header: &[u8], snapshot: &[u8], out: &mut W) -> Result<(), OutputFailed>
    ensures ok { OnOk result
        (Appends (W.contents out.old) (W.contents out.new) (state_text (header.now ++ snapshot.now))) }
    ensures err { OnErr result
        (AppendsProperPrefix (W.contents out.old) (W.contents out.new) (state_text (header.now ++ snapshot.now))) }
    ensures failed { OnErr result (W.has_failed out.new ≡ true) }
{
    if let Err(fault) = write_count("state", header.len() + snapshot.len(), out) {
        return Err(fault);
    }
    write_both(header, snapshot, out)
}

fn write_both<W: Output>(first: &[u8], second: &[u8], out: &mut W) -> Result<(), OutputFailed>
    ensures ok { OnOk result (Appends (W.contents out.old) (W.contents out.new) (first.now ++ second.now)) }
    ensures err { OnErr result (AppendsProperPrefix (W.contents out.old) (W.contents out.new) (first.now ++ second.now)) }
    ensures failed { OnErr result (W.has_failed out.new ≡ true) }
{
    if let Err(fault) = write_whole(out, first) {
        return Err(fault);
    }
    write_whole(out, second)
}
