//! Instructions as the machine has them at power-on.

ghost use Rattle.std.specs.Prelude.{◌≡◌, true, IfErr, OnOk};
ghost use Rattle.std.specs.Io.KnownBytes.{Appends};
ghost use Rattle.cartridge.specs.Accepted.{IsAccepted};
ghost use Rattle.machine.specs.Machine.{start};
ghost use Rattle.debugger.specs.Listing.{lines_from};
ghost use Rattle.commands.specs.Refusals.{IsTextCause};

use crate::error::CommandError;
use cartridge::Cartridge;
use debugger::Debugger;
use exact_text::Output;
use machine::Machine;
use std::alloc::Global;

/// Writes the lines of `count` instructions of the machine at power-on, the first at `address`.
/// Addresses wrap around after FFFF, and each line begins where the last one's instruction ended.
///
/// The refusals are those of `step_line`, in the same order.
pub fn list_lines<W: Output>(
    alloc: Global,
    rom: Vec<u8>,
    address: u16,
    count: u32,
    out: &mut W,
) -> Result<(), CommandError>
    ensures accepted { OnOk result (IsAccepted rom.items) }
    ensures lines { OnOk result
        (Appends (W.contents out.old) (W.contents out.new) (lines_from (start rom.items) address count)) }
    ensures refused { IfErr result
        (IsTextCause rom.items (lines_from (start rom.items) address count) (W.contents out.old) (W.contents out.new)) }
    ensures output { IfErr result (λ why. why ≡ CommandError.Output → W.has_failed out.new ≡ true) }
{
    let cartridge = match Cartridge::read(rom) {
        Ok(cartridge) => cartridge,
        Err(fault) => return Err(CommandError::Cart(fault)),
    };
    let machine = match Machine::power_on(alloc, &cartridge) {
        Ok(machine) => machine,
        Err(_) => return Err(CommandError::Memory),
    };
    let debugger = match Debugger::new(alloc, machine, 1) {
        Ok(debugger) => debugger,
        Err(_) => return Err(CommandError::Memory),
    };
    let listed = debugger.list(address, count, out);
    drop(debugger);
    match listed {
        Ok(()) => Ok(()),
        Err(_) => Err(CommandError::Output),
    }
}
