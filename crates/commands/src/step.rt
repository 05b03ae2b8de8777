//! From ROM bytes to a line of registers.

ghost use Rattle.std.specs.Prelude.{◌≡◌, true, IfErr, OnOk};
ghost use Rattle.std.specs.Io.KnownBytes.{Appends};
ghost use Rattle.cartridge.specs.Accepted.{IsAccepted};
ghost use Rattle.commands.specs.Refusals.{IsTextCause};
ghost use Rattle.commands.specs.Step.{line_after};

use crate::error::CommandError;
use cartridge::Cartridge;
use debugger::register_line;
use exact_text::{Output, write_whole};
use machine::Machine;
use std::alloc::Global;

/// Writes the line of registers after `count` steps from power-on.
///
/// Refusals, in this order: what is wrong with the image (its length, its type, its RAM code, its
/// number of banks), no memory, output failed. Nothing is written but at the last, where a proper
/// prefix of the line is.
#[tactic(auto, unfolding(crate::specs::Step::line_after))]
pub fn step_line<W: Output>(
    alloc: Global,
    rom: Vec<u8>,
    count: u32,
    out: &mut W,
) -> Result<(), CommandError>
    ensures accepted { OnOk result (IsAccepted rom.items) }
    ensures line { OnOk result (Appends (W.contents out.old) (W.contents out.new) (line_after rom.items count)) }
    ensures refused { IfErr result
        (IsTextCause rom.items (line_after rom.items count) (W.contents out.old) (W.contents out.new)) }
    ensures output { IfErr result (λ why. why ≡ CommandError.Output → W.has_failed out.new ≡ true) }
{
    let cartridge = match Cartridge::read(rom) {
        Ok(cartridge) => cartridge,
        Err(fault) => return Err(CommandError::Cart(fault)),
    };
    let mut machine = match Machine::power_on(alloc, &cartridge) {
        Ok(machine) => machine,
        Err(_) => return Err(CommandError::Memory),
    };
    machine.run_steps(count);
    let line = register_line(machine.processor());
    drop(machine);
    match write_whole(out, line.as_bytes()) {
        Ok(()) => Ok(()),
        Err(_) => Err(CommandError::Output),
    }
}
