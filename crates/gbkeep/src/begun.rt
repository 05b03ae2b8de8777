//! The line of a new game, or of a new recording.

ghost use Rattle.std.specs.Prelude.{◌≡◌, true, IfErr, OnOk};
ghost use Rattle.std.specs.Io.KnownBytes.{Appends};
ghost use Rattle.gbkeep.specs.Beginning.{IsUntold, begun_line};
ghost use Rattle.gbkeep.specs.Program.{IsOutputFault};

use crate::making::Making;
use crate::marks::unmark;
use exact_text::{Output, write_whole};
use refusals::Refusal;
use sector_device::DeviceFault;
use std::fs::File;
use std::rt::Files;

/// Gives a file that is whole its name, takes away the mark of a game that stood there before, if it is a game, and then writes `begun 0`.
pub(crate) fn tell_begun<R: Files<File = File> + AllocGlobal, O: Output>(
    rt: &R,
    making: Making<'_>,
    game: Option<&str>,
    out: &mut O,
) -> Result<(), Refusal>
    ensures written { OnOk result (Appends (O.contents out.old) (O.contents out.new) begun_line) }
    ensures cause { IfErr result (IsUntold (O.contents out.old) (O.contents out.new)) }
    ensures output { IfErr result (λ fault. IsOutputFault fault → O.has_failed out.new ≡ true) }
{
    if making.finish(rt).is_err() {
        return Err(Refusal::Device(DeviceFault::Device));
    }
    if let Some(save) = game {
        unmark(rt, save);
    }
    match write_whole(out, b"begun 0\n") {
        Ok(()) => Ok(()),
        Err(_) => Err(Refusal::Output),
    }
}
