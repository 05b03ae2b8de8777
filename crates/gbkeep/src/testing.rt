//! Test ROMs in files.

ghost use Rattle.std.specs.Prelude.{◌≡◌, true, IfErr};
ghost use Rattle.gbkeep.specs.Program.{IsOutputFault, IsServed, IsTestServed};

use crate::files::{MOST_ROM, MOST_SCRIPT, file_bytes};
use command_line::Request;
use exact_text::Output;
use refusals::Refusal;
use std::fs::File;
use std::rt::Files;
use test_run::{TestError, Verdict, run_test};

/// Runs a test ROM, with the moves of a script first if one is named, and prints what it sends and how it ended. Done: it has passed.
pub(crate) fn test<R: Files<File = File> + AllocGlobal, O: Output>(
    rt: &R,
    cart: &str,
    frames: u32,
    script: Option<&str>,
    out: &mut O,
) -> Result<(), Refusal>
    ensures served { IsServed (Request.Test cart.entry frames script.entry) result (O.contents out.old) (O.contents out.new) }
    ensures output { IfErr result (λ fault. IsOutputFault fault → O.has_failed out.new ≡ true) }
{
    let rom = file_bytes(rt, cart, MOST_ROM)?;
    match script {
        None => test_with(rt, rom, b"", frames, out),
        Some(path) => {
            let script = file_bytes(rt, path, MOST_SCRIPT)?;
            test_with(rt, rom, script.as_slice(), frames, out)
        }
    }
}

/// Runs a test ROM with the moves of this script first.
fn test_with<R: AllocGlobal, O: Output>(
    rt: &R,
    rom: Vec<u8>,
    script: &[u8],
    frames: u32,
    out: &mut O,
) -> Result<(), Refusal>
    ensures served { IsTestServed rom.items script.now frames result (O.contents out.old) (O.contents out.new) }
    ensures output { IfErr result (λ fault. IsOutputFault fault → O.has_failed out.new ≡ true) }
{
    match run_test(rt.alloc(), rom, script, frames, out) {
        Ok(Verdict::Passed) => Ok(()),
        Ok(Verdict::Failed) => Err(Refusal::TestFailed),
        Ok(Verdict::Undecided) => Err(Refusal::TestUndecided),
        Err(TestError::Cart(why)) => Err(Refusal::Cart(why)),
        Err(TestError::Script(why)) => Err(Refusal::Script(why)),
        Err(TestError::Memory) => Err(Refusal::Memory),
        Err(TestError::Output) => Err(Refusal::Output),
    }
}
