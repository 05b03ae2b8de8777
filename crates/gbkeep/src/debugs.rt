//! A debugger over files.

ghost use Rattle.std.specs.Prelude.{◌≡◌, true, IfErr};
ghost use Rattle.gbkeep.specs.Program.{IsDebugServed, IsOutputFault};

use crate::files::{MOST_ROM, file_bytes};
use crate::reporting::refusal_of;
use commands::{debug_game, debug_rom};
use exact_text::Output;
use input_lines::LineInput;
use refusals::Refusal;
use sector_device::FileDevice;
use std::fs::File;
use std::path::Path;
use std::rt::Files;

/// Debugs a cartridge from power-on, or the game in a file, which keeps nothing of that. The lines of the input are obeyed as they come,
/// and each answer goes out as it is written.
pub(crate) fn debug<R: Files<File = File> + AllocGlobal, I: LineInput, O: Output>(
    rt: &R,
    cart: &str,
    save: Option<&str>,
    input: &mut I,
    out: &mut O,
) -> Result<(), Refusal>
    ensures served { IsDebugServed save.entry result (record { before = I.remaining input.old; since = I.remaining input.new })
        (record { before = O.contents out.old; since = O.contents out.new }) }
    ensures input { IfErr result (λ fault. fault ≡ Refusal.Input → I.has_failed input.new ≡ true) }
    ensures output { IfErr result (λ fault. IsOutputFault fault → O.has_failed out.new ≡ true) }
{
    let rom = file_bytes(rt, cart, MOST_ROM)?;
    match save {
        None => power_on(rt, rom, input, out),
        Some(save) => resumed(rt, rom, save, input, out),
    }
}

fn power_on<R: AllocGlobal, I: LineInput, O: Output>(
    rt: &R,
    rom: Vec<u8>,
    input: &mut I,
    out: &mut O,
) -> Result<(), Refusal>
    ensures served { IsDebugServed None result (record {
      before = I.remaining input.old;
      since = I.remaining input.new;
    })
        (record { before = O.contents out.old; since = O.contents out.new }) }
    ensures input { IfErr result (λ fault. fault ≡ Refusal.Input → I.has_failed input.new ≡ true) }
    ensures output { IfErr result (λ fault. IsOutputFault fault → O.has_failed out.new ≡ true) }
{
    match debug_rom(rt.alloc(), rom, input, out) {
        Ok(()) => Ok(()),
        Err(why) => Err(refusal_of(why)),
    }
}

fn resumed<R: Files<File = File> + AllocGlobal, I: LineInput, O: Output>(
    rt: &R,
    rom: Vec<u8>,
    save: &str,
    input: &mut I,
    out: &mut O,
) -> Result<(), Refusal>
    ensures served { IsDebugServed (Some save.entry) result (record {
      before = I.remaining input.old;
      since = I.remaining input.new;
    })
        (record { before = O.contents out.old; since = O.contents out.new }) }
    ensures input { IfErr result (λ fault. fault ≡ Refusal.Input → I.has_failed input.new ≡ true) }
    ensures output { IfErr result (λ fault. IsOutputFault fault → O.has_failed out.new ≡ true) }
{
    let device = FileDevice::attach(rt, Path::new(save))?;
    match debug_game(rt.alloc(), device, rom, input, out) {
        Ok(_left) => Ok(()),
        Err(refused) => Err(refusal_of(refused.why)),
    }
}
