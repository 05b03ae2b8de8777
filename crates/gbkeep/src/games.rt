//! The commands over save files.

ghost use Rattle.std.specs.Prelude.{◌≡◌, true, unwrap_or, IfErr};
ghost use Rattle.gbkeep.specs.Program.{IsOutputFault, IsServed, IsStreamServed, TellsOutput};

use crate::begun::tell_begun;
use crate::files::{MOST_ROM, MOST_SCRIPT, emptied_file, file_bytes, not_a_pipe};
use crate::making::{MakingDevice, new_device};
use crate::marks::unless_recorded;
use crate::reporting::refusal_of;
use cartridge::Cartridge;
use command_line::Request;
use commands::{play_and_draw, play_script, show_lines, stream_play, trace_lines};
use exact_text::{CheckedOutput, Output};
use input_lines::LineInput;
use refusals::Refusal;
use sector_device::FileDevice;
use session::{SessionError, new_game, sectors_needed};
use std::fs::File;
use std::path::Path;
use std::rt::Files;

/// Makes a file of so many sectors, or of as many as the game needs, and begins a game in it; the file gets its name once the game is
/// begun. Where that fails no file is left behind. A game that is begun stays, also where its line can't be written.
pub(crate) fn new<R: Files<File = File> + AllocGlobal, O: Output>(
    rt: &R,
    cart: &str,
    save: &str,
    sectors: Option<u32>,
    out: &mut O,
) -> Result<(), Refusal>
    ensures served { IsServed (Request.New cart.entry save.entry sectors) result (O.contents out.old) (O.contents out.new) }
    ensures output { IfErr result (λ fault. IsOutputFault fault → O.has_failed out.new ≡ true) }
{
    let rom = file_bytes(rt, cart, MOST_ROM)?;
    let cartridge = Cartridge::read(rom)?;
    let need = sectors_needed(&cartridge);
    let sectors = sectors_or(sectors, need);
    if sectors < need {
        return Err(Refusal::Session(SessionError::TooSmall { need }));
    }
    let MakingDevice { making, device } = new_device(rt, save, sectors)?;
    match new_game(rt.alloc(), device, &cartridge) {
        Ok(session) => {
            let told = tell_begun(rt, making, Some(save), out);
            // it holds the file's lock until the file has its name
            drop(session);
            told
        }
        Err(refused) => {
            making.give_up(rt);
            Err(Refusal::Session(refused.why))
        }
    }
}

/// As many sectors as are asked for, or else as many as are needed.
pub(crate) fn sectors_or(sectors: Option<u32>, need: u64) -> u64
    ensures { result ≡ unwrap_or sectors need }
{
    match sectors {
        Some(sectors) => u64::from(sectors),
        None => need,
    }
}

/// Plays a script, with the report on `out`: each line goes out as it is written, so that one of a save comes only after the save. A game
/// that is recorded is refused.
pub(crate) fn play<R: Files<File = File> + AllocGlobal, O: Output>(
    rt: &R,
    cart: &str,
    save: &str,
    script: &str,
    out: &mut O,
) -> Result<(), Refusal>
    ensures served { IsServed (Request.Play cart.entry save.entry script.entry) result (O.contents out.old)
        (O.contents out.new) }
    ensures output { IfErr result (λ fault. IsOutputFault fault → O.has_failed out.new ≡ true) }
{
    let rom = file_bytes(rt, cart, MOST_ROM)?;
    not_a_pipe(rt, script)?;
    let device = FileDevice::attach(rt, Path::new(save))?;
    unless_recorded(rt, save)?;
    let script = file_bytes(rt, script, MOST_SCRIPT)?;
    match play_script(rt.alloc(), device, rom, script.as_slice(), out) {
        Ok(session) => {
            drop(session);
            Ok(())
        }
        Err(refused) => Err(refusal_of(refused.why)),
    }
}

/// Plays an empty script, with the report on `out`, and writes the picture to a file, which is made or emptied before. It is refused where
/// it is the save file or the cartridge, by whatever name, or has anything else than a picture.
pub(crate) fn frame<R: Files<File = File> + AllocGlobal, O: Output>(
    rt: &R,
    cart: &str,
    save: &str,
    picture: &str,
    out: &mut O,
) -> Result<(), Refusal>
    ensures served { IsServed (Request.Frame cart.entry save.entry picture.entry) result (O.contents out.old)
        (O.contents out.new) }
    ensures output { IfErr result (λ fault.
        TellsOutput (Request.Frame cart.entry save.entry picture.entry) fault → O.has_failed out.new ≡ true) }
{
    let rom = file_bytes(rt, cart, MOST_ROM)?;
    let device = FileDevice::attach(rt, Path::new(save))?;
    let picture = emptied_file(rt, picture, [cart, save])?;
    let mut drawn = CheckedOutput::new(picture);
    match play_and_draw(rt.alloc(), device, rom, b"", out, &mut drawn) {
        Ok(_left) => Ok(()),
        Err(refused) => Err(refusal_of(refused.why)),
    }
}

/// Prints what the game in a file holds. Nothing is written to the file.
pub(crate) fn show<R: Files<File = File> + AllocGlobal, O: Output>(
    rt: &R,
    cart: &str,
    save: &str,
    out: &mut O,
) -> Result<(), Refusal>
    ensures served { IsServed (Request.Show cart.entry save.entry) result (O.contents out.old) (O.contents out.new) }
    ensures output { IfErr result (λ fault. IsOutputFault fault → O.has_failed out.new ≡ true) }
{
    let rom = file_bytes(rt, cart, MOST_ROM)?;
    let device = FileDevice::attach(rt, Path::new(save))?;
    match show_lines(rt.alloc(), device, rom, out) {
        Ok(_) => Ok(()),
        Err(unshown) => Err(refusal_of(unshown.why)),
    }
}

/// Takes up the game in a file and prints its next steps, which are not saved.
pub(crate) fn trace<R: Files<File = File> + AllocGlobal, O: Output>(
    rt: &R,
    cart: &str,
    save: &str,
    count: u32,
    out: &mut O,
) -> Result<(), Refusal>
    ensures served { IsServed (Request.Trace cart.entry save.entry count) result (O.contents out.old) (O.contents out.new) }
    ensures output { IfErr result (λ fault. IsOutputFault fault → O.has_failed out.new ≡ true) }
{
    let rom = file_bytes(rt, cart, MOST_ROM)?;
    let device = FileDevice::attach(rt, Path::new(save))?;
    match trace_lines(rt.alloc(), device, rom, count, out) {
        Ok(_left) => Ok(()),
        Err(untraced) => Err(refusal_of(untraced.why)),
    }
}

/// Takes up the game in a file and obeys the lines of the input as they come, with all answers on `out`: each goes out as it is written. A
/// game that is recorded is refused.
pub(crate) fn stream<R: Files<File = File> + AllocGlobal, I: LineInput, O: Output>(
    rt: &R,
    cart: &str,
    save: &str,
    input: &mut I,
    out: &mut O,
) -> Result<(), Refusal>
    ensures served { IsStreamServed result (record {
      before = I.remaining input.old;
      since = I.remaining input.new;
    }) (record { before = O.contents out.old; since = O.contents out.new }) }
    ensures input { IfErr result (λ fault. fault ≡ Refusal.Input → I.has_failed input.new ≡ true) }
    ensures output { IfErr result (λ fault. IsOutputFault fault → O.has_failed out.new ≡ true) }
{
    let rom = file_bytes(rt, cart, MOST_ROM)?;
    let device = FileDevice::attach(rt, Path::new(save))?;
    unless_recorded(rt, save)?;
    match stream_play(rt.alloc(), device, rom, input, out) {
        Ok(_left) => Ok(()),
        Err(stopped) => Err(refusal_of(stopped.why)),
    }
}
