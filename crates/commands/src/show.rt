//! A SAVE, shown as lines.

ghost use Rattle.std.specs.Prelude.{◌≡◌, ◌⊎◌, ◌≤◌, ◌++◌, codes, decimal, length, true, IfErr, OnErr, OnOk};
ghost use Rattle.std.specs.Io.KnownBytes.{Appends};
ghost use Rattle.cartridge.specs.Accepted.{IsAccepted};
ghost use Rattle.exact_text.specs.Written.{AppendsProperPrefix};
ghost use Rattle.hex.specs.Hex.{encode_lower};
ghost use Rattle.sector_device.specs.DiskState.{HasAnswered};
ghost use Rattle.sector_device.specs.Looking.{HasLooked};
ghost use Rattle.session.specs.Calls.{CanBeLookedAt};
ghost use Rattle.session.specs.LookAccessors.{device_of_look};
ghost use Rattle.session.specs.declared.error.SessionError.TheVariants.{Memory};
ghost use Rattle.commands.specs.Show.{HasShown, IsShowCause, seen_by, shown_text};
ghost use Rattle.commands.specs.Show.{inputs_line, logged_line, generation_line, sectors_line, rom_line, state_line};
ghost use Rattle.commands.specs.Refusals.{faults_after};
ghost use Rattle.sector_device.specs.Refusal.{left_by};
ghost use Rattle.commands.specs.declared.error.CommandError.TheVariants.{Session};

use crate::error::CommandError;
use arrayvec::ArrayString;
use cartridge::Cartridge;
use exact_text::{Output, OutputFailed, digest_digits, number_digits, write_whole};
use sector_device::{Refused, SectorDevice};
use session::{Look, look_at};
use sha2::{Digest, Sha256};
use std::alloc::Global;

/// Looks at the game on a device and writes six lines: `inputs N`, how many it has had; `logged N`, how many of them are in the log; `generation N`,
/// that of the log; `sectors N`, those of the device; `rom` and `state` with the SHA-256 of the ROM image and of the snapshot of the game's machine.
/// Nothing is written to the device.
///
/// Refusals, in this order, each of which hands the device back: what is wrong with the image; those of `look_at`, with no line written; that the
/// text could not be written.
pub fn show_lines<D: SectorDevice, W: Output>(
    alloc: Global,
    device: D,
    rom: Vec<u8>,
    out: &mut W,
) -> Result<D, Refused<CommandError, D>>
    ensures accepted { OnOk result (IsAccepted rom.items) }
    ensures shown { OnOk result (HasShown rom.items (D.disk device) (W.contents out.old) (W.contents out.new)) }
    ensures looked { (D.disk device).honest → HasLooked (D.disk device) (D.disk (left_by result)) }
    ensures cause { IfErr result (λ refused.
        IsShowCause rom.items (D.disk device) (W.contents out.old) (W.contents out.new) refused.why) }
    ensures output { IfErr result (λ refused. refused.why ≡ CommandError.Output → W.has_failed out.new ≡ true) }
    ensures memory { IfErr result (λ refused. refused.why ≡ Session Memory → (refused.device ≡ device) ⊎
        ((D.disk device).honest → CanBeLookedAt rom.items (D.disk device))) }
    ensures answered { HasAnswered (λ refused. faults_after refused.why) (D.disk device) (D.disk (left_by result))
        result }
{
    let cartridge = match Cartridge::read(rom) {
        Ok(cartridge) => cartridge,
        Err(fault) => return Err(Refused {
            why: CommandError::Cart(fault),
            device,
        }),
    };
    let look = match look_at(alloc, device, &cartridge) {
        Ok(look) => look,
        Err(refused) => return Err(Refused {
            why: CommandError::Session(refused.why),
            device: refused.device,
        }),
    };
    let written = write_shown(out, &cartridge, &look);
    let device = look.into_device();
    match written {
        Ok(()) => Ok(device),
        Err(_) => Err(Refused {
            why: CommandError::Output,
            device,
        }),
    }
}

/// All six lines.
fn shown_text<D: SectorDevice>(cartridge: &Cartridge, look: &Look<D>) -> ArrayString<512>
    ensures { result.bytes ≡
        shown_text cartridge.now (length (D.disk (device_of_look look.now)).sectors) (seen_by look.now) }
{
    let sectors = look.device().count();
    let numbers = numbers_text(look.count(), look.logged(), look.generation(), sectors);
    let digests = digests_text(cartridge.digest(), Sha256::digest(look.snapshot()));
    let mut text = ArrayString::new();
    text.push_str(numbers.as_str());
    text.push_str(digests.as_str());
    text
}

/// Writes all six lines.
fn write_shown<D: SectorDevice, W: Output>(
    out: &mut W,
    cartridge: &Cartridge,
    look: &Look<D>,
) -> Result<(), OutputFailed>
    ensures ok { OnOk result (Appends (W.contents out.old) (W.contents out.new)
        (shown_text cartridge.now (length (D.disk (device_of_look look.now)).sectors) (seen_by look.now))) }
    ensures err { OnErr result (AppendsProperPrefix (W.contents out.old) (W.contents out.new)
        (shown_text cartridge.now (length (D.disk (device_of_look look.now)).sectors) (seen_by look.now))) }
    ensures failed { OnErr result (W.has_failed out.new ≡ true) }
{
    write_whole(out, shown_text(cartridge, look).as_bytes())
}

/// The lines of the numbers.
fn numbers_text(inputs: u64, logged: u64, generation: u64, sectors: u64) -> ArrayString<128>
    ensures { result.bytes ≡
        inputs_line inputs ++ (logged_line logged ++ (generation_line generation ++ sectors_line sectors)) }
{
    let mut text = ArrayString::new();
    text.push_str(number_line("inputs ", inputs).as_str());
    text.push_str(number_line("logged ", logged).as_str());
    text.push_str(number_line("generation ", generation).as_str());
    text.push_str(number_line("sectors ", sectors).as_str());
    text
}

/// The lines of the digests.
fn digests_text(rom: [u8; 32], state: [u8; 32]) -> ArrayString<144>
    ensures { result.bytes ≡ rom_line rom ++ state_line state }
{
    let mut text = ArrayString::new();
    text.push_str(digest_line("rom ", rom).as_str());
    text.push_str(digest_line("state ", state).as_str());
    text
}

fn number_line(word: &str, number: u64) -> ArrayString<32>
    requires { length word.now ≤ 11 }
    ensures { result.bytes ≡ word.now ++ (decimal number ++ codes "\n") }
{
    let mut text = ArrayString::new();
    text.push_str(word);
    text.push_str(number_digits(number).as_str());
    text.push('\n');
    text
}

fn digest_line(word: &str, digest: [u8; 32]) -> ArrayString<72>
    requires { length word.now ≤ 6 }
    ensures { result.bytes ≡ word.now ++ (encode_lower digest ++ codes "\n") }
{
    let mut text = ArrayString::new();
    text.push_str(word);
    text.push_str(digest_digits(digest).as_str());
    text.push('\n');
    text
}
