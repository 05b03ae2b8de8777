//! The lines about a cartridge.

ghost use Rattle.std.specs.Prelude.{◌≡◌, ◌≢◌, ◌<◌, ◌≤◌, IfErr, OnErr, OnOk, length, map, true};
ghost use Rattle.std.specs.Io.KnownBytes.{Appends};
ghost use Rattle.cartridge.specs.Accepted.{IsAccepted};
ghost use Rattle.exact_text.specs.Written.{AppendsProperPrefix};
ghost use Rattle.commands.specs.Info.{checksum_line, info_of, name_of, ram_line, rom_line, sectors_line, shown, title_line, type_line};
ghost use Rattle.commands.specs.Refusals.{IsTextCause};

use crate::error::CommandError;
use arrayvec::ArrayString;
use cartridge::{Cartridge, Controller};
use exact_text::{Output, OutputFailed, byte_digits, number_digits, write_whole};
use session::sectors_needed;

/// Room for a line.
type Line = ArrayString<80>;

/// Writes the six lines about a cartridge: its title, type, ROM, RAM, checksums, and how many sectors a save file of it needs.
///
/// Refusals, in this order: what is wrong with the image (its length, its type, its RAM code, its number of banks), output failed.
/// Nothing is written but at the last, where a proper prefix of the lines is.
pub fn info_lines<W: Output>(rom: Vec<u8>, out: &mut W) -> Result<(), CommandError>
    ensures accepted { OnOk result (IsAccepted rom.items) }
    ensures lines { OnOk result (Appends (W.contents out.old) (W.contents out.new) (info_of rom.items)) }
    ensures refused { IfErr result (IsTextCause rom.items (info_of rom.items) (W.contents out.old) (W.contents out.new)) }
    ensures memory { IfErr result (λ why. why ≢ CommandError.Memory) }
    ensures output { IfErr result (λ why. why ≡ CommandError.Output → W.has_failed out.new ≡ true) }
{
    let cartridge = match Cartridge::read(rom) {
        Ok(cartridge) => cartridge,
        Err(fault) => return Err(CommandError::Cart(fault)),
    };
    match write_info(out, &cartridge) {
        Ok(()) => Ok(()),
        Err(_) => Err(CommandError::Output),
    }
}

fn write_info<W: Output>(out: &mut W, cartridge: &Cartridge) -> Result<(), OutputFailed>
    ensures ok { OnOk result (Appends (W.contents out.old) (W.contents out.new) (info_of cartridge.now)) }
    ensures err { OnErr result (AppendsProperPrefix (W.contents out.old) (W.contents out.new) (info_of cartridge.now)) }
    ensures failed { OnErr result (W.has_failed out.new ≡ true) }
{
    let text = info_text(cartridge);
    write_whole(out, text.as_bytes())
}

/// All six lines; there is room for them.
fn info_text(cartridge: &Cartridge) -> ArrayString<480>
    ensures { result.bytes ≡ info_of cartridge.now }
{
    let mut text = ArrayString::new();
    text.push_str(title_text(cartridge).as_str());
    text.push_str(type_text(cartridge).as_str());
    text.push_str(rom_text(cartridge).as_str());
    text.push_str(ram_text(cartridge).as_str());
    text.push_str(checksum_text(cartridge).as_str());
    text.push_str(sectors_text(cartridge).as_str());
    text
}

fn shown(byte: u8) -> char
    ensures value { result ≡ shown byte }
    ensures ascii { result < 128 }
{
    if (0x20..=0x7e).contains(&byte) {
        byte as char
    } else {
        '.'
    }
}

fn shown_title(title: &[u8]) -> ArrayString<16>
    requires { length title.now ≤ 16 }
    ensures { result.bytes ≡ map shown title.now }
{
    let mut text = ArrayString::new();
    for byte in title {
        text.push(shown(*byte));
    }
    text
}

fn title_text(cartridge: &Cartridge) -> Line
    ensures { result.bytes ≡ title_line cartridge.now }
{
    let title = shown_title(cartridge.title());
    let mut text = ArrayString::new();
    text.push_str("title [");
    text.push_str(title.as_str());
    text.push_str("]\n");
    text
}

fn type_text(cartridge: &Cartridge) -> Line
    ensures { result.bytes ≡ type_line cartridge.now }
{
    let mut text = ArrayString::new();
    text.push_str("type ");
    text.push_str(byte_digits(cartridge.kind()).as_str());
    text.push_str(" ");
    text.push_str(name_of(cartridge.controller()));
    text.push_str("\n");
    text
}

fn rom_text(cartridge: &Cartridge) -> Line
    ensures { result.bytes ≡ rom_line cartridge.now }
{
    let mut text = ArrayString::new();
    text.push_str("rom ");
    text.push_str(number_digits(cartridge.rom().len() as u64).as_str());
    text.push_str(" bytes ");
    text.push_str(number_digits(u64::from(cartridge.banks())).as_str());
    text.push_str(" banks code ");
    text.push_str(byte_digits(cartridge.rom_code()).as_str());
    text.push_str("\n");
    text
}

fn ram_text(cartridge: &Cartridge) -> Line
    ensures { result.bytes ≡ ram_line cartridge.now }
{
    let mut text = ArrayString::new();
    text.push_str("ram ");
    text.push_str(number_digits(cartridge.ram_length() as u64).as_str());
    text.push_str(" bytes code ");
    text.push_str(byte_digits(cartridge.ram_code()).as_str());
    text.push_str("\n");
    text
}

fn checksum_text(cartridge: &Cartridge) -> Line
    ensures { result.bytes ≡ checksum_line cartridge.now }
{
    let mut text = ArrayString::new();
    text.push_str("checksum stored ");
    text.push_str(byte_digits(cartridge.checksum_stored()).as_str());
    text.push_str(" computed ");
    text.push_str(byte_digits(cartridge.checksum_computed()).as_str());
    text.push_str("\n");
    text
}

fn sectors_text(cartridge: &Cartridge) -> Line
    ensures { result.bytes ≡ sectors_line cartridge.now }
{
    let mut text = ArrayString::new();
    text.push_str("sectors ");
    text.push_str(number_digits(sectors_needed(cartridge)).as_str());
    text.push_str("\n");
    text
}

fn name_of(controller: Controller) -> &'static str
    ensures name { result.now ≡ name_of controller }
    ensures len { length result.now ≤ 10 }
{
    match controller {
        Controller::NoMbc => "none",
        Controller::Mbc1 => "MBC1",
        Controller::Mbc2 => "MBC2",
        Controller::Mbc3 => "MBC3",
        Controller::Mbc3Clock => "MBC3+clock",
        Controller::Mbc5 => "MBC5",
    }
}
