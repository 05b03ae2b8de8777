//! Battery files: out of a game, and into a new one.

ghost use Rattle.std.specs.Prelude.{◌≡◌, length, true, IfErr, IfOk, OnErr, OnOk};
ghost use Rattle.std.specs.Io.KnownBytes.{Appends};
ghost use Rattle.exact_text.specs.Written.{AppendsProperPrefix};
ghost use Rattle.sector_device.specs.FileDevice.{file_disk};
ghost use Rattle.cartridge.specs.Header.{ram_length_of};
ghost use Rattle.battery_files.specs.Importing.{IsImportCause};
ghost use Rattle.snapshot.specs.Encoding.{snapshot_length};
ghost use Rattle.session.specs.Accessors.{device_of};
ghost use Rattle.session.specs.Found.{IsNewGameCause};
ghost use Rattle.gbkeep.specs.Program.{IsOutputFault, IsServed};
ghost use Rattle.gbkeep.specs.Request.{IsBatteryTaken, IsImported, exported_line};

use crate::begun::tell_begun;
use crate::files::{MOST_BATTERY, MOST_ROM, file_bytes};
use crate::games::sectors_or;
use crate::making::{MakingDevice, durable_file, new_device};
use arrayvec::ArrayString;
use battery_files::{export_battery, machine_with_battery};
use cartridge::Cartridge;
use command_line::Request;
use exact_text::{Output, OutputFailed, number_digits, write_whole};
use refusals::Refusal;
use sector_device::FileDevice;
use session::{Session, SessionError, new_game_from, sectors_needed};
use std::alloc::Global;
use std::fs::File;
use std::path::Path;
use std::rt::Files;

/// Writes the battery file of the game in a file to a new file, and tells how many inputs the game has had once the new file is durable. Nothing
/// is written to the game's file.
pub(crate) fn export<R: Files<File = File> + AllocGlobal, O: Output>(
    rt: &R,
    cart: &str,
    save: &str,
    battery: &str,
    out: &mut O,
) -> Result<(), Refusal>
    ensures served { IsServed (Request.Export cart.entry save.entry battery.entry) result (O.contents out.old)
        (O.contents out.new) }
    ensures output { IfErr result (λ fault. IsOutputFault fault → O.has_failed out.new ≡ true) }
{
    let rom = file_bytes(rt, cart, MOST_ROM)?;
    let device = FileDevice::attach(rt, Path::new(save))?;
    let exported = match export_battery(rt.alloc(), device, rom) {
        Ok(exported) => exported,
        Err(refused) => return Err(refused.why),
    };
    durable_file(rt, battery, exported.bytes.as_slice())?;
    match write_exported(out, exported.count) {
        Ok(()) => Ok(()),
        Err(_) => Err(Refusal::Output),
    }
}

fn exported_text(count: u64) -> ArrayString<32>
    ensures { result.bytes ≡ exported_line count }
{
    let mut text = ArrayString::new();
    text.push_str("exported ");
    text.push_str(number_digits(count).as_str());
    text.push_str("\n");
    text
}

/// Writes the line `exported N`.
fn write_exported<W: Output>(out: &mut W, count: u64) -> Result<(), OutputFailed>
    ensures ok { OnOk result (Appends (W.contents out.old) (W.contents out.new) (exported_line count)) }
    ensures err { OnErr result (AppendsProperPrefix (W.contents out.old) (W.contents out.new) (exported_line count)) }
    ensures failed { OnErr result (W.has_failed out.new ≡ true) }
{
    let text = exported_text(count);
    write_whole(out, text.as_bytes())
}

/// Makes a file of so many sectors, or of as many as the game needs, and begins a game in it with the RAM of a battery file; the file gets
/// its name once the game is begun. Where that fails no file is left behind. A game that is begun stays, also where its line can't be
/// written.
pub(crate) fn import<R: Files<File = File> + AllocGlobal, O: Output>(
    rt: &R,
    cart: &str,
    battery: &str,
    save: &str,
    sectors: Option<u32>,
    out: &mut O,
) -> Result<(), Refusal>
    ensures served { IsServed (Request.Import cart.entry battery.entry save.entry sectors) result (O.contents out.old)
        (O.contents out.new) }
    ensures output { IfErr result (λ fault. IsOutputFault fault → O.has_failed out.new ≡ true) }
{
    let rom = file_bytes(rt, cart, MOST_ROM)?;
    let cartridge = Cartridge::read(rom)?;
    let battery = file_bytes(rt, battery, MOST_BATTERY)?;
    if let Err(fault) = taken(rt.alloc(), &cartridge, battery.as_slice()) {
        return Err(fault);
    }
    let need = sectors_needed(&cartridge);
    let sectors = sectors_or(sectors, need);
    if sectors < need {
        return Err(Refusal::Session(SessionError::TooSmall { need }));
    }
    let MakingDevice { making, device } = new_device(rt, save, sectors)?;
    match begin_import(rt.alloc(), device, &cartridge, battery.as_slice()) {
        Ok(session) => {
            let told = tell_begun(rt, making, Some(save), out);
            // it holds the file's lock until the file has its name
            drop(session);
            told
        }
        Err(why) => {
            making.give_up(rt);
            Err(Refusal::Session(why))
        }
    }
}

/// Whether a battery file is taken for the cartridge, or why it is not.
fn taken(alloc: Global, cartridge: &Cartridge, battery: &[u8]) -> Result<(), Refusal>
    ensures ok { OnOk result (IsBatteryTaken cartridge.now) }
    ensures err { IfErr result (IsImportCause cartridge.now battery.now) }
{
    match machine_with_battery(alloc, cartridge, battery) {
        Ok(machine) => {
            drop(machine);
            Ok(())
        }
        Err(why) => Err(why),
    }
}

/// Begins a game with the RAM of a battery file on a device.
fn begin_import(
    alloc: Global,
    device: FileDevice,
    cartridge: &Cartridge,
    battery: &[u8],
) -> Result<Session<FileDevice>, SessionError>
    ensures begun { IfOk result (λ session. (file_disk device).honest →
        IsImported cartridge.now battery.now (file_disk device) (file_disk (device_of session))) }
    ensures cause { IfErr result
        (IsNewGameCause (snapshot_length (ram_length_of cartridge.now)) (length (file_disk device).sectors)) }
{
    let Ok(machine) = machine_with_battery(alloc, cartridge, battery) else {
        return Err(SessionError::Memory);
    };
    match new_game_from(alloc, device, cartridge, machine) {
        Ok(session) => Ok(session),
        Err(refused) => Err(refused.why),
    }
}
