//! Recordings in files.

ghost use Rattle.std.specs.Prelude.{◌≡◌, true, IfErr, IfOk};
ghost use Rattle.sector_device.specs.FileDevice.{file_disk};
ghost use Rattle.gbkeep.specs.Program.{IsOutputFault, IsServed, IsRecordServed, IsPairFault, IsNotOf, IsNotMarked, IsRemembered, known_by};
ghost use Rattle.gbkeep.specs.Request.{Belongs, limits_up_to, record_limits};
ghost use Rattle.input_entries.specs.Inputs.{inputs};
ghost use Rattle.recording.specs.Recorded.{entries};

use crate::begun::tell_begun;
use crate::files::{MOST_ROM, file_bytes};
use crate::making::{MakingDevice, new_device};
use crate::marks::{FoundMark, found_mark, mark};
use crate::reporting::refusal_of;
use cartridge::Cartridge;
use command_line::Request;
use commands::{CommandError, recorded_lines, verify_line};
use exact_text::Output;
use input_lines::LineInput;
use recorded_play::{RecordError, record as record_play};
use recording::{RecordingFault, create_recording};
use recording_marks::{Known, Mark, MarkFault, known_of};
use refusals::Refusal;
use replaying::{Limits, verify as verify_within};
use sector_device::{DeviceFault, FileDevice};
use std::alloc::Global;
use std::fs::{self, File};
use std::os::unix::fs::MetadataExt;
use std::path::Path;
use std::rt::Files;

/// The fewest sectors of a recording: one for its head, and one for inputs.
const FEWEST_SECTORS: u32 = 2;

/// A power cut leaves the recording ahead by what one save holds, at most.
const MOST_BEYOND: u64 = 3_200;

/// `record` replays no longer game before it takes it up, unless it is in doubt: that would take longer than a second.
const MOST_REPLAYED: u64 = 20_000;

/// Makes a file of so many sectors, and an empty recording in it; the file gets its name once it is one. Where that fails no file is left
/// behind. A recording that is begun stays, also where its line can't be written.
pub(crate) fn new_recording<R: Files<File = File> + AllocGlobal, O: Output>(
    rt: &R,
    cart: &str,
    recording: &str,
    sectors: u32,
    out: &mut O,
) -> Result<(), Refusal>
    ensures served { IsServed (Request.NewRecording cart.entry recording.entry sectors) result (O.contents out.old)
        (O.contents out.new) }
    ensures output { IfErr result (λ fault. IsOutputFault fault → O.has_failed out.new ≡ true) }
{
    let rom = file_bytes(rt, cart, MOST_ROM)?;
    let cartridge = Cartridge::read(rom)?;
    if sectors < FEWEST_SECTORS {
        return Err(Refusal::Recording(RecordingFault::TooSmall));
    }
    let MakingDevice { making, device } = new_device(rt, recording, u64::from(sectors))?;
    match create_recording(rt.alloc(), device, cartridge.digest()) {
        Ok(_recording) => tell_begun(rt, making, None, out),
        Err(refused) => {
            making.give_up(rt);
            Err(Refusal::Recording(refused.why))
        }
    }
}

/// Takes up the game in a file with its recording in another one, and obeys the lines of the input as they come, with all answers on
/// `out`. Each save writes the recording first. A recording that can't be that of the game, or is another one than its mark knows, is refused
/// before either is written to, and the game is marked as recorded, there, before it is given anything.
pub(crate) fn record<R: Files<File = File> + AllocGlobal, I: LineInput, O: Output>(
    rt: &R,
    cart: &str,
    save: &str,
    recording: &str,
    input: &mut I,
    out: &mut O,
) -> Result<(), Refusal>
    ensures served { IsRecordServed result (record {
      before = I.remaining input.old;
      since = I.remaining input.new;
    }) (record { before = O.contents out.old; since = O.contents out.new }) }
    ensures input { IfErr result (λ fault. fault ≡ Refusal.Input → I.has_failed input.new ≡ true) }
    ensures output { IfErr result (λ fault. IsOutputFault fault → O.has_failed out.new ≡ true) }
{
    let rom = file_bytes(rt, cart, MOST_ROM)?;
    let pair = game_and_recording(rt, save, recording)?;
    let cartridge = Cartridge::read(rom)?;
    let game = match belonging(rt.alloc(), pair, &cartridge, MOST_REPLAYED) {
        Ok(game) => game,
        Err(fault) => return Err(fault),
    };
    let found = found_mark(rt, save, recording)?;
    let game = match certain(rt.alloc(), game, &cartridge, &found) {
        Ok(game) => game,
        Err(fault) => return Err(fault),
    };
    let game = match marked(rt.alloc(), game, &cartridge, found.said) {
        Ok(game) => game,
        Err(fault) => return Err(fault),
    };
    mark(rt, save, recording, &game.known)?;
    match record_play(
        rt.alloc(),
        game.save,
        game.recording,
        &cartridge,
        input,
        out,
    ) {
        Ok(game) => {
            drop(game);
            Ok(())
        }
        Err(refused) => Err(match refused.why {
            RecordError::Session(why) => Refusal::Session(why),
            RecordError::Recording(why) => Refusal::Recording(why),
            RecordError::Behind(count) => Refusal::Behind(count),
            RecordError::Line(number) => Refusal::Line(number),
            RecordError::Input => Refusal::Input,
        }),
    }
}

/// A game and a recording that can be its own.
#[derive(Drop)]
struct Compared {
    save: FileDevice,
    recording: FileDevice,
    /// How many inputs the game has.
    count: u64,
}

/// The machines of a longer game than is to be replayed are not compared.
fn belonging(
    alloc: Global,
    pair: Pair,
    cartridge: &Cartridge,
    replayed: u64,
) -> Result<Compared, Refusal>
    ensures belongs { IfOk result (λ game.
        Belongs (limits_up_to replayed) cartridge.now (file_disk game.save) (file_disk game.recording)) }
    ensures cause { IfErr result (IsNotOf cartridge.now (file_disk pair.save) (file_disk pair.recording)) }
{
    let limits = Limits {
        beyond: MOST_BEYOND,
        replayed,
    };
    let found = verify_within(alloc, pair.save, pair.recording, cartridge, Some(limits));
    match found.answer {
        Ok(count) => Ok(Compared {
            save: found.save,
            recording: found.recording,
            count,
        }),
        Err(why) => Err(refusal_of(CommandError::Verify(why))),
    }
}

/// The same of a longer game, where its mark names another recording and does not know all of its inputs.
fn certain(
    alloc: Global,
    game: Compared,
    cartridge: &Cartridge,
    found: &FoundMark,
) -> Result<Compared, Refusal>
    ensures belongs { IfOk result (λ compared.
        Belongs record_limits cartridge.now (file_disk game.save) (file_disk game.recording) →
        Belongs record_limits cartridge.now (file_disk compared.save) (file_disk compared.recording)) }
    ensures cause { IfErr result (IsNotOf cartridge.now (file_disk game.save) (file_disk game.recording)) }
{
    if !is_in_doubt(found, game.count) {
        return Ok(game);
    }
    let pair = Pair {
        save: game.save,
        recording: game.recording,
    };
    belonging(alloc, pair, cartridge, u64::MAX)
}

fn is_in_doubt(found: &FoundMark, count: u64) -> bool {
    let known = match found.said {
        None => return false,
        Some(Mark::Named) => 0,
        Some(Mark::Remembered(known)) => known.count,
    };
    !found.names_it && count > MOST_REPLAYED && known < count
}

/// A game and the recording that its mark knows.
#[derive(Drop)]
struct KnownGame {
    save: FileDevice,
    recording: FileDevice,
    /// What the mark is to say of the recording.
    known: Known,
}

/// What the mark knew, if it did.
fn known_before(said: Option<Mark>) -> Option<Known>
    ensures { result ≡ known_by said }
{
    match said {
        Some(Mark::Remembered(known)) => Some(known),
        _ => None,
    }
}

/// Looks whether the recording is the one that the game's mark knows.
fn marked(
    alloc: Global,
    game: Compared,
    cartridge: &Cartridge,
    said: Option<Mark>,
) -> Result<KnownGame, Refusal>
    ensures known { IfOk result (λ marked. (file_disk game.recording).honest → IsRemembered said game.count marked.known
        (inputs (entries (file_disk game.recording).sectors))) }
    ensures belongs { IfOk result (λ marked.
        Belongs record_limits cartridge.now (file_disk game.save) (file_disk game.recording) →
        Belongs record_limits cartridge.now (file_disk marked.save) (file_disk marked.recording)) }
    ensures cause { IfErr result (IsNotMarked said (file_disk game.recording)) }
{
    let before = known_before(said);
    let found = known_of(
        alloc,
        game.recording,
        cartridge.digest(),
        before,
        game.count,
    );
    match found.answer {
        Ok(known) => Ok(KnownGame {
            save: game.save,
            recording: found.device,
            known,
        }),
        Err(MarkFault::Other) => Err(Refusal::OtherRecording),
        Err(MarkFault::Recording(RecordingFault::Memory)) => Err(Refusal::Memory),
        Err(MarkFault::Recording(_)) => Err(Refusal::Device(DeviceFault::Device)),
    }
}

/// Prints the recording in a file as a script.
pub(crate) fn recorded<R: Files<File = File> + AllocGlobal, O: Output>(
    rt: &R,
    cart: &str,
    recording: &str,
    out: &mut O,
) -> Result<(), Refusal>
    ensures served { IsServed (Request.Recorded cart.entry recording.entry) result (O.contents out.old) (O.contents out.new) }
    ensures output { IfErr result (λ fault. IsOutputFault fault → O.has_failed out.new ≡ true) }
{
    let rom = file_bytes(rt, cart, MOST_ROM)?;
    let device = attached(rt, recording)?;
    match recorded_lines(rt.alloc(), device, rom, out) {
        Ok(_) => Ok(()),
        Err(refused) => Err(refusal_of(refused.why)),
    }
}

/// Compares the game in a file with the recording in another one.
pub(crate) fn verify<R: Files<File = File> + AllocGlobal, O: Output>(
    rt: &R,
    cart: &str,
    save: &str,
    recording: &str,
    out: &mut O,
) -> Result<(), Refusal>
    ensures served { IsServed (Request.Verify cart.entry save.entry recording.entry) result (O.contents out.old)
        (O.contents out.new) }
    ensures output { IfErr result (λ fault. IsOutputFault fault → O.has_failed out.new ≡ true) }
{
    let rom = file_bytes(rt, cart, MOST_ROM)?;
    let pair = game_and_recording(rt, save, recording)?;
    let compared = verify_line(rt.alloc(), pair.save, pair.recording, rom, out);
    match compared.answer {
        Ok(_count) => Ok(()),
        Err(why) => Err(refusal_of(why)),
    }
}

/// A game and a recording, each in a file of its own.
#[derive(Drop)]
pub(crate) struct Pair {
    pub(crate) save: FileDevice,
    pub(crate) recording: FileDevice,
}

/// Opens both files. One file for both is refused, by whatever names.
pub(crate) fn game_and_recording<R: Files<File = File> + AllocGlobal>(
    rt: &R,
    save: &str,
    recording: &str,
) -> Result<Pair, Refusal>
    ensures { IfErr result IsPairFault }
{
    if are_one_file(rt, save, recording) {
        return Err(Refusal::File);
    }
    let save = attached(rt, save)?;
    let recording = attached(rt, recording)?;
    Ok(Pair { save, recording })
}

fn attached<R: Files<File = File> + AllocGlobal>(
    rt: &R,
    path: &str,
) -> Result<FileDevice, DeviceFault> {
    FileDevice::attach(rt, Path::new(path))
}

fn are_one_file<R: Files<File = File>>(rt: &R, one: &str, other: &str) -> bool {
    match (fs::metadata(rt, one), fs::metadata(rt, other)) {
        (Ok(one), Ok(other)) => one.dev() == other.dev() && one.ino() == other.ino(),
        _ => false,
    }
}
