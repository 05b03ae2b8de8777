//! A game compared with its recording, and the line that says so.

ghost use Rattle.std.specs.Prelude.{◌≡◌, true, IfErr, IfOk, OnErr, OnOk};
ghost use Rattle.std.specs.Io.KnownBytes.{Appends};
ghost use Rattle.cartridge.specs.Accepted.{IsAccepted};
ghost use Rattle.exact_text.specs.Written.{AppendsProperPrefix};
ghost use Rattle.sector_device.specs.DiskState.{HasAnswered};
ghost use Rattle.sector_device.specs.Looking.{HasLooked};
ghost use Rattle.commands.specs.Verify.{HasAgreed, IsLineCause, agree_line, save_faults_after_line, recording_faults_after_line};

use crate::error::CommandError;
use arrayvec::ArrayString;
use cartridge::Cartridge;
use exact_text::{Output, OutputFailed, number_digits, write_whole};
use replaying::verify;
use sector_device::SectorDevice;
use std::alloc::Global;

/// What `verify_line` did, and both devices.
#[derive(Drop)]
pub struct Compared<S: SectorDevice, D: SectorDevice> {
    /// How many inputs lead to the machine of the game, or why its line was not written.
    pub answer: Result<u64, CommandError>,
    pub save: S,
    pub recording: D,
}

/// Compares the game on a device with the recording on another one, and writes `agree N`, N the count of the game's inputs, if the game is
/// exactly the one after the first N inputs of the recording from power-on. Nothing is written to either device.
///
/// Refusals, in this order: what is wrong with the image; those of `verify`, with nothing written; that the line could not be written.
pub fn verify_line<S: SectorDevice, D: SectorDevice, W: Output>(
    alloc: Global,
    save: S,
    recording: D,
    rom: Vec<u8>,
    out: &mut W,
) -> Compared<S, D>
    ensures accepted { IfOk result.answer (λ count. IsAccepted rom.items) }
    ensures agreed { IfOk result.answer (λ count.
        HasAgreed rom.items (S.disk save) (D.disk recording) count (W.contents out.old) (W.contents out.new)) }
    ensures looked_save { (S.disk save).honest → HasLooked (S.disk save) (S.disk result.save) }
    ensures looked_recording { (D.disk recording).honest → HasLooked (D.disk recording) (D.disk result.recording) }
    ensures cause { IfErr result.answer (λ why.
        IsLineCause rom.items (S.disk save) (D.disk recording) (W.contents out.old) (W.contents out.new) why) }
    ensures output { IfErr result.answer (λ why. why ≡ CommandError.Output → W.has_failed out.new ≡ true) }
    ensures answered_save { HasAnswered save_faults_after_line (S.disk save) (S.disk result.save) result.answer }
    ensures answered_recording { HasAnswered recording_faults_after_line (D.disk recording) (D.disk result.recording)
        result.answer }
{
    let cartridge = match Cartridge::read(rom) {
        Ok(cartridge) => cartridge,
        Err(fault) => return Compared {
            answer: Err(CommandError::Cart(fault)),
            save,
            recording,
        },
    };
    let verified = verify(alloc, save, recording, &cartridge, None);
    let count = match verified.answer {
        Ok(count) => count,
        Err(why) => return Compared {
            answer: Err(CommandError::Verify(why)),
            save: verified.save,
            recording: verified.recording,
        },
    };
    match write_agreed(out, count) {
        Ok(()) => Compared {
            answer: Ok(count),
            save: verified.save,
            recording: verified.recording,
        },
        Err(_) => Compared {
            answer: Err(CommandError::Output),
            save: verified.save,
            recording: verified.recording,
        },
    }
}

fn agree_text(count: u64) -> ArrayString<32>
    ensures { result.bytes ≡ agree_line count }
{
    let mut text = ArrayString::new();
    text.push_str("agree ");
    text.push_str(number_digits(count).as_str());
    text.push('\n');
    text
}

/// Writes the line `agree N`.
fn write_agreed<W: Output>(out: &mut W, count: u64) -> Result<(), OutputFailed>
    ensures ok { OnOk result (Appends (W.contents out.old) (W.contents out.new) (agree_line count)) }
    ensures err { OnErr result (AppendsProperPrefix (W.contents out.old) (W.contents out.new) (agree_line count)) }
    ensures failed { OnErr result (W.has_failed out.new ≡ true) }
{
    write_whole(out, agree_text(count).as_bytes())
}
