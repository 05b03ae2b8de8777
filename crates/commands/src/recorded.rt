//! A recording as the lines of a script.

ghost use Rattle.std.specs.Prelude.{◌≡◌, true, IfErr, OnOk};
ghost use Rattle.cartridge.specs.Accepted.{IsAccepted};
ghost use Rattle.sector_device.specs.DiskState.{HasAnswered};
ghost use Rattle.sector_device.specs.Looking.{HasLooked};
ghost use Rattle.commands.specs.Recorded.{HasWrittenScript, IsScriptCause, script_error};
ghost use Rattle.commands.specs.Refusals.{faults_after};
ghost use Rattle.sector_device.specs.Refusal.{left_by};

use crate::error::CommandError;
use cartridge::Cartridge;
use exact_text::Output;
use recording::{RecordingFault, open_recording};
use replaying::{WriteRecordedError, write_recorded};
use sector_device::{Refused, SectorDevice};
use std::alloc::Global;

/// Writes the inputs of the recording on a device as a script: `frames BB N` for each run of equal frames, `seconds N` for seconds of the
/// clock. Nothing is written to the device.
///
/// Refusals, in this order, each of which hands the device back: what is wrong with the image; those of `open_recording`, with nothing
/// written; `Device` and `Output` of `write_recorded`, whichever comes first.
pub fn recorded_lines<D: SectorDevice, W: Output>(
    alloc: Global,
    device: D,
    rom: Vec<u8>,
    out: &mut W,
) -> Result<D, Refused<CommandError, D>>
    ensures accepted { OnOk result (IsAccepted rom.items) }
    ensures script { OnOk result ((D.disk device).honest →
        HasWrittenScript rom.items (D.disk device) (W.contents out.old) (W.contents out.new)) }
    ensures looked { (D.disk device).honest → HasLooked (D.disk device) (D.disk (left_by result)) }
    ensures cause { IfErr result (λ refused.
        IsScriptCause rom.items (D.disk device) (W.contents out.old) (W.contents out.new) refused.why) }
    ensures output { IfErr result (λ refused.
        refused.why ≡ CommandError.Output → W.has_failed out.new ≡ true) }
    ensures answered { HasAnswered (λ refused. faults_after refused.why) (D.disk device)
        (D.disk (left_by result)) result }
{
    let cartridge = match Cartridge::read(rom) {
        Ok(cartridge) => cartridge,
        Err(fault) => return Err(Refused {
            why: CommandError::Cart(fault),
            device,
        }),
    };
    let mut recording = match open_recording(alloc, device, cartridge.digest()) {
        Ok(recording) => recording,
        Err(refused) => return Err(Refused {
            why: CommandError::Recording(refused.why),
            device: refused.device,
        }),
    };
    let written = write_recorded(&mut recording, out);
    let device = recording.into_device();
    match written {
        Ok(()) => Ok(device),
        Err(why) => Err(Refused {
            why: error_of(why),
            device,
        }),
    }
}

fn error_of(why: WriteRecordedError) -> CommandError
    ensures { result ≡ script_error why }
{
    match why {
        WriteRecordedError::Broken => CommandError::Recording(RecordingFault::Broken),
        WriteRecordedError::Device => CommandError::Recording(RecordingFault::Device),
        WriteRecordedError::Output => CommandError::Output,
    }
}
