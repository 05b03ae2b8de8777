//! A recording as a script.
ghost use Rattle.std.specs.Prelude.{◌≡◌, ◌≤◌, ◌+◌, ◌⊎◌, ◌↔◌, length, true, false, OnOk, OnErr, IfErr, IsErrOf};
ghost use Rattle.std.specs.Io.KnownBytes.{Appends};
ghost use Rattle.sector_device.specs.DiskState.{HasAnswered, sector_at};
ghost use Rattle.sector_device.specs.Looking.{HasLooked};
ghost use Rattle.input_entries.specs.Inputs.{inputs};
ghost use Rattle.recording.specs.Format.{entries_at};
ghost use Rattle.recording.specs.Accessors.{device_of, is_broken, full_of, tail_of, count_of, used_of};
ghost use Rattle.session.specs.Inputs.{inputs_of};
ghost use Rattle.replaying.specs.Lines.{HasWritten, HasStopped};
ghost use Rattle.replaying.specs.Writing.{script_in, WritesPart, IsWriteCause, faults_after};
ghost use Rattle.replaying.specs.declared.error.WriteRecordedError.TheVariants.{Device, Output};

use crate::error::WriteRecordedError;
use crate::lines::{write_entries, write_run};
use crate::run::Run;
use exact_text::Output;
use recording::{Recording, RecordingFault};
use sector_device::SectorDevice;

/// Writes the inputs of a recording as a script that asks for exactly these inputs: a line `frames
/// BB N` for each run of equal frames, of at most 1,000,000, and a line `seconds N` for seconds. It
/// reads sector by sector, takes no memory and writes nothing to the device. `out` gets a line at a
/// time.
///
/// Refusals: `Broken` before anything else; `Device` at the first call of the device that fails,
/// which breaks the recording; `Output` at the first write that fails or takes no byte.
pub fn write_recorded<D: SectorDevice, W: Output>(
    recording: &mut Recording<D>,
    out: &mut W,
) -> Result<(), WriteRecordedError>
    // what is written
    ensures script { OnOk result ((D.disk (device_of recording.old)).honest →
        Appends (W.contents out.old) (W.contents out.new) (script_in (D.disk (device_of recording.old)).sectors)) }
    ensures part { IfErr result (λ why. (D.disk (device_of recording.old)).honest →
        WritesPart why (W.contents out.old) (W.contents out.new)
        (script_in (D.disk (device_of recording.old)).sectors)) }

    // only a write that failed is told as one
    ensures output { IfErr result (λ why. why ≡ WriteRecordedError.Output → W.has_failed out.new ≡ true) }

    // the recording stays as it was
    ensures looked { (D.disk (device_of recording.old)).honest →
        HasLooked (D.disk (device_of recording.old)) (D.disk (device_of recording.new)) }
    ensures same { (full_of recording.new ≡ full_of recording.old) × (tail_of recording.new ≡ tail_of recording.old) ×
        (count_of recording.new ≡ count_of recording.old) }
    ensures broken { (is_broken recording.new ≡ true) ↔
        ((is_broken recording.old ≡ true) ⊎ IsErrOf result WriteRecordedError.Device) }

    ensures cause { IfErr result (λ why. IsWriteCause why (is_broken recording.old)) }
    ensures answered { HasAnswered faults_after (D.disk (device_of recording.old)) (D.disk (device_of recording.new))
        result }
{
    if recording.is_broken() {
        return Err(WriteRecordedError::Broken);
    }
    let mut run = Run::none();
    let used = recording.sectors_used();
    for index in 0..used {
        if let Err(why) = write_sector(recording, index + 1, &mut run, out) {
            return Err(why);
        }
    }
    match write_run(run, out) {
        Ok(()) => Ok(()),
        Err(_) => Err(WriteRecordedError::Output),
    }
}

/// Writes the lines that the inputs of a sector end.
fn write_sector<D: SectorDevice, W: Output>(
    recording: &mut Recording<D>,
    number: u64,
    run: &mut Run,
    out: &mut W,
) -> Result<(), WriteRecordedError>
    requires whole { is_broken recording.old ≡ false }
    requires one { 1 ≤ number }
    requires used { number ≤ used_of recording.old }

    ensures written { OnOk result ((D.disk (device_of recording.old)).honest →
        HasWritten run.old run.new
        (inputs_of (inputs (entries_at number (sector_at (D.disk (device_of recording.old)).sectors number))))
        (W.contents out.old) (W.contents out.new)) }
    ensures output { result ≡ Err Output → (D.disk (device_of recording.old)).honest →
        HasStopped run.old
        (inputs_of (inputs (entries_at number (sector_at (D.disk (device_of recording.old)).sectors number))))
        (W.contents out.old) (W.contents out.new) }
    ensures failed { result ≡ Err Output → W.has_failed out.new ≡ true }
    ensures device { result ≡ Err Device → W.contents out.new ≡ W.contents out.old }
    ensures looked { (D.disk (device_of recording.old)).honest →
        HasLooked (D.disk (device_of recording.old)) (D.disk (device_of recording.new)) }
    ensures same { (full_of recording.new ≡ full_of recording.old) × (tail_of recording.new ≡ tail_of recording.old) ×
        (count_of recording.new ≡ count_of recording.old) }
    ensures broken { (is_broken recording.new ≡ true) ↔ IsErrOf result WriteRecordedError.Device }
    ensures cause { IfErr result (λ why. (why ≡ Device) ⊎ (why ≡ Output)) }
    ensures answered { HasAnswered faults_after (D.disk (device_of recording.old)) (D.disk (device_of recording.new))
        result }
{
    if let Err(_) = recording.read_sector(number) {
        return Err(WriteRecordedError::Device);
    }
    match write_entries(run, recording.entries(), out) {
        Ok(()) => Ok(()),
        Err(_) => Err(WriteRecordedError::Output),
    }
}
