//! The first inputs of a recording, given to a machine.
ghost use Rattle.std.specs.Prelude.{◌≡◌, ◌∷◌, [], take, true, false, replicate, OnOk, IfErr};
ghost use Rattle.machine.specs.Machine.{after};
ghost use Rattle.machine.specs.Machine.{Frame};
ghost use Rattle.sector_device.specs.DiskState.{HasAnswered};
ghost use Rattle.sector_device.specs.Looking.{HasLooked};
ghost use Rattle.input_entries.specs.Inputs.{is_entry, inputs_in, inputs, all_entries, frame, seconds as seconds_entry};
ghost use Rattle.recording.specs.Calls.{faults_after};
ghost use Rattle.recording.specs.Recorded.{entries};
ghost use Rattle.recording.specs.Accessors.{device_of, is_broken};
ghost use Rattle.session.specs.Inputs.{inputs_of};
ghost use Rattle.replaying.specs.Replayed.{HasPlayed, HasReplayed};

use input_entries::{Logged, StoredEntry};
use machine::{Input, Machine};
use recording::{Recording, RecordingFault};
use sector_device::SectorDevice;

/// Plays `times` frames with these buttons.
fn play_frames(machine: &mut Machine, buttons: u8, times: u32)
    ensures { machine.new ≡ after machine.old (replicate times (Frame buttons)) }
{
    for _i in 0..times {
        machine.frame(buttons);
    }
}

/// Gives the machine frames, but no more than `left`, and returns how many are left then.
fn replay_frames(machine: &mut Machine, buttons: u8, times: u32, left: u64) -> u64
    ensures played { HasPlayed machine.old machine.new }
    ensures replayed { HasReplayed machine.old machine.new left result (replicate times (frame buttons)) }
{
    if left < times as u64 {
        play_frames(machine, buttons, left as u32);
        return 0;
    }
    play_frames(machine, buttons, times);
    left - times as u64
}

/// Gives the machine seconds, unless none is left, and returns how many inputs are left then.
fn replay_seconds(machine: &mut Machine, seconds: u32, left: u64) -> u64
    ensures played { HasPlayed machine.old machine.new }
    ensures replayed { HasReplayed machine.old machine.new left result (seconds_entry seconds ∷ []) }
{
    if left == 0 {
        return 0;
    }
    machine.apply(Input::Seconds(seconds));
    left - 1
}

/// Gives the machine the inputs of one entry, but no more than `left`, and returns how many are
/// left then.
fn replay_entry(machine: &mut Machine, entry: &StoredEntry, left: u64) -> u64
    ensures played { HasPlayed machine.old machine.new }
    ensures replayed { is_entry entry.now ≡ true →
        HasReplayed machine.old machine.new left result (inputs_in entry.now) }
{
    match entry.logged() {
        Some(Logged::Frames { buttons, times }) => replay_frames(machine, buttons, times, left),
        Some(Logged::Seconds(seconds)) => replay_seconds(machine, seconds, left),
        None => left,
    }
}

/// The same with the inputs of entries, one after another.
fn replay_entries(machine: &mut Machine, entries: &[StoredEntry], left: u64) -> u64
    ensures played { HasPlayed machine.old machine.new }
    ensures replayed { all_entries entries.now → HasReplayed machine.old machine.new left result (inputs entries.now) }
{
    let mut left = left;
    for entry in entries {
        left = replay_entry(machine, entry, left);
    }
    left
}

/// Gives a machine the first `most` inputs of a recording; all if there are fewer.
pub(crate) fn replay<D: SectorDevice>(
    recording: &mut Recording<D>,
    machine: &mut Machine,
    most: u64,
) -> Result<(), RecordingFault>
    requires { is_broken recording.old ≡ false }
    ensures played { HasPlayed machine.old machine.new }
    ensures machine { OnOk result ((D.disk (device_of recording.old)).honest →
        machine.new ≡
        after machine.old (inputs_of (take most (inputs (entries (D.disk (device_of recording.old)).sectors))))) }
    ensures looked { (D.disk (device_of recording.old)).honest →
        HasLooked (D.disk (device_of recording.old)) (D.disk (device_of recording.new)) }
    ensures cause { IfErr result (λ why. why ≡ RecordingFault.Device) }
    ensures answered { HasAnswered faults_after (D.disk (device_of recording.old)) (D.disk (device_of recording.new))
        result }
{
    let mut left = most;
    let used = recording.sectors_used();
    for index in 0..used {
        if let Err(why) = recording.read_sector(index + 1) {
            return Err(why);
        }
        left = replay_entries(machine, recording.entries(), left);
    }
    Ok(())
}
