//! The SHA-256 of the first inputs of a recording.
ghost use Rattle.std.specs.Prelude.{◌≡◌, ◌∷◌, ◌++◌, [], ℕ, List, true, false, replicate, take, OnOk, IfErr};
ghost use Rattle.sha2.specs.Hashers.{Holds256};
ghost use Rattle.sector_device.specs.DiskState.{HasAnswered};
ghost use Rattle.sector_device.specs.Looking.{HasLooked};
ghost use Rattle.input_entries.specs.Inputs.{is_entry, inputs_in, inputs, all_entries, frame, seconds as seconds_entry};
ghost use Rattle.recording.specs.Calls.{faults_after};
ghost use Rattle.recording.specs.Recorded.{entries};
ghost use Rattle.recording.specs.Accessors.{device_of, is_broken, count_of};
ghost use Rattle.recording_marks.specs.Digests.{bytes_of, HasHashed};

use input_entries::{Entry, Logged, StoredEntry};
use recording::{Recording, RecordingFault};
use sector_device::SectorDevice;
use sha2::{Digest, Sha256};

/// Hashes one input so many times.
fn hash_times(hasher: &mut Sha256, entry: &Entry, times: u32)
    ensures { (m : List ℕ) → Holds256 hasher.old m → Holds256 hasher.new (m ++ bytes_of (replicate times entry.now)) }
{
    for _i in 0..times {
        hasher.update(entry.code);
    }
}

/// Hashes frames, but no more than `left`, and returns how many inputs are left then.
fn hash_frames(hasher: &mut Sha256, buttons: u8, times: u32, left: u64) -> u64
    ensures { HasHashed hasher.old hasher.new left result (replicate times (frame buttons)) }
{
    let entry = Entry::frame(buttons);
    if left < times as u64 {
        hash_times(hasher, &entry, left as u32);
        return 0;
    }
    hash_times(hasher, &entry, times);
    left - times as u64
}

/// Hashes seconds, unless none is left, and returns how many inputs are left then.
fn hash_seconds(hasher: &mut Sha256, seconds: u32, left: u64) -> u64
    ensures { HasHashed hasher.old hasher.new left result (seconds_entry seconds ∷ []) }
{
    if left == 0 {
        return 0;
    }
    let entry = Entry::seconds(seconds);
    hasher.update(entry.code);
    left - 1
}

/// Hashes the inputs of one entry, but no more than `left`, and returns how many are left then.
fn hash_entry(hasher: &mut Sha256, entry: &StoredEntry, left: u64) -> u64
    ensures { is_entry entry.now ≡ true → HasHashed hasher.old hasher.new left result (inputs_in entry.now) }
{
    match entry.logged() {
        Some(Logged::Frames { buttons, times }) => hash_frames(hasher, buttons, times, left),
        Some(Logged::Seconds(seconds)) => hash_seconds(hasher, seconds, left),
        None => left,
    }
}

/// The same with the inputs of entries, one after another.
fn hash_entries(hasher: &mut Sha256, entries: &[StoredEntry], left: u64) -> u64
    ensures { all_entries entries.now → HasHashed hasher.old hasher.new left result (inputs entries.now) }
{
    let mut left = left;
    for entry in entries {
        left = hash_entry(hasher, entry, left);
    }
    left
}

/// Hashes the first `most` inputs of a recording; all if there are fewer.
pub(crate) fn hash_inputs<D: SectorDevice>(
    recording: &mut Recording<D>,
    hasher: &mut Sha256,
    most: u64,
) -> Result<(), RecordingFault>
    requires { is_broken recording.old ≡ false }
    ensures hashed { OnOk result ((D.disk (device_of recording.old)).honest → (m : List ℕ) → Holds256 hasher.old m →
        Holds256 hasher.new (m ++ bytes_of (take most (inputs (entries (D.disk (device_of recording.old)).sectors))))) }
    ensures whole { OnOk result (is_broken recording.new ≡ false) }
    ensures count { count_of recording.new ≡ count_of recording.old }
    ensures looked { (D.disk (device_of recording.old)).honest →
        HasLooked (D.disk (device_of recording.old)) (D.disk (device_of recording.new)) }
    ensures cause { IfErr result (λ why. why ≡ RecordingFault.Device) }
    ensures answered { HasAnswered faults_after (D.disk (device_of recording.old)) (D.disk (device_of recording.new))
        result }
{
    let mut left = most;
    let used = recording.sectors_used();
    for index in 0..used {
        if let Err(why) = recording.read_sector(index + 1) {
            return Err(why);
        }
        left = hash_entries(hasher, recording.entries(), left);
    }
    Ok(())
}
