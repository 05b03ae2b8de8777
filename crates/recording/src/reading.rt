//! What is on a device. Nothing here writes.
ghost use Rattle.std.specs.Prelude.{◌≡◌, ◌≤◌, ◌<◌, ◌+◌, ◌^◌, length, true, false, IfOk, IfErr, OnOk, vec_capacity};
ghost use Rattle.sector_device.specs.DiskState.{HasCalled, HasAnswered, Settled, sector_at};
ghost use Rattle.sector_device.specs.Looking.{LooksOnly};
ghost use Rattle.input_entries.specs.Inputs.{inputs};
ghost use Rattle.recording.specs.Calls.{IsBlank, IsHeadCause, faults_after};
ghost use Rattle.recording.specs.Format.{is_head, is_head_of};
ghost use Rattle.recording.specs.Keeping.{EndsAt, Kept};
ghost use Rattle.recording.specs.Recorded.{entries};
ghost use Rattle.recording.specs.Sizes.{entries_per_sector, list_sectors_in};
ghost use Rattle.recording.specs.declared.fault.RecordingFault.TheVariants.{Device, NoRecording, OtherCartridge};

use crate::fault::RecordingFault;
use crate::packing::count_inputs;
use crate::parse::{has_id, is_head, read_entries};
use crate::sizes::{ENTRIES_PER_SECTOR, MOST_SECTORS};
use input_entries::{StoredEntry, is_zeros};
use sector_device::{DeviceFault, SectorDevice};

/// The sectors that a device with this many has for the list.
#[tactic(auto, unfolding(crate::specs::Sizes::most_sectors))]
pub(crate) fn list_sectors_in(count: u64) -> u64
    ensures { result ≡ list_sectors_in count }
{
    count.saturating_sub(1).min(MOST_SECTORS)
}

/// Whether each sector is all zeros.
pub(crate) fn is_blank<D: SectorDevice>(device: &mut D) -> Result<bool, DeviceFault>
    ensures called { HasCalled (D.disk device.old) (D.disk device.new) result }
    ensures looked { (D.disk device.old).honest → LooksOnly (D.disk device.old) (D.disk device.new) }
    ensures blank { IfOk result (λ yes. yes ≡ true → (D.disk device.old).honest → IsBlank (D.disk device.old).sectors) }
    ensures not_blank { IfOk result (λ yes.
        yes ≡ false → (D.disk device.old).honest → IsBlank (D.disk device.old).sectors → ⊥) }
{
    let mut sector = [0; 512];
    let count = device.count();
    for at in 0..count {
        device.read(at, &mut sector)?;
        if !is_zeros(&sector) {
            return Ok(false);
        }
    }
    Ok(true)
}

/// Looks whether sector 0 is the head of a recording of this ROM.
pub(crate) fn check_head<D: SectorDevice>(
    device: &mut D,
    id: &[u8; 32],
) -> Result<(), RecordingFault>
    ensures answered { HasAnswered faults_after (D.disk device.old) (D.disk device.new) result }
    ensures looked { (D.disk device.old).honest → LooksOnly (D.disk device.old) (D.disk device.new) }
    ensures some { OnOk result (1 ≤ length (D.disk device.new).sectors) }
    ensures head { OnOk result ((D.disk device.old).honest →
        is_head_of id.now (sector_at (D.disk device.old).sectors 0) ≡ true) }
    ensures cause { IfErr result (λ why. IsHeadCause why id.now (D.disk device.old)) }
{
    if device.count() == 0 {
        return Err(RecordingFault::NoRecording);
    }
    let mut sector = [0; 512];
    device.read(0, &mut sector)?;
    if !is_head(&sector) {
        return Err(RecordingFault::NoRecording);
    }
    if !has_id(id, &sector) {
        return Err(RecordingFault::OtherCartridge);
    }
    Ok(())
}

/// Where the list of a device ends.
#[derive(Clone, Copy)]
pub(crate) struct End {
    /// How many of its sectors are full.
    pub(crate) full: u64,
    /// How many inputs it holds.
    pub(crate) input_count: u64,
}

/// Reads the list to its end, and leaves the entries after its full sectors.
pub(crate) fn read_list<D: SectorDevice>(
    device: &mut D,
    tail: &mut Vec<StoredEntry>,
) -> Result<End, DeviceFault>
    requires reserved { entries_per_sector ≤ vec_capacity tail.old }
    requires some { 1 ≤ length (D.disk device.old).sectors }
    ensures called { HasCalled (D.disk device.old) (D.disk device.new) result }
    ensures looked { (D.disk device.old).honest → LooksOnly (D.disk device.old) (D.disk device.new) }
    ensures capacity { vec_capacity tail.old ≤ vec_capacity tail.new }
    ensures kept { IfOk result (λ end.
        Kept (length (D.disk device.new).sectors) end.full tail.new.items end.input_count) }
    ensures ends { IfOk result (λ end.
        (D.disk device.old).honest → EndsAt (D.disk device.old).sectors end.full tail.new.items) }
    ensures counted { IfOk result (λ end.
        (D.disk device.old).honest → end.input_count ≡ length (inputs (entries (D.disk device.old).sectors))) }
{
    let count = device.count();
    let sectors = list_sectors_in(count);
    let mut input_count = 0;
    let mut sector = [0; 512];
    for full in 0..sectors {
        device.read(full + 1, &mut sector)?;
        read_entries(tail, (full + 1) as u32, &sector);
        input_count += count_inputs(tail);
        if tail.len() < ENTRIES_PER_SECTOR {
            return Ok(End { full, input_count });
        }
    }
    tail.clear();
    Ok(End {
        full: sectors,
        input_count,
    })
}
