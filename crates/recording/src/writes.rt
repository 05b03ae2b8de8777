//! Runs of writes, one device call per turn, and the sync after them.
ghost use Rattle.std.specs.Prelude.{◌≡◌, ◌≤◌, ◌<◌, ◌+◌, ◌-◌, ◌*◌, ◌^◌, [], length, true, IfOk, OnOk, vec_capacity};
ghost use Rattle.sector_device.specs.DiskState.{HasCalled, HasSynced, Settled};
ghost use Rattle.sector_device.specs.Runs.{HoldsThroughout, Mixed};
ghost use Rattle.input_entries.specs.Inputs.{all_input};
ghost use Rattle.input_entries.specs.Growing.{with_inputs};
ghost use Rattle.recording.specs.Keeping.{AreGood, BlankFrom, blanked, grown_image, HasPacked};
ghost use Rattle.recording.specs.Sizes.{entries_per_sector, list_sectors_in, sectors_for};

use crate::format::list_sector;
use crate::packing::fill;
use crate::sizes::ENTRIES_PER_SECTOR;
use input_entries::{Entry, StoredEntry, is_zeros};
use sector_device::{DeviceFault, SectorDevice};

/// Makes the sectors from this one on blank, unless they are known to be. A sector of an append
/// that was cut may stand there, and would join on once the one before it is full.
pub(crate) fn clear_rest<D: SectorDevice>(
    device: &mut D,
    from: u64,
    is_blank: bool,
) -> Result<(), DeviceFault>
    requires { from ≤ length (D.disk device.old).sectors }
    ensures called { HasCalled (D.disk device.old) (D.disk device.new) result }
    ensures moments { (D.disk device.old).honest → Settled (D.disk device.old) →
        (let old = (D.disk device.old).sectors in let new = blanked from old in
        HoldsThroughout (D.disk device.old) (D.disk device.new) (Mixed old new) (Mixed old new)) }
    ensures cleared { OnOk result ((D.disk device.old).honest → Settled (D.disk device.old) →
        (is_blank ≡ true → BlankFrom (D.disk device.old).sectors from) →
        Settled (D.disk device.new) × ((D.disk device.new).sectors ≡ blanked from (D.disk device.old).sectors)) }
{
    if is_blank {
        return Ok(());
    }
    let mut sector = [0; 512];
    let count = device.count();
    for at in from..count {
        device.read(at, &mut sector)?;
        if is_zeros(&sector) {
            continue;
        }
        device.write(at, &[0; 512])?;
    }
    sync_once(device)
}

/// Leaves the sector of the entries for the next one, if they fill it.
fn leave_if_full(full: u64, entries: &mut Vec<StoredEntry>) -> u64
    requires short { length entries.old.items ≤ entries_per_sector }
    requires range { full + 1 < 2 ^ 64 }
    ensures next { length entries.old.items ≡ entries_per_sector → (result ≡ full + 1) × (entries.new.items ≡ []) }
    ensures same { length entries.old.items < entries_per_sector →
        (result ≡ full) × (entries.new.items ≡ entries.old.items) }
    ensures capacity { vec_capacity entries.old ≤ vec_capacity entries.new }
{
    if entries.len() == ENTRIES_PER_SECTOR {
        entries.clear();
        full + 1
    } else {
        full
    }
}

/// Writes the sector that the list ends in and those after it, in order, with these inputs after
/// the last entries, and syncs. Answers how many sectors are full then.
pub(crate) fn write_inputs<D: SectorDevice>(
    device: &mut D,
    full: u64,
    tail: &mut Vec<StoredEntry>,
    more: &[Entry],
) -> Result<u64, DeviceFault>
    requires room { entries_per_sector ≤ vec_capacity tail.old }
    requires short { length tail.old.items < entries_per_sector }
    requires good { AreGood tail.old.items }
    requires input { all_input more.now }
    requires fits { length (with_inputs tail.old.items more.now) ≤
        entries_per_sector * (list_sectors_in (length (D.disk device.old).sectors) - full) }
    requires placed { full ≤ list_sectors_in (length (D.disk device.old).sectors) }
    requires some { 1 ≤ length (D.disk device.old).sectors }
    ensures called { HasCalled (D.disk device.old) (D.disk device.new) result }
    ensures capacity { vec_capacity tail.old ≤ vec_capacity tail.new }
    ensures packed { IfOk result (λ now. HasPacked full (with_inputs tail.old.items more.now) now tail.new.items) }
    ensures moments { (D.disk device.old).honest → Settled (D.disk device.old) →
        (let old = (D.disk device.old).sectors in let new = grown_image full (with_inputs tail.old.items more.now) old
        in
        HoldsThroughout (D.disk device.old) (D.disk device.new) (Mixed old new) (Mixed old new)) }
    ensures written { OnOk result ((D.disk device.old).honest → Settled (D.disk device.old) → 0 < length more.now →
        BlankFrom (D.disk device.old).sectors (1 + full + sectors_for (length tail.old.items)) →
        Settled (D.disk device.new) ×
        ((D.disk device.new).sectors ≡
        grown_image full (with_inputs tail.old.items more.now) (D.disk device.old).sectors)) }
{
    let mut full = full;
    let mut done = 0;
    while done < more.len() {
        done += fill(tail, &more[done..]);
        device.write(full + 1, &list_sector((full + 1) as u32, tail))?;
        full = leave_if_full(full, tail);
    }
    sync_once(device)?;
    Ok(full)
}

/// One sync. A failed sync is not retried, since it makes nothing durable.
fn sync_once<D: SectorDevice>(device: &mut D) -> Result<(), DeviceFault>
    ensures called { HasCalled (D.disk device.old) (D.disk device.new) result }
    ensures synced { (D.disk device.old).honest → HasSynced (D.disk device.old) (D.disk device.new) result }
{
    device.sync()
}
