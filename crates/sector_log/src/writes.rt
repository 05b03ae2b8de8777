//! Runs of writes, one device call per turn, and the sync after them.
ghost use Rattle.std.specs.Prelude.{◌≡◌, ◌≤◌, ◌<◌, ◌+◌, ◌*◌, ◌/◌, ◌^◌, ℕ, length, take, drop, OnOk};
ghost use Rattle.sector_device.specs.DiskState.{HasCalled, HasSynced, Settled, sector_at};
ghost use Rattle.sector_device.specs.Runs.{HoldsThroughout, Mixed, WrittenUpTo};
ghost use Rattle.log_format.specs.Log.{log_area, fresh_area};
ghost use Rattle.sector_log.specs.Layout.{replaced};
ghost use Rattle.log_format.specs.Sizes.{entries_per_sector, log_sectors_per_area, most_entries};

use crate::StoredEntry;
use log_format::{ENTRIES_PER_SECTOR, LOG_SECTORS_PER_AREA, area_sector, log_sector};
use sector_device::{DeviceFault, SectorDevice};

/// The entries in the log's sector at this index.
fn chunk(log: &[StoredEntry], index: u16) -> &[StoredEntry]
    requires { length log.now ≤ most_entries }
    ensures { result.now ≡ take entries_per_sector (drop (entries_per_sector * index) log.now) }
{
    let from = (ENTRIES_PER_SECTOR * index as usize).min(log.len());
    let to = (from + ENTRIES_PER_SECTOR).min(log.len());
    &log[from..to]
}

/// Writes the sectors of a log from the first that changed up to the end, one per turn.
pub(crate) fn write_log<D: SectorDevice>(
    device: &mut D,
    start: u64,
    log: &[StoredEntry],
    first: u16,
    end: u16,
) -> Result<(), DeviceFault>
    requires order { first ≤ end }
    requires end { end ≤ log_sectors_per_area }
    requires room { start + log_sectors_per_area ≤ length (D.disk device.old).sectors }
    requires range { start + log_sectors_per_area < 2 ^ 64 }
    requires log { length log.now ≤ most_entries }

    ensures called { HasCalled (D.disk device.old) (D.disk device.new) result }
    // A stop leaves some of the sectors old and the others new.
    ensures moments { (D.disk device.old).honest → Settled (D.disk device.old) →
        (let old = (D.disk device.old).sectors in let new = replaced start (log_area log.now) old in
        HoldsThroughout (D.disk device.old) (D.disk device.new) (Mixed old new) (Mixed old new)) }
    ensures written { OnOk result ((D.disk device.old).honest → Settled (D.disk device.old) →
        (let old = (D.disk device.old).sectors in let new = replaced start (log_area log.now) old in
        ((k : ℕ) → k < start + first → sector_at old k ≡ sector_at new k) →
        WrittenUpTo old new (start + end) (D.disk device.new).sectors)) }
{
    for index in first..end {
        let entries = chunk(log, index);
        device.write(start + index as u64, &log_sector(index, entries))?;
    }
    Ok(())
}

/// Fills an area with a blank log and a blob, one sector per turn.
pub(crate) fn fill_area<D: SectorDevice>(
    device: &mut D,
    start: u64,
    blob: &[u8],
) -> Result<(), DeviceFault>
    requires size { length blob.now < 2 ^ 32 }
    requires room { start + log_sectors_per_area + (length blob.now + 511) / 512 ≤ length (D.disk device.old).sectors }
    requires range { length (D.disk device.old).sectors < 2 ^ 64 }

    ensures called { HasCalled (D.disk device.old) (D.disk device.new) result }
    ensures moments { (D.disk device.old).honest → Settled (D.disk device.old) →
        (let old = (D.disk device.old).sectors in let new = replaced start (fresh_area blob.now) old in
        HoldsThroughout (D.disk device.old) (D.disk device.new) (Mixed old new) (Mixed old new)) }
    ensures written { OnOk result ((D.disk device.old).honest → Settled (D.disk device.old) →
        (D.disk device.new).sectors ≡ replaced start (fresh_area blob.now) (D.disk device.old).sectors) }
{
    let end = LOG_SECTORS_PER_AREA + (blob.len() as u64 + 511) / 512;
    for index in 0..end {
        device.write(start + index, &area_sector(index, blob))?;
    }
    Ok(())
}

/// One sync. A failed sync is not retried, since it makes nothing durable.
pub(crate) fn sync_once<D: SectorDevice>(device: &mut D) -> Result<(), DeviceFault>
    ensures called { HasCalled (D.disk device.old) (D.disk device.new) result }
    ensures synced { (D.disk device.old).honest → HasSynced (D.disk device.old) (D.disk device.new) result }
{
    device.sync()
}
