//! Roots, entries and a blob as the bytes of sectors.
ghost use Rattle.std.specs.Prelude.{◌≡◌, ◌≤◌, ◌<◌, ◌+◌, ◌/◌, ◌^◌, ◌-◌, ◌++◌, List, ℕ, length};
ghost use lib.ListN.{replicate};
ghost use Rattle.sector_device.specs.DiskState.{sector_at};
ghost use Rattle.log_format.specs.Content.{root_bytes};
ghost use Rattle.log_format.specs.declared.root.Version.TheVariants.{Two};
ghost use Rattle.log_format.specs.Log.{log_sector, padded, fresh_area};
ghost use Rattle.log_format.specs.Sizes.{entries_per_sector, log_sectors_per_area};

use crate::root::Root;
use crate::sizes::LOG_SECTORS_PER_AREA;
use input_entries::StoredEntry;

/// The log sector at this index of the log with these entries, no more than 84, in the second
/// version; all zeros if there are none.
pub fn log_sector(index: u16, entries: &[StoredEntry]) -> [u8; 512]
    requires { length entries.now ≤ entries_per_sector }
    ensures { result ≡ log_sector index entries.now }
{
    let mut sector = [0; 512];
    if entries.is_empty() {
        return sector;
    }
    sector[..4].copy_from_slice(b"GBL2");
    sector[4..6].copy_from_slice(&index.to_le_bytes());
    sector[6..8].copy_from_slice(&(entries.len() as u16).to_le_bytes());
    for (i, entry) in entries.iter().enumerate() {
        sector[8 + 6 * i..14 + 6 * i].copy_from_slice(&entry.code);
    }
    sector
}

/// A sector with these bytes, and zeros after them.
fn padded_sector(part: &[u8]) -> [u8; 512]
    requires { length part.now ≤ 512 }
    ensures { result ≡ padded part.now }
{
    let mut sector = [0; 512];
    sector[..part.len()].copy_from_slice(part);
    sector
}

/// The sector at this index of an area with a blank log and this blob of less than 4 GiB: 32 blank
/// log sectors, then the blob's, the last of them filled up with zeros. The index is below the count
/// of all these.
pub fn area_sector(index: u64, blob: &[u8]) -> [u8; 512]
    requires size { length blob.now < 2 ^ 32 }
    requires within { index < log_sectors_per_area + (length blob.now + 511) / 512 }
    ensures { result ≡ sector_at (fresh_area blob.now) index }
{
    if index < LOG_SECTORS_PER_AREA {
        return padded_sector(&[]);
    }
    let from = (512 * (index - LOG_SECTORS_PER_AREA)) as usize;
    let to = (from + 512).min(blob.len());
    padded_sector(&blob[from..to])
}

/// Puts bytes after those that are there already, in a sector that is all zeros from `at` on.
fn put(sector: &mut [u8; 512], at: usize, bytes: &[u8])
    requires { at + length bytes.now ≤ 512 }
    ensures { (done : List ℕ) → length done ≡ at → sector.old ≡ done ++ replicate (512 - at) 0 →
        sector.new ≡ done ++ bytes.now ++ replicate (512 - (at + length bytes.now)) 0 }
{
    sector[at..at + bytes.len()].copy_from_slice(bytes);
}

/// The sector of a root of the second version. It belongs in the slot of its generation: sector 0 if
/// that is even, 1 if it is odd.
pub fn root_sector(root: &Root) -> [u8; 512]
    requires { root.now.version ≡ Two }
    ensures { result ≡ root_bytes root.now }
{
    let mut sector = [0; 512];
    put(&mut sector, 0, b"GBKPROOT");
    put(&mut sector, 8, &[2, 0, 0, 0]);
    put(&mut sector, 12, &root.generation.to_le_bytes());
    put(&mut sector, 20, &root.id);
    put(&mut sector, 52, &root.base.to_le_bytes());
    put(&mut sector, 60, &root.blob_length.to_le_bytes());
    sector
}
