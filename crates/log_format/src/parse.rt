//! What the bytes of sectors say.
ghost use Rattle.std.specs.Prelude.{◌≡◌, ◌==◌, ◌≤◌, ◌<◌, ◌+◌, ◌*◌, ◌++◌, length, take, drop, Some, None, Bool, true, false, if◌then◌else◌, vec_capacity};
ghost use Rattle.input_entries.specs.Bytes.{begins_with, zeros};
ghost use Rattle.log_format.specs.Log.{stored, width, entries_of_full_sector, count_in, is_log_sector, entries_at};
ghost use Rattle.log_format.specs.Sizes.{entries_per_old_sector};
ghost use Rattle.log_format.specs.Content.{is_valid_root, root_in, root_front, version_in, newer};

use crate::root::{Root, Version};
use crate::sizes::{ENTRIES_PER_OLD_SECTOR, ENTRIES_PER_SECTOR};
use input_entries::{StoredEntry, begins_with, is_zeros, u16_at, u32_at, u64_at};

fn id_at(sector: &[u8; 512]) -> [u8; 32]
    ensures { result ≡ take 32 (drop 20 sector.now) }
{
    let mut id = [0; 32];
    id.copy_from_slice(&sector[20..52]);
    id
}

fn root_front(version: Version) -> [u8; 12]
    ensures { result ≡ root_front version }
{
    match version {
        Version::One => *b"GBKPROOT\x01\x00\x00\x00",
        Version::Two => *b"GBKPROOT\x02\x00\x00\x00",
    }
}

fn version_in(sector: &[u8; 512]) -> Version
    ensures { result ≡ version_in sector.now }
{
    if begins_with(&root_front(Version::One), sector) {
        Version::One
    } else {
        Version::Two
    }
}

/// The root that the sector of a slot, 0 or 1, holds, of either version. `None` if there is none:
/// another magic or version, a byte from 64 on that is not zero, or a generation that belongs in the
/// other slot.
pub fn parse_root(slot: u64, sector: &[u8; 512]) -> Option<Root>
    ensures { result ≡ (if is_valid_root slot sector.now then Some (root_in sector.now) else None) }
{
    let version = version_in(sector);
    if !begins_with(&root_front(version), sector) {
        return None;
    }
    if !is_zeros(&sector[64..]) {
        return None;
    }
    let root = Root {
        version,
        generation: u64_at(sector, 12),
        id: id_at(sector),
        base: u64_at(sector, 52),
        blob_length: u32_at(sector, 60),
    };
    if root.generation % 2 != slot {
        return None;
    }
    Some(root)
}

/// The root with the greater generation; `a` if they have the same.
pub fn newer(a: Option<Root>, b: Option<Root>) -> Option<Root>
    ensures { result ≡ newer a b }
{
    match (a, b) {
        (Some(a), Some(b)) => {
            if a.generation < b.generation {
                Some(b)
            } else {
                Some(a)
            }
        }
        (Some(a), None) => Some(a),
        (None, b) => b,
    }
}

/// An entry as it is read.
fn read_entry(version: Version, bytes: &[u8]) -> StoredEntry
    requires { length bytes.now ≡ width version }
    ensures { result ≡ stored version bytes.now }
{
    let mut code = [0; 6];
    match version {
        Version::Two => code.copy_from_slice(bytes),
        Version::One => {
            if bytes[0] == 0 {
                let times = if is_zeros(&bytes[2..]) { 1 } else { 0 };
                return StoredEntry {
                    code: [0, bytes[1], times, 0, 0, 0],
                };
            }
            code[..5].copy_from_slice(bytes);
        }
    }
    StoredEntry { code }
}

fn room(version: Version) -> u16
    ensures { result ≡ entries_of_full_sector version }
{
    match version {
        Version::One => ENTRIES_PER_OLD_SECTOR as u16,
        Version::Two => ENTRIES_PER_SECTOR as u16,
    }
}

fn size(version: Version) -> usize
    ensures { result ≡ width version }
{
    match version {
        Version::One => 5,
        Version::Two => 6,
    }
}

/// How many entries a sector at this index of the log has.
fn entry_count(version: Version, index: u16, sector: &[u8; 512]) -> u16
    ensures count { result ≡ (if is_log_sector version index sector.now then count_in sector.now else 0) }
    ensures few { result ≤ entries_of_full_sector version }
{
    let magic = match version {
        Version::One => b"GBL1",
        Version::Two => b"GBL2",
    };
    if !begins_with(magic, sector) {
        return 0;
    }
    let count = u16_at(sector, 6);
    if u16_at(sector, 4) != index {
        return 0;
    }
    if count == 0 {
        return 0;
    }
    if count > room(version) {
        return 0;
    }
    count
}

/// Adds the entries of a sector at this index of a log of this version, none if it is no valid log
/// sector there, and answers whether the sector is full. The log has room for 100 entries more.
pub fn read_entries(
    log: &mut Vec<StoredEntry>,
    version: Version,
    index: u16,
    sector: &[u8; 512],
) -> bool
    requires { length log.old.items + entries_per_old_sector ≤ vec_capacity log.old }
    ensures items { log.new.items ≡ log.old.items ++ entries_at version index sector.now }
    ensures capacity { vec_capacity log.old ≤ vec_capacity log.new }
    ensures few { length log.new.items ≤ length log.old.items + entries_per_old_sector }
    ensures full { result ≡ (length (entries_at version index sector.now) == entries_of_full_sector version) }
{
    let count = entry_count(version, index, sector);
    let width = size(version);
    for i in 0..count {
        let at = 8 + width * i as usize;
        log.push_reserved(read_entry(version, &sector[at..at + width]));
    }
    count == room(version)
}
