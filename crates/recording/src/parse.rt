//! What the bytes of sectors say.
ghost use Rattle.std.specs.Prelude.{◌≡◌, ◌≤◌, ◌+◌, ◌++◌, length, take, drop, true, if◌then◌else◌, vec_capacity};
ghost use Rattle.std.specs.List.{list_all};
ghost use Rattle.input_entries.specs.Inputs.{is_entry};
ghost use Rattle.recording.specs.Keeping.{AreGood};
ghost use Rattle.recording.specs.Format.{is_head, is_head_of, has_front, count_in, entries_from, entries_at, stored};
ghost use Rattle.recording.specs.Sizes.{entries_per_sector};

use crate::sizes::ENTRIES_PER_SECTOR;
use input_entries::{StoredEntry, begins_with, inputs_of, is_zeros, u16_at, u32_at};

/// Whether the sector is the head of a recording.
#[tactic(auto, unfolding(crate::specs::Format::is_head))]
pub(crate) fn is_head(sector: &[u8; 512]) -> bool
    ensures { result ≡ is_head sector.now }
{
    if !begins_with(b"GBKPRECD\x01\x00\x00\x00", sector) {
        return false;
    }
    is_zeros(&sector[44..])
}

/// Whether a head is that of this ROM.
pub(crate) fn has_id(id: &[u8; 32], sector: &[u8; 512]) -> bool
    requires { is_head sector.now ≡ true }
    ensures { result ≡ is_head_of id.now sector.now }
{
    begins_with(id, &sector[12..])
}

/// How many entries a sector has whose front is right for this number; 0 if it is not.
#[tactic(auto, unfolding(crate::specs::Format::has_front))]
fn entry_count(number: u32, sector: &[u8; 512]) -> u16
    ensures count { result ≡ (if has_front number sector.now then count_in sector.now else 0) }
    ensures few { result ≤ entries_per_sector }
{
    if !begins_with(b"GBR1", sector) {
        return 0;
    }
    let count = u16_at(sector, 8);
    if u32_at(sector, 4) != number {
        return 0;
    }
    if count == 0 {
        return 0;
    }
    if count > ENTRIES_PER_SECTOR as u16 {
        return 0;
    }
    count
}

/// An entry as it is read.
fn read_entry(bytes: &[u8]) -> StoredEntry
    requires { length bytes.now ≡ 6 }
    ensures { result ≡ stored bytes.now }
{
    StoredEntry {
        code: [bytes[0], bytes[1], bytes[2], bytes[3], bytes[4], bytes[5]],
    }
}

/// Reads that many entries.
fn read_all(entries: &mut Vec<StoredEntry>, count: u16, sector: &[u8; 512])
    requires few { count ≤ entries_per_sector }
    requires room { entries_per_sector ≤ vec_capacity entries.old }
    ensures items { entries.new.items ≡ entries_from count (drop 10 sector.now) }
    ensures capacity { vec_capacity entries.old ≤ vec_capacity entries.new }
{
    entries.clear();
    for i in 0..count {
        let at = 10 + 6 * i as usize;
        entries.push_reserved(read_entry(&sector[at..at + 6]));
    }
}

/// Whether each entry is an input.
fn are_entries(entries: &[StoredEntry]) -> bool
    ensures { result ≡ list_all is_entry entries.now }
{
    for entry in entries {
        if inputs_of(entry) == 0 {
            return false;
        }
    }
    true
}

/// Reads the entries of a sector with this number; none if it is not valid.
pub(crate) fn read_entries(entries: &mut Vec<StoredEntry>, number: u32, sector: &[u8; 512])
    requires { entries_per_sector ≤ vec_capacity entries.old }
    ensures items { entries.new.items ≡ entries_at number sector.now }
    ensures capacity { vec_capacity entries.old ≤ vec_capacity entries.new }
    ensures few { length entries.new.items ≤ entries_per_sector }
    ensures good { AreGood entries.new.items }
{
    let count = entry_count(number, sector);
    read_all(entries, count, sector);
    if are_entries(entries) {
        return;
    }
    entries.clear();
}
