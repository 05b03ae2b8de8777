//! The bytes of the device's sectors.
ghost use Rattle.std.specs.Prelude.{◌≡◌, ◌≤◌, ◌<◌, ◌^◌, length};
ghost use Rattle.recording.specs.Format.{head, list_sector};
ghost use Rattle.recording.specs.Sizes.{entries_per_sector};

use input_entries::StoredEntry;

/// The head of a recording of the ROM with this SHA-256.
#[tactic(auto, unfolding(crate::specs::Format::head))]
pub(crate) fn head_sector(id: &[u8; 32]) -> [u8; 512]
    ensures { result ≡ head id.now }
{
    let mut sector = [0; 512];
    sector[..12].copy_from_slice(b"GBKPRECD\x01\x00\x00\x00");
    sector[12..44].copy_from_slice(id);
    sector
}

/// The sector with this number and these entries; blank if there are none.
#[tactic(auto, unfolding(crate::specs::Format::list_sector))]
pub(crate) fn list_sector(number: u32, entries: &[StoredEntry]) -> [u8; 512]
    requires { length entries.now ≤ entries_per_sector }
    ensures { result ≡ list_sector number entries.now }
{
    let mut sector = [0; 512];
    if entries.is_empty() {
        return sector;
    }
    sector[..4].copy_from_slice(b"GBR1");
    sector[4..8].copy_from_slice(&number.to_le_bytes());
    sector[8..10].copy_from_slice(&(entries.len() as u16).to_le_bytes());
    for (i, entry) in entries.iter().enumerate() {
        sector[10 + 6 * i..16 + 6 * i].copy_from_slice(&entry.code);
    }
    sector
}
