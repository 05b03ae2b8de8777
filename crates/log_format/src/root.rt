//! The root of a generation.
ghost use Rattle.std.specs.Prelude.{◌≡◌, ◌≤◌, ◌-◌, ◌/◌};
ghost use Rattle.log_format.specs.Content.{last_generation, need};

use crate::sizes::LOG_SECTORS_PER_AREA;

/// The two forms of a log's sectors. New generations are written in the second.
#[derive(Clone, Copy)]
pub enum Version {
    One,
    Two,
}

/// What a valid root says.
#[derive(Clone, Copy)]
pub struct Root {
    pub version: Version,
    /// One greater with each new root.
    pub generation: u64,
    /// Given when the log is begun.
    pub id: [u8; 32],
    /// The count of inputs before the blob.
    pub base: u64,
    /// In bytes.
    pub blob_length: u32,
}

/// The generation of the chosen root; 0 if there is none.
pub fn last_generation(root: Option<Root>) -> u64
    ensures { result ≡ last_generation root }
{
    match root {
        Some(root) => root.generation,
        None => 0,
    }
}

/// How many sectors a device needs for a blob of this many bytes: two roots, and two areas of 32
/// log sectors and the blob's sectors.
pub fn sectors_needed(blob_length: u32) -> u64
    ensures { result ≡ need blob_length }
{
    2 + 2 * (LOG_SECTORS_PER_AREA + (blob_length as u64 + 511) / 512)
}

/// The sectors of each of the two areas of a device with this many sectors, two or more: half of
/// those after the two roots, rounded down.
pub fn area_length(count: u64) -> u64
    requires { 2 ≤ count }
    ensures { result ≡ (count - 2) / 2 }
{
    (count - 2) / 2
}
