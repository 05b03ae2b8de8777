//! What a log holds, as it was found.
ghost use Rattle.std.specs.Prelude.{◌≡◌, ◌≤◌, ◌<◌, ◌+◌, ◌^◌, ◌&&◌, ℕ, length, Bool, if◌then◌else◌, nat_lt, nat_le};
ghost use Rattle.input_entries.specs.Inputs.{is_run, is_seconds, run_length, is_entry, inputs_in};
ghost use Rattle.log_format.specs.Inputs.{counted};
ghost use Rattle.log_format.specs.Sizes.{most_entries_read, most_inputs};

use crate::sizes::MOST_INPUTS;
use input_entries::{StoredEntry, inputs_of};

/// What the chosen root says.
#[derive(Clone, Copy, Debug, PartialEq, Eq)]
pub struct Header {
    /// Given when the log is begun: in this project, the SHA-256 of the ROM.
    pub id: [u8; 32],
    /// The count of inputs before the blob.
    pub base: u64,
    /// In bytes.
    pub blob_length: u32,
}

/// Which part of a content is damaged.
#[derive(Clone, Copy, Debug, PartialEq, Eq)]
pub enum Part {
    /// The blob does not fit an area of the device, and the log is not read.
    Length {
        /// The sectors that the device would need.
        need: u64,
    },
    /// The base and the inputs of the log together exceed the greatest `u64`. An entry that is not
    /// an input counts as one.
    Count,
}

/// What is found on a device.
#[derive(Clone, Copy, Debug, PartialEq, Eq)]
pub enum Found {
    /// There is no valid root.
    Nothing,
    Intact(Header),
    Damaged(Header, Part),
}

/// The count once an entry that stands for this many inputs is added.
fn counted_with(count: u64, inputs: u32) -> u64
    requires { count < 2 ^ 32 }
    ensures count { result ≡ count + (if nat_lt 0 inputs && nat_le (count + inputs) most_inputs then inputs else 1) }
    ensures bound { (m : ℕ) → most_inputs ≤ m → count ≤ m → result ≤ m + 1 }
{
    if inputs == 0 {
        return count + 1;
    }
    if count + inputs as u64 > MOST_INPUTS as u64 {
        return count + 1;
    }
    count + inputs as u64
}

/// How many inputs a log of no more than `MOST_ENTRIES_READ` entries counts: one for an entry that
/// is not an input, or with which there would be more than 216,000 inputs.
pub fn counted(log: &[StoredEntry]) -> u64
    requires { length log.now ≤ most_entries_read }
    ensures { result ≡ counted 0 log.now }
{
    let mut count = 0;
    for entry in log {
        count = counted_with(count, inputs_of(entry));
    }
    count
}
