//! The sizes of a recording.

/// How many entries fill a sector of the list.
pub(crate) const ENTRIES_PER_SECTOR: usize = 83;

/// The most sectors of a list: their numbers have four bytes and begin with 1.
pub(crate) const MOST_SECTORS: u64 = 0xffff_ffff;
