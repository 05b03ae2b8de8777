//! The sizes of a log and of its sectors.

/// How many entries fill a log sector of version 2, the only one that is written.
pub const ENTRIES_PER_SECTOR: usize = 84;

/// How many entries fill a log sector of version 1, which is only read.
pub(crate) const ENTRIES_PER_OLD_SECTOR: usize = 100;

/// The log sectors that an area begins with.
pub const LOG_SECTORS_PER_AREA: u64 = 32;

/// The most entries of a log that is written.
pub const MOST_ENTRIES: usize = ENTRIES_PER_SECTOR * LOG_SECTORS_PER_AREA as usize;

/// The most entries that are read of a log, of either version.
pub const MOST_ENTRIES_READ: usize = ENTRIES_PER_OLD_SECTOR * LOG_SECTORS_PER_AREA as usize;

/// The most inputs that a log stands for.
pub const MOST_INPUTS: u32 = 216_000;
