//! Codes that an export answers itself. The others are those of `Refusal::code`.

/// The code of a call that was done.
pub const DONE: u32 = 0;

/// Want of memory.
pub const NO_MEMORY: u32 = 1;

/// Bytes that are no text of SAVE.time.
pub const NO_TIME: u32 = 22;

/// Room for another number of bytes.
pub const WRONG_LENGTH: u32 = 18;
