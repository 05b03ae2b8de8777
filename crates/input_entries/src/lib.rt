//! Inputs of a game as they are given and as they are kept: a frame with buttons or seconds of the
//! clock, and an entry of six bytes for a run of equal frames or for seconds.
#![tactic(auto)]

mod bytes;
mod counts;
mod growing;
mod inputs;
mod logged;

pub use bytes::{begins_with, is_zeros, u16_at, u32_at, u64_at};
pub use counts::{inputs_of, run_length};
pub use growing::{grown_length, last_of, lengthens};
pub use inputs::{are_inputs, longer, single};
pub use logged::Logged;

/// One input, as it is given: `00`, buttons and three zeros for a frame, or `01` and the seconds,
/// low byte first.
#[derive(Clone, Copy, Debug, PartialEq, Eq)]
pub struct Entry {
    /// The kind, 0 or 1, and its data.
    pub code: [u8; 5],
}

/// One entry, as it is kept: `00`, buttons and a length, low byte first, for a run of equal frames,
/// or `01`, the seconds, low byte first, and `00`.
#[derive(Clone, Copy)]
pub struct StoredEntry {
    /// The kind, 0 or 1, and its data. An entry of version 1 of a log is kept in this form too.
    pub code: [u8; 6],
}

/// The most frames of one run.
pub const LONGEST_RUN: u32 = 216_000;
