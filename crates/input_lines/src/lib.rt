//! Lines of an input that are read as they come.
//!
//! A `LineInput` tells whether a read has failed; `CheckedInput` makes one of any reader. What was
//! read and not yet taken stands in an `Unread` of the caller's, so that a line is there as soon as
//! its newline is read. `next_line` takes a line at a time; a protocol with rules of its own
//! for a line that is too long takes lines by `fill`, `line_length` and `drop_first`. Bytes that stand
//! behind a line are taken by `take_bytes`, or by `skip_bytes`. How lines that were taken one after
//! another stand in the input is told by the laws in `proofs/Givings.antt`.
#![tactic(auto)]

mod filling;
mod input;
mod lines;
mod taking;

pub use filling::{Filled, Unread, drop_first, fill, line_length};
pub use input::{CheckedInput, InputFailed, LineInput};
pub use lines::{NextLine, next_line};
pub use taking::{Taken, skip_bytes, take_bytes};
