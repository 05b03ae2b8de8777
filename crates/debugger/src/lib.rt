//! A debugger: steps of a machine one by one or up to a breakpoint, and the instructions that ran
//! last.
//!
//! The machine steps as it does without a debugger, and reading it changes nothing. Only `new`
//! takes memory, for the history.
#![tactic(auto)]

pub mod breaks;
pub mod debugger;
mod listing;
pub mod registers;
pub mod stepped;
pub mod stop;

pub use breaks::Breaks;
pub use debugger::{Debugger, RunRoom, WatchedStep};
pub use exact_text::OutputFailed;
pub use registers::{RegisterLine, register_line};
pub use stepped::write_stepped;
pub use stop::Stop;
