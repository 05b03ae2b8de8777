//! Runs a test ROM until it says that it is done: what it sends over the serial port, where it ended, and whether it passed.
//!
//! What a run writes is defined in `specs/Tested.antt` and `specs/Text.antt`, and when it has passed in `specs/Verdict.antt`.
#![tactic(auto)]

mod ends;
pub mod error;
mod frame;
mod run;
mod told;
pub mod verdict;
mod writing;

pub use ends::End;
pub use error::TestError;
pub use run::run_test;
pub use verdict::Verdict;
