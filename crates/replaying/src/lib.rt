//! A recording read back: as a script, and against the SAVE beside which it was made.
//!
//! `write_recorded` writes the inputs of a recording as the lines of a script that asks for them
//! again, and `verify` replays them from power-on and compares the machine with that of the SAVE, all of
//! them or within limits.
#![tactic(auto)]

mod error;
mod laws;
mod lines;
mod replay;
mod run;
mod verifying;
mod writing;

pub use error::{VerifyError, WriteRecordedError};
pub use laws::{new_files_agree, the_script_gives_the_inputs_back};
pub use verifying::{Limits, Verified, verify};
pub use writing::write_recorded;
