//! The program: words in, files and lines out. What a command does with the bytes of its files is a call of `commands`.
//!
//! `run` is the whole program over any runtime, any input and any two outputs.
#![tactic(auto)]

mod batteries;
mod begun;
mod debugs;
mod files;
mod games;
mod laws;
mod making;
mod marks;
pub mod program;
mod recordings;
mod reporting;
mod testing;
mod words;

pub use laws::{new_files_stand_together, nothing_more_happens};
pub use program::{run, run_program};
