//! A recording: every input of a game since power-on, in a list on a device of sectors to which
//! inputs are only ever appended. A power cut of the host at any moment leaves the old list and a
//! prefix of what is appended.
#![tactic(auto)]

mod fault;
mod format;
mod opening;
mod packing;
mod parse;
mod reading;
mod recording;
mod sizes;
mod writes;

pub use fault::RecordingFault;
pub use opening::{create_recording, open_recording};
pub use recording::Recording;
