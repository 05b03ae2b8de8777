//! Play sessions that survive a power cut: a machine, the inputs that it was given, and a device on
//! which they are kept.
//!
//! What an image of the device stands for, a count of inputs and the machine after them, is defined
//! by `stands` in `specs/Stands.antt`. A session saves by appending its inputs to the log on the
//! device, or by a new generation with a snapshot of its machine. Whatever a power cut leaves
//! stands for a prefix of the inputs that includes every acknowledged one.
#![tactic(auto)]

mod begin;
mod entry;
pub mod error;
pub mod laws;
pub mod look;
mod looking;
mod recovery;
mod resuming;
mod save;
pub mod session;

pub use begin::{machine_at_power_on, new_game, new_game_from, sectors_needed};
pub use error::{Damage, SessionError};
pub use look::Look;
pub use looking::look_at;
pub use resuming::resume;
pub use session::{Counts, MOST_UNSAVED, Session};
