//! Plays that are recorded: a session over a SAVE, and beside it a recording of every input since
//! power-on on a device of its own. A save writes the unsaved inputs to the recording first, and
//! only then saves the session: whatever a power cut leaves of both devices, the machine of the
//! SAVE is the one after the first inputs of the recording (`Agrees` of `replaying`).
#![tactic(auto)]

mod catching_up;
pub mod error;
mod recorded;
pub mod recorded_game;
mod saving;
mod taking_up;

pub use error::{RecordError, RecordRefused};
pub use recorded::record;
pub use recorded_game::RecordedGame;
pub use saving::save_both;
pub use taking_up::take_up;
