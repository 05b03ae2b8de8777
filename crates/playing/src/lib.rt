//! Plays a script on a device: resumes the game, gives it the moves, saves when a save is due, and
//! reports each save once it is made.
#![tactic(auto)]

mod moves;
mod playable;
mod played;
mod report;

pub use moves::{give, give_power, give_state, make_move, make_moves, save_line};
pub use playable::Playable;
pub use played::play;
pub use report::{Report, Silent, write_resumed, write_saved};
