//! Whole lives of a game: any number of rounds of play, each cut at any call of the device of its SAVE, or of that of a recording of its
//! inputs, with any of the unsynced writes of both kept.
//!
//! What a life is, as the history of these files, is defined by `IsLife` in `specs/Lives.antt`.
#![tactic(auto)]

mod devices;
pub mod error;
pub mod laws;
mod lines;
mod lives;
mod player;
mod rounds;

pub use devices::Devices;
pub use error::{LifeError, LifeRefused};
pub use lines::Lines;
pub use lives::{Lived, live};
pub use player::{Game, Given, Player, Stopped};
pub use rounds::{Round, RoundEnd};
