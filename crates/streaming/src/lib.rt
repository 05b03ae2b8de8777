//! Plays line by line: each line of an input is obeyed and answered as soon as it is read.
#![tactic(auto)]

pub mod error;
pub mod next_order;
mod obeying;
pub mod order;
mod state_room;
mod streamed;

pub use error::StreamError;
pub use obeying::{End, stream_on};
pub use order::{Order, read_order};
pub use state_room::StateRoom;
pub use streamed::stream;
