//! Scripts: text that names the moves of a play session, a line each.
//!
//! `read_script` is proved to give exactly the moves that the definitions in `specs/` read from the
//! bytes, or the number of the first wrong line. What a move does to a machine is told elsewhere.
#![tactic(auto)]

mod cutting;
pub mod error;
mod line;
mod lines;
pub mod moves;

pub use cutting::cut;
pub use error::ScriptError;
pub use line::{digit_in, read_byte, read_count, read_line};
pub use lines::read_script;
pub use moves::Move;
