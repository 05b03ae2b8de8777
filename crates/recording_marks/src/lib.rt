//! What the mark of a recorded game says, and whether a recording is the one that it means. A mark is a file of two or three lines: the
//! recording's name, `gbkeep record`, and how many inputs the game had when it was last taken up, with the SHA-256 of these inputs.
#![tactic(auto)]

mod hashing;
mod knowing;
#[cfg(test)]
mod tests;
mod text;

pub use knowing::{Known, Looked, MarkFault, known_of};
pub use text::{Mark, SECOND_LINE, known_line, read_mark};
