//! The lines of the picture unit: one pixel by the rules of Pan Docs, and a whole line by cached
//! tile rows.
#![tactic(auto)]

mod bits;
mod by_definition;
mod chosen;
mod kernels;
mod line;
mod object_entry;
mod registers;
mod tiles;

pub use by_definition::{object_at, winner_is_least};
pub use chosen::ChosenObjects;
pub use kernels::{map_shades, tile_colours};
pub use object_entry::Object;
pub use registers::LineRegisters;
pub use tiles::TileMemory;
