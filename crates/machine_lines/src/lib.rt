//! What programs that obey lines read and tell of a machine: the words of such lines, looks at it, and states that are kept
//! under numbers.
#![tactic(auto)]

mod kept_states;
mod looks;
mod memory;
mod states;
mod taking;
mod texts;
mod words;

pub use kept_states::KeptStates;
pub use looks::{Look, read_look, shows_picture, write_look};
pub use taking::{TakenState, take_state};
pub use texts::write_count;
pub use words::{read_address, read_hex, read_room, read_size, read_slot};
