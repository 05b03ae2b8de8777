//! A machine, and a game that survives power cuts, for a host program: they obey orders over bytes, and say what they did by bytes.
//!
//! Why an order is refused is defined in `specs/Orders.antt`, and what a machine shows in `machine/specs/Looking.antt`. A game hands out the calls that the host has to make on its disk;
//! `specs/Calls.antt` says which disk they lead to.
#![tactic(auto)]

mod console;
mod game;
mod host_device;
mod states;

pub use console::Console;
pub use game::{Game, sectors_of};
pub use host_device::{Call, HostDevice};
