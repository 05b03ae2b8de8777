//! The memory map of the Game Boy: all that the processor reaches by address, and the passing of
//! time in it.
//!
//! `Bus` holds the units, the cartridge and the stores. Reads and writes are one equation each by
//! the place that an address names (`specs/Bus.antt`), and n M-cycles are n times one M-cycle of
//! all units (`specs/Ticks.antt`).
#![tactic(auto)]

mod bus;
mod bus_memory;
mod bus_without_memory;
mod control;
mod lasting;
mod late_timer;
mod laws;
mod place;
mod region;

pub use bus::Bus;
pub use bus_without_memory::BusWithoutMemory;
pub use control::Control;
pub use laws::{each_row_of_the_map_is_mapped, oam_holds_the_source_page};
pub use place::Place;
pub use region::Region;
