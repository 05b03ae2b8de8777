//! Battery files, the `.sav` of other emulators and cartridges: out of a game, and into a machine.
//!
//! What a file holds is defined in `specs/Battery.antt`, and which machine begins with it in `specs/Importing.antt`.
#![tactic(auto)]

mod battery;
mod exporting;
mod importing;
mod laws;

pub use battery::{battery_length, battery_of, has_clock};
pub use exporting::{Exported, export_battery};
pub use importing::{machine_with_battery, refusal_of_file};
pub use laws::{
    a_file_of_ram_comes_back, a_file_with_clocks_comes_back, the_file_of_a_machine_comes_back,
};
