//! The memory bank controllers.
#![tactic(auto)]

mod banks;
mod clock;
mod laws;
mod state;
mod window;

pub use banks::Banks;
pub use clock::{ClockRegister, ClockRegisters};
pub use laws::{mbc1_never_shows_four_banks, ram_reads_what_was_written};
pub use state::BanksState;
