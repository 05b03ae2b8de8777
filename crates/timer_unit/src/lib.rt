//! The timer and the serial port of the Game Boy.
//!
//! Both move by M-cycles, any number at once: `pass(n)` is n single M-cycles, in a time that does not grow with n.
#![tactic(auto)]

mod laws;
mod requests;
mod serial;
mod timer;

pub use laws::{
    serial_request_is_added, timer_counts_at_its_rate, timer_request_is_added,
    transfer_takes_1024_cycles,
};
pub use requests::Requests;
pub use serial::{Serial, SerialState};
pub use timer::{Timer, TimerState};
