//! The clock of a cartridge, which is given the seconds that pass, also while nobody plays.
//!
//! SAVE.time keeps until when it was given, in lines `COUNT SECONDS`: a SAVE with COUNT inputs or more was given the time until SECONDS, in
//! seconds since 1970. Before seconds are given, a line says so with the number that this input will have, and the line before it stays.
//! Dates and moments are values here: no clock is read, and no file is written.
#![tactic(auto)]

mod giving;
mod lives;
mod opening;
#[cfg(test)]
mod tests;
mod text;
mod until;

pub use giving::{Answer, Clock, LAST_SECOND, MOST_SECONDS, YEAR};
pub use lives::{
    Event, Held, Outcome, Session, World, a_cut_loses_what_passed_since_the_save, live,
    no_second_is_given_twice, no_second_of_a_save_is_lost,
};
pub use opening::{Away, NO_FAULT, Played, time_away, where_played};
pub use text::{MOST_BYTES, MOST_LINES, TextFault, lines_text, read_lines};
pub use until::{Line, given_until};
