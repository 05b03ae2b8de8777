//! The commands: bytes and devices in, text and devices out.
//!
//! Each is a file here; its text, its refusals and what its clauses say are in the file of the same name in `specs/`.
#![tactic(auto)]

mod copy;
mod debug;
pub mod error;
mod info;
mod list;
mod play;
mod recorded;
mod show;
mod step;
mod stream;
mod trace;
mod verify;

pub use debug::{debug_game, debug_rom};
pub use error::CommandError;
pub use info::info_lines;
pub use list::list_lines;
pub use play::{play_and_draw, play_script};
pub use recorded::recorded_lines;
pub use show::show_lines;
pub use step::step_line;
pub use stream::stream_play;
pub use trace::trace_lines;
pub use verify::{Compared, verify_line};
