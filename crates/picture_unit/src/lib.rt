//! The picture unit (PPU) of the Game Boy: registers, VRAM, OAM, the rows of shades, and n M-cycles
//! at once.
#![tactic(auto)]

mod late_picture;
mod laws;
mod pgm;
mod picture;
mod region;
mod registers;
mod rows;
mod state;

pub use exact_text::OutputFailed;
pub use late_picture::LatePicture;
pub use laws::{
    drawn_line_holds_its_pixels, frame_has_17556_cycles, picture_requests_are_added,
    stat_is_requested_at_rises, window_counter_counts_lines,
};
pub use picture_lines::{map_shades, tile_colours};
pub use region::PictureRegion;
pub use registers::{LCDC, LYC, STAT};
pub use state::{PictureRequests, PictureState};
