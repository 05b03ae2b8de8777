//! What the sectors of a log hold, written and read without any device: a root that names a
//! generation, and an area with the entries of the log and a blob (a checkpoint).
#![tactic(auto)]

mod content;
mod entries;
mod format;
mod laws;
mod logged;
mod parse;
mod root;
mod sizes;

pub use content::{Found, Header, Part, counted};
pub use entries::{add_inputs, grown_length};
pub use format::{area_sector, log_sector, root_sector};
pub use laws::{
    a_found_blob_fits, a_found_blob_has_its_length, a_log_of_inputs_counts_them,
    a_log_of_inputs_has_none_wrong, a_write_outside_keeps_the_content, an_append_adds_a_prefix,
};
pub use logged::first_wrong;
pub use parse::{newer, parse_root, read_entries};
pub use root::{Root, Version, area_length, last_generation, sectors_needed};
pub use sizes::{
    ENTRIES_PER_SECTOR, LOG_SECTORS_PER_AREA, MOST_ENTRIES, MOST_ENTRIES_READ, MOST_INPUTS,
};
