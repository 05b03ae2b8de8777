//! A blob (a checkpoint) followed by a log of inputs, on a device of sectors: a power cut of the
//! host at any moment leaves the old content or the new one, and of an append a prefix.
#![tactic(auto)]

mod fault;
mod generation;
mod opened;
mod opening;
mod reading;
mod store;
mod writes;

pub use fault::LogFault;
pub use input_entries::{Entry, Logged, StoredEntry, are_inputs};
pub use log_format::{
    Found, Header, Part, a_found_blob_fits, a_found_blob_has_its_length,
    a_log_of_inputs_counts_them, a_log_of_inputs_has_none_wrong, a_write_outside_keeps_the_content,
    an_append_adds_a_prefix, first_wrong, sectors_needed,
};
pub use opened::Opened;
pub use opening::open_log;
pub use store::Store;
