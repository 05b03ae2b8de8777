//! The first entry of a log that is wrong.
ghost use Rattle.std.specs.Prelude.{◌≡◌, ◌≤◌, ◌<◌, length};
ghost use Rattle.log_format.specs.Inputs.{first_wrong};
ghost use Rattle.log_format.specs.Sizes.{most_entries_read};

use crate::sizes::MOST_INPUTS;
use input_entries::{StoredEntry, inputs_of};

/// The index of the first entry of a log that is not an input, or with which there would be more
/// than 216,000 inputs; `None` if there is none.
pub fn first_wrong(log: &[StoredEntry]) -> Option<u32>
    requires { length log.now ≤ most_entries_read }
    ensures { result ≡ first_wrong log.now }
{
    let mut before = 0;
    for (index, entry) in log.iter().enumerate() {
        let inputs = inputs_of(entry);
        if inputs == 0 {
            return Some(index as u32);
        }
        if inputs > MOST_INPUTS - before {
            return Some(index as u32);
        }
        before += inputs;
    }
    None
}
