//! Inputs as entries of a log.
ghost use Rattle.std.specs.Prelude.{◌≡◌, ◌↔◌, ◌≤◌, ◌<◌, ◌+◌, ◌^◌, ◌++◌, true, IsTrue, length, take, drop, vec_capacity};
ghost use Rattle.input_entries.specs.Inputs.{all_input, all_entries, inputs, AllFive};
ghost use Rattle.input_entries.specs.Growing.{with_input};
ghost use Rattle.log_format.specs.Appends.{grown};
ghost use Rattle.log_format.specs.Sizes.{most_entries, most_inputs};

use crate::sizes::ENTRIES_PER_SECTOR;
use input_entries::{Entry, StoredEntry, lengthens, longer, single};

/// Adds one input; the first `sealed` entries stay as they are.
fn add_input(log: &mut Vec<StoredEntry>, sealed: usize, input: &Entry)
    requires sealed { sealed ≤ length log.old.items }
    requires room { length (with_input (drop sealed log.old.items) input.now) + sealed ≤ vec_capacity log.old }
    ensures items { log.new.items ≡ take sealed log.old.items ++ with_input (drop sealed log.old.items) input.now }
    ensures capacity { vec_capacity log.old ≤ vec_capacity log.new }
    ensures five { length input.now.code ≡ 5 }
{
    let count = log.len();
    if count > sealed {
        let last = log[count - 1];
        if lengthens(&last, input) {
            log[count - 1] = longer(&last);
            return;
        }
    }
    log.push_reserved(single(input));
}

/// Adds inputs after the entries of full sectors, which stay as they are: a frame lengthens the
/// last run of the sector that is not full where it is equal, and every other input is an entry of
/// its own. The log has room for its new entries (`grown_length` says how many), and stands for no
/// more than 216,000 inputs with the new ones.
pub fn add_inputs(log: &mut Vec<StoredEntry>, more: &[Entry])
    requires room { length (grown log.old.items more.now) ≤ vec_capacity log.old }
    requires entries { all_entries log.old.items }
    requires few { length (inputs log.old.items) + length more.now ≤ most_inputs }
    requires input { all_input more.now }
    ensures items { log.new.items ≡ grown log.old.items more.now }
    ensures capacity { vec_capacity log.old ≤ vec_capacity log.new }
    ensures five { AllFive more.now }
{
    let sealed = log.len() / ENTRIES_PER_SECTOR * ENTRIES_PER_SECTOR;
    for input in more {
        add_input(log, sealed, input);
    }
}

/// How many entries a log has once `add_inputs` has added these inputs. The log has no more than
/// `MOST_ENTRIES` entries, and the new inputs are no more than 216,000.
pub fn grown_length(log: &[StoredEntry], more: &[Entry]) -> usize
    requires log { length log.now ≤ most_entries }
    requires more { length more.now ≤ most_inputs }
    ensures { result ≡ length (grown log.now more.now) }
{
    let sealed = log.len() / ENTRIES_PER_SECTOR * ENTRIES_PER_SECTOR;
    sealed + input_entries::grown_length(&log[sealed..], more)
}
