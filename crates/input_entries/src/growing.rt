//! Inputs behind the entries that stand already.
ghost use Rattle.std.specs.Prelude.{◌≡◌, ◌≤◌, ◌+◌, List, length};
ghost use Rattle.input_entries.specs.Inputs.{AllFive};
ghost use Rattle.input_entries.specs.Growing.{lengthens, with_input, with_inputs, last_of};
ghost use Rattle.input_entries.specs.declared.StoredEntry.{StoredEntry};

use crate::counts::run_length;
use crate::inputs::{joins, longer, single};
use crate::{Entry, LONGEST_RUN, StoredEntry};

/// Whether the input is one more frame of this run, which is not the longest.
#[tactic(auto, unfolding(crate::specs::Growing::lengthens))]
pub fn lengthens(last: &StoredEntry, input: &Entry) -> bool
    ensures is { result ≡ lengthens last.now input.now }
    ensures five { length input.now.code ≡ 5 }
{
    if !joins(last, input) {
        return false;
    }
    run_length(last) < LONGEST_RUN
}

/// The last entry.
pub fn last_of(entries: &[StoredEntry]) -> Option<StoredEntry>
    ensures { result ≡ last_of entries.now }
{
    if entries.is_empty() {
        return None;
    }
    Some(entries[entries.len() - 1])
}

/// Adds an input after the last entry, if there is one, and answers how many entries more there
/// are.
fn grow(last: &mut Option<StoredEntry>, input: &Entry) -> usize
    ensures few { result ≤ 1 }
    ensures five { length input.now.code ≡ 5 }
    ensures grown { (list : List StoredEntry) → last_of list ≡ last.old →
        (last_of (with_input list input.now) ≡ last.new) × (length (with_input list input.now) ≡ length list + result) }
{
    let Some(run) = *last else {
        *last = Some(single(input));
        return 1;
    };
    if lengthens(&run, input) {
        *last = Some(longer(&run));
        return 0;
    }
    *last = Some(single(input));
    1
}

/// How many entries there are once these inputs are added: a frame lengthens the last run if it is
/// equal, and every other input is an entry of its own.
pub fn grown_length(entries: &[StoredEntry], more: &[Entry]) -> usize
    ensures length { result ≡ length (with_inputs entries.now more.now) }
    ensures few { result ≤ length entries.now + length more.now }
    ensures five { AllFive more.now }
{
    let mut count = entries.len();
    let mut last = last_of(entries);
    for input in more {
        count += grow(&mut last, input);
    }
    count
}
