//! Inputs as the entries of sectors.
ghost use Rattle.std.specs.Prelude.{◌≡◌, ◌≤◌, ◌<◌, ◌+◌, ◌^◌, ◌++◌, [], ◌∷◌, List, length, take, drop, true, false, vec_capacity};
ghost use Rattle.input_entries.specs.Inputs.{all_input, is_input, run_length, inputs, single, AllFive};
ghost use Rattle.input_entries.specs.declared.StoredEntry.{StoredEntry};
ghost use Rattle.input_entries.specs.Growing.{lengthens, with_input, with_inputs, last_of};
ghost use Rattle.recording.specs.Growing.{fits};
ghost use Rattle.recording.specs.Keeping.{AreGood};
ghost use Rattle.recording.specs.Sizes.{entries_per_sector};

use crate::sizes::ENTRIES_PER_SECTOR;
use input_entries::{
    Entry, StoredEntry, grown_length, inputs_of, last_of, lengthens, longer, single,
};

/// Adds the input, if the entries are not full or it lengthens the last of them, and answers
/// whether it was added.
fn add_input(entries: &mut Vec<StoredEntry>, input: &Entry) -> bool
    requires short { length entries.old.items ≤ entries_per_sector }
    requires room { entries_per_sector ≤ vec_capacity entries.old }
    requires good { AreGood entries.old.items }
    requires input { is_input input.now ≡ true }
    ensures added { result ≡ true → entries.new.items ≡ with_input entries.old.items input.now }
    ensures short { length entries.new.items ≤ entries_per_sector }
    ensures not_added { result ≡ false →
        (entries.new.items ≡ entries.old.items) × (length entries.old.items ≡ entries_per_sector) ×
        (with_input entries.old.items input.now ≡ entries.old.items ++ single input.now ∷ []) }
    ensures room { entries.old.items ≡ [] → result ≡ true }
    ensures capacity { vec_capacity entries.old ≤ vec_capacity entries.new }
    ensures good { AreGood entries.new.items }
    ensures five { length input.now.code ≡ 5 }
{
    let Some(last) = last_of(entries) else {
        entries.push_reserved(single(input));
        return true;
    };
    if lengthens(&last, input) {
        let end = entries.len() - 1;
        entries[end] = longer(&last);
        return true;
    }
    if entries.len() == ENTRIES_PER_SECTOR {
        return false;
    }
    entries.push_reserved(single(input));
    true
}

/// Adds as many of the inputs as the sector takes, at least one, and answers how many.
pub(crate) fn fill(entries: &mut Vec<StoredEntry>, more: &[Entry]) -> usize
    requires short { length entries.old.items < entries_per_sector }
    requires room { entries_per_sector ≤ vec_capacity entries.old }
    requires good { AreGood entries.old.items }
    requires input { all_input more.now }
    ensures count { result ≤ length more.now }
    ensures some { 0 < length more.now → 0 < result }
    ensures short { length entries.new.items ≤ entries_per_sector }
    ensures items { entries.new.items ≡ with_inputs entries.old.items (take result more.now) }
    ensures full { result < length more.now → (length entries.new.items ≡ entries_per_sector) ×
        (with_inputs entries.old.items more.now ≡ entries.new.items ++ with_inputs [] (drop result more.now)) }
    ensures capacity { vec_capacity entries.old ≤ vec_capacity entries.new }
    ensures good { AreGood entries.new.items }
    ensures five { AllFive (take result more.now) }
{
    for (i, input) in more.iter().enumerate() {
        if !add_input(entries, input) {
            return i;
        }
    }
    more.len()
}

/// Whether the entries after the full sectors, with these inputs after them, fit this many sectors.
#[tactic(auto, unfolding(crate::specs::Growing::fits))]
pub(crate) fn fits(entries: &[StoredEntry], sectors: u64, more: &[Entry]) -> bool
    requires few { length entries.now ≤ entries_per_sector }
    requires sectors { sectors < 2 ^ 32 }
    ensures fits { result ≡ fits entries.now sectors more.now }
    ensures five { AllFive more.now }
{
    grown_length(entries, more) as u64 <= ENTRIES_PER_SECTOR as u64 * sectors
}

/// How many inputs the entries of one sector stand for.
pub(crate) fn count_inputs(entries: &[StoredEntry]) -> u64
    requires few { length entries.now ≤ entries_per_sector }
    requires good { AreGood entries.now }
    ensures count { result ≡ length (inputs entries.now) }
    ensures few { result ≤ 17928000 }
{
    let mut count = 0;
    for entry in entries {
        count += inputs_of(entry) as u64;
    }
    count
}
