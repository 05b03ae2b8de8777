//! How many inputs an entry stands for.
ghost use Rattle.std.specs.Prelude.{◌≡◌, length, if◌then◌else◌};
ghost use Rattle.input_entries.specs.Inputs.{is_run, is_seconds, run_length, is_entry, inputs_in};

use crate::{LONGEST_RUN, StoredEntry};

/// The length that the entry has as a run.
pub fn run_length(entry: &StoredEntry) -> u32
    ensures { result ≡ run_length entry.now }
{
    let code = entry.code;
    u32::from_le_bytes([code[2], code[3], code[4], code[5]])
}

pub(crate) fn is_run(entry: &StoredEntry) -> bool
    ensures { result ≡ is_run entry.now }
{
    if entry.code[0] != 0 {
        return false;
    }
    let times = run_length(entry);
    if times == 0 {
        return false;
    }
    times <= LONGEST_RUN
}

pub(crate) fn is_seconds(entry: &StoredEntry) -> bool
    ensures { result ≡ is_seconds entry.now }
{
    if entry.code[0] != 1 {
        return false;
    }
    entry.code[5] == 0
}

/// How many inputs an entry stands for; 0 if it stands for none.
pub fn inputs_of(entry: &StoredEntry) -> u32
    ensures { result ≡ (if is_entry entry.now then length (inputs_in entry.now) else 0) }
{
    if is_run(entry) {
        return run_length(entry);
    }
    if is_seconds(entry) {
        return 1;
    }
    0
}
