//! Inputs, and the entries that they become.
ghost use Rattle.std.specs.Prelude.{◌≡◌, ◌↔◌, ◌<◌, ◌+◌, ◌^◌, true, IsTrue, length, drop};
ghost use Rattle.input_entries.specs.Inputs.{is_input, all_input, run_length, single, joins, longer};

use crate::bytes::is_zeros;
use crate::{Entry, StoredEntry};

/// Whether the entry is a frame or seconds.
#[tactic(auto, unfolding(crate::specs::Inputs::is_input))]
fn is_input(entry: &Entry) -> bool
    ensures { result ≡ is_input entry.now }
{
    let code = entry.code;
    if code[0] == 1 {
        return true;
    }
    if code[0] != 0 {
        return false;
    }
    is_zeros(&code[2..])
}

/// Whether each entry is an input, a frame or seconds, as `append` requires.
pub fn are_inputs(entries: &[Entry]) -> bool
    ensures { IsTrue result ↔ all_input entries.now }
{
    for entry in entries {
        if !is_input(entry) {
            return false;
        }
    }
    true
}

/// An entry for one input.
pub fn single(entry: &Entry) -> StoredEntry
    ensures is { result ≡ single entry.now }
    ensures five { length entry.now.code ≡ 5 }
{
    let code = entry.code;
    if code[0] == 0 {
        StoredEntry {
            code: [0, code[1], 1, 0, 0, 0],
        }
    } else {
        StoredEntry {
            code: [code[0], code[1], code[2], code[3], code[4], 0],
        }
    }
}

/// Whether the input is one more frame of the run.
#[tactic(auto, unfolding(crate::specs::Inputs::joins))]
pub(crate) fn joins(last: &StoredEntry, entry: &Entry) -> bool
    ensures is { result ≡ joins last.now entry.now }
    ensures five { length entry.now.code ≡ 5 }
{
    if last.code[0] != 0 {
        return false;
    }
    if entry.code[0] != 0 {
        return false;
    }
    last.code[1] == entry.code[1]
}

/// The run, one frame longer.
pub fn longer(run: &StoredEntry) -> StoredEntry
    requires { run_length run.now + 1 < 2 ^ 32 }
    ensures { result ≡ longer run.now }
{
    let code = run.code;
    let times = u32::from_le_bytes([code[2], code[3], code[4], code[5]]) + 1;
    let bytes = times.to_le_bytes();
    StoredEntry {
        code: [0, code[1], bytes[0], bytes[1], bytes[2], bytes[3]],
    }
}
