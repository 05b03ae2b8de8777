//! Inputs as entries of a log.
ghost use Rattle.std.specs.Prelude.{◌≡◌, true};
ghost use Rattle.input_entries.specs.Inputs.{is_input};
ghost use Rattle.machine.specs.Machine.{as_input};
ghost use Rattle.session.specs.Inputs.{entry_of, input_of, no_input};

use machine::Input;
use sector_log::Entry;

/// The entry of an input.
pub(crate) fn entry_of(input: Input) -> Entry
    ensures entry { result ≡ entry_of (as_input input) }
    ensures input { input_of result ≡ as_input input }
    ensures is_input { is_input result ≡ true }
{
    match input {
        Input::Frame(buttons) => Entry::frame(buttons),
        Input::Seconds(seconds) => Entry::seconds(seconds),
    }
}

/// What stands among the unsaved inputs for one that no log holds.
pub(crate) fn no_input() -> Entry
    ensures { result ≡ no_input }
{
    Entry {
        code: [2, 0, 0, 0, 0],
    }
}
