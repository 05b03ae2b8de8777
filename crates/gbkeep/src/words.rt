//! What the words of the program ask for.

ghost use Rattle.std.specs.Prelude.{◌≡◌, ◌==◌, List, map, slice_index};
ghost use Rattle.std.specs.Option.{SomeIff};
ghost use Rattle.std.specs.Str.Parse.{digits_value};
ghost use Rattle.clap.specs.Words.{HasKind, fault_of, kind_of};
ghost use Rattle.command_line.specs.Commands.{gbkeep as command};
ghost use Rattle.command_line.specs.Words.{AskForSome, Word as WordText};
ghost use Rattle.gbkeep.specs.Program.{IsReading};
ghost use Rattle.gbkeep.specs.Request.{IsAddress};

use clap::Error;
use clap::error::ErrorKind;
use command_line::{Request, request_of};
use refusals::Refusal;
use std::alloc::Global;
use std::convert::AsStr;

/// What is asked for. `clap`'s texts are its own.
#[derive(Drop)]
pub(crate) enum Asked<'a> {
    Command(Request<'a>),
    /// Help, which is this text.
    Help(Error),
    /// Nothing that is understood; the text says why.
    Misuse(Error),
    /// No request of words that `clap` takes, which does not come.
    OutOfRange,
}

/// What the words ask for, the first of which is the program's own name. `Err`: `Memory`.
pub(crate) fn read_words<'a, S: AsStr>(alloc: Global, words: &'a [S]) -> Result<Asked<'a>, Refusal>
    ensures { IsReading (map S.text words.entry.now) result }
{
    match request_of(alloc, words) {
        Ok(Some(request)) => Ok(Asked::Command(request)),
        Ok(None) => Ok(Asked::OutOfRange),
        Err(error) => read_error(error),
    }
}

/// What `clap` answers where it finds no request.
fn read_error<'a>(error: Error) -> Result<Asked<'a>, Refusal>
    ensures { (words : List WordText) → HasKind (fault_of command words) error
        → (AskForSome words → kind_of error ≡ ErrorKind.OutOfMemory) → IsReading words result }
{
    if error.kind() == ErrorKind::OutOfMemory {
        return Err(Refusal::Memory);
    }
    if error.use_stderr() {
        Ok(Asked::Misuse(error))
    } else {
        Ok(Asked::Help(error))
    }
}

/// The address that one to four hexadecimal digits write, in either case.
pub(crate) fn address_of(text: &str) -> Option<u16>
    ensures { SomeIff result (IsAddress text.now) (digits_value 16 text.now) }
{
    if text.len() > 4 || has_plus(text) {
        return None;
    }
    match u16::from_str_radix(text, 16) {
        Ok(address) => Some(address),
        Err(_) => None,
    }
}

fn has_plus(text: &str) -> bool
    ensures { result ≡ (slice_index text.now 0 == 43) }
{
    text.as_bytes().first() == Some(&b'+')
}
