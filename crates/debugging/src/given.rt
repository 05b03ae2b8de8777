//! The next line of an input, with the bytes that it asks for.

ghost use Rattle.std.specs.Prelude.{◌≡◌, length, true};
ghost use Rattle.cartridge.specs.Header.{ram_length_of};
ghost use Rattle.snapshot.specs.Encoding.{snapshot_length};
ghost use Rattle.input_lines.specs.Reading.{left_of};
ghost use Rattle.debugging.specs.Orders.{asked};
ghost use Rattle.debugging.specs.NextGiven.{IsNextGiven, given_by};

use crate::order::read_restore;
use arrayvec::ArrayVec;
use cartridge::Cartridge;
use input_lines::{LineInput, NextLine, Unread, next_line};
use machine_lines::{TakenState, take_state};

/// What comes next.
#[derive(Drop)]
pub(crate) enum NextGiven {
    /// A line that asks for no bytes, without its newline.
    Line(ArrayVec<u8, 512>),
    /// `restore N` and N bytes, which are a state of the cartridge by their header and their number.
    State,
    /// A line of more than 512 bytes; or `restore N` and N bytes, which are no state of the cartridge.
    Wrong,
    /// `restore N` and fewer bytes, up to the end of the input.
    Last,
    /// The end of the input.
    End,
    /// A read failed.
    Failed,
}

/// How many bytes a line asks for.
fn asked(line: &[u8]) -> u32
    ensures { result ≡ asked line.now }
{
    match read_restore(line) {
        Some(size) => size,
        None => 0,
    }
}

/// What comes next, by how the state behind a `restore` was taken.
fn given_by(taken: TakenState) -> NextGiven
    ensures given { result ≡ given_by taken }
{
    match taken {
        TakenState::Snapshot => NextGiven::State,
        TakenState::Other | TakenState::Nothing => NextGiven::Wrong,
        TakenState::End => NextGiven::Last,
        TakenState::Failed => NextGiven::Failed,
    }
}

/// Reads the next line, and the bytes that it asks for: the snapshot of `State` stands in `snapshot` then. Condition: it has as many bytes as one of
/// the cartridge.
pub(crate) fn next_given<R: LineInput>(
    unread: &mut Unread,
    input: &mut R,
    snapshot: &mut [u8],
    cartridge: &Cartridge,
) -> NextGiven
    requires { length snapshot.old ≡ snapshot_length (ram_length_of cartridge.now) }
    ensures given { IsNextGiven result cartridge.now snapshot.new (left_of unread.old.items (R.remaining input.old))
        (left_of unread.new.items (R.remaining input.new))
        (R.remaining input.new) }
    ensures room { length snapshot.new ≡ length snapshot.old }
    ensures failed { result ≡ NextGiven.Failed → R.has_failed input.new ≡ true }
{
    match next_line(unread, input) {
        NextLine::Line(line) => {
            let size = asked(line.as_slice());
            if size == 0 {
                return NextGiven::Line(line);
            }
            given_by(take_state(unread, input, size as usize, snapshot, cartridge))
        }
        NextLine::TooLong => NextGiven::Wrong,
        NextLine::End => NextGiven::End,
        NextLine::Failed => NextGiven::Failed,
    }
}
