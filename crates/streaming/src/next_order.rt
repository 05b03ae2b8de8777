//! The next order.
ghost use Rattle.std.specs.Prelude.{◌≡◌, true};
ghost use Rattle.input_lines.specs.Newlines.{first_line, behind_first_line};
ghost use Rattle.input_lines.specs.Reading.{left_of};
ghost use Rattle.streaming.specs.Reading.{IsAsked, IsNext};

use crate::order::{MOST_BYTES, Order, read_order};
use input_lines::{Filled, LineInput, Unread, drop_first, fill, line_length};

/// What comes next.
#[derive(Clone, Copy)]
pub enum Next {
    /// A line, and what it asks for: nothing if it is empty. The bytes that it asks for are not read yet.
    Line(Option<Order>),
    /// A wrong line.
    Wrong,
    /// The end of the input.
    End,
    /// A read failed.
    Failed,
}

/// What a line asks for.
fn next_of_line(line: &[u8], states: bool) -> Next
    ensures { IsAsked states result line.now }
{
    if line.is_empty() {
        return Next::Line(None);
    }
    match read_order(line, states) {
        Some(order) => Next::Line(Some(order)),
        None => Next::Wrong,
    }
}

/// Takes the first line.
fn take_line(unread: &mut Unread, states: bool) -> Next
    ensures asked { IsAsked states result (first_line unread.old.items) }
    ensures rest { unread.new.items ≡ behind_first_line unread.old.items }
{
    let size = line_length(unread.as_slice());
    let next = next_of_line(&unread.as_slice()[..size], states);
    drop_first(unread, size + 1);
    next
}

/// Reads the next line: first of what was read before, then of the input. A line of more than 64 bytes is
/// wrong as soon as that many are read.
pub fn read_next<R: LineInput>(unread: &mut Unread, input: &mut R, states: bool) -> Next
    ensures next { IsNext states result (left_of unread.old.items (R.remaining input.old))
        (left_of unread.new.items (R.remaining input.new))
        (R.remaining input.new) }
    ensures failed { result ≡ Next.Failed → R.has_failed input.new ≡ true }
{
    match fill(unread, input, MOST_BYTES) {
        Filled::Line => take_line(unread, states),
        Filled::End => {
            if unread.is_empty() {
                Next::End
            } else {
                take_line(unread, states)
            }
        }
        Filled::Failed => Next::Failed,
    }
}
