//! What a line of a stream asks for.
ghost use Rattle.std.specs.Prelude.{◌≡◌, IfSome};
ghost use Rattle.std.specs.Str.{bytes_eq};
ghost use Rattle.script.specs.Line.{words_of};
ghost use Rattle.streaming.specs.Numbers.{IsNumbered};
ghost use Rattle.streaming.specs.Orders.{needs_states, order_of, order_of_two, order_of_words, state_order_of};

use machine_lines::{Look, read_look, read_size, read_slot};
use script::{Move, cut, read_line};

/// The most bytes of a line: one of more is wrong.
pub(crate) const MOST_BYTES: usize = 64;

const SPACE: u8 = b' ';

/// What a line asks for.
#[derive(Clone, Copy)]
pub enum Order {
    /// A move, as in a script.
    Make(Move),
    /// A look at the machine as it is now.
    Look(Look),
    /// To keep the machine under a number, 0 to 999.
    Keep(u32),
    /// To go on with the machine that was kept under a number.
    Back(u32),
    /// To go on with the machine of a snapshot of so many bytes, which stand behind the line.
    Restore(u32),
}

/// What one line asks for, without its newline: a line of a script, or one of those that `stream` lists. `None`
/// if it is neither, or if it has more than 64 bytes; an empty line asks for nothing. Unless `states` is set, so does a line that
/// wants the power switch or another machine to be inputs.
pub fn read_order(line: &[u8], states: bool) -> Option<Order>
    ensures order { result ≡ order_of states line.now }
    ensures numbered { IfSome result IsNumbered }
{
    if line.len() > MOST_BYTES {
        return None;
    }
    let order = match read_line(line) {
        Some(one) => Order::Make(one),
        None => read_words(line)?,
    };
    if !states && needs_states(order) {
        return None;
    }
    Some(order)
}

/// Whether an order wants the power switch or another machine to be inputs.
fn needs_states(order: Order) -> bool
    ensures { result ≡ needs_states order }
{
    match order {
        Order::Make(Move::Power) | Order::Keep(_) | Order::Back(_) | Order::Restore(_) => true,
        Order::Make(_) | Order::Look(_) => false,
    }
}

fn read_words(line: &[u8]) -> Option<Order>
    ensures order { result ≡ order_of_words (words_of line.now) }
    ensures numbered { IfSome result IsNumbered }
{
    match read_look(line) {
        Some(look) => Some(Order::Look(look)),
        None => read_state_words(line),
    }
}

/// An order about a state.
fn read_state_words(line: &[u8]) -> Option<Order>
    ensures order { result ≡ state_order_of (words_of line.now) }
    ensures numbered { IfSome result IsNumbered }
{
    let (name, rest) = cut(line, SPACE);
    let (word, rest) = cut(rest?, SPACE);
    if rest.is_some() {
        return None;
    }
    with_one(name, word)
}

fn is_word(word: &[u8], name: &[u8]) -> bool
    ensures { result ≡ bytes_eq word.now name.now }
{
    word == name
}

fn with_one(name: &[u8], word: &[u8]) -> Option<Order>
    ensures order { result ≡ order_of_two name.now word.now }
    ensures numbered { IfSome result IsNumbered }
{
    if is_word(name, b"keep") {
        let slot = read_slot(word)?;
        return Some(Order::Keep(slot));
    }
    if is_word(name, b"back") {
        let slot = read_slot(word)?;
        return Some(Order::Back(slot));
    }
    if is_word(name, b"restore") {
        let size = read_size(word)?;
        return Some(Order::Restore(size));
    }
    None
}
