//! What a line asks a debugger for.

ghost use Rattle.std.specs.Prelude.{◌≡◌, ◌≤◌, ◌<◌, ◌^◌, [], ◌∷◌, IfSome, Some as There, None as NotThere, length};
ghost use Rattle.std.specs.Option.{option_map};
ghost use Rattle.std.specs.Str.{bytes_eq};
ghost use Rattle.script.specs.Line.{words_of};
ghost use Rattle.machine_lines.specs.KeptStates.{slots};
ghost use Rattle.machine_lines.specs.Words.{address_of, hex_of, room_of, slot_of};
ghost use Rattle.debugging.specs.Numbers.{IsNumbered};
ghost use Rattle.debugging.specs.Orders.{all_conditions, both, condition_of, conditions_of, continue_order, is_kind, order_of, order_of_few, order_of_move, order_of_one, order_of_span, order_of_three, order_of_two, order_of_words, place_of, profile_order, restore_of, restore_of_words, span_in, span_of, state_order_of, state_order_of_words, steps_of, until_order};
ghost use Rattle.debugging.specs.Words.{bytes_left, words_after};

use crate::registers::{RegisterValue, read_register};
use arrayvec::ArrayVec;
use machine_lines::{Look, read_address, read_hex, read_look, read_room, read_size, read_slot};
use script::{Move, cut, read_byte, read_count, read_line};

const SPACE: u8 = b' ';

/// What stands between a bank and an address.
const COLON: u8 = b':';

/// What stands between the first address of some and the last.
const DASH: u8 = b'-';

/// The most bytes of a line.
const MOST_BYTES: usize = 512;

/// The most digits of a bank.
const BANK_DIGITS: usize = 3;

/// The most conditions of a run.
const MOST_CONDITIONS: usize = 16;

/// A place at which a run stops.
#[derive(Clone, Copy, Default)]
pub struct Place {
    pub address: u16,
    /// The bank that has to be mapped there; `None`: whichever is.
    pub bank: Option<u16>,
}

/// Addresses, from the first to the last of them.
#[derive(Clone, Copy)]
pub struct Span {
    pub first: u16,
    /// Not below the first.
    pub last: u16,
}

/// Where a run stops.
#[derive(Clone, Copy)]
pub enum Condition {
    /// Before a step at a place.
    At(Place),
    /// Before a step that runs an instruction with this opcode.
    Runs(u8),
    /// Before a step that reads one of these addresses.
    Reads(Span),
    /// Before a step that writes one of these addresses.
    Writes(Span),
    /// Behind a step that leaves another byte at an address than was there as the run began.
    Changes(u16),
}

impl Default for Condition {
    fn default() -> Condition {
        Condition::Runs(0)
    }
}

/// Conditions of a run: sixteen at most.
pub type Conditions = ArrayVec<Condition, 16>;

/// What a line asks for.
#[derive(Drop)]
pub enum Order {
    /// Frames with these buttons, as in a script.
    Frames { buttons: u8, times: u32 },
    /// Seconds of the cartridge's clock.
    Seconds(u32),
    /// So many steps, with the line of each.
    Step(u32),
    /// Steps up to one of these conditions, but at most so many.
    Until { steps: u32, conditions: Conditions },
    /// The same, and which of them it was.
    Continue { steps: u32, conditions: Conditions },
    /// A byte is written to an address.
    Set { address: u16, byte: u8 },
    /// A register gets a value.
    SetRegister(RegisterValue),
    /// The registers.
    Registers,
    /// The last instructions, at most so many.
    History(u32),
    /// A listing of so many instructions.
    List { address: u16, count: u32 },
    /// A look at the machine.
    Look(Look),
    /// The bank that is mapped at an address.
    Bank(u16),
    /// What was sent over the serial port since it was last told.
    Serial,
    /// The digest of the machine's snapshot.
    Digest,
    /// Where in time the run is.
    Position,
}

/// What a line asks for that takes memory, or goes back to what has taken some.
#[derive(Drop)]
pub enum StateOrder {
    /// The power switch, off and on.
    Power,
    /// The machine is kept under a number, 0 to 999.
    Keep(u32),
    /// The machine becomes the one that was kept under a number, 0 to 999.
    Back(u32),
    /// Steps up to one of these places, if there are any, but at most so many, whose M-cycles are counted.
    Profile { steps: u32, conditions: Conditions },
}

/// What one line asks for, without its newline. `None` if it is wrong, or if it has more than 512 bytes; an empty line is wrong here.
pub fn read_order(line: &[u8]) -> Option<Order>
    ensures { result ≡ order_of line.now }
{
    if line.len() > MOST_BYTES {
        return None;
    }
    match read_line(line) {
        Some(a_move) => order_of_move(a_move),
        None => match read_look(line) {
            Some(look) => Some(Order::Look(look)),
            None => read_words(line),
        },
    }
}

/// What `power`, `keep N`, `back N` and `profile N PLACE..` ask for. `None`: it is another line.
pub fn read_state_order(line: &[u8]) -> Option<StateOrder>
    ensures order { result ≡ state_order_of line.now }
    ensures numbered { IfSome result IsNumbered }
{
    if line.len() > MOST_BYTES {
        return None;
    }
    read_state_words(line)
}

fn read_state_words(line: &[u8]) -> Option<StateOrder>
    ensures order { result ≡ state_order_of_words (words_of line.now) }
    ensures numbered { IfSome result IsNumbered }
{
    let (name, rest) = cut(line, SPACE);
    let Some(rest) = rest else {
        return if is_word(name, b"power") {
            Some(StateOrder::Power)
        } else {
            None
        };
    };
    let (word, rest) = cut(rest, SPACE);
    if is_word(name, b"profile") {
        return read_profile(word, rest);
    }
    if rest.is_some() {
        return None;
    }
    if is_word(name, b"keep") {
        let number = read_slot(word)?;
        return Some(StateOrder::Keep(number));
    }
    if is_word(name, b"back") {
        let number = read_slot(word)?;
        return Some(StateOrder::Back(number));
    }
    None
}

/// The order of a count of steps and places, be there some or none.
fn read_profile(count: &[u8], rest: Option<&[u8]>) -> Option<StateOrder>
    ensures order { result ≡ profile_order count.now (words_after rest.entry) }
    ensures numbered { IfSome result IsNumbered }
{
    let conditions = read_conditions(rest, 0, false)?;
    let steps = read_steps(count)?;
    Some(StateOrder::Profile { steps, conditions })
}

/// How many bytes `restore N` asks for behind its newline: N. `None`: it is another line.
pub fn read_restore(line: &[u8]) -> Option<u32>
    ensures { result ≡ restore_of line.now }
{
    if line.len() > MOST_BYTES {
        return None;
    }
    read_restore_words(line)
}

fn read_restore_words(line: &[u8]) -> Option<u32>
    ensures { result ≡ restore_of_words (words_of line.now) }
{
    let (name, rest) = cut(line, SPACE);
    let (word, rest) = cut(rest?, SPACE);
    if rest.is_some() {
        return None;
    }
    if !is_word(name, b"restore") {
        return None;
    }
    read_size(word)
}

fn order_of_move(a_move: Move) -> Option<Order>
    ensures { result ≡ order_of_move a_move }
{
    match a_move {
        Move::Frames { buttons, times } => Some(Order::Frames { buttons, times }),
        Move::Seconds(count) => Some(Order::Seconds(count)),
        Move::Save | Move::Power => None,
    }
}

/// An order of the debugger's own words.
fn read_words(line: &[u8]) -> Option<Order>
    ensures { result ≡ order_of_words (words_of line.now) }
{
    let (name, rest) = cut(line, SPACE);
    let Some(rest) = rest else {
        return with_none(name);
    };
    let (word, rest) = cut(rest, SPACE);
    if is_word(name, b"until") {
        return read_until(word, rest);
    }
    if is_word(name, b"continue") {
        return read_continue(word, rest);
    }
    let Some(rest) = rest else {
        return with_one(name, word);
    };
    let (other, rest) = cut(rest, SPACE);
    let Some(rest) = rest else {
        return with_two(name, word, other);
    };
    let (last, rest) = cut(rest, SPACE);
    match rest {
        None => with_span(name, word, other, last),
        Some(_) => None,
    }
}

pub(crate) fn is_word(word: &[u8], name: &[u8]) -> bool
    ensures { result ≡ bytes_eq word.now name.now }
{
    word == name
}

fn with_none(name: &[u8]) -> Option<Order>
    ensures { result ≡ order_of_one name.now }
{
    if is_word(name, b"registers") {
        return Some(Order::Registers);
    }
    if is_word(name, b"serial") {
        return Some(Order::Serial);
    }
    if is_word(name, b"digest") {
        return Some(Order::Digest);
    }
    if is_word(name, b"position") {
        return Some(Order::Position);
    }
    None
}

fn with_one(name: &[u8], word: &[u8]) -> Option<Order>
    ensures { result ≡ order_of_two name.now word.now }
{
    if is_word(name, b"step") {
        let steps = read_steps(word)?;
        return Some(Order::Step(steps));
    }
    if is_word(name, b"history") {
        let count = read_room(word)?;
        return Some(Order::History(count));
    }
    if is_word(name, b"bank") {
        let address = read_address(word)?;
        return Some(Order::Bank(address));
    }
    None
}

fn with_two(name: &[u8], word: &[u8], other: &[u8]) -> Option<Order>
    ensures { result ≡ order_of_three name.now word.now other.now }
{
    if is_word(name, b"list") {
        let address = read_address(word)?;
        let count = read_room(other)?;
        return Some(Order::List { address, count });
    }
    if is_word(name, b"until-op") {
        let steps = read_steps(word)?;
        let opcode = read_byte(other)?;
        return Some(until_one(steps, Condition::Runs(opcode)));
    }
    if is_word(name, b"until-change") {
        let steps = read_steps(word)?;
        let address = read_address(other)?;
        return Some(until_one(steps, Condition::Changes(address)));
    }
    if is_word(name, b"set") {
        let address = read_address(word)?;
        let byte = read_byte(other)?;
        return Some(Order::Set { address, byte });
    }
    if is_word(name, b"set-register") {
        let value = read_register(word, other)?;
        return Some(Order::SetRegister(value));
    }
    with_span(name, word, other, other)
}

/// An order of steps up to an access of some addresses.
fn with_span(name: &[u8], count: &[u8], first: &[u8], last: &[u8]) -> Option<Order>
    ensures { result ≡ order_of_span name.now count.now first.now last.now }
{
    if is_word(name, b"until-write") {
        let steps = read_steps(count)?;
        let span = read_span(first, last)?;
        return Some(until_one(steps, Condition::Writes(span)));
    }
    if is_word(name, b"until-read") {
        let steps = read_steps(count)?;
        let span = read_span(first, last)?;
        return Some(until_one(steps, Condition::Reads(span)));
    }
    None
}

/// The addresses from the first to the last, which is not below it.
fn read_span(first: &[u8], last: &[u8]) -> Option<Span>
    ensures { result ≡ span_of (address_of first.now) (address_of last.now) }
{
    let first = read_address(first)?;
    let last = read_address(last)?;
    if first > last {
        return None;
    }
    Some(Span { first, last })
}

/// The order of steps up to one condition.
fn until_one(steps: u32, condition: Condition) -> Order
    ensures { result ≡ Order.Until steps (record { items = condition ∷ [] }) }
{
    let mut conditions = ArrayVec::new();
    conditions.push(condition);
    Order::Until { steps, conditions }
}

/// The order of a count of steps and places, where there are any.
fn read_until(count: &[u8], rest: Option<&[u8]>) -> Option<Order>
    ensures { result ≡ until_order count.now (words_after rest.entry) }
{
    let conditions = read_conditions(rest, 1, false)?;
    let steps = read_steps(count)?;
    Some(Order::Until { steps, conditions })
}

/// The order of a count of steps and conditions, where there are any.
fn read_continue(count: &[u8], rest: Option<&[u8]>) -> Option<Order>
    ensures { result ≡ continue_order count.now (words_after rest.entry) }
{
    let conditions = read_conditions(rest, 1, true)?;
    let steps = read_steps(count)?;
    Some(Order::Continue { steps, conditions })
}

/// The conditions that the words write, if they all are some, and there are no fewer than `least` and no more than sixteen; unless they are
/// mixed, they are places.
fn read_conditions(text: Option<&[u8]>, least: usize, is_mixed: bool) -> Option<Conditions>
    ensures { option_map (λ v. v.items) result ≡ conditions_of least is_mixed (words_after text.entry) }
{
    let mut conditions = ArrayVec::new();
    let mut rest = text;
    while let Some(left) = rest {
        let one = read_condition(left, is_mixed)?;
        if conditions.len() >= MOST_CONDITIONS {
            return None;
        }
        conditions.push(one.condition);
        rest = one.rest;
    }
    if conditions.len() < least {
        return None;
    }
    Some(conditions)
}

/// A condition at the beginning of a text, and the text behind it.
#[derive(Clone, Copy)]
struct Read<'a> {
    condition: Condition,
    rest: Option<&'a [u8]>,
}

/// The first condition of a text.
fn read_condition(text: &[u8], is_mixed: bool) -> Option<Read>
    ensures some { IfSome result (λ read.
        all_conditions is_mixed (words_of text.now) ≡ both (There read.condition)
        (all_conditions is_mixed (words_after read.rest))) }
    ensures none { result ≡ NotThere → all_conditions is_mixed (words_of text.now) ≡ NotThere }
    ensures shorter { IfSome result (λ read. bytes_left read.rest ≤ length text.now) }
{
    let (first, rest) = cut(text, SPACE);
    let Some(more) = rest else {
        let place = read_place(first)?;
        return Some(Read {
            condition: Condition::At(place),
            rest: None,
        });
    };
    if is_mixed && is_kind(first) {
        let (word, rest) = cut(more, SPACE);
        let condition = read_kind(first, word)?;
        return Some(Read { condition, rest });
    }
    let place = read_place(first)?;
    Some(Read {
        condition: Condition::At(place),
        rest: Some(more),
    })
}

/// Whether a word is the first of a condition of two.
fn is_kind(word: &[u8]) -> bool
    ensures { result ≡ is_kind word.now }
{
    is_word(word, b"op")
        || is_word(word, b"read")
        || is_word(word, b"write")
        || is_word(word, b"change")
}

/// The condition of two words.
fn read_kind(kind: &[u8], word: &[u8]) -> Option<Condition>
    ensures { result ≡ condition_of kind.now word.now }
{
    if is_word(kind, b"op") {
        let opcode = read_byte(word)?;
        return Some(Condition::Runs(opcode));
    }
    if is_word(kind, b"read") {
        let span = read_span_in(word)?;
        return Some(Condition::Reads(span));
    }
    if is_word(kind, b"write") {
        let span = read_span_in(word)?;
        return Some(Condition::Writes(span));
    }
    if is_word(kind, b"change") {
        let address = read_address(word)?;
        return Some(Condition::Changes(address));
    }
    None
}

/// The addresses of `ADDR` or `ADDR-LAST`.
fn read_span_in(word: &[u8]) -> Option<Span>
    ensures { result ≡ span_in word.now }
{
    let (first, rest) = cut(word, DASH);
    let Some(rest) = rest else {
        return read_span(first, first);
    };
    let (last, rest) = cut(rest, DASH);
    if rest.is_some() {
        return None;
    }
    read_span(first, last)
}

/// The place of `ADDR` or `BANK:ADDR`.
fn read_place(word: &[u8]) -> Option<Place>
    ensures { result ≡ place_of word.now }
{
    let (first, rest) = cut(word, COLON);
    let Some(rest) = rest else {
        let address = read_address(first)?;
        return Some(Place {
            address,
            bank: None,
        });
    };
    let (second, rest) = cut(rest, COLON);
    if rest.is_some() {
        return None;
    }
    let bank = read_hex(first, BANK_DIGITS)?;
    let address = read_address(second)?;
    Some(Place {
        address,
        bank: Some(bank),
    })
}

fn read_steps(word: &[u8]) -> Option<u32>
    ensures { result ≡ steps_of word.now }
{
    read_count(word, 1, u32::MAX)
}
