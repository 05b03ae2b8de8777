//! The exports of a cartridge's clock. The host holds it, as a value, and the text of SAVE.time.

ghost use Rattle.std.specs.Prelude.{◌≡◌, ◌<◌, ◌≤◌, ◌⊎◌, ◌∷◌, [], length, take, slice_get};
ghost use Rattle.cartridge_clock.specs.Clocks.{opened, due_at, claim_of, claiming, claimed_by, to_give, giving, note_of, noted_by, gone_back};
ghost use Rattle.cartridge_clock.specs.Texts.{text_of};
ghost use Rattle.refusals.specs.Codes.{done};
ghost use Rattle.c_interface.specs.Codes.{no_time};
ghost use Rattle.c_interface.specs.Clocks.{line_of, clock_of, answer_of, away_kind, away_seconds, played_kind, found_of, IsRead, IsToWrite};

use crate::codes::{DONE, NO_TIME};
use cartridge_clock::{
    Answer, Away, Clock, Line, Played, lines_text, read_lines, time_away, where_played,
};

/// A line of SAVE.time.
#[repr(C)]
#[derive(Clone, Copy)]
pub struct HeldLine {
    pub count: u64,
    pub until: u64,
}

/// The clock of a game that is open.
#[repr(C)]
#[derive(Clone, Copy)]
pub struct HeldClock {
    pub until: u64,
    pub opened: u64,
    pub began: u64,
    pub written: HeldLine,
    pub claimed: HeldLine,
    /// 0 where nothing is claimed.
    pub is_claimed: u64,
}

/// What is to be asked and told where a game is opened.
#[repr(C)]
#[derive(Clone, Copy)]
pub struct Found {
    /// How many lines the text has.
    pub lines: u64,
    /// How far the date is from the time until which the clock was given, and so many seconds.
    pub away: u64,
    pub seconds: u64,
    /// Where SAVE was played.
    pub played: u64,
}

impl HeldLine {
    fn of(line: Line) -> HeldLine
        ensures { line_of result ≡ line }
    {
        HeldLine {
            count: line.count,
            until: line.until,
        }
    }

    fn line(self) -> Line
        ensures { result ≡ line_of self }
    {
        Line {
            count: self.count,
            until: self.until,
        }
    }
}

impl HeldClock {
    fn of(clock: Clock) -> HeldClock
        ensures { clock_of result ≡ clock }
    {
        let written = HeldLine::of(clock.written);
        match clock.claimed {
            Some(line) => HeldClock {
                until: clock.until,
                opened: clock.opened,
                began: clock.began,
                written,
                claimed: HeldLine::of(line),
                is_claimed: 1,
            },
            None => HeldClock {
                until: clock.until,
                opened: clock.opened,
                began: clock.began,
                written,
                claimed: written,
                is_claimed: 0,
            },
        }
    }

    fn clock(self) -> Clock
        ensures { result ≡ clock_of self }
    {
        let claimed = if self.is_claimed == 0 {
            None
        } else {
            Some(self.claimed.line())
        };
        Clock {
            until: self.until,
            opened: self.opened,
            began: self.began,
            written: self.written.line(),
            claimed,
        }
    }
}

fn answer(code: u32) -> Option<Answer>
    ensures { result ≡ answer_of code }
{
    match code {
        1 => Some(Answer::Give),
        2 => Some(Answer::Leave),
        _ => None,
    }
}

fn kind_of_away(away: Away) -> u64
    ensures { result ≡ away_kind away }
{
    match away {
        Away::Nothing => 0,
        Away::Behind(_) => 1,
        Away::FarBehind(_) => 2,
        Away::Before(_) => 3,
        Away::FarBefore(_) => 4,
    }
}

fn seconds_of_away(away: Away) -> u64
    ensures { result ≡ away_seconds away }
{
    match away {
        Away::Nothing => 0,
        Away::Behind(seconds)
        | Away::FarBehind(seconds)
        | Away::Before(seconds)
        | Away::FarBefore(seconds) => seconds,
    }
}

fn kind_of_played(played: Played) -> u64
    ensures { result ≡ played_kind played }
{
    match played {
        Played::Here => 0,
        Played::Older => 1,
        Played::Elsewhere => 2,
    }
}

fn look_at(lines: &[Line], count: u64, between: u64, date: u64) -> Found
    ensures { result ≡ found_of lines.now count between date }
{
    let away = time_away(lines, count, date);
    Found {
        lines: lines.len() as u64,
        away: kind_of_away(away),
        seconds: seconds_of_away(away),
        played: kind_of_played(where_played(lines, count, between)),
    }
}

/// Writes the text of these lines, and tells how long it is.
fn put(lines: &[Line], text: &mut [u8]) -> u64
    requires few { length lines.now ≤ 2 }
    requires room { length text.old ≡ 384 }
    ensures { take result text.new ≡ text_of lines.now }
{
    let written = lines_text(lines);
    let written = written.as_str().as_bytes();
    let long = written.len();
    text[..long].copy_from_slice(written);
    long as u64
}

/// Looks at a text of SAVE.time: what is to be asked and told where a game with so many inputs is opened at this date, in milliseconds since 1970. So
/// many inputs come between two writes of SAVE.time at most.
#[unsafe(no_mangle)]
pub extern "C" fn gbkeep_raw_clock_look(
    text: &[u8],
    count: u64,
    between: u64,
    date: u64,
    out: &mut Found,
) -> u32
    ensures found { result ≡ done → IsRead text.now (λ lines. out.new ≡ found_of lines count between date) }
    ensures long { 512 < length text.now → result ≡ no_time }
    ensures refused { ¬ (result ≡ done) → (result ≡ no_time) × (out.new ≡ out.old) }
{
    match read_lines(text) {
        Ok(lines) => {
            *out = look_at(lines.as_slice(), count, between, date);
            DONE
        }
        Err(_) => NO_TIME,
    }
}

/// The line of a text of SAVE.time that stands behind so many others.
#[unsafe(no_mangle)]
pub extern "C" fn gbkeep_raw_clock_line_of(text: &[u8], before: usize, line: &mut HeldLine) -> u32
    ensures line { result ≡ done → IsRead text.now (λ lines. slice_get lines before ≡ Some (line_of line.new)) }
    ensures long { 512 < length text.now → result ≡ no_time }
    ensures refused { ¬ (result ≡ done) → (result ≡ no_time) × (line.new ≡ line.old) }
{
    let Ok(lines) = read_lines(text) else {
        return NO_TIME;
    };
    match lines.as_slice().get(before) {
        Some(found) => {
            *line = HeldLine::of(*found);
            DONE
        }
        None => NO_TIME,
    }
}

/// The clock of a game with so many inputs that is opened at this date and this moment, with this text of SAVE.time. `code` says what the player
/// answered.
#[unsafe(no_mangle)]
pub extern "C" fn gbkeep_raw_clock_open(
    text: &[u8],
    count: u64,
    date: u64,
    moment: u64,
    code: u32,
    clock: &mut HeldClock,
) -> u32
    ensures opened { result ≡ done →
        IsRead text.now (λ lines. clock_of clock.new ≡ opened lines count date moment (answer_of code)) }
    ensures long { 512 < length text.now → result ≡ no_time }
    ensures refused { ¬ (result ≡ done) → (result ≡ no_time) × (clock.new ≡ clock.old) }
{
    match read_lines(text) {
        Ok(lines) => {
            *clock = HeldClock::of(Clock::open(
                lines.as_slice(),
                count,
                date,
                moment,
                answer(code),
            ));
            DONE
        }
        Err(_) => NO_TIME,
    }
}

/// Writes the text of a line, and tells how long it is.
#[unsafe(no_mangle)]
pub extern "C" fn gbkeep_raw_clock_text(line: &HeldLine, text: &mut [u8]) -> u64
    requires room { length text.old ≡ 384 }
    ensures { take result text.new ≡ text_of (line_of line.now ∷ []) }
{
    put(&[line.line()], text)
}

/// How many seconds are due.
#[unsafe(no_mangle)]
pub extern "C" fn gbkeep_raw_clock_due(clock: &HeldClock, moment: u64) -> u32
    ensures { result ≡ due_at (clock_of clock.now) moment }
{
    clock.clock().due(moment)
}

/// The line that is to be written before the next input of a game of so many gives what is due, and the text with it: how long that is; 0 where
/// nothing is due.
#[unsafe(no_mangle)]
pub extern "C" fn gbkeep_raw_clock_claim(
    clock: &mut HeldClock,
    count: u64,
    moment: u64,
    line: &mut HeldLine,
    text: &mut [u8],
) -> u64
    requires room { length text.old ≡ 384 }
    ensures line { IsToWrite (claim_of (clock_of clock.old) count moment) ((clock_of clock.old).written ∷ []) result
        (line_of line.new) text.new }
    ensures clock { clock_of clock.new ≡ claiming (clock_of clock.old) }
{
    let mut held = clock.clock();
    let claim = held.claim(count, moment);
    *clock = HeldClock::of(held);
    match claim {
        Some(claim) => {
            *line = HeldLine::of(claim);
            put(&[claim, held.written], text)
        }
        None => 0,
    }
}

/// That text is written, durably.
#[unsafe(no_mangle)]
pub extern "C" fn gbkeep_raw_clock_claimed(clock: &mut HeldClock, line: &HeldLine)
    ensures { clock_of clock.new ≡ claimed_by (clock_of clock.old) (line_of line.now) }
{
    let mut held = clock.clock();
    held.claimed(line.line());
    *clock = HeldClock::of(held);
}

/// How many seconds the next input gives: those that were claimed.
#[unsafe(no_mangle)]
pub extern "C" fn gbkeep_raw_clock_give(clock: &mut HeldClock) -> u32
    ensures seconds { result ≡ to_give (clock_of clock.old) }
    ensures clock { clock_of clock.new ≡ giving (clock_of clock.old) }
{
    let mut held = clock.clock();
    let seconds = held.give();
    *clock = HeldClock::of(held);
    seconds
}

/// The line that is to be written once so many inputs are saved and none gave seconds, and its text: how long that is; 0 where nothing is to be
/// written.
#[unsafe(no_mangle)]
pub extern "C" fn gbkeep_raw_clock_note(
    clock: &mut HeldClock,
    saved: u64,
    line: &mut HeldLine,
    text: &mut [u8],
) -> u64
    requires room { length text.old ≡ 384 }
    ensures line { IsToWrite (note_of (clock_of clock.old) saved) [] result (line_of line.new) text.new }
    ensures clock { clock_of clock.new ≡ claiming (clock_of clock.old) }
{
    let mut held = clock.clock();
    let note = held.note(saved);
    *clock = HeldClock::of(held);
    match note {
        Some(note) => {
            *line = HeldLine::of(note);
            put(&[note], text)
        }
        None => 0,
    }
}

/// That text is written, durably.
#[unsafe(no_mangle)]
pub extern "C" fn gbkeep_raw_clock_noted(clock: &mut HeldClock, line: &HeldLine)
    ensures { clock_of clock.new ≡ noted_by (clock_of clock.old) (line_of line.now) }
{
    let mut held = clock.clock();
    held.noted(line.line());
    *clock = HeldClock::of(held);
}

/// The game goes on with the machine of a state whose clock had been given until then.
#[unsafe(no_mangle)]
pub extern "C" fn gbkeep_raw_clock_go_back(clock: &mut HeldClock, until: u64)
    ensures { clock_of clock.new ≡ gone_back (clock_of clock.old) until }
{
    let mut held = clock.clock();
    held.go_back(until);
    *clock = HeldClock::of(held);
}
