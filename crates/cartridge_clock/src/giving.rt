//! Which seconds are due, and what is written before they are given.
ghost use Rattle.std.specs.Prelude.{◌≡◌, ◌≤◌, ◌<◌, ◌+◌, ◌^◌};
ghost use Rattle.cartridge_clock.specs.Clocks.{second_of, away_due, found_until, until_from, start_from, opened, session_second, due_at, claim_of, claiming, claimed_by, seconds_of, to_give, giving, note_of, noted_by, gone_back};

use crate::until::{Line, given_until};

/// So many seconds are given by one input at most.
pub const MOST_SECONDS: u64 = 0xffff_ffff;
/// The last second that SAVE.time can name.
pub const LAST_SECOND: u64 = 99_999_999_999;
/// So many seconds away are not given without a question: 366 days.
pub const YEAR: u64 = 31_622_400;

/// What the player says of the time away.
#[derive(Clone, Copy, Debug, PartialEq, Eq)]
pub enum Answer {
    /// It is given, however long it was.
    Give,
    /// It is not given.
    Leave,
}

/// The clock of a game that is open.
#[derive(Clone, Copy, Debug, PartialEq, Eq)]
pub struct Clock {
    /// Until when the cartridge's clock was given, in seconds since 1970.
    pub until: u64,
    /// From which date on the session counts its time, in milliseconds since 1970.
    pub opened: u64,
    /// The moment of that by a clock that nobody sets, in milliseconds.
    pub began: u64,
    /// The line that stands in SAVE.time.
    pub written: Line,
    /// The line of the seconds that are to be given next, once it is written.
    pub claimed: Option<Line>,
}

/// The second of a date in milliseconds.
pub(crate) fn second(date: u64) -> u64
    ensures { result ≡ second_of date }
{
    let second = date / 1000;
    if second < LAST_SECOND {
        second
    } else {
        LAST_SECOND
    }
}

/// Until when the lines say that the clock was given: until now where there are none.
pub(crate) fn found(lines: &[Line], count: u64, now: u64) -> u64
    ensures { result ≡ found_until lines.now count now }
{
    if lines.is_empty() {
        return now;
    }
    let found = given_until(lines, count);
    if found < LAST_SECOND {
        found
    } else {
        LAST_SECOND
    }
}

/// Until when the clock counts as given where a game is opened now.
fn until_at(found: u64, now: u64, answer: Option<Answer>) -> u64
    ensures { result ≡ until_from found now answer }
{
    match answer {
        Some(Answer::Leave) => if found < now { now } else { found },
        Some(Answer::Give) => found,
        None => found,
    }
}

/// From which date on the session counts.
fn start_at(found: u64, now: u64, date: u64, answer: Option<Answer>) -> u64
    requires { found ≤ LAST_SECOND }
    ensures { result ≡ start_from found now date answer }
{
    let start = found * 1000;
    if answer.is_none() && now.saturating_sub(found) > YEAR {
        return start;
    }
    if start < date { date } else { start }
}

impl Clock {
    /// The clock of a game with so many inputs that is opened at this date, in milliseconds since 1970, where SAVE.time has these lines. `moment`
    /// is that of a clock that nobody sets, in milliseconds.
    ///
    /// Time away is given up to a year; more is given or left by `answer`, and without one it waits for the next opening. At a date before the
    /// time that was given, the clock goes on from where it stood.
    pub fn open(lines: &[Line], count: u64, date: u64, moment: u64, answer: Option<Answer>) -> Clock
        ensures clock { result ≡ opened lines.now count date moment answer }
        ensures away { due_at result moment ≡ away_due (found_until lines.now count (second_of date)) (second_of date) answer }
    {
        let now = second(date);
        let found = found(lines, count, now);
        let until = until_at(found, now, answer);
        Clock {
            until,
            opened: start_at(found, now, date, answer),
            began: moment,
            written: Line { count, until },
            claimed: None,
        }
    }

    /// The second that the session has come to.
    fn session_now(&self, moment: u64) -> u64
        ensures { result ≡ session_second self.now moment }
    {
        second(
            self.opened
                .saturating_add(moment.saturating_sub(self.began)),
        )
    }

    /// How many seconds are due.
    pub fn due(&self, moment: u64) -> u32
        ensures { result ≡ due_at self.now moment }
    {
        let passed = self.session_now(moment).saturating_sub(self.until);
        if passed < MOST_SECONDS {
            passed as u32
        } else {
            MOST_SECONDS as u32
        }
    }

    /// The line that is to be written before the next input of a game of so many gives the seconds that are due. It stands before the line
    /// `written`, which stays. None where no second is due. What was claimed before and not given is due again.
    pub fn claim(&mut self, count: u64, moment: u64) -> Option<Line>
        ensures line { result ≡ claim_of self.old count moment }
        ensures clock { self.new ≡ claiming self.old }
    {
        self.claimed = None;
        let seconds = self.due(moment) as u64;
        if seconds == 0 || count == u64::MAX || self.until > LAST_SECOND {
            return None;
        }
        Some(Line {
            count: count + 1,
            until: self.until + seconds,
        })
    }

    /// That line is written, durably.
    pub fn claimed(&mut self, line: Line)
        ensures { self.new ≡ claimed_by self.old line }
    {
        self.claimed = Some(line);
    }

    /// How many seconds a claim gives.
    fn seconds_to(&self, line: Line) -> u64
        ensures seconds { result ≡ seconds_of self.now (Some line) }
        ensures fits { self.now.until + result < 2 ^ 64 }
    {
        let passed = line.until.saturating_sub(self.until);
        if passed < MOST_SECONDS {
            passed
        } else {
            MOST_SECONDS
        }
    }

    /// How many seconds the next input gives: those that were claimed.
    pub fn give(&mut self) -> u32
        ensures seconds { result ≡ to_give self.old }
        ensures clock { self.new ≡ giving self.old }
    {
        let Some(line) = self.claimed else {
            return 0;
        };
        let seconds = self.seconds_to(line);
        self.until += seconds;
        self.written = line;
        self.claimed = None;
        seconds as u32
    }

    /// The only line that is to be written once so many inputs are saved, and no second was due: an older copy of SAVE is told by it. None where
    /// the line that is written has as many, or names a later time. What was claimed before and not given is due again.
    pub fn note(&mut self, saved: u64) -> Option<Line>
        ensures line { result ≡ note_of self.old saved }
        ensures clock { self.new ≡ claiming self.old }
    {
        self.claimed = None;
        if saved <= self.written.count || self.until < self.written.until {
            return None;
        }
        Some(Line {
            count: saved,
            until: self.until,
        })
    }

    /// That line is written, durably.
    pub fn noted(&mut self, line: Line)
        ensures { self.new ≡ noted_by self.old line }
    {
        self.written = line;
    }

    /// The game goes on with the machine of a state whose clock had been given until then: the seconds since are due again.
    pub fn go_back(&mut self, until: u64)
        ensures { self.new ≡ gone_back self.old until }
    {
        self.until = until;
        self.claimed = None;
    }
}
