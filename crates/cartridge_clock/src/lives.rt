//! A SAVE and its SAVE.time, whatever happens to them, and what is promised then.
ghost use Rattle.std.specs.Prelude.{◌≡◌};
ghost use Rattle.cartridge_clock.specs.Lives.{lines_of, left_by, told_claim, told_note, with_session, opens, plays, claims, gives, saves, notes, after, worlds};
ghost use Rattle.cartridge_clock.specs.Clocks.{opened};
ghost use Rattle.cartridge_clock.specs.Laws.{FairBehindASave, NoSecondLost, NoSecondTwice};

use crate::giving::{Answer, Clock};
use crate::until::Line;

/// What SAVE.time has.
#[derive(Clone, Copy, Debug, PartialEq, Eq)]
pub enum Held {
    /// No line, or there is none.
    Nothing,
    One(Line),
    /// A claim, and the line that was there before.
    Both(Line, Line),
}

/// What becomes of a write of SAVE.time.
#[derive(Clone, Copy, Debug, PartialEq, Eq)]
pub enum Outcome {
    Done,
    Failed,
    /// It is told as failed, but stands there.
    Doubtful,
}

/// A game that is open.
#[derive(Clone, Copy, Debug, PartialEq, Eq)]
pub struct Session {
    pub clock: Clock,
    /// How many inputs it has, saved or not.
    pub count: u64,
}

/// What is on the disk, and the game that is open.
#[derive(Clone, Copy, Debug, PartialEq, Eq)]
pub struct World {
    pub file: Held,
    /// How many inputs are saved.
    pub saved: u64,
    /// The moment by the clock that nobody sets, in milliseconds.
    pub moment: u64,
    pub session: Option<Session>,
}

/// What can happen. A cut may come between any two of these.
#[derive(Clone, Copy, Debug, PartialEq, Eq)]
pub enum Event {
    /// The game is opened at this date, in milliseconds since 1970, and SAVE.time is written.
    Opened(u64, Option<Answer>, Outcome),
    /// So many milliseconds pass.
    Passed(u64),
    /// So many inputs that give no seconds.
    Played(u64),
    /// SAVE.time is to say that the next input gives the seconds that are due.
    Claimed(Outcome),
    /// An input gives what was claimed.
    Gave,
    /// So many inputs more are saved.
    Saved(u64),
    /// SAVE.time is to name the inputs that are saved.
    Noted(Outcome),
    /// The power is cut, or the game is closed.
    Cut,
}

/// What a write leaves.
fn left(how: Outcome, old: Held, new: Held) -> Held
    ensures { result ≡ left_by how old new }
{
    match how {
        Outcome::Done => new,
        Outcome::Doubtful => new,
        Outcome::Failed => old,
    }
}

/// Opens a game where SAVE.time has this.
fn open(file: Held, count: u64, date: u64, moment: u64, answer: Option<Answer>) -> Clock
    ensures { result ≡ opened (lines_of file) count date moment answer }
{
    match file {
        Held::Nothing => Clock::open(&[], count, date, moment, answer),
        Held::One(line) => Clock::open(&[line], count, date, moment, answer),
        Held::Both(line, before) => Clock::open(&[line, before], count, date, moment, answer),
    }
}

impl World {
    fn opens(self, date: u64, answer: Option<Answer>, how: Outcome) -> World
        ensures { result ≡ opens self self.session date answer how }
    {
        if let Some(_session) = self.session {
            return self;
        }
        let clock = open(self.file, self.saved, date, self.moment, answer);
        World {
            file: left(how, self.file, Held::One(clock.written)),
            saved: self.saved,
            moment: self.moment,
            session: Some(Session {
                clock,
                count: self.saved,
            }),
        }
    }

    fn with(self, session: Session) -> World
        ensures { result ≡ with_session self session }
    {
        World {
            file: self.file,
            saved: self.saved,
            moment: self.moment,
            session: Some(session),
        }
    }

    fn plays(self, inputs: u64) -> World
        ensures { result ≡ plays self self.session inputs }
    {
        let Some(session) = self.session else {
            return self;
        };
        let count = session.count.saturating_add(inputs);
        self.with(Session {
            clock: session.clock,
            count,
        })
    }

    fn claims(self, how: Outcome) -> World
        ensures { result ≡ claims self self.session how }
    {
        let Some(session) = self.session else {
            return self;
        };
        let mut clock = session.clock;
        let before = clock.written;
        let Some(line) = clock.claim(session.count, self.moment) else {
            return self.with(Session {
                clock,
                count: session.count,
            });
        };
        if let Outcome::Done = how {
            clock.claimed(line);
        }
        World {
            file: left(how, self.file, Held::Both(line, before)),
            saved: self.saved,
            moment: self.moment,
            session: Some(Session {
                clock,
                count: session.count,
            }),
        }
    }

    fn gives(self) -> World
        ensures { result ≡ gives self self.session }
    {
        let Some(session) = self.session else {
            return self;
        };
        if session.count == u64::MAX {
            return self;
        }
        let mut clock = session.clock;
        if clock.give() == 0 {
            return self;
        }
        self.with(Session {
            clock,
            count: session.count + 1,
        })
    }

    fn saves(self, inputs: u64) -> World
        ensures { result ≡ saves self self.session inputs }
    {
        let Some(session) = self.session else {
            return self;
        };
        World {
            file: self.file,
            saved: self.saved.saturating_add(inputs).min(session.count),
            moment: self.moment,
            session: self.session,
        }
    }

    fn notes(self, how: Outcome) -> World
        ensures { result ≡ notes self self.session how }
    {
        let Some(session) = self.session else {
            return self;
        };
        let mut clock = session.clock;
        let Some(line) = clock.note(self.saved) else {
            return self.with(Session {
                clock,
                count: session.count,
            });
        };
        if let Outcome::Done = how {
            clock.noted(line);
        }
        World {
            file: left(how, self.file, Held::One(line)),
            saved: self.saved,
            moment: self.moment,
            session: Some(Session {
                clock,
                count: session.count,
            }),
        }
    }

    /// What becomes of it.
    pub fn after(self, event: Event) -> World
        ensures { result ≡ after self event }
    {
        match event {
            Event::Opened(date, answer, how) => self.opens(date, answer, how),
            Event::Passed(time) => World {
                file: self.file,
                saved: self.saved,
                moment: self.moment.saturating_add(time),
                session: self.session,
            },
            Event::Played(inputs) => self.plays(inputs),
            Event::Claimed(how) => self.claims(how),
            Event::Gave => self.gives(),
            Event::Saved(inputs) => self.saves(inputs),
            Event::Noted(how) => self.notes(how),
            Event::Cut => World {
                file: self.file,
                saved: self.saved,
                moment: self.moment,
                session: None,
            },
        }
    }
}

/// The world after these events.
#[tactic(auto, using(std::proofs::lemmas::List::Sums::fold_more))]
pub fn live(world: World, events: &[Event]) -> World
    ensures { result ≡ worlds world events.now }
{
    let mut world = world;
    for event in events {
        world = world.after(*event);
    }
    world
}

/// The law of `live`: over every list of events and cuts a second lies in at most one saved input, the saved seconds are at most what passed, and
/// what a cut loses passed since the last second that is saved.
pub fn no_second_is_given_twice()
    ensures { NoSecondTwice }
{}

/// The law of a save whose writes are made in order: a cut in it loses no second.
pub fn no_second_of_a_save_is_lost()
    ensures { NoSecondLost }
{}

/// The law of what follows such a save, whatever came before: what a cut loses passed since then.
pub fn a_cut_loses_what_passed_since_the_save()
    ensures { FairBehindASave }
{}
