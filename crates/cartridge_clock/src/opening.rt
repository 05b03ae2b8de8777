//! What is to be asked and told where a game is opened.
ghost use Rattle.std.specs.Prelude.{◌≡◌};
ghost use Rattle.cartridge_clock.specs.Lines.{most_inputs};
ghost use Rattle.cartridge_clock.specs.Openings.{away_of, away_by, played_by};

use crate::giving::{YEAR, found, second};
use crate::until::{Line, any_fits};

/// So many seconds of an earlier date are no fault: clocks are set right all the time.
pub const NO_FAULT: u64 = 60;

/// How far the date is from the time until which the clock was given, in seconds.
#[derive(Clone, Copy, Debug, PartialEq, Eq)]
pub enum Away {
    /// It is there, or a minute before it at most.
    Nothing,
    /// So many behind it, up to a year: they are given.
    Behind(u64),
    /// More than a year behind it: it is asked whether they are given.
    FarBehind(u64),
    /// More than a minute before it: the clock goes on from where it stood.
    Before(u64),
    /// More than a year before it: it is asked whether to count anew, as where there are no lines.
    FarBefore(u64),
}

/// Where SAVE was played since its clock was last given time here.
#[derive(Clone, Copy, Debug, PartialEq, Eq)]
pub enum Played {
    Here,
    /// It has fewer inputs than each line speaks of: it is an older copy.
    Older,
    /// It has more inputs than come between two writes of SAVE.time.
    Elsewhere,
}

/// By the second until which the clock was given, and that of the date.
fn away_from(found: u64, now: u64) -> Away
    ensures { result ≡ away_of found now }
{
    if found < now {
        let passed = now - found;
        return if passed > YEAR {
            Away::FarBehind(passed)
        } else {
            Away::Behind(passed)
        };
    }
    let before = found - now;
    if before > YEAR {
        return Away::FarBefore(before);
    }
    if before > NO_FAULT {
        Away::Before(before)
    } else {
        Away::Nothing
    }
}

/// How far this date, in milliseconds since 1970, is from the time until which the clock of a SAVE with so many inputs was given.
pub fn time_away(lines: &[Line], count: u64, date: u64) -> Away
    ensures { result ≡ away_by lines.now count date }
{
    let now = second(date);
    away_from(found(lines, count, now), now)
}

/// The greatest count of all lines, 0 without any.
#[tactic(auto, using(std::proofs::lemmas::List::Sums::fold_more))]
fn greatest_count(lines: &[Line]) -> u64
    ensures { result ≡ most_inputs lines.now }
{
    let mut most = 0;
    for line in lines {
        if line.count > most {
            most = line.count;
        }
    }
    most
}

/// Where a SAVE with so many inputs was played, if `between` come between two writes of SAVE.time at most.
pub fn where_played(lines: &[Line], count: u64, between: u64) -> Played
    ensures { result ≡ played_by lines.now count between }
{
    if lines.is_empty() {
        return Played::Here;
    }
    if !any_fits(lines, count) {
        return Played::Older;
    }
    if count.saturating_sub(greatest_count(lines)) > between {
        Played::Elsewhere
    } else {
        Played::Here
    }
}
