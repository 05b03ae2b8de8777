//! Assertions whose proofs stand once, and not at each place as those of `assert!` and `assert_eq!` do.

ghost use Rattle.std.specs.Prelude.{◌≡◌, true};

use std::fmt::{Debug, Display};
use std::process::Abort;

/// Ends the test where the two differ.
pub fn is_same<T: PartialEq + Debug>(rt: &impl Abort, found: &T, wanted: &T, what: &impl Display)
    ensures { T.eq found.now wanted.now ≡ true }
{
    assert_eq!(rt; found, wanted, "{what}");
}

/// Ends the test where it is false.
pub fn is_true(rt: &impl Abort, found: bool, what: &impl Display)
    ensures { found ≡ true }
{
    assert!(rt; found, "{what}");
}

/// What a call answers that has to succeed here. With a `?` in its place a test would drop what it holds.
pub trait OrStop<T> {
    fn or_stop(self, rt: &impl Abort) -> T;
}

impl<T, E> OrStop<T> for Result<T, E> {
    fn or_stop(self, rt: &impl Abort) -> T {
        match self {
            Ok(value) => value,
            Err(_) => panic!(rt; "a call that has to succeed was refused"),
        }
    }
}

macro_rules! same {
    ($rt:expr; $found:expr, $wanted:expr $(,)?) => {
        $crate::asserting::is_same(&$rt, &$found, &$wanted, &stringify!($found))
    };
    ($rt:expr; $found:expr, $wanted:expr, $($what:tt)+) => {
        $crate::asserting::is_same(&$rt, &$found, &$wanted, &format_args!($($what)+))
    };
}

macro_rules! holds {
    ($rt:expr; $found:expr $(,)?) => {
        $crate::asserting::is_true(&$rt, $found, &stringify!($found))
    };
    ($rt:expr; $found:expr, $($what:tt)+) => {
        $crate::asserting::is_true(&$rt, $found, &format_args!($($what)+))
    };
}

pub(crate) use holds;
pub(crate) use same;
