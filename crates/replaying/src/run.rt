//! The frames that stand in no line of a script yet.
ghost use Rattle.std.specs.Prelude.{◌≡◌, ◌≤◌};
ghost use Rattle.replaying.specs.Script.{most_times};

/// The most frames of one line.
pub(crate) const MOST_TIMES: u32 = 1_000_000;

/// Equal frames that stand in no line yet.
#[derive(Clone, Copy)]
pub(crate) struct Run {
    pub(crate) buttons: u8,
    pub(crate) times: u32,
    ghost few: { times ≤ most_times },
}

impl Run {
    /// No frames.
    pub(crate) fn none() -> Self
        ensures buttons { result.buttons ≡ 0 }
        ensures times { result.times ≡ 0 }
    {
        Run {
            buttons: 0,
            times: 0,
        }
    }
}
