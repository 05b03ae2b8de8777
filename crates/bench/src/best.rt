//! The clock.

use std::io;
use std::time::Instant;

/// The fastest of some rounds, and what they gave.
#[derive(Clone, Copy)]
pub(crate) struct Best {
    pub(crate) nanoseconds: u64,
    pub(crate) last: u32,
    pub(crate) sum: u32,
}

/// Runs so many rounds. The least time counts, since whatever else the computer does only adds to it.
pub(crate) fn best_of<F: FnMut() -> io::Result<u32>>(
    rt: &HostRuntime,
    rounds: u32,
    mut round: F,
) -> io::Result<Best>
    requires { F.IsAlwaysCallable round }
{
    let mut best = Best {
        nanoseconds: u64::MAX,
        last: 0,
        sum: 0,
    };
    for _round in 0..rounds {
        let start = Instant::now(rt)?;
        let given = round()?;
        let time = u64::try_from(start.elapsed(rt)?.as_nanos()).unwrap_or(u64::MAX);
        best = Best {
            nanoseconds: best.nanoseconds.min(time),
            last: given,
            sum: best.sum.wrapping_add(given),
        };
    }
    Ok(best)
}
