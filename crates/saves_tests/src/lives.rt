//! Rounds of lives, and how lives end.
use crate::asserting::{OrStop, holds, same};
use cartridge::Cartridge;
use std::alloc::Global;
use std::process::Abort;
use std::test::Fail;
use whole_lives::{Devices, LifeError, LifeRefused, Lines, Lived, Round, live};

/// Choices of sixty writes each: those whose place modulo two is true.
#[derive(Clone, Copy)]
pub(crate) struct Keeps {
    pub(crate) save: [bool; 2],
    pub(crate) recording: [bool; 2],
}

pub(crate) const NONE: Keeps = Keeps {
    save: [false, false],
    recording: [false, false],
};

/// The lines of a round, how many calls of the SAVE's device and of the recording's pass, and what its cut keeps.
pub(crate) type Row<'a> = (&'a [u8], u64, u64, Keeps);

fn choices(alloc: Global, keeps: [bool; 2]) -> Result<Vec<bool>, Fail> {
    let mut kept = Vec::new(alloc);
    for _i in 0..60 {
        kept.push(keeps[0])?;
        kept.push(keeps[1])?;
    }
    Ok(kept)
}

fn round(alloc: Global, row: &Row) -> Result<Round, Fail> {
    Ok(Round {
        lines: Vec::from_slice(alloc, row.0)?,
        save_calls: row.1,
        recording_calls: row.2,
        save_kept: choices(alloc, row.3.save)?,
        recording_kept: choices(alloc, row.3.recording)?,
    })
}

fn rounds_of(rt: &impl Abort, alloc: Global, rows: &[Row]) -> Vec<Round> {
    let mut rounds = Vec::new(alloc);
    for row in rows {
        let one = round(alloc, row).or_stop(rt);
        rounds.push(one).or_stop(rt);
    }
    rounds
}

/// A life of the rounds of these rows.
fn lived(
    rt: &impl Abort,
    alloc: Global,
    devices: Devices,
    cartridge: &Cartridge,
    rows: &[Row],
) -> Lived {
    let rounds = rounds_of(rt, alloc, rows);
    match live::<Lines>(alloc, devices, cartridge, &rounds) {
        Ok(lived) => lived,
        Err(_) => panic!(rt; "the life was refused"),
    }
}

/// The rounds of these rows end with these reports, whole or cut, and then the game is taken up and reports this.
pub(crate) fn lives_as(
    rt: &impl Abort,
    alloc: Global,
    devices: Devices,
    cartridge: &Cartridge,
    rows: &[Row],
    ends: &[(&[u8], bool)],
    report: &[u8],
) -> Lived {
    let lived = lived(rt, alloc, devices, cartridge, rows);
    same!(rt; lived.ends.len(), ends.len());
    for (place, end) in ends.iter().enumerate() {
        assert!(rt; place < lived.ends.len());
        holds!(rt; lived.ends[place].report.as_slice() == end.0, "report of round {place}");
        same!(rt; lived.ends[place].whole, end.1, "whether round {place} is whole");
    }
    holds!(rt; lived.report.as_slice() == report, "where the game is taken up at last");
    lived
}

/// A life of the rounds of these rows is refused for this reason.
pub(crate) fn is_refused(
    rt: &impl Abort,
    alloc: Global,
    devices: Devices,
    cartridge: &Cartridge,
    rows: &[Row],
    why: LifeError,
) -> Devices {
    let rounds = rounds_of(rt, alloc, rows);
    let LifeRefused {
        why: found,
        devices,
    } = match live::<Lines>(alloc, devices, cartridge, &rounds) {
        Ok(_) => panic!(rt; "the life was not refused"),
        Err(refused) => refused,
    };
    same!(rt; found, why);
    devices
}
