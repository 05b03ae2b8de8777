//! What is left of sectors after the calls of a record.
ghost use Rattle.std.specs.Prelude.{◌≡◌, IsTrue, false, IfOk, length, replicate, slice_index_or};
ghost use Rattle.sector_device.specs.Records.{are_recordable, reads_after_all, replayed, writes_in, cut, IsLastSync};

use crate::recorded::Recorded;
use std::alloc::{AllocError, Global};

/// The sectors that a stop leaves, of a device that had these at the start and recorded these calls, if of the writes since
/// the last successful sync it keeps those whose choice is true.
pub(crate) fn cut_at(at_start: Vec<[u8; 512]>, calls: &[Recorded], kept: &[bool]) -> Vec<[u8; 512]>
    requires { IsTrue (are_recordable (length at_start.items) calls.now) }
    ensures { let disk = replayed at_start.items calls.now in result.items ≡ cut disk.synced disk.writes kept.now }
{
    let synced = calls_to_sync(calls);
    let at_sync = replay(at_start, &calls[..synced]);
    apply_chosen(at_sync, &calls[synced..], kept)
}

/// The number of calls up to the last successful sync, 0 where there is none.
fn calls_to_sync(calls: &[Recorded]) -> usize
    ensures { IsLastSync calls.now result }
{
    let mut synced = 0;
    for (i, call) in calls.iter().enumerate() {
        if let Recorded::Sync { done: true } = call {
            synced = i + 1;
        }
    }
    synced
}

/// What reads give of these sectors after the calls.
fn replay(mut sectors: Vec<[u8; 512]>, calls: &[Recorded]) -> Vec<[u8; 512]>
    requires { IsTrue (are_recordable (length sectors.items) calls.now) }
    ensures { result.items ≡ reads_after_all sectors.items calls.now }
{
    for call in calls {
        if let Recorded::Write {
            at,
            bytes,
            kept: true,
        } = call
        {
            sectors[*at as usize] = *bytes;
        }
    }
    sectors
}

/// The sectors after those of the writes whose choice is true, in order; a missing choice is false.
fn apply_chosen(mut sectors: Vec<[u8; 512]>, calls: &[Recorded], kept: &[bool]) -> Vec<[u8; 512]>
    requires { IsTrue (are_recordable (length sectors.items) calls.now) }
    ensures { result.items ≡ cut sectors.items (writes_in calls.now) kept.now }
{
    let mut choice = 0;
    for call in calls {
        match call {
            Recorded::Write { at, bytes, .. } => {
                if choice_at(kept, choice) {
                    sectors[*at as usize] = *bytes;
                }
                choice += 1;
            }
            Recorded::Sync { .. } => {}
        }
    }
    sectors
}

fn choice_at(kept: &[bool], at: usize) -> bool
    ensures { result ≡ slice_index_or kept.now at false }
{
    at < kept.len() && kept[at]
}

/// Sectors of zeros.
pub(crate) fn zero_sectors(alloc: Global, count: usize) -> Result<Vec<[u8; 512]>, AllocError>
    ensures { IfOk result (λ v. v.items ≡ replicate count (replicate 512 0)) }
{
    let mut sectors = Vec::with_capacity(alloc, count)?;
    for _ in 0..count {
        sectors.push_reserved([0; 512]);
    }
    Ok(sectors)
}
