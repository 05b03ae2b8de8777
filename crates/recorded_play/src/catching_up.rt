//! A session that is given what its recording has beyond it.
ghost use Rattle.std.specs.Prelude.{◌≡◌, ◌≤◌, ◌<◌, ◌+◌, ◌∷◌, ℕ, [], length, drop, false, replicate, IfOk, IfErr, OnOk};
ghost use Rattle.machine.specs.Machine.{Frame, as_input};
ghost use Rattle.sector_device.specs.DiskState.{sector_at};
ghost use Rattle.recording.specs.Format.{entries_at};
ghost use Rattle.recording.specs.Accessors.{device_of as device_of_recording, is_broken as is_broken_recording, used_of, full_of, tail_of, count_of};
ghost use Rattle.session.specs.Calls.{most_unsaved};
ghost use Rattle.session.specs.Accessors.{device_of, machine_of, pending_of, acknowledged_of, is_broken};
ghost use Rattle.playing.specs.Going.{place};
ghost use Rattle.recorded_play.specs.CatchingUp.{given_by, given_by_all, recorded_in, AdvancesOver, StopsOver, AdvancesOverRecorded, StopsOverRecorded, HasCaughtUp};

use crate::error::RecordError;
use input_entries::{Logged, StoredEntry};
use machine::Input;
use playing::{Silent, give, save_line};
use recording::Recording;
use sector_device::SectorDevice;
use session::{Session, SessionError};

/// Passes over one recorded input: if `skip` is 0 it is given, and 3,200 unsaved ones are saved;
/// otherwise the session has it. Returns how many more are to be skipped.
fn pass<D: SectorDevice>(
    session: &mut Session<D>,
    skip: u64,
    input: Input,
) -> Result<u64, SessionError>
    requires whole { is_broken session.old ≡ false }
    requires few { length (pending_of session.old) < most_unsaved }
    ensures passes { IfOk result (λ left.
        AdvancesOver (place session.old) (place session.new) skip left (as_input input ∷ [])) }
    ensures fails { IfErr result (λ why.
        StopsOver (place session.old) (place session.new) (drop skip (as_input input ∷ [])) why) }
    ensures whole { OnOk result ((is_broken session.new ≡ false) × (length (pending_of session.new) < most_unsaved)) }
{
    if skip > 0 {
        return Ok(skip - 1);
    }
    match give(session, input, &mut Silent) {
        Ok(()) => Ok(0),
        Err(why) => Err(why),
    }
}

/// Passes over a run of frames.
fn pass_frames<D: SectorDevice>(
    session: &mut Session<D>,
    skip: u64,
    buttons: u8,
    times: u32,
) -> Result<u64, SessionError>
    requires whole { is_broken session.old ≡ false }
    requires few { length (pending_of session.old) < most_unsaved }
    ensures passes { IfOk result (λ left.
        AdvancesOver (place session.old) (place session.new) skip left (replicate times (Frame buttons))) }
    ensures fails { IfErr result (λ why.
        StopsOver (place session.old) (place session.new) (drop skip (replicate times (Frame buttons))) why) }
    ensures whole { OnOk result ((is_broken session.new ≡ false) × (length (pending_of session.new) < most_unsaved)) }
{
    let mut left = skip;
    for _i in 0..times {
        match pass(session, left, Input::Frame(buttons)) {
            Ok(next) => left = next,
            Err(why) => return Err(why),
        }
    }
    Ok(left)
}

/// Passes over the inputs of an entry; one that is no input has none.
fn pass_entry<D: SectorDevice>(
    session: &mut Session<D>,
    skip: u64,
    entry: &StoredEntry,
) -> Result<u64, SessionError>
    requires whole { is_broken session.old ≡ false }
    requires few { length (pending_of session.old) < most_unsaved }
    ensures passes { IfOk result (λ left.
        AdvancesOver (place session.old) (place session.new) skip left (given_by entry.now)) }
    ensures fails { IfErr result (λ why.
        StopsOver (place session.old) (place session.new) (drop skip (given_by entry.now)) why) }
    ensures whole { OnOk result ((is_broken session.new ≡ false) × (length (pending_of session.new) < most_unsaved)) }
{
    match entry.logged() {
        Some(Logged::Frames { buttons, times }) => pass_frames(session, skip, buttons, times),
        Some(Logged::Seconds(seconds)) => pass(session, skip, Input::Seconds(seconds)),
        None => Ok(skip),
    }
}

/// Passes over the inputs of entries.
fn pass_entries<D: SectorDevice>(
    session: &mut Session<D>,
    skip: u64,
    entries: &[StoredEntry],
) -> Result<u64, SessionError>
    requires whole { is_broken session.old ≡ false }
    requires few { length (pending_of session.old) < most_unsaved }
    ensures passes { IfOk result (λ left.
        AdvancesOver (place session.old) (place session.new) skip left (given_by_all entries.now)) }
    ensures fails { IfErr result (λ why.
        StopsOver (place session.old) (place session.new) (drop skip (given_by_all entries.now)) why) }
    ensures whole { OnOk result ((is_broken session.new ≡ false) × (length (pending_of session.new) < most_unsaved)) }
{
    let mut left = skip;
    for entry in entries {
        match pass_entry(session, left, entry) {
            Ok(next) => left = next,
            Err(why) => return Err(why),
        }
    }
    Ok(left)
}

/// Passes over the inputs of the sector of the list with this number.
fn pass_sector<D: SectorDevice, E: SectorDevice>(
    session: &mut Session<D>,
    recording: &mut Recording<E>,
    skip: u64,
    number: u64,
) -> Result<u64, RecordError>
    requires whole { is_broken session.old ≡ false }
    requires open { is_broken_recording recording.old ≡ false }
    requires few { length (pending_of session.old) < most_unsaved }
    requires one { 1 ≤ number }
    requires used { number ≤ used_of recording.old }
    ensures passes { IfOk result (λ left. AdvancesOverRecorded
        (place session.old) (place session.new)
        (E.disk (device_of_recording recording.old)) (E.disk (device_of_recording recording.new)) skip left
        (given_by_all (entries_at number (sector_at (E.disk (device_of_recording recording.old)).sectors number)))) }
    ensures fails { IfErr result (λ why. StopsOverRecorded
        (place session.old) (place session.new)
        (E.disk (device_of_recording recording.old)) (E.disk (device_of_recording recording.new)) skip
        (given_by_all (entries_at number (sector_at (E.disk (device_of_recording recording.old)).sectors number)))
        why) }
    ensures whole { OnOk result ((is_broken session.new ≡ false) × (is_broken_recording recording.new ≡ false) ×
        (length (pending_of session.new) < most_unsaved)) }
    ensures same { used_of recording.new ≡ used_of recording.old }
{
    if let Err(why) = recording.read_sector(number) {
        return Err(RecordError::Recording(why));
    }
    match pass_entries(session, skip, recording.entries()) {
        Ok(left) => Ok(left),
        Err(why) => Err(RecordError::Session(why)),
    }
}

/// Passes over all inputs of the recording, of which the first `skip` are skipped.
fn pass_all<D: SectorDevice, E: SectorDevice>(
    session: &mut Session<D>,
    recording: &mut Recording<E>,
    skip: u64,
) -> Result<(), RecordError>
    requires whole { is_broken session.old ≡ false }
    requires open { is_broken_recording recording.old ≡ false }
    requires few { length (pending_of session.old) < most_unsaved }
    ensures passes { OnOk result ((left : ℕ) × AdvancesOverRecorded
        (place session.old) (place session.new)
        (E.disk (device_of_recording recording.old)) (E.disk (device_of_recording recording.new)) skip left
        (recorded_in (E.disk (device_of_recording recording.old)))) }
    ensures fails { IfErr result (λ why. StopsOverRecorded
        (place session.old) (place session.new)
        (E.disk (device_of_recording recording.old)) (E.disk (device_of_recording recording.new)) skip
        (recorded_in (E.disk (device_of_recording recording.old))) why) }
    ensures whole { OnOk result ((is_broken session.new ≡ false) × (is_broken_recording recording.new ≡ false) ×
        (length (pending_of session.new) < most_unsaved)) }
{
    let mut left = skip;
    let used = recording.sectors_used();
    for number in 0..used {
        match pass_sector(session, recording, left, number + 1) {
            Ok(next) => left = next,
            Err(why) => return Err(why),
        }
    }
    Ok(())
}

/// Gives the session the inputs of the recording beyond those that it has, and saves them. They are
/// in the recording, and are not appended to it again.
pub(crate) fn catch_up<D: SectorDevice, E: SectorDevice>(
    session: &mut Session<D>,
    recording: &mut Recording<E>,
) -> Result<(), RecordError>
    requires whole { is_broken session.old ≡ false }
    requires open { is_broken_recording recording.old ≡ false }
    requires none { pending_of session.old ≡ [] }
    ensures caught_up { OnOk result (HasCaughtUp
        (place session.old) (place session.new)
        (E.disk (device_of_recording recording.old)) (E.disk (device_of_recording recording.new))) }
    ensures fails { IfErr result (λ why. StopsOverRecorded
        (place session.old) (place session.new)
        (E.disk (device_of_recording recording.old)) (E.disk (device_of_recording recording.new))
        (acknowledged_of session.old)
        (recorded_in (E.disk (device_of_recording recording.old))) why) }
    ensures whole { OnOk result ((is_broken session.new ≡ false) × (is_broken_recording recording.new ≡ false) ×
        (pending_of session.new ≡ [])) }
{
    let count = session.counts().acknowledged;
    if let Err(why) = pass_all(session, recording, count) {
        return Err(why);
    }
    match save_line(session, &mut Silent) {
        Ok(()) => Ok(()),
        Err(why) => Err(RecordError::Session(why)),
    }
}
