//! The machine that a device stands for, from what was found on it.
ghost use Rattle.std.specs.Prelude.{◌≡◌, ◌<◌, ◌≤◌, ◌+◌, ◌-◌, ◌^◌, length, replicate, None, true, IfOk, IfErr};
ghost use Rattle.machine.specs.Machine.{after};
ghost use Rattle.machine.specs.Machine.{Frame};
ghost use Rattle.snapshot.specs.Encoding.{snapshot_length};
ghost use Rattle.cartridge.specs.Header.{ram_length_of};
ghost use Rattle.input_entries.specs.Inputs.{inputs, inputs_in, is_entry};
ghost use Rattle.log_format.specs.Inputs.{first_wrong, counted};
ghost use Rattle.log_format.specs.Found.{IsSound};
ghost use Rattle.log_format.specs.Sizes.{most_entries_read};
ghost use Rattle.sector_log.specs.OpenedAccessors.{seen, longest_blob};
ghost use Rattle.session.specs.Inputs.{logged, inputs_of};
ghost use Rattle.session.specs.Recovery.{IsHeader, IsHeaderCause, IsRebuilt, IsRebuildCause, IsLogCause, IsRecovered, IsRecoveryCause};

use crate::error::{Damage, SessionError};
use cartridge::Cartridge;
use machine::{Input, Machine};
use sector_device::SectorDevice;
use sector_log::{Found, Header, Logged, Opened, Part, StoredEntry, first_wrong};
use snapshot::{SnapError, decode};
use std::alloc::Global;

/// Plays `times` frames with these buttons.
fn play_frames(machine: &mut Machine, buttons: u8, times: u32)
    ensures { machine.new ≡ after machine.old (replicate times (Frame buttons)) }
{
    for _i in 0..times {
        machine.frame(buttons);
    }
}

/// Gives the machine the inputs of one entry, and answers how many there are.
fn replay_entry(machine: &mut Machine, entry: &StoredEntry) -> u32
    requires { is_entry entry.now ≡ true }
    ensures machine { machine.new ≡ after machine.old (inputs_of (inputs_in entry.now)) }
    ensures count { result ≡ length (inputs_in entry.now) }
{
    match entry.logged() {
        Some(Logged::Frames { buttons, times }) => {
            play_frames(machine, buttons, times);
            times
        }
        Some(Logged::Seconds(seconds)) => {
            machine.apply(Input::Seconds(seconds));
            1
        }
        None => unreachable!(),
    }
}

/// Gives the machine the inputs of a log in which each entry is an input, and answers how many
/// there are.
fn replay(machine: &mut Machine, log: &[StoredEntry]) -> u64
    requires { first_wrong log.now ≡ None }
    ensures machine { machine.new ≡ after machine.old (logged log.now) }
    ensures count { result ≡ length (inputs log.now) }
{
    let mut count = 0;
    for entry in log {
        count += u64::from(replay_entry(machine, entry));
    }
    count
}

/// What was found, if it is whole, of this ROM and can be counted.
fn header_of(found: Found, digest: [u8; 32]) -> Result<Header, SessionError>
    ensures ok { IfOk result (IsHeader found digest) }
    ensures err { IfErr result (IsHeaderCause found digest) }
{
    match found {
        Found::Nothing => Err(SessionError::NoSession),
        Found::Damaged(_, Part::Length { need }) => Err(SessionError::TooSmall { need }),
        Found::Damaged(header, Part::Count) => {
            if header.id != digest {
                return Err(SessionError::OtherCartridge);
            }
            Err(SessionError::Damaged(Damage::Count))
        }
        Found::Intact(header) => {
            if header.id != digest {
                return Err(SessionError::OtherCartridge);
            }
            Ok(header)
        }
    }
}

/// Why a log is not replayed after a legal snapshot: an entry is not an input, or else the
/// generations are used up.
fn log_refusal(log: &[StoredEntry], generation: u64) -> Result<(), SessionError>
    requires { length log.now ≤ most_entries_read }
    ensures ok { IfOk result (λ _. (first_wrong log.now ≡ None) × (generation < 2 ^ 64 - 1)) }
    ensures err { IfErr result (IsLogCause log.now generation) }
{
    if let Some(index) = first_wrong(log) {
        return Err(SessionError::Damaged(Damage::Entry(index)));
    }
    if generation == u64::MAX {
        return Err(SessionError::GenerationsUsedUp);
    }
    Ok(())
}

/// The count of inputs and the machine that a snapshot and the log after it stand for.
fn rebuilt(
    alloc: Global,
    header: &Header,
    encoded: &[u8],
    log: &[StoredEntry],
    generation: u64,
    cartridge: &Cartridge,
) -> Result<(u64, Machine), SessionError>
    requires few { length log.now ≤ most_entries_read }
    requires counts { header.now.base + counted 0 log.now < 2 ^ 64 }
    ensures ok { IfOk result (λ found.
        IsRebuilt cartridge.now header.now encoded.now log.now generation found.0 found.1) }
    ensures fits { IfOk result (λ found. found.0 < 2 ^ 64) }
    ensures err { IfErr result (IsRebuildCause cartridge.now encoded.now log.now generation) }
{
    match decode(alloc, encoded, cartridge) {
        Ok(mut machine) => {
            if let Err(why) = log_refusal(log, generation) {
                drop(machine);
                return Err(why);
            }
            let count = replay(&mut machine, log);
            Ok((header.base + count, machine))
        }
        Err(SnapError::Memory) => {
            if let Err(why) = log_refusal(log, generation) {
                return Err(why);
            }
            Err(SessionError::Memory)
        }
        Err(fault) => Err(SessionError::Damaged(Damage::Snapshot(fault))),
    }
}

/// The count of inputs and the machine that an opened log stands for, or why there is none. The
/// greatest `generation` is refused: after it there is no other.
pub(crate) fn recovered<D: SectorDevice>(
    alloc: Global,
    opened: &Opened<D>,
    generation: u64,
    cartridge: &Cartridge,
) -> Result<(u64, Machine), SessionError>
    requires most { longest_blob opened.now ≡ snapshot_length (ram_length_of cartridge.now) }
    requires sound { IsSound (seen opened.now) }
    ensures ok { IfOk result (λ found. IsRecovered cartridge.now (seen opened.now) generation found.0 found.1) }
    ensures fits { IfOk result (λ found. found.0 < 2 ^ 64) }
    ensures err { IfErr result (IsRecoveryCause cartridge.now (seen opened.now) generation) }
{
    let header = match header_of(opened.found(), cartridge.digest()) {
        Ok(header) => header,
        Err(why) => return Err(why),
    };
    let Some(encoded) = opened.blob() else {
        let length = u64::from(header.blob_length);
        return Err(SessionError::Damaged(Damage::Snapshot(SnapError::SnapLength(length))));
    };
    rebuilt(
        alloc,
        &header,
        encoded,
        opened.entries(),
        generation,
        cartridge,
    )
}
