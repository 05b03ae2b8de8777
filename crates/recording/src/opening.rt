//! A new recording, and one that is there.
ghost use Rattle.std.specs.Prelude.{◌≡◌, ◌≤◌, ◌⊎◌, length, true, false, IfOk, IfErr, OnOk, vec_capacity};
ghost use Rattle.sector_device.specs.DiskState.{HasAnswered, Throughout, Remembers, sector_at};
ghost use Rattle.sector_device.specs.Looking.{HasLooked, LooksOnly};
ghost use Rattle.sector_device.specs.Runs.{HoldsSince};
ghost use Rattle.recording.specs.Calls.{IsOldOrEmpty, IsCreateCause, IsOpenCause, IsHeadCause, faults_after};
ghost use Rattle.recording.specs.Format.{is_head_of};
ghost use Rattle.recording.specs.Keeping.{Kept, IsStored, HasBegun};
ghost use Rattle.recording.specs.Sizes.{entries_per_sector};
ghost use Rattle.recording.specs.Promises.{HasCreated, HasOpened};
ghost use Rattle.recording.specs.Accessors.{device_of, left_by_open};
ghost use Rattle.recording.specs.declared.fault.RecordingFault.TheVariants.{Memory, Device};

use crate::fault::RecordingFault;
use crate::format::head_sector;
use crate::reading::{End, check_head, is_blank, read_list};
use crate::recording::Recording;
use crate::sizes::ENTRIES_PER_SECTOR;
use input_entries::StoredEntry;
use sector_device::{Refused, SectorDevice};
use std::alloc::Global;

/// Looks whether the device is blank, and writes the head.
fn begin<D: SectorDevice>(device: &mut D, id: &[u8; 32]) -> Result<(), RecordingFault>
    ensures answered { HasAnswered faults_after (D.disk device.old) (D.disk device.new) result }
    ensures cause { IfErr result (λ why. IsCreateCause why (D.disk device.old)) }
    ensures untouched { IfErr result (λ why.
        (why ≡ Device) ⊎ ((D.disk device.old).honest → LooksOnly (D.disk device.old) (D.disk device.new))) }
    ensures moments { (D.disk device.old).honest →
        Throughout (D.disk device.old) (D.disk device.new) (IsOldOrEmpty (D.disk device.old) id.now) }
    ensures past { (D.disk device.old).honest → Remembers (D.disk device.old) (D.disk device.new) }
    ensures some { OnOk result (2 ≤ length (D.disk device.new).sectors) }
    ensures begun { OnOk result ((D.disk device.old).honest →
        HasBegun (D.disk device.old).sectors (D.disk device.new) id.now) }
{
    if device.count() < 2 {
        return Err(RecordingFault::TooSmall);
    }
    device.sync()?;
    let blank = is_blank(device)?;
    if !blank {
        return Err(RecordingFault::NotBlank);
    }
    device.write(0, &head_sector(id))?;
    device.sync()?;
    Ok(())
}

/// Makes an empty recording of the ROM with this SHA-256 on a device of which each sector is blank.
/// `Err`: `Memory` before any device call, `TooSmall`, `NotBlank`, with nothing written, or
/// `Device`.
pub fn create_recording<D: SectorDevice>(
    alloc: Global,
    device: D,
    id: [u8; 32],
) -> Result<Recording<D>, Refused<RecordingFault, D>>
    ensures images { (D.disk device).honest →
        HoldsSince (D.disk device) (D.disk (left_by_open result)) (IsOldOrEmpty (D.disk device) id) }
    ensures created { IfOk result (λ recording.
        HasCreated (D.disk device) (D.disk (device_of recording)) id recording) }
    ensures cause { IfErr result (λ refused. IsCreateCause refused.why (D.disk device)) }
    ensures untouched { IfErr result (λ refused.
        (refused.why ≡ Device) ⊎ ((D.disk device).honest → HasLooked (D.disk device) (D.disk refused.device))) }
    ensures answered { HasAnswered (λ refused. faults_after refused.why) (D.disk device) (D.disk (left_by_open result))
        result }
{
    let mut device = device;
    let Ok(tail) = Vec::with_capacity(alloc, ENTRIES_PER_SECTOR) else {
        return Err(Refused {
            why: RecordingFault::Memory,
            device,
        });
    };
    let Ok(page) = Vec::with_capacity(alloc, ENTRIES_PER_SECTOR) else {
        return Err(Refused {
            why: RecordingFault::Memory,
            device,
        });
    };
    match begin(&mut device, &id) {
        Ok(()) => Ok(Recording::at(
            device,
            End {
                full: 0,
                input_count: 0,
            },
            tail,
            page,
            true,
        )),
        Err(why) => Err(Refused { why, device }),
    }
}

/// Syncs, looks at the head, and reads the list to its end.
fn look<D: SectorDevice>(
    device: &mut D,
    id: &[u8; 32],
    tail: &mut Vec<StoredEntry>,
) -> Result<End, RecordingFault>
    requires { entries_per_sector ≤ vec_capacity tail.old }
    ensures answered { HasAnswered faults_after (D.disk device.old) (D.disk device.new) result }
    ensures looked { (D.disk device.old).honest → LooksOnly (D.disk device.old) (D.disk device.new) }
    ensures cause { IfErr result (λ why. IsHeadCause why id.now (D.disk device.old)) }
    ensures capacity { vec_capacity tail.old ≤ vec_capacity tail.new }
    ensures kept { IfOk result (λ end.
        Kept (length (D.disk device.new).sectors) end.full tail.new.items end.input_count) }
    ensures head { OnOk result ((D.disk device.old).honest →
        is_head_of id.now (sector_at (D.disk device.old).sectors 0) ≡ true) }
    ensures stored { IfOk result (λ end.
        (D.disk device.old).honest → IsStored (D.disk device.new) end.full tail.new.items end.input_count false) }
{
    device.sync()?;
    check_head(device, id)?;
    let end = read_list(device, tail)?;
    Ok(end)
}

/// Reads the recording of the ROM with this SHA-256 that is on a device. It begins with a sync and
/// writes nothing. `Err`: `Memory` before any device call, `NoRecording`, `OtherCartridge`, or
/// `Device` if a call failed.
pub fn open_recording<D: SectorDevice>(
    alloc: Global,
    device: D,
    id: [u8; 32],
) -> Result<Recording<D>, Refused<RecordingFault, D>>
    ensures looked { (D.disk device).honest → HasLooked (D.disk device) (D.disk (left_by_open result)) }
    ensures opened { IfOk result (λ recording. HasOpened (D.disk device) (D.disk (device_of recording)) id recording) }
    ensures cause { IfErr result (λ refused. IsOpenCause refused.why id (D.disk device)) }
    ensures memory { IfErr result (λ refused. refused.why ≡ Memory → refused.device ≡ device) }
    ensures answered { HasAnswered (λ refused. faults_after refused.why) (D.disk device) (D.disk (left_by_open result))
        result }
{
    let mut device = device;
    let Ok(mut tail) = Vec::with_capacity(alloc, ENTRIES_PER_SECTOR) else {
        return Err(Refused {
            why: RecordingFault::Memory,
            device,
        });
    };
    let Ok(page) = Vec::with_capacity(alloc, ENTRIES_PER_SECTOR) else {
        return Err(Refused {
            why: RecordingFault::Memory,
            device,
        });
    };
    match look(&mut device, &id, &mut tail) {
        Ok(end) => Ok(Recording::at(device, end, tail, page, false)),
        Err(why) => Err(Refused { why, device }),
    }
}
