//! A new generation: the other area, a sync, the root, a sync.
ghost use Rattle.std.specs.Prelude.{◌≡◌, ◌≢◌, ◌≤◌, ◌<◌, ◌+◌, ◌/◌, ◌^◌, ◌-◌, [], length, IfOk, IfSome, IsNone, OnOk};
ghost use Rattle.sector_device.specs.DiskState.{HasCalled, Settled, Throughout, Remembers};
ghost use Rattle.log_format.specs.declared.root.Version.TheVariants.{Two};
ghost use Rattle.sector_log.specs.Calls.{HasOldOrNewContent, HasBegun, CanBegin, IsBeginCause};
ghost use Rattle.log_format.specs.Content.{generation_in};
ghost use Rattle.sector_log.specs.Store.{IsStored, IsNextGeneration, root_after};
ghost use Rattle.log_format.specs.Sizes.{log_sectors_per_area};
ghost use Rattle.sector_log.specs.declared.fault.LogFault.TheVariants.{Device};

use crate::fault::LogFault;
use crate::writes::{fill_area, sync_once};
use log_format::{Root, Version, area_length, root_sector, sectors_needed};
use sector_device::{DeviceFault, SectorDevice};

/// Writes a new generation. A power cut at any moment leaves the old content or the new one.
fn write_generation<D: SectorDevice>(
    device: &mut D,
    start: u64,
    root: &Root,
    blob: &[u8],
) -> Result<(), DeviceFault>
    requires version { root.now.version ≡ Two }
    requires size { length blob.now < 2 ^ 32 }
    requires room { start + log_sectors_per_area + (length blob.now + 511) / 512 ≤ length (D.disk device.old).sectors }
    requires roots { 2 ≤ length (D.disk device.old).sectors }
    requires range { length (D.disk device.old).sectors < 2 ^ 64 }

    ensures called { HasCalled (D.disk device.old) (D.disk device.new) result }
    ensures moments { (D.disk device.old).honest → Settled (D.disk device.old) →
        IsNextGeneration (D.disk device.old).sectors start root.now blob.now →
        Throughout (D.disk device.old) (D.disk device.new)
        (HasOldOrNewContent (D.disk device.old).sectors root.now.id root.now.base blob.now) }
    ensures past { (D.disk device.old).honest → Settled (D.disk device.old) →
        Remembers (D.disk device.old) (D.disk device.new) }
    ensures begun { OnOk result ((D.disk device.old).honest → Settled (D.disk device.old) →
        IsNextGeneration (D.disk device.old).sectors start root.now blob.now →
        HasBegun (D.disk device.old) (D.disk device.new) root.now.id root.now.base blob.now) }
    ensures stored { OnOk result ((D.disk device.old).honest → Settled (D.disk device.old) →
        IsNextGeneration (D.disk device.old).sectors start root.now blob.now →
        IsStored (D.disk device.new) start root.now []) }
{
    fill_area(device, start, blob)?;
    sync_once(device)?;
    device.write(root.generation % 2, &root_sector(root))?;
    sync_once(device)
}

/// Why a device with `count` sectors can't take a new generation after `last`; `None` if it can.
pub(crate) fn refusal(count: u64, last: u64, blob_length: usize) -> Option<LogFault>
    requires { blob_length < 2 ^ 32 }
    ensures some { IfSome result (λ why. IsBeginCause why blob_length count last × (why ≢ Device)) }
    ensures none { IsNone result → CanBegin blob_length count last }
{
    let need = sectors_needed(blob_length as u32);
    if count < need {
        return Some(LogFault::TooSmall { need });
    }
    if last == u64::MAX {
        return Some(LogFault::GenerationsUsedUp);
    }
    None
}

/// A generation that was begun, and where its area begins.
#[derive(Clone, Copy)]
pub(crate) struct Begun {
    pub(crate) start: u64,
    pub(crate) root: Root,
}

/// Begins the generation after this one, with a blob and an empty log.
pub(crate) fn begin_generation<D: SectorDevice>(
    device: &mut D,
    last: u64,
    id: [u8; 32],
    base: u64,
    blob: &[u8],
) -> Result<Begun, DeviceFault>
    requires size { length blob.now < 2 ^ 32 }
    requires can { CanBegin (length blob.now) (length (D.disk device.old).sectors) last }

    ensures called { HasCalled (D.disk device.old) (D.disk device.new) result }
    ensures moments { (D.disk device.old).honest → Settled (D.disk device.old) →
        last ≡ generation_in (D.disk device.old).sectors →
        Throughout (D.disk device.old) (D.disk device.new)
        (HasOldOrNewContent (D.disk device.old).sectors id base blob.now) }
    ensures past { (D.disk device.old).honest → Settled (D.disk device.old) →
        Remembers (D.disk device.old) (D.disk device.new) }
    ensures root { IfOk result (λ begun. begun.root ≡ root_after last id base (length blob.now)) }
    ensures placed { IfOk result (λ begun. (begun.start + log_sectors_per_area ≤ length (D.disk device.new).sectors) ×
        (begun.start + log_sectors_per_area < 2 ^ 64)) }
    ensures begun { IfOk result (λ _.
        (D.disk device.old).honest → Settled (D.disk device.old) → last ≡ generation_in (D.disk device.old).sectors →
        HasBegun (D.disk device.old) (D.disk device.new) id base blob.now) }
    ensures stored { IfOk result (λ begun. (D.disk device.old).honest → Settled (D.disk device.old) →
        last ≡ generation_in (D.disk device.old).sectors →
        IsStored (D.disk device.new) begun.start begun.root []) }
{
    let count = device.count();
    let root = Root {
        version: Version::Two,
        generation: last + 1,
        id,
        base,
        blob_length: blob.len() as u32,
    };
    let area = area_length(count);
    let start = if root.generation % 2 == 0 {
        2
    } else {
        2 + area
    };
    match write_generation(device, start, &root, blob) {
        Ok(()) => Ok(Begun { start, root }),
        Err(fault) => Err(fault),
    }
}
