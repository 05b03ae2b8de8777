//! Reading what is on a device.
ghost use Rattle.std.specs.Prelude.{◌≡◌, ◌⊎◌, IfOk, IfErr};
ghost use Rattle.sector_device.specs.DiskState.{HasAnswered};
ghost use Rattle.sector_device.specs.Looking.{HasLooked};
ghost use Rattle.sector_log.specs.Calls.{faults_after};
ghost use Rattle.sector_log.specs.Promises.{HasOpened};
ghost use Rattle.sector_log.specs.OpenedAccessors.{device_under, left_by_open};
ghost use Rattle.sector_log.specs.declared.fault.LogFault.TheVariants.{Memory, Device};

use crate::fault::LogFault;
use crate::opened::Opened;
use crate::reading::{read_chosen_blob, read_chosen_log};
use log_format::MOST_ENTRIES_READ;
use sector_device::{Refused, SectorDevice};
use std::alloc::Global;

/// Reads what is on a device. It begins with a sync and writes nothing. Blobs of up to `most` bytes
/// are kept. `Err`: `Memory` before any device call, `Device` if one failed.
pub fn open_log<D: SectorDevice>(
    alloc: Global,
    device: D,
    most: usize,
) -> Result<Opened<D>, Refused<LogFault, D>>
    ensures looked { (D.disk device).honest → HasLooked (D.disk device) (D.disk (left_by_open result)) }
    ensures opened { IfOk result (λ opened. HasOpened (D.disk device) (D.disk (device_under opened)) most opened) }
    ensures cause { IfErr result (λ refused.
        (refused.why ≡ Memory × refused.device ≡ device) ⊎ (refused.why ≡ Device)) }
    ensures answered { HasAnswered (λ refused. faults_after refused.why) (D.disk device) (D.disk (left_by_open result))
        result }
{
    let mut device = device;
    let Ok(mut log) = Vec::with_capacity(alloc, MOST_ENTRIES_READ) else {
        return Err(Refused {
            why: LogFault::Memory,
            device,
        });
    };
    let Ok(mut blob) = Vec::with_capacity(alloc, most) else {
        return Err(Refused {
            why: LogFault::Memory,
            device,
        });
    };
    let Ok(found) = read_chosen_log(&mut device, &mut log) else {
        return Err(Refused {
            why: LogFault::Device,
            device,
        });
    };
    let Ok(blob_read) = read_chosen_blob(&mut device, found.root, most, &mut blob) else {
        return Err(Refused {
            why: LogFault::Device,
            device,
        });
    };
    Ok(Opened {
        device,
        root: found.root,
        too_small: found.too_small,
        log,
        most,
        blob_read,
        blob,
    })
}
