//! The devices that a game is kept on: their fuses, and what a cut leaves of them.
ghost use Rattle.std.specs.Prelude.{◌≡◌, IfOk};
ghost use Rattle.std.specs.Option.{option_map};
ghost use Rattle.sector_device.specs.Memory.{fused};
ghost use Rattle.sector_device.specs.MemoryDevice.{memory};
ghost use Rattle.whole_lives.specs.Devices.{IsCut, IsCutIfThere, memories};

use sector_device::MemoryDevice;
use std::alloc::{AllocError, Global};

/// The devices that a game is kept on: that of its SAVE and, where its inputs are recorded, that of its recording.
#[derive(Drop)]
pub struct Devices {
    pub save: MemoryDevice,
    pub recording: Option<MemoryDevice>,
}

/// The device with its fuse set.
fn with_fuse(device: MemoryDevice, calls: u64) -> MemoryDevice
    ensures { memory result ≡ fused calls (memory device) }
{
    let mut device = device;
    device.fuse(calls);
    device
}

impl Devices {
    /// With the fuse of each set.
    pub(crate) fn with_fuses(self, save_calls: u64, recording_calls: u64) -> Devices
        ensures { memories result ≡ record {
          save = fused save_calls (memory self.save);
          recording = option_map (fused recording_calls) (memories self).recording;
        } }
    {
        let Devices { save, recording } = self;
        Devices {
            save: with_fuse(save, save_calls),
            recording: match recording {
                Some(recording) => Some(with_fuse(recording, recording_calls)),
                None => None,
            },
        }
    }
}

/// What a cut leaves of a recording's device, where there is one.
fn cut_recording(
    alloc: Global,
    recording: &Option<MemoryDevice>,
    kept: &[bool],
) -> Result<Option<MemoryDevice>, AllocError>
    ensures { IfOk result (λ left. IsCutIfThere kept.now (option_map memory recording.now) (option_map memory left)) }
{
    match recording {
        Some(device) => Ok(Some(device.image(alloc, kept)?)),
        None => Ok(None),
    }
}

/// Cuts the power: what is left of each device is the image as of the last successful sync, with the chosen later writes. `Err` only when
/// out of memory.
pub(crate) fn cut(
    alloc: Global,
    devices: &Devices,
    save_kept: &[bool],
    recording_kept: &[bool],
) -> Result<Devices, AllocError>
    ensures save { IfOk result (λ left. IsCut save_kept.now (memory (devices.now).save) (memory left.save)) }
    ensures recording { IfOk result (λ left.
        IsCutIfThere recording_kept.now (memories devices.now).recording (memories left).recording) }
{
    let save = devices.save.image(alloc, save_kept)?;
    let recording = cut_recording(alloc, &devices.recording, recording_kept)?;
    Ok(Devices { save, recording })
}
