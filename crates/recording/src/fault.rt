//! Why a call of a recording was refused.
ghost use Rattle.std.specs.Prelude.{◌≡◌};
ghost use Rattle.recording.specs.declared.fault.RecordingFault.TheVariants.{Device};

use sector_device::DeviceFault;
use thiserror::Error;

/// Why a call of a recording was refused, with the text of each reason.
#[derive(Clone, Copy, Debug, PartialEq, Eq, Error)]
pub enum RecordingFault {
    /// Memory was refused.
    #[error("no memory")]
    Memory,
    /// A call of the device failed.
    #[error("device failed")]
    Device,
    /// A recording needs a sector for its head and one for inputs.
    #[error("too small, 2 sectors needed")]
    TooSmall,
    /// A recording is created only where each sector is all zeros.
    #[error("not blank")]
    NotBlank,
    /// Sector 0 is not the head of a recording.
    #[error("no recording")]
    NoRecording,
    /// It is the head of a recording of another ROM.
    #[error("other cartridge")]
    OtherCartridge,
    /// The inputs don't fit the sectors that are left.
    #[error("recording full")]
    Full,
    /// An earlier call of the device failed.
    #[error("broken, open it again")]
    Broken,
}

impl From<DeviceFault> for RecordingFault {
    ghost from_gives = { λ _ e. e ≡ Device };

    fn from(_: DeviceFault) -> Self {
        RecordingFault::Device
    }
}
