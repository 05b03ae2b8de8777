//! Why a call of a log was refused.
ghost use Rattle.std.specs.Prelude.{◌≡◌};
ghost use Rattle.sector_log.specs.declared.fault.LogFault.TheVariants.{Device};

use sector_device::DeviceFault;
use thiserror::Error;

/// Why a call of a log was refused, with the text of each reason.
#[derive(Clone, Copy, Debug, PartialEq, Eq, Error)]
pub enum LogFault {
    /// Memory was refused.
    #[error("no memory")]
    Memory,
    /// A call of the device failed.
    #[error("device failed")]
    Device,
    /// An area does not hold the blob.
    #[error("too small, {need} sectors needed")]
    TooSmall {
        /// The sectors that the device would need.
        need: u64,
    },
    /// The last generation is the greatest `u64`.
    #[error("generations used up")]
    GenerationsUsedUp,
    /// The inputs don't fit the log.
    #[error("log full")]
    LogFull,
    /// An earlier call of the device failed.
    #[error("broken, open it again")]
    Broken,
}

impl From<DeviceFault> for LogFault {
    ghost from_gives = { λ _ e. e ≡ Device };

    fn from(_: DeviceFault) -> Self {
        LogFault::Device
    }
}
