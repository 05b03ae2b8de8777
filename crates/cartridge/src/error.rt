//! Why an image is refused.
use thiserror::Error;

/// The first rule that an image breaks.
#[derive(Clone, Copy, Debug, PartialEq, Eq, Error)]
pub enum CartError {
    /// The image is not 32 KiB times a power of two: its length in bytes.
    #[error("rom length {0}")]
    Length(u64),
    /// The cartridge type at 0147 is not one of the known controllers.
    #[error("cartridge type {0:02X}")]
    Kind(u8),
    /// The RAM code at 0149 is not a known one.
    #[error("ram code {0:02X}")]
    RamCode(u8),
    /// More banks of 16 KiB than the controller reaches.
    #[error("too many banks {0}")]
    TooManyBanks(u64),
}
