//! A refusal that hands a device back.
use crate::device::SectorDevice;

/// A refusal that hands the device back.
#[derive(Drop)]
pub struct Refused<E: Copy, D: SectorDevice> {
    /// Which of the call's refusals it is.
    pub why: E,
    /// The device, as the call left it.
    pub device: D,
}
