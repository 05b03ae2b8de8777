//! A fuse of a device, as it was set.

/// How many calls it lets pass from then on, and what was counted by then: no later call changes it.
#[derive(Clone, Copy)]
pub(crate) struct Fuse {
    /// So many calls pass.
    pub lets: u64,
    /// How many calls the device had been asked for.
    pub asked: u64,
    /// How many of its calls had failed.
    pub faults: u64,
}
