//! A call that changes a device, as a record keeps it.

#[derive(Clone, Copy)]
pub(crate) enum Recorded {
    /// What was written, and whether reads give it: a failed write may have left the sector old.
    Write {
        at: u64,
        bytes: [u8; 512],
        kept: bool,
    },
    /// Whether it succeeded.
    Sync {
        done: bool,
    },
}
