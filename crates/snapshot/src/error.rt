//! Why bytes give no machine.
use thiserror::Error;

/// Why bytes give no machine of a cartridge: the first of these that holds.
#[derive(Clone, Copy, Debug, PartialEq, Eq, Error)]
pub enum SnapError {
    /// Another length than the snapshots of this cartridge have: the number of bytes.
    #[error("snapshot length {0}")]
    SnapLength(u64),
    /// A field that is not legal: the offset of the first one.
    #[error("snapshot field {0}")]
    Field(u32),
    /// There is no memory for the machine. The snapshot is legal.
    #[error("no memory")]
    Memory,
}
