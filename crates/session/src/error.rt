//! Why a call of a session was refused.

use sector_log::LogFault;
use snapshot::SnapError;
use thiserror::Error;

/// What is damaged in a content that was found.
#[derive(Clone, Copy, Debug, PartialEq, Eq, Error)]
pub enum Damage {
    /// The count of inputs exceeds the greatest `u64`.
    #[error("count")]
    Count,
    /// The snapshot is not a legal one of this cartridge.
    #[error("snapshot")]
    Snapshot(SnapError),
    /// The entry of the log at this index, from 0, is not an input.
    #[error("entry {0}")]
    Entry(u32),
}

/// Why a call of a session was refused, with the text of each reason.
#[derive(Clone, Copy, Debug, PartialEq, Eq, Error)]
pub enum SessionError {
    /// Memory was refused.
    #[error("no memory")]
    Memory,
    /// A call of the device failed.
    #[error("device failed")]
    Device,
    /// There is no valid root on the device.
    #[error("no session")]
    NoSession,
    /// An area does not hold the snapshot: the sectors that the device would need.
    #[error("too small, {need} sectors needed")]
    TooSmall { need: u64 },
    /// The session on the device is of another ROM.
    #[error("other cartridge")]
    OtherCartridge,
    /// What was found is damaged.
    #[error("damaged {0}")]
    Damaged(Damage),
    /// The last generation is the greatest `u64`.
    #[error("generations used up")]
    GenerationsUsedUp,
    /// An earlier call of the device failed: only resuming helps.
    #[error("broken, open it again")]
    Broken,
    /// There are 3,200 unsaved inputs.
    #[error("save first")]
    SaveFirst,
    /// The count of inputs is the greatest `u64`.
    #[error("count full")]
    CountFull,
    /// The report could not be written.
    #[error("output failed")]
    Output,
}
