//! Why a recording is not written, and why a SAVE is not verified.

use recording::RecordingFault;
use session::SessionError;
use thiserror::Error;

/// Why a recording was not written, or not all of it, with the text of each reason.
#[derive(Clone, Copy, Debug, PartialEq, Eq, Error)]
pub enum WriteRecordedError {
    /// An earlier call of the device failed.
    #[error("broken, open it again")]
    Broken,
    /// A call of the device failed.
    #[error("device failed")]
    Device,
    /// A write failed, or took no byte.
    #[error("output failed")]
    Output,
}

/// Why a SAVE was not verified, with the text of each reason.
#[derive(Clone, Copy, Debug, PartialEq, Eq, Error)]
pub enum VerifyError {
    /// The look at the SAVE was refused.
    #[error("{0}")]
    Save(SessionError),
    /// The recording was not opened or not read.
    #[error("{0}")]
    Recording(RecordingFault),
    /// The recording has fewer inputs than the SAVE: so many.
    #[error("recording behind, {0} inputs")]
    Behind(u64),
    /// The recording has more inputs than it may have beyond those of the SAVE: so many in all.
    #[error("recording ahead, {0} inputs")]
    Ahead(u64),
    /// Memory for a second machine was refused.
    #[error("no memory")]
    Memory,
    /// The machine of the SAVE is not the one that the inputs of the recording lead to.
    #[error("machines differ")]
    Differ,
}
