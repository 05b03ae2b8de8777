//! Why a recorded play was refused.

use recording::RecordingFault;
use sector_device::SectorDevice;
use session::SessionError;
use thiserror::Error;

/// Why a recorded play was refused, with the text of each reason.
#[derive(Clone, Copy, Debug, PartialEq, Eq, Error)]
pub enum RecordError {
    /// The game was not resumed, or an input, a save or the output was refused.
    #[error("{0}")]
    Session(SessionError),
    /// The recording was not opened, a call of its device failed, or it is full.
    #[error("{0}")]
    Recording(RecordingFault),
    /// The recording has fewer inputs than the game: so many.
    #[error("recording behind, {0} inputs")]
    Behind(u64),
    /// The number of the first wrong line, counted from 1.
    #[error("script line {0}")]
    Line(u64),
    /// A read of the input failed.
    #[error("input failed")]
    Input,
}

/// A refusal that hands both devices back.
#[derive(Drop)]
pub struct RecordRefused<D: SectorDevice, E: SectorDevice> {
    pub why: RecordError,
    /// The device of the SAVE, as the last call of it left it.
    pub save: D,
    /// The device of the recording, as the last call of it left it.
    pub recording: E,
}
