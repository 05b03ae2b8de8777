//! Why a life was refused.

use crate::devices::Devices;
use recorded_play::RecordError;
use streaming::StreamError;
use thiserror::Error;

/// Why a life was refused, with the text of each reason.
#[derive(Clone, Copy, Debug, PartialEq, Eq, Error)]
pub enum LifeError {
    /// There was no memory for the ends, or for what a cut leaves.
    #[error("no memory")]
    Memory,
    /// The game of a SAVE alone was not resumed, or a round of it was refused.
    #[error("{0}")]
    Stream(StreamError),
    /// A game with its recording was not taken up, or a round of it was refused.
    #[error("{0}")]
    Record(RecordError),
}

/// A refusal that hands the devices back, as the last call of each left it.
#[derive(Drop)]
pub struct LifeRefused {
    pub why: LifeError,
    pub devices: Devices,
}
