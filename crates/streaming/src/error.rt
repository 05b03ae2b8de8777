//! Why a stream was refused.

use session::SessionError;
use thiserror::Error;

/// Why a stream was refused, with the text of each reason.
#[derive(Clone, Copy, Debug, PartialEq, Eq, Error)]
pub enum StreamError {
    /// The game was not resumed, or an input, a save or the output was refused.
    #[error("{0}")]
    Session(SessionError),
    /// The number of the first wrong line, counted from 1.
    #[error("script line {0}")]
    Line(u64),
    /// A read of the input failed.
    #[error("input failed")]
    Input,
    /// The bytes behind a line are no state.
    #[error("damaged snapshot")]
    Snapshot,
    /// The bytes behind a line are a state of another cartridge.
    #[error("other cartridge")]
    OtherCartridge,
    /// There was no memory for a line.
    #[error("no memory")]
    Memory,
}
