//! Why a script is refused.
use thiserror::Error;

/// What is wrong with a script, or that its moves find no memory.
#[derive(Clone, Copy, Debug, PartialEq, Eq, Error)]
pub enum ScriptError {
    /// The number of the first wrong line, counted from 1; 0 where the script has more than 1,048,576 bytes.
    #[error("script line {0}")]
    Script(u32),
    /// There is no memory for the moves of a script with no wrong line.
    #[error("no memory")]
    Memory,
}
