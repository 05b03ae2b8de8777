//! Why a debugger stopped before the end of its input.

use thiserror::Error;

/// Why `LineDebugger::obey` did not answer all lines, with the text of each reason.
#[derive(Clone, Copy, Debug, PartialEq, Eq, Error)]
pub enum DebugError {
    /// A read of the input failed.
    #[error("input failed")]
    Input,
    /// A write failed: a proper prefix of the answers went out.
    #[error("output failed")]
    Output,
    /// There is no memory for a line that takes some: `power`, `profile`, or the first `keep` of a number.
    #[error("no memory")]
    Memory,
}
