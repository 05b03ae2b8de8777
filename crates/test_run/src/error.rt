//! Why a test was not run to its end.

use cartridge::CartError;
use script::ScriptError;
use thiserror::Error;

/// Why a test was not run to its end, with the text of each reason.
#[derive(Clone, Copy, Debug, PartialEq, Eq, Error)]
pub enum TestError {
    /// The image is no cartridge.
    #[error(transparent)]
    Cart(CartError),
    /// The script is refused.
    #[error(transparent)]
    Script(ScriptError),
    /// There is no memory for the machine, or at a power switch for the machine at power-on.
    #[error("no memory")]
    Memory,
    /// A write failed: a proper prefix of the text went out.
    #[error("output failed")]
    Output,
}
