//! Why a command was refused.
use cartridge::CartError;
use debugging::DebugError;
use recording::RecordingFault;
use replaying::VerifyError;
use script::ScriptError;
use session::SessionError;
use streaming::StreamError;
use thiserror::Error;

/// Why a command was refused, or did not do all of it. Each call says which of these it answers, and in which order.
#[derive(Clone, Copy, Debug, PartialEq, Eq, Error)]
pub enum CommandError {
    /// The image is no cartridge.
    #[error(transparent)]
    Cart(CartError),
    /// The script is refused.
    #[error(transparent)]
    Script(ScriptError),
    /// The game could not be taken up or looked at, or the play ended here.
    #[error(transparent)]
    Session(SessionError),
    /// The stream ended here.
    #[error(transparent)]
    Stream(StreamError),
    /// The recording could not be opened, or not be read to its end.
    #[error(transparent)]
    Recording(RecordingFault),
    /// The game and the recording do not agree, or could not be compared.
    #[error(transparent)]
    Verify(VerifyError),
    /// The debugger stopped before the end of its input.
    #[error(transparent)]
    Debug(DebugError),
    /// There is no memory for a machine of its own.
    #[error("no memory")]
    Memory,
    /// A write failed or took no byte: a proper prefix of the text, or of the picture, went out.
    #[error("output failed")]
    Output,
}
