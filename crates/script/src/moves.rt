//! What a line of a script asks for.

/// One move.
#[derive(Clone, Copy, Debug, PartialEq, Eq)]
pub enum Move {
    /// Frames with these buttons held (a bit each), one after another.
    Frames {
        buttons: u8,
        /// How often: 1 to 1,000,000.
        times: u32,
    },
    /// So many seconds of the cartridge's clock, at once.
    Seconds(u32),
    /// A save.
    Save,
    /// The power switch, off and on.
    Power,
}
