//! The inputs that pass time.

/// An input that passes time. The power switch and another machine of the same cartridge are inputs, too: they are
/// machines that take the place of this one.
#[derive(Clone, Copy, Debug, PartialEq, Eq)]
pub enum Input {
    /// A frame with these buttons: Right, Left, Up, Down, A, B, Select, Start as bits 0 to 7, 1 for
    /// pressed.
    Frame(u8),
    /// This many seconds on the MBC3 clock; without a clock nothing changes.
    Seconds(u32),
}
