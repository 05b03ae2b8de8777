//! Why a run stopped.

/// Why `Debugger::run_until` stopped.
#[derive(Clone, Copy)]
pub enum Stop {
    /// The next step would have begun at this address, which is one of the breakpoints.
    Break(u16),
    /// All steps were made.
    Limit,
}
