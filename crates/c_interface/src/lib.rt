//! The machine and the session of `embedding` and the clock of `cartridge_clock` for C. `library/gbkeep.h` declares what a program calls;
//! `library/gbkeep.c` stands between that and these exports.
//!
//! A handle is the address of a box. Each export of a machine or a session takes the handle, by value, and leaves it again in `out`, which may be where it was: what
//! `out` held before is forgotten. Conditions of each: a handle was made by `make`, it is given to one call at a time, and to none after `free`.
#![tactic(auto)]

mod clock_exports;
mod codes;
mod loose;
mod machine_exports;
mod machine_handle;
mod session_exports;
mod session_handle;

pub use machine_handle::MachineHandle;
pub use session_handle::SessionHandle;
