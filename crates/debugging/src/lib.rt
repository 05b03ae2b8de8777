//! A debugger that is obeyed line by line: each line of an input is read, done and answered before the next is read.
//!
//! What a line asks for is defined in `specs/Orders.antt`, how the machine then runs in `specs/Run.antt`, and what is answered, byte for
//! byte, in `specs/Answers.antt`.
#![tactic(auto)]

mod aims;
mod answering;
mod banks;
mod cycles;
pub mod error;
mod given;
mod obeying;
pub mod order;
mod passing;
mod position;
mod probe;
mod profiling;
pub mod registers;
mod run;
mod switching;

pub use error::DebugError;
pub use obeying::LineDebugger;
pub use order::{
    Condition, Order, Place, Span, StateOrder, read_order, read_restore, read_state_order,
};
pub use registers::RegisterValue;
