//! The processor of the Game Boy, the SM83, over any memory.
//!
//! A step is a wait, the dispatch of an interrupt or one instruction. What it should do is defined
//! in `specs/Steps.antt` and `specs/Execution.antt`; `Processor::step` is proved to do exactly that
//! over every memory that meets the trait `Memory`.
#![tactic(auto)]

mod instructions;
mod kept_memory;
pub mod laws;
mod lengths;
pub mod memory;
mod opcodes;
pub mod processor;
mod register_operations;
mod register_pairs;
pub mod step;
mod still_steps;

pub use lengths::length_of_opcode;
pub use memory::Memory;
pub use opcodes::FIRST_OWN_LOOP;
pub use processor::{Processor, ProcessorState};
pub use step::{Executed, StepKind, Stepped};
