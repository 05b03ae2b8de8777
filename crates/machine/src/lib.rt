//! The whole Game Boy: the processor over the bus, its frames and its inputs.
//!
//! What it should do is defined in `specs/Machine.antt`, over the step of the processor
//! (`sm83_processor/specs/Steps.antt`) and the rules of the bus (`memory_map/specs/BusRules.antt`).
#![tactic(auto)]

mod counting_loop;
mod frame;
pub mod input;
pub mod laws;
pub mod looking;
mod loops;
pub mod machine;
pub mod machine_without_memory;
pub mod passing;
mod polling_loop;
mod steps;
mod untimed;
mod waiting_loop;
pub mod watch;
pub mod watched;

pub use input::Input;
pub use looking::{PICTURE_LENGTH, write_memory, write_shades};
pub use machine::Machine;
pub use machine_without_memory::MachineWithoutMemory;
pub use memory_map::{BusWithoutMemory, Region};
pub use passing::Passed;
pub use sm83_processor::{Executed, Memory, Processor, ProcessorState, StepKind, Stepped};
pub use watch::Watch;
pub use watched::{Watched, WatchedFrame, WatchedStep};
