//! What a snapshot holds of the machine beside its stores.

use memory_map::BusWithoutMemory;
use sm83_alu::Registers;
use sm83_processor::ProcessorState;

/// What a snapshot holds of the machine besides its stores of bytes and the rows of the picture.
#[derive(Clone, Copy, PartialEq, Eq)]
pub struct MachineWithoutMemory {
    pub registers: Registers,
    pub state: ProcessorState,
    /// The M-cycles by which the last frame overran, 0 to 5.
    pub overrun: u8,
    pub bus: BusWithoutMemory,
}
