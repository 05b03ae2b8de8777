//! The instruction table of the SM83: which instruction three bytes begin, how many bytes and
//! M-cycles it has, and its text (Pan Docs, 'CPU Instruction Set').
//!
//! Every call is total and takes no memory. The table itself stands in `specs/`, by the fields of
//! an opcode.
#![tactic(auto)]

pub mod decoding;
pub mod instruction;
mod laws;
pub mod listing;
pub mod operands;
pub mod text;
mod timing;

pub use decoding::{Decoded, decode};
pub use instruction::{
    AccumulatorOperation, Condition, Indirect, Instr, Operand8, Operation, Register16, Shift,
    StackRegister16,
};
pub use laws::each_opcode_has_its_row;
pub use listing::{Line, list_line};
pub use text::{Text, write_text};
