//! The arithmetic of the SM83 processor: 8-bit and 16-bit operations with their flags.
//!
//! Every call is total and takes no memory. What each gives is its definition in `specs/`, in whole
//! numbers (Pan Docs, 'CPU Instruction Set').
#![tactic(auto)]

pub mod arithmetic;
pub mod bit_operations;
pub mod laws;
pub mod register_file;

pub use arithmetic::{
    add, add_offset, add_words, decimal_adjust, decrement, decrement_word, increment,
    increment_word, subtract,
};
pub use bit_operations::{
    and, complement, flip_carry, or, reset_bit, rotate_accumulator_left,
    rotate_accumulator_left_through_carry, rotate_accumulator_right,
    rotate_accumulator_right_through_carry, rotate_left, rotate_left_through_carry, rotate_right,
    rotate_right_through_carry, set_bit, set_carry, shift_left_arithmetic, shift_right_arithmetic,
    shift_right_logical, swap_nibbles, test_bit, xor,
};
pub use register_file::{Flags, Outcome, Registers, WordOutcome};
