//! Operations on the bits of a byte.

ghost use Rattle.std.specs.Prelude.{◌≡◌, ◌%◌, bit_and, bit_or, bit_xor, true, false};
ghost use Rattle.sm83_alu.specs.Bits.{outcome_of, rotated_left, rotated_right, rotated_left_through, rotated_right_through, shifted_left_arithmetic, shifted_right_logical, shifted_right_arithmetic, swapped_nibbles, with_zero_clear, complement_of, with_carry_set, with_carry_flipped, tested_bit, without_bit, with_bit};

use crate::register_file::{Flags, Outcome};

fn outcome(value: u8, half_carry: bool, carry: bool) -> Outcome
    ensures { result ≡ outcome_of value half_carry carry }
{
    Outcome {
        value,
        flags: Flags {
            zero: value == 0,
            subtract: false,
            half_carry,
            carry,
        },
    }
}

/// AND.
pub fn and(a: u8, b: u8) -> Outcome
    ensures { result ≡ outcome_of (bit_and a b) true false }
{
    outcome(a & b, true, false)
}

/// OR.
pub fn or(a: u8, b: u8) -> Outcome
    ensures { result ≡ outcome_of (bit_or a b) false false }
{
    outcome(a | b, false, false)
}

/// XOR.
pub fn xor(a: u8, b: u8) -> Outcome
    ensures { result ≡ outcome_of (bit_xor a b) false false }
{
    outcome(a ^ b, false, false)
}

/// RLC.
pub fn rotate_left(value: u8) -> Outcome
    ensures { result ≡ rotated_left value }
{
    outcome((value << 1) | (value >> 7), false, value & 0x80 != 0)
}

/// RRC.
pub fn rotate_right(value: u8) -> Outcome
    ensures { result ≡ rotated_right value }
{
    outcome((value >> 1) | (value << 7), false, value & 0x01 != 0)
}

/// RL.
pub fn rotate_left_through_carry(value: u8, carry: bool) -> Outcome
    ensures { result ≡ rotated_left_through value carry }
{
    outcome((value << 1) | u8::from(carry), false, value & 0x80 != 0)
}

/// RR.
pub fn rotate_right_through_carry(value: u8, carry: bool) -> Outcome
    ensures { result ≡ rotated_right_through value carry }
{
    outcome(
        (value >> 1) | (u8::from(carry) << 7),
        false,
        value & 0x01 != 0,
    )
}

/// SLA.
pub fn shift_left_arithmetic(value: u8) -> Outcome
    ensures { result ≡ shifted_left_arithmetic value }
{
    outcome(value << 1, false, value & 0x80 != 0)
}

/// SRL.
pub fn shift_right_logical(value: u8) -> Outcome
    ensures { result ≡ shifted_right_logical value }
{
    outcome(value >> 1, false, value & 0x01 != 0)
}

/// SRA.
pub fn shift_right_arithmetic(value: u8) -> Outcome
    ensures { result ≡ shifted_right_arithmetic value }
{
    outcome((value >> 1) | (value & 0x80), false, value & 0x01 != 0)
}

/// SWAP.
pub fn swap_nibbles(value: u8) -> Outcome
    ensures { result ≡ swapped_nibbles value }
{
    outcome((value << 4) | (value >> 4), false, false)
}

fn clear_zero(outcome: Outcome) -> Outcome
    ensures { result ≡ with_zero_clear outcome }
{
    Outcome {
        flags: Flags {
            zero: false,
            ..outcome.flags
        },
        ..outcome
    }
}

/// RLCA.
pub fn rotate_accumulator_left(a: u8) -> Outcome
    ensures { result ≡ with_zero_clear (rotated_left a) }
{
    clear_zero(rotate_left(a))
}

/// RRCA.
pub fn rotate_accumulator_right(a: u8) -> Outcome
    ensures { result ≡ with_zero_clear (rotated_right a) }
{
    clear_zero(rotate_right(a))
}

/// RLA.
pub fn rotate_accumulator_left_through_carry(a: u8, carry: bool) -> Outcome
    ensures { result ≡ with_zero_clear (rotated_left_through a carry) }
{
    clear_zero(rotate_left_through_carry(a, carry))
}

/// RRA.
pub fn rotate_accumulator_right_through_carry(a: u8, carry: bool) -> Outcome
    ensures { result ≡ with_zero_clear (rotated_right_through a carry) }
{
    clear_zero(rotate_right_through_carry(a, carry))
}

/// CPL.
pub fn complement(a: u8, flags: Flags) -> Outcome
    ensures { result ≡ complement_of a flags }
{
    Outcome {
        value: !a,
        flags: Flags {
            subtract: true,
            half_carry: true,
            ..flags
        },
    }
}

/// SCF.
pub fn set_carry(flags: Flags) -> Flags
    ensures { result ≡ with_carry_set flags }
{
    Flags {
        subtract: false,
        half_carry: false,
        carry: true,
        ..flags
    }
}

/// CCF.
pub fn flip_carry(flags: Flags) -> Flags
    ensures { result ≡ with_carry_flipped flags }
{
    Flags {
        subtract: false,
        half_carry: false,
        carry: !flags.carry,
        ..flags
    }
}

/// BIT: Z tells that the bit is 0. Its number is taken modulo 8.
pub fn test_bit(bit: u8, value: u8, flags: Flags) -> Flags
    ensures { result ≡ tested_bit (bit % 8) value flags }
{
    Flags {
        zero: value & (1 << (bit % 8)) == 0,
        subtract: false,
        half_carry: true,
        carry: flags.carry,
    }
}

/// RES: the byte with the bit 0. Its number is taken modulo 8.
pub fn reset_bit(bit: u8, value: u8) -> u8
    ensures { result ≡ without_bit (bit % 8) value }
{
    value & !(1 << (bit % 8))
}

/// SET: the byte with the bit 1. Its number is taken modulo 8.
pub fn set_bit(bit: u8, value: u8) -> u8
    ensures { result ≡ with_bit (bit % 8) value }
{
    value | (1 << (bit % 8))
}
