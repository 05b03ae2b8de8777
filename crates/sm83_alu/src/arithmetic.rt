//! Sums and differences.

ghost use Rattle.std.specs.Prelude.{◌≡◌, nat_le, nat_lt, if◌then◌else◌};
ghost use Rattle.sm83_alu.specs.Flags.{digit_of};
ghost use Rattle.sm83_alu.specs.Arithmetic.{sum_of, difference_of, increment_of, decrement_of, next_word, previous_word, word_sum_of, offset_sum_of, decimal_of};

use crate::register_file::{Flags, Outcome, WordOutcome};

/// Whether a sum is below its first term, or no more than it where `carry` is set.
#[inline(always)]
fn wraps_below(sum: u8, first: u8, carry: bool) -> bool
    ensures { result ≡ (if carry then nat_le sum first else nat_lt sum first) }
{
    if carry { sum <= first } else { sum < first }
}

/// ADD and ADC: `a + b`, and 1 more where `carry` is set.
pub fn add(a: u8, b: u8, carry: bool) -> Outcome
    ensures { result ≡ sum_of a b (digit_of carry) }
{
    // A sum that wraps is below its first term, or no more than it where 1 was added: so the host makes no wider one.
    let value = a.wrapping_add(b).wrapping_add(if carry { 1 } else { 0 });
    Outcome {
        value,
        flags: Flags {
            zero: value == 0,
            subtract: false,
            half_carry: wraps_below(value & 0x0f, a & 0x0f, carry),
            carry: wraps_below(value, a, carry),
        },
    }
}

/// SUB, SBC and CP: `a - b`, and 1 less where `borrow` is set. CP drops the value.
pub fn subtract(a: u8, b: u8, borrow: bool) -> Outcome
    ensures { result ≡ difference_of a b (digit_of borrow) }
{
    let borrow = if borrow { 1 } else { 0 };
    let value = a.wrapping_sub(b).wrapping_sub(borrow);
    Outcome {
        value,
        flags: Flags {
            zero: value == 0,
            subtract: true,
            half_carry: (a & 0x0f) < (b & 0x0f) + borrow,
            carry: u16::from(a) < u16::from(b) + u16::from(borrow),
        },
    }
}

/// INC of a byte, which keeps C.
pub fn increment(value: u8, flags: Flags) -> Outcome
    ensures { result ≡ increment_of value flags }
{
    let next = value.wrapping_add(1);
    Outcome {
        value: next,
        flags: Flags {
            zero: next == 0,
            subtract: false,
            half_carry: value & 0x0f == 0x0f,
            carry: flags.carry,
        },
    }
}

/// DEC of a byte, which keeps C.
pub fn decrement(value: u8, flags: Flags) -> Outcome
    ensures { result ≡ decrement_of value flags }
{
    let next = value.wrapping_sub(1);
    Outcome {
        value: next,
        flags: Flags {
            zero: next == 0,
            subtract: true,
            half_carry: value & 0x0f == 0,
            carry: flags.carry,
        },
    }
}

/// INC of a 16-bit register, which changes no flag.
pub fn increment_word(word: u16) -> u16
    ensures { result ≡ next_word word }
{
    word.wrapping_add(1)
}

/// DEC of a 16-bit register, which changes no flag.
pub fn decrement_word(word: u16) -> u16
    ensures { result ≡ previous_word word }
{
    word.wrapping_sub(1)
}

/// ADD HL,rp, which keeps Z.
pub fn add_words(left: u16, right: u16, flags: Flags) -> WordOutcome
    ensures { result ≡ word_sum_of left right flags }
{
    WordOutcome {
        value: left.wrapping_add(right),
        flags: Flags {
            zero: flags.zero,
            subtract: false,
            half_carry: (left & 0x0fff) + (right & 0x0fff) > 0x0fff,
            carry: u32::from(left) + u32::from(right) > 0xffff,
        },
    }
}

/// ADD SP,e and LD HL,SP+e, where `offset` is the byte of the signed number e.
pub fn add_offset(word: u16, offset: u8) -> WordOutcome
    ensures { result ≡ offset_sum_of word offset }
{
    let low_digits = (word & 0x0f) + u16::from(offset & 0x0f);
    let low_bytes = (word & 0xff) + u16::from(offset);
    let signed = if offset < 0x80 {
        u16::from(offset)
    } else {
        0xff00 + u16::from(offset)
    };
    WordOutcome {
        value: word.wrapping_add(signed),
        flags: Flags {
            zero: false,
            subtract: false,
            half_carry: low_digits > 0x0f,
            carry: low_bytes > 0xff,
        },
    }
}

/// DAA: corrects A to decimal digits after a sum or a difference of such.
pub fn decimal_adjust(a: u8, flags: Flags) -> Outcome
    ensures { result ≡ decimal_of a flags }
{
    let after_sum = !flags.subtract;
    let high = flags.carry || (after_sum && a > 0x99);
    let low = flags.half_carry || (after_sum && a & 0x0f > 0x09);
    let correction = if high { 0x60 } else { 0 } + if low { 0x06 } else { 0 };
    let value = if after_sum {
        a.wrapping_add(correction)
    } else {
        a.wrapping_sub(correction)
    };
    Outcome {
        value,
        flags: Flags {
            zero: value == 0,
            subtract: flags.subtract,
            half_carry: false,
            carry: high,
        },
    }
}
