//! What instructions do to the registers alone.

ghost use Rattle.std.specs.Prelude.{◌≡◌};
ghost use Rattle.sm83_processor.specs.RegisterOperations.{condition_holds, operated, accumulator_operated, shifted, indirect_address, after_access, with_result};

use crate::register_pairs::{hl, register16, set_hl};
use opcode_table::{AccumulatorOperation, Condition, Indirect, Operation, Register16, Shift};
use sm83_alu::{Flags, Outcome, Registers};

#[inline(always)]
pub(crate) fn condition_holds(condition: Condition, flags: Flags) -> bool
    ensures { result ≡ condition_holds condition flags }
{
    match condition {
        Condition::NotZero => !flags.zero,
        Condition::Zero => flags.zero,
        Condition::NotCarry => !flags.carry,
        Condition::Carry => flags.carry,
    }
}

/// Sets the flags one by one, so that each is stored as it is found.
#[inline(always)]
pub(crate) fn set_flags(registers: &mut Registers, flags: Flags)
    ensures { registers.new ≡ record registers.old { flags = flags } }
{
    registers.flags.zero = flags.zero;
    registers.flags.subtract = flags.subtract;
    registers.flags.half_carry = flags.half_carry;
    registers.flags.carry = flags.carry;
}

/// Sets the flags but C, which stays as it is and is not stored.
#[inline(always)]
pub(crate) fn set_flags_but_carry(registers: &mut Registers, flags: Flags)
    ensures { registers.new ≡ record registers.old { flags = record flags { carry = registers.old.flags.carry } } }
{
    registers.flags.zero = flags.zero;
    registers.flags.subtract = flags.subtract;
    registers.flags.half_carry = flags.half_carry;
}

#[inline(always)]
fn set_result(registers: &mut Registers, outcome: Outcome)
    ensures { registers.new ≡ with_result outcome registers.old }
{
    registers.a = outcome.value;
    set_flags(registers, outcome.flags);
}

#[inline(always)]
pub(crate) fn operate(registers: &mut Registers, operation: Operation, byte: u8)
    ensures { registers.new ≡ operated operation byte registers.old }
{
    let a = registers.a;
    let carry = registers.flags.carry;
    match operation {
        Operation::Add => set_result(registers, sm83_alu::add(a, byte, false)),
        Operation::AddCarry => set_result(registers, sm83_alu::add(a, byte, carry)),
        Operation::Subtract => set_result(registers, sm83_alu::subtract(a, byte, false)),
        Operation::SubtractCarry => set_result(registers, sm83_alu::subtract(a, byte, carry)),
        Operation::And => set_result(registers, sm83_alu::and(a, byte)),
        Operation::Xor => set_result(registers, sm83_alu::xor(a, byte)),
        Operation::Or => set_result(registers, sm83_alu::or(a, byte)),
        Operation::Compare => set_flags(registers, sm83_alu::subtract(a, byte, false).flags),
    }
}

#[inline(always)]
pub(crate) fn operate_accumulator(registers: &mut Registers, operation: AccumulatorOperation)
    ensures { registers.new ≡ accumulator_operated operation registers.old }
{
    let a = registers.a;
    let flags = registers.flags;
    match operation {
        AccumulatorOperation::RotateLeft => {
            set_result(registers, sm83_alu::rotate_accumulator_left(a))
        }
        AccumulatorOperation::RotateRight => {
            set_result(registers, sm83_alu::rotate_accumulator_right(a))
        }
        AccumulatorOperation::RotateLeftThrough => set_result(
            registers,
            sm83_alu::rotate_accumulator_left_through_carry(a, flags.carry),
        ),
        AccumulatorOperation::RotateRightThrough => set_result(
            registers,
            sm83_alu::rotate_accumulator_right_through_carry(a, flags.carry),
        ),
        AccumulatorOperation::DecimalAdjust => {
            set_result(registers, sm83_alu::decimal_adjust(a, flags))
        }
        AccumulatorOperation::Complement => set_result(registers, sm83_alu::complement(a, flags)),
        AccumulatorOperation::SetCarry => set_flags(registers, sm83_alu::set_carry(flags)),
        AccumulatorOperation::FlipCarry => set_flags(registers, sm83_alu::flip_carry(flags)),
    }
}

#[inline(always)]
pub(crate) fn shift(shift: Shift, value: u8, carry: bool) -> Outcome
    ensures { result ≡ shifted shift value carry }
{
    match shift {
        Shift::RotateLeft => sm83_alu::rotate_left(value),
        Shift::RotateRight => sm83_alu::rotate_right(value),
        Shift::RotateLeftThrough => sm83_alu::rotate_left_through_carry(value, carry),
        Shift::RotateRightThrough => sm83_alu::rotate_right_through_carry(value, carry),
        Shift::ShiftLeftArithmetic => sm83_alu::shift_left_arithmetic(value),
        Shift::ShiftRightArithmetic => sm83_alu::shift_right_arithmetic(value),
        Shift::Swap => sm83_alu::swap_nibbles(value),
        Shift::ShiftRightLogical => sm83_alu::shift_right_logical(value),
    }
}

#[inline(always)]
pub(crate) fn address(registers: &Registers, indirect: Indirect) -> u16
    ensures { result ≡ indirect_address indirect registers.now }
{
    match indirect {
        Indirect::Bc => register16(registers, Register16::Bc),
        Indirect::De => register16(registers, Register16::De),
        Indirect::HlUp | Indirect::HlDown => hl(registers),
    }
}

#[inline(always)]
pub(crate) fn finish_access(registers: &mut Registers, indirect: Indirect)
    ensures { registers.new ≡ after_access indirect registers.old }
{
    match indirect {
        Indirect::Bc | Indirect::De => {}
        Indirect::HlUp => {
            let next = hl(registers).wrapping_add(1);
            set_hl(registers, next);
        }
        Indirect::HlDown => {
            let next = hl(registers).wrapping_sub(1);
            set_hl(registers, next);
        }
    }
}
