//! The operands that the fields of an opcode name, by their numbers. All are in line: where a number is a
//! constant, so is what it names.

ghost use Rattle.std.specs.Prelude.{◌≡◌, ◌<◌};
ghost use Rattle.opcode_table.specs.Operands.{operand8_of, register16_of, stack_register16_of, indirect_of, condition_of, operation_of, accumulator_operation_of, shift_of};

use crate::instruction::{
    AccumulatorOperation, Condition, Indirect, Operand8, Operation, Register16, Shift,
    StackRegister16,
};

/// B, C, D, E, H, L, (HL) or A.
#[inline(always)]
pub fn operand(number: u8) -> Operand8
    requires { number < 8 }
    ensures { result ≡ operand8_of number }
{
    match number {
        0 => Operand8::B,
        1 => Operand8::C,
        2 => Operand8::D,
        3 => Operand8::E,
        4 => Operand8::H,
        5 => Operand8::L,
        6 => Operand8::AtHl,
        _ => Operand8::A,
    }
}

/// BC, DE, HL or SP.
#[inline(always)]
pub fn register16(number: u8) -> Register16
    requires { number < 4 }
    ensures { result ≡ register16_of number }
{
    match number {
        0 => Register16::Bc,
        1 => Register16::De,
        2 => Register16::Hl,
        _ => Register16::Sp,
    }
}

/// BC, DE, HL or AF.
#[inline(always)]
pub fn stack_register16(number: u8) -> StackRegister16
    requires { number < 4 }
    ensures { result ≡ stack_register16_of number }
{
    match number {
        0 => StackRegister16::Bc,
        1 => StackRegister16::De,
        2 => StackRegister16::Hl,
        _ => StackRegister16::Af,
    }
}

/// (BC), (DE), (HL+) or (HL-).
#[inline(always)]
pub fn indirect(number: u8) -> Indirect
    requires { number < 4 }
    ensures { result ≡ indirect_of number }
{
    match number {
        0 => Indirect::Bc,
        1 => Indirect::De,
        2 => Indirect::HlUp,
        _ => Indirect::HlDown,
    }
}

/// NZ, Z, NC or C.
#[inline(always)]
pub fn condition(number: u8) -> Condition
    requires { number < 4 }
    ensures { result ≡ condition_of number }
{
    match number {
        0 => Condition::NotZero,
        1 => Condition::Zero,
        2 => Condition::NotCarry,
        _ => Condition::Carry,
    }
}

/// ADD, ADC, SUB, SBC, AND, XOR, OR or CP.
#[inline(always)]
pub fn operation(number: u8) -> Operation
    requires { number < 8 }
    ensures { result ≡ operation_of number }
{
    match number {
        0 => Operation::Add,
        1 => Operation::AddCarry,
        2 => Operation::Subtract,
        3 => Operation::SubtractCarry,
        4 => Operation::And,
        5 => Operation::Xor,
        6 => Operation::Or,
        _ => Operation::Compare,
    }
}

/// RLCA, RRCA, RLA, RRA, DAA, CPL, SCF or CCF.
#[inline(always)]
pub fn accumulator_operation(number: u8) -> AccumulatorOperation
    requires { number < 8 }
    ensures { result ≡ accumulator_operation_of number }
{
    match number {
        0 => AccumulatorOperation::RotateLeft,
        1 => AccumulatorOperation::RotateRight,
        2 => AccumulatorOperation::RotateLeftThrough,
        3 => AccumulatorOperation::RotateRightThrough,
        4 => AccumulatorOperation::DecimalAdjust,
        5 => AccumulatorOperation::Complement,
        6 => AccumulatorOperation::SetCarry,
        _ => AccumulatorOperation::FlipCarry,
    }
}

/// RLC, RRC, RL, RR, SLA, SRA, SWAP or SRL.
#[inline(always)]
pub fn shift(number: u8) -> Shift
    requires { number < 8 }
    ensures { result ≡ shift_of number }
{
    match number {
        0 => Shift::RotateLeft,
        1 => Shift::RotateRight,
        2 => Shift::RotateLeftThrough,
        3 => Shift::RotateRightThrough,
        4 => Shift::ShiftLeftArithmetic,
        5 => Shift::ShiftRightArithmetic,
        6 => Shift::Swap,
        _ => Shift::ShiftRightLogical,
    }
}
