//! From bytes to instructions.

ghost use Rattle.std.specs.Prelude.{◌≡◌, ◌<◌, ◌≤◌, ◌%◌, ◌/◌, slice_index};
ghost use Rattle.opcode_table.specs.Table.{loads_and_steps, jumps_and_stack, bit_instruction, instruction_of};

use crate::instruction::Instr;
use crate::operands::{
    accumulator_operation, condition, indirect, operand, operation, register16, shift,
    stack_register16,
};
use crate::timing::{cycles, cycles_taken, length};

/// An instruction with its length in bytes and its M-cycles.
#[derive(Clone, Copy)]
pub struct Decoded {
    pub instr: Instr,
    pub length: u8,
    /// Where its condition does not hold.
    pub cycles: u8,
    /// Where its condition holds, or it has none.
    pub cycles_taken: u8,
}

#[inline(always)]
#[tactic(auto, unfolding(crate::specs::Table::bit_instruction))]
fn bit_opcode(x: u8, z: u8, y: u8) -> Instr
    requires z_fits { z < 8 }
    requires y_fits { y < 8 }
    ensures { result ≡ bit_instruction x z y }
{
    let operand = operand(z);
    match x {
        0 => Instr::Shift(shift(y), operand),
        1 => Instr::TestBit(y, operand),
        2 => Instr::ResetBit(y, operand),
        _ => Instr::SetBit(y, operand),
    }
}

#[inline(always)]
#[tactic(auto, unfolding(crate::specs::Table::loads_and_steps))]
fn load_or_step(z: u8, y: u8, byte: u8, word: u16) -> Instr
    requires { y < 8 }
    ensures { result ≡ loads_and_steps z y byte word }
{
    let p = y / 2;
    let even = y % 2 == 0;
    match z {
        0 => match y {
            0 => Instr::Nop,
            1 => Instr::StoreSp(word),
            2 => Instr::Stop,
            3 => Instr::JumpRelative(byte),
            _ => Instr::JumpRelativeIf(condition(y - 4), byte),
        },
        1 if even => Instr::LoadRegister16(register16(p), word),
        1 => Instr::AddHl(register16(p)),
        2 if even => Instr::StoreAccumulator(indirect(p)),
        2 => Instr::LoadAccumulator(indirect(p)),
        3 if even => Instr::IncrementRegister16(register16(p)),
        3 => Instr::DecrementRegister16(register16(p)),
        4 => Instr::Increment(operand(y)),
        5 => Instr::Decrement(operand(y)),
        6 => Instr::LoadByte(operand(y), byte),
        _ => Instr::Accumulator(accumulator_operation(y)),
    }
}

#[inline(always)]
#[tactic(auto, unfolding(crate::specs::Table::jumps_and_stack))]
fn jump_or_stack(opcode: u8, z: u8, y: u8, byte: u8, word: u16) -> Instr
    requires { y < 8 }
    ensures { result ≡ jumps_and_stack opcode z y byte word }
{
    let p = y / 2;
    let even = y % 2 == 0;
    match z {
        0 => match y {
            0..=3 => Instr::ReturnIf(condition(y)),
            4 => Instr::StoreHigh(byte),
            5 => Instr::AddSp(byte),
            6 => Instr::LoadHigh(byte),
            _ => Instr::LoadHlSp(byte),
        },
        1 if even => Instr::Pop(stack_register16(p)),
        1 => match p {
            0 => Instr::Return,
            1 => Instr::ReturnFromInterrupt,
            2 => Instr::JumpHl,
            _ => Instr::LoadSpHl,
        },
        2 => match y {
            0..=3 => Instr::JumpIf(condition(y), word),
            4 => Instr::StoreHighC,
            5 => Instr::StoreAt(word),
            6 => Instr::LoadHighC,
            _ => Instr::LoadAt(word),
        },
        3 => match y {
            0 => Instr::Jump(word),
            6 => Instr::DisableInterrupts,
            7 => Instr::EnableInterrupts,
            _ => Instr::Undefined(opcode),
        },
        4 if y < 4 => Instr::CallIf(condition(y), word),
        4 => Instr::Undefined(opcode),
        5 if even => Instr::Push(stack_register16(p)),
        5 if p == 0 => Instr::Call(word),
        5 => Instr::Undefined(opcode),
        6 => Instr::OperateByte(operation(y), byte),
        _ => Instr::Restart(8 * y),
    }
}

#[inline(always)]
#[tactic(auto, unfolding(crate::specs::Table::instruction_of))]
fn instruction(opcode: u8, low: u8, high: u8) -> Instr
    ensures { result ≡ instruction_of opcode low high }
{
    let word = u16::from(low) + 256 * u16::from(high);
    let y = opcode / 8 % 8;
    let z = opcode % 8;
    match opcode {
        0xcb => bit_opcode(low / 64, low % 8, low / 8 % 8),
        0x76 => Instr::Halt,
        0x00..=0x3f => load_or_step(z, y, low, word),
        0x40..=0x7f => Instr::Load(operand(y), operand(z)),
        0x80..=0xbf => Instr::Operate(operation(y), operand(z)),
        _ => jump_or_stack(opcode, z, y, low, word),
    }
}

ghost use Rattle.std.specs.Prelude.{IsTrue, Contains, ◌↔◌};
ghost use Rattle.opcode_table.specs.Timing.{row_of, decoded_of};
ghost use Rattle.opcode_table.specs.Undefined.{undefined_opcodes, is_undefined};

impl Decoded {
    /// Everything known about an instruction.
    #[inline(always)]
    pub fn of(instr: Instr) -> Decoded
        ensures { result ≡ row_of instr }
    {
        let otherwise = cycles(instr);
        Decoded {
            instr,
            length: length(instr),
            cycles: otherwise,
            cycles_taken: cycles_taken(instr, otherwise),
        }
    }
}

/// The instruction that begins with these bytes; it may use only some of them.
///
/// Every list of three bytes has an answer; the eleven opcodes that no instruction has give
/// `Instr::Undefined`.
#[inline]
pub fn decode(bytes: [u8; 3]) -> Decoded
    ensures table { result ≡ decoded_of (slice_index bytes 0) (slice_index bytes 1) (slice_index bytes 2) }
    ensures undefined { IsTrue (is_undefined result.instr) ↔ Contains undefined_opcodes (slice_index bytes 0) }
{
    Decoded::of(instruction(bytes[0], bytes[1], bytes[2]))
}
