//! Lengths and M-cycles.

ghost use Rattle.std.specs.Prelude.{◌≡◌, IsTrue, ◌↔◌};
ghost use Rattle.opcode_table.specs.Timing.{is_in_memory, length_of, cycles_of, cycles_taken_of};

use crate::instruction::{Instr, Operand8};

impl Operand8 {
    /// Whether the operand is the byte at HL.
    pub fn is_in_memory(self) -> bool
        ensures { result ≡ is_in_memory self }
    {
        matches!(self, Operand8::AtHl)
    }
}

/// How many bytes an instruction has.
#[inline(always)]
pub(crate) fn length(instr: Instr) -> u8
    ensures { result ≡ length_of instr }
{
    match instr {
        Instr::StoreSp(_)
        | Instr::LoadRegister16(_, _)
        | Instr::JumpIf(_, _)
        | Instr::StoreAt(_)
        | Instr::LoadAt(_)
        | Instr::Jump(_)
        | Instr::CallIf(_, _)
        | Instr::Call(_) => 3,
        Instr::Stop
        | Instr::JumpRelative(_)
        | Instr::JumpRelativeIf(_, _)
        | Instr::LoadByte(_, _)
        | Instr::OperateByte(_, _)
        | Instr::StoreHigh(_)
        | Instr::AddSp(_)
        | Instr::LoadHigh(_)
        | Instr::LoadHlSp(_)
        | Instr::Shift(_, _)
        | Instr::TestBit(_, _)
        | Instr::ResetBit(_, _)
        | Instr::SetBit(_, _) => 2,
        Instr::Nop
        | Instr::AddHl(_)
        | Instr::StoreAccumulator(_)
        | Instr::LoadAccumulator(_)
        | Instr::IncrementRegister16(_)
        | Instr::DecrementRegister16(_)
        | Instr::Increment(_)
        | Instr::Decrement(_)
        | Instr::Accumulator(_)
        | Instr::Load(_, _)
        | Instr::Halt
        | Instr::Operate(_, _)
        | Instr::ReturnIf(_)
        | Instr::Pop(_)
        | Instr::Return
        | Instr::ReturnFromInterrupt
        | Instr::JumpHl
        | Instr::LoadSpHl
        | Instr::StoreHighC
        | Instr::LoadHighC
        | Instr::DisableInterrupts
        | Instr::EnableInterrupts
        | Instr::Push(_)
        | Instr::Restart(_)
        | Instr::Undefined(_) => 1,
    }
}

/// The M-cycles where the condition, if there is one, does not hold.
#[inline(always)]
pub(crate) fn cycles(instr: Instr) -> u8
    ensures { result ≡ cycles_of instr }
{
    match instr {
        Instr::Increment(operand) | Instr::Decrement(operand) => by_operand(operand, 3, 1),
        Instr::LoadByte(operand, _) => by_operand(operand, 3, 2),
        Instr::Load(to, from) => by_operand(to, 2, by_operand(from, 2, 1)),
        Instr::Operate(_, operand) => by_operand(operand, 2, 1),
        Instr::TestBit(_, operand) => by_operand(operand, 3, 2),
        Instr::Shift(_, operand) | Instr::ResetBit(_, operand) | Instr::SetBit(_, operand) => {
            by_operand(operand, 4, 2)
        }
        Instr::AddHl(_)
        | Instr::StoreAccumulator(_)
        | Instr::LoadAccumulator(_)
        | Instr::IncrementRegister16(_)
        | Instr::DecrementRegister16(_)
        | Instr::OperateByte(_, _)
        | Instr::LoadSpHl
        | Instr::StoreHighC
        | Instr::LoadHighC
        | Instr::JumpRelativeIf(_, _)
        | Instr::ReturnIf(_) => 2,
        Instr::JumpRelative(_)
        | Instr::LoadRegister16(_, _)
        | Instr::StoreHigh(_)
        | Instr::LoadHigh(_)
        | Instr::LoadHlSp(_)
        | Instr::Pop(_)
        | Instr::JumpIf(_, _)
        | Instr::CallIf(_, _) => 3,
        Instr::AddSp(_)
        | Instr::Return
        | Instr::ReturnFromInterrupt
        | Instr::StoreAt(_)
        | Instr::LoadAt(_)
        | Instr::Jump(_)
        | Instr::Push(_)
        | Instr::Restart(_) => 4,
        Instr::StoreSp(_) => 5,
        Instr::Call(_) => 6,
        Instr::Nop
        | Instr::Stop
        | Instr::Accumulator(_)
        | Instr::Halt
        | Instr::JumpHl
        | Instr::DisableInterrupts
        | Instr::EnableInterrupts
        | Instr::Undefined(_) => 1,
    }
}

ghost use Rattle.std.specs.Prelude.{if◌then◌else◌};

fn by_operand(operand: Operand8, in_memory: u8, in_register: u8) -> u8
    ensures { result ≡ (if is_in_memory operand then in_memory else in_register) }
{
    if operand.is_in_memory() {
        in_memory
    } else {
        in_register
    }
}

/// The M-cycles where the condition holds, or there is none; `otherwise` are those where it does not.
#[inline(always)]
pub(crate) fn cycles_taken(instr: Instr, otherwise: u8) -> u8
    requires { otherwise ≡ cycles_of instr }
    ensures { result ≡ cycles_taken_of instr }
{
    match instr {
        Instr::JumpRelativeIf(_, _) => 3,
        Instr::JumpIf(_, _) => 4,
        Instr::CallIf(_, _) => 6,
        Instr::ReturnIf(_) => 5,
        _ => otherwise,
    }
}
