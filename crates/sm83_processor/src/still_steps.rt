//! The instructions that change registers alone, and which byte each of them reads.

ghost use Rattle.std.specs.Prelude.{◌≡◌};
ghost use Rattle.sm83_processor.specs.StillSteps.{IsStillIfTold, read_by, read_of_operand, read_of_register};

use crate::memory::Memory;
use crate::processor::Processor;
use crate::register_operations;
use crate::register_pairs::hl;
use opcode_table::{Instr, Operand8, decode};
use sm83_alu::Registers;

/// The address that stands for no byte.
const NO_BYTE: u16 = 0x0000;

impl<M: Memory> Processor<M> {
    /// The address of a byte such that the next step, if it is fast, is the same over every memory that
    /// has this byte and the instruction's own, and leaves the memory as it was but for its M-cycles.
    /// `None` if the instruction writes, changes more than registers, or reads two bytes.
    pub fn still_by(&self) -> Option<u16>
        ensures { IsStillIfTold M.rules result self.now }
    {
        read_by(decode(self.fetch()).instr, &self.registers)
    }
}

fn read_of_operand(operand: Operand8, registers: &Registers) -> Option<u16>
    ensures { result ≡ read_of_operand operand registers.now }
{
    match operand {
        Operand8::AtHl => Some(hl(registers)),
        _ => Some(NO_BYTE),
    }
}

fn read_of_register(operand: Operand8) -> Option<u16>
    ensures { result ≡ read_of_register operand }
{
    match operand {
        Operand8::AtHl => None,
        _ => Some(NO_BYTE),
    }
}

fn read_by(instr: Instr, registers: &Registers) -> Option<u16>
    ensures { result ≡ read_by instr registers.now }
{
    match instr {
        Instr::Nop
        | Instr::JumpRelative(_)
        | Instr::JumpRelativeIf(_, _)
        | Instr::LoadRegister16(_, _)
        | Instr::AddHl(_)
        | Instr::IncrementRegister16(_)
        | Instr::DecrementRegister16(_)
        | Instr::Accumulator(_)
        | Instr::OperateByte(_, _)
        | Instr::AddSp(_)
        | Instr::LoadHlSp(_)
        | Instr::LoadSpHl
        | Instr::JumpHl
        | Instr::JumpIf(_, _)
        | Instr::Jump(_) => Some(NO_BYTE),
        Instr::LoadAccumulator(indirect) => Some(register_operations::address(registers, indirect)),
        Instr::LoadHigh(byte) => Some(0xff00 + u16::from(byte)),
        Instr::LoadHighC => Some(0xff00 + u16::from(registers.c)),
        Instr::LoadAt(address) => Some(address),
        Instr::Load(Operand8::AtHl, _) => None,
        Instr::Load(_, operand) | Instr::Operate(_, operand) | Instr::TestBit(_, operand) => {
            read_of_operand(operand, registers)
        }
        Instr::Increment(operand)
        | Instr::Decrement(operand)
        | Instr::LoadByte(operand, _)
        | Instr::Shift(_, operand)
        | Instr::ResetBit(_, operand)
        | Instr::SetBit(_, operand) => read_of_register(operand),
        Instr::StoreSp(_)
        | Instr::Stop
        | Instr::StoreAccumulator(_)
        | Instr::Halt
        | Instr::ReturnIf(_)
        | Instr::StoreHigh(_)
        | Instr::Pop(_)
        | Instr::Return
        | Instr::ReturnFromInterrupt
        | Instr::StoreHighC
        | Instr::StoreAt(_)
        | Instr::DisableInterrupts
        | Instr::EnableInterrupts
        | Instr::CallIf(_, _)
        | Instr::Push(_)
        | Instr::Call(_)
        | Instr::Restart(_)
        | Instr::Undefined(_) => None,
    }
}
