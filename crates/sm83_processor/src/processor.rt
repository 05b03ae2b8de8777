//! The processor: its registers and modes, over a memory.

ghost use Rattle.std.specs.Prelude.{◌≡◌};
ghost use Rattle.sm83_processor.specs.Execution.{operand_value, with_operand, pushed, popped_word, popped, with_outcome, with_registers, jumped_relative, called, returned, halting, executed};
ghost use Rattle.sm83_processor.specs.RegisterPairs.{register16_value, with_register16};
ghost use Rattle.sm83_alu.specs.Arithmetic.{next_word, previous_word};
ghost use Rattle.opcode_table.specs.declared.instruction.Instr.{Instr};

use crate::memory::Memory;
use crate::register_operations::set_flags;
use crate::register_pairs;
use crate::register_pairs::{hl, set_hl, set_register16};
use opcode_table::{Operand8, Register16};
use sm83_alu::{Outcome, Registers};

/// Whether the processor takes ime, waits or repeats a byte.
#[derive(Clone, Copy, PartialEq, Eq)]
pub struct ProcessorState {
    /// IME.
    pub ime: bool,
    /// EI ran, and IME is set at the end of the next instruction.
    pub ime_pending: bool,
    /// HALT runs until IE and IF share a bit.
    pub halted: bool,
    /// STOP runs until a selected button is pressed.
    pub stopped: bool,
    /// An undefined opcode ran: nothing but time passes from then on.
    pub locked: bool,
    /// The next opcode fetch does not advance PC, since a HALT was not entered.
    pub halt_bug: bool,
}

/// A processor and its memory.
#[derive(Drop)]
pub struct Processor<M> {
    pub registers: Registers,
    pub state: ProcessorState,
    pub memory: M,
}

impl<M: Memory> Processor<M> {
    #[inline(always)]
    pub(crate) fn operand(&self, operand: Operand8) -> u8
        ensures { result ≡ operand_value M.rules operand self.now }
    {
        match operand {
            Operand8::B => self.registers.b,
            Operand8::C => self.registers.c,
            Operand8::D => self.registers.d,
            Operand8::E => self.registers.e,
            Operand8::H => self.registers.h,
            Operand8::L => self.registers.l,
            Operand8::AtHl => self.memory.read(hl(&self.registers)),
            Operand8::A => self.registers.a,
        }
    }

    #[inline(always)]
    pub(crate) fn set_operand(&mut self, operand: Operand8, value: u8)
        ensures { self.new ≡ with_operand M.rules operand value self.old }
    {
        match operand {
            Operand8::B => self.registers.b = value,
            Operand8::C => self.registers.c = value,
            Operand8::D => self.registers.d = value,
            Operand8::E => self.registers.e = value,
            Operand8::H => self.registers.h = value,
            Operand8::L => self.registers.l = value,
            Operand8::AtHl => self.memory.write(hl(&self.registers), value),
            Operand8::A => self.registers.a = value,
        }
    }

    #[inline]
    pub(crate) fn push(&mut self, word: u16)
        ensures { self.new ≡ pushed M.rules word self.old }
    {
        let first = self.registers.sp.wrapping_sub(1);
        self.memory.write_word_down(first, word);
        self.registers.sp = first.wrapping_sub(1);
    }

    #[inline]
    pub(crate) fn pop(&mut self) -> u16
        ensures word { result ≡ popped_word M.rules self.old }
        ensures rest { self.new ≡ popped self.old }
    {
        let first = self.registers.sp;
        let word = self.memory.read_word(first);
        self.registers.sp = first.wrapping_add(1).wrapping_add(1);
        word
    }

    #[inline(always)]
    pub(crate) fn set_outcome(&mut self, operand: Operand8, outcome: Outcome)
        ensures { self.new ≡ with_outcome M.rules operand outcome self.old }
    {
        set_flags(&mut self.registers, outcome.flags);
        self.set_operand(operand, outcome.value);
    }

    #[inline(always)]
    pub(crate) fn jump_by(&mut self, offset: u8)
        ensures { self.new ≡ jumped_relative offset self.old }
    {
        let signed = u16::from(offset.wrapping_add(0x80)).wrapping_sub(0x80);
        self.registers.pc = self.registers.pc.wrapping_add(signed);
    }

    pub(crate) fn call(&mut self, address: u16)
        ensures { self.new ≡ called M.rules address self.old }
    {
        self.push(self.registers.pc);
        self.registers.pc = address;
    }

    pub(crate) fn return_from_call(&mut self)
        ensures { self.new ≡ returned M.rules self.old }
    {
        self.registers.pc = self.pop();
    }

    pub(crate) fn halt(&mut self)
        ensures { self.new ≡ halting M.rules self.old }
    {
        if self.state.ime || self.state.ime_pending || self.memory.pending_interrupts() == 0 {
            self.state.halted = true;
        } else {
            self.state.halt_bug = true;
        }
    }

    pub(crate) fn add_to_hl(&mut self, register: Register16)
        ensures { self.new ≡ executed M.rules (Instr.AddHl register) self.old }
    {
        let left = hl(&self.registers);
        let right = register_pairs::register16(&self.registers, register);
        let outcome = sm83_alu::add_words(left, right, self.registers.flags);
        set_hl(&mut self.registers, outcome.value);
        set_flags(&mut self.registers, outcome.flags);
    }

    pub(crate) fn store_sp(&mut self, address: u16)
        ensures { self.new ≡ executed M.rules (Instr.StoreSp address) self.old }
    {
        let sp = self.registers.sp;
        self.memory.write(address, (sp % 256) as u8);
        self.memory.write(address.wrapping_add(1), (sp / 256) as u8);
    }

    pub(crate) fn increment_register16(&mut self, register: Register16)
        ensures { self.new ≡ executed M.rules (Instr.IncrementRegister16 register) self.old }
    {
        let word = register_pairs::register16(&self.registers, register);
        set_register16(
            &mut self.registers,
            register,
            sm83_alu::increment_word(word),
        );
    }

    pub(crate) fn decrement_register16(&mut self, register: Register16)
        ensures { self.new ≡ executed M.rules (Instr.DecrementRegister16 register) self.old }
    {
        let word = register_pairs::register16(&self.registers, register);
        set_register16(
            &mut self.registers,
            register,
            sm83_alu::decrement_word(word),
        );
    }
}
