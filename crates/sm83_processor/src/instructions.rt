//! What each instruction does once its opcode has been fetched, and its M-cycles. PC is still at the
//! opcode when it begins, so that each instruction writes PC once. Inlining is only hinted at for
//! most of these functions: a match on all opcodes that always had them inlined would be too large to
//! be inlined into its callers' loops.

ghost use Rattle.std.specs.Prelude.{◌≡◌, ◌<◌, ◌+◌, ◌*◌, if◌then◌else◌};
ghost use Rattle.sm83_processor.specs.RegisterOperations.{next_address};
ghost use Rattle.sm83_processor.specs.Steps.{second_address};
ghost use Rattle.sm83_processor.specs.Opcodes.{after_fetch, low_at, high_at, past, Executes};
ghost use Rattle.opcode_table.specs.Table.{word_of};
ghost use Rattle.opcode_table.specs.Timing.{is_in_memory};
ghost use Rattle.opcode_table.specs.declared.instruction.Instr.{Instr};

use crate::memory::Memory;
use crate::processor::Processor;
use crate::register_operations::{
    address, condition_holds, finish_access, operate, operate_accumulator, set_flags,
    set_flags_but_carry, shift,
};
use crate::register_pairs::{hl, set_hl, set_register16, set_stack_register16, stack_register16};
use opcode_table::{
    AccumulatorOperation, Condition, Indirect, Operand8, Operation, Register16, Shift,
    StackRegister16,
};

/// The address of the divider.
const DIVIDER: u16 = 0xff04;

/// The first address of the page of registers.
const HIGH_PAGE: u16 = 0xff00;

#[inline(always)]
fn by_operand(operand: Operand8, in_memory: u32, in_register: u32) -> u32
    ensures { result ≡ (if is_in_memory operand then in_memory else in_register) }
{
    match operand {
        Operand8::AtHl => in_memory,
        _ => in_register,
    }
}

impl<M: Memory> Processor<M> {
    /// The address of the second byte.
    #[inline(always)]
    pub(crate) fn second(&self) -> u16
        ensures { result ≡ second_address self.now }
    {
        let pc = self.registers.pc;
        if self.state.halt_bug {
            pc
        } else {
            pc.wrapping_add(1)
        }
    }

    /// The address after the opcode at PC.
    #[inline(always)]
    fn operand_address(&self) -> u16
        ensures { result ≡ next_address self.now.registers.pc }
    {
        self.registers.pc.wrapping_add(1)
    }

    /// The byte after the opcode at PC.
    #[inline(always)]
    pub(crate) fn low(&self) -> u8
        ensures { result ≡ low_at M.rules (after_fetch self.now) }
    {
        self.memory.read(self.operand_address())
    }

    #[inline(always)]
    fn high(&self) -> u8
        ensures { result ≡ high_at M.rules (after_fetch self.now) }
    {
        self.memory.read(self.operand_address().wrapping_add(1))
    }

    /// The two bytes after the opcode at PC, the low one first.
    #[inline(always)]
    pub(crate) fn word(&self) -> u16
        ensures { result ≡ word_of (low_at M.rules (after_fetch self.now)) (high_at M.rules (after_fetch self.now)) }
    {
        u16::from(self.low()) + 256 * u16::from(self.high())
    }

    /// Moves PC from the opcode past the whole instruction.
    #[inline(always)]
    fn move_past(&mut self, length: u8)
        requires { 0 < length }
        ensures { self.new ≡ past length (after_fetch self.old) }
    {
        self.registers.pc = self.operand_address().wrapping_add(u16::from(length - 1));
    }

    /// NOP
    #[inline]
    pub(crate) fn run_nop(&mut self) -> u32
        ensures { Executes M.rules Instr.Nop self.old self.new result }
    {
        self.move_past(1);
        1
    }

    /// LD (n16),SP
    #[inline]
    pub(crate) fn run_store_sp(&mut self, address: u16) -> u32
        ensures { Executes M.rules (Instr.StoreSp address) self.old self.new result }
    {
        self.move_past(3);
        self.store_sp(address);
        5
    }

    /// STOP
    #[inline]
    pub(crate) fn run_stop(&mut self) -> u32
        ensures { Executes M.rules Instr.Stop self.old self.new result }
    {
        self.move_past(2);
        self.state.stopped = true;
        self.memory.write(DIVIDER, 0);
        1
    }

    /// JR e
    #[inline]
    pub(crate) fn run_jump_relative(&mut self, offset: u8) -> u32
        ensures { Executes M.rules (Instr.JumpRelative offset) self.old self.new result }
    {
        self.move_past(2);
        self.jump_by(offset);
        3
    }

    /// JR cc,e
    #[inline]
    pub(crate) fn run_jump_relative_if(&mut self, condition: Condition, offset: u8) -> u32
        ensures { Executes M.rules (Instr.JumpRelativeIf condition offset) self.old self.new result }
    {
        self.move_past(2);
        if condition_holds(condition, self.registers.flags) {
            self.jump_by(offset);
            3
        } else {
            2
        }
    }

    /// LD rp,n16
    #[inline]
    pub(crate) fn run_load_register16(&mut self, register: Register16, word: u16) -> u32
        ensures { Executes M.rules (Instr.LoadRegister16 register word) self.old self.new result }
    {
        self.move_past(3);
        set_register16(&mut self.registers, register, word);
        3
    }

    /// ADD HL,rp
    #[inline]
    pub(crate) fn run_add_hl(&mut self, register: Register16) -> u32
        ensures { Executes M.rules (Instr.AddHl register) self.old self.new result }
    {
        self.move_past(1);
        self.add_to_hl(register);
        2
    }

    /// LD (BC),A and the like
    #[inline]
    pub(crate) fn run_store_accumulator(&mut self, operand: Indirect) -> u32
        ensures { Executes M.rules (Instr.StoreAccumulator operand) self.old self.new result }
    {
        self.move_past(1);
        self.memory
            .write(address(&self.registers, operand), self.registers.a);
        finish_access(&mut self.registers, operand);
        2
    }

    /// LD A,(BC) and the like
    #[inline]
    pub(crate) fn run_load_accumulator(&mut self, operand: Indirect) -> u32
        ensures { Executes M.rules (Instr.LoadAccumulator operand) self.old self.new result }
    {
        self.move_past(1);
        let byte = self.memory.read(address(&self.registers, operand));
        finish_access(&mut self.registers, operand);
        self.registers.a = byte;
        2
    }

    /// INC rp
    #[inline]
    pub(crate) fn run_increment_register16(&mut self, register: Register16) -> u32
        ensures { Executes M.rules (Instr.IncrementRegister16 register) self.old self.new result }
    {
        self.move_past(1);
        self.increment_register16(register);
        2
    }

    /// DEC rp
    #[inline]
    pub(crate) fn run_decrement_register16(&mut self, register: Register16) -> u32
        ensures { Executes M.rules (Instr.DecrementRegister16 register) self.old self.new result }
    {
        self.move_past(1);
        self.decrement_register16(register);
        2
    }

    /// INC r
    #[inline]
    pub(crate) fn run_increment(&mut self, operand: Operand8) -> u32
        ensures { Executes M.rules (Instr.Increment operand) self.old self.new result }
    {
        self.move_past(1);
        let outcome = sm83_alu::increment(self.operand(operand), self.registers.flags);
        set_flags_but_carry(&mut self.registers, outcome.flags);
        self.set_operand(operand, outcome.value);
        by_operand(operand, 3, 1)
    }

    /// DEC r
    #[inline]
    pub(crate) fn run_decrement(&mut self, operand: Operand8) -> u32
        ensures { Executes M.rules (Instr.Decrement operand) self.old self.new result }
    {
        self.move_past(1);
        let outcome = sm83_alu::decrement(self.operand(operand), self.registers.flags);
        set_flags_but_carry(&mut self.registers, outcome.flags);
        self.set_operand(operand, outcome.value);
        by_operand(operand, 3, 1)
    }

    /// LD r,n8
    #[inline]
    pub(crate) fn run_load_byte(&mut self, operand: Operand8, byte: u8) -> u32
        ensures { Executes M.rules (Instr.LoadByte operand byte) self.old self.new result }
    {
        self.move_past(2);
        self.set_operand(operand, byte);
        by_operand(operand, 3, 2)
    }

    /// RLCA and the like
    #[inline]
    pub(crate) fn run_accumulator(&mut self, operation: AccumulatorOperation) -> u32
        ensures { Executes M.rules (Instr.Accumulator operation) self.old self.new result }
    {
        self.move_past(1);
        operate_accumulator(&mut self.registers, operation);
        1
    }

    /// LD r,r
    #[inline]
    pub(crate) fn run_load(&mut self, to: Operand8, from: Operand8) -> u32
        ensures { Executes M.rules (Instr.Load to from) self.old self.new result }
    {
        self.move_past(1);
        let byte = self.operand(from);
        self.set_operand(to, byte);
        by_operand(to, 2, by_operand(from, 2, 1))
    }

    /// HALT. Apart, so that a loop of steps keeps nothing in a register for IE and IF.
    #[inline(never)]
    pub(crate) fn run_halt(&mut self) -> u32
        ensures { Executes M.rules Instr.Halt self.old self.new result }
    {
        self.move_past(1);
        self.halt();
        1
    }

    /// ADD A,r and the like
    #[inline]
    pub(crate) fn run_operate(&mut self, operation: Operation, operand: Operand8) -> u32
        ensures { Executes M.rules (Instr.Operate operation operand) self.old self.new result }
    {
        self.move_past(1);
        let byte = self.operand(operand);
        operate(&mut self.registers, operation, byte);
        by_operand(operand, 2, 1)
    }

    /// ADD A,n8 and the like
    #[inline]
    pub(crate) fn run_operate_byte(&mut self, operation: Operation, byte: u8) -> u32
        ensures { Executes M.rules (Instr.OperateByte operation byte) self.old self.new result }
    {
        self.move_past(2);
        operate(&mut self.registers, operation, byte);
        2
    }

    /// RET cc
    #[inline]
    pub(crate) fn run_return_if(&mut self, condition: Condition) -> u32
        ensures { Executes M.rules (Instr.ReturnIf condition) self.old self.new result }
    {
        self.move_past(1);
        if condition_holds(condition, self.registers.flags) {
            self.return_from_call();
            5
        } else {
            2
        }
    }

    /// LDH (n8),A
    #[inline]
    pub(crate) fn run_store_high(&mut self, low: u8) -> u32
        ensures { Executes M.rules (Instr.StoreHigh low) self.old self.new result }
    {
        self.move_past(2);
        self.memory
            .write(HIGH_PAGE + u16::from(low), self.registers.a);
        3
    }

    /// ADD SP,e
    #[inline]
    pub(crate) fn run_add_sp(&mut self, offset: u8) -> u32
        ensures { Executes M.rules (Instr.AddSp offset) self.old self.new result }
    {
        self.move_past(2);
        let outcome = sm83_alu::add_offset(self.registers.sp, offset);
        self.registers.sp = outcome.value;
        set_flags(&mut self.registers, outcome.flags);
        4
    }

    /// LDH A,(n8)
    #[inline]
    pub(crate) fn run_load_high(&mut self, low: u8) -> u32
        ensures { Executes M.rules (Instr.LoadHigh low) self.old self.new result }
    {
        self.move_past(2);
        self.registers.a = self.memory.read(HIGH_PAGE + u16::from(low));
        3
    }

    /// LD HL,SP+e
    #[inline]
    pub(crate) fn run_load_hl_sp(&mut self, offset: u8) -> u32
        ensures { Executes M.rules (Instr.LoadHlSp offset) self.old self.new result }
    {
        self.move_past(2);
        let outcome = sm83_alu::add_offset(self.registers.sp, offset);
        set_hl(&mut self.registers, outcome.value);
        set_flags(&mut self.registers, outcome.flags);
        3
    }

    /// POP rp
    #[inline]
    pub(crate) fn run_pop(&mut self, register: StackRegister16) -> u32
        ensures { Executes M.rules (Instr.Pop register) self.old self.new result }
    {
        self.move_past(1);
        let word = self.pop();
        set_stack_register16(&mut self.registers, register, word);
        3
    }

    /// RET
    #[inline]
    pub(crate) fn run_return(&mut self) -> u32
        ensures { Executes M.rules Instr.Return self.old self.new result }
    {
        self.move_past(1);
        self.return_from_call();
        4
    }

    /// RETI
    #[inline]
    pub(crate) fn run_return_from_interrupt(&mut self) -> u32
        ensures { Executes M.rules Instr.ReturnFromInterrupt self.old self.new result }
    {
        self.move_past(1);
        self.return_from_call();
        self.state.ime = true;
        4
    }

    /// JP HL
    #[inline]
    pub(crate) fn run_jump_hl(&mut self) -> u32
        ensures { Executes M.rules Instr.JumpHl self.old self.new result }
    {
        self.move_past(1);
        self.registers.pc = hl(&self.registers);
        1
    }

    /// LD SP,HL
    #[inline]
    pub(crate) fn run_load_sp_hl(&mut self) -> u32
        ensures { Executes M.rules Instr.LoadSpHl self.old self.new result }
    {
        self.move_past(1);
        self.registers.sp = hl(&self.registers);
        2
    }

    /// JP cc,n16
    #[inline]
    pub(crate) fn run_jump_if(&mut self, condition: Condition, address: u16) -> u32
        ensures { Executes M.rules (Instr.JumpIf condition address) self.old self.new result }
    {
        self.move_past(3);
        if condition_holds(condition, self.registers.flags) {
            self.registers.pc = address;
            4
        } else {
            3
        }
    }

    /// LD (C),A
    #[inline]
    pub(crate) fn run_store_high_c(&mut self) -> u32
        ensures { Executes M.rules Instr.StoreHighC self.old self.new result }
    {
        self.move_past(1);
        let address = HIGH_PAGE + u16::from(self.registers.c);
        self.memory.write(address, self.registers.a);
        2
    }

    /// LD (n16),A
    #[inline]
    pub(crate) fn run_store_at(&mut self, address: u16) -> u32
        ensures { Executes M.rules (Instr.StoreAt address) self.old self.new result }
    {
        self.move_past(3);
        self.memory.write(address, self.registers.a);
        4
    }

    /// LD A,(C)
    #[inline]
    pub(crate) fn run_load_high_c(&mut self) -> u32
        ensures { Executes M.rules Instr.LoadHighC self.old self.new result }
    {
        self.move_past(1);
        let address = HIGH_PAGE + u16::from(self.registers.c);
        self.registers.a = self.memory.read(address);
        2
    }

    /// LD A,(n16)
    #[inline]
    pub(crate) fn run_load_at(&mut self, address: u16) -> u32
        ensures { Executes M.rules (Instr.LoadAt address) self.old self.new result }
    {
        self.move_past(3);
        self.registers.a = self.memory.read(address);
        4
    }

    /// JP n16
    #[inline]
    pub(crate) fn run_jump(&mut self, address: u16) -> u32
        ensures { Executes M.rules (Instr.Jump address) self.old self.new result }
    {
        self.move_past(3);
        self.registers.pc = address;
        4
    }

    /// DI
    #[inline]
    pub(crate) fn run_disable_interrupts(&mut self) -> u32
        ensures { Executes M.rules Instr.DisableInterrupts self.old self.new result }
    {
        self.move_past(1);
        self.state.ime = false;
        self.state.ime_pending = false;
        1
    }

    /// EI
    #[inline]
    pub(crate) fn run_enable_interrupts(&mut self) -> u32
        ensures { Executes M.rules Instr.EnableInterrupts self.old self.new result }
    {
        self.move_past(1);
        self.state.ime_pending = true;
        1
    }

    /// CALL cc,n16
    #[inline]
    pub(crate) fn run_call_if(&mut self, condition: Condition, address: u16) -> u32
        ensures { Executes M.rules (Instr.CallIf condition address) self.old self.new result }
    {
        self.move_past(3);
        if condition_holds(condition, self.registers.flags) {
            self.call(address);
            6
        } else {
            3
        }
    }

    /// PUSH rp
    #[inline]
    pub(crate) fn run_push(&mut self, register: StackRegister16) -> u32
        ensures { Executes M.rules (Instr.Push register) self.old self.new result }
    {
        self.move_past(1);
        let word = stack_register16(&self.registers, register);
        self.push(word);
        4
    }

    /// CALL n16
    #[inline]
    pub(crate) fn run_call(&mut self, address: u16) -> u32
        ensures { Executes M.rules (Instr.Call address) self.old self.new result }
    {
        self.move_past(3);
        self.call(address);
        6
    }

    /// RST n8
    #[inline]
    pub(crate) fn run_restart(&mut self, address: u8) -> u32
        ensures { Executes M.rules (Instr.Restart address) self.old self.new result }
    {
        self.move_past(1);
        self.call(u16::from(address));
        4
    }

    /// RLC r and the like
    #[inline(always)]
    pub(crate) fn run_shift(&mut self, shift_by: Shift, operand: Operand8) -> u32
        ensures { Executes M.rules (Instr.Shift shift_by operand) self.old self.new result }
    {
        self.move_past(2);
        let outcome = shift(shift_by, self.operand(operand), self.registers.flags.carry);
        self.set_outcome(operand, outcome);
        by_operand(operand, 4, 2)
    }

    /// BIT n,r
    #[inline(always)]
    pub(crate) fn run_test_bit(&mut self, bit: u8, operand: Operand8) -> u32
        ensures { Executes M.rules (Instr.TestBit bit operand) self.old self.new result }
    {
        self.move_past(2);
        let byte = self.operand(operand);
        let flags = sm83_alu::test_bit(bit, byte, self.registers.flags);
        set_flags_but_carry(&mut self.registers, flags);
        by_operand(operand, 3, 2)
    }

    /// RES n,r
    #[inline(always)]
    pub(crate) fn run_reset_bit(&mut self, bit: u8, operand: Operand8) -> u32
        ensures { Executes M.rules (Instr.ResetBit bit operand) self.old self.new result }
    {
        self.move_past(2);
        let byte = sm83_alu::reset_bit(bit, self.operand(operand));
        self.set_operand(operand, byte);
        by_operand(operand, 4, 2)
    }

    /// SET n,r
    #[inline(always)]
    pub(crate) fn run_set_bit(&mut self, bit: u8, operand: Operand8) -> u32
        ensures { Executes M.rules (Instr.SetBit bit operand) self.old self.new result }
    {
        self.move_past(2);
        let byte = sm83_alu::set_bit(bit, self.operand(operand));
        self.set_operand(operand, byte);
        by_operand(operand, 4, 2)
    }

    #[inline(never)]
    pub(crate) fn run_shift_out_of_line(&mut self, shift_by: Shift, operand: Operand8) -> u32
        ensures { Executes M.rules (Instr.Shift shift_by operand) self.old self.new result }
    {
        self.run_shift(shift_by, operand)
    }

    #[inline(never)]
    pub(crate) fn run_test_bit_out_of_line(&mut self, bit: u8, operand: Operand8) -> u32
        ensures { Executes M.rules (Instr.TestBit bit operand) self.old self.new result }
    {
        self.run_test_bit(bit, operand)
    }

    #[inline(never)]
    pub(crate) fn run_reset_bit_out_of_line(&mut self, bit: u8, operand: Operand8) -> u32
        ensures { Executes M.rules (Instr.ResetBit bit operand) self.old self.new result }
    {
        self.run_reset_bit(bit, operand)
    }

    #[inline(never)]
    pub(crate) fn run_set_bit_out_of_line(&mut self, bit: u8, operand: Operand8) -> u32
        ensures { Executes M.rules (Instr.SetBit bit operand) self.old self.new result }
    {
        self.run_set_bit(bit, operand)
    }

    /// an undefined opcode
    #[inline]
    pub(crate) fn run_undefined(&mut self, opcode: u8) -> u32
        ensures { Executes M.rules (Instr.Undefined opcode) self.old self.new result }
    {
        self.move_past(1);
        self.state.locked = true;
        1
    }
}
