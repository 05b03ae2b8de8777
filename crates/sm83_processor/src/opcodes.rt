//! One instruction by its opcode. The last arm of each match is its last opcode, the only one left
//! by the others.

ghost use Rattle.std.specs.Prelude.{◌≡◌, ◌==◌, ◌≤◌, ◌%◌, ◌/◌, true, false};
ghost use Rattle.sm83_processor.specs.Opcodes.{after_fetch, after_any_fetch, low_at, high_at, instruction_at, executed_after_fetch, cycles_with, Executes};
ghost use Rattle.sm83_processor.specs.FastStep.{IsUsual};
ghost use Rattle.opcode_table.specs.Table.{bit_instruction, loads_and_steps, jumps_and_stack, word_of};

use crate::memory::Memory;
use crate::processor::Processor;
use opcode_table::Operand8;
use opcode_table::operands::{
    accumulator_operation, condition, indirect, operand, operation, register16, shift,
    stack_register16,
};

/// The opcode of STOP.
const STOP: u8 = 0x10;

/// The opcode of HALT.
const HALT: u8 = 0x76;

/// The opcode of EI.
const ENABLE_INTERRUPTS: u8 = 0xfb;

/// `LOOP` of a call that makes a step of any kind.
pub(crate) const ANY_STEP: u8 = 0;

/// The first `LOOP` that a caller may give a loop of its own. In such a loop the instructions after
/// the prefix CB are in line too.
pub const FIRST_OWN_LOOP: u8 = 1;

impl<M: Memory> Processor<M> {
    /// Executes the instruction of this opcode, with PC still at the opcode. Returns its M-cycles,
    /// whether the next step is fast as well, unless an interrupt comes, and whether it is sure to
    /// have left the memory as it was. `C`, a type of the caller's, and `LOOP` name the caller's loop: code is
    /// made separately for each pair, so that it can be inlined where no other loop has the same.
    #[inline(always)]
    pub fn run_opcode<C, const LOOP: u8>(&mut self, opcode: u8) -> (u32, bool, bool)
        ensures after { self.new ≡ executed_after_fetch M.rules (instruction_at M.rules opcode (after_fetch self.old)) (after_fetch self.old) }
        ensures cycles { result.0 ≡ cycles_with (instruction_at M.rules opcode (after_fetch self.old)) self.old.registers.flags }
        ensures few { result.0 ≤ 6 }
        ensures usual { result.1 ≡ true → IsUsual self.old.state → IsUsual self.new.state }
        ensures memory { result.2 ≡ true → self.new.memory ≡ self.old.memory }
    {
        let cycles = self.run_instruction::<C, LOOP>(opcode);
        match opcode {
            STOP | HALT | ENABLE_INTERRUPTS => (cycles, false, false),
            0xd3 | 0xdb | 0xdd | 0xe3 | 0xe4 | 0xeb | 0xec | 0xed | 0xf4 | 0xfc | 0xfd => {
                (cycles, false, false)
            }
            _ => (cycles, true, Self::keeps_memory(opcode, cycles)),
        }
    }

    /// Executes the instruction at PC, which has this opcode, and returns its M-cycles.
    #[inline(never)]
    pub(crate) fn run_opcode_out_of_line(&mut self, opcode: u8) -> u8
        ensures after { self.new ≡ executed_after_fetch M.rules (instruction_at M.rules opcode (after_any_fetch self.old)) (after_any_fetch self.old) }
        ensures cycles { result ≡ cycles_with (instruction_at M.rules opcode (after_any_fetch self.old)) self.old.registers.flags }
    {
        self.end_halt_bug();
        self.run_opcode::<(), ANY_STEP>(opcode).0 as u8
    }

    /// Ends `halt_bug`, with PC at the address before that of the next byte to fetch.
    #[inline(always)]
    fn end_halt_bug(&mut self)
        ensures { after_fetch self.new ≡ after_any_fetch self.old }
    {
        if self.state.halt_bug {
            self.registers.pc = self.registers.pc.wrapping_sub(1);
            self.state.halt_bug = false;
        }
    }

    /// Executes the instruction of this opcode, with PC still at the opcode, and returns its
    /// M-cycles. One match on all opcodes makes one jump to code in which all but the bytes after
    /// the opcode is fixed.
    #[inline(always)]
    fn run_instruction<C, const LOOP: u8>(&mut self, opcode: u8) -> u32
        ensures { Executes M.rules (instruction_at M.rules opcode (after_fetch self.old)) self.old self.new result }
    {
        match opcode {
            0x00 => self.run_fixed::<0x00>(),
            0x01 => self.run_fixed::<0x01>(),
            0x02 => self.run_fixed::<0x02>(),
            0x03 => self.run_fixed::<0x03>(),
            0x04 => self.run_fixed::<0x04>(),
            0x05 => self.run_fixed::<0x05>(),
            0x06 => self.run_fixed::<0x06>(),
            0x07 => self.run_fixed::<0x07>(),
            0x08 => self.run_fixed::<0x08>(),
            0x09 => self.run_fixed::<0x09>(),
            0x0a => self.run_fixed::<0x0a>(),
            0x0b => self.run_fixed::<0x0b>(),
            0x0c => self.run_fixed::<0x0c>(),
            0x0d => self.run_fixed::<0x0d>(),
            0x0e => self.run_fixed::<0x0e>(),
            0x0f => self.run_fixed::<0x0f>(),
            0x10 => self.run_fixed::<0x10>(),
            0x11 => self.run_fixed::<0x11>(),
            0x12 => self.run_fixed::<0x12>(),
            0x13 => self.run_fixed::<0x13>(),
            0x14 => self.run_fixed::<0x14>(),
            0x15 => self.run_fixed::<0x15>(),
            0x16 => self.run_fixed::<0x16>(),
            0x17 => self.run_fixed::<0x17>(),
            0x18 => self.run_fixed::<0x18>(),
            0x19 => self.run_fixed::<0x19>(),
            0x1a => self.run_fixed::<0x1a>(),
            0x1b => self.run_fixed::<0x1b>(),
            0x1c => self.run_fixed::<0x1c>(),
            0x1d => self.run_fixed::<0x1d>(),
            0x1e => self.run_fixed::<0x1e>(),
            0x1f => self.run_fixed::<0x1f>(),
            0x20 => self.run_fixed::<0x20>(),
            0x21 => self.run_fixed::<0x21>(),
            0x22 => self.run_fixed::<0x22>(),
            0x23 => self.run_fixed::<0x23>(),
            0x24 => self.run_fixed::<0x24>(),
            0x25 => self.run_fixed::<0x25>(),
            0x26 => self.run_fixed::<0x26>(),
            0x27 => self.run_fixed::<0x27>(),
            0x28 => self.run_fixed::<0x28>(),
            0x29 => self.run_fixed::<0x29>(),
            0x2a => self.run_fixed::<0x2a>(),
            0x2b => self.run_fixed::<0x2b>(),
            0x2c => self.run_fixed::<0x2c>(),
            0x2d => self.run_fixed::<0x2d>(),
            0x2e => self.run_fixed::<0x2e>(),
            0x2f => self.run_fixed::<0x2f>(),
            0x30 => self.run_fixed::<0x30>(),
            0x31 => self.run_fixed::<0x31>(),
            0x32 => self.run_fixed::<0x32>(),
            0x33 => self.run_fixed::<0x33>(),
            0x34 => self.run_fixed::<0x34>(),
            0x35 => self.run_fixed::<0x35>(),
            0x36 => self.run_fixed::<0x36>(),
            0x37 => self.run_fixed::<0x37>(),
            0x38 => self.run_fixed::<0x38>(),
            0x39 => self.run_fixed::<0x39>(),
            0x3a => self.run_fixed::<0x3a>(),
            0x3b => self.run_fixed::<0x3b>(),
            0x3c => self.run_fixed::<0x3c>(),
            0x3d => self.run_fixed::<0x3d>(),
            0x3e => self.run_fixed::<0x3e>(),
            0x3f => self.run_fixed::<0x3f>(),
            0x40 => self.run_fixed::<0x40>(),
            0x41 => self.run_fixed::<0x41>(),
            0x42 => self.run_fixed::<0x42>(),
            0x43 => self.run_fixed::<0x43>(),
            0x44 => self.run_fixed::<0x44>(),
            0x45 => self.run_fixed::<0x45>(),
            0x46 => self.run_fixed::<0x46>(),
            0x47 => self.run_fixed::<0x47>(),
            0x48 => self.run_fixed::<0x48>(),
            0x49 => self.run_fixed::<0x49>(),
            0x4a => self.run_fixed::<0x4a>(),
            0x4b => self.run_fixed::<0x4b>(),
            0x4c => self.run_fixed::<0x4c>(),
            0x4d => self.run_fixed::<0x4d>(),
            0x4e => self.run_fixed::<0x4e>(),
            0x4f => self.run_fixed::<0x4f>(),
            0x50 => self.run_fixed::<0x50>(),
            0x51 => self.run_fixed::<0x51>(),
            0x52 => self.run_fixed::<0x52>(),
            0x53 => self.run_fixed::<0x53>(),
            0x54 => self.run_fixed::<0x54>(),
            0x55 => self.run_fixed::<0x55>(),
            0x56 => self.run_fixed::<0x56>(),
            0x57 => self.run_fixed::<0x57>(),
            0x58 => self.run_fixed::<0x58>(),
            0x59 => self.run_fixed::<0x59>(),
            0x5a => self.run_fixed::<0x5a>(),
            0x5b => self.run_fixed::<0x5b>(),
            0x5c => self.run_fixed::<0x5c>(),
            0x5d => self.run_fixed::<0x5d>(),
            0x5e => self.run_fixed::<0x5e>(),
            0x5f => self.run_fixed::<0x5f>(),
            0x60 => self.run_fixed::<0x60>(),
            0x61 => self.run_fixed::<0x61>(),
            0x62 => self.run_fixed::<0x62>(),
            0x63 => self.run_fixed::<0x63>(),
            0x64 => self.run_fixed::<0x64>(),
            0x65 => self.run_fixed::<0x65>(),
            0x66 => self.run_fixed::<0x66>(),
            0x67 => self.run_fixed::<0x67>(),
            0x68 => self.run_fixed::<0x68>(),
            0x69 => self.run_fixed::<0x69>(),
            0x6a => self.run_fixed::<0x6a>(),
            0x6b => self.run_fixed::<0x6b>(),
            0x6c => self.run_fixed::<0x6c>(),
            0x6d => self.run_fixed::<0x6d>(),
            0x6e => self.run_fixed::<0x6e>(),
            0x6f => self.run_fixed::<0x6f>(),
            0x70 => self.run_fixed::<0x70>(),
            0x71 => self.run_fixed::<0x71>(),
            0x72 => self.run_fixed::<0x72>(),
            0x73 => self.run_fixed::<0x73>(),
            0x74 => self.run_fixed::<0x74>(),
            0x75 => self.run_fixed::<0x75>(),
            0x76 => self.run_fixed::<0x76>(),
            0x77 => self.run_fixed::<0x77>(),
            0x78 => self.run_fixed::<0x78>(),
            0x79 => self.run_fixed::<0x79>(),
            0x7a => self.run_fixed::<0x7a>(),
            0x7b => self.run_fixed::<0x7b>(),
            0x7c => self.run_fixed::<0x7c>(),
            0x7d => self.run_fixed::<0x7d>(),
            0x7e => self.run_fixed::<0x7e>(),
            0x7f => self.run_fixed::<0x7f>(),
            0x80 => self.run_fixed::<0x80>(),
            0x81 => self.run_fixed::<0x81>(),
            0x82 => self.run_fixed::<0x82>(),
            0x83 => self.run_fixed::<0x83>(),
            0x84 => self.run_fixed::<0x84>(),
            0x85 => self.run_fixed::<0x85>(),
            0x86 => self.run_fixed::<0x86>(),
            0x87 => self.run_fixed::<0x87>(),
            0x88 => self.run_fixed::<0x88>(),
            0x89 => self.run_fixed::<0x89>(),
            0x8a => self.run_fixed::<0x8a>(),
            0x8b => self.run_fixed::<0x8b>(),
            0x8c => self.run_fixed::<0x8c>(),
            0x8d => self.run_fixed::<0x8d>(),
            0x8e => self.run_fixed::<0x8e>(),
            0x8f => self.run_fixed::<0x8f>(),
            0x90 => self.run_fixed::<0x90>(),
            0x91 => self.run_fixed::<0x91>(),
            0x92 => self.run_fixed::<0x92>(),
            0x93 => self.run_fixed::<0x93>(),
            0x94 => self.run_fixed::<0x94>(),
            0x95 => self.run_fixed::<0x95>(),
            0x96 => self.run_fixed::<0x96>(),
            0x97 => self.run_fixed::<0x97>(),
            0x98 => self.run_fixed::<0x98>(),
            0x99 => self.run_fixed::<0x99>(),
            0x9a => self.run_fixed::<0x9a>(),
            0x9b => self.run_fixed::<0x9b>(),
            0x9c => self.run_fixed::<0x9c>(),
            0x9d => self.run_fixed::<0x9d>(),
            0x9e => self.run_fixed::<0x9e>(),
            0x9f => self.run_fixed::<0x9f>(),
            0xa0 => self.run_fixed::<0xa0>(),
            0xa1 => self.run_fixed::<0xa1>(),
            0xa2 => self.run_fixed::<0xa2>(),
            0xa3 => self.run_fixed::<0xa3>(),
            0xa4 => self.run_fixed::<0xa4>(),
            0xa5 => self.run_fixed::<0xa5>(),
            0xa6 => self.run_fixed::<0xa6>(),
            0xa7 => self.run_fixed::<0xa7>(),
            0xa8 => self.run_fixed::<0xa8>(),
            0xa9 => self.run_fixed::<0xa9>(),
            0xaa => self.run_fixed::<0xaa>(),
            0xab => self.run_fixed::<0xab>(),
            0xac => self.run_fixed::<0xac>(),
            0xad => self.run_fixed::<0xad>(),
            0xae => self.run_fixed::<0xae>(),
            0xaf => self.run_fixed::<0xaf>(),
            0xb0 => self.run_fixed::<0xb0>(),
            0xb1 => self.run_fixed::<0xb1>(),
            0xb2 => self.run_fixed::<0xb2>(),
            0xb3 => self.run_fixed::<0xb3>(),
            0xb4 => self.run_fixed::<0xb4>(),
            0xb5 => self.run_fixed::<0xb5>(),
            0xb6 => self.run_fixed::<0xb6>(),
            0xb7 => self.run_fixed::<0xb7>(),
            0xb8 => self.run_fixed::<0xb8>(),
            0xb9 => self.run_fixed::<0xb9>(),
            0xba => self.run_fixed::<0xba>(),
            0xbb => self.run_fixed::<0xbb>(),
            0xbc => self.run_fixed::<0xbc>(),
            0xbd => self.run_fixed::<0xbd>(),
            0xbe => self.run_fixed::<0xbe>(),
            0xbf => self.run_fixed::<0xbf>(),
            0xc0 => self.run_fixed::<0xc0>(),
            0xc1 => self.run_fixed::<0xc1>(),
            0xc2 => self.run_fixed::<0xc2>(),
            0xc3 => self.run_fixed::<0xc3>(),
            0xc4 => self.run_fixed::<0xc4>(),
            0xc5 => self.run_fixed::<0xc5>(),
            0xc6 => self.run_fixed::<0xc6>(),
            0xc7 => self.run_fixed::<0xc7>(),
            0xc8 => self.run_fixed::<0xc8>(),
            0xc9 => self.run_fixed::<0xc9>(),
            0xca => self.run_fixed::<0xca>(),
            0xcb => self.run_prefixed::<C, LOOP>(self.low()),
            0xcc => self.run_fixed::<0xcc>(),
            0xcd => self.run_fixed::<0xcd>(),
            0xce => self.run_fixed::<0xce>(),
            0xcf => self.run_fixed::<0xcf>(),
            0xd0 => self.run_fixed::<0xd0>(),
            0xd1 => self.run_fixed::<0xd1>(),
            0xd2 => self.run_fixed::<0xd2>(),
            0xd3 => self.run_fixed::<0xd3>(),
            0xd4 => self.run_fixed::<0xd4>(),
            0xd5 => self.run_fixed::<0xd5>(),
            0xd6 => self.run_fixed::<0xd6>(),
            0xd7 => self.run_fixed::<0xd7>(),
            0xd8 => self.run_fixed::<0xd8>(),
            0xd9 => self.run_fixed::<0xd9>(),
            0xda => self.run_fixed::<0xda>(),
            0xdb => self.run_fixed::<0xdb>(),
            0xdc => self.run_fixed::<0xdc>(),
            0xdd => self.run_fixed::<0xdd>(),
            0xde => self.run_fixed::<0xde>(),
            0xdf => self.run_fixed::<0xdf>(),
            0xe0 => self.run_fixed::<0xe0>(),
            0xe1 => self.run_fixed::<0xe1>(),
            0xe2 => self.run_fixed::<0xe2>(),
            0xe3 => self.run_fixed::<0xe3>(),
            0xe4 => self.run_fixed::<0xe4>(),
            0xe5 => self.run_fixed::<0xe5>(),
            0xe6 => self.run_fixed::<0xe6>(),
            0xe7 => self.run_fixed::<0xe7>(),
            0xe8 => self.run_fixed::<0xe8>(),
            0xe9 => self.run_fixed::<0xe9>(),
            0xea => self.run_fixed::<0xea>(),
            0xeb => self.run_fixed::<0xeb>(),
            0xec => self.run_fixed::<0xec>(),
            0xed => self.run_fixed::<0xed>(),
            0xee => self.run_fixed::<0xee>(),
            0xef => self.run_fixed::<0xef>(),
            0xf0 => self.run_fixed::<0xf0>(),
            0xf1 => self.run_fixed::<0xf1>(),
            0xf2 => self.run_fixed::<0xf2>(),
            0xf3 => self.run_fixed::<0xf3>(),
            0xf4 => self.run_fixed::<0xf4>(),
            0xf5 => self.run_fixed::<0xf5>(),
            0xf6 => self.run_fixed::<0xf6>(),
            0xf7 => self.run_fixed::<0xf7>(),
            0xf8 => self.run_fixed::<0xf8>(),
            0xf9 => self.run_fixed::<0xf9>(),
            0xfa => self.run_fixed::<0xfa>(),
            0xfb => self.run_fixed::<0xfb>(),
            0xfc => self.run_fixed::<0xfc>(),
            0xfd => self.run_fixed::<0xfd>(),
            0xfe => self.run_fixed::<0xfe>(),
            _ => self.run_fixed::<0xff>(),
        }
    }

    /// Executes the instruction of the opcode `OPCODE`, as `run_instruction` does.
    #[inline(always)]
    #[tactic(auto, unfolding(opcode_table::specs::Table::instruction_of))]
    fn run_fixed<const OPCODE: u8>(&mut self) -> u32
        requires { (OPCODE == 203) ≡ false }
        ensures { Executes M.rules (instruction_at M.rules OPCODE (after_fetch self.old)) self.old self.new result }
    {
        match OPCODE {
            0x76 => self.run_halt(),
            0x00..=0x3f => self.run_load_or_step::<OPCODE>(),
            0x40..=0x7f => self.run_load(operand(OPCODE / 8 % 8), operand(OPCODE % 8)),
            0x80..=0xbf => self.run_operate(operation(OPCODE / 8 % 8), operand(OPCODE % 8)),
            _ => self.run_jump_or_stack::<OPCODE>(),
        }
    }

    /// Executes the instruction of an opcode below 40.
    #[inline(always)]
    #[tactic(auto, unfolding(opcode_table::specs::Table::loads_and_steps))]
    fn run_load_or_step<const OPCODE: u8>(&mut self) -> u32
        ensures { Executes M.rules (loads_and_steps (OPCODE % 8) (OPCODE / 8 % 8) (low_at M.rules (after_fetch self.old)) (word_of (low_at M.rules (after_fetch self.old)) (high_at M.rules (after_fetch self.old)))) self.old self.new result }
    {
        let y = OPCODE / 8 % 8;
        let p = y / 2;
        let even = y % 2 == 0;
        match OPCODE % 8 {
            0 => match y {
                0 => self.run_nop(),
                1 => self.run_store_sp(self.word()),
                2 => self.run_stop(),
                3 => self.run_jump_relative(self.low()),
                _ => self.run_jump_relative_if(condition(y - 4), self.low()),
            },
            1 if even => self.run_load_register16(register16(p), self.word()),
            1 => self.run_add_hl(register16(p)),
            2 if even => self.run_store_accumulator(indirect(p)),
            2 => self.run_load_accumulator(indirect(p)),
            3 if even => self.run_increment_register16(register16(p)),
            3 => self.run_decrement_register16(register16(p)),
            4 => self.run_increment(operand(y)),
            5 => self.run_decrement(operand(y)),
            6 => self.run_load_byte(operand(y), self.low()),
            _ => self.run_accumulator(accumulator_operation(y)),
        }
    }

    /// Executes the instruction of an opcode from C0 on, but for CB.
    #[inline(always)]
    #[tactic(auto, unfolding(opcode_table::specs::Table::jumps_and_stack))]
    fn run_jump_or_stack<const OPCODE: u8>(&mut self) -> u32
        ensures { Executes M.rules (jumps_and_stack OPCODE (OPCODE % 8) (OPCODE / 8 % 8) (low_at M.rules (after_fetch self.old)) (word_of (low_at M.rules (after_fetch self.old)) (high_at M.rules (after_fetch self.old)))) self.old self.new result }
    {
        let y = OPCODE / 8 % 8;
        let p = y / 2;
        let even = y % 2 == 0;
        match OPCODE % 8 {
            0 => match y {
                0..=3 => self.run_return_if(condition(y)),
                4 => self.run_store_high(self.low()),
                5 => self.run_add_sp(self.low()),
                6 => self.run_load_high(self.low()),
                _ => self.run_load_hl_sp(self.low()),
            },
            1 if even => self.run_pop(stack_register16(p)),
            1 => match p {
                0 => self.run_return(),
                1 => self.run_return_from_interrupt(),
                2 => self.run_jump_hl(),
                _ => self.run_load_sp_hl(),
            },
            2 => match y {
                0..=3 => self.run_jump_if(condition(y), self.word()),
                4 => self.run_store_high_c(),
                5 => self.run_store_at(self.word()),
                6 => self.run_load_high_c(),
                _ => self.run_load_at(self.word()),
            },
            3 => match y {
                0 => self.run_jump(self.word()),
                6 => self.run_disable_interrupts(),
                7 => self.run_enable_interrupts(),
                _ => self.run_undefined(OPCODE),
            },
            4 if y < 4 => self.run_call_if(condition(y), self.word()),
            4 => self.run_undefined(OPCODE),
            5 if even => self.run_push(stack_register16(p)),
            5 if p == 0 => self.run_call(self.word()),
            5 => self.run_undefined(OPCODE),
            6 => self.run_operate_byte(operation(y), self.low()),
            _ => self.run_restart(8 * y),
        }
    }

    /// Executes the instruction of an opcode CB and this byte, and returns its M-cycles. In a
    /// caller's own loop it is in line, since a call costs as much as most of these instructions.
    #[inline(always)]
    fn run_prefixed<C, const LOOP: u8>(&mut self, byte: u8) -> u32
        ensures { Executes M.rules (bit_instruction (byte / 64) (byte % 8) (byte / 8 % 8)) self.old self.new result }
    {
        if LOOP == ANY_STEP {
            self.run_bit_opcode_out_of_line(byte)
        } else {
            self.run_bit_opcode::<C, LOOP>(byte)
        }
    }

    #[inline(never)]
    fn run_bit_opcode_out_of_line(&mut self, byte: u8) -> u32
        ensures { Executes M.rules (bit_instruction (byte / 64) (byte % 8) (byte / 8 % 8)) self.old self.new result }
    {
        self.run_bit_opcode::<(), ANY_STEP>(byte)
    }

    /// Executes the instruction of an opcode CB and this byte, and returns its M-cycles. One match on
    /// all bytes makes one jump to code in which the number and the operand are fixed.
    #[inline(always)]
    fn run_bit_opcode<C, const LOOP: u8>(&mut self, byte: u8) -> u32
        ensures { Executes M.rules (bit_instruction (byte / 64) (byte % 8) (byte / 8 % 8)) self.old self.new result }
    {
        match byte {
            0x00 => self.run_bit::<0x00>(),
            0x01 => self.run_bit::<0x01>(),
            0x02 => self.run_bit::<0x02>(),
            0x03 => self.run_bit::<0x03>(),
            0x04 => self.run_bit::<0x04>(),
            0x05 => self.run_bit::<0x05>(),
            0x06 => self.run_bit::<0x06>(),
            0x07 => self.run_bit::<0x07>(),
            0x08 => self.run_bit::<0x08>(),
            0x09 => self.run_bit::<0x09>(),
            0x0a => self.run_bit::<0x0a>(),
            0x0b => self.run_bit::<0x0b>(),
            0x0c => self.run_bit::<0x0c>(),
            0x0d => self.run_bit::<0x0d>(),
            0x0e => self.run_bit::<0x0e>(),
            0x0f => self.run_bit::<0x0f>(),
            0x10 => self.run_bit::<0x10>(),
            0x11 => self.run_bit::<0x11>(),
            0x12 => self.run_bit::<0x12>(),
            0x13 => self.run_bit::<0x13>(),
            0x14 => self.run_bit::<0x14>(),
            0x15 => self.run_bit::<0x15>(),
            0x16 => self.run_bit::<0x16>(),
            0x17 => self.run_bit::<0x17>(),
            0x18 => self.run_bit::<0x18>(),
            0x19 => self.run_bit::<0x19>(),
            0x1a => self.run_bit::<0x1a>(),
            0x1b => self.run_bit::<0x1b>(),
            0x1c => self.run_bit::<0x1c>(),
            0x1d => self.run_bit::<0x1d>(),
            0x1e => self.run_bit::<0x1e>(),
            0x1f => self.run_bit::<0x1f>(),
            0x20 => self.run_bit::<0x20>(),
            0x21 => self.run_bit::<0x21>(),
            0x22 => self.run_bit::<0x22>(),
            0x23 => self.run_bit::<0x23>(),
            0x24 => self.run_bit::<0x24>(),
            0x25 => self.run_bit::<0x25>(),
            0x26 => self.run_bit::<0x26>(),
            0x27 => self.run_bit::<0x27>(),
            0x28 => self.run_bit::<0x28>(),
            0x29 => self.run_bit::<0x29>(),
            0x2a => self.run_bit::<0x2a>(),
            0x2b => self.run_bit::<0x2b>(),
            0x2c => self.run_bit::<0x2c>(),
            0x2d => self.run_bit::<0x2d>(),
            0x2e => self.run_bit::<0x2e>(),
            0x2f => self.run_bit::<0x2f>(),
            0x30 => self.run_bit::<0x30>(),
            0x31 => self.run_bit::<0x31>(),
            0x32 => self.run_bit::<0x32>(),
            0x33 => self.run_bit::<0x33>(),
            0x34 => self.run_bit::<0x34>(),
            0x35 => self.run_bit::<0x35>(),
            0x36 => self.run_bit::<0x36>(),
            0x37 => self.run_bit::<0x37>(),
            0x38 => self.run_bit::<0x38>(),
            0x39 => self.run_bit::<0x39>(),
            0x3a => self.run_bit::<0x3a>(),
            0x3b => self.run_bit::<0x3b>(),
            0x3c => self.run_bit::<0x3c>(),
            0x3d => self.run_bit::<0x3d>(),
            0x3e => self.run_bit::<0x3e>(),
            0x3f => self.run_bit::<0x3f>(),
            0x40 => self.run_bit::<0x40>(),
            0x41 => self.run_bit::<0x41>(),
            0x42 => self.run_bit::<0x42>(),
            0x43 => self.run_bit::<0x43>(),
            0x44 => self.run_bit::<0x44>(),
            0x45 => self.run_bit::<0x45>(),
            0x46 => self.run_bit::<0x46>(),
            0x47 => self.run_bit::<0x47>(),
            0x48 => self.run_bit::<0x48>(),
            0x49 => self.run_bit::<0x49>(),
            0x4a => self.run_bit::<0x4a>(),
            0x4b => self.run_bit::<0x4b>(),
            0x4c => self.run_bit::<0x4c>(),
            0x4d => self.run_bit::<0x4d>(),
            0x4e => self.run_bit::<0x4e>(),
            0x4f => self.run_bit::<0x4f>(),
            0x50 => self.run_bit::<0x50>(),
            0x51 => self.run_bit::<0x51>(),
            0x52 => self.run_bit::<0x52>(),
            0x53 => self.run_bit::<0x53>(),
            0x54 => self.run_bit::<0x54>(),
            0x55 => self.run_bit::<0x55>(),
            0x56 => self.run_bit::<0x56>(),
            0x57 => self.run_bit::<0x57>(),
            0x58 => self.run_bit::<0x58>(),
            0x59 => self.run_bit::<0x59>(),
            0x5a => self.run_bit::<0x5a>(),
            0x5b => self.run_bit::<0x5b>(),
            0x5c => self.run_bit::<0x5c>(),
            0x5d => self.run_bit::<0x5d>(),
            0x5e => self.run_bit::<0x5e>(),
            0x5f => self.run_bit::<0x5f>(),
            0x60 => self.run_bit::<0x60>(),
            0x61 => self.run_bit::<0x61>(),
            0x62 => self.run_bit::<0x62>(),
            0x63 => self.run_bit::<0x63>(),
            0x64 => self.run_bit::<0x64>(),
            0x65 => self.run_bit::<0x65>(),
            0x66 => self.run_bit::<0x66>(),
            0x67 => self.run_bit::<0x67>(),
            0x68 => self.run_bit::<0x68>(),
            0x69 => self.run_bit::<0x69>(),
            0x6a => self.run_bit::<0x6a>(),
            0x6b => self.run_bit::<0x6b>(),
            0x6c => self.run_bit::<0x6c>(),
            0x6d => self.run_bit::<0x6d>(),
            0x6e => self.run_bit::<0x6e>(),
            0x6f => self.run_bit::<0x6f>(),
            0x70 => self.run_bit::<0x70>(),
            0x71 => self.run_bit::<0x71>(),
            0x72 => self.run_bit::<0x72>(),
            0x73 => self.run_bit::<0x73>(),
            0x74 => self.run_bit::<0x74>(),
            0x75 => self.run_bit::<0x75>(),
            0x76 => self.run_bit::<0x76>(),
            0x77 => self.run_bit::<0x77>(),
            0x78 => self.run_bit::<0x78>(),
            0x79 => self.run_bit::<0x79>(),
            0x7a => self.run_bit::<0x7a>(),
            0x7b => self.run_bit::<0x7b>(),
            0x7c => self.run_bit::<0x7c>(),
            0x7d => self.run_bit::<0x7d>(),
            0x7e => self.run_bit::<0x7e>(),
            0x7f => self.run_bit::<0x7f>(),
            0x80 => self.run_bit::<0x80>(),
            0x81 => self.run_bit::<0x81>(),
            0x82 => self.run_bit::<0x82>(),
            0x83 => self.run_bit::<0x83>(),
            0x84 => self.run_bit::<0x84>(),
            0x85 => self.run_bit::<0x85>(),
            0x86 => self.run_bit::<0x86>(),
            0x87 => self.run_bit::<0x87>(),
            0x88 => self.run_bit::<0x88>(),
            0x89 => self.run_bit::<0x89>(),
            0x8a => self.run_bit::<0x8a>(),
            0x8b => self.run_bit::<0x8b>(),
            0x8c => self.run_bit::<0x8c>(),
            0x8d => self.run_bit::<0x8d>(),
            0x8e => self.run_bit::<0x8e>(),
            0x8f => self.run_bit::<0x8f>(),
            0x90 => self.run_bit::<0x90>(),
            0x91 => self.run_bit::<0x91>(),
            0x92 => self.run_bit::<0x92>(),
            0x93 => self.run_bit::<0x93>(),
            0x94 => self.run_bit::<0x94>(),
            0x95 => self.run_bit::<0x95>(),
            0x96 => self.run_bit::<0x96>(),
            0x97 => self.run_bit::<0x97>(),
            0x98 => self.run_bit::<0x98>(),
            0x99 => self.run_bit::<0x99>(),
            0x9a => self.run_bit::<0x9a>(),
            0x9b => self.run_bit::<0x9b>(),
            0x9c => self.run_bit::<0x9c>(),
            0x9d => self.run_bit::<0x9d>(),
            0x9e => self.run_bit::<0x9e>(),
            0x9f => self.run_bit::<0x9f>(),
            0xa0 => self.run_bit::<0xa0>(),
            0xa1 => self.run_bit::<0xa1>(),
            0xa2 => self.run_bit::<0xa2>(),
            0xa3 => self.run_bit::<0xa3>(),
            0xa4 => self.run_bit::<0xa4>(),
            0xa5 => self.run_bit::<0xa5>(),
            0xa6 => self.run_bit::<0xa6>(),
            0xa7 => self.run_bit::<0xa7>(),
            0xa8 => self.run_bit::<0xa8>(),
            0xa9 => self.run_bit::<0xa9>(),
            0xaa => self.run_bit::<0xaa>(),
            0xab => self.run_bit::<0xab>(),
            0xac => self.run_bit::<0xac>(),
            0xad => self.run_bit::<0xad>(),
            0xae => self.run_bit::<0xae>(),
            0xaf => self.run_bit::<0xaf>(),
            0xb0 => self.run_bit::<0xb0>(),
            0xb1 => self.run_bit::<0xb1>(),
            0xb2 => self.run_bit::<0xb2>(),
            0xb3 => self.run_bit::<0xb3>(),
            0xb4 => self.run_bit::<0xb4>(),
            0xb5 => self.run_bit::<0xb5>(),
            0xb6 => self.run_bit::<0xb6>(),
            0xb7 => self.run_bit::<0xb7>(),
            0xb8 => self.run_bit::<0xb8>(),
            0xb9 => self.run_bit::<0xb9>(),
            0xba => self.run_bit::<0xba>(),
            0xbb => self.run_bit::<0xbb>(),
            0xbc => self.run_bit::<0xbc>(),
            0xbd => self.run_bit::<0xbd>(),
            0xbe => self.run_bit::<0xbe>(),
            0xbf => self.run_bit::<0xbf>(),
            0xc0 => self.run_bit::<0xc0>(),
            0xc1 => self.run_bit::<0xc1>(),
            0xc2 => self.run_bit::<0xc2>(),
            0xc3 => self.run_bit::<0xc3>(),
            0xc4 => self.run_bit::<0xc4>(),
            0xc5 => self.run_bit::<0xc5>(),
            0xc6 => self.run_bit::<0xc6>(),
            0xc7 => self.run_bit::<0xc7>(),
            0xc8 => self.run_bit::<0xc8>(),
            0xc9 => self.run_bit::<0xc9>(),
            0xca => self.run_bit::<0xca>(),
            0xcb => self.run_bit::<0xcb>(),
            0xcc => self.run_bit::<0xcc>(),
            0xcd => self.run_bit::<0xcd>(),
            0xce => self.run_bit::<0xce>(),
            0xcf => self.run_bit::<0xcf>(),
            0xd0 => self.run_bit::<0xd0>(),
            0xd1 => self.run_bit::<0xd1>(),
            0xd2 => self.run_bit::<0xd2>(),
            0xd3 => self.run_bit::<0xd3>(),
            0xd4 => self.run_bit::<0xd4>(),
            0xd5 => self.run_bit::<0xd5>(),
            0xd6 => self.run_bit::<0xd6>(),
            0xd7 => self.run_bit::<0xd7>(),
            0xd8 => self.run_bit::<0xd8>(),
            0xd9 => self.run_bit::<0xd9>(),
            0xda => self.run_bit::<0xda>(),
            0xdb => self.run_bit::<0xdb>(),
            0xdc => self.run_bit::<0xdc>(),
            0xdd => self.run_bit::<0xdd>(),
            0xde => self.run_bit::<0xde>(),
            0xdf => self.run_bit::<0xdf>(),
            0xe0 => self.run_bit::<0xe0>(),
            0xe1 => self.run_bit::<0xe1>(),
            0xe2 => self.run_bit::<0xe2>(),
            0xe3 => self.run_bit::<0xe3>(),
            0xe4 => self.run_bit::<0xe4>(),
            0xe5 => self.run_bit::<0xe5>(),
            0xe6 => self.run_bit::<0xe6>(),
            0xe7 => self.run_bit::<0xe7>(),
            0xe8 => self.run_bit::<0xe8>(),
            0xe9 => self.run_bit::<0xe9>(),
            0xea => self.run_bit::<0xea>(),
            0xeb => self.run_bit::<0xeb>(),
            0xec => self.run_bit::<0xec>(),
            0xed => self.run_bit::<0xed>(),
            0xee => self.run_bit::<0xee>(),
            0xef => self.run_bit::<0xef>(),
            0xf0 => self.run_bit::<0xf0>(),
            0xf1 => self.run_bit::<0xf1>(),
            0xf2 => self.run_bit::<0xf2>(),
            0xf3 => self.run_bit::<0xf3>(),
            0xf4 => self.run_bit::<0xf4>(),
            0xf5 => self.run_bit::<0xf5>(),
            0xf6 => self.run_bit::<0xf6>(),
            0xf7 => self.run_bit::<0xf7>(),
            0xf8 => self.run_bit::<0xf8>(),
            0xf9 => self.run_bit::<0xf9>(),
            0xfa => self.run_bit::<0xfa>(),
            0xfb => self.run_bit::<0xfb>(),
            0xfc => self.run_bit::<0xfc>(),
            0xfd => self.run_bit::<0xfd>(),
            0xfe => self.run_bit::<0xfe>(),
            _ => self.run_bit::<0xff>(),
        }
    }

    /// Executes the instruction of an opcode CB and the byte `BYTE`, and returns its M-cycles. The code
    /// for an operand in memory is out of line, so that the others save no registers for its calls.
    /// Each call names that operand, so that the code is made for it alone.
    #[inline(always)]
    #[tactic(auto, unfolding(opcode_table::specs::Table::bit_instruction))]
    fn run_bit<const BYTE: u8>(&mut self) -> u32
        ensures { Executes M.rules (bit_instruction (BYTE / 64) (BYTE % 8) (BYTE / 8 % 8)) self.old self.new result }
    {
        let number = BYTE / 8 % 8;
        if BYTE % 8 == 6 {
            match BYTE / 64 {
                0 => self.run_shift_out_of_line(shift(number), Operand8::AtHl),
                1 => self.run_test_bit_out_of_line(number, Operand8::AtHl),
                2 => self.run_reset_bit_out_of_line(number, Operand8::AtHl),
                _ => self.run_set_bit_out_of_line(number, Operand8::AtHl),
            }
        } else {
            let operand = operand(BYTE % 8);
            match BYTE / 64 {
                0 => self.run_shift(shift(number), operand),
                1 => self.run_test_bit(number, operand),
                2 => self.run_reset_bit(number, operand),
                _ => self.run_set_bit(number, operand),
            }
        }
    }
}
