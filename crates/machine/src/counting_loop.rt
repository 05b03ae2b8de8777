//! Loops that count a register down to 0: all laps but the last are passed at once.

ghost use Rattle.std.specs.Prelude.{◌≡◌, ◌<◌, ◌≤◌, ◌+◌, ◌-◌, ◌*◌, ◌%◌, IfSome};
ghost use Rattle.machine.specs.Machine.{cycles_per_frame, frame_of};
ghost use Rattle.machine.specs.PollingLoop.{operand_of};
ghost use Rattle.machine.specs.CountingLoop.{IsCount, counted_to, with_source, IsWordCount, register_of, first_of, second_of, word_value, with_word, joined, word_counted_to, load_a, or_a};
ghost use Rattle.memory_map.specs.BusRules.{bus_rules};
ghost use Rattle.sm83_processor.specs.FastStep.{IsFast};
ghost use Rattle.opcode_table.specs.declared.instruction.Instr.{Instr};
ghost use Rattle.opcode_table.specs.declared.instruction.Instr.TheVariants.{Decrement, DecrementRegister16};

use crate::frame::FRAME;
use crate::polling_loop::{Source, instruction_at, source_value};
use memory_map::Bus;
use opcode_table::{Condition, Instr, Operand8, Operation, Register16};
use sm83_alu::{Flags, Registers};
use sm83_processor::Processor;

/// The M-cycles of a lap: DEC takes 1, JR 3.
const LAP: u32 = 4;

/// The M-cycles of a lap that counts a pair: DEC takes 2, LD 1, OR 1, JR 3.
const WORD_LAP: u32 = 7;

/// The signed byte of a jump back by five bytes.
const BACK_BY_FIVE: u8 = 0xfb;

/// No loop is looked for above this address.
const LAST_PLACE: u16 = 0xfff0;

/// The signed byte of a jump back by three bytes.
const BACK_BY_THREE: u8 = 0xfd;

/// A pair of registers that loops count down.
#[derive(Clone, Copy)]
pub(crate) enum Pair {
    Bc,
    De,
    Hl,
}

/// A loop that counts a pair down: DEC rr, LD A by one of its registers, OR by the other, JR NZ back.
#[derive(Clone, Copy)]
pub(crate) struct WordCount {
    pair: Pair,
    /// Whether A is loaded with the high one.
    is_high_first: bool,
}

/// If PC is where a loop begins that counts a register or a pair down, passes the laps before the last, as
/// long as it stays calm. Returns how many M-cycles of the frame have passed after that.
#[inline(always)]
pub(crate) fn pass_count(processor: &mut Processor<Bus>, passed: u32) -> u32
    requires below { passed < cycles_per_frame }
    requires fast { IsFast bus_rules processor.old }
    ensures run { frame_of bus_rules result processor.new ≡ frame_of bus_rules passed processor.old }
    ensures start { passed ≤ result }
    ensures below { result < cycles_per_frame }
    ensures fast { IsFast bus_rules processor.new }
{
    match Bus::read(&processor.memory, processor.registers.pc) {
        0x05 | 0x0d | 0x15 | 0x1d | 0x25 | 0x2d | 0x3d => pass_decrements(processor, passed),
        0x0b | 0x1b | 0x2b => pass_word_decrements(processor, passed),
        _ => passed,
    }
}

#[inline(never)]
fn pass_decrements(processor: &mut Processor<Bus>, passed: u32) -> u32
    requires below { passed < cycles_per_frame }
    requires fast { IsFast bus_rules processor.old }
    ensures run { frame_of bus_rules result processor.new ≡ frame_of bus_rules passed processor.old }
    ensures start { passed ≤ result }
    ensures below { result < cycles_per_frame }
    ensures fast { IsFast bus_rules processor.new }
{
    let pc = processor.registers.pc;
    if pc > LAST_PLACE {
        return passed;
    }
    // Most other code is told from such a loop by its last byte.
    if Bus::read(&processor.memory, pc.wrapping_add(2)) != BACK_BY_THREE {
        return passed;
    }
    let Some(source) = count_at(&processor.memory, pc) else {
        return passed;
    };
    let calm = u32::from(processor.memory.calm()).min(FRAME - passed);
    let value = source_value(source, &processor.registers);
    let laps = laps_within(value, calm);
    if laps == 0 {
        return passed;
    }
    count_to(&mut processor.registers, source, value - laps);
    let cycles = LAP * u32::from(laps);
    Bus::pass(&mut processor.memory, cycles);
    passed + cycles
}

/// How many laps come before the last, from this value on, as many as fit into the M-cycles that are calm.
fn laps_within(value: u8, calm: u32) -> u8
    ensures byte { value < 256 }
    ensures some { 0 < result → result < value }
    ensures few { 0 < result → 4 * result < calm }
{
    let fit = calm.saturating_sub(1) / LAP;
    u32::from(value).saturating_sub(1).min(fit) as u8
}

#[inline(always)]
fn count_to(registers: &mut Registers, source: Source, value: u8)
    ensures { registers.new ≡ counted_to source value registers.old }
{
    registers.flags.zero = false;
    registers.flags.subtract = true;
    registers.flags.half_carry = value % 16 == 15;
    set_source(registers, source, value);
}

#[inline(always)]
fn set_source(registers: &mut Registers, source: Source, value: u8)
    ensures { registers.new ≡ with_source source value registers.old }
{
    match source {
        Source::B => registers.b = value,
        Source::C => registers.c = value,
        Source::D => registers.d = value,
        Source::E => registers.e = value,
        Source::H => registers.h = value,
        Source::L => registers.l = value,
        Source::A => registers.a = value,
    }
}

/// The register that is counted down at this address.
fn count_at(memory: &Bus, pc: u16) -> Option<Source>
    ensures { IfSome result (λ s. IsCount s memory.now pc) }
{
    let Some(first) = instruction_at(memory, pc) else {
        return None;
    };
    let Some(second) = instruction_at(memory, pc.wrapping_add(1)) else {
        return None;
    };
    match second {
        Instr::JumpRelativeIf(Condition::NotZero, BACK_BY_THREE) => decremented_by(first),
        _ => None,
    }
}

fn decremented_by(instr: Instr) -> Option<Source>
    ensures { IfSome result (λ s. Instr.Decrement (operand_of s) ≡ instr) }
{
    match instr {
        Instr::Decrement(Operand8::B) => Some(Source::B),
        Instr::Decrement(Operand8::C) => Some(Source::C),
        Instr::Decrement(Operand8::D) => Some(Source::D),
        Instr::Decrement(Operand8::E) => Some(Source::E),
        Instr::Decrement(Operand8::H) => Some(Source::H),
        Instr::Decrement(Operand8::L) => Some(Source::L),
        Instr::Decrement(Operand8::A) => Some(Source::A),
        _ => None,
    }
}

// ---- a pair of registers

#[inline(never)]
fn pass_word_decrements(processor: &mut Processor<Bus>, passed: u32) -> u32
    requires below { passed < cycles_per_frame }
    requires fast { IsFast bus_rules processor.old }
    ensures run { frame_of bus_rules result processor.new ≡ frame_of bus_rules passed processor.old }
    ensures start { passed ≤ result }
    ensures below { result < cycles_per_frame }
    ensures fast { IsFast bus_rules processor.new }
{
    let pc = processor.registers.pc;
    if pc > LAST_PLACE {
        return passed;
    }
    if Bus::read(&processor.memory, pc.wrapping_add(4)) != BACK_BY_FIVE {
        return passed;
    }
    let Some(count) = word_count_at(&processor.memory, pc) else {
        return passed;
    };
    let calm = u32::from(processor.memory.calm()).min(FRAME - passed);
    let value = word_value(count.pair, &processor.registers);
    let laps = word_laps_within(value, calm);
    if laps == 0 {
        return passed;
    }
    count_word_to(&mut processor.registers, count, value - laps);
    let cycles = WORD_LAP * u32::from(laps);
    Bus::pass(&mut processor.memory, cycles);
    passed + cycles
}

/// How many laps come before the last, from this value on, as many as fit into the M-cycles that are calm.
fn word_laps_within(value: u16, calm: u32) -> u16
    ensures word { value < 65536 }
    ensures some { 0 < result → result < value }
    ensures few { 0 < result → 7 * result < calm }
{
    let fit = calm.saturating_sub(1) / WORD_LAP;
    u32::from(value).saturating_sub(1).min(fit) as u16
}

fn word_value(pair: Pair, registers: &Registers) -> u16
    ensures { result ≡ word_value pair registers.now }
{
    match pair {
        Pair::Bc => 256 * u16::from(registers.b) + u16::from(registers.c),
        Pair::De => 256 * u16::from(registers.d) + u16::from(registers.e),
        Pair::Hl => 256 * u16::from(registers.h) + u16::from(registers.l),
    }
}

fn count_word_to(registers: &mut Registers, count: WordCount, value: u16)
    ensures { registers.new ≡ word_counted_to count value registers.old }
{
    set_word(registers, count.pair, value);
    registers.a = joined(count.is_high_first, value);
    registers.flags = Flags {
        zero: false,
        subtract: false,
        half_carry: false,
        carry: false,
    };
}

fn set_word(registers: &mut Registers, pair: Pair, value: u16)
    ensures { registers.new ≡ with_word pair value registers.old }
{
    let high = (value / 256) as u8;
    let low = (value % 256) as u8;
    match pair {
        Pair::Bc => {
            registers.b = high;
            registers.c = low;
        }
        Pair::De => {
            registers.d = high;
            registers.e = low;
        }
        Pair::Hl => {
            registers.h = high;
            registers.l = low;
        }
    }
}

fn joined(is_high_first: bool, value: u16) -> u8
    ensures { result ≡ joined is_high_first value }
{
    let high = (value / 256) as u8;
    let low = (value % 256) as u8;
    if is_high_first {
        high | low
    } else {
        low | high
    }
}

/// The loop at this address that counts a pair down.
fn word_count_at(memory: &Bus, pc: u16) -> Option<WordCount>
    ensures { IfSome result (λ w. IsWordCount w memory.now pc) }
{
    let Some(first) = instruction_at(memory, pc) else {
        return None;
    };
    let Some(pair) = pair_of(first) else {
        return None;
    };
    let at_second = pc.wrapping_add(1);
    let Some(second) = instruction_at(memory, at_second) else {
        return None;
    };
    let at_third = at_second.wrapping_add(1);
    let Some(third) = instruction_at(memory, at_third) else {
        return None;
    };
    let Some(is_high_first) = order_of(pair, second, third) else {
        return None;
    };
    let Some(fourth) = instruction_at(memory, at_third.wrapping_add(1)) else {
        return None;
    };
    match fourth {
        Instr::JumpRelativeIf(Condition::NotZero, BACK_BY_FIVE) => Some(WordCount {
            pair,
            is_high_first,
        }),
        _ => None,
    }
}

fn pair_of(instr: Instr) -> Option<Pair>
    ensures { IfSome result (λ p. Instr.DecrementRegister16 (register_of p) ≡ instr) }
{
    match instr {
        Instr::DecrementRegister16(Register16::Bc) => Some(Pair::Bc),
        Instr::DecrementRegister16(Register16::De) => Some(Pair::De),
        Instr::DecrementRegister16(Register16::Hl) => Some(Pair::Hl),
        _ => None,
    }
}

/// Whether the high register of a pair is loaded and the low one joined, or the other way round.
fn order_of(pair: Pair, load: Instr, join: Instr) -> Option<bool>
    ensures load { IfSome result (λ h. load_a (first_of h pair) ≡ load) }
    ensures join { IfSome result (λ h. or_a (second_of h pair) ≡ join) }
{
    match (pair, load, join) {
        (
            Pair::Bc,
            Instr::Load(Operand8::A, Operand8::B),
            Instr::Operate(Operation::Or, Operand8::C),
        ) => Some(true),
        (
            Pair::Bc,
            Instr::Load(Operand8::A, Operand8::C),
            Instr::Operate(Operation::Or, Operand8::B),
        ) => Some(false),
        (
            Pair::De,
            Instr::Load(Operand8::A, Operand8::D),
            Instr::Operate(Operation::Or, Operand8::E),
        ) => Some(true),
        (
            Pair::De,
            Instr::Load(Operand8::A, Operand8::E),
            Instr::Operate(Operation::Or, Operand8::D),
        ) => Some(false),
        (
            Pair::Hl,
            Instr::Load(Operand8::A, Operand8::H),
            Instr::Operate(Operation::Or, Operand8::L),
        ) => Some(true),
        (
            Pair::Hl,
            Instr::Load(Operand8::A, Operand8::L),
            Instr::Operate(Operation::Or, Operand8::H),
        ) => Some(false),
        _ => None,
    }
}
