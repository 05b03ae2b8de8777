//! Loops that ask a byte which changes by itself: laps are passed at once up to its next change.

ghost use Rattle.std.specs.Prelude.{◌≡◌, ◌<◌, ◌≤◌, ◌+◌, ◌%◌, true, IfSome};
ghost use Rattle.machine.specs.Machine.{cycles_per_frame, frame_of};
ghost use Rattle.machine.specs.PollingLoop.{IsInstruction, IsRest, IsPoll, load_of, look_of, jump_of, address_of, beyond, looked, looked_again, source_value, lap, is_taken, forgets, uses_carry, cycles_of_look, cycles_again, cycles_of_lap};
ghost use Rattle.opcode_table.specs.Timing.{cycles_of};
ghost use Rattle.memory_map.specs.BusRules.{bus_rules};
ghost use Rattle.sm83_processor.specs.FastStep.{IsFast};
ghost use Rattle.sm83_processor.specs.RegisterOperations.{condition_holds, operated, with_result};

use crate::frame::FRAME;
use crate::waiting_loop::{has_lasting_bytes, whole_laps};
use memory_map::Bus;
use opcode_table::{Condition, Instr, Operand8, Operation, decode};
use sm83_alu::{Flags, Outcome, Registers};
use sm83_processor::Processor;

/// The opcode of LDH A,(n8).
const LDH_A_N8: u8 = 0xf0;

/// The opcode of LD A,(n16).
const LD_A_N16: u8 = 0xfa;

/// The instruction that asks the byte.
#[derive(Clone, Copy)]
pub(crate) enum Load {
    /// LDH A,(n8)
    High(u8),
    /// LD A,(n16)
    At(u16),
}

/// A register of 8 bits.
#[derive(Clone, Copy)]
pub(crate) enum Source {
    B,
    C,
    D,
    E,
    H,
    L,
    A,
}

/// An instruction that changes A and the flags alone.
#[derive(Clone, Copy)]
pub(crate) enum Look {
    /// An operation on A with a byte of the program.
    Byte(Operation, u8),
    /// An operation on A with a register.
    Register(Operation, Source),
    /// BIT n,A
    Bit(u8),
}

/// A relative jump under a condition.
#[derive(Clone, Copy)]
pub(crate) struct Jump {
    condition: Condition,
    /// The signed byte.
    offset: u8,
}

/// What comes after the first look of a loop that asks a byte.
#[derive(Clone, Copy)]
pub(crate) struct Rest {
    second: Option<Look>,
    jump: Jump,
}

/// A loop that loads A from an address, looks at it by one or two instructions, and jumps back.
#[derive(Clone, Copy)]
pub(crate) struct Poll {
    load: Load,
    first: Look,
    rest: Rest,
}

/// If PC is where a loop begins that asks a byte, passes its laps, as long as it stays calm and the loop
/// goes on. Returns how many M-cycles of the frame have passed after that.
#[inline(always)]
pub(crate) fn pass_poll(processor: &mut Processor<Bus>, passed: u32) -> u32
    requires below { passed < cycles_per_frame }
    requires fast { IsFast bus_rules processor.old }
    ensures run { frame_of bus_rules result processor.new ≡ frame_of bus_rules passed processor.old }
    ensures start { passed ≤ result }
    ensures below { result < cycles_per_frame }
    ensures fast { IsFast bus_rules processor.new }
{
    match Bus::read(&processor.memory, processor.registers.pc) {
        LDH_A_N8 | LD_A_N16 => pass_asked(processor, passed),
        _ => passed,
    }
}

#[inline(never)]
fn pass_asked(processor: &mut Processor<Bus>, passed: u32) -> u32
    requires below { passed < cycles_per_frame }
    requires fast { IsFast bus_rules processor.old }
    ensures run { frame_of bus_rules result processor.new ≡ frame_of bus_rules passed processor.old }
    ensures start { passed ≤ result }
    ensures below { result < cycles_per_frame }
    ensures fast { IsFast bus_rules processor.new }
{
    match poll_at(&processor.memory, processor.registers.pc) {
        None => passed,
        Some(poll) => pass_laps_of(&poll, processor, passed),
    }
}

fn pass_laps_of(poll: &Poll, processor: &mut Processor<Bus>, passed: u32) -> u32
    requires below { passed < cycles_per_frame }
    requires fast { IsFast bus_rules processor.old }
    requires poll { IsPoll poll.now processor.old.memory processor.old.registers.pc }
    ensures run { frame_of bus_rules result processor.new ≡ frame_of bus_rules passed processor.old }
    ensures start { passed ≤ result }
    ensures below { result < cycles_per_frame }
    ensures fast { IsFast bus_rules processor.new }
{
    let cycles = cycles_of_lap(poll);
    let address = address_of(poll.load);
    let mut left = u32::from(processor.memory.calm()).min(FRAME - passed);
    let end = passed + left;
    while cycles < left {
        let value = Bus::read(&processor.memory, address);
        let mut after = processor.registers;
        let is_taken = make_lap(poll, value, &mut after);
        if !is_taken || after.pc != processor.registers.pc {
            return end - left;
        }
        let lasts = u32::from(processor.memory.lasts_for(address)).min(left - 1 - cycles);
        let more = same_laps(poll, value, &processor.registers, &after, cycles, lasts);
        processor.registers = after;
        Bus::pass(&mut processor.memory, cycles + more);
        left -= cycles + more;
    }
    end - left
}

/// The M-cycles of as many laps as fit into those that are left, if another lap of the same byte leaves
/// the registers as this one has left them; else 0.
#[inline(always)]
fn same_laps(
    poll: &Poll,
    value: u8,
    before: &Registers,
    after: &Registers,
    cycles: u32,
    left: u32,
) -> u32
    requires some { 0 < cycles }
    requires made { after.now ≡ lap poll.now value before.now }
    requires back { after.now.pc ≡ before.now.pc }
    ensures few { result ≤ left }
    ensures whole { result % cycles ≡ 0 }
    ensures same { 0 < result → lap poll.now value after.now ≡ after.now }
{
    if left < cycles {
        return 0;
    }
    if !repeats(poll, value, before, after) {
        return 0;
    }
    whole_laps(cycles, left)
}

/// Whether another lap of the same byte leaves the registers as this one has left them.
#[inline(always)]
fn repeats(poll: &Poll, value: u8, before: &Registers, after: &Registers) -> bool
    requires made { after.now ≡ lap poll.now value before.now }
    requires back { after.now.pc ≡ before.now.pc }
    ensures { result ≡ true → lap poll.now value after.now ≡ after.now }
{
    if forgets(poll.first) {
        return true;
    }
    let mut again = *after;
    let _ = make_lap(poll, value, &mut again);
    are_same(&again, after)
}

/// Whether what this look leaves is sure not to depend on the flags before it.
#[inline(always)]
fn forgets(look: Look) -> bool
    ensures { result ≡ forgets look }
{
    match look {
        Look::Byte(operation, _) | Look::Register(operation, _) => !uses_carry(operation),
        Look::Bit(_) => false,
    }
}

#[inline(always)]
fn uses_carry(operation: Operation) -> bool
    ensures { result ≡ uses_carry operation }
{
    match operation {
        Operation::AddCarry | Operation::SubtractCarry => true,
        Operation::Add
        | Operation::Subtract
        | Operation::And
        | Operation::Xor
        | Operation::Or
        | Operation::Compare => false,
    }
}

#[inline(always)]
fn are_same(a: &Registers, b: &Registers) -> bool
    ensures { result ≡ true → a.now ≡ b.now }
{
    *a == *b
}

/// Makes a lap with the byte that is asked. Returns whether the jump is taken; if not, the registers are
/// only those with which it would be.
#[inline(always)]
fn make_lap(poll: &Poll, value: u8, registers: &mut Registers) -> bool
    ensures lap { registers.new ≡ lap poll.now value registers.old }
    ensures taken { result ≡ is_taken poll.now.rest.jump registers.new }
{
    registers.pc = after_load(poll.load, registers.pc);
    registers.a = value;
    look_once(poll.first, registers);
    look_again(poll.rest.second, registers);
    let jump = poll.rest.jump;
    let signed = u16::from(jump.offset.wrapping_add(0x80)).wrapping_sub(0x80);
    registers.pc = registers.pc.wrapping_add(2).wrapping_add(signed);
    condition_holds(jump.condition, registers.flags)
}

#[inline(always)]
fn look_once(by: Look, registers: &mut Registers)
    ensures { registers.new ≡ looked by registers.old }
{
    registers.pc = after_look(by, registers.pc);
    match by {
        Look::Byte(operation, byte) => operate(registers, operation, byte),
        Look::Register(operation, source) => {
            let value = source_value(source, registers);
            operate(registers, operation, value);
        }
        Look::Bit(bit) => {
            registers.flags = sm83_alu::test_bit(bit, registers.a, registers.flags);
        }
    }
}

#[inline(always)]
pub(crate) fn source_value(source: Source, registers: &Registers) -> u8
    ensures { result ≡ source_value source registers.now }
{
    match source {
        Source::B => registers.b,
        Source::C => registers.c,
        Source::D => registers.d,
        Source::E => registers.e,
        Source::H => registers.h,
        Source::L => registers.l,
        Source::A => registers.a,
    }
}

#[inline(always)]
fn look_again(by: Option<Look>, registers: &mut Registers)
    ensures { registers.new ≡ looked_again by registers.old }
{
    match by {
        None => {}
        Some(by) => look_once(by, registers),
    }
}

#[inline(always)]
fn operate(registers: &mut Registers, operation: Operation, byte: u8)
    ensures { registers.new ≡ operated operation byte registers.old }
{
    let a = registers.a;
    let carry = registers.flags.carry;
    match operation {
        Operation::Add => set_result(registers, sm83_alu::add(a, byte, false)),
        Operation::AddCarry => set_result(registers, sm83_alu::add(a, byte, carry)),
        Operation::Subtract => set_result(registers, sm83_alu::subtract(a, byte, false)),
        Operation::SubtractCarry => set_result(registers, sm83_alu::subtract(a, byte, carry)),
        Operation::And => set_result(registers, sm83_alu::and(a, byte)),
        Operation::Xor => set_result(registers, sm83_alu::xor(a, byte)),
        Operation::Or => set_result(registers, sm83_alu::or(a, byte)),
        Operation::Compare => registers.flags = sm83_alu::subtract(a, byte, false).flags,
    }
}

#[inline(always)]
fn set_result(registers: &mut Registers, outcome: Outcome)
    ensures { registers.new ≡ with_result outcome registers.old }
{
    registers.a = outcome.value;
    registers.flags = outcome.flags;
}

#[inline(always)]
fn condition_holds(condition: Condition, flags: Flags) -> bool
    ensures { result ≡ condition_holds condition flags }
{
    match condition {
        Condition::NotZero => !flags.zero,
        Condition::Zero => flags.zero,
        Condition::NotCarry => !flags.carry,
        Condition::Carry => flags.carry,
    }
}

/// The M-cycles of a lap.
fn cycles_of_lap(poll: &Poll) -> u32
    ensures cycles { result ≡ cycles_of_lap poll.now }
    ensures some { 0 < result }
    ensures few { result ≤ 11 }
{
    cycles_of_load(poll.load) + (cycles_of_look(poll.first) + (cycles_again(poll.rest.second) + 3))
}

fn cycles_of_load(load: Load) -> u32
    ensures cycles { result ≡ cycles_of (load_of load) }
    ensures few { result ≤ 4 }
{
    match load {
        Load::High(_) => 3,
        Load::At(_) => 4,
    }
}

fn cycles_again(look: Option<Look>) -> u32
    ensures cycles { result ≡ cycles_again look }
    ensures few { result ≤ 2 }
{
    match look {
        None => 0,
        Some(look) => cycles_of_look(look),
    }
}

fn cycles_of_look(look: Look) -> u32
    ensures cycles { result ≡ cycles_of_look look }
    ensures few { result ≤ 2 }
{
    match look {
        Look::Byte(_, _) => 2,
        Look::Register(_, _) => 1,
        Look::Bit(_) => 2,
    }
}

/// The address that is asked.
fn address_of(load: Load) -> u16
    ensures { result ≡ address_of load }
{
    match load {
        Load::High(byte) => 0xff00 + u16::from(byte),
        Load::At(address) => address,
    }
}

#[inline(always)]
fn after_load(load: Load, pc: u16) -> u16
    ensures { result ≡ beyond (load_of load) pc }
{
    match load {
        Load::High(_) => pc.wrapping_add(2),
        Load::At(_) => pc.wrapping_add(3),
    }
}

#[inline(always)]
fn after_look(look: Look, pc: u16) -> u16
    ensures { result ≡ beyond (look_of look) pc }
{
    match look {
        Look::Byte(_, _) => pc.wrapping_add(2),
        Look::Register(_, _) => pc.wrapping_add(1),
        Look::Bit(_) => pc.wrapping_add(2),
    }
}

// ---- which loops are found

/// The loop that asks a byte and begins at this address.
fn poll_at(memory: &Bus, pc: u16) -> Option<Poll>
    ensures { IfSome result (λ p. IsPoll p memory.now pc) }
{
    let Some(load) = load_at(memory, pc) else {
        return None;
    };
    let pc = after_load(load, pc);
    let Some(first) = look_at(memory, pc) else {
        return None;
    };
    let Some(rest) = rest_at(memory, after_look(first, pc)) else {
        return None;
    };
    Some(Poll { load, first, rest })
}

fn rest_at(memory: &Bus, pc: u16) -> Option<Rest>
    ensures { IfSome result (λ r. IsRest r memory.now pc) }
{
    let Some(second) = look_at(memory, pc) else {
        let Some(jump) = jump_at(memory, pc) else {
            return None;
        };
        return Some(Rest { second: None, jump });
    };
    let Some(jump) = jump_at(memory, after_look(second, pc)) else {
        return None;
    };
    Some(Rest {
        second: Some(second),
        jump,
    })
}

fn load_at(memory: &Bus, pc: u16) -> Option<Load>
    ensures { IfSome result (λ l. IsInstruction (load_of l) memory.now pc) }
{
    let Some(instr) = instruction_at(memory, pc) else {
        return None;
    };
    match instr {
        Instr::LoadHigh(byte) => Some(Load::High(byte)),
        Instr::LoadAt(address) => Some(Load::At(address)),
        _ => None,
    }
}

fn look_at(memory: &Bus, pc: u16) -> Option<Look>
    ensures { IfSome result (λ l. IsInstruction (look_of l) memory.now pc) }
{
    let Some(instr) = instruction_at(memory, pc) else {
        return None;
    };
    look_by(instr)
}

fn look_by(instr: Instr) -> Option<Look>
    ensures { IfSome result (λ l. look_of l ≡ instr) }
{
    match instr {
        Instr::OperateByte(operation, byte) => Some(Look::Byte(operation, byte)),
        Instr::Operate(operation, Operand8::B) => Some(Look::Register(operation, Source::B)),
        Instr::Operate(operation, Operand8::C) => Some(Look::Register(operation, Source::C)),
        Instr::Operate(operation, Operand8::D) => Some(Look::Register(operation, Source::D)),
        Instr::Operate(operation, Operand8::E) => Some(Look::Register(operation, Source::E)),
        Instr::Operate(operation, Operand8::H) => Some(Look::Register(operation, Source::H)),
        Instr::Operate(operation, Operand8::L) => Some(Look::Register(operation, Source::L)),
        Instr::Operate(operation, Operand8::A) => Some(Look::Register(operation, Source::A)),
        Instr::TestBit(bit, Operand8::A) => Some(Look::Bit(bit)),
        _ => None,
    }
}

fn jump_at(memory: &Bus, pc: u16) -> Option<Jump>
    ensures { IfSome result (λ j. IsInstruction (jump_of j) memory.now pc) }
{
    let Some(instr) = instruction_at(memory, pc) else {
        return None;
    };
    match instr {
        Instr::JumpRelativeIf(condition, offset) => Some(Jump { condition, offset }),
        _ => None,
    }
}

/// The instruction at an address, if its bytes last.
pub(crate) fn instruction_at(memory: &Bus, pc: u16) -> Option<Instr>
    ensures { IfSome result (λ i. IsInstruction i memory.now pc) }
{
    if !has_lasting_bytes(pc) {
        return None;
    }
    let mut bytes = [0; 3];
    memory.read_three(pc, &mut bytes);
    Some(decode(bytes).instr)
}
