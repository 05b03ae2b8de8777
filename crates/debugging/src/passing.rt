//! Which fast steps a run makes without a look at all that they access.

ghost use Rattle.std.specs.Prelude.{◌≡◌, ◌==◌, ℕ, true, false, []};
ghost use Rattle.std.specs.List.{list_any};
ghost use Rattle.memory_map.specs.Bus.{read_at};
ghost use Rattle.memory_map.specs.BusRules.{bus_rules};
ghost use Rattle.sm83_alu.specs.declared.register_file.Registers.{Registers};
ghost use Rattle.sm83_processor.specs.FastStep.{IsFast};
ghost use Rattle.sm83_processor.specs.Steps.{decoded_at};
ghost use Rattle.debugging.specs.Accesses.{copied_of, instruction_reads, is_in, is_reading, is_writing};
ghost use Rattle.debugging.specs.Passing.{LoadsNothing, StoresNothing, instruction_writes, only_dma, pushed_writes};
ghost use Rattle.debugging.specs.Quiet.{is_aim, is_any};
ghost use Rattle.debugging.specs.Run.{is_before};

use crate::aims::Aim;
use crate::order::Span;
use crate::probe::{
    COPIED, DMA, copied_of, holds, indirect, instruction_reads, is_in, operand_reads,
};
use machine::{Processor, Watch};
use memory_map::Bus;
use opcode_table::{Instr, decode};
use sm83_alu::Registers;

/// The address of DIV, which STOP writes.
const DIV: u16 = 0xff04;

/// The opcode before those of the shifts and the bits.
const PREFIX: u8 = 0xcb;

/// The low three bits of a byte after it that names the byte at HL.
const AT_HL: u8 = 6;

/// Whether an instruction with each opcode may write to memory; of those after CB it is not told.
#[rattlefmt::skip]
const STORES: [bool; 256] = [
    false, false, true, false, false, false, false, false, true, false, false, false, false, false, false, false,
    true, false, true, false, false, false, false, false, false, false, false, false, false, false, false, false,
    false, false, true, false, false, false, false, false, false, false, false, false, false, false, false, false,
    false, false, true, false, true, true, true, false, false, false, false, false, false, false, false, false,
    false, false, false, false, false, false, false, false, false, false, false, false, false, false, false, false,
    false, false, false, false, false, false, false, false, false, false, false, false, false, false, false, false,
    false, false, false, false, false, false, false, false, false, false, false, false, false, false, false, false,
    true, true, true, true, true, true, false, true, false, false, false, false, false, false, false, false,
    false, false, false, false, false, false, false, false, false, false, false, false, false, false, false, false,
    false, false, false, false, false, false, false, false, false, false, false, false, false, false, false, false,
    false, false, false, false, false, false, false, false, false, false, false, false, false, false, false, false,
    false, false, false, false, false, false, false, false, false, false, false, false, false, false, false, false,
    false, false, false, false, true, true, false, true, false, false, false, true, true, true, false, true,
    false, false, false, false, true, true, false, true, false, false, false, false, true, false, false, true,
    true, false, true, false, false, true, false, true, false, false, true, false, false, false, false, true,
    false, false, false, false, false, true, false, true, false, false, false, false, false, false, false, true,
];

/// Whether an instruction with each opcode may write or read memory beside its own bytes; of those after CB it is not told.
#[rattlefmt::skip]
const ACCESSES: [bool; 256] = [
    false, false, true, false, false, false, false, false, true, false, true, false, false, false, false, false,
    true, false, true, false, false, false, false, false, false, false, true, false, false, false, false, false,
    false, false, true, false, false, false, false, false, false, false, true, false, false, false, false, false,
    false, false, true, false, true, true, true, false, false, false, true, false, false, false, false, false,
    false, false, false, false, false, false, true, false, false, false, false, false, false, false, true, false,
    false, false, false, false, false, false, true, false, false, false, false, false, false, false, true, false,
    false, false, false, false, false, false, true, false, false, false, false, false, false, false, true, false,
    true, true, true, true, true, true, false, true, false, false, false, false, false, false, true, false,
    false, false, false, false, false, false, true, false, false, false, false, false, false, false, true, false,
    false, false, false, false, false, false, true, false, false, false, false, false, false, false, true, false,
    false, false, false, false, false, false, true, false, false, false, false, false, false, false, true, false,
    false, false, false, false, false, false, true, false, false, false, false, false, false, false, true, false,
    true, true, false, false, true, true, false, true, true, true, false, true, true, true, false, true,
    true, true, false, false, true, true, false, true, true, true, false, false, true, false, false, true,
    true, true, true, false, false, true, false, true, false, false, true, false, false, false, false, true,
    true, true, true, false, false, true, false, true, false, false, true, false, false, false, false, true,
];

/// A watch for an instruction with this opcode.
#[derive(Clone, Copy)]
pub(crate) struct OpcodeWatch {
    pub(crate) opcode: u8,
}

/// A watch for another byte than this at an address.
#[derive(Clone, Copy)]
pub(crate) struct ChangeWatch {
    pub(crate) address: u16,
    pub(crate) byte: u8,
}

/// A watch for a step that writes one of these addresses.
#[derive(Clone, Copy)]
pub(crate) struct WriteWatch {
    pub(crate) span: Span,
}

/// A watch for a step that reads one of these addresses.
#[derive(Clone, Copy)]
pub(crate) struct ReadWatch {
    pub(crate) span: Span,
}

impl Watch for OpcodeWatch {
    ghost use Rattle.debugging.specs.Run.{is_before};

    ghost passes = { λ watch p. is_before watch.opcode p ≡ false };

    #[inline(always)]
    fn may_end(&self, processor: &Processor<Bus>) -> bool {
        will_run(self.opcode, processor)
    }
}

impl Watch for ChangeWatch {
    ghost use Rattle.debugging.specs.Run.{is_changed};

    ghost passes = { λ watch p. is_changed watch.address watch.byte p ≡ false };

    #[inline(always)]
    fn may_end(&self, processor: &Processor<Bus>) -> bool {
        processor.memory.peek(self.address) != self.byte
    }
}

impl Watch for WriteWatch {
    ghost use Rattle.debugging.specs.Accesses.{is_writing};

    ghost passes = { λ watch p. is_writing watch.span p ≡ false };

    #[inline(always)]
    fn may_end(&self, processor: &Processor<Bus>) -> bool {
        may_write(processor, &self.span)
    }
}

impl Watch for ReadWatch {
    ghost use Rattle.debugging.specs.Accesses.{is_reading};

    ghost passes = { λ watch p. is_reading watch.span p ≡ false };

    #[inline(always)]
    fn may_end(&self, processor: &Processor<Bus>) -> bool {
        may_read(processor, &self.span)
    }
}

/// A watch for one of these aims.
#[derive(Clone, Copy)]
pub(crate) struct AimWatch<'a> {
    pub(crate) aims: &'a [Aim],
}

impl<'a> Watch for AimWatch<'a> {
    ghost use Rattle.debugging.specs.Quiet.{is_any};

    ghost passes = { λ watch p. is_any watch.aims.now p ≡ false };

    #[inline(always)]
    fn may_end(&self, processor: &Processor<Bus>) -> bool {
        may_be_any(self.aims, processor)
    }
}

/// Whether one of these aims may be met before the next step, which is fast.
#[inline(always)]
fn may_be_any(aims: &[Aim], processor: &Processor<Bus>) -> bool
    requires { IsFast bus_rules processor.now }
    ensures { result ≡ false → is_any aims.now processor.now ≡ false }
{
    for aim in aims {
        if may_be(*aim, processor) {
            return true;
        }
    }
    false
}

/// Whether this aim may be. Of a place only the address is looked at.
#[inline(always)]
fn may_be(aim: Aim, processor: &Processor<Bus>) -> bool
    requires { IsFast bus_rules processor.now }
    ensures { result ≡ false → is_aim processor.now aim ≡ false }
{
    match aim {
        Aim::Place(place) => place.address == processor.registers.pc,
        Aim::Opcode(opcode) => will_run(opcode, processor),
        Aim::Read(span) => may_read(processor, &span),
        Aim::Write(span) => may_write(processor, &span),
        Aim::Other(address, byte) => processor.memory.peek(address) != byte,
    }
}

/// Whether the next step, which is fast, runs an instruction with this opcode.
#[inline(always)]
fn will_run(opcode: u8, processor: &Processor<Bus>) -> bool
    requires { IsFast bus_rules processor.now }
    ensures { result ≡ is_before opcode processor.now }
{
    Bus::read(&processor.memory, processor.registers.pc) == opcode
}

/// Whether a copy to OAM runs.
#[inline(always)]
fn is_copying(bus: &Bus) -> bool
    ensures { result ≡ false → copied_of bus.now ≡ 160 }
{
    copied_of(bus) != COPIED
}

/// Whether the next step, which is fast, may write one of these addresses. A running copy to OAM is not looked at further.
#[inline(always)]
fn may_write(processor: &Processor<Bus>, span: &Span) -> bool
    requires { IsFast bus_rules processor.now }
    ensures { result ≡ false → is_writing span.now processor.now ≡ false }
{
    if is_copying(&processor.memory) {
        return true;
    }
    let opcode = Bus::read(&processor.memory, processor.registers.pc);
    if !may_store(opcode) {
        return false;
    }
    if is_in_registers(processor, opcode) {
        return false;
    }
    writes_next(processor, span)
}

/// Whether the next step, which is fast, may read one of these addresses. A running copy to OAM is not looked at further.
#[inline(always)]
fn may_read(processor: &Processor<Bus>, span: &Span) -> bool
    requires { IsFast bus_rules processor.now }
    ensures { result ≡ false → is_reading span.now processor.now ≡ false }
{
    if is_copying(&processor.memory) {
        return true;
    }
    let opcode = Bus::read(&processor.memory, processor.registers.pc);
    if !may_access(opcode) {
        return false;
    }
    if is_in_registers(processor, opcode) {
        return false;
    }
    reads_next(processor, span)
}

/// Whether the next instruction, of a step that is fast, writes one of these addresses, or begins a copy to OAM.
#[inline(never)]
fn writes_next(processor: &Processor<Bus>, span: &Span) -> bool
    requires { IsFast bus_rules processor.now }
    ensures begins { result ≡ false →
        list_any (is_in only_dma)
        (instruction_writes (decoded_at bus_rules processor.now).instr processor.now.registers) ≡ false }
    ensures writes { result ≡ false →
        list_any (is_in span.now) (instruction_writes (decoded_at bus_rules processor.now).instr processor.now.registers) ≡
        false }
{
    let instr = next_instruction(processor);
    if begins_copy(instr, &processor.registers) {
        return true;
    }
    instruction_writes(instr, &processor.registers, *span)
}

/// Whether the next instruction, of a step that is fast, reads one of these addresses, or begins a copy to OAM.
#[inline(never)]
fn reads_next(processor: &Processor<Bus>, span: &Span) -> bool
    requires { IsFast bus_rules processor.now }
    ensures begins { result ≡ false →
        list_any (is_in only_dma)
        (instruction_writes (decoded_at bus_rules processor.now).instr processor.now.registers) ≡ false }
    ensures reads { result ≡ false →
        list_any (is_in span.now) (instruction_reads (decoded_at bus_rules processor.now).instr processor.now.registers) ≡
        false }
{
    let instr = next_instruction(processor);
    if begins_copy(instr, &processor.registers) {
        return true;
    }
    instruction_reads(instr, &processor.registers, *span)
}

/// The instruction of the next step, which is fast.
fn next_instruction(processor: &Processor<Bus>) -> Instr
    requires { IsFast bus_rules processor.now }
    ensures { result ≡ (decoded_at bus_rules processor.now).instr }
{
    let mut bytes = [0; 3];
    processor
        .memory
        .read_three(processor.registers.pc, &mut bytes);
    decode(bytes).instr
}

/// Whether an instruction writes the register DMA.
fn begins_copy(instr: Instr, registers: &Registers) -> bool
    ensures { result ≡ list_any (is_in only_dma) (instruction_writes instr registers.now) }
{
    instruction_writes(
        instr,
        registers,
        Span {
            first: DMA,
            last: DMA,
        },
    )
}

/// Whether an instruction writes one of these addresses.
fn instruction_writes(instr: Instr, registers: &Registers, span: Span) -> bool
    ensures { result ≡ list_any (is_in span) (instruction_writes instr registers.now) }
{
    match instr {
        Instr::StoreSp(address) => { is_in(span, address) || is_in(span, address.wrapping_add(1)) }
        Instr::Stop => is_in(span, DIV),
        Instr::StoreAccumulator(place) => is_in(span, indirect(place, registers)),
        Instr::Increment(operand)
        | Instr::Decrement(operand)
        | Instr::LoadByte(operand, _)
        | Instr::Load(operand, _)
        | Instr::Shift(_, operand)
        | Instr::ResetBit(_, operand)
        | Instr::SetBit(_, operand) => operand_reads(operand, registers, span),
        Instr::StoreHigh(low) => is_in(span, 0xff00 + u16::from(low)),
        Instr::StoreHighC => is_in(span, 0xff00 + u16::from(registers.c)),
        Instr::StoreAt(address) => is_in(span, address),
        Instr::CallIf(condition, _) => holds(condition, registers.flags)
            && pushed_writes(registers, span),
        Instr::Push(_) | Instr::Call(_) | Instr::Restart(_) => pushed_writes(registers, span),
        _ => false,
    }
}

/// Whether one of the two addresses below SP is one of these.
fn pushed_writes(registers: &Registers, span: Span) -> bool
    ensures { result ≡ list_any (is_in span) (pushed_writes registers.now) }
{
    let first = registers.sp.wrapping_sub(1);
    is_in(span, first) || is_in(span, first.wrapping_sub(1))
}

/// Whether an instruction with this opcode may write to memory.
#[inline(always)]
fn may_store(opcode: u8) -> bool
    ensures { result ≡ false → StoresNothing opcode }
{
    STORES[usize::from(opcode)]
}

/// Whether an instruction with this opcode may write or read memory beside its own bytes.
#[inline(always)]
fn may_access(opcode: u8) -> bool
    ensures stores { result ≡ false → StoresNothing opcode }
    ensures loads { result ≡ false → LoadsNothing opcode }
{
    ACCESSES[usize::from(opcode)]
}

/// Whether the next instruction, of a step that is fast, is one after CB that accesses registers alone.
#[inline(always)]
fn is_in_registers(processor: &Processor<Bus>, opcode: u8) -> bool
    requires fast { IsFast bus_rules processor.now }
    requires here { opcode ≡ read_at processor.now.memory processor.now.registers.pc }
    ensures stores { result ≡ true →
        instruction_writes (decoded_at bus_rules processor.now).instr processor.now.registers ≡ [] }
    ensures loads { result ≡ true →
        instruction_reads (decoded_at bus_rules processor.now).instr processor.now.registers ≡ [] }
{
    if opcode != PREFIX {
        return false;
    }
    let second = Bus::read(&processor.memory, processor.registers.pc.wrapping_add(1));
    second % 8 != AT_HL
}
