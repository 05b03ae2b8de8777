//! What the next step reads and writes.

ghost use Rattle.std.specs.Prelude.{◌≡◌, ◌+◌, ◌*◌};
ghost use Rattle.std.specs.List.{list_any};
ghost use Rattle.sm83_processor.specs.RegisterOperations.{condition_holds, indirect_address};
ghost use Rattle.debugging.specs.Accesses.{copied_of, is_in, is_reading, is_writing, instruction_reads, operand_reads, popped_reads, source_of, step_reads, watched, watched_step};

use crate::order::Span;
use machine::{Memory, Processor, StepKind, Stepped};
use memory_map::Bus;
use opcode_table::{Condition, Indirect, Instr, Operand8, decode};
use sm83_alu::{Flags, Registers};
use std::marker::Model;

/// The address of the register DMA.
pub(crate) const DMA: u16 = 0xff46;

/// The address of OAM.
const OAM: u16 = 0xfe00;

/// The bytes of a copy.
pub(crate) const COPIED: u8 = 160;

/// A bus that is only looked at: what a step accesses is noted.
#[derive(Drop)]
struct Probe<'a> {
    bus: &'a Bus,
    span: Span,
    dma: u8,
    dma_copied: u8,
    is_read: bool,
    is_written: bool,
}

impl<'a> Model for Probe<'a> {
    ghost use Rattle.debugging.specs.Accesses.{Watched};

    ghost Value = { Watched };

    ghost view = { λ w. record {
      bus = w.bus.now;
      span = w.span;
      dma = w.dma;
      dma_copied = w.dma_copied;
      is_read = w.is_read;
      is_written = w.is_written;
    } };
}

impl<'a> Memory for Probe<'a> {
    ghost use Rattle.debugging.specs.Accesses.{watching};

    ghost rules = { watching };

    fn read(&self, address: u16) -> u8 {
        Bus::read(self.bus, address)
    }

    fn write(&mut self, address: u16, value: u8) {
        self.is_written |= is_in(self.span, address);
        if address == DMA {
            self.dma = value;
            self.dma_copied = 0;
        }
    }

    fn pending_interrupts(&self) -> u8 {
        Bus::pending_interrupts(self.bus)
    }

    fn acknowledge(&mut self, _bit: u8) {}

    fn pass(&mut self, cycles: u8) {
        for _cycle in 0..cycles {
            self.note_cycle();
        }
    }
}

impl<'a> Probe<'a> {
    ghost use Rattle.debugging.specs.Accesses.{cycle_noted};

    /// An M-cycle, in which a copy goes on.
    fn note_cycle(&mut self)
        ensures { self.new ≡ cycle_noted self.old }
    {
        if self.dma_copied >= COPIED {
            return;
        }
        self.is_read |= is_in(self.span, source_of(self.dma, self.dma_copied));
        self.is_written |= is_in(self.span, OAM + u16::from(self.dma_copied));
        self.dma_copied += 1;
    }
}

/// Whether an address is one of these.
pub(crate) fn is_in(span: Span, address: u16) -> bool
    ensures { result ≡ is_in span address }
{
    span.first <= address && address <= span.last
}

/// Where a byte of a copy comes from.
fn source_of(dma: u8, copied: u8) -> u16
    ensures { result ≡ source_of dma copied }
{
    let page = if dma < 0xe0 { dma } else { dma - 0x20 };
    256 * u16::from(page) + u16::from(copied)
}

/// What a step accesses of some addresses.
#[derive(Clone, Copy)]
struct Access {
    stepped: Stepped,
    is_read: bool,
    is_written: bool,
}

/// How many bytes of a copy are made; 160 where none runs. The bus mostly knows that none does, and its whole state is looked at else.
#[inline(always)]
pub(crate) fn copied_of(bus: &Bus) -> u8
    ensures { result ≡ copied_of bus.now }
{
    if bus.calm() > 1 {
        return COPIED;
    }
    copied_in_state(bus)
}

#[inline(never)]
fn copied_in_state(bus: &Bus) -> u8
    ensures { result ≡ copied_of bus.now }
{
    let copied = bus.state().dma_copied;
    if copied < COPIED { copied } else { COPIED }
}

/// What the next step does, and whether it writes one of these addresses, or its M-cycles copy from one of them.
#[tactic(auto, using(crate::proofs::Copies::dma_peeked))]
fn access_of(processor: &Processor<Bus>, span: Span) -> Access
    ensures stepped { result.stepped ≡ (watched_step span processor.now).stepped }
    ensures read { result.is_read ≡ (watched_step span processor.now).after.memory.is_read }
    ensures written { result.is_written ≡ (watched_step span processor.now).after.memory.is_written }
{
    let bus = &processor.memory;
    let mut probed = Processor {
        registers: processor.registers,
        state: processor.state,
        memory: Probe {
            bus,
            span,
            dma: bus.peek(DMA),
            dma_copied: copied_of(bus),
            is_read: false,
            is_written: false,
        },
    };
    let stepped = probed.step();
    Access {
        stepped,
        is_read: probed.memory.is_read,
        is_written: probed.memory.is_written,
    }
}

/// Whether the next step writes one of these addresses.
pub(crate) fn is_writing(processor: &Processor<Bus>, span: Span) -> bool
    ensures { result ≡ is_writing span processor.now }
{
    access_of(processor, span).is_written
}

/// Whether the next step reads one of these addresses.
pub(crate) fn is_reading(processor: &Processor<Bus>, span: Span) -> bool
    ensures { result ≡ is_reading span processor.now }
{
    let access = access_of(processor, span);
    step_reads(access.stepped.kind, &processor.registers, span) || access.is_read
}

/// Whether a step of this kind reads one of these addresses, beside the instruction's own bytes.
fn step_reads(kind: StepKind, registers: &Registers, span: Span) -> bool
    ensures { result ≡ list_any (is_in span) (step_reads kind registers.now) }
{
    match kind {
        StepKind::Ran(seen) => instruction_reads(decode(seen.bytes).instr, registers, span),
        StepKind::Wait => false,
        StepKind::Dispatch(_) => false,
    }
}

pub(crate) fn instruction_reads(instr: Instr, registers: &Registers, span: Span) -> bool
    ensures { result ≡ list_any (is_in span) (instruction_reads instr registers.now) }
{
    match instr {
        Instr::LoadAccumulator(place) => is_in(span, indirect(place, registers)),
        Instr::Increment(operand)
        | Instr::Decrement(operand)
        | Instr::Load(_, operand)
        | Instr::Operate(_, operand)
        | Instr::Shift(_, operand)
        | Instr::TestBit(_, operand)
        | Instr::ResetBit(_, operand)
        | Instr::SetBit(_, operand) => operand_reads(operand, registers, span),
        Instr::ReturnIf(condition) => holds(condition, registers.flags)
            && popped_reads(registers, span),
        Instr::Pop(_) | Instr::Return | Instr::ReturnFromInterrupt => popped_reads(registers, span),
        Instr::LoadHigh(low) => is_in(span, 0xff00 + u16::from(low)),
        Instr::LoadHighC => is_in(span, 0xff00 + u16::from(registers.c)),
        Instr::LoadAt(address) => is_in(span, address),
        _ => false,
    }
}

/// Whether the byte at HL is an operand, and HL is one of these addresses.
pub(crate) fn operand_reads(operand: Operand8, registers: &Registers, span: Span) -> bool
    ensures { result ≡ list_any (is_in span) (operand_reads operand registers.now) }
{
    match operand {
        Operand8::AtHl => is_in(span, joined(registers.h, registers.l)),
        _ => false,
    }
}

/// Whether SP, or the address after it, is one of these.
fn popped_reads(registers: &Registers, span: Span) -> bool
    ensures { result ≡ list_any (is_in span) (popped_reads registers.now) }
{
    is_in(span, registers.sp) || is_in(span, registers.sp.wrapping_add(1))
}

pub(crate) fn indirect(place: Indirect, registers: &Registers) -> u16
    ensures { result ≡ indirect_address place registers.now }
{
    match place {
        Indirect::Bc => joined(registers.b, registers.c),
        Indirect::De => joined(registers.d, registers.e),
        Indirect::HlUp | Indirect::HlDown => joined(registers.h, registers.l),
    }
}

pub(crate) fn holds(condition: Condition, flags: Flags) -> bool
    ensures { result ≡ condition_holds condition flags }
{
    match condition {
        Condition::NotZero => !flags.zero,
        Condition::Zero => flags.zero,
        Condition::NotCarry => !flags.carry,
        Condition::Carry => flags.carry,
    }
}

fn joined(high: u8, low: u8) -> u16
    ensures { result ≡ 256 * high + low }
{
    256 * u16::from(high) + u16::from(low)
}
