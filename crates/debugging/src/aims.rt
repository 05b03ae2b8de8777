//! What a run looks for before its steps.

ghost use Rattle.std.specs.Prelude.{◌≡◌, ◌≤◌, [], ◌∷◌, IfSome, length, map};
ghost use Rattle.memory_map.specs.State.{BusState};
ghost use Rattle.sm83_processor.specs.declared.processor.Processor.{Processor};
ghost use Rattle.debugging.specs.Conditions.{number_of};
ghost use Rattle.debugging.specs.Quiet.{HasRom, aim_of, has_pc, is_aim, is_any, is_interrupted, is_next, is_waiting};
ghost use Rattle.debugging.specs.Run.{is_before, is_place};

use crate::banks::bank_at;
use crate::order::{Condition, Place, Span};
use crate::probe::{is_reading, is_writing};
use arrayvec::ArrayVec;
use debugger::Breaks;
use machine::{Memory, Processor};
use memory_map::Bus;

/// The address of P1, whose low bits are the buttons that are looked at.
const JOYPAD: u16 = 0xff00;

/// A condition of a run that has begun.
#[derive(Clone, Copy)]
pub(crate) enum Aim {
    /// A step begins at a place.
    Place(Place),
    /// A step runs an instruction with this opcode.
    Opcode(u8),
    /// A step reads one of these addresses.
    Read(Span),
    /// A step writes one of these addresses.
    Write(Span),
    /// The byte at an address is another than this.
    Other(u16, u8),
}

impl Default for Aim {
    fn default() -> Aim {
        Aim::Opcode(0)
    }
}

/// What a run with these conditions looks for, which begins now. Condition: they are sixteen at most.
pub(crate) fn aims_of(conditions: &[Condition], processor: &Processor<Bus>) -> ArrayVec<Aim, 16>
    requires { length conditions.now ≤ 16 }
    ensures { result.items ≡ map (aim_of processor.now.memory) conditions.now }
{
    let mut aims = ArrayVec::new();
    for condition in conditions {
        aims.push(aim_of(*condition, processor));
    }
    aims
}

fn aim_of(condition: Condition, processor: &Processor<Bus>) -> Aim
    ensures { result ≡ aim_of processor.now.memory condition }
{
    match condition {
        Condition::At(place) => Aim::Place(place),
        Condition::Runs(opcode) => Aim::Opcode(opcode),
        Condition::Reads(span) => Aim::Read(span),
        Condition::Writes(span) => Aim::Write(span),
        Condition::Changes(address) => Aim::Other(address, processor.memory.peek(address)),
    }
}

/// Their addresses, if each of them is a place in whichever bank.
pub(crate) fn addresses_of(aims: &[Aim]) -> Option<ArrayVec<u16, 16>>
    ensures { IfSome result (λ addresses. (p : Processor BusState) → is_any aims.now p ≡ has_pc addresses.items p) }
{
    let mut addresses = ArrayVec::new();
    for aim in aims {
        let address = address_of(*aim)?;
        if addresses.try_push(address).is_err() {
            return None;
        }
    }
    Some(addresses)
}

/// The address of a place in whichever bank.
fn address_of(aim: Aim) -> Option<u16>
    ensures { IfSome result (λ address. (p : Processor BusState) → is_aim p aim ≡ has_pc (address ∷ []) p) }
{
    match aim {
        Aim::Place(
            Place {
                address,
                bank: None,
            },
        ) => Some(address),
        _ => None,
    }
}

/// Whether one of them is met. Condition: the ROM has so many bytes.
pub(crate) fn is_any(aims: &[Aim], rom: usize, processor: &Processor<Bus>) -> bool
    requires { HasRom rom processor.now.memory }
    ensures { result ≡ is_any aims.now processor.now }
{
    for aim in aims {
        if is_aim(*aim, rom, processor) {
            return true;
        }
    }
    false
}

/// The number of the first that is met, from 1. Condition: the ROM has so many bytes.
pub(crate) fn number_of(aims: &[Aim], rom: usize, processor: &Processor<Bus>) -> usize
    requires { HasRom rom processor.now.memory }
    ensures { result ≡ number_of (is_aim processor.now) aims.now }
{
    let mut number = 0;
    for aim in aims {
        number += 1;
        if is_aim(*aim, rom, processor) {
            return number;
        }
    }
    number
}

fn is_aim(aim: Aim, rom: usize, processor: &Processor<Bus>) -> bool
    requires { HasRom rom processor.now.memory }
    ensures { result ≡ is_aim processor.now aim }
{
    match aim {
        Aim::Place(place) => is_place(place, rom, processor),
        Aim::Opcode(opcode) => is_before(opcode, processor),
        Aim::Read(span) => is_reading(processor, span),
        Aim::Write(span) => is_writing(processor, span),
        Aim::Other(address, byte) => processor.memory.peek(address) != byte,
    }
}

fn is_place(place: Place, rom: usize, processor: &Processor<Bus>) -> bool
    requires { HasRom rom processor.now.memory }
    ensures { result ≡ is_place processor.now place }
{
    if place.address != processor.registers.pc {
        return false;
    }
    match place.bank {
        None => true,
        Some(bank) => bank == bank_at(&processor.memory, rom, place.address),
    }
}

/// Whether the next step runs an instruction with this opcode.
fn is_before(opcode: u8, processor: &Processor<Bus>) -> bool
    ensures { result ≡ is_before opcode processor.now }
{
    is_next(opcode, processor)
}

fn is_next(opcode: u8, processor: &Processor<Bus>) -> bool
    ensures { result ≡ is_next opcode processor.now }
{
    if is_waiting(processor) || is_interrupted(processor) {
        return false;
    }
    Bus::read(&processor.memory, processor.registers.pc) == opcode
}

/// Whether nothing ends a wait.
fn is_waiting(processor: &Processor<Bus>) -> bool
    ensures { result ≡ is_waiting processor.now }
{
    let state = &processor.state;
    let memory = &processor.memory;
    state.locked
        || (state.stopped && Bus::read(memory, JOYPAD) % 16 == 15)
        || (state.halted && Bus::pending_interrupts(memory) == 0)
}

/// Whether an interrupt is taken, if the processor does not wait.
fn is_interrupted(processor: &Processor<Bus>) -> bool
    ensures { result ≡ is_interrupted processor.now }
{
    processor.state.ime && Bus::pending_interrupts(&processor.memory) != 0
}
