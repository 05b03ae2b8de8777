//! The registers of a machine as the first 67 bytes of a snapshot, and back.

ghost use Rattle.std.specs.Prelude.{◌≡◌, ◌<◌};
ghost use Rattle.sm83_alu.specs.Flags.{digit_of};
ghost use Rattle.snapshot.specs.Encoding.{low, high, processor_byte, picture_byte, fixed_fields};
ghost use Rattle.snapshot.specs.Reading.{has, processor_of, clock_at, registers_in};

use crate::field::{byte_at, word_at};
use crate::layout;
use crate::table::kind_byte;
use bank_controllers::{BanksState, ClockRegisters};
use cartridge::Controller;
use machine::{BusWithoutMemory, MachineWithoutMemory, ProcessorState};
use picture_unit::PictureState;
use sm83_alu::{Flags, Registers};
use timer_unit::{SerialState, TimerState};

fn low(word: u16) -> u8
    ensures { result ≡ low word }
{
    (word % 256) as u8
}

fn high(word: u16) -> u8
    ensures { result ≡ high word }
{
    (word / 256) as u8
}

fn digit(bit: bool) -> u8
    ensures { result ≡ digit_of bit }
{
    u8::from(bit)
}

fn processor_byte(state: ProcessorState) -> u8
    ensures { result ≡ processor_byte state }
{
    u8::from(state.ime)
        + 2 * u8::from(state.ime_pending)
        + 4 * u8::from(state.halted)
        + 8 * u8::from(state.stopped)
        + 16 * u8::from(state.locked)
        + 32 * u8::from(state.halt_bug)
}

fn picture_byte(seen: bool, signal: bool) -> u8
    ensures { result ≡ picture_byte seen signal }
{
    u8::from(seen) + 2 * u8::from(signal)
}

/// Bytes 0 to 66.
pub(crate) fn fixed_fields(state: MachineWithoutMemory) -> [u8; 67]
    ensures { result ≡ fixed_fields state }
{
    let Registers {
        a,
        flags,
        b,
        c,
        d,
        e,
        h,
        l,
        sp,
        pc,
    } = state.registers;
    let BusWithoutMemory {
        ie,
        interrupt_flag,
        buttons,
        p1_select,
        timer,
        serial,
        dma,
        dma_copied,
        picture,
        banks,
    } = state.bus;
    [
        b'G',
        b'B',
        b'S',
        b'N',
        b'A',
        b'P',
        b'0',
        b'1',
        a,
        flags.to_byte(),
        b,
        c,
        d,
        e,
        h,
        l,
        low(sp),
        high(sp),
        low(pc),
        high(pc),
        processor_byte(state.state),
        state.overrun,
        ie,
        interrupt_flag,
        buttons,
        p1_select,
        low(timer.counter),
        high(timer.counter),
        timer.tima,
        timer.tma,
        timer.tac,
        serial.sb,
        serial.sc,
        low(serial.cycles_left),
        high(serial.cycles_left),
        dma,
        dma_copied,
        picture.lcdc,
        picture.stat,
        picture.scy,
        picture.scx,
        picture.lyc,
        picture.bgp,
        picture.obp0,
        picture.obp1,
        picture.wy,
        picture.wx,
        picture.ly,
        picture.m_cycle,
        picture.window_counter,
        picture_byte(picture.seen, picture.signal),
        kind_byte(banks.kind),
        digit(banks.ram_enabled),
        low(banks.rom_bank),
        high(banks.rom_bank),
        banks.ram_bank,
        digit(banks.mode),
        banks.clock.seconds,
        banks.clock.minutes,
        banks.clock.hours,
        banks.clock.day_low,
        banks.clock.day_high,
        banks.latched.seconds,
        banks.latched.minutes,
        banks.latched.hours,
        banks.latched.day_low,
        banks.latched.day_high,
    ]
}

fn has(byte: u8, weight: u8) -> bool
    requires { 0 < weight }
    ensures { result ≡ has byte weight }
{
    byte / weight % 2 == 1
}

fn processor_of(byte: u8) -> ProcessorState
    ensures { result ≡ processor_of byte }
{
    ProcessorState {
        ime: has(byte, 1),
        ime_pending: has(byte, 2),
        halted: has(byte, 4),
        stopped: has(byte, 8),
        locked: has(byte, 16),
        halt_bug: has(byte, 32),
    }
}

fn processor_registers(bytes: &[u8]) -> Registers
    ensures { result ≡ (registers_in Controller.NoMbc bytes.now).registers }
{
    Registers {
        a: byte_at(bytes, layout::A),
        flags: Flags::from_byte(byte_at(bytes, layout::F)),
        b: byte_at(bytes, layout::B),
        c: byte_at(bytes, layout::C),
        d: byte_at(bytes, layout::D),
        e: byte_at(bytes, layout::E),
        h: byte_at(bytes, layout::H),
        l: byte_at(bytes, layout::L),
        sp: word_at(bytes, layout::SP),
        pc: word_at(bytes, layout::PC),
    }
}

fn picture_state(bytes: &[u8]) -> PictureState
    ensures { result ≡ (registers_in Controller.NoMbc bytes.now).bus.picture }
{
    PictureState {
        lcdc: byte_at(bytes, layout::LCDC),
        stat: byte_at(bytes, layout::STAT),
        scy: byte_at(bytes, layout::SCY),
        scx: byte_at(bytes, layout::SCX),
        lyc: byte_at(bytes, layout::LYC),
        bgp: byte_at(bytes, layout::BGP),
        obp0: byte_at(bytes, layout::OBP0),
        obp1: byte_at(bytes, layout::OBP1),
        wy: byte_at(bytes, layout::WY),
        wx: byte_at(bytes, layout::WX),
        ly: byte_at(bytes, layout::LY),
        m_cycle: byte_at(bytes, layout::M_CYCLE),
        window_counter: byte_at(bytes, layout::WINDOW_COUNTER),
        seen: has(byte_at(bytes, layout::SEEN_AND_SIGNAL), 1),
        signal: has(byte_at(bytes, layout::SEEN_AND_SIGNAL), 2),
    }
}

fn clock_at(bytes: &[u8], offset: u32) -> ClockRegisters
    requires { offset < 100 }
    ensures { result ≡ clock_at bytes.now offset }
{
    ClockRegisters {
        seconds: byte_at(bytes, offset),
        minutes: byte_at(bytes, offset + 1),
        hours: byte_at(bytes, offset + 2),
        day_low: byte_at(bytes, offset + 3),
        day_high: byte_at(bytes, offset + 4),
    }
}

fn banks_state(kind: Controller, bytes: &[u8]) -> BanksState
    ensures { result ≡ (registers_in kind bytes.now).bus.banks }
{
    BanksState {
        kind,
        ram_enabled: byte_at(bytes, layout::RAM_ENABLED) == 1,
        rom_bank: word_at(bytes, layout::ROM_BANK),
        ram_bank: byte_at(bytes, layout::RAM_BANK),
        mode: byte_at(bytes, layout::MODE) == 1,
        clock: clock_at(bytes, layout::CLOCK),
        latched: clock_at(bytes, layout::LATCHED),
    }
}

/// What the first 67 bytes of a snapshot stand for, for a cartridge with this controller.
pub(crate) fn registers_in(kind: Controller, bytes: &[u8]) -> MachineWithoutMemory
    ensures { result ≡ registers_in kind bytes.now }
{
    MachineWithoutMemory {
        registers: processor_registers(bytes),
        state: processor_of(byte_at(bytes, layout::PROCESSOR)),
        overrun: byte_at(bytes, layout::OVERRUN),
        bus: BusWithoutMemory {
            ie: byte_at(bytes, layout::IE),
            interrupt_flag: byte_at(bytes, layout::INTERRUPT_FLAG),
            buttons: byte_at(bytes, layout::BUTTONS),
            p1_select: byte_at(bytes, layout::P1_SELECT),
            timer: TimerState {
                counter: word_at(bytes, layout::COUNTER),
                tima: byte_at(bytes, layout::TIMA),
                tma: byte_at(bytes, layout::TMA),
                tac: byte_at(bytes, layout::TAC),
            },
            serial: SerialState {
                sb: byte_at(bytes, layout::SB),
                sc: byte_at(bytes, layout::SC),
                cycles_left: word_at(bytes, layout::CYCLES_LEFT),
            },
            dma: byte_at(bytes, layout::DMA),
            dma_copied: byte_at(bytes, layout::DMA_COPIED),
            picture: picture_state(bytes),
            banks: banks_state(kind, bytes),
        },
    }
}
