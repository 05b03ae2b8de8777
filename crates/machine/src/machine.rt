//! The whole machine.

ghost use Rattle.std.specs.Prelude.{◌≡◌, ◌<◌, ◌≤◌, ◌*◌, IfOk, length, take, All, slice_set, true};
ghost use Rattle.memory_map.specs.BusRules.{bus_rules};
ghost use Rattle.sm83_processor.specs.Steps.{step_of, after_steps};
ghost use Rattle.sm83_processor.specs.FastStep.{IsFast};
ghost use Rattle.machine.specs.FastRuns.{HasPassed};

use crate::frame::run_frame;
use crate::input::Input;
use crate::machine_without_memory::MachineWithoutMemory;
use crate::passing::{Passed, run_watching};
use crate::steps::run_steps;
use crate::watch::Watch;
use cartridge::Cartridge;
use memory_map::{Bus, Region};
use picture_unit::LatePicture;
use sm83_alu::{Flags, Registers};
use sm83_processor::{Executed, Processor, ProcessorState, Stepped};
use std::alloc::{AllocError, Global};
use std::marker::Model;

/// The Game Boy with a cartridge: the processor, the bus and all units on it.
///
/// `power_on` allocates all the memory that it needs. Every other call takes no memory and always
/// succeeds.
#[derive(Drop)]
pub struct Machine {
    processor: Processor<Bus>,
    overrun: u8,
}

impl Model for Machine {
    ghost use Rattle.std.specs.Prelude.{◌<◌};
    ghost use Rattle.machine.specs.Machine.{MachineState};

    ghost Value = { MachineState };

    ghost view = { λ m. record { processor = m.processor; overrun = m.overrun } };

    ghost invariant = { λ m. m.overrun < 6 };
}

fn registers_at_power_on(checksum: u8) -> Registers
    ensures { result ≡ registers_at_power_on checksum }
{
    let some = checksum != 0;
    Registers {
        a: 0x01,
        flags: Flags {
            zero: true,
            subtract: false,
            half_carry: some,
            carry: some,
        },
        b: 0x00,
        c: 0x13,
        d: 0x00,
        e: 0xd8,
        h: 0x01,
        l: 0x4d,
        sp: 0xfffe,
        pc: 0x0100,
    }
}

fn state_at_power_on() -> ProcessorState
    ensures { result ≡ state_at_power_on }
{
    ProcessorState {
        ime: false,
        ime_pending: false,
        halted: false,
        stopped: false,
        locked: false,
        halt_bug: false,
    }
}

ghost use Rattle.machine.specs.Machine.{registers_at_power_on, state_at_power_on};

impl Machine {
    pub(crate) fn of(processor: Processor<Bus>, overrun: u8) -> Machine
        requires { overrun < 6 }
        ensures { result ≡ record { processor = processor; overrun = overrun } }
    {
        Machine { processor, overrun }
    }

    pub(crate) fn into_parts(self) -> (Processor<Bus>, u8)
        ensures processor { result.0 ≡ self.processor }
        ensures overrun { result.1 ≡ self.overrun }
    {
        let Machine { processor, overrun } = self;
        (processor, overrun)
    }

    ghost use Rattle.memory_map.specs.Bus.{peeked, written};
    ghost use Rattle.memory_map.specs.Stores.{region_of, region_filled, FitsRegion};
    ghost use Rattle.machine.specs.Machine.{start, frame_played, as_input, applied, picture_rows};
    ghost use Rattle.machine.specs.MachineStores.{without_memory, restored, row_set, AreLegalFor};

    /// The machine at power-on with this cartridge. Refused if there is no memory.
    pub fn power_on(alloc: Global, cartridge: &Cartridge) -> Result<Machine, AllocError>
        ensures { IfOk result (λ m. m ≡ start cartridge.now) }
    {
        let memory = Bus::new(alloc, cartridge)?;
        Ok(Machine {
            processor: Processor {
                registers: registers_at_power_on(cartridge.checksum_stored()),
                state: state_at_power_on(),
                memory,
            },
            overrun: 0,
        })
    }

    /// One step: a wait, the dispatch of an interrupt, or one instruction.
    pub fn step(&mut self) -> Stepped
        ensures machine { self.new ≡ record self.old { processor = (step_of bus_rules self.old.processor).after } }
        ensures stepped { result ≡ (step_of bus_rules self.old.processor).stepped }
    {
        self.processor.step()
    }

    /// Whether the next step is an instruction that begins with neither `ime_pending` nor `halt_bug`: a
    /// fast one.
    #[inline(always)]
    pub fn is_fast(&self) -> bool
        ensures fast { result ≡ true → IsFast bus_rules self.now.processor }
        ensures every { IsFast bus_rules self.now.processor → result ≡ true }
    {
        self.processor.is_fast()
    }

    /// Fast steps, faster than `step`, up to one before which a watch may end them: puts the instructions
    /// that ran into `kept`, from its beginning. Makes one step, and then more until `most` were made, or
    /// the next one may not be fast, or the watch does not let it pass. Returns how many were made, and
    /// the M-cycles that they took. Conditions: the next step is fast, as `is_fast` tells; `most` is not
    /// 0, and `kept` has as many places.
    pub fn run_watching<W: Watch>(&mut self, kept: &mut [Executed], most: u32, watch: &W) -> Passed
        requires some { 0 < most }
        requires room { most ≤ length kept.old }
        requires fast { IsFast bus_rules self.old.processor }
        ensures machine { self.new ≡ record self.old
            { processor = after_steps bus_rules result.steps self.old.processor } }
        ensures run { HasPassed (W.passes watch.now) result.steps result.cycles self.old.processor
            self.new.processor (take result.steps kept.new) }
        ensures room { length kept.new ≡ length kept.old }
        ensures some { 0 < result.steps }
        ensures most { result.steps ≤ most }
        ensures few { result.cycles ≤ 6 * result.steps }
    {
        run_watching(&mut self.processor, kept, most, watch)
    }

    /// Makes `count` steps.
    pub fn run_steps(&mut self, count: u32)
        ensures { self.new ≡ record self.old { processor = after_steps bus_rules count self.old.processor } }
    {
        run_steps(&mut self.processor, count);
        self.processor.memory.catch_up();
    }

    /// Plays a frame with these buttons: Right, Left, Up, Down, A, B, Select, Start as bits 0 to 7,
    /// 1 for pressed.
    pub fn frame(&mut self, buttons: u8)
        ensures { self.new ≡ frame_played buttons self.old }
    {
        self.processor.memory.set_buttons(buttons);
        self.overrun = run_frame(&mut self.processor, self.overrun);
        self.processor.memory.catch_up();
    }

    /// Gives the machine one input.
    pub fn apply(&mut self, input: Input)
        ensures { self.new ≡ applied (as_input input) self.old }
    {
        match input {
            Input::Frame(buttons) => self.frame(buttons),
            Input::Seconds(seconds) => self.processor.memory.pass_seconds(seconds),
        }
    }

    /// The processor's registers.
    pub fn registers(&self) -> Registers
        ensures { result ≡ self.now.processor.registers }
    {
        self.processor.registers
    }

    /// A read-only view of the processor.
    pub fn processor(&self) -> &Processor<Bus>
        ensures { result.now ≡ self.now.processor }
    {
        &self.processor
    }

    /// A read-only view of the picture unit.
    pub fn picture(&self) -> &LatePicture
        ensures { result.now ≡ self.now.processor.memory.picture.picture }
    {
        self.processor.memory.picture()
    }

    /// What reading an address gives if neither a mode nor a copy closes anything.
    pub fn peek(&self, address: u16) -> u8
        ensures { result ≡ peeked self.now.processor.memory address }
    {
        self.processor.memory.peek(address)
    }

    /// Writes a byte to an address as an instruction does at this moment, but no M-cycle passes: a closed place ignores it, and a register
    /// has the effect of its write.
    pub fn write(&mut self, address: u16, byte: u8)
        ensures { self.new ≡ record self.old
            { processor = record self.old.processor { memory = written address byte self.old.processor.memory } } }
    {
        Bus::write(&mut self.processor.memory, address, byte);
    }

    /// The M-cycles by which the last frame overran, 0 to 5.
    pub fn overrun(&self) -> u8
        ensures overrun { result ≡ self.now.overrun }
        ensures few { result < 6 }
    {
        self.overrun
    }

    /// What a snapshot holds besides the stores of bytes and the rows of the picture; each field is
    /// legal for this cartridge.
    pub fn state(&self) -> MachineWithoutMemory
        ensures state { result ≡ without_memory self.now }
        ensures legal { AreLegalFor self.now.processor.memory.banks result }
        ensures rows { length (picture_rows self.now) ≡ 144 }
    {
        MachineWithoutMemory {
            registers: self.processor.registers,
            state: self.processor.state,
            overrun: self.overrun,
            bus: self.processor.memory.state(),
        }
    }

    /// Sets these fields. Condition: they are legal for this cartridge.
    pub fn restore(&mut self, state: &MachineWithoutMemory)
        requires { AreLegalFor self.old.processor.memory.banks state.now }
        ensures { self.new ≡ restored state.now self.old }
    {
        self.processor.registers = state.registers;
        self.processor.state = state.state;
        self.overrun = state.overrun;
        self.processor.memory.restore(&state.bus);
    }

    /// The bytes of a region.
    pub fn region(&self, region: Region) -> &[u8]
        ensures bytes { result.now ≡ region_of self.now.processor.memory region }
        ensures fit { FitsRegion self.now.processor.memory region result.now }
    {
        self.processor.memory.region(region)
    }

    /// Sets all bytes of a region. Condition: there are as many as the region has, and for the RAM
    /// of MBC2 each is below 16.
    pub fn fill(&mut self, region: Region, bytes: &[u8])
        requires { FitsRegion self.old.processor.memory region bytes.now }
        ensures { self.new ≡
            record self.old {
              processor = record self.old.processor
                  { memory = region_filled region bytes.now self.old.processor.memory };
            } }
    {
        self.processor.memory.fill(region, bytes);
    }

    /// Draws the lines of the picture that were only noted when they were due. No value changes:
    /// the rows are then read quickly, where otherwise each is drawn pixel by pixel at each look.
    pub fn draw_late(&mut self)
        ensures { self.new ≡ self.old }
    {
        self.processor.memory.draw_late();
    }

    /// Sets the shades of a row of the picture. Condition: the row is below 144, and each shade is
    /// at most 3.
    pub fn set_row(&mut self, y: usize, row: &[u8; 160])
        requires y_in { y < 144 }
        requires shades { All (λ shade. shade < 4) row.now }
        ensures { self.new ≡ row_set y row.now self.old }
    {
        self.processor.memory.set_row(y, row);
    }
}
