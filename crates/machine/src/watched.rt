//! Frames in which it is seen what the serial port sends, and which end early after `LD B,B`.

ghost use Rattle.std.specs.Prelude.{◌≡◌, ◌<◌, ◌≤◌, ◌+◌, ◌-◌, ◌↔◌, IsTrue, true, false};
ghost use Rattle.picture_unit.specs.PictureJump.{IsSteady};
ghost use Rattle.memory_map.specs.BusRules.{bus_rules};
ghost use Rattle.machine.specs.Machine.{cycles_per_frame};
ghost use Rattle.machine.specs.Sent.{sent_in_step, sent_in_cycles};
ghost use Rattle.machine.specs.Watched.{seen_in, seen_from, sent_before, byte_list, begun_with, machine_after, is_breakpoint};
ghost use Rattle.machine.specs.Watching.{in_frame, IsFar, IsSilent};
ghost use Rattle.sm83_processor.specs.FastStep.{IsFast};
ghost use Rattle.sm83_processor.specs.Steps.{step_of};

use crate::frame::{AfterStep, FRAME, run_fast_step, sure_waits, waits};
use crate::loops::{
    ABOVE_ROM, IN_HRAM, IN_LOWER_ROM, IN_UPPER_ROM, IN_WRAM, WatchedLoops, is_there,
};
use crate::machine::Machine;
use crate::untimed::UntimedBus;
use memory_map::Bus;
use sm83_processor::{Processor, StepKind, Stepped};
use std::marker::Model;
use timer_unit::SerialState;

/// The opcode of `LD B,B`.
const BREAKPOINT: u8 = 0x40;

/// The most M-cycles of a step.
const MOST_CYCLES: u16 = 6;

/// A frame that is being played, of which some M-cycles have passed.
#[derive(Drop)]
pub struct WatchedFrame {
    processor: Processor<Bus>,
    passed: u32,
}

impl Model for WatchedFrame {
    ghost use Rattle.std.specs.Prelude.{◌<◌};
    ghost use Rattle.machine.specs.Watched.{FrameState};

    ghost Value = { FrameState };

    ghost view = { λ f. record { processor = f.processor; passed = f.passed } };

    ghost invariant = { λ f. f.passed < 17562 };
}

/// How far a frame was played.
#[derive(Drop)]
pub struct Watched {
    pub frame: WatchedFrame,
    /// The byte that was sent over the serial port in the last step.
    pub sent: Option<u8>,
    /// Whether the last step ran `LD B,B`.
    pub breaks: bool,
}

/// A machine after a step, and what was seen in it.
#[derive(Drop)]
pub struct WatchedStep {
    pub machine: Machine,
    pub stepped: Stepped,
    /// The byte that was sent over the serial port.
    pub sent: Option<u8>,
}

/// A processor after a step, and what was seen in it.
#[derive(Drop)]
struct SeenStep {
    processor: Processor<Bus>,
    stepped: Stepped,
    sent: Option<u8>,
}

impl Watched {
    fn unseen(processor: Processor<Bus>, passed: u32) -> Watched
        requires { passed < cycles_per_frame + 6 }
        ensures frame { result.frame ≡ in_frame passed processor }
        ensures sent { result.sent ≡ None }
        ensures breaks { result.breaks ≡ false }
    {
        Watched {
            frame: WatchedFrame { processor, passed },
            sent: None,
            breaks: false,
        }
    }
}

impl WatchedFrame {
    /// Makes steps up to the end of the frame, but no further than one that sends a byte or runs
    /// `LD B,B`.
    pub fn run_on(self) -> Watched
        ensures seen { seen_in self ≡ sent_before (byte_list result.sent) (seen_from result.breaks result.frame) }
        ensures over { result.sent ≡ None → result.breaks ≡ false → cycles_per_frame ≤ result.frame.passed }
        ensures on { self.passed < cycles_per_frame → self.passed < result.frame.passed }
    {
        let WatchedFrame {
            mut processor,
            mut passed,
        } = self;
        while passed < FRAME {
            let (then, is_broken) = run_unseen(&mut processor, passed);
            passed = then;
            if is_broken {
                return Watched {
                    frame: WatchedFrame { processor, passed },
                    sent: None,
                    breaks: true,
                };
            }
            if passed >= FRAME {
                return Watched::unseen(processor, passed);
            }
            if is_far(processor.memory.serial().cycles_left) {
                let (now, breaks) = step_far(&mut processor, passed);
                passed = now;
                if breaks {
                    return Watched {
                        frame: WatchedFrame { processor, passed },
                        sent: None,
                        breaks: true,
                    };
                }
            } else {
                let step = step_by_parts(processor);
                processor = step.processor;
                passed += u32::from(step.stepped.cycles);
                let breaks = is_breakpoint(&step.stepped.kind);
                if let Some(byte) = step.sent {
                    return Watched {
                        frame: WatchedFrame { processor, passed },
                        sent: Some(byte),
                        breaks,
                    };
                }
                if breaks {
                    return Watched {
                        frame: WatchedFrame { processor, passed },
                        sent: None,
                        breaks: true,
                    };
                }
            }
        }
        Watched::unseen(processor, passed)
    }

    /// Whether all M-cycles of the frame have passed.
    pub fn is_over(&self) -> bool
        ensures { IsTrue result ↔ (cycles_per_frame ≤ self.now.passed) }
    {
        self.passed >= FRAME
    }

    /// The processor as it is now.
    pub fn processor(&self) -> &Processor<Bus>
        ensures { result.now ≡ self.now.processor }
    {
        &self.processor
    }

    /// The machine after the frame. Condition: all its M-cycles have passed.
    pub fn end(self) -> Machine
        requires { cycles_per_frame ≤ self.passed }
        ensures { result ≡ machine_after self }
    {
        let WatchedFrame {
            mut processor,
            passed,
        } = self;
        processor.memory.catch_up();
        Machine::of(processor, (passed - FRAME) as u8)
    }
}

impl Machine {
    /// Begins a frame with these buttons, as `frame` does.
    pub fn begin_frame(self, buttons: u8) -> WatchedFrame
        ensures { result ≡ begun_with buttons self }
    {
        let (mut processor, overrun) = self.into_parts();
        processor.memory.set_buttons(buttons);
        WatchedFrame {
            processor,
            passed: u32::from(overrun),
        }
    }

    /// As `step`; also says which byte the step sent over the serial port.
    pub fn step_watched(self) -> WatchedStep
        ensures machine { result.machine ≡ record self { processor = (step_of bus_rules self.processor).after } }
        ensures stepped { result.stepped ≡ (step_of bus_rules self.processor).stepped }
        ensures sent { byte_list result.sent ≡ sent_in_step self.processor }
    {
        let (processor, overrun) = self.into_parts();
        let step = step_seen(processor);
        WatchedStep {
            machine: Machine::of(step.processor, overrun),
            stepped: step.stepped,
            sent: step.sent,
        }
    }
}

/// Whether a step ran `LD B,B`.
fn is_breakpoint(kind: &StepKind) -> bool
    ensures { result ≡ is_breakpoint kind.now }
{
    match kind {
        StepKind::Ran(seen) => seen.bytes[0] == BREAKPOINT,
        StepKind::Wait => false,
        StepKind::Dispatch(_) => false,
    }
}

/// Whether no transfer ends in the next step, if so many M-cycles of one are left.
fn is_far(left: u16) -> bool
    ensures { result ≡ true → IsFar left }
{
    if left == 0 {
        return true;
    }
    left > MOST_CYCLES
}

/// Makes a step.
fn step_seen(mut processor: Processor<Bus>) -> SeenStep
    ensures after { result.processor ≡ (step_of bus_rules processor).after }
    ensures stepped { result.stepped ≡ (step_of bus_rules processor).stepped }
    ensures sent { byte_list result.sent ≡ sent_in_step processor }
    ensures some { 0 < result.stepped.cycles }
    ensures few { result.stepped.cycles ≤ 6 }
{
    if is_far(processor.memory.serial().cycles_left) {
        let stepped = processor.step();
        return SeenStep {
            processor,
            stepped,
            sent: None,
        };
    }
    step_by_parts(processor)
}

/// Makes a step in which a transfer may end: its accesses first, and then its M-cycles.
#[inline(never)]
fn step_by_parts(processor: Processor<Bus>) -> SeenStep
    ensures after { result.processor ≡ (step_of bus_rules processor).after }
    ensures stepped { result.stepped ≡ (step_of bus_rules processor).stepped }
    ensures sent { byte_list result.sent ≡ sent_in_step processor }
    ensures some { 0 < result.stepped.cycles }
    ensures few { result.stepped.cycles ≤ 6 }
{
    let Processor {
        registers,
        state,
        memory,
    } = processor;
    let mut untimed = Processor {
        registers,
        state,
        memory: UntimedBus::of(memory),
    };
    let stepped = untimed.step();
    let Processor {
        registers,
        state,
        memory,
    } = untimed;
    let mut bus = memory.into_bus();
    let sent = byte_sent(&bus.serial(), stepped.cycles);
    bus.pass(u32::from(stepped.cycles));
    SeenStep {
        processor: Processor {
            registers,
            state,
            memory: bus,
        },
        stepped,
        sent,
    }
}

/// Makes a step in which no transfer ends, and passes the waits that are sure to come after it.
/// Returns how many M-cycles of the frame have passed then, and whether the step ran `LD B,B`.
#[inline(never)]
fn step_far(processor: &mut Processor<Bus>, passed: u32) -> (u32, bool)
    requires below { passed < cycles_per_frame }
    requires far { IsFar processor.old.memory.serial.serial.cycles_left }
    ensures run { seen_in (in_frame passed processor.old) ≡ seen_from result.1 (in_frame result.0 processor.new) }
    ensures more { passed < result.0 }
    ensures few { result.0 < cycles_per_frame + 6 }
{
    let stepped = processor.step();
    let now = passed + u32::from(stepped.cycles);
    if is_breakpoint(&stepped.kind) {
        return (now, true);
    }
    (wait_unseen(processor, now), false)
}

/// The byte that is sent in so many M-cycles.
fn byte_sent(serial: &SerialState, cycles: u8) -> Option<u8>
    ensures { byte_list result ≡ sent_in_cycles cycles serial.now }
{
    if serial.cycles_left == 0 {
        return None;
    }
    if serial.cycles_left > u16::from(cycles) {
        return None;
    }
    Some(serial.sb)
}

/// How far some steps went in a frame.
#[derive(Clone, Copy)]
struct Went {
    /// How many M-cycles of the frame have passed after them.
    passed: u32,
    /// Whether the next step is known to be fast, and to be seen as little as they were.
    goes_on: bool,
    /// Whether the last one ran `LD B,B`.
    breaks: bool,
}

/// Makes steps in a frame of which `passed` M-cycles have passed, as long as they are sure to send
/// nothing: maybe none, and none after one that ran `LD B,B`. Returns how many have passed after them,
/// and whether the last one ran `LD B,B`.
fn run_unseen(processor: &mut Processor<Bus>, passed: u32) -> (u32, bool)
    requires { passed < cycles_per_frame }
    ensures run { seen_in (in_frame passed processor.old) ≡ seen_from result.1 (in_frame result.0 processor.new) }
    ensures start { passed ≤ result.0 }
    ensures few { result.0 < cycles_per_frame + 6 }
    ensures broke { result.1 ≡ true → passed < result.0 }
{
    if processor.memory.serial().cycles_left != 0 {
        return (passed, false);
    }
    if processor.is_fast() {
        return run_fast_unseen(processor, passed);
    }
    let sure = sure_waits(processor, FRAME - passed);
    Bus::pass(&mut processor.memory, sure);
    (passed + sure, false)
}

/// Passes the waits that are sure to come, if no transfer runs. Returns how many
/// M-cycles of the frame have passed after them. Condition: the STAT signal is steady.
fn wait_unseen(processor: &mut Processor<Bus>, passed: u32) -> u32
    requires few { passed < cycles_per_frame + 6 }
    requires steady { IsSteady processor.old.memory.picture }
    ensures run { seen_in (in_frame result processor.new) ≡ seen_in (in_frame passed processor.old) }
    ensures start { passed ≤ result }
    ensures few { result < cycles_per_frame + 6 }
{
    if passed >= FRAME {
        return passed;
    }
    if processor.memory.serial().cycles_left != 0 {
        return passed;
    }
    let waits = waits(processor, FRAME - passed);
    if waits == 0 {
        return passed;
    }
    Bus::pass(&mut processor.memory, waits);
    passed + waits
}

/// Makes steps as `run_unseen` does, as long as the next one is fast.
fn run_fast_unseen(processor: &mut Processor<Bus>, passed: u32) -> (u32, bool)
    requires below { passed < cycles_per_frame }
    requires fast { IsFast bus_rules processor.old }
    requires silent { IsSilent processor.old.memory }
    ensures run { seen_in (in_frame passed processor.old) ≡ seen_from result.1 (in_frame result.0 processor.new) }
    ensures start { passed ≤ result.0 }
    ensures few { result.0 < cycles_per_frame + 6 }
    ensures broke { result.1 ≡ true → passed < result.0 }
{
    let mut passed = passed;
    while passed < FRAME {
        let went = run_fast_unseen_here(processor, passed);
        if !went.goes_on {
            return (went.passed, went.breaks);
        }
        passed = went.passed;
    }
    (passed, false)
}

/// Makes such steps while PC stays in the lower half of ROM, in the upper half, in WRAM or in HRAM, or
/// above ROM if it begins in none of them. It goes on only where steps were made.
fn run_fast_unseen_here(processor: &mut Processor<Bus>, passed: u32) -> Went
    requires below { passed < cycles_per_frame }
    requires fast { IsFast bus_rules processor.old }
    requires silent { IsSilent processor.old.memory }
    ensures run { seen_in (in_frame passed processor.old) ≡
        seen_from result.breaks (in_frame result.passed processor.new) }
    ensures start { passed ≤ result.passed }
    ensures few { result.passed < cycles_per_frame + 6 }
    ensures broke { result.breaks ≡ true → passed < result.passed }
    ensures more { result.goes_on ≡ true → passed < result.passed }
    ensures whole { result.goes_on ≡ true → result.breaks ≡ false }
    ensures fast { result.goes_on ≡ true → IsFast bus_rules processor.new }
    ensures silent { result.goes_on ≡ true → IsSilent processor.new.memory }
{
    if is_there::<IN_LOWER_ROM>(processor.registers.pc) {
        run_fast_unseen_by::<IN_LOWER_ROM>(processor, passed)
    } else if is_there::<IN_UPPER_ROM>(processor.registers.pc) {
        run_fast_unseen_by::<IN_UPPER_ROM>(processor, passed)
    } else if is_there::<IN_WRAM>(processor.registers.pc) {
        run_fast_unseen_by::<IN_WRAM>(processor, passed)
    } else if is_there::<IN_HRAM>(processor.registers.pc) {
        run_fast_unseen_by::<IN_HRAM>(processor, passed)
    } else {
        run_fast_unseen_by::<ABOVE_ROM>(processor, passed)
    }
}

/// Makes such steps while PC is where this loop runs.
#[inline(never)]
fn run_fast_unseen_by<const LOOP: u8>(processor: &mut Processor<Bus>, passed: u32) -> Went
    requires below { passed < cycles_per_frame }
    requires fast { IsFast bus_rules processor.old }
    requires silent { IsSilent processor.old.memory }
    ensures run { seen_in (in_frame passed processor.old) ≡
        seen_from result.breaks (in_frame result.passed processor.new) }
    ensures start { passed ≤ result.passed }
    ensures few { result.passed < cycles_per_frame + 6 }
    ensures broke { result.breaks ≡ true → passed < result.passed }
    ensures more { result.goes_on ≡ true → passed < result.passed }
    ensures whole { result.goes_on ≡ true → result.breaks ≡ false }
    ensures fast { result.goes_on ≡ true → IsFast bus_rules processor.new }
    ensures silent { result.goes_on ≡ true → IsSilent processor.new.memory }
{
    if !is_there::<LOOP>(processor.registers.pc) {
        return Went {
            passed,
            goes_on: false,
            breaks: false,
        };
    }
    let mut passed = passed;
    loop {
        let went = run_calm_unseen::<LOOP>(processor, passed);
        if !went.goes_on {
            return went;
        }
        if processor.memory.serial().cycles_left != 0 {
            return Went {
                passed: went.passed,
                goes_on: false,
                breaks: false,
            };
        }
        if went.passed >= FRAME || !is_there::<LOOP>(processor.registers.pc) {
            return went;
        }
        passed = went.passed;
    }
}

/// Makes such steps up to and including the first that is not known to be calm, or runs `LD B,B`, or
/// after which PC is elsewhere.
#[inline(always)]
fn run_calm_unseen<const LOOP: u8>(processor: &mut Processor<Bus>, passed: u32) -> Went
    requires below { passed < cycles_per_frame }
    requires fast { IsFast bus_rules processor.old }
    requires silent { IsSilent processor.old.memory }
    ensures run { seen_in (in_frame passed processor.old) ≡
        seen_from result.breaks (in_frame result.passed processor.new) }
    ensures more { passed < result.passed }
    ensures few { result.passed < cycles_per_frame + 6 }
    ensures whole { result.goes_on ≡ true → result.breaks ≡ false }
    ensures fast { result.goes_on ≡ true → IsFast bus_rules processor.new }
{
    let calm = u32::from(processor.memory.calm()).min(FRAME - passed);
    let end = passed + calm;
    let mut left = calm;
    loop {
        let opcode = Bus::read(&processor.memory, processor.registers.pc);
        let breaks = opcode == BREAKPOINT;
        let AfterStep {
            now,
            left: fewer,
            is_fast,
            is_calm,
        } = run_fast_step::<WatchedLoops, LOOP>(processor, opcode, breaks, left, end);
        if !is_calm {
            return Went {
                passed: now,
                goes_on: is_fast,
                breaks,
            };
        }
        left = fewer;
        if !is_there::<LOOP>(processor.registers.pc) {
            return Went {
                passed: end - left,
                goes_on: true,
                breaks: false,
            };
        }
    }
}
