//! A debugger's machine, run by steps, up to a place, or by frames.

ghost use Rattle.std.specs.Prelude.{◌≡◌, ◌<◌, ◌≤◌, ◌++◌, ◌*◌, [], ◌∷◌, length, true, false, IfOk, IfSome, nat_lt};
ghost use Rattle.circular_buffer.specs.Buffer.{keep_last};
ghost use Rattle.machine.specs.Machine.{cycles_of_steps};
ghost use Rattle.machine.specs.Watched.{byte_list};
ghost use Rattle.memory_map.specs.BusRules.{bus_rules};
ghost use Rattle.sm83_processor.specs.Steps.{step_of};
ghost use Rattle.memory_map.specs.State.{BusState};
ghost use Rattle.sm83_processor.specs.declared.processor.Processor.{Processor};
ghost use Rattle.snapshot.specs.Legal.{IsOfImage};
ghost use Rattle.debugging.specs.States.{after_power, after_snapshot, is_snapshot, rom_of, with_machine};
ghost use Rattle.debugging.specs.Setting.{byte_set, register_set};
ghost use Rattle.debugging.specs.Answers.{until_steps};
ghost use Rattle.debugging.specs.Conditions.{holds, number_of};
ghost use Rattle.debugger.specs.Run.{HasPassed};
ghost use Rattle.debugging.specs.Run.{after_frame, after_frames, after_seconds, after_steps_of, begun, processor_of, steps_up_to};
ghost use Rattle.debugging.specs.Quiet.{HasRom, IsQuietFor, Makes, MakesIn, StopsBefore, StopsIn, has_pc, is_any};

use crate::aims::{Aim, addresses_of, aims_of, is_any, number_of};
use crate::order::Condition;
use crate::passing::{AimWatch, ChangeWatch, OpcodeWatch, ReadWatch, WriteWatch};
use crate::position::{Played, frame_cycles, with_cycles, with_frame};
use crate::registers::{RegisterValue, with_register};
use cartridge::Cartridge;
use circular_buffer::HeapCircularBuffer;
use debugger::{Breaks, Debugger, RunRoom, WatchedStep};
use machine::{Executed, Input, Machine, Passed, Processor, Stepped, Watch, Watched};
use machine_lines::{Look, shows_picture};
use memory_map::Bus;
use snapshot::{decode_into, powered};
use std::alloc::{AllocError, Global};
use std::marker::Model;

/// The most bytes that are kept until they are told: the last ones.
const MOST_SENT: usize = 65_536;

/// The most instructions of the history.
const MOST_HISTORY: usize = 1_024;

/// The most M-cycles of a step.
const MOST_CYCLES: u32 = 6;

/// The most steps that are made at once because no transfer can end in them: one that begins takes 1,024 M-cycles.
const MOST_QUIET: u32 = 170;

/// A debugger, the bytes that its machine sent over the serial port and that were not told yet, and what was played since it began.
#[derive(Drop)]
pub(crate) struct Run {
    debugger: Debugger,
    sent: HeapCircularBuffer<u8>,
    played: Played,
}

impl Model for Run {
    ghost use Rattle.std.specs.Prelude.{◌≡◌, ◌≤◌, length};
    ghost use Rattle.debugging.specs.Run.{RunState, most_sent, most_history};

    ghost Value = { RunState };

    ghost view = { λ r. record { debugger = r.debugger; sent = r.sent.items; played = r.played } };

    ghost invariant = { λ r. (r.sent.capacity ≡ most_sent) × (length r.sent.items ≤ most_sent) };
}

/// A run after a step, and what the step was.
#[derive(Drop)]
pub(crate) struct RunStep {
    pub(crate) run: Run,
    pub(crate) stepped: Stepped,
}

/// A run that went up to an aim, and whether it stopped there before all its steps were made.
#[derive(Drop)]
pub(crate) struct RunUntil {
    pub(crate) run: Run,
    pub(crate) is_there: bool,
}

/// The same, and the number of the first condition that holds there.
#[derive(Drop)]
pub(crate) struct RunMet {
    pub(crate) run: Run,
    pub(crate) is_there: bool,
    pub(crate) number: usize,
}

/// How many M-cycles some steps took, and whether they stopped at an aim.
#[derive(Clone, Copy)]
struct Went {
    cycles: u64,
    is_there: bool,
}

/// A run whose machine may have been given as its snapshot, and whether it was.
#[derive(Drop)]
pub(crate) struct RunRestored {
    pub(crate) run: Run,
    pub(crate) is_restored: bool,
}

impl Run {
    /// A run of this machine, of which nothing was run yet.
    pub(crate) fn new(alloc: Global, machine: Machine) -> Result<Run, AllocError>
        ensures { IfOk result (λ r. r ≡ begun machine) }
    {
        let sent = match HeapCircularBuffer::with_capacity(alloc, MOST_SENT) {
            Ok(sent) => sent,
            Err(fault) => {
                drop(machine);
                return Err(fault);
            }
        };
        match Debugger::new(alloc, machine, MOST_HISTORY) {
            Ok(debugger) => Ok(Run {
                debugger,
                sent,
                played: Played {
                    cycles: 0,
                    frames: 0,
                },
            }),
            Err(_) => Err(AllocError),
        }
    }

    /// A read-only view of the debugger.
    pub(crate) fn debugger(&self) -> &Debugger
        ensures { result.now ≡ self.now.debugger }
    {
        &self.debugger
    }

    /// The bytes that were not told yet.
    pub(crate) fn sent(&self) -> (&[u8], &[u8])
        ensures { result.0.now ++ result.1.now ≡ self.now.sent }
    {
        self.sent.as_slices()
    }

    /// What was played since the debugger began.
    pub(crate) fn played(&self) -> Played
        ensures { result ≡ self.now.played }
    {
        self.played
    }

    fn cycles_played(&self) -> u64
        ensures { result ≡ self.now.played.cycles }
    {
        self.played.cycles
    }

    /// All bytes are told.
    pub(crate) fn forget_sent(&mut self)
        ensures { self.new ≡ record self.old { sent = [] } }
    {
        self.sent.clear();
    }

    /// A read-only view of the processor.
    pub(crate) fn processor(&self) -> &Processor<Bus>
        ensures { result.now ≡ processor_of self.now }
    {
        self.debugger.machine().processor()
    }

    /// No step: what is kept is within its bounds, so that a run of no step leaves it as it is.
    pub(crate) fn no_step(&self)
        ensures { self.now ≡ after_steps_of 0 self.now }
    {
        let _held = self.debugger.history_len();
        let _counted = self.cycles_played();
    }

    /// One step.
    pub(crate) fn step(self) -> RunStep
        ensures run { result.run ≡ after_steps_of 1 self }
        ensures stepped { result.stepped ≡ (step_of bus_rules (processor_of self)).stepped }
    {
        let Run {
            debugger,
            mut sent,
            played,
        } = self;
        let WatchedStep {
            debugger,
            stepped,
            sent: byte,
        } = debugger.step_watched();
        note(&mut sent, byte);
        RunStep {
            run: Run {
                debugger,
                sent,
                played: with_cycles(played, u64::from(stepped.cycles)),
            },
            stepped,
        }
    }

    /// Steps in which no transfer can end, up to an aim, but at most `limit`. The first is made wherever it begins. Returns whether it stopped
    /// before all were made. Conditions: `limit` is not 0, the ROM has so many bytes, and the watch lets no aim pass.
    fn quiet_up_to<W: Watch>(
        &mut self,
        room: &mut RunRoom,
        watch: &W,
        aims: &[Aim],
        rom: usize,
        limit: u32,
    ) -> bool
        requires rom { HasRom rom (processor_of self.old).memory }
        requires watch { (p : Processor BusState) → W.passes watch.now p → is_any aims.now p ≡ false }
        requires some { 0 < limit }
        requires quiet { IsQuietFor limit (processor_of self.old) }
        ensures made { result ≡ false → Makes (is_any aims.now) limit self.old self.new }
        ensures there { result ≡ true → StopsBefore (is_any aims.now) limit self.old self.new }
    {
        let went = step_up_to(&mut self.debugger, room, watch, aims, rom, limit);
        self.played = with_cycles(self.played, went.cycles);
        went.is_there
    }

    /// Steps up to one of these conditions, but at most `limit`. The first step is made wherever it begins. Conditions: there are sixteen of them
    /// at most, and the ROM has so many bytes.
    pub(crate) fn run_until(self, conditions: &[Condition], rom: usize, limit: u32) -> RunMet
        requires few { length conditions.now ≤ 16 }
        requires rom { HasRom rom (processor_of self).memory }
        ensures run { result.run ≡ after_steps_of (until_steps limit conditions.now self) self }
        ensures there { result.is_there ≡ nat_lt (until_steps limit conditions.now self) limit }
        ensures number { result.number ≡
            number_of (holds (processor_of self).memory (processor_of result.run)) conditions.now }
    {
        let aims = aims_of(conditions, self.processor());
        let RunUntil { run, is_there } = self.run_to(aims.as_slice(), rom, limit);
        let number = number_of(aims.as_slice(), rom, run.processor());
        RunMet {
            run,
            is_there,
            number,
        }
    }

    /// Steps up to one of these aims, but at most `limit`. The first step is made wherever it begins. Condition: the ROM has so many bytes.
    fn run_to(self, aims: &[Aim], rom: usize, limit: u32) -> RunUntil
        requires { HasRom rom (processor_of self).memory }
        ensures run { result.run ≡ after_steps_of (steps_up_to (is_any aims.now) limit (processor_of self)) self }
        ensures there { result.is_there ≡ nat_lt (steps_up_to (is_any aims.now) limit (processor_of self)) limit }
    {
        match addresses_of(aims) {
            Some(addresses) => self.run_to_address(addresses.as_slice(), aims, rom, limit),
            None => match aims {
                [aim] => self.run_to_one(*aim, aims, rom, limit),
                _ => self.run_to_any(aims, rom, limit),
            },
        }
    }

    /// The same, where the aims are these addresses.
    fn run_to_address(self, addresses: &[u16], aims: &[Aim], rom: usize, limit: u32) -> RunUntil
        requires rom { HasRom rom (processor_of self).memory }
        requires same { (p : Processor BusState) → is_any aims.now p ≡ has_pc addresses.now p }
        ensures run { result.run ≡ after_steps_of (steps_up_to (is_any aims.now) limit (processor_of self)) self }
        ensures there { result.is_there ≡ nat_lt (steps_up_to (is_any aims.now) limit (processor_of self)) limit }
    {
        let breaks = Breaks::of(addresses);
        self.run_to_watched(&breaks, aims, rom, limit)
    }

    /// The same, where there is one aim.
    fn run_to_one(self, aim: Aim, aims: &[Aim], rom: usize, limit: u32) -> RunUntil
        requires rom { HasRom rom (processor_of self).memory }
        requires one { aims.now ≡ aim ∷ [] }
        ensures run { result.run ≡ after_steps_of (steps_up_to (is_any aims.now) limit (processor_of self)) self }
        ensures there { result.is_there ≡ nat_lt (steps_up_to (is_any aims.now) limit (processor_of self)) limit }
    {
        match aim {
            Aim::Opcode(opcode) => self.run_to_watched(&OpcodeWatch { opcode }, aims, rom, limit),
            Aim::Other(address, byte) => self.run_to_watched(
                &ChangeWatch { address, byte },
                aims,
                rom,
                limit,
            ),
            Aim::Write(span) => self.run_to_watched(&WriteWatch { span }, aims, rom, limit),
            Aim::Read(span) => self.run_to_watched(&ReadWatch { span }, aims, rom, limit),
            Aim::Place(_) => self.run_to_any(aims, rom, limit),
        }
    }

    /// The same, by a watch, in a function of its own for each. Condition: it lets none of them pass.
    #[inline(never)]
    fn run_to_watched<W: Watch>(self, watch: &W, aims: &[Aim], rom: usize, limit: u32) -> RunUntil
        requires rom { HasRom rom (processor_of self).memory }
        requires watch { (p : Processor BusState) → W.passes watch.now p → is_any aims.now p ≡ false }
        ensures run { result.run ≡ after_steps_of (steps_up_to (is_any aims.now) limit (processor_of self)) self }
        ensures there { result.is_there ≡ nat_lt (steps_up_to (is_any aims.now) limit (processor_of self)) limit }
    {
        self.run_up_to(watch, aims, rom, limit)
    }

    /// The same, of any aims.
    fn run_to_any(self, aims: &[Aim], rom: usize, limit: u32) -> RunUntil
        requires { HasRom rom (processor_of self).memory }
        ensures run { result.run ≡ after_steps_of (steps_up_to (is_any aims.now) limit (processor_of self)) self }
        ensures there { result.is_there ≡ nat_lt (steps_up_to (is_any aims.now) limit (processor_of self)) limit }
    {
        self.run_to_watched(&AimWatch { aims }, aims, rom, limit)
    }

    /// The same, by a watch. Condition: it lets none of them pass.
    fn run_up_to<W: Watch>(self, watch: &W, aims: &[Aim], rom: usize, limit: u32) -> RunUntil
        requires rom { HasRom rom (processor_of self).memory }
        requires watch { (p : Processor BusState) → W.passes watch.now p → is_any aims.now p ≡ false }
        ensures run { result.run ≡ after_steps_of (steps_up_to (is_any aims.now) limit (processor_of self)) self }
        ensures there { result.is_there ≡ nat_lt (steps_up_to (is_any aims.now) limit (processor_of self)) limit }
    {
        self.no_step();
        // Made here, and this is compiled into its one caller, so that the copy into the history becomes one `memcpy`.
        let mut room = RunRoom::new();
        let mut run = self;
        let mut left = limit;
        while left > 0 {
            let quiet = quiet_steps(run.processor()).min(left);
            if quiet == 0 {
                run = run.step().run;
                left -= 1;
                if left > 0 && is_any(aims, rom, run.processor()) {
                    return RunUntil {
                        run,
                        is_there: true,
                    };
                }
                continue;
            }
            if run.quiet_up_to(&mut room, watch, aims, rom, quiet) {
                return RunUntil {
                    run,
                    is_there: true,
                };
            }
            left -= quiet;
            if left > 0 && is_any(aims, rom, run.processor()) {
                return RunUntil {
                    run,
                    is_there: true,
                };
            }
        }
        RunUntil {
            run,
            is_there: false,
        }
    }

    /// Plays a frame with these buttons.
    fn frame(self, buttons: u8) -> Run
        ensures { result ≡ after_frame buttons self }
    {
        let Run {
            debugger,
            mut sent,
            played,
        } = self;
        let (machine, mut history) = debugger.into_parts();
        history.clear();
        let before = machine.overrun();
        let mut frame = machine.begin_frame(buttons);
        'playing: while !frame.is_over() {
            let Watched {
                frame: after,
                sent: byte,
                breaks: _,
            } = frame.run_on();
            frame = after;
            note(&mut sent, byte);
        }
        let machine = frame.end();
        let cycles = frame_cycles(before, machine.overrun());
        Run {
            debugger: Debugger::from_parts(machine, history),
            sent,
            played: with_frame(played, cycles),
        }
    }

    /// Plays so many frames with these buttons.
    pub(crate) fn frames(self, buttons: u8, times: u32) -> Run
        ensures { result ≡ after_frames times buttons self }
    {
        let mut run = self;
        for _i in 0..times {
            run = run.frame(buttons);
        }
        run
    }

    /// Lets seconds of the cartridge's clock pass.
    pub(crate) fn seconds(self, count: u32) -> Run
        ensures { result ≡ after_seconds count self }
    {
        let Run {
            debugger,
            sent,
            played,
        } = self;
        let (mut machine, history) = debugger.into_parts();
        machine.apply(Input::Seconds(count));
        Run {
            debugger: Debugger::from_parts(machine, history),
            sent,
            played,
        }
    }

    /// Writes a byte to an address as an instruction does, but no M-cycle passes.
    pub(crate) fn set(self, address: u16, byte: u8) -> Run
        ensures { result ≡ with_machine (byte_set address byte self.debugger.machine) self }
    {
        let Run {
            debugger,
            sent,
            played,
        } = self;
        let (mut machine, mut seen) = debugger.into_parts();
        machine.write(address, byte);
        seen.clear();
        Run {
            debugger: Debugger::from_parts(machine, seen),
            sent,
            played,
        }
    }

    /// Sets a register, or a pair of them.
    pub(crate) fn set_register(self, value: RegisterValue) -> Run
        ensures { result ≡ with_machine (register_set value self.debugger.machine) self }
    {
        let Run {
            debugger,
            sent,
            played,
        } = self;
        let (mut machine, mut instructions) = debugger.into_parts();
        let mut state = machine.state();
        state.registers = with_register(state.registers, value);
        machine.restore(&state);
        instructions.clear();
        Run {
            debugger: Debugger::from_parts(machine, instructions),
            sent,
            played,
        }
    }

    /// Makes the machine the one of this snapshot, if it is one of the cartridge. Condition: the machine is one of it.
    pub(crate) fn restore(self, cartridge: &Cartridge, snapshot: &[u8]) -> RunRestored
        requires { IsOfImage cartridge.now self.debugger.machine }
        ensures run { result.run ≡ after_snapshot snapshot.now self }
        ensures restored { result.is_restored ≡ is_snapshot (rom_of self) snapshot.now }
        ensures of { IsOfImage cartridge.now result.run.debugger.machine }
    {
        let Run {
            debugger,
            sent,
            played,
        } = self;
        let (mut machine, mut kept) = debugger.into_parts();
        match decode_into(snapshot, cartridge, &mut machine) {
            Ok(()) => {
                kept.clear();
                RunRestored {
                    run: Run {
                        debugger: Debugger::from_parts(machine, kept),
                        sent,
                        played,
                    },
                    is_restored: true,
                }
            }
            Err(_) => RunRestored {
                run: Run {
                    debugger: Debugger::from_parts(machine, kept),
                    sent,
                    played,
                },
                is_restored: false,
            },
        }
    }

    /// Switches the power off and on. Refused if there is no memory. Condition: the machine is one of the cartridge.
    pub(crate) fn power(self, alloc: Global, cartridge: &Cartridge) -> Result<Run, AllocError>
        requires { IsOfImage cartridge.now self.debugger.machine }
        ensures run { IfOk result (λ run. run ≡ after_power self) }
        ensures of { IfOk result (λ run. IsOfImage cartridge.now run.debugger.machine) }
    {
        let Run {
            debugger,
            sent,
            played,
        } = self;
        let (machine, mut executed) = debugger.into_parts();
        let fresh = match powered(alloc, cartridge, &machine) {
            Ok(fresh) => fresh,
            Err(fault) => {
                drop(machine);
                return Err(fault);
            }
        };
        drop(machine);
        executed.clear();
        Ok(Run {
            debugger: Debugger::from_parts(fresh, executed),
            sent,
            played,
        })
    }

    /// Draws what was only noted, so that the picture is read quickly, where a look shows it. No value changes.
    pub(crate) fn drawn_for(self, look: Look) -> Run
        ensures { result ≡ self }
    {
        if !shows_picture(look) {
            return self;
        }
        self.draw_late()
    }

    /// Draws what was only noted, so that the picture is read quickly. No value changes.
    pub(crate) fn draw_late(self) -> Run
        ensures { result ≡ self }
    {
        let Run {
            debugger,
            sent,
            played,
        } = self;
        let (mut machine, history) = debugger.into_parts();
        machine.draw_late();
        Run {
            debugger: Debugger::from_parts(machine, history),
            sent,
            played,
        }
    }
}

/// Keeps a byte, if one was sent.
fn note(sent: &mut HeapCircularBuffer<u8>, byte: Option<u8>)
    requires { length sent.old.items ≤ sent.old.capacity }
    ensures items { sent.new.items ≡ keep_last sent.old.capacity (sent.old.items ++ byte_list byte) }
    ensures capacity { sent.new.capacity ≡ sent.old.capacity }
    ensures within { length sent.new.items ≤ sent.old.capacity }
{
    if let Some(byte) = byte {
        let _ = sent.push_back(byte);
    }
}

/// Steps up to an aim, but at most `limit`. The first is made wherever it begins. Returns whether it stopped before all were made.
/// Conditions: `limit` is not 0, the ROM has so many bytes, and the watch lets no aim pass.
fn step_up_to<W: Watch>(
    debugger: &mut Debugger,
    room: &mut RunRoom,
    watch: &W,
    aims: &[Aim],
    rom: usize,
    limit: u32,
) -> Went
    requires rom { HasRom rom debugger.old.machine.processor.memory }
    requires watch { (p : Processor BusState) → W.passes watch.now p → is_any aims.now p ≡ false }
    requires some { 0 < limit }
    ensures made { result.is_there ≡ false →
        MakesIn (is_any aims.now) limit result.cycles debugger.old debugger.new }
    ensures there { result.is_there ≡ true →
        StopsIn (is_any aims.now) limit result.cycles debugger.old debugger.new }
{
    // the history is within its size, so a run of no step leaves it as it is
    let _held = debugger.history_len();
    let mut made = 0;
    let mut cycles = 0;
    loop {
        let passed = step_on(debugger, room, watch, limit - made);
        made += passed.steps;
        cycles += passed.cycles;
        if made >= limit {
            return Went {
                cycles,
                is_there: false,
            };
        }
        if is_any(aims, rom, debugger.machine().processor()) {
            return Went {
                cycles,
                is_there: true,
            };
        }
    }
}

/// Makes steps, one at least and at most `limit`, of which the watch has let each but the first pass. Returns how many, and their M-cycles.
/// Condition: `limit` is not 0.
fn step_on<W: Watch>(debugger: &mut Debugger, room: &mut RunRoom, watch: &W, limit: u32) -> Passed
    requires { 0 < limit }
    ensures run { HasPassed (W.passes watch.now) result.steps debugger.old debugger.new }
    ensures cycles { result.cycles ≡ cycles_of_steps bus_rules result.steps debugger.old.machine.processor }
    ensures some { 0 < result.steps }
    ensures most { result.steps ≤ limit }
    ensures few { result.cycles ≤ 6 * result.steps }
{
    if debugger.machine().is_fast() {
        return debugger.run_watching(room, watch, limit);
    }
    let stepped = debugger.step();
    Passed {
        steps: 1,
        cycles: u64::from(stepped.cycles),
    }
}

/// For how many steps no transfer can end, 170 at most: each takes six M-cycles at most.
fn quiet_steps(processor: &Processor<Bus>) -> u32
    ensures { IsQuietFor result processor.now }
{
    let left = u32::from(processor.memory.serial().cycles_left);
    if left == 0 {
        return MOST_QUIET;
    }
    ((left - 1) / MOST_CYCLES).min(MOST_QUIET)
}
