//! The machine with its history.

ghost use Rattle.std.specs.Prelude.{◌≡◌, ◌<◌, ◌≤◌, ◌*◌, IfErr, IfOk, true, OnErr, OnOk, [], length, slice_get};
ghost use Rattle.std.specs.Io.KnownBytes.{Appends};
ghost use Rattle.exact_text.specs.Written.{AppendsProperPrefix};

use crate::breaks::Breaks;
use crate::listing::write_lines;
use crate::stop::Stop;
use circular_buffer::HeapCircularBuffer;
use exact_text::{Output, OutputFailed};
use machine::{Executed, Machine, Passed, StepKind, Stepped, Watch};
use std::alloc::Global;
use std::marker::Model;

/// How many fast steps are put into the history at once: more than most histories hold, so that of a
/// long run most instructions are not copied into it.
const KEPT: usize = 4_096;

/// What stands where no instruction was put yet.
const NOTHING: Executed = Executed {
    pc: 0,
    bytes: [0; 3],
    length: 0,
};

/// A machine whose last instructions are kept.
///
/// `new` allocates the room for them. Every other call takes no memory, and only `list` can fail.
#[derive(Drop)]
pub struct Debugger {
    machine: Machine,
    history: HeapCircularBuffer<Executed>,
}

/// Room for the instructions of a run that are not in the history yet. What it holds between two runs
/// says nothing.
#[derive(Clone, Copy)]
pub struct RunRoom {
    kept: [Executed; KEPT],
}

impl RunRoom {
    /// Room for any run.
    pub fn new() -> RunRoom {
        RunRoom {
            kept: [NOTHING; KEPT],
        }
    }
}

/// A debugger after a step, and what was seen in it.
#[derive(Drop)]
pub struct WatchedStep {
    pub debugger: Debugger,
    pub stepped: Stepped,
    /// The byte that was sent over the serial port.
    pub sent: Option<u8>,
}

impl Model for Debugger {
    ghost use Rattle.debugger.specs.History.{DebuggerState, HoldsAtMost};

    ghost Value = { DebuggerState };

    ghost view = { λ d. record { machine = d.machine; size = d.history.capacity; history = d.history.items } };

    ghost invariant = { λ d. HoldsAtMost d.history.capacity d.history.items };
}

impl Debugger {
    ghost use Rattle.memory_map.specs.BusRules.{bus_rules};
    ghost use Rattle.machine.specs.Machine.{cycles_of_steps};
    ghost use Rattle.machine.specs.Sent.{sent_in_step};
    ghost use Rattle.machine.specs.Watched.{byte_list};
    ghost use Rattle.sm83_processor.specs.Steps.{step_of};
    ghost use Rattle.sm83_processor.specs.FastStep.{IsFast};
    ghost use Rattle.debugger.specs.History.{after_run};
    ghost use Rattle.debugger.specs.Listing.{lines_from};
    ghost use Rattle.debugger.specs.Run.{HasPassed, IsStop};

    /// A debugger for this machine, which keeps the last `size` instructions, 1 to 1,024. If there
    /// is no memory for them, it hands the machine back as it was.
    pub fn new(alloc: Global, machine: Machine, size: usize) -> Result<Debugger, Machine>
        requires least { 1 ≤ size }
        requires most { size ≤ 1024 }
        ensures ok { IfOk result (λ d. d ≡ record { machine = machine; size = size; history = [] }) }
        ensures err { IfErr result (λ m. m ≡ machine) }
    {
        match HeapCircularBuffer::with_capacity(alloc, size) {
            Ok(history) => Ok(Debugger { machine, history }),
            Err(_) => Err(machine),
        }
    }

    /// One step of the machine, and what it did. An instruction goes into the history, replacing
    /// the oldest one if the history is full; a wait and the dispatch of an interrupt do not.
    pub fn step(&mut self) -> Stepped
        ensures debugger { self.new ≡ after_run 1 self.old }
        ensures stepped { result ≡ (step_of bus_rules self.old.machine.processor).stepped }
    {
        let stepped = self.machine.step();
        if let StepKind::Ran(seen) = stepped.kind {
            let _ = self.history.push_back(seen);
        }
        stepped
    }

    /// As `step`; also says which byte the step sent over the serial port.
    pub fn step_watched(self) -> WatchedStep
        ensures debugger { result.debugger ≡ after_run 1 self }
        ensures stepped { result.stepped ≡ (step_of bus_rules self.machine.processor).stepped }
        ensures sent { byte_list result.sent ≡ sent_in_step self.machine.processor }
    {
        // the history is within its size, so a step that puts nothing into it leaves it as it is
        prove!(self.history.len() <= self.history.capacity());
        let (machine, mut history) = self.into_parts();
        let step = machine.step_watched();
        if let StepKind::Ran(seen) = step.stepped.kind {
            let _ = history.push_back(seen);
        }
        WatchedStep {
            debugger: Debugger::from_parts(step.machine, history),
            stepped: step.stepped,
            sent: step.sent,
        }
    }

    /// Makes steps until one that is not the first would begin at one of these addresses, but at
    /// most `limit` steps. A run that has made all its steps when it reaches a breakpoint is a
    /// `Limit`.
    pub fn run_until(&mut self, breaks: &[u16], limit: u32) -> Stop
        ensures { IsStop breaks.now limit self.old self.new result }
    {
        // the history is within its size, so a run of no step leaves it as it is
        prove!(self.history.len() <= self.history.capacity());
        let mut room = RunRoom::new();
        let watch = Breaks::of(breaks);
        let mut made = 0;
        while made < limit {
            let pc = self.machine.registers().pc;
            if made > 0 && watch.has(pc) {
                return Stop::Break(pc);
            }
            if self.machine.is_fast() {
                made += self.run_watching(&mut room, &watch, limit - made).steps;
            } else {
                let _ = self.step();
                made += 1;
            }
        }
        Stop::Limit
    }

    /// Makes fast steps, at least one, until one that is not the first may not be fast, or a watch may end
    /// the run before it; at most `limit`, and no more than are put into the history at once. Returns how
    /// many, and the M-cycles that they took. Conditions: the next step is fast, as `Machine::is_fast`
    /// tells, and `limit` is not 0.
    pub fn run_watching<W: Watch>(&mut self, room: &mut RunRoom, watch: &W, limit: u32) -> Passed
        requires some { 0 < limit }
        requires fast { IsFast bus_rules self.old.machine.processor }
        ensures run { HasPassed (W.passes watch.now) result.steps self.old self.new }
        ensures cycles { result.cycles ≡ cycles_of_steps bus_rules result.steps self.old.machine.processor }
        ensures some { 0 < result.steps }
        ensures most { result.steps ≤ limit }
        ensures few { result.cycles ≤ 6 * result.steps }
    {
        let most = (KEPT as u32).min(limit);
        let passed = self.machine.run_watching(&mut room.kept, most, watch);
        self.history
            .extend_from_slice(&room.kept[..passed.steps as usize]);
        passed
    }

    /// How many instructions the history holds: at most `size`.
    pub fn history_len(&self) -> usize
        ensures len { result ≡ length self.now.history }
        ensures most { result ≤ self.now.size }
    {
        self.history.len()
    }

    /// The instruction at an index of the history, the oldest first; `None` from `history_len` up.
    pub fn history(&self, index: usize) -> Option<Executed>
        ensures { result ≡ slice_get self.now.history index }
    {
        self.history.get(index).copied()
    }

    /// Writes the lines of `count` instructions as the machine sees them now, the first at
    /// `address`. Addresses wrap around after FFFF, and each line begins where the last one's
    /// instruction ended. Refused if a write fails: a proper prefix of the lines went out.
    pub fn list<W: Output>(&self, address: u16, count: u32, out: &mut W) -> Result<(), OutputFailed>
        ensures ok { OnOk result
            (Appends (W.contents out.old) (W.contents out.new) (lines_from self.now.machine address count)) }
        ensures err { OnErr result
            (AppendsProperPrefix (W.contents out.old) (W.contents out.new)
            (lines_from self.now.machine address count)) }
        ensures failed { OnErr result (W.has_failed out.new ≡ true) }
    {
        write_lines(&self.machine, address, count, out)
    }

    /// A read-only view of the machine.
    pub fn machine(&self) -> &Machine
        ensures { result.now ≡ self.now.machine }
    {
        &self.machine
    }

    /// The machine as it is now, without the history.
    pub fn into_machine(self) -> Machine
        ensures { result ≡ self.machine }
    {
        let Debugger {
            machine,
            history: _,
        } = self;
        machine
    }

    /// The machine and the history apart.
    pub fn into_parts(self) -> (Machine, HeapCircularBuffer<Executed>)
        ensures machine { result.0 ≡ self.machine }
        ensures items { result.1.items ≡ self.history }
        ensures capacity { result.1.capacity ≡ self.size }
    {
        let Debugger { machine, history } = self;
        (machine, history)
    }

    /// A debugger of a machine, with a history that is kept already.
    pub fn from_parts(machine: Machine, history: HeapCircularBuffer<Executed>) -> Debugger
        ensures { result ≡ record { machine = machine; size = history.capacity; history = history.items } }
    {
        // a history is within its size
        prove!(history.len() <= history.capacity());
        Debugger { machine, history }
    }
}
