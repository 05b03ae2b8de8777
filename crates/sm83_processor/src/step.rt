//! One step of the processor.

ghost use Rattle.std.specs.Prelude.{◌≡◌, ◌<◌, ◌≤◌, ◌+◌, ◌*◌, ◌==◌, ◌&&◌, not, true};
ghost use Rattle.sm83_processor.specs.RegisterOperations.{next_address};

use crate::lengths::length_of_opcode;
use crate::memory::Memory;
use crate::processor::Processor;

/// An instruction that ran: where it was, the three bytes that were fetched, and how many of them
/// are its own.
#[derive(Clone, Copy)]
pub struct Executed {
    pub pc: u16,
    pub bytes: [u8; 3],
    pub length: u8,
}

/// What a step did.
#[derive(Clone, Copy)]
pub enum StepKind {
    /// An interrupt was dispatched to this vector.
    Dispatch(u16),
    /// One M-cycle passed while the processor was halted, stopped or locked.
    Wait,
    /// An instruction ran.
    Ran(Executed),
}

/// What a step did, and how many M-cycles passed in it: 1 to 6.
#[derive(Clone, Copy)]
pub struct Stepped {
    pub kind: StepKind,
    pub cycles: u8,
}

/// The address of the joypad's register P1.
const JOYPAD: u16 = 0xff00;

/// The opcode of DI.
const DISABLE_INTERRUPTS: u8 = 0xf3;

impl<M: Memory> Processor<M> {
    ghost use Rattle.sm83_processor.specs.Steps.{step_of, step_unstopped, dispatched_or_ran, ran, dispatched, waited, begun, with_ime_due, decoded_at, second_address, byte_at, lowest_interrupt};
    ghost use Rattle.std.specs.Prelude.{[], ◌∷◌, ℕ};
    ghost use Rattle.opcode_table.specs.Table.{instruction_of};
    ghost use Rattle.sm83_processor.specs.FastStep.{IsFast};

    fn wait(&mut self) -> Stepped
        ensures after { self.new ≡ (waited M.rules self.old).after }
        ensures stepped { result ≡ (waited M.rules self.old).stepped }
        ensures some_cycles { 0 < result.cycles }
        ensures few_cycles { result.cycles ≤ 6 }
    {
        self.memory.pass(1);
        Stepped {
            kind: StepKind::Wait,
            cycles: 1,
        }
    }

    fn dispatch(&mut self) -> Stepped
        ensures after { self.new ≡ (dispatched M.rules self.old).after }
        ensures stepped { result ≡ (dispatched M.rules self.old).stepped }
        ensures some_cycles { 0 < result.cycles }
        ensures few_cycles { result.cycles ≤ 6 }
    {
        let bit = lowest_of(self.memory.pending_interrupts());
        self.memory.acknowledge(bit);
        self.state.ime = false;
        self.state.ime_pending = false;
        let vector = 64 + 8 * u16::from(bit);
        self.call(vector);
        self.memory.pass(5);
        Stepped {
            kind: StepKind::Dispatch(vector),
            cycles: 5,
        }
    }

    pub(crate) fn fetch(&self) -> [u8; 3]
        ensures { result ≡ byte_at M.rules self.now.registers.pc self.now ∷ byte_at M.rules (second_address self.now) self.now ∷
            byte_at M.rules (next_address (second_address self.now)) self.now ∷ [] }
    {
        let second = self.second();
        let third = second.wrapping_add(1);
        [
            self.memory.read(self.registers.pc),
            self.memory.read(second),
            self.memory.read(third),
        ]
    }

    /// Sets IME at the end of an instruction of this opcode, if it began with `ime_pending` and is not DI.
    #[inline(always)]
    #[tactic(auto, using(crate::proofs::Disabling::disabling_opcode))]
    fn set_ime_due(&mut self, ime_pending: bool, opcode: u8)
        ensures { (low high : ℕ) → self.new ≡ with_ime_due ime_pending (instruction_of opcode low high) self.old }
    {
        if !ime_pending {
            return;
        }
        if opcode == DISABLE_INTERRUPTS {
            return;
        }
        self.state.ime = true;
        self.state.ime_pending = false;
    }

    #[inline(always)]
    fn run(&mut self) -> Stepped
        ensures after { self.new ≡ (ran M.rules self.old).after }
        ensures stepped { result ≡ (ran M.rules self.old).stepped }
        ensures some_cycles { 0 < result.cycles }
        ensures few_cycles { result.cycles ≤ 6 }
    {
        let pc = self.registers.pc;
        let ime_pending = self.state.ime_pending;
        let bytes = self.fetch();
        let cycles = self.run_opcode_out_of_line(bytes[0]);
        self.set_ime_due(ime_pending, bytes[0]);
        self.memory.pass(cycles);
        Stepped {
            kind: StepKind::Ran(Executed {
                pc,
                bytes,
                length: length_of_opcode(bytes[0]),
            }),
            cycles,
        }
    }

    /// Whether the next step is an instruction that begins with neither `ime_pending` nor `halt_bug`: a
    /// fast one.
    #[inline(always)]
    pub fn is_fast(&self) -> bool
        ensures fast { result ≡ true → IsFast M.rules self.now }
        ensures every { IsFast M.rules self.now → result ≡ true }
    {
        if self.state.locked || self.state.stopped || self.state.halted {
            return false;
        }
        if self.state.ime_pending || self.state.halt_bug {
            return false;
        }
        !self.is_interrupted()
    }

    /// Whether IME is set and IE and IF share a bit.
    #[inline(always)]
    pub fn is_interrupted(&self) -> bool
        ensures { result ≡ (self.now.state.ime && not (M.rules.pending_interrupts self.now.memory == 0)) }
    {
        self.memory.pending_interrupts() != 0 && self.state.ime
    }

    #[inline(always)]
    fn dispatch_or_run(&mut self) -> Stepped
        ensures after { self.new ≡ (dispatched_or_ran M.rules self.old).after }
        ensures stepped { result ≡ (dispatched_or_ran M.rules self.old).stepped }
        ensures some_cycles { 0 < result.cycles }
        ensures few_cycles { result.cycles ≤ 6 }
    {
        if self.state.ime && self.memory.pending_interrupts() != 0 {
            self.dispatch()
        } else {
            self.run()
        }
    }

    #[inline(always)]
    fn step_unstopped(&mut self) -> Stepped
        ensures after { self.new ≡ (step_unstopped M.rules self.old).after }
        ensures stepped { result ≡ (step_unstopped M.rules self.old).stepped }
        ensures some_cycles { 0 < result.cycles }
        ensures few_cycles { result.cycles ≤ 6 }
    {
        if self.state.halted && self.memory.pending_interrupts() == 0 {
            return self.wait();
        }
        self.state.halted = false;
        self.dispatch_or_run()
    }

    /// One step: a wait, an interrupt or one instruction.
    #[inline(never)]
    #[tactic(auto, unfolding(crate::specs::Steps::step_of))]
    pub fn step(&mut self) -> Stepped
        ensures after { self.new ≡ (step_of M.rules self.old).after }
        ensures stepped { result ≡ (step_of M.rules self.old).stepped }
        ensures some_cycles { 0 < result.cycles }
        ensures few_cycles { result.cycles ≤ 6 }
    {
        if self.state.locked {
            return self.wait();
        }
        if self.state.stopped && self.memory.read(JOYPAD) % 16 == 15 {
            return self.wait();
        }
        self.state.stopped = false;
        self.step_unstopped()
    }
}

ghost use Rattle.sm83_processor.specs.Steps.{lowest_interrupt};

fn lowest_of(bits: u8) -> u8
    ensures { result ≡ lowest_interrupt bits }
{
    if bits % 2 == 1 {
        0
    } else if bits / 2 % 2 == 1 {
        1
    } else if bits / 4 % 2 == 1 {
        2
    } else if bits / 8 % 2 == 1 {
        3
    } else {
        4
    }
}
