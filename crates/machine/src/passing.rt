//! Fast steps of the processor over the bus, each reported, up to one before which a watch may end them.

ghost use Rattle.std.specs.Prelude.{◌≡◌, ◌<◌, ◌≤◌, ◌+◌, ◌*◌, ◌^◌, ℕ, true, length, take};
ghost use Rattle.memory_map.specs.State.{BusState};
ghost use Rattle.memory_map.specs.Bus.{read_at};
ghost use Rattle.memory_map.specs.BusRules.{bus_rules};
ghost use Rattle.machine.specs.FastRuns.{HasPassed, IsPassing};
ghost use Rattle.sm83_processor.specs.FastStep.{IsFast};
ghost use Rattle.sm83_processor.specs.Steps.{step_of};
ghost use Rattle.sm83_processor.specs.declared.processor.Processor.{Processor};
ghost use Rattle.sm83_processor.specs.declared.step.StepKind.{StepKind};

use crate::frame::{AfterStep, run_fast_step};
use crate::loops::{ABOVE_ROM, IN_LOWER_ROM, IN_UPPER_ROM, is_there};
use crate::steps::calm_within;
use crate::watch::Watch;
use memory_map::Bus;
use sm83_processor::{Executed, Processor, StepKind, length_of_opcode};

/// Steps that a watch let pass.
#[derive(Clone, Copy)]
pub struct Passed {
    /// How many they are.
    pub steps: u32,
    /// The M-cycles that they took.
    pub cycles: u64,
}

/// How far a loop of such steps went.
#[derive(Clone, Copy)]
struct Went {
    /// How many steps were made then, with those before the loop.
    made: usize,
    /// The M-cycles of the loop's own steps.
    cycles: u64,
    /// Whether the next step is known to be fast.
    is_fast: bool,
}

/// Makes fast steps, one at least, and puts their instructions into `kept`: until `most` were made, or
/// the next one may not be fast or the watch may end before it. Returns how many were made, and their
/// M-cycles.
pub(crate) fn run_watching<W: Watch>(
    processor: &mut Processor<Bus>,
    kept: &mut [Executed],
    most: u32,
    watch: &W,
) -> Passed
    requires some { 0 < most }
    requires room { most ≤ length kept.old }
    requires fast { IsFast bus_rules processor.old }
    ensures run { HasPassed (W.passes watch.now) result.steps result.cycles processor.old processor.new
        (take result.steps kept.new) }
    ensures room { length kept.new ≡ length kept.old }
    ensures some { 0 < result.steps }
    ensures most { result.steps ≤ most }
    ensures few { result.cycles ≤ 6 * result.steps }
{
    let most = most as usize;
    let mut made = 0;
    let mut cycles = 0;
    loop {
        let went = run_watching_here(processor, kept, made, most, watch);
        made = went.made;
        cycles += went.cycles;
        if !went.is_fast || made >= most || watch.may_end(processor) {
            return Passed {
                steps: made as u32,
                cycles,
            };
        }
    }
}

/// Goes on with such steps, of which some were made, while PC stays in the lower half of ROM, in the
/// upper half, or above ROM.
#[inline(always)]
fn run_watching_here<W: Watch>(
    processor: &mut Processor<Bus>,
    kept: &mut [Executed],
    made: usize,
    most: usize,
    watch: &W,
) -> Went
    requires due { made < most }
    requires most { most < 2 ^ 32 }
    requires room { most ≤ length kept.old }
    requires fast { IsFast bus_rules processor.old }
    ensures run { (begun : Processor BusState) → (before : ℕ)
        → IsPassing (W.passes watch.now) made before begun processor.old kept.old
        → HasPassed (W.passes watch.now) result.made (before + result.cycles) begun processor.new
        (take result.made kept.new) }
    ensures room { length kept.new ≡ length kept.old }
    ensures more { made < result.made }
    ensures most { result.made ≤ most }
    ensures few { result.cycles + 6 * made ≤ 6 * result.made }
    ensures fast { result.is_fast ≡ true → IsFast bus_rules processor.new }
{
    if is_there::<IN_LOWER_ROM>(processor.registers.pc) {
        run_watching_by::<W, IN_LOWER_ROM>(processor, kept, made, most, watch)
    } else if is_there::<IN_UPPER_ROM>(processor.registers.pc) {
        run_watching_by::<W, IN_UPPER_ROM>(processor, kept, made, most, watch)
    } else {
        run_watching_by::<W, ABOVE_ROM>(processor, kept, made, most, watch)
    }
}

/// Goes on with such steps while PC is where this loop runs, and with one step if it is elsewhere.
#[inline(never)]
fn run_watching_by<W: Watch, const LOOP: u8>(
    processor: &mut Processor<Bus>,
    kept: &mut [Executed],
    made: usize,
    most: usize,
    watch: &W,
) -> Went
    requires due { made < most }
    requires most { most < 2 ^ 32 }
    requires room { most ≤ length kept.old }
    requires fast { IsFast bus_rules processor.old }
    ensures run { (begun : Processor BusState) → (before : ℕ)
        → IsPassing (W.passes watch.now) made before begun processor.old kept.old
        → HasPassed (W.passes watch.now) result.made (before + result.cycles) begun processor.new
        (take result.made kept.new) }
    ensures room { length kept.new ≡ length kept.old }
    ensures more { made < result.made }
    ensures most { result.made ≤ most }
    ensures few { result.cycles + 6 * made ≤ 6 * result.made }
    ensures fast { result.is_fast ≡ true → IsFast bus_rules processor.new }
{
    if !is_there::<LOOP>(processor.registers.pc) {
        let stepped = processor.step();
        if let StepKind::Ran(seen) = stepped.kind {
            kept[made] = seen;
        }
        return Went {
            made: made + 1,
            cycles: u64::from(stepped.cycles),
            is_fast: false,
        };
    }
    let mut made = made;
    let mut cycles = 0;
    loop {
        let went = run_calm_watching::<W, LOOP>(processor, kept, made, most, watch);
        made = went.made;
        cycles += went.cycles;
        if !went.is_fast {
            return Went {
                made,
                cycles,
                is_fast: false,
            };
        }
        if made >= most {
            return Went {
                made,
                cycles,
                is_fast: true,
            };
        }
        if !is_there::<LOOP>(processor.registers.pc) {
            return Went {
                made,
                cycles,
                is_fast: true,
            };
        }
        if watch.may_end(processor) {
            return Went {
                made,
                cycles,
                is_fast: true,
            };
        }
    }
}

/// Goes on with such steps up to and including the first that is not known to be calm, or after which
/// PC is elsewhere or the watch may end them. Since a step takes an M-cycle at least, no more steps are made than
/// M-cycles are calm: the M-cycles alone are compared, and the steps only counted.
#[inline(always)]
fn run_calm_watching<W: Watch, const LOOP: u8>(
    processor: &mut Processor<Bus>,
    kept: &mut [Executed],
    made: usize,
    most: usize,
    watch: &W,
) -> Went
    requires due { made < most }
    requires most { most < 2 ^ 32 }
    requires room { most ≤ length kept.old }
    requires fast { IsFast bus_rules processor.old }
    ensures run { (begun : Processor BusState) → (before : ℕ)
        → IsPassing (W.passes watch.now) made before begun processor.old kept.old
        → HasPassed (W.passes watch.now) result.made (before + result.cycles) begun processor.new
        (take result.made kept.new) }
    ensures room { length kept.new ≡ length kept.old }
    ensures more { made < result.made }
    ensures most { result.made ≤ most }
    ensures few { result.cycles + 6 * made ≤ 6 * result.made }
    ensures fast { result.is_fast ≡ true → IsFast bus_rules processor.new }
{
    let end = calm_within(&processor.memory, most - made);
    let mut left = end;
    let mut made = made;
    loop {
        let opcode = report(processor, &mut kept[made]);
        let AfterStep {
            now,
            left: fewer,
            is_fast,
            is_calm,
        } = run_fast_step::<W, LOOP>(processor, opcode, false, left, end);
        made += 1;
        if !is_calm {
            return Went {
                made,
                cycles: u64::from(now),
                is_fast,
            };
        }
        left = fewer;
        if !is_there::<LOOP>(processor.registers.pc) {
            return Went {
                made,
                cycles: u64::from(end - left),
                is_fast: true,
            };
        }
        let may_end = watch.may_end(processor);
        if may_end {
            return Went {
                made,
                cycles: u64::from(end - left),
                is_fast: true,
            };
        }
    }
}

/// Puts the instruction of the next step, which is fast, into `ran` before it runs. Returns its opcode.
#[inline(always)]
fn report(processor: &Processor<Bus>, ran: &mut Executed) -> u8
    requires { IsFast bus_rules processor.now }
    ensures kind { (step_of bus_rules processor.now).stepped.kind ≡ StepKind.Ran ran.new }
    ensures here { result ≡ read_at processor.now.memory processor.now.registers.pc }
{
    let pc = processor.registers.pc;
    ran.pc = pc;
    processor.memory.read_three(pc, &mut ran.bytes);
    let opcode = ran.bytes[0];
    ran.length = length_of_opcode(opcode);
    opcode
}
