//! Steps of the processor over the bus, counted one by one.

ghost use Rattle.std.specs.Prelude.{◌≡◌, ◌<◌, ◌≤◌, true};
ghost use Rattle.machine.specs.Machine.{cycles_per_frame};
ghost use Rattle.memory_map.specs.Quiet.{IsCalm};
ghost use Rattle.memory_map.specs.BusRules.{bus_rules};
ghost use Rattle.sm83_processor.specs.FastStep.{IsFast};
ghost use Rattle.sm83_processor.specs.Steps.{after_steps};

use crate::frame::{AfterStep, FRAME, run_fast_step};
use crate::loops::{ABOVE_ROM, CountedLoops, IN_LOWER_ROM, IN_UPPER_ROM, is_there};
use memory_map::Bus;
use sm83_processor::Processor;

/// Makes `count` steps.
pub(crate) fn run_steps(processor: &mut Processor<Bus>, count: u32)
    ensures { processor.new ≡ after_steps bus_rules count processor.old }
{
    let mut left = count;
    while left > 0 {
        left = run_some_counted(processor, left);
    }
}

/// Makes some of the steps that are left, one at least. Returns how many are left after them.
#[inline(always)]
fn run_some_counted(processor: &mut Processor<Bus>, left: u32) -> u32
    requires { 0 < left }
    ensures run { after_steps bus_rules result processor.new ≡ after_steps bus_rules left processor.old }
    ensures fewer { result < left }
{
    if processor.is_fast() {
        return run_fast_counted(processor, left);
    }
    let _ = processor.step();
    left - 1
}

/// Makes steps as `run_some_counted` does, as long as the next one is fast.
#[inline(always)]
fn run_fast_counted(processor: &mut Processor<Bus>, left: u32) -> u32
    requires some { 0 < left }
    requires fast { IsFast bus_rules processor.old }
    ensures run { after_steps bus_rules result processor.new ≡ after_steps bus_rules left processor.old }
    ensures fewer { result < left }
{
    let mut left = left;
    while left > 0 {
        let (now, is_fast) = run_fast_counted_here(processor, left);
        left = now;
        if !is_fast {
            return left;
        }
    }
    left
}

/// Makes such steps while PC stays in the lower half of ROM, in the upper half, or above ROM. Returns
/// how many are left after them, and whether the next step is known to be fast.
#[inline(always)]
fn run_fast_counted_here(processor: &mut Processor<Bus>, left: u32) -> (u32, bool)
    requires some { 0 < left }
    requires fast { IsFast bus_rules processor.old }
    ensures run { after_steps bus_rules result.0 processor.new ≡ after_steps bus_rules left processor.old }
    ensures fewer { result.0 < left }
    ensures fast { result.1 ≡ true → IsFast bus_rules processor.new }
{
    if is_there::<IN_LOWER_ROM>(processor.registers.pc) {
        run_fast_counted_by::<IN_LOWER_ROM>(processor, left)
    } else if is_there::<IN_UPPER_ROM>(processor.registers.pc) {
        run_fast_counted_by::<IN_UPPER_ROM>(processor, left)
    } else {
        run_fast_counted_by::<ABOVE_ROM>(processor, left)
    }
}

/// Makes such steps while PC is where this loop runs, and one step if it is elsewhere.
#[inline(never)]
fn run_fast_counted_by<const LOOP: u8>(processor: &mut Processor<Bus>, left: u32) -> (u32, bool)
    requires some { 0 < left }
    requires fast { IsFast bus_rules processor.old }
    ensures run { after_steps bus_rules result.0 processor.new ≡ after_steps bus_rules left processor.old }
    ensures fewer { result.0 < left }
    ensures fast { result.1 ≡ true → IsFast bus_rules processor.new }
{
    if !is_there::<LOOP>(processor.registers.pc) {
        let _ = processor.step();
        return (left - 1, false);
    }
    let mut left = left;
    loop {
        let (now, is_fast) = run_calm_counted::<LOOP>(processor, left);
        if !is_fast {
            return (now, false);
        }
        if now == 0 || !is_there::<LOOP>(processor.registers.pc) {
            return (now, true);
        }
        left = now;
    }
}

/// Makes such steps up to and including the first that is not known to be calm, or after which PC is
/// elsewhere. Since a step takes an M-cycle at least, no more steps are made than M-cycles are calm:
/// the M-cycles alone are compared, and the steps only counted.
#[inline(always)]
fn run_calm_counted<const LOOP: u8>(processor: &mut Processor<Bus>, left: u32) -> (u32, bool)
    requires some { 0 < left }
    requires fast { IsFast bus_rules processor.old }
    ensures run { after_steps bus_rules result.0 processor.new ≡ after_steps bus_rules left processor.old }
    ensures fewer { result.0 < left }
    ensures fast { result.1 ≡ true → IsFast bus_rules processor.new }
{
    let end = calm_within(&processor.memory, left as usize);
    let mut calm = end;
    let mut left = left;
    loop {
        let opcode = Bus::read(&processor.memory, processor.registers.pc);
        let AfterStep {
            now: _,
            left: fewer,
            is_fast,
            is_calm,
        } = run_fast_step::<CountedLoops, LOOP>(processor, opcode, false, calm, end);
        left -= 1;
        if !is_calm {
            return (left, is_fast);
        }
        calm = fewer;
        if !is_there::<LOOP>(processor.registers.pc) {
            return (left, true);
        }
    }
}

/// How many M-cycles are known to be calm, but not more than so many, nor than a frame has.
#[inline(always)]
pub(crate) fn calm_within(memory: &Bus, most: usize) -> u32
    ensures few { result ≤ most }
    ensures frame { result ≤ cycles_per_frame }
    ensures calm { IsCalm result memory.now }
{
    usize::from(memory.calm()).min(FRAME as usize).min(most) as u32
}
