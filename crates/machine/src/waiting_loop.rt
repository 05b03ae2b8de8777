//! Loops that wait: laps in which nothing changes are passed at once.

ghost use Rattle.std.specs.Prelude.{◌≡◌, ◌<◌, ◌≤◌, ◌%◌, true};
ghost use Rattle.machine.specs.Machine.{cycles_per_frame, frame_of};
ghost use Rattle.machine.specs.WaitingLoop.{IsStill};
ghost use Rattle.memory_map.specs.BusRules.{bus_rules};
ghost use Rattle.memory_map.specs.Lasting.{IsLasting};
ghost use Rattle.sm83_processor.specs.RegisterOperations.{next_address};

use crate::frame::FRAME;
use memory_map::Bus;
use sm83_alu::Registers;
use sm83_processor::{Processor, ProcessorState};

/// How many M-cycles a lap may take, up to its last step.
const LONGEST_LAP: u32 = 40;

/// How many M-cycles have to be calm for laps to be worth the search.
const FEWEST_CALM: u32 = 64;

/// How far apart two places of a loop may be.
const LONGEST_LOOP: u16 = 24;

/// Whether two places of a loop that waits may have these registers: most such loops change A and the
/// flags alone.
#[inline(always)]
pub(crate) fn may_wait(before: &Registers, now: &Registers) -> bool {
    now.pc.wrapping_sub(before.pc).wrapping_add(LONGEST_LOOP) <= 2 * LONGEST_LOOP
        && now.h == before.h
        && now.l == before.l
        && now.d == before.d
        && now.e == before.e
        && now.b == before.b
        && now.c == before.c
        && now.sp == before.sp
}

/// In a frame of which `passed` M-cycles have passed, makes still steps until the registers are as they
/// were, and then passes all laps of the same steps that come while it stays calm. Returns how many
/// M-cycles have passed after that. Ends before a step that is not still, and if a lap is too long.
#[inline(never)]
pub(crate) fn pass_laps(processor: &mut Processor<Bus>, passed: u32) -> u32
    requires { passed < cycles_per_frame }
    ensures run { frame_of bus_rules result processor.new ≡ frame_of bus_rules passed processor.old }
    ensures start { passed ≤ result }
    ensures below { result < cycles_per_frame }
{
    let calm = u32::from(processor.memory.calm()).min(FRAME - passed);
    if calm < FEWEST_CALM {
        return passed;
    }
    let registers = processor.registers;
    let state = processor.state;
    let mut took = 0;
    while took < LONGEST_LAP {
        if !is_still(processor) {
            return passed + took;
        }
        took += u32::from(processor.step().cycles);
        if is_back(processor, &registers, &state) {
            let laps = whole_laps(took, calm - 1 - took);
            Bus::pass(&mut processor.memory, laps);
            return passed + took + laps;
        }
    }
    passed + took
}

/// Whether all registers and modes are what they were.
#[inline(always)]
fn is_back(processor: &Processor<Bus>, registers: &Registers, state: &ProcessorState) -> bool
    ensures registers { result ≡ true → processor.now.registers ≡ registers.now }
    ensures state { result ≡ true → processor.now.state ≡ state.now }
{
    processor.registers == *registers && processor.state == *state
}

/// The M-cycles of as many laps as fit into those that are left.
pub(crate) fn whole_laps(lap: u32, left: u32) -> u32
    requires { 0 < lap }
    ensures few { result ≤ left }
    ensures whole { result % lap ≡ 0 }
{
    left - left % lap
}

/// Whether the next step is still: a fast one that is the same after quiet M-cycles, and changes
/// registers alone.
#[inline(always)]
fn is_still(processor: &Processor<Bus>) -> bool
    ensures { result ≡ true → IsStill processor.now }
{
    if !processor.is_fast() || !has_lasting_bytes(processor.registers.pc) {
        return false;
    }
    match processor.still_by() {
        None => false,
        Some(address) => Bus::lasts(address),
    }
}

/// Whether quiet M-cycles leave the three bytes from PC on.
pub(crate) fn has_lasting_bytes(pc: u16) -> bool
    ensures first { result ≡ true → IsLasting pc }
    ensures second { result ≡ true → IsLasting (next_address pc) }
    ensures third { result ≡ true → IsLasting (next_address (next_address pc)) }
{
    let second = pc.wrapping_add(1);
    Bus::lasts(pc) && Bus::lasts(second) && Bus::lasts(second.wrapping_add(1))
}
