//! Frames of the processor over the bus.

ghost use Rattle.std.specs.Prelude.{◌≡◌, ◌<◌, ◌≤◌, ◌+◌, ◌-◌, ◌%◌, true, false};
ghost use Rattle.picture_unit.specs.PictureJump.{IsSteady};
ghost use Rattle.memory_map.specs.Bus.{read_at};
ghost use Rattle.memory_map.specs.BusRules.{bus_rules};
ghost use Rattle.machine.specs.Waiting.{Waits, within};
ghost use Rattle.machine.specs.Watching.{IsSilent};
ghost use Rattle.machine.specs.Machine.{cycles_per_frame, frame_of};
ghost use Rattle.memory_map.specs.Quiet.{IsCalm};
ghost use Rattle.sm83_processor.specs.FastStep.{IsFast, IsUsual};
ghost use Rattle.sm83_processor.specs.Steps.{passing, step_of};

use crate::counting_loop::pass_count;
use crate::loops::{ABOVE_ROM, FrameLoops, IN_HRAM, IN_LOWER_ROM, IN_UPPER_ROM, IN_WRAM, is_there};
use crate::polling_loop::pass_poll;
use crate::waiting_loop::{may_wait, pass_laps};
use memory_map::Bus;
use sm83_processor::{Processor, StepKind};

/// The M-cycles of a frame.
pub(crate) const FRAME: u32 = 17_556;

/// The M-cycles of the first two pieces of a run of fast steps.
const FIRST_PIECE: u32 = 128;

/// The M-cycles of a piece.
const PIECE: u32 = 1_024;

/// The M-cycles of the piece after a loop that asks a byte or counts.
const SHORT_PIECE: u32 = 16;

/// How many times as long the next piece is if it was searched for laps, and none were found.
const LONGER: u32 = 16;

/// The address of the joypad's register P1.
const JOYPAD: u16 = 0xff00;

/// Makes steps until a frame's M-cycles have passed, `overrun` of which passed before. Returns how many
/// more passed.
pub(crate) fn run_frame(processor: &mut Processor<Bus>, overrun: u8) -> u8
    requires { overrun < 6 }
    ensures after { processor.new ≡ (frame_of bus_rules overrun processor.old).after }
    ensures overrun { result ≡ (frame_of bus_rules overrun processor.old).overrun }
    ensures few { result < 6 }
{
    let mut passed = u32::from(overrun);
    while passed < FRAME {
        passed = run_some_steps(processor, passed);
    }
    (passed - FRAME) as u8
}

/// Makes steps in a frame of which `passed` M-cycles have passed, one at least. Returns how many have
/// passed after them.
#[inline(always)]
fn run_some_steps(processor: &mut Processor<Bus>, passed: u32) -> u32
    requires { passed < cycles_per_frame }
    ensures run { frame_of bus_rules result processor.new ≡ frame_of bus_rules passed processor.old }
    ensures more { passed < result }
    ensures few { result < cycles_per_frame + 6 }
{
    if processor.is_fast() {
        return run_fast_steps(processor, passed);
    }
    step_and_wait(processor, passed)
}

/// Makes steps as `run_some_steps` does, as long as the next one is fast. Most such runs are short, and
/// not searched for loops that wait.
#[inline(always)]
fn run_fast_steps(processor: &mut Processor<Bus>, passed: u32) -> u32
    requires below { passed < cycles_per_frame }
    requires fast { IsFast bus_rules processor.old }
    ensures run { frame_of bus_rules result processor.new ≡ frame_of bus_rules passed processor.old }
    ensures more { passed < result }
    ensures few { result < cycles_per_frame + 6 }
{
    let until = (passed + FIRST_PIECE).min(FRAME);
    let (now, is_fast) = run_piece(processor, passed, until);
    if !is_fast || now >= FRAME {
        return now;
    }
    run_pieces(processor, now)
}

/// Makes steps as `run_fast_steps` does, in pieces. Passes the laps of a loop that waits, if the
/// registers before and after a piece may be of one.
#[inline(never)]
fn run_pieces(processor: &mut Processor<Bus>, passed: u32) -> u32
    requires below { passed < cycles_per_frame }
    requires fast { IsFast bus_rules processor.old }
    ensures run { frame_of bus_rules result processor.new ≡ frame_of bus_rules passed processor.old }
    ensures more { passed < result }
    ensures few { result < cycles_per_frame + 6 }
{
    let mut passed = passed;
    let mut most = FIRST_PIECE;
    loop {
        let before = processor.registers;
        let until = passed.saturating_add(most).min(FRAME);
        let (now, is_fast) = run_piece(processor, passed, until);
        if !is_fast || now >= FRAME {
            return now;
        }
        if !may_wait(&before, &processor.registers) {
            passed = pass_count(processor, now);
            most = after_count(passed - now, most);
        } else {
            let searched = pass_laps(processor, now);
            if !processor.is_fast() {
                return searched;
            }
            if searched - now >= FIRST_PIECE {
                passed = searched;
                most = FIRST_PIECE;
            } else {
                passed = pass_poll(processor, searched);
                most = after_search(passed - searched, most);
            }
        }
    }
}

/// The M-cycles of the piece that comes after one of which the registers are not of a loop that waits, by
/// those of a loop that counts: longer ones if there was none.
fn after_count(found: u32, most: u32) -> u32
    requires { 0 < most }
    ensures { 0 < result }
{
    if found > 0 {
        SHORT_PIECE
    } else {
        most.saturating_mul(2).min(PIECE)
    }
}

/// The M-cycles of the piece that comes after a search which found no laps, by those that were passed of a
/// loop that asks a byte and those of the piece before it: many if there was none.
fn after_search(asked: u32, most: u32) -> u32
    requires { 0 < most }
    ensures { 0 < result }
{
    if asked > 0 {
        SHORT_PIECE
    } else {
        most.saturating_mul(LONGER)
    }
}

/// Makes fast steps until M-cycle `until` of the frame, or as long as the next one is fast. Returns how
/// many M-cycles have passed after them, and whether the next step is known to be fast.
#[inline(always)]
fn run_piece(processor: &mut Processor<Bus>, passed: u32, until: u32) -> (u32, bool)
    requires below { passed < until }
    requires until { until ≤ cycles_per_frame }
    requires fast { IsFast bus_rules processor.old }
    ensures run { frame_of bus_rules result.0 processor.new ≡ frame_of bus_rules passed processor.old }
    ensures more { passed < result.0 }
    ensures few { result.0 < cycles_per_frame + 6 }
    ensures fast { result.1 ≡ true → IsFast bus_rules processor.new }
{
    let mut passed = passed;
    while passed < until {
        let (now, is_fast) = run_fast_steps_here(processor, passed, until);
        passed = now;
        if !is_fast {
            return (passed, false);
        }
    }
    (passed, true)
}

/// Makes fast steps until M-cycle `until` of the frame, while PC stays in the lower half of ROM, in the
/// upper half, in WRAM or in HRAM, or above ROM if it begins in none of them. Returns how many M-cycles
/// of the frame have passed after them, and whether the next step is known to be fast.
#[inline(always)]
fn run_fast_steps_here(processor: &mut Processor<Bus>, passed: u32, until: u32) -> (u32, bool)
    requires below { passed < until }
    requires until { until ≤ cycles_per_frame }
    requires fast { IsFast bus_rules processor.old }
    ensures run { frame_of bus_rules result.0 processor.new ≡ frame_of bus_rules passed processor.old }
    ensures more { passed < result.0 }
    ensures few { result.0 < cycles_per_frame + 6 }
    ensures fast { result.1 ≡ true → IsFast bus_rules processor.new }
{
    if is_there::<IN_LOWER_ROM>(processor.registers.pc) {
        run_fast_steps_by::<IN_LOWER_ROM>(processor, passed, until)
    } else if is_there::<IN_UPPER_ROM>(processor.registers.pc) {
        run_fast_steps_by::<IN_UPPER_ROM>(processor, passed, until)
    } else if is_there::<IN_WRAM>(processor.registers.pc) {
        run_fast_steps_by::<IN_WRAM>(processor, passed, until)
    } else if is_there::<IN_HRAM>(processor.registers.pc) {
        run_fast_steps_by::<IN_HRAM>(processor, passed, until)
    } else {
        run_fast_steps_by::<ABOVE_ROM>(processor, passed, until)
    }
}

/// Makes fast steps until M-cycle `until` of the frame, while PC is where this loop runs, and one step if
/// it is elsewhere. Each loop has a function of its own: in one with all loops the compiler would keep
/// addresses in registers that each loop needs.
#[inline(never)]
fn run_fast_steps_by<const LOOP: u8>(
    processor: &mut Processor<Bus>,
    passed: u32,
    until: u32,
) -> (u32, bool)
    requires below { passed < until }
    requires until { until ≤ cycles_per_frame }
    requires fast { IsFast bus_rules processor.old }
    ensures run { frame_of bus_rules result.0 processor.new ≡ frame_of bus_rules passed processor.old }
    ensures more { passed < result.0 }
    ensures few { result.0 < cycles_per_frame + 6 }
    ensures fast { result.1 ≡ true → IsFast bus_rules processor.new }
{
    if !is_there::<LOOP>(processor.registers.pc) {
        return (step_and_wait(processor, passed), false);
    }
    let mut passed = passed;
    loop {
        let (now, is_fast) = run_calm_steps::<LOOP>(processor, passed, until);
        if !is_fast {
            return (now, false);
        }
        if now >= until || !is_there::<LOOP>(processor.registers.pc) {
            return (now, true);
        }
        passed = now;
    }
}

/// Makes fast steps up to and including the first that is not known to be calm, or after which PC is
/// elsewhere, or which reaches M-cycle `until` of the frame. Returns how many M-cycles of the frame have
/// passed after it, and whether the next step is fast.
#[inline(always)]
fn run_calm_steps<const LOOP: u8>(
    processor: &mut Processor<Bus>,
    passed: u32,
    until: u32,
) -> (u32, bool)
    requires below { passed < until }
    requires until { until ≤ cycles_per_frame }
    requires fast { IsFast bus_rules processor.old }
    ensures run { frame_of bus_rules result.0 processor.new ≡ frame_of bus_rules passed processor.old }
    ensures more { passed < result.0 }
    ensures few { result.0 < cycles_per_frame + 6 }
    ensures fast { result.1 ≡ true → IsFast bus_rules processor.new }
{
    let calm = u32::from(processor.memory.calm()).min(until - passed);
    let end = passed + calm;
    let mut left = calm;
    loop {
        let opcode = Bus::read(&processor.memory, processor.registers.pc);
        let AfterStep {
            now,
            left: fewer,
            is_fast,
            is_calm,
        } = run_fast_step::<FrameLoops, LOOP>(processor, opcode, false, left, end);
        if !is_calm {
            return (now, is_fast);
        }
        left = fewer;
        if !is_there::<LOOP>(processor.registers.pc) {
            return (end - left, true);
        }
    }
}

/// Where a frame is after a fast step.
#[derive(Clone, Copy)]
pub(crate) struct AfterStep {
    /// How many M-cycles of the frame have passed, if not all of them were calm.
    pub(crate) now: u32,
    /// How many of the calm M-cycles are left, if all that passed were calm.
    pub(crate) left: u32,
    /// Whether the next step is known to be fast.
    pub(crate) is_fast: bool,
    /// Whether all M-cycles that passed were calm, and more are left.
    pub(crate) is_calm: bool,
}

/// Makes a fast step, the opcode of which the caller has read, where `left` M-cycles are known to be
/// calm, which end with M-cycle `end` of the frame. After it the caller's loop ends if it is the last.
#[inline(always)]
pub(crate) fn run_fast_step<C, const LOOP: u8>(
    processor: &mut Processor<Bus>,
    opcode: u8,
    is_last: bool,
    left: u32,
    end: u32,
) -> AfterStep
    requires fast { IsFast bus_rules processor.old }
    requires here { opcode ≡ read_at processor.old.memory processor.old.registers.pc }
    requires calm { IsCalm left processor.old.memory }
    requires within { left ≤ end }
    requires end { end ≤ cycles_per_frame }
    ensures after { processor.new ≡ (step_of bus_rules processor.old).after }
    ensures now { result.is_calm ≡ false → result.now ≡ end - left + (step_of bus_rules processor.old).stepped.cycles }
    ensures fast { result.is_fast ≡ true → IsFast bus_rules processor.new }
    ensures fewer { result.is_calm ≡ true → (step_of bus_rules processor.old).stepped.cycles < left }
    ensures left { result.is_calm ≡ true → result.left ≡ left - (step_of bus_rules processor.old).stepped.cycles }
    ensures still_fast { result.is_calm ≡ true → IsFast bus_rules processor.new }
    ensures calm { result.is_calm ≡ true → IsCalm result.left processor.new.memory }
    ensures silent { result.is_calm ≡ true → IsSilent processor.new.memory }
    ensures calm_more { result.is_calm ≡ true → is_last ≡ false }
    ensures fast_more { result.is_fast ≡ true → is_last ≡ false }
{
    let (cycles, usual, is_memory_kept) = processor.run_opcode::<C, LOOP>(opcode);
    if !usual {
        pass_out_of_line(processor, cycles as u8);
        return AfterStep {
            now: passed_after(end, left, cycles),
            left: 0,
            is_fast: false,
            is_calm: false,
        };
    }
    if is_last {
        pass_out_of_line(processor, cycles as u8);
        return AfterStep {
            now: passed_after(end, left, cycles),
            left: 0,
            is_fast: false,
            is_calm: false,
        };
    }
    let is_calm = stays_calm(&processor.memory, is_memory_kept, left);
    if !is_calm {
        let is_fast = pass_usual(processor, cycles as u8);
        return AfterStep {
            now: passed_after(end, left, cycles),
            left: 0,
            is_fast,
            is_calm: false,
        };
    }
    // The subtraction comes before the comparison, so that the host makes both at once. It wraps if `cycles` is the greater.
    let fewer = left.wrapping_sub(cycles);
    if cycles >= left {
        let is_fast = pass_usual(processor, cycles as u8);
        return AfterStep {
            now: passed_beyond(end, fewer),
            left: 0,
            is_fast,
            is_calm: false,
        };
    }
    Bus::move_on(&mut processor.memory, cycles as u8);
    AfterStep {
        now: 0,
        left: fewer,
        is_fast: true,
        is_calm: true,
    }
}

/// Whether the `left` M-cycles that were calm before an instruction are known to be calm after it: they
/// are if it kept the memory, or if the bus says so.
#[inline(always)]
fn stays_calm(memory: &Bus, is_kept: bool, left: u32) -> bool
    requires kept { is_kept ≡ true → IsCalm left memory.now }
    ensures { result ≡ true → IsCalm left memory.now }
{
    if is_kept {
        return true;
    }
    left <= u32::from(memory.calm())
}

/// The M-cycles of the frame that have passed after an instruction, if `left` were left up to M-cycle
/// `end` before it.
#[inline(always)]
fn passed_after(end: u32, left: u32, cycles: u32) -> u32
    requires within { left ≤ end }
    requires end { end ≤ cycles_per_frame }
    requires few { cycles ≤ 6 }
    ensures { result ≡ end - left + cycles }
{
    end - left + cycles
}

/// The M-cycles of the frame that have passed after an instruction that went beyond M-cycle `end`:
/// `fewer` is what was left then, a number below 0 that wrapped.
#[inline(always)]
fn passed_beyond(end: u32, fewer: u32) -> u32
    ensures { result ≡ (end + (4294967296 - fewer)) % 4294967296 }
{
    end.wrapping_sub(fewer)
}

/// Lets M-cycles pass after an instruction that left the processor's usual state.
#[inline(never)]
fn pass_out_of_line(processor: &mut Processor<Bus>, cycles: u8)
    ensures { processor.new ≡ passing bus_rules cycles processor.old }
{
    let _ = Bus::pass_few(&mut processor.memory, cycles);
}

/// Lets M-cycles pass after an instruction that kept the processor in its usual state. Returns whether
/// the next step is fast.
#[inline(never)]
fn pass_usual(processor: &mut Processor<Bus>, cycles: u8) -> bool
    requires { IsUsual processor.old.state }
    ensures after { processor.new ≡ passing bus_rules cycles processor.old }
    ensures fast { result ≡ true → IsFast bus_rules processor.new }
{
    if Bus::pass_few(&mut processor.memory, cycles) {
        return true;
    }
    !processor.is_interrupted()
}

/// Passes the waits that are sure to come in a frame of which `passed` M-cycles have passed; if
/// there are none, makes a step and, after a wait, passes those that are sure to follow it.
/// Returns how many M-cycles have passed after that.
#[inline(never)]
fn step_and_wait(processor: &mut Processor<Bus>, passed: u32) -> u32
    requires { passed < cycles_per_frame }
    ensures run { frame_of bus_rules result processor.new ≡ frame_of bus_rules passed processor.old }
    ensures more { passed < result }
    ensures few { result < cycles_per_frame + 6 }
{
    let sure = sure_waits(processor, FRAME - passed);
    if sure > 1 {
        Bus::pass(&mut processor.memory, sure);
        return passed + sure;
    }
    let stepped = processor.step();
    let now = passed + u32::from(stepped.cycles);
    match stepped.kind {
        StepKind::Wait => {}
        _ => return now,
    }
    if now >= FRAME {
        return now;
    }
    let waits = waits(processor, FRAME - now);
    Bus::pass(&mut processor.memory, waits);
    now + waits
}

/// For how many of the M-cycles that are left a halted processor is sure to wait, by what the
/// bus knows.
#[inline(always)]
pub(crate) fn sure_waits(processor: &Processor<Bus>, left: u32) -> u32
    ensures few { result ≤ left }
    ensures waits { Waits result processor.now }
{
    if processor.state.locked || processor.state.stopped || !processor.state.halted {
        return 0;
    }
    u32::from(processor.memory.none_pending_for()).min(left)
}

/// For how many of the M-cycles that are left the processor is sure to wait, if the STAT signal is
/// steady.
pub(crate) fn waits(processor: &Processor<Bus>, left: u32) -> u32
    ensures few { result ≤ left }
    ensures waits { IsSteady processor.now.memory.picture → Waits result processor.now }
{
    if processor.state.locked {
        return left;
    }
    if processor.state.stopped {
        if Bus::read(&processor.memory, JOYPAD) % 16 == 15 {
            return left;
        }
        return 0;
    }
    if !processor.state.halted {
        return 0;
    }
    if Bus::pending_interrupts(&processor.memory) != 0 {
        return 0;
    }
    soonest(processor.memory.due(), left)
}

fn soonest(due: Option<u32>, left: u32) -> u32
    ensures { result ≡ within due left }
{
    match due {
        None => left,
        Some(due) => due.min(left),
    }
}
