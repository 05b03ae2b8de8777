//! Why a test ended.

ghost use Rattle.std.specs.Prelude.{◌≡◌, ◌≤◌};
ghost use Rattle.test_run.specs.Ends.{end_of, end_without_result, result_of, has_signature, is_idle, is_still, is_in_place, jumps_to_itself, jumps_by, jumps_at};

use machine::{Machine, Memory, Processor, ProcessorState};
use memory_map::Bus;

/// Why a test ended.
#[derive(Clone, Copy, Debug)]
pub enum End {
    /// All frames were played.
    Frames,
    /// After a frame the processor was locked by an undefined opcode, and no byte was being sent.
    Locked,
    /// `LD B,B` was run.
    Breakpoint,
    /// After a frame the processor was at a jump to itself that no interrupt can end, and no byte was being sent.
    Loop,
    /// After a frame this result stood in the memory, and no byte was being sent.
    Memory(u8),
}

/// The opcode of `JR` with an offset.
const JUMP_BY: u8 = 0x18;

/// The offset of a `JR` to itself: minus two.
const BACK: u8 = 0xfe;

/// The opcode of `JP` to an address.
const JUMP_TO: u8 = 0xc3;

/// Where a test keeps its status.
const STATUS: u16 = 0xa000;

/// The status of a test that is running. What is below it is a result.
const RUNNING: u8 = 0x80;

/// Why a test ends after a frame, if it does: a result stands in the memory, or nothing can happen any more.
pub(crate) fn end_of(processor: &Processor<Bus>) -> Option<End>
    ensures { result ≡ end_of processor.now }
{
    if processor.memory.serial().cycles_left != 0 {
        return None;
    }
    match result_of(&processor.memory) {
        Some(status) => Some(End::Memory(status)),
        None => end_without_result(processor),
    }
}

/// Whether the signature stands behind the status of a test.
fn has_signature(memory: &Bus) -> bool
    ensures { result ≡ has_signature memory.now }
{
    memory.peek(0xa001) == 0xde && memory.peek(0xa002) == 0xb0 && memory.peek(0xa003) == 0x61
}

/// The result of a test that stands in the memory, if one does.
fn result_of(memory: &Bus) -> Option<u8>
    ensures { result ≡ result_of memory.now }
{
    let status = memory.peek(STATUS);
    if has_signature(memory) && status < RUNNING {
        return Some(status);
    }
    None
}

/// Why a test without a result ends after a frame, if it does: nothing can happen any more.
fn end_without_result(processor: &Processor<Bus>) -> Option<End>
    ensures { result ≡ end_without_result processor.now }
{
    if processor.state.locked {
        return Some(End::Locked);
    }
    if jumps_to_itself(processor) {
        return Some(End::Loop);
    }
    None
}

/// Whether the processor is at a jump to itself that no interrupt can end.
fn jumps_to_itself(processor: &Processor<Bus>) -> bool
    ensures { result ≡ jumps_to_itself processor.now }
{
    let pc = processor.registers.pc;
    if !is_still(&processor.state) {
        return false;
    }
    jumps_by(&processor.memory, pc) || jumps_at(&processor.memory, pc)
}

/// Whether the next step is an instruction, and no interrupt can come.
fn is_still(state: &ProcessorState) -> bool
    ensures { result ≡ is_still state.now }
{
    !(state.ime
        || state.ime_pending
        || state.halted
        || state.stopped
        || state.locked
        || state.halt_bug)
}

/// Whether so many bytes from there lie in ROM, in WRAM or in HRAM.
fn is_in_place(pc: u16, bytes: u16) -> bool
    requires { bytes ≤ 3 }
    ensures { result ≡ is_in_place pc bytes }
{
    let (first, end) = (u32::from(pc), u32::from(pc) + u32::from(bytes));
    end <= 0x8000 || (first >= 0xc000 && end <= 0xe000) || (first >= 0xff80 && end <= 0xffff)
}

/// Whether there is a `JR` to itself, both bytes of it in place.
fn jumps_by(memory: &Bus, pc: u16) -> bool
    ensures { result ≡ jumps_by memory.now pc }
{
    is_in_place(pc, 2) && memory.peek(pc) == JUMP_BY && memory.peek(pc.wrapping_add(1)) == BACK
}

/// Whether there is a `JP` to itself, all three bytes of it in place.
fn jumps_at(memory: &Bus, pc: u16) -> bool
    ensures { result ≡ jumps_at memory.now pc }
{
    is_in_place(pc, 3)
        && memory.peek(pc) == JUMP_TO
        && memory.peek(pc.wrapping_add(1)) == (pc % 256) as u8
        && memory.peek(pc.wrapping_add(2)) == (pc / 256) as u8
}
