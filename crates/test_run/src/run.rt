//! A whole test.

ghost use Rattle.std.specs.Prelude.{◌≡◌, ◌≤◌, ◌<◌, ◌++◌, [], ◌∷◌, ℕ, List, Option, None, true, IfOk, IfErr, OnErr, OnOk, replicate};
ghost use Rattle.std.specs.Io.KnownBytes.{Appends};
ghost use Rattle.bank_controllers.specs.CartridgeState.{IsSameCartridge};
ghost use Rattle.machine.specs.Machine.{Frame, MachineState, cycles_per_frame, powered, seconds_passed, start};
ghost use Rattle.machine.specs.Watched.{begun_with, seen_in};
ghost use Rattle.debugger.specs.Registers.{register_line};
ghost use Rattle.script.specs.Inputs.{inputs_of_move, inputs_of_moves};
ghost use Rattle.test_run.specs.Tested.{tested, frames_with};
ghost use Rattle.test_run.specs.Text.{test_text};
ghost use Rattle.test_run.specs.Verdict.{verdict_of};
ghost use Rattle.test_run.specs.declared.run.Progress.{Progress as ProgressNow};
ghost use Rattle.test_run.specs.Playing.{HasPlayed, HasReached, HasEnded, StopsIn, IsKeptBy, IsMoveStop, IsMovesStop, IsTestStop};
ghost use Rattle.test_run.specs.Refusals.{IsTested, IsTestRefused};

use crate::ends::End;
use crate::error::TestError;
use crate::frame::{PlayedFrame, play_frame};
use crate::told::Told;
use crate::verdict::{Verdict, verdict_by};
use crate::writing::write_end;
use cartridge::Cartridge;
use debugger::{RegisterLine, register_line};
use exact_text::{Output, OutputFailed};
use machine::{Input, Machine, Processor};
use memory_map::Bus;
use script::{Move, read_script};
use sm83_alu::Registers;
use snapshot::powered;
use std::alloc::Global;

/// What is kept of a machine at the end of a test.
#[derive(Drop)]
pub(crate) struct Ended {
    pub(crate) line: RegisterLine,
    pub(crate) registers: Registers,
    pub(crate) why: End,
}

/// Whether a test goes on.
#[derive(Drop)]
pub(crate) enum Went {
    On(Machine),
    Over(Ended),
}

/// Why a test stops before its end.
#[derive(Clone, Copy)]
pub(crate) enum Stop {
    /// There is no memory for a power switch.
    Memory,
    /// A write failed.
    Output,
}

/// How far a test is.
#[derive(Drop)]
pub(crate) struct Progress {
    /// The frames that are done.
    pub(crate) done: u32,
    /// The bytes that were sent.
    pub(crate) told: Told,
}

fn ended_at(processor: &Processor<Bus>, why: End) -> Ended
    ensures line { result.line.bytes ≡ register_line processor.now }
    ensures registers { result.registers ≡ processor.now.registers }
    ensures why { result.why ≡ why }
{
    Ended {
        line: register_line(processor),
        registers: processor.registers,
        why,
    }
}

/// Ends a test whose frames are done.
fn all_done(machine: Machine) -> Ended
    ensures line { result.line.bytes ≡ register_line machine.processor }
    ensures registers { result.registers ≡ machine.processor.registers }
    ensures why { result.why ≡ End.Frames }
{
    ended_at(machine.processor(), End::Frames)
}

fn frames_with(why: End, done: u32) -> u32
    requires { done < 4294967295 }
    ensures { result ≡ frames_with why done }
{
    match why {
        End::Breakpoint => done,
        End::Frames | End::Locked | End::Loop | End::Memory(_) => done + 1,
    }
}

/// Goes on after a frame, or ends the test there.
fn after_frame(played: PlayedFrame, progress: &mut Progress) -> Went
    requires done { progress.old.done < 4294967295 }
    requires over { played.end ≡ None → cycles_per_frame ≤ played.frame.passed }
    ensures ok { (limit buttons : ℕ) (machine : MachineState) (old : ProgressNow) (a b : Option (List ℕ)) →
        old.done ≡ progress.old.done → old.done < limit →
        HasPlayed (seen_in (begun_with buttons machine)) old.told progress.old.told a b played →
        HasReached limit (Frame buttons ∷ []) [] machine old progress.new a b result }
    ensures kept { (buttons : ℕ) (machine : MachineState) →
        played.frame ≡ (seen_in (begun_with buttons machine)).end → IsKeptBy machine result }
{
    match played.end {
        Some(why) => {
            progress.done = frames_with(why, progress.done);
            Went::Over(ended_at(played.frame.processor(), why))
        }
        None => {
            progress.done += 1;
            Went::On(played.frame.end())
        }
    }
}

/// Plays a frame of a test, if one is left.
fn test_frame<W: Output>(
    machine: Machine,
    buttons: u8,
    limit: u32,
    progress: &mut Progress,
    out: &mut W,
) -> Result<Went, OutputFailed>
    requires { progress.old.done ≤ limit }
    ensures ok { IfOk result (HasReached limit (Frame buttons ∷
        []) [] machine progress.old progress.new (W.contents out.old) (W.contents out.new)) }
    ensures err { OnErr result (StopsIn limit (Frame buttons ∷
        []) machine progress.old (W.contents out.old) (W.contents out.new)) }
    ensures failed { OnErr result (W.has_failed out.new ≡ true) }
    ensures kept { IfOk result (IsKeptBy machine) }
{
    if progress.done >= limit {
        return Ok(Went::Over(all_done(machine)));
    }
    match play_frame(machine, buttons, &mut progress.told, out) {
        Ok(played) => Ok(after_frame(played, progress)),
        Err(fault) => Err(fault),
    }
}

/// Plays so many frames of a test.
fn test_frames<W: Output>(
    machine: Machine,
    buttons: u8,
    times: u32,
    limit: u32,
    progress: &mut Progress,
    out: &mut W,
) -> Result<Went, OutputFailed>
    requires { progress.old.done ≤ limit }
    ensures ok { IfOk result
        (HasReached limit (replicate times (Frame buttons)) [] machine progress.old progress.new (W.contents out.old)
        (W.contents out.new)) }
    ensures err { OnErr result
        (StopsIn limit (replicate times (Frame buttons)) machine progress.old (W.contents out.old)
        (W.contents out.new)) }
    ensures failed { OnErr result (W.has_failed out.new ≡ true) }
    ensures kept { IfOk result (IsKeptBy machine) }
{
    let mut machine = machine;
    for _i in 0..times {
        match test_frame(machine, buttons, limit, progress, out) {
            Ok(Went::On(after)) => machine = after,
            Ok(Went::Over(ended)) => return Ok(Went::Over(ended)),
            Err(fault) => return Err(fault),
        }
    }
    Ok(Went::On(machine))
}

fn after_seconds(machine: Machine, seconds: u32) -> Machine
    ensures { result ≡ seconds_passed seconds machine }
{
    let mut machine = machine;
    machine.apply(Input::Seconds(seconds));
    machine
}

fn switched(machine: Machine, alloc: Global, cartridge: &Cartridge) -> Result<Went, Stop>
    requires { IsSameCartridge machine.processor.memory.banks (start cartridge.now).processor.memory.banks }
    ensures ok { IfOk result (λ went. went ≡ Went.On (powered machine)) }
    ensures err { IfErr result (λ why. why ≡ Stop.Memory) }
    ensures kept { IfOk result (IsKeptBy machine) }
{
    match powered(alloc, cartridge, &machine) {
        Ok(fresh) => {
            drop(machine);
            Ok(Went::On(fresh))
        }
        Err(_) => {
            drop(machine);
            Err(Stop::Memory)
        }
    }
}

/// Makes a move of a test.
fn test_move<W: Output>(
    machine: Machine,
    alloc: Global,
    cartridge: &Cartridge,
    a_move: Move,
    limit: u32,
    progress: &mut Progress,
    out: &mut W,
) -> Result<Went, Stop>
    requires most { progress.old.done ≤ limit }
    requires of { IsSameCartridge machine.processor.memory.banks (start cartridge.now).processor.memory.banks }
    ensures ok { IfOk result
        (HasReached limit (inputs_of_move a_move) [] machine progress.old progress.new (W.contents out.old)
        (W.contents out.new)) }
    ensures err { IfErr result
        (IsMoveStop limit a_move machine progress.old (W.contents out.old) (W.contents out.new)) }
    ensures output { IfErr result (λ why. why ≡ Stop.Output → W.has_failed out.new ≡ true) }
    ensures kept { IfOk result (IsKeptBy machine) }
{
    match a_move {
        Move::Frames { buttons, times } => {
            match test_frames(machine, buttons, times, limit, progress, out) {
                Ok(went) => Ok(went),
                Err(_) => Err(Stop::Output),
            }
        }
        Move::Seconds(seconds) => Ok(Went::On(after_seconds(machine, seconds))),
        Move::Save => Ok(Went::On(machine)),
        Move::Power => switched(machine, alloc, cartridge),
    }
}

/// Makes the moves of a test, one after another.
fn test_moves<W: Output>(
    machine: Machine,
    alloc: Global,
    cartridge: &Cartridge,
    moves: &[Move],
    limit: u32,
    progress: &mut Progress,
    out: &mut W,
) -> Result<Went, Stop>
    requires most { progress.old.done ≤ limit }
    requires of { IsSameCartridge machine.processor.memory.banks (start cartridge.now).processor.memory.banks }
    ensures ok { IfOk result
        (HasReached limit (inputs_of_moves moves.now) [] machine progress.old progress.new (W.contents out.old)
        (W.contents out.new)) }
    ensures err { IfErr result
        (IsMovesStop limit moves.now machine progress.old (W.contents out.old) (W.contents out.new)) }
    ensures output { IfErr result (λ why. why ≡ Stop.Output → W.has_failed out.new ≡ true) }
{
    let mut machine = machine;
    for a_move in moves {
        match test_move(machine, alloc, cartridge, *a_move, limit, progress, out) {
            Ok(Went::On(after)) => machine = after,
            Ok(Went::Over(ended)) => return Ok(Went::Over(ended)),
            Err(why) => return Err(why),
        }
    }
    Ok(Went::On(machine))
}

/// Makes the moves of a test, and then plays frames without buttons, up to its end.
fn test_to_end<W: Output>(
    machine: Machine,
    alloc: Global,
    cartridge: &Cartridge,
    moves: &[Move],
    limit: u32,
    progress: &mut Progress,
    out: &mut W,
) -> Result<Ended, Stop>
    requires most { progress.old.done ≤ limit }
    requires of { IsSameCartridge machine.processor.memory.banks (start cartridge.now).processor.memory.banks }
    ensures ok { IfOk result
        (HasEnded (tested limit progress.old.done (inputs_of_moves moves.now ++ replicate limit (Frame 0)) machine)
        progress.old progress.new (W.contents out.old) (W.contents out.new)) }
    ensures err { IfErr result (IsTestStop limit progress.old.done moves.now machine
        (tested limit progress.old.done (inputs_of_moves moves.now ++
        replicate limit (Frame 0)) machine).sent (W.contents out.old) (W.contents out.new)) }
    ensures output { IfErr result (λ why. why ≡ Stop.Output → W.has_failed out.new ≡ true) }
{
    let machine = match test_moves(machine, alloc, cartridge, moves, limit, progress, out) {
        Ok(Went::On(machine)) => machine,
        Ok(Went::Over(ended)) => return Ok(ended),
        Err(why) => return Err(why),
    };
    match test_frames(machine, 0, limit, limit, progress, out) {
        Ok(Went::On(machine)) => Ok(all_done(machine)),
        Ok(Went::Over(ended)) => Ok(ended),
        Err(_) => Err(Stop::Output),
    }
}

/// Runs a test ROM from power-on: the moves of a script, of which a save does nothing, and then frames without buttons, until `frames`
/// frames are done, `LD B,B` (opcode 40) was run, or after a frame no byte is being sent and either a result stands in the memory or
/// nothing can happen any more: the processor is locked, or at a jump to itself with interrupts off. A result is a byte below 80 at A000
/// with DE B0 61 behind it. It writes each byte that is sent over the serial port, then,
/// on a new line, the registers, `frames` with the number of frames that were done, and `ended` with why.
///
/// Refusals: what is wrong with the image; with the script; no memory, all with nothing written; then, whichever comes first, no memory at a
/// power switch of the script, where all that was sent before it went out, and output failed, where a proper prefix of the text went out.
pub fn run_test<W: Output>(
    alloc: Global,
    rom: Vec<u8>,
    script: &[u8],
    frames: u32,
    out: &mut W,
) -> Result<Verdict, TestError>
    ensures tested { IfOk result (IsTested rom.items script.now frames (W.contents out.old) (W.contents out.new)) }
    ensures refused { IfErr result
        (IsTestRefused rom.items script.now frames (W.contents out.old) (W.contents out.new)) }
    ensures output { IfErr result (λ why. why ≡ TestError.Output → W.has_failed out.new ≡ true) }
{
    let cartridge = match Cartridge::read(rom) {
        Ok(cartridge) => cartridge,
        Err(fault) => return Err(TestError::Cart(fault)),
    };
    let moves = match read_script(alloc, script) {
        Ok(moves) => moves,
        Err(fault) => return Err(TestError::Script(fault)),
    };
    let machine = match Machine::power_on(alloc, &cartridge) {
        Ok(machine) => machine,
        Err(_) => return Err(TestError::Memory),
    };
    match test_machine(machine, alloc, &cartridge, &moves, frames, out) {
        Ok(verdict) => Ok(verdict),
        Err(Stop::Memory) => Err(TestError::Memory),
        Err(Stop::Output) => Err(TestError::Output),
    }
}

/// Tests a machine, and writes how it ended.
fn test_machine<W: Output>(
    machine: Machine,
    alloc: Global,
    cartridge: &Cartridge,
    moves: &[Move],
    frames: u32,
    out: &mut W,
) -> Result<Verdict, Stop>
    requires { IsSameCartridge machine.processor.memory.banks (start cartridge.now).processor.memory.banks }
    ensures written { OnOk result (Appends (W.contents out.old) (W.contents out.new)
        (test_text (tested frames 0 (inputs_of_moves moves.now ++ replicate frames (Frame 0)) machine))) }
    ensures verdict { IfOk result (λ v.
        v ≡ verdict_of (tested frames 0 (inputs_of_moves moves.now ++ replicate frames (Frame 0)) machine)) }
    ensures err { IfErr result (IsTestStop frames 0 moves.now machine
        (test_text (tested frames 0 (inputs_of_moves moves.now ++ replicate frames (Frame 0)) machine))
        (W.contents out.old) (W.contents out.new)) }
    ensures output { IfErr result (λ why. why ≡ Stop.Output → W.has_failed out.new ≡ true) }
{
    let mut progress = Progress {
        done: 0,
        told: Told::new(),
    };
    let ended = match test_to_end(machine, alloc, cartridge, moves, frames, &mut progress, out) {
        Ok(ended) => ended,
        Err(why) => return Err(why),
    };
    if let Err(_) = write_end(&ended, &progress, out) {
        return Err(Stop::Output);
    }
    Ok(verdict_by(
        ended.why,
        &ended.registers,
        progress.told.has_passed(),
        progress.told.has_failed(),
    ))
}
