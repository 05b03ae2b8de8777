//! The power switch, states that are kept and taken up again, and runs that are measured.

ghost use Rattle.std.specs.Prelude.{◌≡◌, ◌≢◌, ◌<◌, ◌≤◌, ◌++◌, ◌^◌, List, codes, length, slice_set, true, IfErr, IfOk, OnErr, OnOk};
ghost use Rattle.std.specs.Io.KnownBytes.{Appends};
ghost use Rattle.exact_text.specs.Written.{AppendsProperPrefix};
ghost use Rattle.machine.specs.Legal.{IsLegalMachine};
ghost use Rattle.snapshot.specs.Encoding.{encoded, snapshot_length};
ghost use Rattle.snapshot.specs.Legal.{IsOfImage};
ghost use Rattle.debugging.specs.Answers.{place_text, profile_text, until_steps};
ghost use Rattle.debugging.specs.Profile.{cycles_text};
ghost use Rattle.machine_lines.specs.Texts.{count_line};
ghost use Rattle.machine_lines.specs.KeptStates.{slots, KeptMachine};
ghost use Rattle.debugging.specs.Run.{after_steps_of, processor_of};
ghost use Rattle.debugging.specs.Numbers.{IsNumbered};
ghost use Rattle.machine_lines.specs.Slots.{AreKept, state_under};
ghost use Rattle.debugging.specs.States.{after_power, after_snapshot, is_snapshot, rom_of};
ghost use Rattle.debugging.specs.Switching.{HasSwitched, IsNotSwitched, IsRefusedAnswer, back_text};

use crate::answering::{write_place, write_wrong};
use crate::cycles::CycleCounts;
use crate::error::DebugError;
use crate::order::{Condition, StateOrder};
use crate::profiling::run_counted;
use crate::run::{Run, RunRestored, RunUntil};
use cartridge::Cartridge;
use exact_text::{Output, OutputFailed, write_whole};
use machine::{Processor, Region};
use machine_lines::{KeptStates, write_count};
use memory_map::Bus;
use snapshot::length;
use std::alloc::Global;

/// Does what such an order asks for, and answers it. Conditions: the machine is one of the cartridge, and the number is one of those.
///
/// Refusals: output failed, where a proper prefix of the answer went out; no memory, with nothing written.
pub(crate) fn switch<W: Output>(
    alloc: Global,
    cartridge: &Cartridge,
    run: Run,
    kept: &mut KeptStates,
    order: StateOrder,
    number: u64,
    out: &mut W,
) -> Result<Run, DebugError>
    requires of { IsOfImage cartridge.now run.debugger.machine }
    requires numbered { IsNumbered order }
    ensures of { IfOk result (λ now. IsOfImage cartridge.now now.debugger.machine) }
    ensures done { (machines : List KeptMachine) → AreKept cartridge.now kept.old machines
        → IfOk result (λ now.
        HasSwitched cartridge.now order number (record {
          run = run;
          kept = machines;
        }) now kept.new (W.contents out.old) (W.contents out.new)) }
    ensures refused { (machines : List KeptMachine) → AreKept cartridge.now kept.old machines
        → IfErr result (λ why.
        IsNotSwitched why order number (record {
          run = run;
          kept = machines;
        }) (W.contents out.old) (W.contents out.new)) }
    ensures output { IfErr result (λ why. why ≡ DebugError.Output → W.has_failed out.new ≡ true) }
{
    match order {
        StateOrder::Power => power(alloc, cartridge, run, out),
        StateOrder::Keep(slot) => keep(alloc, run, kept, slot, out),
        StateOrder::Back(slot) => back(
            cartridge,
            run,
            kept.state(slot as usize),
            slot,
            number,
            out,
        ),
        StateOrder::Profile { steps, conditions } => {
            profile(alloc, cartridge, run, steps, conditions.as_slice(), out)
        }
    }
}

/// Switches the power off and on, and answers it. Condition: the machine is one of the cartridge.
fn power<W: Output>(
    alloc: Global,
    cartridge: &Cartridge,
    run: Run,
    out: &mut W,
) -> Result<Run, DebugError>
    requires { IsOfImage cartridge.now run.debugger.machine }
    ensures of { IfOk result (λ now. IsOfImage cartridge.now now.debugger.machine) }
    ensures run { IfOk result (λ now. now ≡ after_power run) }
    ensures ok { OnOk result (Appends (W.contents out.old) (W.contents out.new) (codes "done\n")) }
    ensures err { IfErr result (λ why. IsRefusedAnswer why (codes "done\n") (W.contents out.old) (W.contents out.new)) }
    ensures output { IfErr result (λ why. why ≡ DebugError.Output → W.has_failed out.new ≡ true) }
{
    let Ok(run) = run.power(alloc, cartridge) else {
        return Err(DebugError::Memory);
    };
    match write_whole(out, b"done\n") {
        Ok(()) => Ok(run),
        Err(_) => {
            drop(run);
            Err(DebugError::Output)
        }
    }
}

/// Makes steps whose M-cycles are counted, and tells them. Conditions: the machine is one of the cartridge, and there are sixteen conditions at most.
fn profile<W: Output>(
    alloc: Global,
    cartridge: &Cartridge,
    run: Run,
    steps: u32,
    conditions: &[Condition],
    out: &mut W,
) -> Result<Run, DebugError>
    requires of { IsOfImage cartridge.now run.debugger.machine }
    requires few { length conditions.now ≤ 16 }
    ensures of { IfOk result (λ now. IsOfImage cartridge.now now.debugger.machine) }
    ensures run { IfOk result (λ now. now ≡ after_steps_of (until_steps steps conditions.now run) run) }
    ensures ok { OnOk result
        (Appends (W.contents out.old) (W.contents out.new)
        (profile_text (until_steps steps conditions.now run) steps run)) }
    ensures err { IfErr result (λ why.
        IsRefusedAnswer why (profile_text (until_steps steps conditions.now run) steps run) (W.contents out.old)
        (W.contents out.new)) }
    ensures output { IfErr result (λ why. why ≡ DebugError.Output → W.has_failed out.new ≡ true) }
{
    let rom = cartridge.rom().len();
    let Ok(mut counts) = CycleCounts::new(alloc, rom) else {
        drop(run);
        return Err(DebugError::Memory);
    };
    let RunUntil { run, is_there } = run_counted(run, conditions, rom, steps, &mut counts);
    match write_profile(is_there, run.processor(), &counts, out) {
        Ok(()) => Ok(run),
        Err(_) => {
            drop(run);
            Err(DebugError::Output)
        }
    }
}

/// Writes where a run is, and the M-cycles that it took. Condition: the ROM has 2^30 bytes at most.
fn write_profile<W: Output>(
    is_there: bool,
    processor: &Processor<Bus>,
    counts: &CycleCounts,
    out: &mut W,
) -> Result<(), OutputFailed>
    requires { length counts.now.rom ≤ 2 ^ 30 }
    ensures ok { OnOk result (Appends (W.contents out.old) (W.contents out.new) (place_text is_there processor.now ++
        cycles_text counts.now)) }
    ensures err { OnErr result
        (AppendsProperPrefix (W.contents out.old) (W.contents out.new) (place_text is_there processor.now ++
        cycles_text counts.now)) }
    ensures failed { OnErr result (W.has_failed out.new ≡ true) }
{
    if let Err(fault) = write_place(is_there, processor, out) {
        return Err(fault);
    }
    counts.write(out)
}

/// Keeps the machine under a number, and answers it. Condition: it is one of the numbers.
fn keep<W: Output>(
    alloc: Global,
    run: Run,
    kept: &mut KeptStates,
    slot: u32,
    out: &mut W,
) -> Result<Run, DebugError>
    requires { slot < slots }
    ensures run { IfOk result (λ now. now ≡ run) }
    ensures kept { OnOk result (kept.new ≡ slice_set kept.old slot (encoded run.debugger.machine)) }
    ensures legal { OnOk result (IsLegalMachine run.debugger.machine) }
    ensures size { length kept.old ≡ slots }
    ensures ok { OnOk result (Appends (W.contents out.old) (W.contents out.new) (count_line (codes "kept") slot)) }
    ensures err { IfErr result (λ why. IsRefusedAnswer why (count_line (codes "kept") slot) (W.contents out.old) (W.contents out.new)) }
    ensures output { IfErr result (λ why. why ≡ DebugError.Output → W.has_failed out.new ≡ true) }
    ensures memory { IfErr result (λ why.
        why ≡ DebugError.Memory →
        length (state_under kept.old slot) ≢ snapshot_length (length (processor_of run).memory.banks.ram)) }
{
    let run = run.draw_late();
    let machine = run.debugger().machine();
    let room = length(machine.region(Region::CartRam).len());
    if kept.keep(alloc, slot as usize, room, machine).is_err() {
        drop(run);
        return Err(DebugError::Memory);
    }
    match write_count("kept", slot as usize, out) {
        Ok(()) => Ok(run),
        Err(_) => {
            drop(run);
            Err(DebugError::Output)
        }
    }
}

/// Makes the machine the one of a kept snapshot, if it is one of the cartridge, and answers it. Condition: the machine is one of it.
fn back<W: Output>(
    cartridge: &Cartridge,
    run: Run,
    snapshot: &[u8],
    slot: u32,
    number: u64,
    out: &mut W,
) -> Result<Run, DebugError>
    requires { IsOfImage cartridge.now run.debugger.machine }
    ensures of { IfOk result (λ now. IsOfImage cartridge.now now.debugger.machine) }
    ensures run { IfOk result (λ now. now ≡ after_snapshot snapshot.now run) }
    ensures ok { OnOk result
        (Appends (W.contents out.old) (W.contents out.new)
        (back_text (is_snapshot (rom_of run) snapshot.now) slot number)) }
    ensures err { OnErr result
        (AppendsProperPrefix (W.contents out.old) (W.contents out.new)
        (back_text (is_snapshot (rom_of run) snapshot.now) slot number)) }
    ensures output { IfErr result (λ why. why ≡ DebugError.Output) }
    ensures failed { IfErr result (λ why. why ≡ DebugError.Output → W.has_failed out.new ≡ true) }
{
    let RunRestored { run, is_restored } = run.restore(cartridge, snapshot);
    match write_back(is_restored, slot, number, out) {
        Ok(()) => Ok(run),
        Err(_) => {
            drop(run);
            Err(DebugError::Output)
        }
    }
}

/// The answer to `back`.
fn write_back<W: Output>(
    is_restored: bool,
    slot: u32,
    number: u64,
    out: &mut W,
) -> Result<(), OutputFailed>
    ensures ok { OnOk result (Appends (W.contents out.old) (W.contents out.new) (back_text is_restored slot number)) }
    ensures err { OnErr result
        (AppendsProperPrefix (W.contents out.old) (W.contents out.new) (back_text is_restored slot number)) }
    ensures failed { OnErr result (W.has_failed out.new ≡ true) }
{
    if is_restored {
        return write_count("back", slot as usize, out);
    }
    write_wrong(number, out)
}
