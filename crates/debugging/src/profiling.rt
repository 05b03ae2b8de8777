//! A run of which the M-cycles are counted.

ghost use Rattle.std.specs.Prelude.{◌≡◌, ◌<◌, ◌≤◌, ◌+◌, ◌^◌, ℕ, length, nat_lt};
ghost use Rattle.debugging.specs.Answers.{until_steps};
ghost use Rattle.debugging.specs.Counting.{IsWithin};
ghost use Rattle.debugging.specs.Profile.{no_cycles, with_step, with_steps};
ghost use Rattle.debugging.specs.Quiet.{HasRom, is_any};
ghost use Rattle.debugging.specs.Run.{after_steps_of, processor_of, steps_up_to};

use crate::aims::{Aim, aims_of, is_any};
use crate::banks::rom_offset;
use crate::cycles::{CycleCounts, begins_at};
use crate::order::Condition;
use crate::run::{Run, RunStep, RunUntil};

/// One step, whose M-cycles are counted. Conditions: the ROM has so many bytes, each with a count, and there is room for more.
fn step_counted(run: Run, rom: usize, counts: &mut CycleCounts) -> Run
    requires rom { HasRom rom (processor_of run).memory }
    requires size { length counts.old.rom ≡ rom }
    requires room { IsWithin (2 ^ 63) counts.old }
    ensures run { result ≡ after_steps_of 1 run }
    ensures counted { counts.new ≡ with_step (processor_of run) counts.old }
    ensures within { (most : ℕ) → IsWithin most counts.old → IsWithin (most + 255) counts.new }
    ensures size { length counts.new.rom ≡ length counts.old.rom }
{
    // a look at the bank takes as long as the picture is late
    let run = run.draw_late();
    let pc = run.processor().registers.pc;
    let at = rom_offset(&run.processor().memory, rom, pc);
    let RunStep { run, stepped } = run.step();
    counts.count(begins_at(stepped.kind, at), stepped.cycles);
    run
}

/// Steps up to one of these conditions, but at most `limit`, whose M-cycles are counted. The first step is made wherever it begins. Conditions:
/// there are sixteen of them at most, the ROM has so many bytes, and nothing was counted yet.
pub(crate) fn run_counted(
    run: Run,
    conditions: &[Condition],
    rom: usize,
    limit: u32,
    counts: &mut CycleCounts,
) -> RunUntil
    requires few { length conditions.now ≤ 16 }
    requires rom { HasRom rom (processor_of run).memory }
    requires none { counts.old ≡ no_cycles rom }
    ensures run { result.run ≡ after_steps_of (until_steps limit conditions.now run) run }
    ensures there { result.is_there ≡ nat_lt (until_steps limit conditions.now run) limit }
    ensures counted { counts.new ≡ with_steps (until_steps limit conditions.now run) (processor_of run) counts.old }
    ensures size { length counts.new.rom ≡ rom }
{
    let aims = aims_of(conditions, run.processor());
    count_up_to(run, aims.as_slice(), rom, limit, counts)
}

/// The same, of aims.
fn count_up_to(run: Run, aims: &[Aim], rom: usize, limit: u32, counts: &mut CycleCounts) -> RunUntil
    requires rom { HasRom rom (processor_of run).memory }
    requires none { counts.old ≡ no_cycles rom }
    ensures run { result.run ≡ after_steps_of (steps_up_to (is_any aims.now) limit (processor_of run)) run }
    ensures there { result.is_there ≡ nat_lt (steps_up_to (is_any aims.now) limit (processor_of run)) limit }
    ensures counted { counts.new ≡
        with_steps (steps_up_to (is_any aims.now) limit (processor_of run)) (processor_of run) counts.old }
    ensures size { length counts.new.rom ≡ rom }
{
    run.no_step();
    let mut now = run;
    let mut left = limit;
    while left > 0 {
        now = step_counted(now, rom, counts);
        left -= 1;
        if left > 0 && is_any(aims, rom, now.processor()) {
            return RunUntil {
                run: now,
                is_there: true,
            };
        }
    }
    RunUntil {
        run: now,
        is_there: false,
    }
}
