//! The lines of a script.
ghost use Rattle.std.specs.Prelude.{◌≡◌, ◌≤◌, ◌∷◌, [], true, replicate, OnOk, OnErr};
ghost use Rattle.std.specs.Io.KnownBytes.{Appends};
ghost use Rattle.exact_text.specs.Written.{AppendsProperPrefix};
ghost use Rattle.input_entries.specs.Inputs.{is_entry, inputs_in, inputs, all_entries};
ghost use Rattle.input_entries.specs.Sizes.{longest_run};
ghost use Rattle.machine.specs.Machine.{Frame, Seconds};
ghost use Rattle.session.specs.Inputs.{inputs_of};
ghost use Rattle.replaying.specs.Script.{frames_line, seconds_line};
ghost use Rattle.replaying.specs.Lines.{HasWritten, HasStopped};

use crate::run::{MOST_TIMES, Run};
use arrayvec::ArrayString;
use exact_text::{Output, OutputFailed, byte_digits, number_digits, write_whole};
use input_entries::{Logged, StoredEntry};

fn frames_text(buttons: u8, times: u32) -> ArrayString<32>
    requires { 1 ≤ times }
    ensures { result.bytes ≡ frames_line buttons times }
{
    let mut text = ArrayString::new();
    text.push_str("frames ");
    text.push_str(byte_digits(buttons).as_str());
    text.push(' ');
    text.push_str(number_digits(u64::from(times)).as_str());
    text.push('\n');
    text
}

fn seconds_text(seconds: u32) -> ArrayString<32>
    ensures { result.bytes ≡ seconds_line seconds }
{
    let mut text = ArrayString::new();
    text.push_str("seconds ");
    text.push_str(number_digits(u64::from(seconds)).as_str());
    text.push('\n');
    text
}

/// Writes the line of a run; none of no frames.
pub(crate) fn write_run<W: Output>(run: Run, out: &mut W) -> Result<(), OutputFailed>
    ensures ok { OnOk result (Appends (W.contents out.old) (W.contents out.new) (frames_line run.buttons run.times)) }
    ensures err { OnErr result
        (AppendsProperPrefix (W.contents out.old) (W.contents out.new) (frames_line run.buttons run.times)) }
    ensures failed { OnErr result (W.has_failed out.new ≡ true) }
{
    if run.times == 0 {
        return Ok(());
    }
    write_whole(out, frames_text(run.buttons, run.times).as_bytes())
}

/// Writes the line of a second-input.
fn write_seconds<W: Output>(seconds: u32, out: &mut W) -> Result<(), OutputFailed>
    ensures ok { OnOk result (Appends (W.contents out.old) (W.contents out.new) (seconds_line seconds)) }
    ensures err { OnErr result (AppendsProperPrefix (W.contents out.old) (W.contents out.new) (seconds_line seconds)) }
    ensures failed { OnErr result (W.has_failed out.new ≡ true) }
{
    write_whole(out, seconds_text(seconds).as_bytes())
}

/// Adds frames to a run, and writes the line of the run that they end.
fn write_frames<W: Output>(
    run: &mut Run,
    buttons: u8,
    times: u32,
    out: &mut W,
) -> Result<(), OutputFailed>
    requires some { 1 ≤ times }
    requires few { times ≤ longest_run }
    ensures ok { OnOk result
        (HasWritten run.old run.new (replicate times (Frame buttons)) (W.contents out.old) (W.contents out.new)) }
    ensures err { OnErr result
        (HasStopped run.old (replicate times (Frame buttons)) (W.contents out.old) (W.contents out.new)) }
    ensures failed { OnErr result (W.has_failed out.new ≡ true) }
{
    let before = *run;
    if before.buttons != buttons {
        *run = Run { buttons, times };
        return write_run(before, out);
    }
    let times = before.times + times;
    if times <= MOST_TIMES {
        *run = Run { buttons, times };
        return Ok(());
    }
    *run = Run {
        buttons,
        times: times - MOST_TIMES,
    };
    write_run(
        Run {
            buttons,
            times: MOST_TIMES,
        },
        out,
    )
}

/// Writes the line of the run that a second-input ends, and its own.
fn write_run_and_seconds<W: Output>(
    run: &mut Run,
    seconds: u32,
    out: &mut W,
) -> Result<(), OutputFailed>
    ensures ok { OnOk result (HasWritten run.old run.new (Seconds seconds ∷
        []) (W.contents out.old) (W.contents out.new)) }
    ensures err { OnErr result (HasStopped run.old (Seconds seconds ∷ []) (W.contents out.old) (W.contents out.new)) }
    ensures failed { OnErr result (W.has_failed out.new ≡ true) }
{
    let before = *run;
    *run = Run {
        buttons: before.buttons,
        times: 0,
    };
    if let Err(failed) = write_run(before, out) {
        return Err(failed);
    }
    write_seconds(seconds, out)
}

/// Writes the lines that the inputs of an entry end.
fn write_entry<W: Output>(
    run: &mut Run,
    entry: &StoredEntry,
    out: &mut W,
) -> Result<(), OutputFailed>
    ensures ok { OnOk result (is_entry entry.now ≡ true →
        HasWritten run.old run.new (inputs_of (inputs_in entry.now)) (W.contents out.old) (W.contents out.new)) }
    ensures err { OnErr result (is_entry entry.now ≡ true →
        HasStopped run.old (inputs_of (inputs_in entry.now)) (W.contents out.old) (W.contents out.new)) }
    ensures failed { OnErr result (W.has_failed out.new ≡ true) }
{
    match entry.logged() {
        Some(Logged::Frames { buttons, times }) => write_frames(run, buttons, times, out),
        Some(Logged::Seconds(seconds)) => write_run_and_seconds(run, seconds, out),
        None => Ok(()),
    }
}

/// Writes the lines that the inputs of entries end.
pub(crate) fn write_entries<W: Output>(
    run: &mut Run,
    entries: &[StoredEntry],
    out: &mut W,
) -> Result<(), OutputFailed>
    ensures ok { OnOk result (all_entries entries.now →
        HasWritten run.old run.new (inputs_of (inputs entries.now)) (W.contents out.old) (W.contents out.new)) }
    ensures err { OnErr result (all_entries entries.now →
        HasStopped run.old (inputs_of (inputs entries.now)) (W.contents out.old) (W.contents out.new)) }
    ensures failed { OnErr result (W.has_failed out.new ≡ true) }
{
    for entry in entries {
        if let Err(failed) = write_entry(run, entry, out) {
            return Err(failed);
        }
    }
    Ok(())
}
