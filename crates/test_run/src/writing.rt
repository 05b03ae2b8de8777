//! The last lines of a test.

ghost use Rattle.std.specs.Prelude.{◌≡◌, ◌++◌, true, OnOk, OnErr};
ghost use Rattle.std.specs.Io.KnownBytes.{Appends};
ghost use Rattle.exact_text.specs.Written.{AppendsProperPrefix};
ghost use Rattle.test_run.specs.Told.{is_in_line, line_end_told};
ghost use Rattle.test_run.specs.Text.{frames_line, ended_line};

use crate::ends::End;
use crate::run::{Ended, Progress};
use crate::told::Told;
use arrayvec::ArrayString;
use exact_text::{Output, OutputFailed, number_digits, write_whole};

fn frames_text(frames: u32) -> ArrayString<32>
    ensures { result.bytes ≡ frames_line frames }
{
    let mut text = ArrayString::new();
    text.push_str("frames ");
    text.push_str(number_digits(u64::from(frames)).as_str());
    text.push_str("\n");
    text
}

fn ended_text(why: End) -> &'static [u8]
    ensures { result.now ≡ ended_line why }
{
    match why {
        End::Frames => b"ended frames\n",
        End::Locked => b"ended locked\n",
        End::Breakpoint => b"ended breakpoint\n",
        End::Loop => b"ended loop\n",
        End::Memory(_) => b"ended memory\n",
    }
}

/// Writes a newline if a line has begun.
fn write_line_end<W: Output>(told: &Told, out: &mut W) -> Result<(), OutputFailed>
    ensures ok { OnOk result (Appends (W.contents out.old) (W.contents out.new) (line_end_told told.now.last)) }
    ensures err { OnErr result
        (AppendsProperPrefix (W.contents out.old) (W.contents out.new) (line_end_told told.now.last)) }
    ensures failed { OnErr result (W.has_failed out.new ≡ true) }
{
    if !told.is_in_line() {
        return Ok(());
    }
    match write_whole(out, b"\n") {
        Ok(()) => Ok(()),
        Err(fault) => Err(fault),
    }
}

/// Writes how many frames are done.
fn write_frames<W: Output>(frames: u32, out: &mut W) -> Result<(), OutputFailed>
    ensures ok { OnOk result (Appends (W.contents out.old) (W.contents out.new) (frames_line frames)) }
    ensures err { OnErr result (AppendsProperPrefix (W.contents out.old) (W.contents out.new) (frames_line frames)) }
    ensures failed { OnErr result (W.has_failed out.new ≡ true) }
{
    let text = frames_text(frames);
    write_whole(out, text.as_bytes())
}

/// Writes the line of registers.
fn write_line<W: Output>(ended: &Ended, out: &mut W) -> Result<(), OutputFailed>
    ensures ok { OnOk result (Appends (W.contents out.old) (W.contents out.new) ended.now.line.bytes) }
    ensures err { OnErr result (AppendsProperPrefix (W.contents out.old) (W.contents out.new) ended.now.line.bytes) }
    ensures failed { OnErr result (W.has_failed out.new ≡ true) }
{
    write_whole(out, ended.line.as_bytes())
}

/// Writes why a test ended.
fn write_why<W: Output>(why: End, out: &mut W) -> Result<(), OutputFailed>
    ensures ok { OnOk result (Appends (W.contents out.old) (W.contents out.new) (ended_line why)) }
    ensures err { OnErr result (AppendsProperPrefix (W.contents out.old) (W.contents out.new) (ended_line why)) }
    ensures failed { OnErr result (W.has_failed out.new ≡ true) }
{
    write_whole(out, ended_text(why))
}

/// Writes the lines that tell where a test ended.
pub(crate) fn write_end<W: Output>(
    ended: &Ended,
    progress: &Progress,
    out: &mut W,
) -> Result<(), OutputFailed>
    ensures ok { OnOk result (Appends (W.contents out.old) (W.contents out.new)
        (line_end_told progress.now.told.last ++
        (ended.now.line.bytes ++ (frames_line progress.now.done ++ ended_line ended.now.why)))) }
    ensures err { OnErr result (AppendsProperPrefix (W.contents out.old) (W.contents out.new)
        (line_end_told progress.now.told.last ++
        (ended.now.line.bytes ++ (frames_line progress.now.done ++ ended_line ended.now.why)))) }
    ensures failed { OnErr result (W.has_failed out.new ≡ true) }
{
    if let Err(fault) = write_line_end(&progress.told, out) {
        return Err(fault);
    }
    if let Err(fault) = write_line(ended, out) {
        return Err(fault);
    }
    if let Err(fault) = write_frames(progress.done, out) {
        return Err(fault);
    }
    match write_why(ended.why, out) {
        Ok(()) => Ok(()),
        Err(fault) => Err(fault),
    }
}
