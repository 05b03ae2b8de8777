//! The line of a step.

ghost use Rattle.std.specs.Prelude.{◌≡◌, codes, true, OnErr, OnOk};
ghost use Rattle.std.specs.Io.KnownBytes.{Appends};
ghost use Rattle.exact_text.specs.Written.{AppendsProperPrefix};
ghost use Rattle.debugger.specs.Report.{interrupt_line, line_of};

use exact_text::{Output, OutputFailed, byte_digits, write_whole};
use machine::{StepKind, Stepped};
use opcode_table::{Line, list_line};

fn line(kind: StepKind) -> Line
    ensures { result.bytes ≡ line_of kind }
{
    match kind {
        StepKind::Ran(seen) => list_line(seen.pc, seen.bytes),
        StepKind::Wait => wait_line(),
        StepKind::Dispatch(vector) => interrupt_line(vector),
    }
}

fn wait_line() -> Line
    ensures { result.bytes ≡ codes "wait\n" }
{
    let mut line = Line::new();
    line.push_str("wait\n");
    line
}

fn interrupt_line(vector: u16) -> Line
    ensures { result.bytes ≡ interrupt_line vector }
{
    let mut line = Line::new();
    line.push_str("interrupt ");
    line.push_str(byte_digits((vector % 256) as u8).as_str());
    line.push_str("\n");
    line
}

/// Writes the line of a step: that of the instruction as in a listing, `wait`, or `interrupt` and
/// the vector in two hexadecimal digits. Refused if a write fails: a proper prefix of the line
/// went out.
pub fn write_stepped<W: Output>(stepped: &Stepped, out: &mut W) -> Result<(), OutputFailed>
    ensures ok { OnOk result (Appends (W.contents out.old) (W.contents out.new) (line_of stepped.now.kind)) }
    ensures err { OnErr result
        (AppendsProperPrefix (W.contents out.old) (W.contents out.new) (line_of stepped.now.kind)) }
    ensures failed { OnErr result (W.has_failed out.new ≡ true) }
{
    let text = line(stepped.kind);
    write_whole(out, text.as_bytes())
}
