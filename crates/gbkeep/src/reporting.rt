//! How the program says that it was refused.

ghost use Rattle.std.specs.Prelude.{◌≡◌, Some};
ghost use Rattle.refusals.specs.Statuses.{status_of};
ghost use Rattle.gbkeep.specs.Program.{HasLine, line_of, refusal_of_command};

use arrayvec::ArrayString;
use commands::CommandError;
use debugging::DebugError;
use exact_text::{Output, write_whole};
use refusals::Refusal;
use replaying::VerifyError;
use streaming::StreamError;

/// The statuses of the program that no refusal has.
pub(crate) const DONE: u8 = 0;

pub(crate) const NOT_UNDERSTOOD: u8 = 2;

/// What a command that was refused is for the program.
pub(crate) fn refusal_of(why: CommandError) -> Refusal
    ensures { result ≡ refusal_of_command why }
{
    match why {
        CommandError::Cart(why) => Refusal::Cart(why),
        CommandError::Script(why) => Refusal::Script(why),
        CommandError::Session(why) => Refusal::Session(why),
        CommandError::Stream(StreamError::Session(why)) => Refusal::Session(why),
        CommandError::Stream(StreamError::Line(number)) => Refusal::Line(number),
        CommandError::Stream(StreamError::Input) => Refusal::Input,
        CommandError::Stream(StreamError::Snapshot) => Refusal::NoState,
        CommandError::Stream(StreamError::OtherCartridge) => Refusal::OtherState,
        CommandError::Stream(StreamError::Memory) => Refusal::Memory,
        CommandError::Recording(why) => Refusal::Recording(why),
        CommandError::Verify(VerifyError::Save(why)) => Refusal::Session(why),
        CommandError::Verify(VerifyError::Recording(why)) => Refusal::Recording(why),
        CommandError::Verify(VerifyError::Behind(count)) => Refusal::Behind(count),
        CommandError::Verify(VerifyError::Ahead(count)) => Refusal::Ahead(count),
        CommandError::Verify(VerifyError::Memory) => Refusal::Memory,
        CommandError::Verify(VerifyError::Differ) => Refusal::Differ,
        CommandError::Debug(DebugError::Input) => Refusal::Input,
        CommandError::Debug(DebugError::Output) => Refusal::Output,
        CommandError::Debug(DebugError::Memory) => Refusal::Memory,
        CommandError::Memory => Refusal::Memory,
        CommandError::Output => Refusal::Output,
    }
}

/// Writes the line of a refusal, `gbkeep: ` and its text, and answers its status. Where a write fails the rest is left out.
pub(crate) fn report<E: Output>(refusal: Refusal, err: &mut E) -> u8
    ensures status { result ≡ status_of refusal }
    ensures line { HasLine (Some (line_of refusal)) (E.contents err.old) (E.contents err.new) }
{
    write_line(line(refusal).as_str(), err);
    refusal.status()
}

fn line(refusal: Refusal) -> ArrayString<80>
    ensures { result.bytes ≡ line_of refusal }
{
    let mut text = ArrayString::new();
    text.push_str("gbkeep: ");
    text.push_str(refusal.text().as_str());
    text.push_str("\n");
    text
}

pub(crate) fn write_line<E: Output>(line: &str, err: &mut E)
    ensures { HasLine (Some line.now) (E.contents err.old) (E.contents err.new) }
{
    let _ = write_whole(err, line.as_bytes());
}
