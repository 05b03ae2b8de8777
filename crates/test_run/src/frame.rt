//! One frame of a test.

ghost use Rattle.std.specs.Prelude.{◌≡◌, true, IfOk, OnOk, OnErr};
ghost use Rattle.std.specs.Io.KnownBytes.{Appends};
ghost use Rattle.exact_text.specs.Written.{AppendsProperPrefix};
ghost use Rattle.machine.specs.Watched.{begun_with, byte_list, seen_in};
ghost use Rattle.test_run.specs.Told.{told_all};
ghost use Rattle.test_run.specs.Playing.{HasPlayed};

use crate::ends::{End, end_of};
use crate::told::Told;
use exact_text::{Output, OutputFailed, write_whole};
use machine::{Machine, Watched, WatchedFrame};

/// A frame as far as it was played, and why the test ends in it or after it, if it does.
#[derive(Drop)]
pub(crate) struct PlayedFrame {
    pub(crate) frame: WatchedFrame,
    pub(crate) end: Option<End>,
}

/// Writes a byte that was sent, if one was.
fn tell<W: Output>(sent: Option<u8>, told: &mut Told, out: &mut W) -> Result<(), OutputFailed>
    ensures ok { OnOk result (Appends (W.contents out.old) (W.contents out.new) (byte_list sent)) }
    ensures told { OnOk result (told.new ≡ told_all told.old (byte_list sent)) }
    ensures err { OnErr result (AppendsProperPrefix (W.contents out.old) (W.contents out.new) (byte_list sent)) }
    ensures failed { OnErr result (W.has_failed out.new ≡ true) }
{
    let Some(byte) = sent else {
        return Ok(());
    };
    if let Err(fault) = write_whole(out, &[byte]) {
        return Err(fault);
    }
    told.add(byte);
    Ok(())
}

/// Plays a frame with these buttons, and writes each byte that is sent in it.
pub(crate) fn play_frame<W: Output>(
    machine: Machine,
    buttons: u8,
    told: &mut Told,
    out: &mut W,
) -> Result<PlayedFrame, OutputFailed>
    ensures ok { IfOk result (λ played.
        HasPlayed (seen_in (begun_with buttons machine)) told.old told.new (W.contents out.old) (W.contents out.new)
        played) }
    ensures err { OnErr result
        (AppendsProperPrefix (W.contents out.old) (W.contents out.new) (seen_in (begun_with buttons machine)).sent) }
    ensures failed { OnErr result (W.has_failed out.new ≡ true) }
{
    let mut frame = machine.begin_frame(buttons);
    'playing: while !frame.is_over() {
        let Watched {
            frame: after,
            sent,
            breaks,
        } = frame.run_on();
        frame = after;
        if let Err(fault) = tell(sent, told, out) {
            return Err(fault);
        }
        if breaks {
            return Ok(PlayedFrame {
                frame,
                end: Some(End::Breakpoint),
            });
        }
    }
    let end = end_of(frame.processor());
    Ok(PlayedFrame { frame, end })
}
