//! Where in time a run is.

ghost use Rattle.std.specs.Prelude.{◌≡◌, ◌+◌, ◌-◌, ◌<◌, ◌≤◌, ◌++◌, codes, decimal};
ghost use Rattle.arrayvec.specs.ArrayString.{array_string_len};
ghost use Rattle.picture_unit.specs.Picture.{mode};
ghost use Rattle.debugging.specs.Position.{position_line, with_cycles, with_frame};

use arrayvec::ArrayString;
use exact_text::number_digits;
use machine::Machine;
use picture_unit::PictureState;

/// The M-cycles of a frame.
const FRAME: u64 = 17_556;

/// What was played since a debugger began. Each count begins anew behind 2^64 - 1.
#[derive(Clone, Copy)]
pub(crate) struct Played {
    /// The M-cycles.
    pub(crate) cycles: u64,
    /// The frames that `frame` and `frames` made.
    pub(crate) frames: u64,
}

/// So many M-cycles more.
pub(crate) fn with_cycles(played: Played, cycles: u64) -> Played
    ensures { result ≡ with_cycles cycles played }
{
    Played {
        cycles: played.cycles.wrapping_add(cycles),
        frames: played.frames,
    }
}

/// A frame more, of so many M-cycles.
pub(crate) fn with_frame(played: Played, cycles: u64) -> Played
    ensures { result ≡ with_frame cycles played }
{
    Played {
        cycles: played.cycles.wrapping_add(cycles),
        frames: played.frames.wrapping_add(1),
    }
}

/// The M-cycles of a frame, by those by which the frame before it was longer than a frame, and those by which it is.
pub(crate) fn frame_cycles(before: u8, after: u8) -> u64
    requires { before < 6 }
    ensures { result ≡ 17556 + after - before }
{
    FRAME + u64::from(after) - u64::from(before)
}

/// Registers and counters of the picture unit.
pub(crate) fn picture_state(machine: &Machine) -> PictureState
    ensures { result ≡ machine.now.processor.memory.picture.picture.state }
{
    machine.state().bus.picture
}

/// The mode, as STAT shows it.
#[tactic(auto, unfolding(picture_unit::specs::Picture::mode, picture_unit::specs::Picture::is_on))]
fn mode_of(picture: &PictureState) -> u8
    ensures { result ≡ mode picture.now }
{
    if picture.lcdc < 128 {
        0
    } else if picture.ly >= 144 {
        1
    } else if picture.m_cycle < 20 {
        2
    } else if picture.m_cycle < 63 {
        3
    } else {
        0
    }
}

/// Room for the answer to `position`.
pub(crate) type PositionLine = ArrayString<128>;

fn push_number(line: &mut PositionLine, number: u64)
    requires { array_string_len line.old + 21 ≤ 128 }
    ensures text { line.new.bytes ≡ line.old.bytes ++ codes " " ++ decimal number }
    ensures len { array_string_len line.new ≤ array_string_len line.old + 21 }
{
    line.push_str(" ");
    line.push_str(number_digits(number).as_str());
}

/// The answer to `position`.
#[tactic(auto, unfolding(crate::specs::Position::position_line))]
pub(crate) fn position_text(played: Played, picture: &PictureState) -> PositionLine
    ensures { result.bytes ≡ position_line played picture.now }
{
    let mut text = ArrayString::new();
    text.push_str("position");
    push_number(&mut text, played.cycles);
    push_number(&mut text, played.frames);
    push_number(&mut text, u64::from(picture.ly));
    push_number(&mut text, u64::from(picture.m_cycle));
    push_number(&mut text, u64::from(mode_of(picture)));
    text.push_str("\n");
    text
}
