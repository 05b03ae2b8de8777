//! The next line.
ghost use Rattle.std.specs.Prelude.{◌≡◌, ◌<◌, ◌==◌, length, true};
ghost use Rattle.std.specs.List.{position_or_len};
ghost use Rattle.input_lines.specs.Newlines.{first_line, behind_first_line};
ghost use Rattle.input_lines.specs.Reading.{left_of, IsCut, IsNextLine};

use crate::filling::{Filled, More, Unread, drop_first, fill, line_length, read_more};
use crate::input::LineInput;
use arrayvec::ArrayVec;

/// The most bytes of a line.
const MOST: usize = 512;

/// What comes next.
#[derive(Clone, Debug, Drop)]
pub enum NextLine {
    /// A line, without its newline.
    Line(ArrayVec<u8, 512>),
    /// A line of more than 512 bytes, which was taken too.
    TooLong,
    /// The end of the input.
    End,
    /// A read failed.
    Failed,
}

/// A line, if it is not too long.
fn cut(line: &[u8]) -> NextLine
    ensures { IsCut result line.now }
{
    let mut text = ArrayVec::new();
    match text.try_extend_from_slice(line) {
        Ok(()) => NextLine::Line(text),
        Err(_) => NextLine::TooLong,
    }
}

/// Takes the first line.
fn take_line(unread: &mut Unread) -> NextLine
    ensures cut { IsCut result (first_line unread.old.items) }
    ensures rest { unread.new.items ≡ behind_first_line unread.old.items }
{
    let size = line_length(unread.as_slice());
    let line = cut(&unread.as_slice()[..size]);
    drop_first(unread, size + 1);
    line
}

/// Drops what there is of a line that is too long, and reads up to its newline.
fn skip_line<R: LineInput>(unread: &mut Unread, input: &mut R) -> NextLine
    requires long { 512 < length unread.old.items }
    requires one { position_or_len (λ byte. byte == 10) unread.old.items ≡ length unread.old.items }
    ensures line { IsNextLine result (left_of unread.old.items (R.remaining input.old))
        (left_of unread.new.items (R.remaining input.new))
        (R.remaining input.new) }
    ensures failed { result ≡ NextLine.Failed → R.has_failed input.new ≡ true }
{
    unread.clear();
    'skipping: loop {
        match read_more(unread, input) {
            More::Bytes => {
                if line_length(unread.as_slice()) < unread.len() {
                    let _ = take_line(unread);
                    return NextLine::TooLong;
                }
                unread.clear();
            }
            More::End => return NextLine::TooLong,
            More::Failed => return NextLine::Failed,
        }
    }
}

/// Reads the next line, without its newline: first of what was read before, then of the input. The
/// last line may lack its newline. A line of more than 512 bytes is read up to its newline, or to
/// the end, and is `TooLong`; the line behind it is the next one. `End` is answered when nothing is
/// left. `Failed` is answered when a read fails: what was read of the line until then has no newline;
/// it stays in `unread`, unless it is more than 512 bytes, of which some may be gone.
pub fn next_line<R: LineInput>(unread: &mut Unread, input: &mut R) -> NextLine
    ensures line { IsNextLine result (left_of unread.old.items (R.remaining input.old))
        (left_of unread.new.items (R.remaining input.new))
        (R.remaining input.new) }
    ensures failed { result ≡ NextLine.Failed → R.has_failed input.new ≡ true }
{
    match fill(unread, input, MOST) {
        Filled::Line => {
            if line_length(unread.as_slice()) < unread.len() {
                take_line(unread)
            } else {
                skip_line(unread, input)
            }
        }
        Filled::End => {
            if unread.is_empty() {
                NextLine::End
            } else {
                take_line(unread)
            }
        }
        Filled::Failed => NextLine::Failed,
    }
}
