//! Reading until a line is there.
ghost use Rattle.std.specs.Prelude.{◌≡◌, ◌≤◌, ◌<◌, ◌==◌, [], length, drop, true};
ghost use Rattle.std.specs.List.{position, position_or_len};
ghost use Rattle.std.specs.Io.KnownBytes.{Consumes};
ghost use Rattle.input_lines.specs.Reading.{left_of, HasReadMore, IsFilled, IsLineThere};

use crate::input::LineInput;
use arrayvec::ArrayVec;

const NEWLINE: u8 = b'\n';

/// What was read and not yet taken.
pub type Unread = ArrayVec<u8, 1408>;

/// How a read went.
#[derive(Clone, Copy)]
pub enum More {
    Bytes,
    End,
    Failed,
}

/// Why no more is read now.
#[derive(Clone, Copy)]
pub enum Filled {
    /// There is a whole line, or more than a line may have.
    Line,
    /// The input is at its end, and no newline is there.
    End,
    /// A read failed, and no newline is there.
    Failed,
}

/// The index of the first newline.
fn place_of_newline(bytes: &[u8]) -> Option<usize>
    ensures { result ≡ position (λ byte. byte == 10) bytes.now }
{
    bytes.iter().position(|byte| *byte == NEWLINE)
}

/// The length of the first line, without its newline: all bytes if there is no newline.
pub fn line_length(bytes: &[u8]) -> usize
    ensures { result ≡ position_or_len (λ byte. byte == 10) bytes.now }
{
    match place_of_newline(bytes) {
        Some(at) => at,
        None => bytes.len(),
    }
}

/// One read.
pub(crate) fn read_more<R: LineInput>(unread: &mut Unread, input: &mut R) -> More
    requires { length unread.old.items ≤ 512 }
    ensures left { Consumes (left_of unread.old.items (R.remaining input.old))
        (left_of unread.new.items (R.remaining input.new)) [] }
    ensures more { HasReadMore result unread.old.items unread.new.items (R.remaining input.new) }
    ensures failed { result ≡ More.Failed → R.has_failed input.new ≡ true }
    ensures fewer { result ≡ More.Bytes → R.reads_left input.new < R.reads_left input.old }
{
    let mut bytes = [0; 896];
    match input.read(&mut bytes) {
        Ok(0) => More::End,
        Ok(count) => match unread.try_extend_from_slice(&bytes[..count]) {
            Ok(()) => More::Bytes,
            Err(_) => unreachable!(),
        },
        Err(_) => More::Failed,
    }
}

/// Reads until a whole line is there, or more than `most` bytes, the most that a line may have. Up
/// to 896 bytes are read at once, and nothing is read if that much is there at first. What was
/// read stays in `unread`, also where the input ends or fails.
pub fn fill<R: LineInput>(unread: &mut Unread, input: &mut R, most: usize) -> Filled
    requires { most ≤ 512 }
    ensures left { Consumes (left_of unread.old.items (R.remaining input.old))
        (left_of unread.new.items (R.remaining input.new)) [] }
    ensures filled { IsFilled result most unread.new.items (R.remaining input.new) }
    ensures failed { result ≡ Filled.Failed → R.has_failed input.new ≡ true }
    ensures nothing { IsLineThere most unread.old.items → (unread.new ≡ unread.old) × (input.new ≡ input.old) }
{
    'filling: while unread.len() <= most && line_length(unread.as_slice()) == unread.len() {
        match read_more(unread, input) {
            More::Bytes => {}
            More::End => return Filled::End,
            More::Failed => return Filled::Failed,
        }
    }
    Filled::Line
}

/// Drops the first `count` bytes, or all if there are fewer.
pub fn drop_first(unread: &mut Unread, count: usize)
    ensures { unread.new.items ≡ drop count unread.old.items }
{
    let mut rest = ArrayVec::new();
    if count < unread.len() {
        match rest.try_extend_from_slice(&unread.as_slice()[count..]) {
            Ok(()) => {}
            Err(_) => unreachable!(),
        }
    }
    *unread = rest;
}
