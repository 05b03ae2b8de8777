//! Bytes behind a line.
ghost use Rattle.std.specs.Prelude.{◌≡◌, [], ◌<◌, ◌≤◌, length, drop, true};
ghost use Rattle.input_lines.specs.Reading.{left_of};
ghost use Rattle.input_lines.specs.Taking.{HasSkippedBytes, HasTakenBytes};

use crate::filling::{Unread, drop_first};
use crate::input::LineInput;

/// How bytes were taken.
#[derive(Clone, Copy)]
pub enum Taken {
    /// All of them.
    All,
    /// The input ended before them.
    End,
    /// A read failed before they were there.
    Failed,
}

/// Takes as many bytes as the slice has: first of what was read before, then of the input, from which no byte behind them is read. Where the
/// input ends or fails first, those that there are are taken, and what the slice holds is not told.
pub fn take_bytes<R: LineInput>(unread: &mut Unread, input: &mut R, bytes: &mut [u8]) -> Taken
    ensures taken { HasTakenBytes result bytes.new (left_of unread.old.items (R.remaining input.old))
        (left_of unread.new.items (R.remaining input.new)) }
    ensures unread { unread.new.items ≡ drop (length bytes.old) unread.old.items }
    ensures none { (result ≡ Taken.All → ⊥) → unread.new.items ≡ [] }
    ensures room { length bytes.new ≡ length bytes.old }
    ensures failed { result ≡ Taken.Failed → R.has_failed input.new ≡ true }
{
    let there = unread.len().min(bytes.len());
    bytes[..there].copy_from_slice(&unread.as_slice()[..there]);
    drop_first(unread, there);
    let mut filled = there;
    'reading: while filled < bytes.len() {
        match input.read(&mut bytes[filled..]) {
            Ok(0) => return Taken::End,
            Ok(count) => filled += count,
            Err(_) => return Taken::Failed,
        }
    }
    Taken::All
}

/// Takes so many bytes as `take_bytes` does, and drops them.
pub fn skip_bytes<R: LineInput>(unread: &mut Unread, input: &mut R, count: usize) -> Taken
    ensures none { (result ≡ Taken.All → ⊥) → unread.new.items ≡ [] }
    ensures skipped { HasSkippedBytes result count (left_of unread.old.items (R.remaining input.old))
        (left_of unread.new.items (R.remaining input.new)) }
    ensures failed { result ≡ Taken.Failed → R.has_failed input.new ≡ true }
{
    let mut bytes = [0; 1024];
    let mut left = count;
    'skipping: while left > 0 {
        let part = left.min(1024);
        match take_bytes(unread, input, &mut bytes[..part]) {
            Taken::All => left -= part,
            short => return short,
        }
    }
    Taken::All
}
