//! All lines of a script.

ghost use Rattle.std.specs.Prelude.{◌≡◌, ◌≤◌, length, IfOk, IfErr, IsOk};
ghost use Rattle.std.specs.List.{All};
ghost use Rattle.script.specs.Line.{HasTimes};
ghost use Rattle.script.specs.Script.{CountsMoves, IsRefused, lines_of, moves_from, moves_of};

use crate::cutting::cut;
use crate::error::ScriptError;
use crate::line::read_line;
use crate::moves::Move;
use std::alloc::{AllocError, Global};

const NEWLINE: u8 = b'\n';

/// The most bytes of a script.
const MOST_BYTES: usize = 1_048_576;

/// The moves of a script.
///
/// Lines end with a newline, which the last one may lack, and words are separated by exactly one
/// space. Empty lines are skipped. A line is `frame BB`, `frames BB N`, `seconds N`,
/// `save` or `power`: BB is two hexadecimal digits in either case, N is one to ten decimal digits,
/// 1 to 1,000,000 for `frames` and 0 to 4,294,967,295 for `seconds`, and `frame BB` is
/// `frames BB 1`.
///
/// Refusals: `Script` with the number of the first line that is none of these, counted from 1, or
/// with 0 where the script has more than 1,048,576 bytes; then `Memory`.
pub fn read_script(alloc: Global, script: &[u8]) -> Result<Vec<Move>, ScriptError>
    ensures moves { IfOk result (λ moves. moves_of script.now ≡ Ok moves.items) }
    ensures times { IfOk result (λ moves. All HasTimes moves.items) }
    ensures refused { IfErr result (IsRefused script.now) }
{
    if script.len() > MOST_BYTES {
        return Err(ScriptError::Script(0));
    }
    let count = match count_moves(script) {
        Ok(count) => count,
        Err(number) => return Err(ScriptError::Script(number)),
    };
    match list_moves(alloc, script, count) {
        Ok(moves) => Ok(moves),
        Err(_) => Err(ScriptError::Memory),
    }
}

/// The number of moves, or that of the first wrong line.
fn count_moves(script: &[u8]) -> Result<usize, u32>
    requires { length script.now ≤ 1048576 }
    ensures moves { IfOk result (λ count. CountsMoves count (moves_from 1 (lines_of script.now))) }
    ensures wrong { IfErr result (λ number. moves_from 1 (lines_of script.now) ≡ Err number) }
{
    let mut count = 0;
    let mut number = 1;
    let mut rest = Some(script);
    while let Some(text) = rest {
        let (line, after) = cut(text, NEWLINE);
        if !line.is_empty() {
            match read_line(line) {
                Some(_) => count += 1,
                None => return Err(number),
            }
        }
        number += 1;
        rest = after;
    }
    Ok(count)
}

/// The moves of a script with no wrong line.
fn list_moves(alloc: Global, script: &[u8], count: usize) -> Result<Vec<Move>, AllocError>
    requires { IsOk (moves_from 1 (lines_of script.now)) }
    ensures moves { IfOk result (λ moves. moves_from 1 (lines_of script.now) ≡ Ok moves.items) }
    ensures times { IfOk result (λ moves. All HasTimes moves.items) }
{
    let mut moves = Vec::with_capacity(alloc, count)?;
    let mut rest = Some(script);
    while let Some(text) = rest {
        let (line, after) = cut(text, NEWLINE);
        if !line.is_empty() {
            match read_line(line) {
                Some(next) => moves.push(next)?,
                None => unreachable!(),
            }
        }
        rest = after;
    }
    Ok(moves)
}
