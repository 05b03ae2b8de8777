//! Whether a test has passed.

ghost use Rattle.std.specs.Prelude.{◌≡◌, slice_index};
ghost use Rattle.test_run.specs.Verdict.{has_six, is_bad_result, is_breakpoint, is_good_result, verdict_by};

use crate::ends::End;
use sm83_alu::Registers;

/// Whether a test has passed.
#[derive(Clone, Copy, Debug, PartialEq, Eq)]
pub enum Verdict {
    /// It ended at `LD B,B` with B, C, D, E, H and L 3, 5, 8, 13, 21 and 34, by the result 0, or it sent `Passed`; and it is not `Failed`.
    Passed,
    /// It ended at `LD B,B` with these six 42 (hexadecimal), by another result, or it sent `Failed`.
    Failed,
    /// Neither.
    Undecided,
}

fn has_six(registers: &Registers, six: [u8; 6]) -> bool
    ensures { result ≡ has_six (slice_index six 0) (slice_index six 1) (slice_index six 2) (slice_index six 3)
        (slice_index six 4) (slice_index six 5) registers.now }
{
    registers.b == six[0]
        && registers.c == six[1]
        && registers.d == six[2]
        && registers.e == six[3]
        && registers.h == six[4]
        && registers.l == six[5]
}

fn is_breakpoint(why: End) -> bool
    ensures { result ≡ is_breakpoint why }
{
    match why {
        End::Breakpoint => true,
        End::Frames | End::Locked | End::Loop | End::Memory(_) => false,
    }
}

/// Whether it ended by the result of a test that has passed.
fn is_good_result(why: End) -> bool
    ensures { result ≡ is_good_result why }
{
    match why {
        End::Memory(status) => status == 0,
        End::Frames | End::Locked | End::Breakpoint | End::Loop => false,
    }
}

/// Whether it ended by the result of a test that has failed.
fn is_bad_result(why: End) -> bool
    ensures { result ≡ is_bad_result why }
{
    match why {
        End::Memory(status) => status != 0,
        End::Frames | End::Locked | End::Breakpoint | End::Loop => false,
    }
}

/// Whether a test that ended with these registers has passed, where it is known which of the two words it sent.
pub(crate) fn verdict_by(why: End, registers: &Registers, passed: bool, failed: bool) -> Verdict
    ensures { result ≡ verdict_by why registers.now passed failed }
{
    let is_broken_off = is_breakpoint(why);
    if failed || is_bad_result(why) || (is_broken_off && has_six(registers, [0x42; 6])) {
        return Verdict::Failed;
    }
    if passed
        || is_good_result(why)
        || (is_broken_off && has_six(registers, [3, 5, 8, 13, 21, 34]))
    {
        return Verdict::Passed;
    }
    Verdict::Undecided
}
