//! The loops of fast steps: one for each place of PC, and each caller has its own.
//!
//! The match on all opcodes is compiled into a loop only while no other loop calls the same copy of it: else the copy is a function of its
//! own that both call, of which the compiler says nothing, and a frame of sums costs 737,000 instructions of the host in place of 314,000.
//! A copy is named by the caller, a type, and by the place, a number. So each caller has a type that no other caller gives; that of steps
//! up to a watch is the watch. `make test` looks at what ships (`scripts/shipped.py`).

use sm83_processor::FIRST_OWN_LOOP;

/// The lower half of ROM.
pub(crate) const IN_LOWER_ROM: u8 = FIRST_OWN_LOOP;

/// The upper half of ROM.
pub(crate) const IN_UPPER_ROM: u8 = FIRST_OWN_LOOP + 1;

/// WRAM.
pub(crate) const IN_WRAM: u8 = FIRST_OWN_LOOP + 2;

/// HRAM.
pub(crate) const IN_HRAM: u8 = FIRST_OWN_LOOP + 3;

/// All that lies above ROM.
pub(crate) const ABOVE_ROM: u8 = FIRST_OWN_LOOP + 4;

/// The loops of a frame.
pub(crate) struct FrameLoops;

/// The loops of steps that are counted.
pub(crate) struct CountedLoops;

/// The loops of a frame in which it is seen what the serial port sends.
pub(crate) struct WatchedLoops;

/// Whether PC is where this loop runs: where all bytes of an instruction lie in the lower half of ROM,
/// in the upper half, in WRAM, in HRAM, or above ROM. A loop that runs only there need not test it for
/// each byte.
#[inline(always)]
pub(crate) fn is_there<const LOOP: u8>(pc: u16) -> bool {
    if LOOP == IN_LOWER_ROM {
        pc < 0x3ffe
    } else if LOOP == IN_UPPER_ROM {
        pc >= 0x4000 && pc < 0x7ffe
    } else if LOOP == IN_WRAM {
        pc >= 0xc000 && pc < 0xdffe
    } else if LOOP == IN_HRAM {
        pc >= 0xff80 && pc < 0xfffd
    } else {
        pc >= 0x8000
    }
}
