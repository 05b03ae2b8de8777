//! Addresses before which a run ends.

ghost use Rattle.std.specs.Prelude.{◌≡◌, ◌↔◌, IsTrue};
ghost use Rattle.std.specs.List.{Contains};
ghost use Rattle.debugger.specs.Run.{AreMarked};

use machine::{Processor, Watch};
use memory_map::Bus;
use std::marker::Model;

/// Addresses before which a run ends. The low byte of each is marked, so that most steps look at one
/// mark alone.
#[derive(Drop)]
pub struct Breaks<'a> {
    addresses: &'a [u16],
    marks: [bool; 256],
}

impl<'a> Model for Breaks<'a> {
    ghost use Rattle.std.specs.Prelude.{ℕ, List};
    ghost use Rattle.debugger.specs.Run.{AreMarked};

    ghost Value = { List ℕ };

    ghost view = { λ b. b.addresses.now };

    ghost invariant = { λ b. AreMarked b.marks b.addresses.now };
}

impl<'a> Breaks<'a> {
    /// These addresses.
    pub fn of(addresses: &'a [u16]) -> Breaks<'a>
        ensures { result ≡ addresses.now }
    {
        Breaks {
            addresses,
            marks: marks_of(addresses),
        }
    }

    /// Whether this address is one of them.
    #[inline(always)]
    pub fn has(&self, pc: u16) -> bool
        ensures { IsTrue result ↔ Contains self.now pc }
    {
        if !self.marks[usize::from(pc % 256)] {
            return false;
        }
        is_among(self.addresses, pc)
    }
}

impl<'a> Watch for Breaks<'a> {
    ghost use Rattle.debugger.specs.Run.{IsElsewhere};

    ghost passes = { IsElsewhere };

    #[inline(always)]
    fn may_end(&self, processor: &Processor<Bus>) -> bool {
        self.has(processor.registers.pc)
    }
}

/// Marks the low byte of each of these addresses.
fn marks_of(addresses: &[u16]) -> [bool; 256]
    ensures { AreMarked result addresses.now }
{
    let mut marks = [false; 256];
    for at in addresses {
        marks[usize::from(*at % 256)] = true;
    }
    marks
}

#[inline(never)]
fn is_among(addresses: &[u16], pc: u16) -> bool
    ensures { IsTrue result ↔ Contains addresses.now pc }
{
    addresses.contains(&pc)
}
