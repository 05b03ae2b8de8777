//! The addresses whose bytes quiet M-cycles leave as they are, and for how long they leave the others.

ghost use Rattle.std.specs.Prelude.{◌≡◌, true};
ghost use Rattle.memory_map.specs.Lasting.{IsLasting, LastsFor, lasts};

use crate::bus::Bus;
use crate::place::Place;

/// The address of DIV.
const DIV: u16 = 0xff04;

/// The address of TIMA.
const TIMA: u16 = 0xff05;

/// The address of STAT.
const STAT: u16 = 0xff41;

/// The address of LY.
const LY: u16 = 0xff44;

impl Bus {
    /// Whether the byte at this address is sure to be the same after quiet M-cycles.
    pub fn lasts(address: u16) -> bool
        ensures { result ≡ true → IsLasting address }
    {
        lasts(Place::of(address))
    }

    /// A number of M-cycles for which the byte at this address is sure to stay the same, as long as
    /// they are quiet: for LY up to the next line, for STAT up to the next mode, for DIV and TIMA up to
    /// the next count. 65,535 if it stays for all that are quiet, and 0 if nothing is known.
    pub fn lasts_for(&self, address: u16) -> u16
        ensures { LastsFor result address self.now }
    {
        match address {
            LY => self.line_lasts_for(),
            STAT => self.mode_lasts_for(),
            DIV => self.div_lasts_for(),
            TIMA => self.tima_lasts_for(),
            _ => lasts_always(address),
        }
    }
}

fn lasts_always(address: u16) -> u16
    ensures { (b : BusState) → LastsFor result address b }
{
    if Bus::lasts(address) {
        return 65_535;
    }
    0
}

fn lasts(place: Place) -> bool
    ensures { result ≡ lasts place }
{
    match place {
        Place::Cartridge(_)
        | Place::Wram(_)
        | Place::Unused
        | Place::Sound(_)
        | Place::Hram(_)
        | Place::InterruptEnable => true,
        Place::Register(address) => address == 0xff00 || address == 0xff0f,
        Place::Vram(_) | Place::Oam(_) => false,
    }
}

ghost use Rattle.memory_map.specs.State.{BusState};
