//! What the bus holds: its registers, its stores of bytes and the rows of the picture.

ghost use Rattle.std.specs.Prelude.{◌≡◌, ◌<◌, length, All, Some, slice_get, slice_set};
ghost use Rattle.std.specs.Fn.{iterate};
ghost use Rattle.bank_controllers.specs.CartridgeState.{second};
ghost use Rattle.memory_map.specs.Stores.{without_memory, restored, AreLegalFor, region_of, region_filled, FitsRegion};

use super::clock::clock_of;
use super::{Bus, NOTHING_KNOWN};
use crate::bus_without_memory::BusWithoutMemory;
use crate::region::Region;
use picture_unit::{LatePicture, PictureRegion};

impl Bus {
    /// What a snapshot holds of the registers; each field is legal for this cartridge.
    pub fn state(&self) -> BusWithoutMemory
        ensures state { result ≡ without_memory self.now }
        ensures legal { AreLegalFor self.now.banks result }
        ensures rows { length self.now.picture.picture.rows ≡ 144 }
    {
        BusWithoutMemory {
            ie: self.control.ie,
            interrupt_flag: self.interrupt_flag(),
            buttons: self.control.buttons,
            p1_select: self.control.p1_select,
            timer: self.timer.copy_at(self.clock).state(),
            serial: self.serial.state(),
            dma: self.control.dma,
            dma_copied: self.control.dma_copied,
            picture: self.picture.state(),
            banks: self.banks.state(),
        }
    }

    /// Sets the registers. Condition: they are legal for this cartridge.
    pub fn restore(&mut self, state: &BusWithoutMemory)
        requires { AreLegalFor self.old.banks state.now }
        ensures { self.new ≡ restored state.now self.old }
    {
        self.calm_until = NOTHING_KNOWN;
        self.quiet_until = NOTHING_KNOWN;
        self.serial.restore(&state.serial);
        self.picture.restore(&state.picture);
        self.clock = clock_of(&self.picture);
        self.timer.restore(self.clock, &state.timer);
        self.banks.restore(&state.banks);
        self.control.ie = state.ie;
        self.control.buttons = state.buttons;
        self.control.p1_select = state.p1_select;
        self.control.dma = state.dma;
        self.control.dma_copied = state.dma_copied;
        self.set_interrupt_flag(state.interrupt_flag);
    }

    /// The bytes of a region.
    #[tactic(auto, unfolding(picture_unit::specs::Stores::region_of, picture_unit::specs::Stores::region_length))]
    pub fn region(&self, region: Region) -> &[u8]
        ensures bytes { result.now ≡ region_of self.now region }
        ensures fit { FitsRegion self.now region result.now }
    {
        match region {
            Region::Vram => self.picture.region(PictureRegion::Vram),
            Region::Wram => &self.wram,
            Region::Oam => self.picture.region(PictureRegion::Oam),
            Region::Hram => &self.hram,
            Region::Sound => &self.sound,
            Region::CartRam => self.banks.ram(),
        }
    }

    /// Sets all bytes of a region. Condition: there are as many as the region has, and for the RAM
    /// of MBC2 each is below 16.
    #[tactic(auto, unfolding(picture_unit::specs::Stores::region_filled, picture_unit::specs::Stores::region_length))]
    pub fn fill(&mut self, region: Region, bytes: &[u8])
        requires { FitsRegion self.old region bytes.now }
        ensures { self.new ≡ region_filled region bytes.now self.old }
    {
        match region {
            Region::Vram => {
                self.calm_until = NOTHING_KNOWN;
                self.quiet_until = NOTHING_KNOWN;
                self.picture.fill(PictureRegion::Vram, bytes);
            }
            Region::Wram => self.wram.as_mut_slice().copy_from_slice(bytes),
            Region::Oam => {
                self.calm_until = NOTHING_KNOWN;
                self.quiet_until = NOTHING_KNOWN;
                self.picture.fill(PictureRegion::Oam, bytes);
            }
            Region::Hram => self.hram.copy_from_slice(bytes),
            Region::Sound => self.sound.copy_from_slice(bytes),
            Region::CartRam => self.banks.fill(bytes),
        }
    }

    /// A read-only view of the picture unit.
    pub fn picture(&self) -> &LatePicture
        ensures { result.now ≡ self.now.picture.picture }
    {
        &self.picture
    }

    /// Gives the picture unit the M-cycles that it is late. No value changes, but reads of its
    /// registers are then quick.
    pub fn catch_up(&mut self)
        ensures { self.new ≡ self.old }
    {
        self.picture.catch_up();
    }

    /// Catches up, and draws the lines of the picture that were only noted when they were due. No
    /// value changes: the rows are then read quickly.
    pub fn draw_late(&mut self)
        ensures { self.new ≡ self.old }
    {
        self.picture.draw_late();
    }

    /// Sets the shades of a row of the picture. Condition: the row is below 144, and each shade is
    /// at most 3.
    pub fn set_row(&mut self, y: usize, row: &[u8; 160])
        requires y_in { y < 144 }
        requires shades { All (λ shade. shade < 4) row.now }
        ensures { self.new ≡ record self.old {
          picture = record self.old.picture {
            picture = record self.old.picture.picture { rows = slice_set self.old.picture.picture.rows y row.now };
          };
        } }
    {
        self.picture.set_row(y, row);
    }

    /// Lets this many seconds pass on the clock of an MBC3; without a clock nothing changes.
    pub fn pass_seconds(&mut self, seconds: u32)
        ensures { self.new ≡ record self.old { banks = iterate second seconds self.old.banks } }
    {
        self.banks.pass_seconds(seconds);
    }
}
