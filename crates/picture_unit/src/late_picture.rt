//! The picture unit, which is given its M-cycles late.

ghost use Rattle.std.specs.Prelude.{◌≡◌, false, true, IfOk, OnOk, OnErr};

mod clock;
mod contents;

use crate::pgm::write_rows;
use crate::picture::Picture;
use crate::registers::{LCDC, LYC, STAT};
use crate::state::PictureState;
use exact_text::{Output, OutputFailed};
use std::alloc::{AllocError, Global};
use std::marker::Model;

/// The picture unit: registers and counters, VRAM, OAM and the rows of shades (Pan Docs,
/// "Rendering").
///
/// Contracts see it as a `PictureUnit`: the state that a snapshot holds, the bytes of VRAM and OAM, and
/// 144 rows of 160 shades from 0 to 3. Time is counted in M-cycles, with 114 per line and 154 lines
/// per frame. `new` allocates all the memory that it needs, and no other call takes memory.
#[derive(Drop)]
pub struct LatePicture {
    // The picture unit as it was when it was last given its M-cycles.
    picture: Picture,
    // The M-cycle of the frame. Those since then are quiet: they requested nothing, and the frame did not end. While the LCD is off,
    // when no M-cycle changes anything, it is counted on and means nothing.
    frame_cycle: u16,
    // Those up to this one are known to be quiet too.
    quiet_until: u16,
}

impl Model for LatePicture {
    ghost use Rattle.picture_unit.specs.Picture.{PictureUnit};
    ghost use Rattle.picture_unit.specs.LatePicture.{moment, up_to, IsLate};

    ghost Value = { PictureUnit };

    ghost view = { λ p. up_to (moment p.frame_cycle p.picture) p.picture };

    ghost invariant = { λ p. IsLate (moment p.frame_cycle p.picture) p.quiet_until p.picture };
}

impl LatePicture {
    ghost use Rattle.std.specs.Io.KnownBytes.{Appends};
    ghost use Rattle.exact_text.specs.Written.{AppendsProperPrefix};
    ghost use Rattle.picture_unit.specs.Picture.{unrequested, is_on, picture_at_power_on, IsLegalPicture};
    ghost use Rattle.picture_unit.specs.PictureJump.{next_entry};
    ghost use Rattle.picture_unit.specs.Registers.{register_value, register_written, register_stored};
    ghost use Rattle.picture_unit.specs.Stores.{is_vram_closed, is_oam_closed, byte_read, vram_written, oam_written, oam_copied};
    ghost use Rattle.picture_unit.specs.Pgm.{picture_text};
    ghost use Rattle.picture_unit.specs.Quiet.{AreQuiet};

    /// The picture unit when the machine is switched on: LCDC 91, BGP FC, OBP0 and OBP1 FF, the
    /// other registers, VRAM, OAM and all shades 0, at the beginning of line 0. Refused if there is
    /// no memory.
    pub fn new(alloc: Global) -> Result<LatePicture, AllocError>
        ensures { IfOk result (λ p. p ≡ picture_at_power_on) }
    {
        let picture = Picture::new(alloc)?;
        let frame_cycle = picture.frame_cycle();
        Ok(LatePicture {
            picture,
            frame_cycle,
            quiet_until: 0,
        })
    }

    /// A byte of VRAM, by its offset from 8000. Mode 3 closes VRAM: it reads FF. Beyond VRAM it
    /// reads 00.
    #[tactic(auto, unfolding(crate::specs::Stores::byte_read))]
    pub fn read_vram(&self, offset: u16) -> u8
        ensures { result ≡ byte_read (is_vram_closed self.now.state) self.now.vram offset }
    {
        if self.registers_now().is_vram_closed() {
            return 0xff;
        }
        self.peek_vram(offset)
    }

    /// A byte of VRAM, in every mode.
    pub fn peek_vram(&self, offset: u16) -> u8
        ensures { result ≡ byte_read false self.now.vram offset }
    {
        self.picture.peek_vram(offset)
    }

    /// Writes a byte of VRAM, by its offset from 8000. The write is ignored in mode 3, and beyond
    /// VRAM.
    pub fn write_vram(&mut self, offset: u16, value: u8)
        ensures { self.new ≡ vram_written offset value self.old }
    {
        self.picture.pass_to(self.frame_cycle);
        self.picture.write_vram(offset, value);
        self.frame_cycle = self.picture.frame_cycle();
    }

    /// A byte of OAM, by its offset from FE00. Modes 2 and 3 close OAM: it reads FF. Beyond OAM it
    /// reads 00.
    #[tactic(auto, unfolding(crate::specs::Stores::byte_read))]
    pub fn read_oam(&self, offset: u8) -> u8
        ensures { result ≡ byte_read (is_oam_closed self.now.state) self.now.oam offset }
    {
        if self.registers_now().is_oam_closed() {
            return 0xff;
        }
        self.peek_oam(offset)
    }

    /// A byte of OAM, in every mode.
    pub fn peek_oam(&self, offset: u8) -> u8
        ensures { result ≡ byte_read false self.now.oam offset }
    {
        self.picture.peek_oam(offset)
    }

    /// Writes a byte of OAM, by its offset from FE00. The write is ignored in modes 2 and 3, and
    /// beyond OAM.
    pub fn write_oam(&mut self, offset: u8, value: u8)
        ensures { self.new ≡ oam_written offset value self.old }
    {
        self.picture.pass_to(self.frame_cycle);
        self.picture.write_oam(offset, value);
        self.frame_cycle = self.picture.frame_cycle();
    }

    /// Writes a byte of OAM in every mode, as the object DMA does. Beyond OAM the write is ignored.
    pub fn copy_to_oam(&mut self, offset: u8, value: u8)
        ensures { self.new ≡ oam_copied offset value self.old }
    {
        if self.picture.peek_oam(offset) == value {
            return;
        }
        self.picture.pass_to(self.frame_cycle);
        self.picture.copy_to_oam(offset, value);
        self.frame_cycle = self.picture.frame_cycle();
    }

    /// Whether LCDC bit 7 is set: the LCD is on.
    #[inline]
    pub fn is_on(&self) -> bool
        ensures { result ≡ is_on self.now.state }
    {
        self.picture.is_on()
    }

    /// What a register reads: FF40 LCDC, FF41 STAT, FF42 SCY, FF43 SCX, FF44 LY, FF45 LYC, FF47
    /// BGP, FF48 OBP0, FF49 OBP1, FF4A WY, FF4B WX. Every other address reads FF.
    pub fn read_register(&self, address: u16) -> u8
        ensures { result ≡ register_value self.now.state address }
    {
        self.registers_now().register(address)
    }

    /// Writes a register, and returns whether that requests the STAT interrupt. LY and every other
    /// address ignore it.
    #[tactic(auto, unfolding(crate::specs::Registers::register_written, crate::specs::Picture::unrequested))]
    pub fn write_register(&mut self, address: u16, value: u8) -> bool
        ensures picture { self.new
            ≡ (register_written address value (unrequested self.old)).picture }
        ensures stat { result ≡ (register_written address value (unrequested self.old)).stat }
    {
        match address {
            LCDC | STAT | LYC => self.write_signal_register(address, value),
            _ => {
                self.store_register(address, value);
                false
            }
        }
    }

    // LCDC, STAT or LYC is written: the signal is evaluated, and how long the M-cycles are quiet has to be found anew.
    fn write_signal_register(&mut self, address: u16, value: u8) -> bool
        ensures picture { self.new
            ≡ (register_written address value (unrequested self.old)).picture }
        ensures stat { result ≡ (register_written address value (unrequested self.old)).stat }
    {
        self.picture.pass_to(self.frame_cycle);
        let requested = self.picture.write_register(address, value);
        self.frame_cycle = self.picture.frame_cycle();
        self.quiet_until = 0;
        requested
    }

    /// Writes a register that only holds what was written: SCY, SCX, BGP, OBP0, OBP1, WY or WX. What was quiet stays so. Every other
    /// address ignores it.
    pub fn store_register(&mut self, address: u16, value: u8)
        ensures stored { self.new ≡ record self.old { state = register_stored address value self.old.state } }
        ensures quiet { (n : ℕ) → AreQuiet n self.old.state → AreQuiet n self.new.state }
    {
        self.picture.pass_to(self.frame_cycle);
        self.picture.store_register(address, value);
        self.frame_cycle = self.picture.frame_cycle();
    }

    /// Writes the picture as plain PGM: `P2`, `160 144`, `3`, then each row as five lines of 32
    /// values, 3 minus the shade. Refused if a write fails: a proper prefix of the text went out.
    pub fn write_pgm<W: Output>(&self, out: &mut W) -> Result<(), OutputFailed>
        ensures ok { OnOk result
            (Appends (W.contents out.old) (W.contents out.new) (picture_text self.now.rows)) }
        ensures err { OnErr result (AppendsProperPrefix
            (W.contents out.old) (W.contents out.new) (picture_text self.now.rows)) }
        ensures failed { OnErr result (W.has_failed out.new ≡ true) }
    {
        write_rows(self, out)
    }

    /// The registers, LY and the M-cycle of the line as they are now; what no register shows is as it was.
    #[inline]
    fn registers_now(&self) -> PictureState
        ensures legal { IsLegalPicture result }
        ensures legal_now { IsLegalPicture self.now.state }
        ensures on { is_on result ≡ is_on self.now.state }
        ensures vram { is_vram_closed result ≡ is_vram_closed self.now.state }
        ensures oam { is_oam_closed result ≡ is_oam_closed self.now.state }
        ensures registers { (address : ℕ) → register_value result address ≡ register_value self.now.state address }
        ensures entry { next_entry result ≡ next_entry self.now.state }
    {
        self.picture.state().at(self.frame_cycle())
    }
}

ghost use Rattle.std.specs.Prelude.{ℕ};
