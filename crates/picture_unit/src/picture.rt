//! The picture unit, which is given all its M-cycles as they pass.

ghost use Rattle.std.specs.Prelude.{◌≡◌, ◌<◌, slice_set, false, not, ◌&&◌, IfOk};

mod clock;
mod contents;

use crate::registers::{LCD_ENABLE, LCDC, LYC, STAT};
use crate::rows::Rows;
use crate::state::PictureState;
use picture_lines::TileMemory;
use std::alloc::{AllocError, Global};
use std::marker::Model;

/// The picture unit, with nothing left to be given to it but the lines that are noted in `rows`.
#[derive(Drop)]
pub(crate) struct Picture {
    state: PictureState,
    tiles: TileMemory,
    oam: Vec<u8>,
    rows: Rows,
}

impl Model for Picture {
    ghost use Rattle.picture_unit.specs.Picture.{PictureUnit, IsWhole};
    ghost use Rattle.picture_unit.specs.LateRows.{rows_of, AreRight};

    ghost Value = { PictureUnit };

    ghost view = { λ p. record {
      state = p.state;
      vram = p.tiles;
      oam = p.oam.items;
      rows = rows_of p.rows p.tiles p.oam.items;
    } };

    ghost invariant = { λ p. record {
      whole : IsWhole p.state p.oam.items (rows_of p.rows p.tiles p.oam.items);
      rows : AreRight p.rows p.tiles p.oam.items;
    } };
}

impl Picture {
    ghost use Rattle.picture_unit.specs.Picture.{unrequested, is_on, stat_signal, evaluated, picture_at_power_on};
    ghost use Rattle.picture_unit.specs.Registers.{register_written, register_stored, lcdc_written, stat_written, lyc_written, switched_off, switched_on};
    ghost use Rattle.picture_unit.specs.Stores.{byte_read, vram_written, oam_written, oam_copied};

    /// The picture unit when the machine is switched on: LCDC 91, BGP FC, OBP0 and OBP1 FF, the
    /// other registers, VRAM, OAM and all shades 0, at the beginning of line 0. Refused if there is
    /// no memory.
    pub(crate) fn new(alloc: Global) -> Result<Picture, AllocError>
        ensures { IfOk result (λ p. p ≡ picture_at_power_on) }
    {
        let tiles = TileMemory::new(alloc)?;
        let oam = Vec::from_elem(alloc, 0u8, 160)?;
        let rows = Rows::new(alloc)?;
        Ok(Picture {
            state: PictureState::at_power_on(),
            tiles,
            oam,
            rows,
        })
    }

    /// A byte of VRAM, in every mode.
    #[tactic(auto, unfolding(crate::specs::Stores::byte_read))]
    pub(crate) fn peek_vram(&self, offset: u16) -> u8
        ensures { result ≡ byte_read false self.now.vram offset }
    {
        let bytes = self.tiles.bytes();
        if offset as usize >= bytes.len() {
            return 0;
        }
        bytes[offset as usize]
    }

    /// Writes a byte of VRAM, by its offset from 8000. The write is ignored in mode 3, and beyond
    /// VRAM.
    #[tactic(auto, unfolding(crate::specs::Stores::vram_written))]
    pub(crate) fn write_vram(&mut self, offset: u16, value: u8)
        ensures { self.new ≡ vram_written offset value self.old }
    {
        if self.state.is_vram_closed() {
            return;
        }
        if offset as usize >= self.tiles.bytes().len() {
            return;
        }
        if self.tiles.byte(offset as usize) == value {
            return;
        }
        self.set_vram(offset as usize, value);
    }

    // Sets a byte of VRAM, in every mode. It is no part of `write_vram`, so that a write of the byte that stands there costs no call.
    #[inline(never)]
    fn set_vram(&mut self, offset: usize, value: u8)
        requires { offset < 8192 }
        ensures { self.new ≡ record self.old { vram = slice_set self.old.vram offset value } }
    {
        self.rows
            .set_late_aside(&mut self.tiles, &self.oam, &self.state);
        self.tiles.write(offset, value);
    }

    /// A byte of OAM, in every mode.
    #[tactic(auto, unfolding(crate::specs::Stores::byte_read))]
    pub(crate) fn peek_oam(&self, offset: u8) -> u8
        ensures { result ≡ byte_read false self.now.oam offset }
    {
        if offset as usize >= self.oam.len() {
            return 0;
        }
        self.oam[offset as usize]
    }

    /// Writes a byte of OAM, by its offset from FE00. The write is ignored in modes 2 and 3, and
    /// beyond OAM.
    #[tactic(auto, unfolding(crate::specs::Stores::oam_written, crate::specs::Stores::oam_copied))]
    pub(crate) fn write_oam(&mut self, offset: u8, value: u8)
        ensures { self.new ≡ oam_written offset value self.old }
    {
        if self.state.is_oam_closed() {
            return;
        }
        self.copy_to_oam(offset, value);
    }

    /// Writes a byte of OAM in every mode, as the object DMA does. Beyond OAM the write is ignored.
    #[tactic(auto, unfolding(crate::specs::Stores::oam_copied))]
    pub(crate) fn copy_to_oam(&mut self, offset: u8, value: u8)
        ensures { self.new ≡ oam_copied offset value self.old }
    {
        if offset as usize >= self.oam.len() {
            return;
        }
        if self.oam[offset as usize] == value {
            return;
        }
        self.rows
            .set_aside_for_objects(&mut self.tiles, &self.oam, &self.state);
        self.oam[offset as usize] = value;
    }

    /// Whether LCDC bit 7 is set: the LCD is on.
    #[inline]
    pub(crate) fn is_on(&self) -> bool
        ensures { result ≡ is_on self.now.state }
    {
        self.state.is_on()
    }

    /// Writes a register, and returns whether that requests the STAT interrupt. LY and every other
    /// address ignore it.
    #[tactic(auto, unfolding(crate::specs::Registers::register_written, crate::specs::Picture::unrequested))]
    pub(crate) fn write_register(&mut self, address: u16, value: u8) -> bool
        ensures picture { self.new
            ≡ (register_written address value (unrequested self.old)).picture }
        ensures stat { result ≡ (register_written address value (unrequested self.old)).stat }
    {
        match address {
            LCDC => self.write_lcdc(value),
            STAT => self.write_stat(value),
            LYC => self.write_lyc(value),
            _ => {
                self.store_register(address, value);
                false
            }
        }
    }

    /// Writes a register that only holds what was written. Every other address ignores it.
    pub(crate) fn store_register(&mut self, address: u16, value: u8)
        ensures { self.new ≡ record self.old { state = register_stored address value self.old.state } }
    {
        self.state.store_register(address, value);
    }

    #[tactic(auto, unfolding(crate::specs::Picture::unrequested, crate::specs::Picture::evaluated))]
    fn write_lcdc(&mut self, value: u8) -> bool
        ensures picture { self.new ≡ (evaluated (unrequested (lcdc_written value self.old))).picture }
        ensures stat { result ≡ (evaluated (unrequested (lcdc_written value self.old))).stat }
    {
        self.store_lcdc(value);
        self.evaluate_signal()
    }

    #[tactic(auto, unfolding(crate::specs::Registers::lcdc_written))]
    fn store_lcdc(&mut self, value: u8)
        ensures { self.new ≡ lcdc_written value self.old }
    {
        let was_on = self.state.is_on();
        if was_on && value < LCD_ENABLE {
            return self.switch_off(value);
        }
        if !was_on && value >= LCD_ENABLE {
            return self.switch_on(value);
        }
        self.state.lcdc = value;
    }

    #[tactic(auto, unfolding(crate::specs::Registers::switched_off, crate::specs::Picture::blank_rows))]
    fn switch_off(&mut self, lcdc: u8)
        ensures { self.new ≡ switched_off lcdc self.old }
    {
        self.state.lcdc = lcdc;
        self.state.ly = 0;
        self.state.m_cycle = 0;
        self.state.window_counter = 0;
        self.state.seen = false;
        self.state.signal = false;
        self.rows.blank();
    }

    #[tactic(auto, unfolding(crate::specs::Registers::switched_on))]
    fn switch_on(&mut self, lcdc: u8)
        ensures { self.new ≡ switched_on lcdc self.old }
    {
        self.state.lcdc = lcdc;
        self.state.ly = 0;
        self.state.m_cycle = 0;
        self.state.window_counter = 0;
        self.state.seen = self.state.wy == 0;
    }

    #[tactic(auto, unfolding(crate::specs::Picture::unrequested, crate::specs::Picture::evaluated, crate::specs::Registers::stat_written))]
    fn write_stat(&mut self, value: u8) -> bool
        ensures picture { self.new ≡ (evaluated (unrequested (stat_written value self.old))).picture }
        ensures stat { result ≡ (evaluated (unrequested (stat_written value self.old))).stat }
    {
        self.state.stat = value / 8 % 16 * 8;
        self.evaluate_signal()
    }

    #[tactic(auto, unfolding(crate::specs::Picture::unrequested, crate::specs::Picture::evaluated, crate::specs::Registers::lyc_written))]
    fn write_lyc(&mut self, value: u8) -> bool
        ensures picture { self.new ≡ (evaluated (unrequested (lyc_written value self.old))).picture }
        ensures stat { result ≡ (evaluated (unrequested (lyc_written value self.old))).stat }
    {
        self.state.lyc = value;
        self.evaluate_signal()
    }

    // Evaluates the STAT signal. Returns whether it rises.
    fn evaluate_signal(&mut self) -> bool
        ensures rises { result ≡ (stat_signal self.old.state && not self.old.state.signal) }
        ensures evaluated { self.new ≡ record self.old {
          state = record self.old.state { signal = stat_signal self.old.state };
        } }
    {
        let signal = self.state.stat_signal();
        let rises = signal && !self.state.signal;
        self.state.signal = signal;
        rises
    }
}
