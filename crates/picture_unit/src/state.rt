//! The registers and counters of the picture unit.

ghost use Rattle.std.specs.Prelude.{◌≡◌, ◌+◌, ◌%◌, ◌<◌, ◌≤◌, true, Some, None, if◌then◌else◌};

use crate::registers::{
    BGP, LCD_ENABLE, LCDC, LY, LYC, LYC_SELECT, MODE_0_SELECT, MODE_1_SELECT, MODE_2_SELECT, OBP0,
    OBP1, SCX, SCY, STAT, WX, WY,
};
use picture_lines::LineRegisters;

/// The M-cycles of a frame.
const FRAME: u16 = 17_556;

/// The M-cycle of the frame with which VBlank begins.
const VBLANK: u16 = 16_416;

/// The registers and counters of the picture unit: what a snapshot holds of it besides VRAM, OAM
/// and the rows of shades. It is legal if STAT has no bits other than 6 to 3, LY is below 154 and
/// the M-cycle is below 114.
#[derive(Clone, Copy, PartialEq, Eq)]
pub struct PictureState {
    /// FF40: bit 7 on, 6 window map 9C00, 5 window, 4 tile data from 8000, 3 background map 9C00, 2
    /// objects 8x16, 1 objects, 0 background and window.
    pub lcdc: u8,
    /// The writable bits of FF41, the sources of the STAT signal: 6 LY = LYC, 5 mode 2, 4 mode 1, 3
    /// mode 0.
    pub stat: u8,
    /// FF42, the row of the background map at the top of the screen.
    pub scy: u8,
    /// FF43, the column of the background map at the left of the screen.
    pub scx: u8,
    /// FF45, the line that LY is compared with.
    pub lyc: u8,
    /// FF47, the shades of the background's four colours, two bits each, colour 0 lowest.
    pub bgp: u8,
    /// FF48, the same for objects.
    pub obp0: u8,
    /// FF49, the same for objects with bit 4 of their attributes.
    pub obp1: u8,
    /// FF4A, the line at which the window is seen.
    pub wy: u8,
    /// FF4B, 7 more than the left column of the window.
    pub wx: u8,
    /// FF44, the line, 0 to 153.
    pub ly: u8,
    /// The M-cycle of the line, 0 to 113.
    pub m_cycle: u8,
    /// The window counter: the row of the window that is drawn next.
    pub window_counter: u8,
    /// Whether LY has equalled WY on entry to a line of this frame.
    pub seen: bool,
    /// The STAT signal as last evaluated.
    pub signal: bool,
}

/// The interrupts that the picture unit requests.
#[derive(Clone, Copy)]
pub struct PictureRequests {
    /// VBlank, bit 0 of IF.
    pub vblank: bool,
    /// STAT, bit 1 of IF.
    pub stat: bool,
}

impl PictureState {
    ghost use Rattle.picture_unit.specs.Picture.{IsLegalPicture, is_on, mode, stat_signal, advanced, entered, begins_vblank, draws, drawn, line_registers, state_at_power_on};
    ghost use Rattle.picture_unit.specs.Stores.{is_vram_closed, is_oam_closed};
    ghost use Rattle.picture_unit.specs.Laws.{frame_cycle};
    ghost use Rattle.picture_unit.specs.LatePicture.{state_after, at_cycle, line_drawn_next, begins_line, begins_mode_2, begins_mode_0, NoneBefore};
    ghost use Rattle.picture_unit.specs.Quiet.{bare, AreQuiet};
    ghost use Rattle.picture_unit.specs.PictureJump.{next_entry, next_change};
    ghost use Rattle.picture_unit.specs.Registers.{stat_value, register_value, register_stored};

    #[tactic(auto, unfolding(crate::specs::Picture::state_at_power_on))]
    pub(crate) fn at_power_on() -> Self
        ensures { result ≡ state_at_power_on }
    {
        PictureState {
            lcdc: 0x91,
            stat: 0,
            scy: 0,
            scx: 0,
            lyc: 0,
            bgp: 0xfc,
            obp0: 0xff,
            obp1: 0xff,
            wy: 0,
            wx: 0,
            ly: 0,
            m_cycle: 0,
            window_counter: 0,
            seen: true,
            signal: false,
        }
    }

    #[tactic(auto, unfolding(crate::specs::Picture::is_on))]
    pub(crate) fn is_on(&self) -> bool
        ensures { result ≡ is_on self.now }
    {
        self.lcdc >= LCD_ENABLE
    }

    #[tactic(auto, unfolding(crate::specs::Picture::mode))]
    pub(crate) fn mode(&self) -> u8
        ensures value { result ≡ mode self.now }
        ensures small { result ≤ 3 }
    {
        if !self.is_on() {
            0
        } else if self.ly >= 144 {
            1
        } else if self.m_cycle < 20 {
            2
        } else if self.m_cycle < 63 {
            3
        } else {
            0
        }
    }

    /// The STAT signal.
    #[inline]
    #[tactic(auto, unfolding(crate::specs::Picture::stat_signal, crate::specs::Picture::is_source, picture_lines::specs::Bits::has_bit))]
    pub(crate) fn stat_signal(&self) -> bool
        ensures { result ≡ stat_signal self.now }
    {
        if self.stat == 0 {
            return false;
        }
        if !self.is_on() {
            return false;
        }
        is_source(self.stat, self.mode(), self.ly == self.lyc)
    }

    /// Moves on to the next M-cycle of the line, and of the frame.
    #[inline(always)]
    #[tactic(auto, unfolding(crate::specs::Picture::advanced, crate::specs::Picture::entered))]
    pub(crate) fn advance(&mut self)
        requires { IsLegalPicture self.old }
        ensures moved { self.new ≡ entered (advanced self.old) }
        ensures legal { IsLegalPicture self.new }
    {
        if self.m_cycle == 113 {
            self.m_cycle = 0;
            self.ly = if self.ly == 153 { 0 } else { self.ly + 1 };
            self.enter_line();
        } else {
            self.m_cycle += 1;
        }
    }

    #[tactic(auto, unfolding(crate::specs::Picture::entered))]
    fn enter_line(&mut self)
        requires { self.old.m_cycle ≡ 0 }
        ensures { self.new ≡ entered self.old }
    {
        if self.ly == 0 {
            self.window_counter = 0;
            self.seen = false;
        }
        if self.ly < 144 && self.wy == self.ly {
            self.seen = true;
        }
    }

    // The line that was due last: if one alone is late, then mostly this one.
    pub(crate) fn line_before(&self) -> usize
        ensures { result < 144 }
    {
        let line = usize::from(self.ly);
        if self.m_cycle >= 20 {
            line.min(143)
        } else if line > 0 {
            line.min(144) - 1
        } else {
            143
        }
    }

    #[tactic(auto, unfolding(crate::specs::Picture::begins_vblank))]
    pub(crate) fn begins_vblank(&self) -> bool
        ensures { result ≡ begins_vblank self.now }
    {
        self.m_cycle == 0 && self.ly == 144
    }

    #[tactic(auto, unfolding(crate::specs::Picture::draws))]
    pub(crate) fn draws(&self) -> bool
        ensures { result ≡ draws self.now }
    {
        self.m_cycle == 20 && self.ly < 144
    }

    /// Whether mode 3 closes VRAM.
    #[tactic(auto, unfolding(crate::specs::Stores::is_vram_closed))]
    pub(crate) fn is_vram_closed(&self) -> bool
        ensures { result ≡ is_vram_closed self.now }
    {
        self.mode() == 3
    }

    /// Whether mode 2 or 3 closes OAM.
    #[tactic(auto, unfolding(crate::specs::Stores::is_oam_closed))]
    pub(crate) fn is_oam_closed(&self) -> bool
        ensures { result ≡ is_oam_closed self.now }
    {
        let mode = self.mode();
        mode == 2 || mode == 3
    }

    /// The M-cycle of the frame.
    pub(crate) fn frame_cycle(&self) -> u16
        ensures { result ≡ frame_cycle self.now }
    {
        114 * u16::from(self.ly) + u16::from(self.m_cycle)
    }

    /// This state, moved to another M-cycle of the frame.
    pub(crate) fn at(&self, now: u16) -> PictureState
        requires { now < 17556 }
        ensures { result ≡ at_cycle now self.now }
    {
        let mut state = *self;
        state.ly = (now / 114) as u8;
        state.m_cycle = (now % 114) as u8;
        state
    }

    /// One M-cycle. If the line is drawn in it, returns the registers that it is drawn by.
    #[tactic(auto, unfolding(crate::specs::Picture::tick, crate::specs::Picture::evaluated, crate::specs::Picture::moved, crate::specs::Picture::drawn, crate::specs::Picture::line_drawn, crate::specs::Picture::window_counter_after, crate::specs::Picture::unrequested, crate::specs::LatePicture::line_drawn_next))]
    pub(crate) fn tick(&mut self) -> Option<LineRegisters>
        requires { IsLegalPicture self.old }
        ensures state { self.new ≡ state_after 1 self.old }
        ensures legal { IsLegalPicture self.new }
        ensures line { result ≡ line_drawn_next self.old }
    {
        if !self.is_on() {
            return None;
        }
        self.advance();
        let line = self.line_due();
        self.signal = self.stat_signal();
        line
    }

    /// The state after this many M-cycles.
    pub(crate) fn after(&self, cycles: u16) -> PictureState
        requires { IsLegalPicture self.now }
        ensures state { result ≡ state_after cycles self.now }
        ensures legal { IsLegalPicture result }
    {
        let mut state = *self;
        for _cycle in 0..cycles {
            let _ = state.tick();
        }
        state
    }

    /// If the line is drawn in this M-cycle, counts the row of the window and returns the registers that the line is drawn by.
    #[tactic(auto, unfolding(crate::specs::Picture::drawn, crate::specs::Picture::line_drawn, crate::specs::Picture::window_counter_after))]
    fn line_due(&mut self) -> Option<LineRegisters>
        requires { IsLegalPicture self.old }
        ensures state { self.new ≡ (drawn (bare self.old)).state }
        ensures legal { IsLegalPicture self.new }
        ensures line { result ≡ (if draws self.old then Some (line_registers self.old) else None) }
    {
        if !self.draws() {
            return None;
        }
        let by = self.line_registers();
        if by.is_window_drawn() {
            self.window_counter = self.window_counter.wrapping_add(1);
        }
        Some(by)
    }

    /// A number of M-cycles in which nothing is requested and the frame does not end: up to the one with which a source begins that STAT
    /// enables, to VBlank or to the end of the frame.
    pub(crate) fn quiet(&self) -> u16
        requires { IsLegalPicture self.now }
        ensures quiet { AreQuiet result self.now }
        ensures frame { frame_cycle self.now + result < 17556 }
    {
        if !self.is_on() || self.stat_signal() != self.signal {
            return 0;
        }
        let now = self.frame_cycle();
        let source = self
            .line_begins(now)
            .min(self.mode_2_begins())
            .min(self.mode_0_begins());
        source.min(self.vblank_or_end()) - 1 - now
    }

    // The M-cycle of the frame with which line LYC begins, or the end of the frame if STAT does not enable that source or the line has
    // begun already.
    fn line_begins(&self, now: u16) -> u16
        requires legal { IsLegalPicture self.now }
        requires now { now ≡ frame_cycle self.now }
        ensures ahead { now < result }
        ensures first { NoneBefore begins_line now result self.now }
    {
        let at = 114 * u16::from(self.lyc);
        if self.stat / LYC_SELECT % 2 == 0 || at <= now {
            return FRAME;
        }
        at
    }

    // The M-cycle of the frame with which mode 2 next begins, or the end of the frame if STAT does not enable that source or none begins.
    fn mode_2_begins(&self) -> u16
        requires legal { IsLegalPicture self.now }
        ensures ahead { frame_cycle self.now < result }
        ensures first { NoneBefore begins_mode_2 (frame_cycle self.now) result self.now }
    {
        if self.stat / MODE_2_SELECT % 2 == 0 || self.ly >= 143 {
            return FRAME;
        }
        114 * (u16::from(self.ly) + 1)
    }

    // The M-cycle of the frame with which mode 0 next begins, or the end of the frame if STAT does not enable that source or none begins.
    fn mode_0_begins(&self) -> u16
        requires legal { IsLegalPicture self.now }
        ensures ahead { frame_cycle self.now < result }
        ensures first { NoneBefore begins_mode_0 (frame_cycle self.now) result self.now }
    {
        if self.stat / MODE_0_SELECT % 2 == 0 || self.ly >= 144 {
            return FRAME;
        }
        let at = 114 * u16::from(self.ly) + 63;
        if self.m_cycle < 63 { at } else { at + 114 }
    }

    // The M-cycle of the frame with which VBlank begins, or the end of the frame if it has begun.
    fn vblank_or_end(&self) -> u16
        requires { IsLegalPicture self.now }
        ensures ahead { frame_cycle self.now < result }
        ensures within { result ≤ 17556 }
        ensures vblank { frame_cycle self.now < 16416 → result ≤ 16416 }
    {
        if self.ly < 144 { VBLANK } else { FRAME }
    }

    /// How many M-cycles away the next line, mode 3 or mode 0 is.
    #[tactic(auto, unfolding(crate::specs::PictureJump::next_entry))]
    pub(crate) fn next_entry(&self) -> u8
        requires { self.now.m_cycle < 114 }
        ensures entry { result ≡ next_entry self.now }
        ensures ahead { 0 < result }
    {
        if self.ly >= 144 || self.m_cycle >= 63 {
            114 - self.m_cycle
        } else if self.m_cycle < 20 {
            20 - self.m_cycle
        } else {
            63 - self.m_cycle
        }
    }

    /// The M-cycle of the line that may next change more than the M-cycle, 114 for the next line's
    /// first: that of the next entry, but mode 0 is passed over while STAT enables no mode.
    #[inline(always)]
    #[tactic(auto, unfolding(crate::specs::PictureJump::next_change, crate::specs::PictureJump::next_entry))]
    pub(crate) fn change_at(&self) -> u8
        requires { self.now.m_cycle < 114 }
        ensures change { result ≡ self.now.m_cycle + next_change self.now }
        ensures near { result ≤ 114 }
        ensures ahead { 0 < next_change self.now }
    {
        if self.m_cycle < 20 && self.ly < 144 {
            20
        } else if self.m_cycle < 63 && self.ly < 144 && self.stat % LYC_SELECT != 0 {
            63
        } else {
            114
        }
    }

    #[tactic(auto, unfolding(crate::specs::Picture::line_registers))]
    pub(crate) fn line_registers(&self) -> LineRegisters
        ensures { result ≡ line_registers self.now }
    {
        LineRegisters {
            lcdc: self.lcdc,
            scy: self.scy,
            scx: self.scx,
            bgp: self.bgp,
            obp0: self.obp0,
            obp1: self.obp1,
            wx: self.wx,
            ly: self.ly,
            window_counter: self.window_counter,
            seen: self.seen,
        }
    }

    #[tactic(auto, unfolding(crate::specs::Registers::stat_value))]
    fn stat_value(&self) -> u8
        requires { IsLegalPicture self.now }
        ensures { result ≡ stat_value self.now }
    {
        let same_line = if self.ly == self.lyc { 4 } else { 0 };
        128 + self.stat + same_line + self.mode()
    }

    /// What a register reads.
    #[tactic(auto, unfolding(crate::specs::Registers::register_value))]
    pub(crate) fn register(&self, address: u16) -> u8
        requires { IsLegalPicture self.now }
        ensures { result ≡ register_value self.now address }
    {
        match address {
            LCDC => self.lcdc,
            STAT => self.stat_value(),
            SCY => self.scy,
            SCX => self.scx,
            LY => self.ly,
            LYC => self.lyc,
            BGP => self.bgp,
            OBP0 => self.obp0,
            OBP1 => self.obp1,
            WY => self.wy,
            WX => self.wx,
            _ => 0xff,
        }
    }

    /// A write to a register that only holds what was written.
    #[tactic(auto, unfolding(crate::specs::Registers::register_stored))]
    pub(crate) fn store_register(&mut self, address: u16, value: u8)
        requires { IsLegalPicture self.old }
        ensures stored { self.new ≡ register_stored address value self.old }
        ensures legal { IsLegalPicture self.new }
    {
        match address {
            SCY => self.scy = value,
            SCX => self.scx = value,
            BGP => self.bgp = value,
            OBP0 => self.obp0 = value,
            OBP1 => self.obp1 = value,
            WY => self.wy = value,
            WX => self.wx = value,
            _ => {}
        }
    }
}

ghost use Rattle.picture_unit.specs.Picture.{is_source as is_source_of};

// Whether one of the sources that STAT enables is there.
#[tactic(auto, unfolding(crate::specs::Picture::is_source, picture_lines::specs::Bits::has_bit))]
fn is_source(stat: u8, mode: u8, is_line: bool) -> bool
    ensures { result ≡ is_source_of stat mode is_line }
{
    if is_line && stat / LYC_SELECT % 2 == 1 {
        return true;
    }
    match mode {
        0 => stat / MODE_0_SELECT % 2 == 1,
        1 => stat / MODE_1_SELECT % 2 == 1,
        2 => stat / MODE_2_SELECT % 2 == 1,
        _ => false,
    }
}
