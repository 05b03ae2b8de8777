//! The passing of M-cycles: quiet ones are only counted.

ghost use Rattle.std.specs.Prelude.{◌≡◌, ◌<◌, ◌≤◌, ◌+◌, ◌-◌, true, false, ℕ};
ghost use Rattle.memory_map.specs.Bus.{pending_interrupts};
ghost use Rattle.std.specs.Fn.{iterate};
ghost use Rattle.picture_unit.specs.Picture.{is_on};
ghost use Rattle.picture_unit.specs.Laws.{frame_cycle};
ghost use Rattle.repeated_steps.specs.NextEvent.{IsNextEvent, earlier};
ghost use Rattle.memory_map.specs.Ticks.{tick, tick_timer, tick_serial, tick_dma_and_picture, tick_picture, copied_byte, happens};
ghost use Rattle.memory_map.specs.Quiet.{AreQuietOn, IsCalm};
ghost use Rattle.memory_map.specs.Lasting.{LastsFor};
ghost use Rattle.memory_map.specs.LastingFor.{mode_lasts_from, before_fall};

use super::{Bus, NOTHING_KNOWN};
use picture_unit::LatePicture;

impl Bus {
    /// Lets this many M-cycles pass for all units; in each M-cycle the order is timer, serial,
    /// object DMA, picture.
    #[inline]
    pub fn pass(&mut self, cycles: u32)
        ensures { self.new ≡ iterate tick cycles self.old }
    {
        if cycles > 255 {
            return self.pass_by_units(cycles);
        }
        let _ = self.pass_few(cycles as u8);
    }

    /// Lets at most 255 M-cycles pass, faster than `pass` if nothing happens in them. Returns true
    /// only if IE and IF share no bit afterwards.
    #[inline(always)]
    pub fn pass_few(&mut self, cycles: u8) -> bool
        ensures ticks { self.new ≡ iterate tick cycles self.old }
        ensures none_pending { result ≡ true → pending_interrupts self.new ≡ 0 }
    {
        if u16::from(cycles) < self.calm() {
            self.move_on(cycles);
            return true;
        }
        self.pass_asked(cycles);
        false
    }

    /// A number of M-cycles of which all but the last request nothing and copy no byte. If it is not 0, IE and IF share no bit. It is
    /// 0 if nothing is known.
    #[inline(always)]
    pub fn calm(&self) -> u16
        ensures { IsCalm result self.now }
    {
        self.calm_until.saturating_sub(self.clock)
    }

    /// Lets M-cycles pass that request nothing and copy no byte, as `calm` tells: the fastest call for them. Condition: they are such.
    #[inline(always)]
    pub fn move_on(&mut self, cycles: u8)
        requires { AreQuietOn cycles self.old }
        ensures { self.new ≡ iterate tick cycles self.old }
    {
        self.picture.move_on(cycles);
        self.clock += u16::from(cycles);
    }

    /// Lets M-cycles pass where IE and IF may share a bit, or not all of them are known to be quiet.
    #[inline(never)]
    fn pass_asked(&mut self, cycles: u8)
        ensures { self.new ≡ iterate tick cycles self.old }
    {
        if u16::from(cycles) <= self.quiet() {
            return self.move_on(cycles);
        }
        self.pass_by_units(u32::from(cycles));
    }

    /// A number of quiet M-cycles, where IE and IF may share a bit.
    #[inline(always)]
    fn quiet(&self) -> u16
        ensures { AreQuietOn result self.now }
    {
        self.quiet_until.saturating_sub(self.clock)
    }

    #[inline]
    fn pass_by_units(&mut self, cycles: u32)
        ensures { self.new ≡ iterate tick cycles self.old }
    {
        self.pass_timer(cycles);
        self.pass_serial(cycles);
        self.pass_dma_and_picture(cycles);
        self.find_quiet();
    }

    /// Finds how many M-cycles are quiet, and whether IE and IF share a bit.
    fn find_quiet(&mut self)
        ensures { self.new ≡ self.old }
    {
        let quiet_until = self.clock.saturating_add(self.quiet_cycles());
        if self.shared_by_flags() == 0 {
            self.calm_until = quiet_until.saturating_add(1);
            self.quiet_until = NOTHING_KNOWN;
        } else {
            self.calm_until = NOTHING_KNOWN;
            self.quiet_until = quiet_until;
        }
    }

    /// Counts the M-cycles that are known to be quiet as calm, if IE and IF share no bit any more.
    pub(super) fn find_calm(&mut self)
        ensures { self.new ≡ self.old }
    {
        if self.shared_by_flags() == 0 {
            self.calm_until = self.quiet_until.saturating_add(1);
            self.quiet_until = NOTHING_KNOWN;
        }
    }

    /// The bits that IE and IF share. The bits of IF are not gathered where IE is 0.
    #[inline]
    fn shared_by_flags(&self) -> u8
        ensures { result ≡ pending_interrupts self.now }
    {
        if self.control.ie == 0 {
            return 0;
        }
        self.control.ie & self.interrupt_flag()
    }

    fn quiet_cycles(&self) -> u16
        ensures { AreQuietOn result self.now }
    {
        if self.timer.at != self.clock {
            return 0;
        }
        if self.control.dma_copied < 160 {
            return 0;
        }
        if self.serial.state().cycles_left > 0 {
            return 0;
        }
        let unrequested = self.timer.timer.unrequested_for();
        if self.picture.is_on() {
            unrequested.min(self.picture.quiet())
        } else {
            unrequested.min(16_383 - self.timer.timer.state().counter / 4)
        }
    }

    /// For how many M-cycles IE and IF are sure to share no bit: before each of them they share
    /// none.
    #[inline]
    pub fn none_pending_for(&self) -> u16
        ensures { (k : ℕ) → k < result → pending_interrupts (iterate tick k self.now) ≡ 0 }
    {
        self.calm()
    }

    /// After how many M-cycles the next event comes: a byte of a copy, a fall of the timer's
    /// signal, the end of a transfer, the entry to a line, to mode 3 or to mode 0. None if none
    /// comes.
    pub fn due(&self) -> Option<u32>
        ensures { IsNextEvent tick happens self.now result }
    {
        if self.control.dma_copied < 160 {
            Some(1)
        } else {
            earlier(
                self.timer.copy_at(self.clock).due(),
                earlier(self.serial.due(), self.picture.due()),
            )
        }
    }

    /// For how many M-cycles LY stays the same, as long as they are quiet.
    pub(crate) fn line_lasts_for(&self) -> u16
        ensures { LastsFor result 0xff44 self.now }
    {
        113 - self.picture.frame_cycle() % 114
    }

    /// For how many M-cycles STAT stays the same, as long as they are quiet.
    pub(crate) fn mode_lasts_for(&self) -> u16
        ensures { LastsFor result 0xff41 self.now }
    {
        mode_lasts_from(self.picture.frame_cycle())
    }

    /// For how many M-cycles DIV stays the same, as long as they are quiet.
    pub(crate) fn div_lasts_for(&self) -> u16
        ensures { LastsFor result 0xff04 self.now }
    {
        let state = self.timer.copy_at(self.clock).state();
        63 - state.counter / 4 % 64
    }

    /// For how many M-cycles TIMA stays the same, as long as they are quiet.
    pub(crate) fn tima_lasts_for(&self) -> u16
        ensures { LastsFor result 0xff05 self.now }
    {
        before_fall(self.timer.copy_at(self.clock).due())
    }

    #[inline]
    fn pass_timer(&mut self, cycles: u32)
        ensures ticks { self.new ≡ iterate tick_timer cycles self.old }
        ensures dma_page { self.old.control.dma < 256 }
    {
        self.calm_until = NOTHING_KNOWN;
        self.quiet_until = NOTHING_KNOWN;
        let clock = clock_of(&self.picture);
        self.timer.pass(self.clock, clock, cycles);
        self.clock = clock;
    }

    #[inline]
    fn pass_serial(&mut self, cycles: u32)
        ensures { self.new ≡ iterate tick_serial cycles self.old }
    {
        self.calm_until = NOTHING_KNOWN;
        self.quiet_until = NOTHING_KNOWN;
        let requests = self.serial.pass(cycles);
        self.serial_requested |= requests.bits != 0;
    }

    /// Lets M-cycles pass for the copy and the picture; the picture sees what is copied.
    #[inline]
    fn pass_dma_and_picture(&mut self, cycles: u32)
        ensures { self.new ≡ iterate tick_dma_and_picture cycles self.old }
    {
        if self.control.dma_copied < 160 {
            self.pass_copying(cycles);
            return;
        }
        self.pass_picture(cycles);
    }

    #[inline(never)]
    fn pass_copying(&mut self, cycles: u32)
        ensures { self.new ≡ iterate tick_dma_and_picture cycles self.old }
    {
        let mut left = cycles;
        while left > 0 && self.control.dma_copied < 160 {
            self.copy_byte();
            self.pass_picture(1);
            left -= 1;
        }
        self.pass_picture(left);
    }

    #[inline(always)]
    fn pass_picture(&mut self, cycles: u32)
        ensures { self.new ≡ iterate tick_picture cycles self.old }
    {
        self.calm_until = NOTHING_KNOWN;
        self.quiet_until = NOTHING_KNOWN;
        let requests = self.picture.pass(cycles);
        let clock = clock_of(&self.picture);
        self.timer.catch_up(self.clock, clock);
        self.clock = clock;
        self.vblank_requested |= requests.vblank;
        self.stat_requested |= requests.stat;
    }

    #[inline(never)]
    #[tactic(auto, unfolding(picture_unit::specs::Stores::oam_copied))]
    fn copy_byte(&mut self)
        requires { self.old.control.dma_copied < 160 }
        ensures { self.new ≡ copied_byte self.old }
    {
        let page = self.control.dma;
        let page = if page < 0xe0 { page } else { page - 0x20 };
        let source = 256 * u16::from(page) + u16::from(self.control.dma_copied);
        let byte = self.peek(source);
        self.calm_until = NOTHING_KNOWN;
        self.quiet_until = NOTHING_KNOWN;
        self.picture.copy_to_oam(self.control.dma_copied, byte);
        self.control.dma_copied += 1;
    }
}

/// What the clock is set to: the M-cycle of the frame, or 0 while the LCD is off.
#[inline]
pub(super) fn clock_of(picture: &LatePicture) -> u16
    ensures lit { is_on picture.now.state ≡ true → result ≡ frame_cycle picture.now.state }
    ensures dark { is_on picture.now.state ≡ false → result ≡ 0 }
{
    if picture.is_on() {
        picture.frame_cycle()
    } else {
        0
    }
}

/// For how many M-cycles the mode and the line stay the same, from this M-cycle of the frame on.
fn mode_lasts_from(now: u16) -> u16
    requires { now < 17556 }
    ensures { result ≡ mode_lasts_from now }
{
    let m_cycle = now % 114;
    if now < 16_416 && m_cycle < 20 {
        19 - m_cycle
    } else if now < 16_416 && m_cycle < 63 {
        62 - m_cycle
    } else {
        113 - m_cycle
    }
}

/// How many M-cycles come before the one with which the timer's signal falls next, at most 65,535.
fn before_fall(due: Option<u32>) -> u16
    ensures { result ≡ before_fall due }
{
    match due {
        None => 65_535,
        Some(due) => due.saturating_sub(1).min(65_535) as u16,
    }
}

fn earlier(a: Option<u32>, b: Option<u32>) -> Option<u32>
    ensures { result ≡ earlier a b }
{
    match (a, b) {
        (None, b) => b,
        (a, None) => a,
        (Some(a), Some(b)) => Some(a.min(b)),
    }
}
