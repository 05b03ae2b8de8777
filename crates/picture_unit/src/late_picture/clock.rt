//! M-cycles of the late picture unit: quiet ones are only counted.

ghost use Rattle.std.specs.Prelude.{◌≡◌, ◌+◌, ◌<◌, true};
ghost use Rattle.repeated_steps.specs.NextEvent.{IsNextEvent};
ghost use Rattle.picture_unit.specs.Picture.{unrequested, is_on, tick, ticks, is_entry};
ghost use Rattle.picture_unit.specs.Laws.{frame_cycle};
ghost use Rattle.picture_unit.specs.Quiet.{AreQuiet};

use super::LatePicture;
use crate::state::PictureRequests;

impl LatePicture {
    /// Lets this many M-cycles pass: lines are entered and drawn, and interrupts are requested.
    #[inline]
    #[tactic(auto, unfolding(crate::specs::Picture::unrequested))]
    pub fn pass(&mut self, cycles: u32) -> PictureRequests
        ensures picture { self.new ≡ (ticks cycles self.old).picture }
        ensures vblank { result.vblank ≡ (ticks cycles self.old).vblank }
        ensures stat { result.stat ≡ (ticks cycles self.old).stat }
    {
        if cycles > u32::from(self.quiet()) {
            return self.pass_at_once(cycles);
        }
        self.count(cycles as u16);
        PictureRequests {
            vblank: false,
            stat: false,
        }
    }

    // Lets M-cycles pass in which something may be requested.
    #[inline(never)]
    fn pass_at_once(&mut self, cycles: u32) -> PictureRequests
        ensures picture { self.new ≡ (ticks cycles self.old).picture }
        ensures vblank { result.vblank ≡ (ticks cycles self.old).vblank }
        ensures stat { result.stat ≡ (ticks cycles self.old).stat }
    {
        self.picture.pass_to(self.frame_cycle);
        let requests = self.picture.pass(cycles);
        self.frame_cycle = self.picture.frame_cycle();
        self.quiet_until = self.frame_cycle + self.picture.quiet();
        requests
    }

    /// Lets quiet M-cycles pass: they are only counted. Condition: they are quiet, unless the LCD is off.
    #[inline]
    pub fn move_on(&mut self, cycles: u8)
        requires { is_on self.old.state ≡ true → AreQuiet cycles self.old.state }
        ensures { self.new ≡ (ticks cycles self.old).picture }
    {
        self.count(u16::from(cycles));
    }

    // The count wraps while the LCD is off.
    #[inline(always)]
    fn count(&mut self, cycles: u16)
        requires { is_on self.old.state ≡ true → AreQuiet cycles self.old.state }
        ensures { self.new ≡ (ticks cycles self.old).picture }
    {
        self.frame_cycle = self.frame_cycle.wrapping_add(cycles);
    }

    /// A number of M-cycles in which nothing is requested and the frame does not end.
    #[inline]
    pub fn quiet(&self) -> u16
        ensures quiet { AreQuiet result self.now.state }
        ensures frame { frame_cycle self.now.state + result < 17556 }
    {
        self.quiet_until.saturating_sub(self.frame_cycle())
    }

    /// The M-cycle of the frame, 0 to 17,555.
    #[inline(always)]
    pub fn frame_cycle(&self) -> u16
        ensures now { result ≡ frame_cycle self.now.state }
        ensures few { result < 17556 }
    {
        if self.picture.is_on() {
            self.frame_cycle
        } else {
            self.picture.frame_cycle()
        }
    }

    /// Does what `pass` does, M-cycle by M-cycle: what `pass` is compared with.
    pub fn pass_by_definition(&mut self, cycles: u32) -> PictureRequests
        ensures picture { self.new ≡ (ticks cycles self.old).picture }
        ensures vblank { result.vblank ≡ (ticks cycles self.old).vblank }
        ensures stat { result.stat ≡ (ticks cycles self.old).stat }
    {
        self.picture.pass_to(self.frame_cycle);
        let requests = self.picture.pass_by_definition(cycles);
        self.frame_cycle = self.picture.frame_cycle();
        self.quiet_until = 0;
        requests
    }

    /// After how many M-cycles a line, mode 3 or mode 0 is entered: the least number, or None if
    /// LCDC bit 7 is clear.
    pub fn due(&self) -> Option<u32>
        ensures { IsNextEvent tick is_entry (unrequested self.now) result }
    {
        let state = self.registers_now();
        if state.is_on() {
            Some(u32::from(state.next_entry()))
        } else {
            None
        }
    }
}
