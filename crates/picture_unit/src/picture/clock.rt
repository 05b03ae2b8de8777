//! M-cycles of the picture unit, from change to change.

ghost use Rattle.std.specs.Prelude.{◌≡◌, ◌<◌, ◌+◌, ◌%◌, true};
ghost use Rattle.std.specs.Fn.{iterate};
ghost use Rattle.picture_unit.specs.Picture.{unrequested, is_on, tick, ticks, line_drawn, drawn, IsWhole};
ghost use Rattle.picture_unit.specs.Laws.{frame_cycle};
ghost use Rattle.picture_unit.specs.LatePicture.{up_to};
ghost use Rattle.picture_unit.specs.Quiet.{AreQuiet};
ghost use Rattle.picture_unit.specs.PictureJump.{next_change, skipped, with_requests};

use super::Picture;
use crate::registers::LYC_SELECT;
use crate::state::PictureRequests;

impl Picture {
    /// Lets this many M-cycles pass: lines are entered and noted, and interrupts are requested.
    #[inline(always)]
    #[tactic(auto, unfolding(crate::specs::Picture::unrequested))]
    pub(crate) fn pass(&mut self, cycles: u32) -> PictureRequests
        ensures picture { self.new ≡ (ticks cycles self.old).picture }
        ensures vblank { result.vblank ≡ (ticks cycles self.old).vblank }
        ensures stat { result.stat ≡ (ticks cycles self.old).stat }
    {
        let none = PictureRequests {
            vblank: false,
            stat: false,
        };
        if !self.state.is_on() {
            return none;
        }
        let change = self.state.change_at() - self.state.m_cycle;
        if cycles < u32::from(change) {
            return self.skip(cycles, none);
        }
        self.advance(cycles, none)
    }

    /// Lets the M-cycles up to this one of the frame pass, if there are any.
    #[inline]
    pub(crate) fn pass_to(&mut self, now: u16)
        ensures { self.new ≡ up_to now self.old }
    {
        let here = self.state.frame_cycle();
        if now > here {
            let _ = self.pass(u32::from(now - here));
        }
    }

    /// The M-cycle of the frame.
    #[inline]
    pub(crate) fn frame_cycle(&self) -> u16
        ensures now { result ≡ frame_cycle self.now.state }
        ensures whole { IsWhole self.now.state self.now.oam self.now.rows }
    {
        self.state.frame_cycle()
    }

    /// A number of M-cycles in which nothing is requested and the frame does not end.
    pub(crate) fn quiet(&self) -> u16
        ensures quiet { AreQuiet result self.now.state }
        ensures frame { frame_cycle self.now.state + result < 17556 }
    {
        self.state.quiet()
    }

    /// Does what `pass` does, M-cycle by M-cycle: what `pass` is compared with.
    #[tactic(auto, unfolding(crate::specs::Picture::unrequested))]
    pub(crate) fn pass_by_definition(&mut self, cycles: u32) -> PictureRequests
        ensures picture { self.new ≡ (ticks cycles self.old).picture }
        ensures vblank { result.vblank ≡ (ticks cycles self.old).vblank }
        ensures stat { result.stat ≡ (ticks cycles self.old).stat }
    {
        let mut requests = PictureRequests {
            vblank: false,
            stat: false,
        };
        for _cycle in 0..cycles {
            requests = self.tick(requests);
        }
        requests
    }

    // M-cycles of a picture unit that is on, from change to change.
    #[inline(never)]
    fn advance(&mut self, cycles: u32, requests: PictureRequests) -> PictureRequests
        requires { is_on self.old.state ≡ true }
        ensures on { is_on self.new.state ≡ true }
        ensures ticks { with_requests result self.new
            ≡ iterate tick cycles (with_requests requests self.old) }
    {
        let mut left = cycles;
        let mut requests = requests;
        while left > 0 {
            let (so_far, rest) = self.to_next_line(left, requests);
            requests = so_far;
            left = rest;
        }
        requests
    }

    // A whole line, where STAT enables no mode and one begins, else up to the next change.
    #[inline(always)]
    fn to_next_line(&mut self, cycles: u32, requests: PictureRequests) -> (PictureRequests, u32)
        requires on { is_on self.old.state ≡ true }
        requires some { 0 < cycles }
        ensures on { is_on self.new.state ≡ true }
        ensures fewer { result.1 < cycles }
        ensures ticks { iterate tick result.1 (with_requests result.0 self.new)
            ≡ iterate tick cycles (with_requests requests self.old) }
    {
        let is_whole = self.state.stat % LYC_SELECT == 0
            && self.state.m_cycle == 0
            && self.state.ly < 143;
        if is_whole && cycles >= 114 {
            return (self.pass_line(requests), cycles - 114);
        }
        self.to_next_change(cycles, requests)
    }

    // The M-cycles of a line below 143 from its first on, and the first of the next one. They are compiled
    // to the note of the line and its count.
    #[inline(always)]
    fn pass_line(&mut self, requests: PictureRequests) -> PictureRequests
        requires on { is_on self.old.state ≡ true }
        requires no_mode { self.old.state.stat % 64 ≡ 0 }
        requires first { self.old.state.m_cycle ≡ 0 }
        requires visible { self.old.state.ly < 143 }
        ensures on { is_on self.new.state ≡ true }
        ensures ticks { with_requests result self.new ≡ iterate tick 114 (with_requests requests self.old) }
    {
        let requests = self.skip(19, requests);
        let requests = self.run_cycle(requests);
        let requests = self.skip(93, requests);
        self.run_cycle(requests)
    }

    // Passes the M-cycles up to the next change and that one, but at most this many. Returns how many are left. Each M-cycle of a line
    // that may be a change has a call of its own, which is compiled for it alone.
    #[inline(always)]
    fn to_next_change(&mut self, cycles: u32, requests: PictureRequests) -> (PictureRequests, u32)
        requires on { is_on self.old.state ≡ true }
        requires some { 0 < cycles }
        ensures on { is_on self.new.state ≡ true }
        ensures fewer { result.1 < cycles }
        ensures ticks { iterate tick result.1 (with_requests result.0 self.new)
            ≡ iterate tick cycles (with_requests requests self.old) }
    {
        let now = self.state.m_cycle;
        match self.state.change_at() {
            20 => self.to_change_in(20 - now, cycles, requests),
            63 => self.to_change_in(63 - now, cycles, requests),
            at => self.to_change_in(at - now, cycles, requests),
        }
    }

    // Passes the M-cycles up to the next change and that one, but at most this many. `change` is how many M-cycles it is away.
    #[inline(always)]
    fn to_change_in(
        &mut self,
        change: u8,
        cycles: u32,
        requests: PictureRequests,
    ) -> (PictureRequests, u32)
        requires on { is_on self.old.state ≡ true }
        requires some { 0 < cycles }
        requires change { change ≡ next_change self.old.state }
        requires ahead { 0 < change }
        requires near { change < 115 }
        ensures on { is_on self.new.state ≡ true }
        ensures fewer { result.1 < cycles }
        ensures ticks { iterate tick result.1 (with_requests result.0 self.new)
            ≡ iterate tick cycles (with_requests requests self.old) }
    {
        if cycles < u32::from(change) {
            return (self.skip(cycles, requests), 0);
        }
        let requests = self.skip(u32::from(change) - 1, requests);
        let requests = self.run_cycle(requests);
        (requests, cycles - u32::from(change))
    }

    // M-cycles before the next change.
    #[inline(always)]
    #[tactic(auto, unfolding(crate::specs::PictureJump::skipped, crate::specs::PictureJump::later, crate::specs::Picture::evaluated, crate::specs::PictureJump::next_entry, crate::specs::PictureJump::next_change))]
    fn skip(&mut self, cycles: u32, requests: PictureRequests) -> PictureRequests
        requires on { is_on self.old.state ≡ true }
        requires quiet { cycles < next_change self.old.state }
        ensures { with_requests result self.new ≡ skipped cycles (with_requests requests self.old) }
    {
        if cycles == 0 {
            return requests;
        }
        self.state.m_cycle += cycles as u8;
        let stat = self.evaluate_signal();
        PictureRequests {
            vblank: requests.vblank,
            stat: requests.stat | stat,
        }
    }

    // One M-cycle. Returns the requests so far and those of this M-cycle.
    #[tactic(auto, unfolding(crate::specs::Picture::tick))]
    fn tick(&mut self, requests: PictureRequests) -> PictureRequests
        ensures { with_requests result self.new ≡ tick (with_requests requests self.old) }
    {
        if !self.state.is_on() {
            return requests;
        }
        self.run_cycle(requests)
    }

    // One M-cycle while LCDC bit 7 is set.
    #[inline(always)]
    #[tactic(auto, unfolding(crate::specs::Picture::tick, crate::specs::Picture::evaluated, crate::specs::Picture::moved))]
    fn run_cycle(&mut self, requests: PictureRequests) -> PictureRequests
        requires { is_on self.old.state ≡ true }
        ensures { with_requests result self.new ≡ tick (with_requests requests self.old) }
    {
        self.state.advance();
        let vblank = self.state.begins_vblank();
        self.draw_when_due();
        let stat = self.evaluate_signal();
        PictureRequests {
            vblank: requests.vblank | vblank,
            stat: requests.stat | stat,
        }
    }

    #[inline(always)]
    #[tactic(auto, unfolding(crate::specs::Picture::drawn, crate::specs::Picture::draws))]
    fn draw_when_due(&mut self)
        ensures { self.new ≡ drawn self.old }
    {
        if self.state.draws() {
            self.note_line();
        }
    }

    // Notes the current line as due.
    #[inline(always)]
    #[tactic(auto, unfolding(crate::specs::Picture::line_drawn, crate::specs::Picture::line_registers, crate::specs::Picture::window_counter_after, crate::specs::Picture::is_on, crate::specs::Picture::mode, crate::specs::Picture::stat_signal, crate::specs::PictureJump::next_entry, crate::specs::PictureJump::next_change))]
    fn note_line(&mut self)
        requires { self.old.state.ly < 144 }
        ensures { self.new ≡ line_drawn self.old }
    {
        let registers = self.state.line_registers();
        self.rows.note(&registers);
        if registers.is_window_drawn() {
            self.state.window_counter = self.state.window_counter.wrapping_add(1);
        }
    }
}
