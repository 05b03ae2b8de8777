//! The timer, which is given its M-cycles late.

ghost use Rattle.std.specs.Prelude.{◌≡◌, ◌%◌};
ghost use Rattle.timer_unit.specs.Timer.{with_counter_and_tac, IsLegalTimer};
ghost use Rattle.memory_map.specs.LateTimer.{up_to, caught_up_at, running};

use timer_unit::{Timer, TimerState};

/// The timer as it was at an M-cycle of the bus's clock, and whether it had requested its interrupt by then. The M-cycles that have
/// passed since are counted by the clock alone.
#[derive(Drop)]
pub(crate) struct LateTimer {
    pub(crate) timer: Timer,
    pub(crate) requested: bool,
    pub(crate) at: u16,
}

impl LateTimer {
    /// The timer at power-on, at the clock's first M-cycle.
    pub(crate) fn new() -> Self
        ensures { result ≡ record { timer = timer_at_power_on; requested = false; at = 0 } }
    {
        LateTimer {
            timer: Timer::new(),
            requested: false,
            at: 0,
        }
    }

    /// Gives the timer the M-cycles up to this one of the clock, which from now on is counted as `at`.
    #[inline]
    pub(crate) fn catch_up(&mut self, now: u16, at: u16)
        ensures { self.new ≡ caught_up_at at (up_to now self.old) }
    {
        if self.at == now {
            self.at = at;
            return;
        }
        self.pass_all(at, u32::from(now.saturating_sub(self.at)));
    }

    /// Gives the timer the M-cycles up to this one of the clock, which from now on is counted as `at`, and as many more.
    #[inline]
    pub(crate) fn pass(&mut self, now: u16, at: u16, cycles: u32)
        ensures { self.new ≡ caught_up_at at (iterate tick cycles (up_to now self.old)) }
    {
        let late = u32::from(now.saturating_sub(self.at));
        if cycles > 0xffff_0000 {
            self.catch_up(now, at);
            return self.pass_all(at, cycles);
        }
        self.pass_all(at, late + cycles);
    }

    #[inline]
    fn pass_all(&mut self, now: u16, cycles: u32)
        ensures { self.new ≡ caught_up_at now (iterate tick cycles (running self.old)) }
    {
        let requests = self.timer.pass(cycles);
        self.requested |= requests.bits != 0;
        self.at = now;
    }

    /// The timer as it is at this M-cycle of the clock.
    #[inline(never)]
    pub(crate) fn copy_at(&self, now: u16) -> Timer
        ensures { result ≡ (up_to now self.now).timer }
    {
        let mut timer = Timer::new();
        timer.restore(&self.timer.state());
        let _ = timer.pass(u32::from(now.saturating_sub(self.at)));
        timer
    }

    /// Requests the interrupt or withdraws the request, at this M-cycle of the clock.
    pub(crate) fn set_requested(&mut self, now: u16, requested: bool)
        ensures { self.new ≡ caught_up_at now (record (up_to now self.old) { requested = requested }) }
    {
        self.catch_up(now, now);
        self.requested = requested;
    }

    /// The timer becomes this one, at this M-cycle of the clock. Condition: the state is legal.
    pub(crate) fn restore(&mut self, now: u16, state: &TimerState)
        requires { IsLegalTimer state.now }
        ensures { self.new ≡ record { timer = state.now; requested = self.old.requested; at = now } }
    {
        self.timer.restore(state);
        self.at = now;
    }

    /// A write to DIV at this M-cycle of the clock, which from now on is counted as `at`.
    pub(crate) fn write_div(&mut self, now: u16, at: u16)
        ensures { self.new ≡ caught_up_at at
            (with_counter_and_tac 0 (up_to now self.old).timer.tac (up_to now self.old)) }
    {
        self.catch_up(now, at);
        let requests = self.timer.write_div();
        self.requested |= requests.bits != 0;
    }

    /// A write to TIMA at this M-cycle of the clock.
    pub(crate) fn write_tima(&mut self, now: u16, value: u8)
        ensures { self.new ≡ caught_up_at now
            (record (up_to now self.old) { timer = record (up_to now self.old).timer { tima = value } }) }
    {
        self.catch_up(now, now);
        self.timer.write_tima(value);
    }

    /// A write to TMA at this M-cycle of the clock.
    pub(crate) fn write_tma(&mut self, now: u16, value: u8)
        ensures { self.new ≡ caught_up_at now
            (record (up_to now self.old) { timer = record (up_to now self.old).timer { tma = value } }) }
    {
        self.catch_up(now, now);
        self.timer.write_tma(value);
    }

    /// A write to TAC at this M-cycle of the clock.
    pub(crate) fn write_tac(&mut self, now: u16, value: u8)
        ensures { self.new ≡ caught_up_at now
            (with_counter_and_tac (up_to now self.old).timer.counter (value % 8) (up_to now self.old)) }
    {
        self.catch_up(now, now);
        let requests = self.timer.write_tac(value);
        self.requested |= requests.bits != 0;
    }
}

ghost use Rattle.std.specs.Prelude.{false};
ghost use Rattle.std.specs.Fn.{iterate};
ghost use Rattle.timer_unit.specs.Timer.{timer_at_power_on, tick};
