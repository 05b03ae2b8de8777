//! The timer.

ghost use Rattle.std.specs.Prelude.{◌≡◌, ◌<◌, ◌≤◌, ◌+◌, ◌*◌, ◌^◌, ◌%◌, ◌/◌, ℕ, false};

use crate::requests::Requests;
use std::marker::Model;

/// What a snapshot holds of the timer. It is legal if TAC is below 8.
#[derive(Clone, Copy, PartialEq, Eq)]
pub struct TimerState {
    /// Grows by 4 per M-cycle; DIV is its high byte.
    pub counter: u16,
    pub tima: u8,
    pub tma: u8,
    /// The three low bits of TAC.
    pub tac: u8,
}

/// The timer: registers DIV, TIMA, TMA and TAC (FF04 to FF07), as Pan Docs, "Timer and Divider Registers", has it.
#[derive(Drop)]
pub struct Timer {
    state: TimerState,
}

impl Model for Timer {
    ghost use Rattle.timer_unit.specs.declared.timer.TimerState.{TimerState};
    ghost use Rattle.timer_unit.specs.Timer.{IsLegalTimer};

    ghost Value = { TimerState };

    ghost view = { λ t. t.state };

    ghost invariant = { λ t. IsLegalTimer t.state };
}

impl Timer {
    ghost use Rattle.repeated_steps.specs.NextEvent.{IsNextEvent};
    ghost use Rattle.timer_unit.specs.Timer.{IsLegalTimer, timer_at_power_on, unrequested, selected_bit, signal, tick, ticks, signal_falls, with_counter_and_tac, div_written, tac_written, timer_request};
    ghost use Rattle.timer_unit.specs.TimerJump.{falls_in, with_falls, due_of_bit};

    /// The timer at power-on: counter AB00, all registers 00.
    pub fn new() -> Self
        ensures { result ≡ timer_at_power_on }
    {
        Timer {
            state: TimerState {
                counter: 0xab00,
                tima: 0,
                tma: 0,
                tac: 0,
            },
        }
    }

    /// What a snapshot holds of the timer.
    #[inline]
    pub fn state(&self) -> TimerState
        ensures state { result ≡ self.now }
        ensures legal { IsLegalTimer result }
    {
        self.state
    }

    /// The timer becomes this one. Condition: the state is legal.
    pub fn restore(&mut self, state: &TimerState)
        requires { IsLegalTimer state.now }
        ensures { self.new ≡ state.now }
    {
        self.state = *state;
    }

    /// That many M-cycles pass: in each the counter grows by 4, and a fall of the signal counts in TIMA.
    #[inline]
    pub fn pass(&mut self, cycles: u32) -> Requests
        ensures state { self.new ≡ (ticks cycles self.old).timer }
        ensures requests { result.bits ≡ timer_request (ticks cycles self.old).requested }
    {
        Requests::of_timer(self.advance(cycles))
    }

    #[inline]
    #[tactic(auto, using(crate::proofs::TimerJump::ticks_by_jump))]
    fn advance(&mut self, cycles: u32) -> bool
        ensures { record { timer = self.new; requested = result } ≡ ticks cycles self.old }
    {
        let falls = self.falls_in(cycles);
        let counter = u64::from(self.state.counter) + 4 * u64::from(cycles);
        self.state.counter = (counter % 65536) as u16;
        if falls == 0 {
            return false;
        }
        self.count_falls(falls)
    }

    /// A number of M-cycles, at most 65,535, in which the interrupt is not requested: all of them while TAC stops the timer.
    pub fn unrequested_for(&self) -> u16
        ensures { (ticks result self.now).requested ≡ false }
    {
        self.cycles_below_overflow().min(65_535) as u16
    }

    /// A number of M-cycles in which TIMA does not overflow.
    fn cycles_below_overflow(&self) -> u32
        ensures below { (n : ℕ) → n ≤ result → self.now.tima + falls_in self.now.tac self.now.counter n < 256 }
        ensures legal { IsLegalTimer self.now }
    {
        if self.state.tac < 4 {
            return 65_535;
        }
        self.cycles_to_fall() - 1 + self.cycles_of_counts(255 - self.state.tima)
    }

    /// How many M-cycles a number of counts takes.
    fn cycles_of_counts(&self, counts: u8) -> u32
        ensures cycles { 4 * result ≡ 2 * 2 ^ selected_bit self.now.tac * counts }
        ensures few { result < 65536 }
    {
        let counts = u32::from(counts);
        match self.state.tac % 4 {
            0 => 256 * counts,
            1 => 4 * counts,
            2 => 16 * counts,
            _ => 64 * counts,
        }
    }

    /// After how many M-cycles the signal falls next; None while TAC stops the timer.
    pub fn due(&self) -> Option<u32>
        ensures { IsNextEvent tick signal_falls (unrequested self.now) result }
    {
        if self.state.tac < 4 {
            None
        } else {
            Some(self.cycles_to_fall())
        }
    }

    /// DIV as it is read: the counter's high byte.
    #[inline]
    pub fn div(&self) -> u8
        ensures { result ≡ self.now.counter / 256 }
    {
        (self.state.counter / 256) as u8
    }

    /// TIMA as it is read.
    #[inline]
    pub fn tima(&self) -> u8
        ensures { result ≡ self.now.tima }
    {
        self.state.tima
    }

    /// TMA as it is read.
    #[inline]
    pub fn tma(&self) -> u8
        ensures { result ≡ self.now.tma }
    {
        self.state.tma
    }

    /// TAC as it is read: bits 7 to 3 are unused and read 1 (fixed profile).
    #[inline]
    pub fn tac(&self) -> u8
        ensures { result ≡ 0xf8 + self.now.tac }
    {
        0xf8 + self.state.tac
    }

    /// A write to DIV, of whatever value, sets the counter to 0. The signal may fall by it.
    pub fn write_div(&mut self) -> Requests
        ensures state { self.new ≡ (div_written self.old).timer }
        ensures requests { result.bits ≡ timer_request (div_written self.old).requested }
    {
        Requests::of_timer(self.change(0, self.state.tac))
    }

    /// A write to TIMA.
    #[inline]
    pub fn write_tima(&mut self, value: u8)
        ensures { self.new ≡ record self.old { tima = value } }
    {
        self.state.tima = value;
    }

    /// A write to TMA.
    #[inline]
    pub fn write_tma(&mut self, value: u8)
        ensures { self.new ≡ record self.old { tma = value } }
    {
        self.state.tma = value;
    }

    /// A write to TAC, of which the three low bits are kept. The signal may fall by it.
    pub fn write_tac(&mut self, value: u8) -> Requests
        ensures state { self.new ≡ (tac_written value self.old).timer }
        ensures requests { result.bits ≡ timer_request (tac_written value self.old).requested }
    {
        Requests::of_timer(self.change(self.state.counter, value % 8))
    }

    /// The counter and TAC become these. Returns whether a fall of the signal requests the interrupt.
    fn change(&mut self, counter: u16, tac: u8) -> bool
        requires { tac < 8 }
        ensures { record { timer = self.new; requested = result } ≡
            with_counter_and_tac counter tac (unrequested self.old) }
    {
        let before = self.signal();
        self.state.counter = counter;
        self.state.tac = tac;
        if before && !self.signal() {
            self.count_falls(1)
        } else {
            false
        }
    }

    /// The signal whose falls TIMA counts.
    fn signal(&self) -> bool
        ensures { result ≡ signal self.now.tac self.now.counter }
    {
        let counter = self.state.counter;
        let from_bit = match self.state.tac % 4 {
            0 => counter / 512,
            1 => counter / 8,
            2 => counter / 32,
            _ => counter / 128,
        };
        self.state.tac >= 4 && from_bit % 2 == 1
    }

    /// After how many M-cycles the selected bit falls next.
    fn cycles_to_fall(&self) -> u32
        ensures cycles { result ≡ due_of_bit (selected_bit self.now.tac) self.now.counter }
        ensures some { 1 ≤ result }
        ensures few { result ≤ 256 }
    {
        let counter = u32::from(self.state.counter);
        let ahead = match self.state.tac % 4 {
            0 => 1024 - counter % 1024,
            1 => 16 - counter % 16,
            2 => 64 - counter % 64,
            _ => 256 - counter % 256,
        };
        (ahead + 3) / 4
    }

    /// How often the signal falls in that many M-cycles: once at each multiple of twice the selected bit.
    #[inline]
    fn falls_in(&self, cycles: u32) -> u64
        ensures { result ≡ falls_in self.now.tac self.now.counter cycles }
    {
        if self.state.tac < 4 {
            return 0;
        }
        let counter = u64::from(self.state.counter);
        let grown = 4 * u64::from(cycles);
        match self.state.tac % 4 {
            0 => (counter % 1024 + grown) / 1024,
            1 => (counter % 16 + grown) / 16,
            2 => (counter % 64 + grown) / 64,
            _ => (counter % 256 + grown) / 256,
        }
    }

    /// Counts that many falls, and returns whether the interrupt is requested.
    #[inline]
    fn count_falls(&mut self, falls: u64) -> bool
        requires { falls < 2 ^ 40 }
        ensures { record { timer = self.new; requested = result } ≡ with_falls falls (unrequested self.old) }
    {
        let tima = u64::from(self.state.tima) + falls;
        if tima < 256 {
            self.state.tima = tima as u8;
            return false;
        }
        let tma = u64::from(self.state.tma);
        self.state.tima = (tma + (tima - 256) % (256 - tma)) as u8;
        true
    }
}
