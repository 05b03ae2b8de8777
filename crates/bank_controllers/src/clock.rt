//! The clock of MBC3.

ghost use Rattle.std.specs.Prelude.{◌≡◌, ◌<◌, ◌≤◌, nat_lt, if◌then◌else◌};
ghost use Rattle.bank_controllers.specs.ClockJump.{value_after, passed_on};

/// The registers of the clock, one field a byte. Legal: seconds and minutes below 64, hours below
/// 32, and of the day's high byte only bit 7 (carry), bit 6 (halt) and bit 0 (bit 8 of the day).
#[derive(Clone, Copy, Debug, PartialEq, Eq)]
pub struct ClockRegisters {
    pub seconds: u8,
    pub minutes: u8,
    pub hours: u8,
    pub day_low: u8,
    pub day_high: u8,
}

/// The name of a register, 8 to C in the controller's numbers.
#[derive(Clone, Copy)]
pub enum ClockRegister {
    Seconds,
    Minutes,
    Hours,
    DayLow,
    DayHigh,
}

/// Where a register stands after some steps, and how often it has passed on. It counts to `limit`,
/// and from a value beyond that on to `width`.
fn turn(limit: u32, width: u32, value: u8, steps: u32) -> (u8, u32)
    requires limit { (0 < limit) × (limit ≤ width) × (width ≤ 64) }
    requires value { value < width }
    ensures value { result.0 ≡ value_after limit width value steps }
    ensures passed { result.1 ≡ passed_on limit width value steps }
{
    let start = u64::from(value);
    let (limit, width, steps) = (u64::from(limit), u64::from(width), u64::from(steps));
    if start < limit {
        let total = start + steps;
        ((total % limit) as u8, (total / limit) as u32)
    } else if steps < width - start {
        ((start + steps) as u8, 0)
    } else {
        let total = steps - (width - start);
        ((total % limit) as u8, (total / limit) as u32)
    }
}

impl ClockRegisters {
    ghost use Rattle.std.specs.Fn.{iterate};
    ghost use Rattle.bank_controllers.specs.Clock.{IsLegalClock, clock_at_power_on, clock_second, next_second, next_minute, next_hour, next_day, day_of, halt_of, carry_of, with_day, register_of, with_register};
    ghost use Rattle.bank_controllers.specs.ClockJump.{days_after};

    /// All registers 00.
    pub const POWER_ON: ClockRegisters = ClockRegisters {
        seconds: 0,
        minutes: 0,
        hours: 0,
        day_low: 0,
        day_high: 0,
    };

    pub(crate) fn register(self, register: ClockRegister) -> u8
        ensures { result ≡ register_of register self }
    {
        match register {
            ClockRegister::Seconds => self.seconds,
            ClockRegister::Minutes => self.minutes,
            ClockRegister::Hours => self.hours,
            ClockRegister::DayLow => self.day_low,
            ClockRegister::DayHigh => self.day_high,
        }
    }

    /// With a register written.
    pub(crate) fn with(self, register: ClockRegister, value: u8) -> ClockRegisters
        ensures { result ≡ with_register register value self }
    {
        let mut written = self;
        match register {
            ClockRegister::Seconds => written.seconds = value % 64,
            ClockRegister::Minutes => written.minutes = value % 64,
            ClockRegister::Hours => written.hours = value % 32,
            ClockRegister::DayLow => written.day_low = value,
            ClockRegister::DayHigh => written.day_high = 64 * (value / 64) + value % 2,
        }
        written
    }

    /// Some seconds later.
    #[tactic(auto, using(crate::proofs::ClockJump::clock_runs))]
    pub(crate) fn after_seconds(self, seconds: u32) -> ClockRegisters
        requires { IsLegalClock self }
        ensures { result ≡ iterate clock_second seconds self }
    {
        if self.day_high / 64 % 2 == 1 {
            return self;
        }
        let (value, minutes) = turn(60, 64, self.seconds, seconds);
        ClockRegisters {
            seconds: value,
            ..self
        }
        .after_minutes(minutes)
    }

    #[tactic(auto, using(crate::proofs::ClockJump::minutes_by_turning))]
    fn after_minutes(self, minutes: u32) -> ClockRegisters
        requires { IsLegalClock self }
        ensures { result ≡ iterate next_minute minutes self }
    {
        let (value, hours) = turn(60, 64, self.minutes, minutes);
        ClockRegisters {
            minutes: value,
            ..self
        }
        .after_hours(hours)
    }

    #[tactic(auto, using(crate::proofs::ClockJump::hours_by_turning))]
    fn after_hours(self, hours: u32) -> ClockRegisters
        requires { IsLegalClock self }
        ensures { result ≡ iterate next_hour hours self }
    {
        let (value, days) = turn(24, 32, self.hours, hours);
        ClockRegisters {
            hours: value,
            ..self
        }
        .after_days(days)
    }

    fn after_days(self, days: u32) -> ClockRegisters
        requires { IsLegalClock self }
        ensures { result ≡ iterate next_day days self }
    {
        let total = u64::from(self.day_low) + 256 * u64::from(self.day_high % 2) + u64::from(days);
        let carry = self.carry_after(total);
        let halt = self.day_high / 64 % 2;
        let day = total % 512;
        ClockRegisters {
            day_low: (day % 256) as u8,
            day_high: 128 * carry + 64 * halt + (day / 256) as u8,
            ..self
        }
    }

    /// The carry, where the day would be `total` if it had no end.
    fn carry_after(self, total: u64) -> u8
        ensures { result ≡ (if nat_lt total 512 then carry_of self else 1) }
    {
        if total < 512 {
            return self.day_high / 128;
        }
        1
    }
}
