//! The registers of a bank controller.

ghost use Rattle.std.specs.Prelude.{◌≡◌};

use crate::clock::{ClockRegister, ClockRegisters};
use cartridge::Controller;

/// What a snapshot holds of a cartridge's controller, beside its RAM. A register that the kind
/// does not have is 0 or false.
#[derive(Clone, Copy, Debug, PartialEq, Eq)]
pub struct BanksState {
    /// The cartridge's.
    pub kind: Controller,
    pub ram_enabled: bool,
    /// The bank of 16 KiB at 4000 to 7FFF: MBC1 its five low bits (1 to 31), MBC2 1 to 15, MBC3 1 to
    /// 127, MBC5 0 to 511.
    pub rom_bank: u16,
    /// The bank of 8 KiB at A000 to BFFF. MBC1: two bits, which also count 32 ROM banks each. MBC3:
    /// four bits, of which 8 to C name clock registers. MBC5: four bits, or three with rumble.
    pub ram_bank: u8,
    /// MBC1: the banking mode. MBC3 with clock: whether a write of 01 latches the clock.
    pub mode: bool,
    /// The clock of MBC3 as it runs.
    pub clock: ClockRegisters,
    /// The clock as it was latched last, which is what reads see.
    pub latched: ClockRegisters,
}

fn is_enabling(value: u8) -> bool
    ensures { result ≡ enables value }
{
    value % 16 == 10
}

/// Bank 0 becomes 1.
fn from_one(bank: u8) -> u16
    ensures { result ≡ one_for_zero bank }
{
    if bank == 0 {
        return 1;
    }
    u16::from(bank)
}

ghost use Rattle.bank_controllers.specs.Writes.{is_enabling as enables, from_one as one_for_zero};

impl BanksState {
    ghost use Rattle.std.specs.Prelude.{◌+◌, ◌*◌, ◌/◌, ◌%◌, ◌<◌, if◌then◌else◌};
    ghost use Rattle.bank_controllers.specs.State.{state_at_power_on, has_clock};
    ghost use Rattle.bank_controllers.specs.Places.{low_bank_of, high_bank_of};
    ghost use Rattle.bank_controllers.specs.CartridgeState.{clock_written};
    ghost use Rattle.bank_controllers.specs.Writes.{mbc1_written, mbc2_written, mbc3_banks_written, latch_written, mbc3_clock_written, mbc5_written, register_written};

    pub(crate) fn at_power_on(kind: Controller) -> BanksState
        ensures { result ≡ state_at_power_on kind }
    {
        BanksState {
            kind,
            ram_enabled: false,
            rom_bank: first_bank(kind),
            ram_bank: 0,
            mode: false,
            clock: ClockRegisters::POWER_ON,
            latched: ClockRegisters::POWER_ON,
        }
    }

    /// The registers after a write below 8000.
    #[tactic(auto, unfolding(crate::specs::Writes::register_written))]
    pub(crate) fn register_written(self, rumble: bool, address: u16, value: u8) -> BanksState
        requires { address < 0x8000 }
        ensures { result ≡ register_written rumble address value self }
    {
        match self.kind {
            Controller::NoMbc => self,
            Controller::Mbc1 => self.mbc1_written(address, value),
            Controller::Mbc2 => self.mbc2_written(address, value),
            Controller::Mbc3 => self.mbc3_banks_written(address, value),
            Controller::Mbc3Clock => self.mbc3_clock_written(address, value),
            Controller::Mbc5 => self.mbc5_written(rumble, address, value),
        }
    }

    fn mbc1_written(self, address: u16, value: u8) -> BanksState
        requires { address < 0x8000 }
        ensures { result ≡ mbc1_written address value self }
    {
        let mut state = self;
        match address {
            0..=0x1FFF => state.ram_enabled = is_enabling(value),
            0x2000..=0x3FFF => state.rom_bank = from_one(value % 32),
            0x4000..=0x5FFF => state.ram_bank = value % 4,
            _ => state.mode = value % 2 == 1,
        }
        state
    }

    fn mbc2_written(self, address: u16, value: u8) -> BanksState
        ensures { result ≡ mbc2_written address value self }
    {
        let mut state = self;
        if address >= 0x4000 {
            return state;
        }
        if address / 256 % 2 == 0 {
            state.ram_enabled = is_enabling(value);
        } else {
            state.rom_bank = from_one(value % 16);
        }
        state
    }

    fn mbc3_banks_written(self, address: u16, value: u8) -> BanksState
        ensures { result ≡ mbc3_banks_written address value self }
    {
        let mut state = self;
        match address {
            0..=0x1FFF => state.ram_enabled = is_enabling(value),
            0x2000..=0x3FFF => state.rom_bank = from_one(value % 128),
            0x4000..=0x5FFF => state.ram_bank = value % 16,
            _ => {}
        }
        state
    }

    fn mbc3_clock_written(self, address: u16, value: u8) -> BanksState
        ensures { result ≡ mbc3_clock_written address value self }
    {
        if address < 0x6000 {
            return self.mbc3_banks_written(address, value);
        }
        self.latch_written(value)
    }

    fn latch_written(self, value: u8) -> BanksState
        ensures { result ≡ latch_written value self }
    {
        let mut state = self;
        state.mode = value == 0;
        if self.mode && value == 1 {
            state.latched = self.clock;
        }
        state
    }

    fn mbc5_written(self, rumble: bool, address: u16, value: u8) -> BanksState
        ensures { result ≡ mbc5_written rumble address value self }
    {
        let mut state = self;
        match address {
            0..=0x1FFF => state.ram_enabled = is_enabling(value),
            0x2000..=0x2FFF => state.rom_bank = 256 * (self.rom_bank / 256) + u16::from(value),
            0x3000..=0x3FFF => state.rom_bank = 256 * u16::from(value % 2) + self.rom_bank % 256,
            0x4000..=0x5FFF => state.ram_bank = if rumble { value % 8 } else { value % 16 },
            _ => {}
        }
        state
    }

    /// A clock register is written, the live one and the latched one.
    pub(crate) fn clock_written(self, register: ClockRegister, value: u8) -> BanksState
        ensures { result ≡ clock_written register value self }
    {
        BanksState {
            clock: self.clock.with(register, value),
            latched: self.latched.with(register, value),
            ..self
        }
    }

    pub(crate) fn has_clock(self) -> bool
        ensures { result ≡ has_clock self.kind }
    {
        matches!(self.kind, Controller::Mbc3Clock)
    }

    /// The ROM bank at 0000 to 3FFF.
    pub(crate) fn low_bank(self) -> usize
        ensures { result ≡ low_bank_of self.kind self }
    {
        if self.kind == Controller::Mbc1 && self.mode {
            return 32 * usize::from(self.ram_bank);
        }
        0
    }

    /// The ROM bank at 4000 to 7FFF.
    pub(crate) fn high_bank(self) -> usize
        ensures { result ≡ high_bank_of self.kind self }
    {
        match self.kind {
            Controller::NoMbc => 1,
            Controller::Mbc1 => 32 * usize::from(self.ram_bank) + usize::from(self.rom_bank),
            _ => usize::from(self.rom_bank),
        }
    }
}

ghost use Rattle.bank_controllers.specs.State.{rom_bank_at_power_on};

fn first_bank(kind: Controller) -> u16
    ensures { result ≡ rom_bank_at_power_on kind }
{
    match kind {
        Controller::NoMbc => 0,
        _ => 1,
    }
}
