//! What A000 to BFFF shows.

ghost use Rattle.std.specs.Prelude.{◌≡◌};
ghost use Rattle.bank_controllers.specs.Window.{ram_bank_shown, clock_shown, open_window, window_of};

use crate::clock::ClockRegister;
use crate::state::BanksState;
use cartridge::Controller;

/// What A000 to BFFF shows.
#[derive(Clone, Copy)]
pub(crate) enum Window {
    /// A bank of 8 KiB that begins at this offset of the RAM.
    RamBank(usize),
    /// The 512 half bytes of MBC2, again and again.
    HalfBytes,
    Clock(ClockRegister),
    /// Nothing: reads give FF, and writes are ignored.
    Shut,
}

impl Window {
    /// The window that the registers open on this many bytes of RAM.
    #[tactic(auto, unfolding(crate::specs::Window::window_of))]
    pub(crate) fn of(state: BanksState, ram: usize) -> Window
        ensures { result ≡ window_of ram state }
    {
        if state.kind != Controller::NoMbc && !state.ram_enabled {
            return Window::Shut;
        }
        opened(state, ram)
    }
}

fn opened(state: BanksState, ram: usize) -> Window
    ensures { result ≡ open_window state.kind ram state }
{
    match state.kind {
        Controller::NoMbc => ram_bank(0, ram),
        Controller::Mbc1 if state.mode => ram_bank(state.ram_bank, ram),
        Controller::Mbc1 => ram_bank(0, ram),
        Controller::Mbc2 => Window::HalfBytes,
        Controller::Mbc3 if state.ram_bank >= 8 => Window::Shut,
        Controller::Mbc3Clock if state.ram_bank >= 8 => clock(state.ram_bank),
        Controller::Mbc3 | Controller::Mbc3Clock | Controller::Mbc5 => ram_bank(
            state.ram_bank,
            ram,
        ),
    }
}

fn ram_bank(bank: u8, ram: usize) -> Window
    ensures { result ≡ ram_bank_shown ram bank }
{
    let banks = ram / 0x2000;
    if banks == 0 {
        return Window::Shut;
    }
    Window::RamBank(0x2000 * (usize::from(bank) % banks))
}

fn clock(select: u8) -> Window
    ensures { result ≡ clock_shown select }
{
    match select {
        0x8 => Window::Clock(ClockRegister::Seconds),
        0x9 => Window::Clock(ClockRegister::Minutes),
        0xA => Window::Clock(ClockRegister::Hours),
        0xB => Window::Clock(ClockRegister::DayLow),
        0xC => Window::Clock(ClockRegister::DayHigh),
        _ => Window::Shut,
    }
}
