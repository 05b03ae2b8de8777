//! A cartridge in the machine.

ghost use Rattle.std.specs.Prelude.{◌≡◌, ◌+◌, ◌*◌, ◌<◌, ◌≤◌, ◌/◌, length, replicate, IfOk};

use crate::state::BanksState;
use crate::window::Window;
use cartridge::{Cartridge, Controller};
use std::alloc::{AllocError, Global};
use std::marker::Model;

/// A cartridge in the machine: ROM, RAM, and the registers of its bank controller.
///
/// Contracts see the bytes of ROM and RAM, the registers, and whether an MBC5 has a rumble motor.
/// Addresses are 0000 to 7FFF (ROM, and writes to the registers) and A000 to BFFF (RAM or clock);
/// any other address reads FF and ignores writes.
#[derive(Drop)]
pub struct Banks {
    rom: Vec<u8>,
    ram: Vec<u8>,
    rumble: bool,
    state: BanksState,
    /// Where the banks that 0000 to 3FFF and 4000 to 7FFF show begin in `rom`.
    low: usize,
    high: usize,
    window: Window,
}

impl Model for Banks {
    ghost use Rattle.bank_controllers.specs.CartridgeState.{CartridgeState};
    ghost use Rattle.bank_controllers.specs.Invariant.{IsConsistent};

    ghost Value = { CartridgeState };

    ghost view = { λ b.
        record { rom = b.rom.items; ram = b.ram.items; rumble = b.rumble; state = b.state } };

    ghost invariant = { λ b.
        IsConsistent
        (record { rom = b.rom.items; ram = b.ram.items; rumble = b.rumble; state = b.state })
        b.low b.high b.window };
}

ghost use Rattle.bank_controllers.specs.Places.{rom_bank_start};

/// Where a bank of 16 KiB begins, of those that a ROM of this many bytes has.
fn rom_bank(bank: usize, rom: usize) -> usize
    requires rom { 32768 ≤ rom }
    requires bank { bank < 65536 }
    ensures { result ≡ rom_bank_start rom bank }
{
    0x4000 * (bank % (rom / 0x4000))
}

fn copy_of(alloc: Global, bytes: &[u8]) -> Result<Vec<u8>, AllocError>
    ensures { IfOk result (λ copy. copy.items ≡ bytes.now) }
{
    bytes.to_vec(alloc)
}

fn zeros(alloc: Global, count: usize) -> Result<Vec<u8>, AllocError>
    ensures { IfOk result (λ bytes. bytes.items ≡ replicate count 0) }
{
    vec![in alloc; 0; count]
}

impl Banks {
    ghost use Rattle.std.specs.Fn.{iterate};
    ghost use Rattle.bank_controllers.specs.State.{IsLegalBanks, state_at_power_on};
    ghost use Rattle.bank_controllers.specs.Window.{window_of, place_in};
    ghost use Rattle.bank_controllers.specs.CartridgeState.{IsLegalCartridge, IsLegalRam, IsSameCartridge, read_at, written, second, value_at, stored_at, cartridge_at_power_on};

    /// The cartridge at power-on. It copies the ROM.
    pub fn new(alloc: Global, cartridge: &Cartridge) -> Result<Banks, AllocError>
        ensures { IfOk result (λ banks. banks ≡ cartridge_at_power_on cartridge.now) }
    {
        let rom = copy_of(alloc, cartridge.rom())?;
        let ram = zeros(alloc, cartridge.ram_length())?;
        let controller = cartridge.controller();
        Ok(Banks::at_power_on(rom, ram, cartridge.has_rumble(), controller))
    }

    fn at_power_on(rom: Vec<u8>, ram: Vec<u8>, rumble: bool, kind: Controller) -> Banks
        requires rom { length rom.items ≡ 16384 * (length rom.items / 16384) }
        requires least { 32768 ≤ length rom.items }
        requires ram { IsLegalRam kind ram.items }
        ensures { result ≡ record {
          rom = rom.items;
          ram = ram.items;
          rumble = rumble;
          state = state_at_power_on kind;
        } }
    {
        let state = BanksState::at_power_on(kind);
        let low = rom_bank(state.low_bank(), rom.len());
        let high = rom_bank(state.high_bank(), rom.len());
        let window = Window::of(state, ram.len());
        Banks {
            rom,
            ram,
            rumble,
            state,
            low,
            high,
            window,
        }
    }

    /// Reads an address. No read changes anything.
    #[inline]
    #[tactic(auto, using(crate::proofs::Windows::shows_its_places), unfolding(crate::specs::CartridgeState::read_at, crate::specs::CartridgeState::place_of))]
    pub fn read(&self, address: u16) -> u8
        ensures { result ≡ read_at self.now address }
    {
        if address < 0x4000 {
            return self.rom[self.low + usize::from(address)];
        }
        if address < 0x8000 {
            return self.rom[self.high + usize::from(address) - 0x4000];
        }
        if address >= 0xA000 && address < 0xC000 {
            return self.read_window(usize::from(address - 0xA000));
        }
        0xFF
    }

    fn read_window(&self, offset: usize) -> u8
        requires { offset < 8192 }
        ensures { let window = window_of (length self.now.ram) self.now.state in
            result ≡ value_at self.now (place_in window offset) }
    {
        match self.window {
            Window::RamBank(start) => self.ram[start + offset],
            Window::HalfBytes => 0xF0 + self.ram[offset % 512],
            Window::Clock(register) => self.state.latched.register(register),
            Window::Shut => 0xFF,
        }
    }

    /// Writes to an address.
    #[tactic(auto, using(crate::proofs::Windows::shows_its_places), unfolding(crate::specs::CartridgeState::written, crate::specs::CartridgeState::place_of))]
    pub fn write(&mut self, address: u16, value: u8)
        ensures written { self.new ≡ written address value self.old }
        ensures same { IsSameCartridge self.old self.new }
    {
        if address < 0x8000 {
            return self.write_register(address, value);
        }
        if address >= 0xA000 && address < 0xC000 {
            self.write_window(usize::from(address - 0xA000), value);
        }
    }

    ghost use Rattle.bank_controllers.specs.Writes.{register_written};

    fn write_register(&mut self, address: u16, value: u8)
        requires { address < 0x8000 }
        ensures { let state = register_written self.old.rumble address value self.old.state in
            self.new ≡ record self.old { state = state } }
    {
        let state = self.state.register_written(self.rumble, address, value);
        self.restore(&state);
    }

    fn write_window(&mut self, offset: usize, value: u8)
        requires { offset < 8192 }
        ensures { let window = window_of (length self.old.ram) self.old.state in
            self.new ≡ stored_at (place_in window offset) value self.old }
    {
        match self.window {
            Window::RamBank(start) => self.ram[start + offset] = value,
            Window::HalfBytes => self.ram[offset % 512] = value % 16,
            Window::Clock(register) => {
                let state = self.state.clock_written(register, value);
                self.restore(&state);
            }
            Window::Shut => {}
        }
    }

    /// That many seconds pass for the clock of MBC3; without a clock nothing changes.
    pub fn pass_seconds(&mut self, seconds: u32)
        ensures passed { self.new ≡ iterate second seconds self.old }
        ensures same { IsSameCartridge self.old self.new }
    {
        if !self.state.has_clock() {
            return;
        }
        let state = BanksState {
            clock: self.state.clock.after_seconds(seconds),
            ..self.state
        };
        self.restore(&state);
    }

    /// What a snapshot holds of the controller: each field legal for this cartridge.
    pub fn state(&self) -> BanksState
        ensures state { result ≡ self.now.state }
        ensures cartridge { IsLegalCartridge self.now }
        ensures legal { IsLegalBanks self.now.state.kind self.now.rumble result }
    {
        self.state
    }

    /// Sets the controller's registers. Condition: they are legal for this cartridge.
    pub fn restore(&mut self, state: &BanksState)
        requires { IsLegalBanks self.old.state.kind self.old.rumble state.now }
        ensures { self.new ≡ record self.old { state = state.now } }
    {
        self.state = *state;
        self.low = rom_bank(state.low_bank(), self.rom.len());
        self.high = rom_bank(state.high_bank(), self.rom.len());
        self.window = Window::of(*state, self.ram.len());
    }

    /// The bytes of cartridge RAM; of MBC2 each is below 16.
    pub fn ram(&self) -> &[u8]
        ensures bytes { result.now ≡ self.now.ram }
        ensures legal { IsLegalRam self.now.state.kind result.now }
    {
        self.ram.as_slice()
    }

    /// Sets the cartridge RAM. Condition: as many bytes as it has, for MBC2 each below 16.
    pub fn fill(&mut self, bytes: &[u8])
        requires length { length bytes.now ≡ length self.old.ram }
        requires legal { IsLegalRam self.old.state.kind bytes.now }
        ensures { self.new ≡ record self.old { ram = bytes.now } }
    {
        self.ram.as_mut_slice().copy_from_slice(bytes);
    }
}
