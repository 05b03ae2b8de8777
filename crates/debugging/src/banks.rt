//! Which bank is mapped at an address.

ghost use Rattle.std.specs.Prelude.{◌≡◌, ◌<◌, ◌+◌, ◌*◌, ◌%◌, ℕ, length, IfSome};
ghost use Rattle.bank_controllers.specs.CartridgeState.{place_of};
ghost use Rattle.bank_controllers.specs.Places.{high_bank_of, in_enabled_ram, in_mbc3, in_ram, in_ram_bank, is_ram_enabled, low_bank_of};
ghost use Rattle.debugging.specs.Banks.{bank_at, bank_of};
ghost use Rattle.debugging.specs.Profile.{rom_offset};
ghost use Rattle.debugging.specs.Quiet.{HasRom};

use bank_controllers::BanksState;
use cartridge::Controller;
use memory_map::{Bus, Region};

/// The bytes of a bank of ROM.
const ROM_BANK: usize = 0x4000;

/// The bytes of a bank of cartridge RAM.
const RAM_BANK: usize = 0x2000;

/// The number of the bank that is mapped at an address. Condition: the ROM has so many bytes.
#[tactic(auto, unfolding(bank_controllers::specs::CartridgeState::place_of, bank_controllers::specs::Places::low_start, bank_controllers::specs::Places::high_start))]
pub(crate) fn bank_at(memory: &Bus, rom: usize, address: u16) -> u16
    requires { HasRom rom memory.now }
    ensures { result ≡ bank_at memory.now address }
{
    let banks = memory.state().banks;
    if address < 0x4000 {
        return present(low_bank(&banks), rom / ROM_BANK);
    }
    if address < 0x8000 {
        return present(high_bank(&banks), rom / ROM_BANK);
    }
    if address >= 0xa000 && address < 0xc000 {
        return ram_bank(&banks, memory.region(Region::CartRam).len());
    }
    0
}

/// The byte of ROM that is mapped at an address, by its place in the image. Condition: the ROM has so many bytes.
#[tactic(auto, unfolding(bank_controllers::specs::CartridgeState::place_of, bank_controllers::specs::Places::low_start, bank_controllers::specs::Places::high_start))]
pub(crate) fn rom_offset(memory: &Bus, rom: usize, address: u16) -> Option<usize>
    requires { HasRom rom memory.now }
    ensures offset { result ≡ rom_offset (place_of memory.now.banks address) }
    ensures inside { IfSome result (λ at. at < length memory.now.banks.rom) }
{
    let banks = memory.state().banks;
    if address < 0x4000 {
        let bank = present(low_bank(&banks), rom / ROM_BANK);
        return Some(offset_in(bank, address));
    }
    if address < 0x8000 {
        let bank = present(high_bank(&banks), rom / ROM_BANK);
        return Some(offset_in(bank, address));
    }
    None
}

fn offset_in(bank: u16, address: u16) -> usize
    ensures { result ≡ 16384 * bank + address % 16384 }
{
    ROM_BANK * usize::from(bank) + usize::from(address) % ROM_BANK
}

/// Which of so many banks a number chooses. Condition: there is one.
fn present(bank: u16, banks: usize) -> u16
    requires { 0 < banks }
    ensures bank { result ≡ bank % banks }
    ensures below { result < banks }
{
    (usize::from(bank) % banks) as u16
}

/// The ROM bank that the registers choose for 0000 to 3FFF, whether it is present or not.
fn low_bank(banks: &BanksState) -> u16
    ensures { result ≡ low_bank_of banks.now.kind banks.now }
{
    match banks.kind {
        Controller::Mbc1 if banks.mode => 32 * u16::from(banks.ram_bank),
        _ => 0,
    }
}

/// The ROM bank that the registers choose for 4000 to 7FFF, whether it is present or not. Condition: the register is one of a controller.
fn high_bank(banks: &BanksState) -> u16
    requires { banks.now.rom_bank < 512 }
    ensures { result ≡ high_bank_of banks.now.kind banks.now }
{
    match banks.kind {
        Controller::NoMbc => 1,
        Controller::Mbc1 => 32 * u16::from(banks.ram_bank) + banks.rom_bank,
        _ => banks.rom_bank,
    }
}

/// The bank of so many bytes of RAM at A000 to BFFF; 0 where none is.
#[tactic(auto, unfolding(bank_controllers::specs::Places::in_ram))]
fn ram_bank(banks: &BanksState, ram: usize) -> u16
    ensures { (offset : ℕ) → offset < 8192 → result ≡ bank_of (in_ram ram banks.now offset) }
{
    if !is_ram_enabled(banks) {
        return 0;
    }
    enabled_ram_bank(banks, ram)
}

fn is_ram_enabled(banks: &BanksState) -> bool
    ensures { result ≡ is_ram_enabled banks.now.kind banks.now }
{
    match banks.kind {
        Controller::NoMbc => true,
        _ => banks.ram_enabled,
    }
}

fn enabled_ram_bank(banks: &BanksState, ram: usize) -> u16
    ensures { (offset : ℕ) → offset < 8192 → result ≡ bank_of (in_enabled_ram banks.now.kind ram banks.now offset) }
{
    match banks.kind {
        Controller::NoMbc => ram_bank_present(0, ram),
        Controller::Mbc1 if banks.mode => ram_bank_present(banks.ram_bank, ram),
        Controller::Mbc1 => ram_bank_present(0, ram),
        Controller::Mbc2 => 0,
        Controller::Mbc3 => mbc3_ram_bank(banks.ram_bank, ram),
        Controller::Mbc3Clock if banks.ram_bank < 8 => ram_bank_present(banks.ram_bank, ram),
        Controller::Mbc3Clock => 0,
        Controller::Mbc5 => ram_bank_present(banks.ram_bank, ram),
    }
}

fn mbc3_ram_bank(select: u8, ram: usize) -> u16
    ensures { (offset : ℕ) → offset < 8192 → result ≡ bank_of (in_mbc3 ram select offset) }
{
    if select < 8 {
        return ram_bank_present(select, ram);
    }
    0
}

/// Which of the banks of so many bytes of RAM a number chooses.
fn ram_bank_present(bank: u8, ram: usize) -> u16
    ensures { (offset : ℕ) → offset < 8192 → result ≡ bank_of (in_ram_bank ram bank offset) }
{
    let banks = ram / RAM_BANK;
    if banks == 0 {
        return 0;
    }
    present(u16::from(bank), banks)
}
