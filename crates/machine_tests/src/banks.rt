//! Controllers: banks, RAM and the clock.
use crate::asserting::{OrStop, holds, same};
use bank_controllers::{Banks, BanksState, ClockRegisters};
use cartridge::{Cartridge, Controller};
use std::alloc::Global;
use std::test::Fail;

/// A cartridge of this type, so many banks of ROM and this RAM code. Each bank's first byte is its
/// number, its second byte the number's high half.
fn inserted(alloc: Global, kind: u8, rom_banks: u16, ram_code: u8) -> Result<Banks, Fail> {
    let mut image = vec![in alloc; 0; usize::from(rom_banks) * 0x4000]?;
    for bank in 0..rom_banks {
        let start = usize::from(bank) * 0x4000;
        if start + 1 < image.len() {
            image[start] = (bank % 256) as u8;
            image[start + 1] = (bank / 256) as u8;
        }
    }
    if image.len() > 0x149 {
        image[0x147] = kind;
        image[0x149] = ram_code;
    }
    let cartridge = Cartridge::read(image)?;
    let banks = Banks::new(alloc, &cartridge)?;
    Ok(banks)
}

// These have no contract, so that a test's proof does not follow the controller.

fn write(banks: &mut Banks, address: u16, value: u8) {
    banks.write(address, value);
}

fn read(banks: &Banks, address: u16) -> u8 {
    banks.read(address)
}

fn state_of(banks: &Banks) -> BanksState {
    banks.state()
}

fn is_blank(banks: &Banks) -> bool {
    banks.ram().iter().all(|byte| *byte == 0)
}

/// An MBC3 with clock, whose clock registers are set to these and enabled.
fn clock(alloc: Global, registers: [u8; 5]) -> Result<Banks, Fail> {
    let mut banks = inserted(alloc, 0x10, 2, 0x00)?;
    write(&mut banks, 0x0000, 0x0A);
    for (register, value) in (8u8..13).zip(registers) {
        write(&mut banks, 0x4000, register);
        write(&mut banks, 0xA000, value);
    }
    Ok(banks)
}

/// Latches the clock and reads registers 8 to C.
fn latched(banks: &mut Banks) -> [u8; 5] {
    write(banks, 0x6000, 0x00);
    write(banks, 0x6000, 0x01);
    let mut registers = [0; 5];
    for (register, value) in (8u8..13).zip(registers.iter_mut()) {
        write(banks, 0x4000, register);
        *value = read(banks, 0xA000);
    }
    registers
}

#[test]
fn begins_as_at_power_on(rt: HostRuntime) {
    for (kind, controller, rom_bank) in [
        (0x08, Controller::NoMbc, 0),
        (0x02, Controller::Mbc1, 1),
        (0x05, Controller::Mbc2, 1),
        (0x11, Controller::Mbc3, 1),
        (0x0F, Controller::Mbc3Clock, 1),
        (0x1D, Controller::Mbc5, 1),
    ] {
        let banks = inserted(rt.alloc(), kind, 2, 0x02).or_stop(&rt);
        let zero = ClockRegisters {
            seconds: 0,
            minutes: 0,
            hours: 0,
            day_low: 0,
            day_high: 0,
        };
        let state = BanksState {
            kind: controller,
            ram_enabled: false,
            rom_bank,
            ram_bank: 0,
            mode: false,
            clock: zero,
            latched: zero,
        };
        same!(rt; state_of(&banks), state);
        holds!(rt; is_blank(&banks));
        same!(rt; read(&banks, 0x8000), 0xFF);
        same!(rt; read(&banks, 0xC000), 0xFF);
        same!(rt; read(&banks, 0xFFFF), 0xFF);
    }
}
