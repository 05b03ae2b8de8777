//! Worked values on the whole bus. Most begin with the LCD and the timer off and no interrupt requested.
use crate::asserting::{OrStop, same};
use cartridge::Cartridge;
use memory_map::Bus;
use std::alloc::Global;
use std::process::Abort;
use std::test::Fail;

fn at_power_on(alloc: Global) -> Result<Bus, Fail> {
    let rom = vec![in alloc; 0u8; 0x8000]?;
    match Cartridge::read(rom) {
        Ok(cartridge) => Ok(Bus::new(alloc, &cartridge)?),
        Err(_) => Err(Fail::from("no cartridge")),
    }
}

// These have no contract, so that a test's proof does not follow the numbers.

fn get(bus: &Bus, address: u16) -> u8 {
    bus.read(address)
}

fn due(bus: &Bus) -> Option<u32> {
    bus.due()
}

fn has(rt: &impl Abort, bus: &Bus, expected: &[(u16, u8)]) {
    for (address, value) in expected {
        same!(rt; get(bus, *address), *value, "at {:04X}", *address);
    }
}

#[test]
fn power_on_values(rt: HostRuntime) {
    let bus = at_power_on(rt.alloc()).or_stop(&rt);
    has(
        &rt,
        &bus,
        &[
            (0xff00, 0xcf),
            (0xff01, 0x00),
            (0xff02, 0x7e),
            (0xff04, 0xab),
            (0xff05, 0x00),
            (0xff06, 0x00),
            (0xff07, 0xf8),
            (0xff0f, 0xe1),
            (0xff40, 0x91),
            (0xff41, 0x86),
            (0xff44, 0x00),
            (0xff46, 0xff),
            (0xff47, 0xfc),
            (0xff48, 0xff),
            (0xff49, 0xff),
            (0xffff, 0x00),
        ],
    );
    same!(rt; due(&bus), Some(20));
}
