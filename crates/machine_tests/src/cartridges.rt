//! Cartridges that are read and refused.
use crate::asserting::{OrStop, holds, same};
use cartridge::{Cartridge, Controller};
use std::alloc::Global;
use std::process::Abort;
use std::test::Fail;

/// An image of zeros, with a type and a RAM code.
fn image(alloc: Global, length: usize, kind: u8, ram_code: u8) -> Result<Vec<u8>, Fail> {
    let mut bytes = vec![in alloc; 0; length]?;
    if length > 0x149 {
        bytes[0x147] = kind;
        bytes[0x149] = ram_code;
    }
    Ok(bytes)
}

/// The length of ROM, the type, 1 where it has a rumble, the codes and lengths of ROM in banks and of RAM, and the header checksum as it
/// stands there and as it is computed.
fn numbers(cartridge: &Cartridge) -> [usize; 9] {
    [
        cartridge.rom().len(),
        usize::from(cartridge.kind()),
        usize::from(cartridge.has_rumble()),
        usize::from(cartridge.rom_code()),
        usize::from(cartridge.banks()),
        usize::from(cartridge.ram_code()),
        cartridge.ram_length(),
        usize::from(cartridge.checksum_stored()),
        usize::from(cartridge.checksum_computed()),
    ]
}

/// The numbers, the controller and the title.
fn has(
    rt: &impl Abort,
    cartridge: &Cartridge,
    wanted: [usize; 9],
    controller: Controller,
    title: &[u8],
) {
    same!(rt; numbers(cartridge), wanted);
    same!(rt; cartridge.controller(), controller);
    same!(rt; cartridge.title(), title);
}

/// The outcome of reading an image of zeros with this length, type and RAM code.
fn refused(rt: &impl Abort, alloc: Global, length: usize, kind: u8, ram_code: u8, text: &str) {
    let said = match Cartridge::read(image(alloc, length, kind, ram_code).or_stop(rt)) {
        Ok(_) => format!(in alloc; "accepted").or_stop(rt),
        Err(why) => format!(in alloc; "{why}").or_stop(rt),
    };
    holds!(rt;
        said.as_str() == text,
        "length {length} kind {kind} code {ram_code}: {said}"
    );
}

#[test]
fn names_the_first_broken_rule(rt: HostRuntime) {
    for (length, kind, ram_code, text) in [
        (0, 0x00, 0x00, "rom length 0"),
        (32767, 0x00, 0x00, "rom length 32767"),
        (49152, 0xFF, 0x01, "rom length 49152"),
        (16384, 0x00, 0x00, "rom length 16384"),
        (32768, 0xFF, 0x01, "cartridge type FF"),
        (32768, 0x04, 0x00, "cartridge type 04"),
        (32768, 0x0B, 0x00, "cartridge type 0B"),
        (65536, 0x00, 0x01, "ram code 01"),
        (32768, 0x01, 0x01, "ram code 01"),
        (32768, 0x1E, 0x06, "ram code 06"),
        (65536, 0x00, 0x00, "too many banks 4"),
        (65536, 0x09, 0x02, "too many banks 4"),
        (524288, 0x06, 0x00, "too many banks 32"),
        (4194304, 0x13, 0x03, "too many banks 256"),
    ] {
        refused(&rt, rt.alloc(), length, kind, ram_code, text);
    }
}
