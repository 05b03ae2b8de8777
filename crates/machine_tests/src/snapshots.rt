//! Worked values on snapshots.
use crate::asserting::{OrStop, holds, same};
use cartridge::Cartridge;
use machine::{Machine, Region};
use snapshot::{SnapError, decode, encode, length};
use std::alloc::Global;
use std::process::Abort;
use std::test::Fail;

const REGIONS: [Region; 6] = [
    Region::Vram,
    Region::Wram,
    Region::Oam,
    Region::Hram,
    Region::Sound,
    Region::CartRam,
];

// A cartridge of 32 KiB with this type, RAM code and program at 0100.
fn cartridge(alloc: Global, kind: u8, ram_code: u8, program: &[u8]) -> Result<Cartridge, Fail> {
    let mut rom = vec![in alloc; 0u8; 0x8000]?;
    put(&mut rom, 0x147, kind);
    put(&mut rom, 0x149, ram_code);
    for (index, byte) in program.iter().enumerate() {
        put(&mut rom, 0x100usize.saturating_add(index), *byte);
    }
    Cartridge::read(rom).map_err(|_| Fail::from("no cartridge"))
}

fn put(bytes: &mut [u8], at: usize, value: u8) {
    if let Some(place) = bytes.get_mut(at) {
        *place = value;
    }
}

fn at(bytes: &[u8], at: usize) -> u8 {
    bytes.get(at).copied().unwrap_or(0)
}

fn snapshot_of(alloc: Global, machine: &Machine) -> Result<Vec<u8>, Fail> {
    let ram = machine.region(Region::CartRam).len();
    if ram > 131_072 {
        return Err(Fail::from("too much RAM"));
    }
    let mut bytes = vec![in alloc; 0u8; length(ram)]?;
    encode(machine, &mut bytes);
    Ok(bytes)
}

fn fault_of(alloc: Global, bytes: &[u8], cartridge: &Cartridge) -> Option<SnapError> {
    decode(alloc, bytes, cartridge).err()
}

fn machine_of(alloc: Global, bytes: &[u8], cartridge: &Cartridge) -> Result<Machine, Fail> {
    decode(alloc, bytes, cartridge).map_err(|_| Fail::from("refused"))
}

fn power_on(alloc: Global, cartridge: &Cartridge) -> Result<Machine, Fail> {
    Ok(Machine::power_on(alloc, cartridge)?)
}

// These have no contract, so that a test's proof does not follow the numbers.

// Whether two machines agree in all that can be asked of them.
fn are_same(a: &Machine, b: &Machine) -> bool {
    if a.state() != b.state() {
        return false;
    }
    for region in REGIONS {
        if a.region(region) != b.region(region) {
            return false;
        }
    }
    for y in 0..144 {
        if a.picture().row(y) != b.picture().row(y) {
            return false;
        }
    }
    true
}

fn snapshot_at_power_on(alloc: Global, cartridge: &Cartridge) -> Result<Vec<u8>, Fail> {
    snapshot_of(alloc, &power_on(alloc, cartridge)?)
}

#[test]
fn lengths(rt: HostRuntime) {
    same!(rt; length(0), 22_607);
    same!(rt; length(512), 23_119);
    same!(rt; length(8_192), 30_799);
    same!(rt; length(32_768), 55_375);
    same!(rt; length(65_536), 88_143);
    same!(rt; length(131_072), 153_679);
}

// Whether this is the snapshot of a machine at power-on.
fn is_at_power_on(alloc: Global, bytes: &[u8], cartridge: &Cartridge) -> Result<bool, Fail> {
    let found = machine_of(alloc, bytes, cartridge)?;
    Ok(are_same(&power_on(alloc, cartridge)?, &found))
}

fn has_fault(
    rt: &impl Abort,
    alloc: Global,
    bytes: &[u8],
    cartridge: &Cartridge,
    wanted: Option<SnapError>,
) {
    same!(rt; fault_of(alloc, bytes, cartridge), wanted);
}

#[test]
fn snapshots_are_refused_at_their_first_fault(rt: HostRuntime) {
    let alloc = rt.alloc();
    let cartridge = cartridge(alloc, 0x00, 0, &[]).or_stop(&rt);
    let mut bytes = snapshot_at_power_on(alloc, &cartridge).or_stop(&rt);
    same!(rt; bytes.len(), 22_607);
    holds!(rt; is_at_power_on(alloc, &bytes, &cartridge).or_stop(&rt));
    for (offset, field) in [(127, 67), (9, 9)] {
        put(&mut bytes, offset, 0x01);
        has_fault(
            &rt,
            alloc,
            &bytes,
            &cartridge,
            Some(SnapError::Field(field)),
        );
    }
    for length in [22_606, 0] {
        bytes.truncate(length);
        let wanted = Some(SnapError::SnapLength(length as u64));
        has_fault(&rt, alloc, &bytes, &cartridge, wanted);
    }
}

// A row of the table as the tests have it: where the field begins, its width, the least and the greatest number, and the
// bits that it may have.
#[derive(Clone, Copy)]
struct Row {
    offset: u32,
    width: u8,
    least: u16,
    most: u16,
    bits: u16,
}

fn of(offset: u32, width: u8, least: u16, most: u16, bits: u16) -> Row {
    Row {
        offset,
        width,
        least,
        most,
        bits,
    }
}

// A type with its byte 51, its first and last ROM bank, its last RAM bank, and 1 where RAM enable, mode and clock are there.
#[derive(Clone, Copy)]
struct Kind {
    cartridge_type: u8,
    number: u16,
    first_bank: u16,
    last_bank: u16,
    last_ram_bank: u16,
    enable: u16,
    mode: u16,
    clock: u16,
}

fn kind_row(cartridge_type: u8, number: u16, banks: [u16; 3], has: [u16; 3]) -> Kind {
    Kind {
        cartridge_type,
        number,
        first_bank: banks[0],
        last_bank: banks[1],
        last_ram_bank: banks[2],
        enable: has[0],
        mode: has[1],
        clock: has[2],
    }
}

fn kinds() -> [Kind; 7] {
    [
        kind_row(0x08, 0, [0, 0, 0], [0, 0, 0]),
        kind_row(0x02, 1, [1, 31, 3], [1, 1, 0]),
        kind_row(0x05, 2, [1, 15, 0], [1, 0, 0]),
        kind_row(0x11, 3, [1, 127, 15], [1, 0, 0]),
        kind_row(0x0f, 4, [1, 127, 15], [1, 1, 1]),
        kind_row(0x19, 5, [0, 511, 15], [1, 0, 0]),
        kind_row(0x1c, 5, [0, 511, 7], [1, 0, 0]),
    ]
}

// The fields that have more than one rule for all bytes, by offset.
fn rows(kind: Kind) -> [Row; 28] {
    let sixty = if kind.clock == 1 { 63 } else { 0 };
    let hours = if kind.clock == 1 { 31 } else { 0 };
    let day = if kind.clock == 1 { 255 } else { 0 };
    let high = if kind.clock == 1 { 0xc1 } else { 0 };
    [
        of(9, 1, 0, 255, 0xf0),
        of(20, 1, 0, 255, 0x3f),
        of(21, 1, 0, 5, 255),
        of(23, 1, 0, 255, 0x1f),
        of(25, 1, 0, 255, 0x30),
        of(30, 1, 0, 7, 255),
        of(32, 1, 0, 255, 0x81),
        of(33, 2, 0, 1024, u16::MAX),
        of(36, 1, 0, 160, 255),
        of(38, 1, 0, 255, 0x78),
        of(47, 1, 0, 153, 255),
        of(48, 1, 0, 113, 255),
        of(50, 1, 0, 255, 0x03),
        of(51, 1, kind.number, kind.number, 255),
        of(52, 1, 0, kind.enable, 255),
        of(53, 2, kind.first_bank, kind.last_bank, u16::MAX),
        of(55, 1, 0, kind.last_ram_bank, 255),
        of(56, 1, 0, kind.mode, 255),
        of(57, 1, 0, sixty, 255),
        of(58, 1, 0, sixty, 255),
        of(59, 1, 0, hours, 255),
        of(60, 1, 0, day, 255),
        of(61, 1, 0, 255, high),
        of(62, 1, 0, sixty, 255),
        of(63, 1, 0, sixty, 255),
        of(64, 1, 0, hours, 255),
        of(65, 1, 0, day, 255),
        of(66, 1, 0, 255, high),
    ]
}

fn number(bytes: &[u8], row: Row) -> u16 {
    let low = u16::from(at(bytes, row.offset as usize));
    if row.width == 1 {
        return low;
    }
    low.wrapping_add(u16::from(at(bytes, (row.offset as usize).wrapping_add(1))).wrapping_mul(256))
}

fn place_of(row: Row, place: usize) -> usize {
    (row.offset as usize).wrapping_add(place)
}

fn is_good(number: u16, row: Row) -> bool {
    row.least <= number && number <= row.most && number & row.bits == number
}

const VALUES: [u8; 24] = [
    0, 1, 2, 3, 4, 6, 7, 8, 15, 16, 31, 32, 63, 64, 113, 114, 127, 128, 153, 154, 160, 161, 192,
    255,
];

// Whether the snapshot is refused with this byte of a field, which it has to be at this field, or not at all.
fn is_refused(alloc: Global, bytes: &[u8], row: Row, cartridge: &Cartridge) -> Result<bool, Fail> {
    let wanted = if is_good(number(bytes, row), row) {
        None
    } else {
        Some(SnapError::Field(row.offset))
    };
    if fault_of(alloc, bytes, cartridge) != wanted {
        return Err(Fail::from("another answer"));
    }
    Ok(wanted.is_some())
}

// Each byte of a field becomes each of the values in turn: how many are refused.
fn refusals(alloc: Global, bytes: &mut [u8], row: Row, cartridge: &Cartridge) -> Result<u32, Fail> {
    let mut refused: u32 = 0;
    for place in 0..usize::from(row.width) {
        let offset = place_of(row, place);
        let before = at(bytes, offset);
        for value in VALUES {
            put(bytes, offset, value);
            if is_refused(alloc, bytes, row, cartridge)? {
                refused = refused.wrapping_add(1);
            }
        }
        put(bytes, offset, before);
    }
    Ok(refused)
}

fn each_field_is_looked_at(alloc: Global, kind: Kind) -> Result<u32, Fail> {
    let cartridge = cartridge(alloc, kind.cartridge_type, 0x02, &[])?;
    let mut bytes = snapshot_at_power_on(alloc, &cartridge)?;
    let mut refused: u32 = 0;
    for row in rows(kind) {
        refused = refused.wrapping_add(refusals(alloc, &mut bytes, row, &cartridge)?);
    }
    Ok(refused)
}

#[test]
fn each_field_of_each_kind_is_looked_at(rt: HostRuntime) {
    for kind in kinds() {
        let refused = each_field_is_looked_at(rt.alloc(), kind).or_stop(&rt);
        holds!(rt; refused > 300);
    }
}
