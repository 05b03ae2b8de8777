//! Bytes as a machine.

ghost use Rattle.std.specs.Prelude.{◌≡◌, IfOk, IfErr, IfSome, IfNone, MatchResult, OnErr, OnOk, length, slice_range};
ghost use Rattle.memory_map.specs.Stores.{FitsRegion};
ghost use Rattle.machine.specs.Machine.{MachineState, picture_rows};
ghost use Rattle.snapshot.specs.Encoding.{encoded, snapshot_length, length_without_ram};
ghost use Rattle.snapshot.specs.Reading.{with_rows, with_stores, rows_in};
ghost use Rattle.snapshot.specs.Legal.{IsMachineOf, IsOfImage, IsFault, IsLegalSnapshot, IsRefusal};

use crate::error::SnapError;
use crate::layout;
use crate::picture::row_in;
use crate::registers::registers_in;
use crate::table::{first_illegal, table};
use crate::to_bytes::length;
use cartridge::Cartridge;
use machine::{Machine, Region};
use std::alloc::Global;

/// The machine of this cartridge that has this snapshot.
///
/// Refused with the first of these that holds: another length than the cartridge's snapshots have, `SnapLength`; a field that is
/// not legal, `Field` with the offset of the first one; out of memory. No machine is made before all fields are found legal.
pub fn decode(alloc: Global, bytes: &[u8], cartridge: &Cartridge) -> Result<Machine, SnapError>
    ensures ok { IfOk result (λ m. IsMachineOf cartridge.now m × (encoded m ≡ bytes.now)) }
    ensures all { (m : MachineState) → IsMachineOf cartridge.now m → encoded m ≡ bytes.now
        → MatchResult result (λ found. found ≡ m) (λ error. error ≡ SnapError.Memory) }
    ensures err { IfErr result (IsRefusal cartridge.now bytes.now) }
{
    if let Some(fault) = fault(bytes, cartridge) {
        return Err(fault);
    }
    let Ok(mut machine) = Machine::power_on(alloc, cartridge) else {
        return Err(SnapError::Memory);
    };
    machine.restore(&registers_in(cartridge.controller(), bytes));
    fill_stores(&mut machine, bytes);
    Ok(machine)
}

/// Makes a machine of this cartridge the one that has this snapshot, without taking memory. Condition: it is one of this cartridge.
///
/// Refused with the first of these that holds, with the machine as it was: another length than the cartridge's snapshots have, `SnapLength`; a
/// field that is not legal, `Field` with the offset of the first one.
pub fn decode_into(
    bytes: &[u8],
    cartridge: &Cartridge,
    machine: &mut Machine,
) -> Result<(), SnapError>
    requires { IsOfImage cartridge.now machine.old }
    ensures ok { OnOk result (IsMachineOf cartridge.now machine.new × (encoded machine.new ≡ bytes.now)) }
    ensures all { (m : MachineState) → IsMachineOf cartridge.now m → encoded m ≡ bytes.now →
        MatchResult result (λ done. machine.new ≡ m) (λ error. ⊥) }
    ensures err { IfErr result (IsFault cartridge.now bytes.now) }
    ensures refused { OnErr result ((machine.new ≡ machine.old) × (¬ IsLegalSnapshot cartridge.now bytes.now)) }
{
    if let Some(why) = fault(bytes, cartridge) {
        return Err(why);
    }
    // there are 144 rows
    let _known = machine.state();
    let registers = registers_in(cartridge.controller(), bytes);
    machine.restore(&registers);
    fill_stores(machine, bytes);
    Ok(())
}

/// Sets the stores and the picture.
fn fill_stores(machine: &mut Machine, bytes: &[u8])
    requires length { length bytes.now ≡ snapshot_length (length machine.old.processor.memory.banks.ram) }
    requires rows { length (picture_rows machine.old) ≡ 144 }
    requires ram { FitsRegion machine.old.processor.memory Region.CartRam
        (slice_range bytes.now length_without_ram (length bytes.now)) }
    ensures { machine.new ≡ with_stores bytes.now machine.old }
{
    machine.fill(
        Region::Vram,
        &bytes[layout::VRAM as usize..layout::WRAM as usize],
    );
    machine.fill(
        Region::Wram,
        &bytes[layout::WRAM as usize..layout::OAM as usize],
    );
    machine.fill(
        Region::Oam,
        &bytes[layout::OAM as usize..layout::HRAM as usize],
    );
    machine.fill(
        Region::Hram,
        &bytes[layout::HRAM as usize..layout::SOUND as usize],
    );
    machine.fill(
        Region::Sound,
        &bytes[layout::SOUND as usize..layout::ROWS as usize],
    );
    set_rows(machine, &bytes[layout::ROWS as usize..layout::RAM as usize]);
    machine.fill(Region::CartRam, &bytes[layout::RAM as usize..]);
}

/// The first fault of bytes, if they are not a legal snapshot of this cartridge.
fn fault(bytes: &[u8], cartridge: &Cartridge) -> Option<SnapError>
    ensures none { IfNone result (IsLegalSnapshot cartridge.now bytes.now) }
    ensures some { IfSome result (IsRefusal cartridge.now bytes.now) }
    ensures named { IfSome result (IsFault cartridge.now bytes.now) }
    ensures illegal { IfSome result (λ why. ¬ IsLegalSnapshot cartridge.now bytes.now) }
{
    let ram = cartridge.ram_length();
    if bytes.len() != length(ram) {
        return Some(SnapError::SnapLength(bytes.len() as u64));
    }
    let fields = table(cartridge.controller(), cartridge.has_rumble(), ram as u32);
    match first_illegal(&fields, bytes) {
        Some(offset) => Some(SnapError::Field(offset)),
        None => None,
    }
}

/// Sets all rows of the picture.
fn set_rows(machine: &mut Machine, picture: &[u8])
    requires length { length picture.now ≡ 5760 }
    requires rows { length (picture_rows machine.old) ≡ 144 }
    ensures { machine.new ≡ with_rows (rows_in picture.now) machine.old }
{
    for y in 0..144 {
        machine.set_row(y, &row_in(picture, y));
    }
}
