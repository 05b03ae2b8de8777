//! A machine as bytes.

ghost use Rattle.std.specs.Prelude.{◌≡◌, ◌^◌, ◌-◌, ◌+◌, min, length};
ghost use Rattle.machine.specs.Machine.{picture_rows};
ghost use Rattle.machine.specs.Legal.{AreLegalStores, IsLegalMachine};
ghost use Rattle.snapshot.specs.Encoding.{encoded, snapshot_length, stores_bytes, unused};

use crate::layout;
use crate::picture::write_picture;
use crate::registers::fixed_fields;
use machine::{Machine, Region};

/// The length of a snapshot without cartridge RAM, which comes last.
const LENGTH_WITHOUT_RAM: usize = layout::RAM as usize;

/// The length of a snapshot, by the bytes of cartridge RAM: 22,607 more. A sum that no `usize` holds is `usize::MAX`.
pub fn length(ram: usize) -> usize
    ensures { result ≡ min (snapshot_length ram) (2 ^ 64 - 1) }
{
    ram.saturating_add(LENGTH_WITHOUT_RAM)
}

/// Writes the snapshot of a machine. Condition: the slice is as long as `length` says for the machine's RAM. It takes no memory.
/// Every machine is legal, so that its snapshot is a legal one for its cartridge.
#[tactic(auto, unfolding(crate::specs::Encoding::encoded))]
pub fn encode(machine: &Machine, out: &mut [u8])
    requires { length out.old ≡ snapshot_length (length machine.now.processor.memory.banks.ram) }
    ensures encoded { out.new ≡ encoded machine.now }
    ensures legal { IsLegalMachine machine.now }
{
    let (fields, stores) = out.split_at_mut(layout::UNUSED as usize);
    fields.copy_from_slice(&fixed_fields(machine.state()));
    write_stores(machine, stores);
}

fn write_stores(machine: &Machine, out: &mut [u8])
    requires room { length out.old ≡ 22540 + length machine.now.processor.memory.banks.ram }
    requires rows { length (picture_rows machine.now) ≡ 144 }
    ensures encoded { out.new ≡ stores_bytes machine.now.processor.memory }
    ensures legal { AreLegalStores machine.now.processor.memory }
{
    let (unused, out) = out.split_at_mut((layout::VRAM - layout::UNUSED) as usize);
    clear(unused);
    let (vram, out) = out.split_at_mut((layout::WRAM - layout::VRAM) as usize);
    vram.copy_from_slice(machine.region(Region::Vram));
    let (wram, out) = out.split_at_mut((layout::OAM - layout::WRAM) as usize);
    wram.copy_from_slice(machine.region(Region::Wram));
    let (oam, out) = out.split_at_mut((layout::HRAM - layout::OAM) as usize);
    oam.copy_from_slice(machine.region(Region::Oam));
    let (hram, out) = out.split_at_mut((layout::SOUND - layout::HRAM) as usize);
    hram.copy_from_slice(machine.region(Region::Hram));
    let (sound, out) = out.split_at_mut((layout::ROWS - layout::SOUND) as usize);
    sound.copy_from_slice(machine.region(Region::Sound));
    let (picture, ram) = out.split_at_mut((layout::RAM - layout::ROWS) as usize);
    write_picture(machine.picture(), picture);
    ram.copy_from_slice(machine.region(Region::CartRam));
}

#[tactic(auto, unfolding(crate::specs::Encoding::unused))]
fn clear(out: &mut [u8])
    requires { length out.old ≡ 61 }
    ensures { out.new ≡ unused }
{
    out.copy_from_slice(&[0; 61]);
}
