//! A machine once more.

ghost use Rattle.std.specs.Prelude.{◌≡◌, IfSome};
ghost use Rattle.snapshot.specs.Legal.{IsMachineOf};
ghost use Rattle.session.specs.Resting.{IsOfItsRom};

use cartridge::Cartridge;
use machine::Machine;
use snapshot::{decode, encode, length};
use std::alloc::Global;

/// The same machine again, so that a session keeps its own. `None`: there is no memory for it.
pub(crate) fn copy_of(alloc: Global, machine: &Machine, cartridge: &Cartridge) -> Option<Machine>
    requires rom { machine.now.processor.memory.banks.rom ≡ cartridge.now }
    requires own { IsOfItsRom machine.now }
    ensures { IfSome result (λ m. (m ≡ machine.now) × IsMachineOf cartridge.now machine.now) }
{
    let mut encoded = vec![in alloc; 0u8; length(cartridge.ram_length())].ok()?;
    encode(machine, &mut encoded);
    decode(alloc, &encoded, cartridge).ok()
}
