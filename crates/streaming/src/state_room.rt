//! Room for states.
ghost use Rattle.std.specs.Prelude.{◌≡◌, [], length, IfOk};
ghost use Rattle.std.specs.List.{All};
ghost use Rattle.cartridge.specs.Header.{ram_length_of};
ghost use Rattle.snapshot.specs.Encoding.{snapshot_length};

use cartridge::Cartridge;
use machine_lines::KeptStates;
use snapshot::length;
use std::alloc::{AllocError, Global};

/// Room for a snapshot that is told or taken, and the states that are kept under numbers.
#[derive(Drop)]
pub struct StateRoom {
    pub(crate) snapshot: Vec<u8>,
    pub(crate) kept: KeptStates,
}

impl StateRoom {
    /// Room for the states of this cartridge, of which none is kept.
    pub fn new(alloc: Global, cartridge: &Cartridge) -> Result<StateRoom, AllocError>
        ensures snapshot { IfOk result (λ room.
            length room.snapshot.items ≡ snapshot_length (ram_length_of cartridge.now)) }
        ensures kept { IfOk result (λ room. All (λ bytes. bytes ≡ []) room.kept) }
    {
        let snapshot = vec![in alloc; 0u8; length(cartridge.ram_length())]?;
        let kept = KeptStates::new(alloc)?;
        Ok(StateRoom { snapshot, kept })
    }
}
