//! States: which ROM they name, and their bytes.

ghost use Rattle.std.specs.Prelude.{◌≡◌, ◌≤◌, length, take, Ok, Err};
ghost use Rattle.state_header.specs.States.{header_length, header_of, state_length, state_of, IsOfAnotherRom};
ghost use Rattle.session.specs.declared.error.Damage.{Damage};
ghost use Rattle.session.specs.declared.error.SessionError.TheVariants.{Damaged, OtherCartridge};
ghost use Rattle.embedding.specs.States.{IsNoState};

use cartridge::Cartridge;
use machine::Machine;
use session::SessionError;
use snapshot::encode;
use state_header::{HEADER_LENGTH, Named, header, read_header};

/// Which ROM these bytes name, if they are a state.
pub(crate) fn named(bytes: &[u8], cartridge: &Cartridge) -> Named
    ensures own { result ≡ Named.Same →
        (header_length ≤ length bytes.now) × (take header_length bytes.now ≡ header_of cartridge.now) }
    ensures other { result ≡ Named.Other → IsOfAnotherRom cartridge.now bytes.now }
    ensures none { result ≡ Named.Nothing → IsNoState bytes.now }
{
    if bytes.len() < HEADER_LENGTH {
        return Named::Nothing;
    }
    read_header(&bytes[..HEADER_LENGTH], cartridge)
}

/// Writes the state of a machine with this cartridge.
pub(crate) fn write_state(machine: &Machine, cartridge: &Cartridge, bytes: &mut [u8])
    requires rom { machine.now.processor.memory.banks.rom ≡ cartridge.now }
    requires room { length bytes.old ≡ state_length (length machine.now.processor.memory.banks.ram) }
    ensures { bytes.new ≡ state_of machine.now }
{
    let (front, snapshot) = bytes.split_at_mut(HEADER_LENGTH);
    front.copy_from_slice(&header(cartridge));
    encode(machine, snapshot);
}

/// What is told of a state of another ROM, by what is told of no bytes: why no input is taken, and else that it is of another ROM.
pub(crate) fn told_of_other(answer: Result<(), SessionError>) -> Result<(), SessionError>
    ensures damaged { (what : Damage) → answer ≡ Err (Damaged what) → result ≡ Err OtherCartridge }
    ensures same { ((what : Damage) → answer ≡ Err (Damaged what) → ⊥) → result ≡ answer }
{
    match answer {
        Err(SessionError::Damaged(_)) => Err(SessionError::OtherCartridge),
        same => same,
    }
}
