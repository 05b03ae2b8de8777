//! The header of a state.
//!
//! A snapshot holds all of a machine but its ROM. A state, which leaves the process, is a snapshot behind 40 bytes: `GBSTATE1`, and the SHA-256 of
//! the ROM, by which a state of another cartridge is refused.
#![tactic(auto)]

ghost use Rattle.std.specs.Prelude.{◌≡◌, length};
ghost use Rattle.snapshot.specs.Encoding.{snapshot_length};
ghost use Rattle.state_header.specs.States.{IsNamed, header_length, header_of};

use cartridge::Cartridge;

/// The bytes of a header.
pub const HEADER_LENGTH: usize = 40;

/// The first bytes of each state.
const MARK: &[u8] = b"GBSTATE1";

/// Which ROM a header names.
#[derive(Clone, Copy, Debug, PartialEq, Eq)]
pub enum Named {
    /// The one that was asked for.
    Same,
    /// Another one.
    Other,
    /// None: the header is not that of a state.
    Nothing,
}

/// The header of this cartridge's states.
#[tactic(auto, unfolding(crate::specs::States::header_of))]
pub fn header(cartridge: &Cartridge) -> [u8; 40]
    ensures { result ≡ header_of cartridge.now }
{
    let mut header = [0; 40];
    header[..8].copy_from_slice(MARK);
    header[8..].copy_from_slice(&cartridge.digest());
    header
}

/// Which ROM a header names. Condition: it has 40 bytes.
pub fn read_header(bytes: &[u8], cartridge: &Cartridge) -> Named
    requires { length bytes.now ≡ header_length }
    ensures { IsNamed result cartridge.now bytes.now }
{
    let own = header(cartridge);
    if bytes == own.as_slice() {
        return Named::Same;
    }
    if &bytes[..8] == MARK {
        return Named::Other;
    }
    Named::Nothing
}
