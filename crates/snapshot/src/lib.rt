//! Snapshots: one for each machine, and one machine for each legal snapshot.
//!
//! A snapshot is 22,607 bytes and the cartridge's RAM. Its bytes stand in `specs/Encoding.antt`, and which bytes are legal in
//! `specs/Table.antt`. A snapshot holds all of a machine but its ROM: the same cartridge has to be handed in again.
#![tactic(auto)]

pub mod error;
pub mod field;
mod from_bytes;
mod laws;
mod layout;
mod picture;
mod power;
mod registers;
mod table;
mod to_bytes;

pub use error::SnapError;
pub use field::{Rule, SnapshotField};
pub use from_bytes::{decode, decode_into};
pub use laws::{
    a_legal_snapshot_is_a_machine, one_snapshot_is_one_machine, snapshots_are_legal,
    the_start_is_a_machine,
};
pub use power::{powered, set_clocks};
pub use to_bytes::{encode, length};
