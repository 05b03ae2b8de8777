//! Laws of snapshots. The calls do nothing: the contract of each is a law.

ghost use Rattle.snapshot.specs.Laws.{ALegalSnapshotIsAMachine, OneSnapshotIsOneMachine, SnapshotsAreLegal, TheStartIsAMachine};

/// Two machines with one ROM and one snapshot are equal.
pub fn one_snapshot_is_one_machine()
    ensures { OneSnapshotIsOneMachine }
{}

/// The snapshot of a machine of a cartridge is legal for the cartridge.
pub fn snapshots_are_legal()
    ensures { SnapshotsAreLegal }
{}

/// A legal snapshot of an accepted cartridge is the snapshot of a machine of it, the one that is read from it.
pub fn a_legal_snapshot_is_a_machine()
    ensures { ALegalSnapshotIsAMachine }
{}

/// The machine at power-on of an accepted cartridge is a machine of it.
pub fn the_start_is_a_machine()
    ensures { TheStartIsAMachine }
{}
