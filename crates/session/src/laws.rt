//! Laws of what images stand for. The functions do nothing: the contract of each is the law.
ghost use Rattle.session.specs.Laws.{MoreInputsStandFurther, ASnapshotStandsForItsMachine, EntriesGiveInputsBack};

/// Law: a content with more inputs added to its log stands for the position that many inputs
/// further on.
pub fn more_inputs_stand_further()
    ensures { MoreInputsStandFurther }
{}

/// Law: a new generation with a snapshot of a machine stands for this machine.
pub fn a_snapshot_stands_for_its_machine()
    ensures { ASnapshotStandsForItsMachine }
{}

/// Law: the entry of an input gives back the input.
pub fn entries_give_inputs_back()
    ensures { EntriesGiveInputsBack }
{}
