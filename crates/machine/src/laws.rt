//! Laws of the definitions. The functions do nothing: the contract of each is a law.

ghost use Rattle.machine.specs.MachineLaws.{FrameIsLeast, InputsAddUp, CartridgeStays};
ghost use Rattle.machine.specs.WatchedLaws.{SeesItsSteps, StepSendsOnTime, WatchingChangesNothing};

/// A frame ends with the first step that completes its 17,556 M-cycles, over every memory.
pub fn frame_ends_with_the_first_step_that_completes_it<M>()
    ensures { FrameIsLeast M }
{}

/// Giving inputs one after another is the same as giving the whole list.
pub fn inputs_add_up()
    ensures { InputsAddUp }
{}

/// No frame and no second changes which cartridge is in the machine: its ROM, kind, motor and length of RAM stay
/// the same.
pub fn inputs_keep_the_cartridge()
    ensures { CartridgeStays }
{}

/// A step sends the byte that SB holds when its accesses are made, if a transfer ends in its M-cycles, and else nothing.
pub fn step_sends_the_byte_of_the_transfer_that_ends_in_it()
    ensures { StepSendsOnTime }
{}

/// Just the bytes that the steps of a watched frame send are seen in it.
pub fn watched_frame_sees_its_steps()
    ensures { SeesItsSteps }
{}

/// A watched frame that is not broken off leaves the machine as the frame does.
pub fn watching_changes_nothing()
    ensures { WatchingChangesNothing }
{}
