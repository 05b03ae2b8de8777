//! Laws of scripts and of new files. The functions do nothing: the contract of each is the law.
ghost use Rattle.replaying.specs.Laws.{TheScriptGivesTheInputsBack, NewFilesAgree};

/// Law: reading the script of inputs gives moves that stand for exactly these inputs.
pub fn the_script_gives_the_inputs_back()
    ensures { TheScriptGivesTheInputsBack }
{}

/// Law: a game that begins at power-on, as `new_game` leaves it, and a recording without inputs, as
/// `create_recording` leaves it, agree.
pub fn new_files_agree()
    ensures { NewFilesAgree }
{}
