//! The mark of a game that is recorded: a file beside SAVE, `SAVE.recorded`, whose first line is the name of its recording.

ghost use Rattle.std.specs.Prelude.{◌≡◌, ◌⊎◌, IfErr};

use crate::files::file_bytes;
use crate::making::replaced_file;
use recording_marks::{Known, Mark, SECOND_LINE, known_line, read_mark};
use refusals::Refusal;
use std::alloc::AllocError;
use std::fs::{self, File};
use std::io::ErrorKind;
use std::rt::Files;

/// A mark is read up to this many bytes and one: the longest name of a file, and its other lines.
const MOST_MARK: u64 = 8_192;

/// Refuses a game that has a mark.
pub(crate) fn unless_recorded<R: Files<File = File> + AllocGlobal>(
    rt: &R,
    save: &str,
) -> Result<(), Refusal>
    ensures { IfErr result (λ fault. (fault ≡ Refusal.RecordedGame) ⊎ (fault ≡ Refusal.Memory)) }
{
    let Ok(mark) = mark_of(rt, save) else {
        return Err(Refusal::Memory);
    };
    match fs::symlink_metadata(rt, mark.as_str()) {
        Ok(_) => Err(Refusal::RecordedGame),
        Err(_) => Ok(()),
    }
}

/// What was found of the mark of a game.
#[derive(Clone, Copy)]
pub(crate) struct FoundMark {
    /// What it says, if there is one.
    pub(crate) said: Option<Mark>,
    /// It has the recording's name as it is given.
    pub(crate) names_it: bool,
}

/// Looks for the mark of a game. Anything else that stands there is refused.
pub(crate) fn found_mark<R: Files<File = File> + AllocGlobal>(
    rt: &R,
    save: &str,
    recording: &str,
) -> Result<FoundMark, Refusal>
    ensures { IfErr result (λ fault. (fault ≡ Refusal.File) ⊎ (fault ≡ Refusal.Memory)) }
{
    let Ok(mark) = mark_of(rt, save) else {
        return Err(Refusal::Memory);
    };
    match fs::symlink_metadata(rt, mark.as_str()) {
        Ok(_) => {}
        Err(fault) if fault.kind() == ErrorKind::NotFound => {
            return Ok(FoundMark {
                said: None,
                names_it: false,
            });
        }
        Err(_) => return Err(Refusal::File),
    }
    let lines = file_bytes(rt, mark.as_str(), MOST_MARK)?;
    let Some(said) = read_mark(lines.as_slice()) else {
        return Err(Refusal::File);
    };
    let names_it = match lines.as_slice().strip_prefix(recording.as_bytes()) {
        Some(rest) => rest.starts_with(SECOND_LINE.as_bytes()),
        None => false,
    };
    Ok(FoundMark {
        said: Some(said),
        names_it,
    })
}

/// Marks a game as recorded there, durably, with what is known of the recording. A mark that says so stays as it is.
pub(crate) fn mark<R: Files<File = File> + AllocGlobal>(
    rt: &R,
    save: &str,
    recording: &str,
    known: &Known,
) -> Result<(), Refusal>
    ensures { IfErr result (λ fault. (fault ≡ Refusal.File) ⊎ (fault ≡ Refusal.Memory)) }
{
    let (Ok(mark), Ok(lines)) = (mark_of(rt, save), lines_of(rt, recording, known)) else {
        return Err(Refusal::Memory);
    };
    match file_bytes(rt, mark.as_str(), MOST_MARK) {
        Ok(found) if found.as_slice() == lines.as_bytes() => Ok(()),
        Err(Refusal::Memory) => Err(Refusal::Memory),
        _ => match replaced_file(rt, mark.as_str(), lines.as_bytes()) {
            Ok(()) => Ok(()),
            Err(fault) => Err(fault),
        },
    }
}

/// Takes away the mark of a game that stood here before.
pub(crate) fn unmark<R: Files<File = File> + AllocGlobal>(rt: &R, save: &str) {
    let Ok(mark) = mark_of(rt, save) else {
        return;
    };
    let Ok(lines) = file_bytes(rt, mark.as_str(), MOST_MARK) else {
        return;
    };
    if read_mark(lines.as_slice()).is_some() {
        let _ = fs::remove_file(rt, mark.as_str());
    }
}

/// The name of the mark, beside the file itself where SAVE is a link.
fn mark_of<R: Files<File = File> + AllocGlobal>(rt: &R, save: &str) -> Result<String, AllocError> {
    match fs::canonicalize(rt, save) {
        Ok(file) => marked(rt, file.as_str()),
        Err(_) => marked(rt, save),
    }
}

fn marked<R: AllocGlobal>(rt: &R, save: &str) -> Result<String, AllocError> {
    format!(in rt.alloc(); "{save}.recorded")
}

fn lines_of<R: AllocGlobal>(rt: &R, recording: &str, known: &Known) -> Result<String, AllocError> {
    let line = known_line(known);
    let line = line.as_str();
    format!(in rt.alloc(); "{recording}{SECOND_LINE}{line}")
}
