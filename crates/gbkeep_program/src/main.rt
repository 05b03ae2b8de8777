//! The program `gbkeep`: all of it is in the library.
#![tactic(auto)]

use exact_text::CheckedOutput;
use input_lines::CheckedInput;
use std::fs::File;
use std::io::Write;
use std::os::fd::AsRawFd;
use std::process::ExitCode;
use std::rt::Files;

/// What can be opened almost everywhere, and never takes a line.
const PLACES: [&str; 3] = ["/dev/null", "/", "."];

fn main(rt: HostRuntime) -> ExitCode {
    let mut err = rt.stderr();
    let Some(_held) = held_streams(&rt) else {
        let _ = err.write_all(b"gbkeep: file failed\n");
        return ExitCode::from(1);
    };
    let mut input = CheckedInput::new(rt.stdin());
    let mut out = CheckedOutput::new(rt.stdout());
    let mut err = CheckedOutput::new(err);
    ExitCode::from(gbkeep::run_program(&rt, &mut input, &mut out, &mut err))
}

/// Files that have the numbers of the standard streams that are closed, since the next file that is opened would take such a number, and
/// a line would go into a save file. None where nothing can be opened: then no file may be.
fn held_streams<R: Files<File = File>>(rt: &R) -> Option<[Option<File>; 3]> {
    let first = held_stream(rt)?;
    if first.as_raw_fd() > 2 {
        return Some([Some(first), None, None]);
    }
    let second = held_stream(rt)?;
    if second.as_raw_fd() > 2 {
        return Some([Some(first), Some(second), None]);
    }
    Some([Some(first), Some(second), Some(held_stream(rt)?)])
}

fn held_stream<R: Files<File = File>>(rt: &R) -> Option<File> {
    PLACES.iter().find_map(|place| File::open(rt, *place).ok())
}
