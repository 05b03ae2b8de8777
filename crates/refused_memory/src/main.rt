//! Calls that take memory: `refused_memory CALL` makes one, to be run with any one of its allocations refused.
//!
//! It prints `unready` where the memory before the call was refused, `done` where the call did what it does, and `refused` where it
//! answered so and left all as it was. Whatever else it answers is `wrong`, with status 1. Without a word it prints the calls.
#![tactic(auto)]

mod answers;
mod calls;

use answers::Answer;
use std::process::ExitCode;
use std::{env, io};

/// The calls, and their names.
const CALLS: [&str; 15] = [
    "power_on",
    "decode",
    "debugger",
    "open_log",
    "new_game",
    "resume",
    "read_script",
    "play",
    "picture",
    "step_line",
    "debug_rom",
    "debug_game",
    "debug_states",
    "device",
    "image",
];

fn make(rt: &HostRuntime, call: &str) -> Answer {
    let alloc = rt.alloc();
    let made = match call {
        "power_on" => calls::power_on(alloc),
        "decode" => calls::decoded(alloc),
        "debugger" => calls::debugger(alloc),
        "open_log" => calls::opened(alloc),
        "new_game" => calls::begun(alloc),
        "resume" => calls::resumed(alloc),
        "read_script" => calls::script(alloc),
        "play" => calls::played(alloc),
        "picture" => calls::drawn(alloc),
        "step_line" => calls::stepped(alloc),
        "debug_rom" => calls::debugged_rom(alloc),
        "debug_game" => calls::debugged_game(alloc),
        "debug_states" => calls::debugged_states(alloc),
        "device" => calls::device(alloc),
        "image" => calls::image(alloc),
        _ => None,
    };
    made.unwrap_or(Answer::Unready)
}

fn main(rt: HostRuntime) -> io::Result<ExitCode> {
    let Ok(mut words) = env::args(&rt) else {
        println!(rt; "unready")?;
        return Ok(ExitCode::SUCCESS);
    };
    let Some(call) = words.nth(1) else {
        for call in CALLS {
            println!(rt; "{call}")?;
        }
        return Ok(ExitCode::SUCCESS);
    };
    match make(&rt, call.as_str()) {
        Answer::Unready => println!(rt; "unready")?,
        Answer::Done => println!(rt; "done")?,
        Answer::Refused => println!(rt; "refused")?,
        Answer::Wrong => {
            println!(rt; "wrong")?;
            return Ok(ExitCode::FAILURE);
        }
    }
    Ok(ExitCode::SUCCESS)
}
