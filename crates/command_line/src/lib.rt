//! The words of the program, read by `clap`.
//!
//! What `clap` answers to words that it does not understand, and its help, are its own texts.
#![tactic(auto)]

ghost use Rattle.std.specs.Prelude.{◌≡◌, ◌<◌, ◌^◌, ℕ, List, None, Ok, map, option_map};
ghost use Rattle.std.specs.Option.{IsSomeAnd};
ghost use Rattle.clap.specs.Words.{FailsBy, fault_of, first_of, found_of, rows_of, subcommand_rows_of};
ghost use Rattle.command_line.specs.Commands.{AnswersAs, IsRead, Passes, PassesAs, gbkeep, given_at, number};
ghost use Rattle.command_line.specs.Words.{IsAnswer, Word, WritesWithin};

mod words;

use clap::{ArgMatches, Error};
use std::alloc::Global;
use std::convert::AsStr;

/// What the program is asked to do. Paths and addresses are still the words that were given.
#[derive(Clone, Copy)]
pub enum Request<'a> {
    /// Prints the header of the cartridge.
    Info {
        cart: &'a str,
    },
    /// Prints `count` instructions, 1 to 4,096, from `address` on.
    List {
        cart: &'a str,
        address: &'a str,
        count: u32,
    },
    /// Prints the registers after `count` steps, 0 to 1,000,000.
    Step {
        cart: &'a str,
        count: u32,
    },
    /// Begins a game in a new file of `sectors` sectors, 1 to 65,536; `None`: of as many as it needs.
    New {
        cart: &'a str,
        save: &'a str,
        sectors: Option<u32>,
    },
    /// Plays a script on the game in a file.
    Play {
        cart: &'a str,
        save: &'a str,
        script: &'a str,
    },
    /// Writes the picture of the game in a file to another file.
    Frame {
        cart: &'a str,
        save: &'a str,
        out: &'a str,
    },
    /// Prints the next `count` steps, 1 to 1,024, of the game in a file.
    Trace {
        cart: &'a str,
        save: &'a str,
        count: u32,
    },
    /// Plays the lines of the input on the game in a file, as they come.
    Stream {
        cart: &'a str,
        save: &'a str,
    },
    /// Runs a cartridge from power-on for `frames` frames, 1 to 1,000,000, or until it says that it is done.
    Test {
        cart: &'a str,
        frames: u32,
        script: Option<&'a str>,
    },
    /// Makes an empty recording of `sectors` sectors, 1 to 65,536, in a new file.
    NewRecording {
        cart: &'a str,
        recording: &'a str,
        sectors: u32,
    },
    /// Plays the lines of the input on the game in a file, as they come, and records each input.
    Record {
        cart: &'a str,
        save: &'a str,
        recording: &'a str,
    },
    /// Prints the inputs of a recording as a script.
    Recorded {
        cart: &'a str,
        recording: &'a str,
    },
    /// Compares the game in a file with its recording, played again from power-on.
    Verify {
        cart: &'a str,
        save: &'a str,
        recording: &'a str,
    },
    /// Prints what the game in a file holds, and writes nothing to the file.
    Show {
        cart: &'a str,
        save: &'a str,
    },
    /// Writes the battery file of the game in a file to a new file.
    Export {
        cart: &'a str,
        save: &'a str,
        out: &'a str,
    },
    /// Begins a game with the RAM of a battery file in a new file of `sectors` sectors, 1 to 65,536; `None`: of as many as it needs.
    Import {
        cart: &'a str,
        battery: &'a str,
        save: &'a str,
        sectors: Option<u32>,
    },
    /// Obeys the lines of the input as a debugger does, from power-on or from the game in a file.
    Debug {
        cart: &'a str,
        save: Option<&'a str>,
    },
}

/// The request that the words make, of which the first is the program's own name.
///
/// `clap`'s error has the text of what is not understood, or of the help or version that was asked for. It comes only
/// where the words ask for no request, or out of memory, and its kind is the one that `clap`'s definitions give.
/// The answer is never `None`: the type has it because the matches of `clap` may be of no command, or of another.
pub fn request_of<'a, S: AsStr>(alloc: Global, words: &'a [S]) -> Result<Option<Request<'a>>, Error>
    ensures asked { IsAnswer (map S.text words.entry.now) result }
    ensures kinds { FailsBy (fault_of gbkeep (map S.text words.entry.now)) result }
{
    let matches = words::command(alloc)?.try_get_matches_from(words)?;
    Ok(matched_request(&matches))
}

/// The request of matches.
fn matched_request<'a>(matches: &ArgMatches<'a>) -> Option<Request<'a>>
    ensures { (words : List Word) → IsRead words (subcommand_rows_of matches.now) → IsAnswer words (Ok result) }
{
    match matches.subcommand() {
        Some((name, values)) => named_request(name, values),
        None => None,
    }
}

fn named_request<'a>(name: &str, values: &ArgMatches<'a>) -> Option<Request<'a>>
    ensures { AnswersAs name.now (rows_of (found_of values.now)) result }
{
    let cart = operand(values, "CART");
    let save = operand(values, "SAVE");
    let out = operand(values, "OUT");
    let recording = operand(values, "RECORDING");
    match name {
        "info" => Some(Request::Info { cart }),
        "list" => Some(Request::List {
            cart,
            address: operand(values, "ADDR"),
            count: number(values, "COUNT"),
        }),
        "step" => Some(Request::Step {
            cart,
            count: number(values, "COUNT"),
        }),
        "new" => Some(Request::New {
            cart,
            save,
            sectors: optional_number(values, "SECTORS"),
        }),
        "play" => Some(Request::Play {
            cart,
            save,
            script: operand(values, "SCRIPT"),
        }),
        "frame" => Some(Request::Frame { cart, save, out }),
        "trace" => Some(Request::Trace {
            cart,
            save,
            count: number(values, "COUNT"),
        }),
        "stream" => Some(Request::Stream { cart, save }),
        "test" => Some(Request::Test {
            cart,
            frames: number(values, "FRAMES"),
            script: optional_operand(values, "SCRIPT"),
        }),
        "new-recording" => Some(Request::NewRecording {
            cart,
            recording,
            sectors: number(values, "SECTORS"),
        }),
        "record" => Some(Request::Record {
            cart,
            save,
            recording,
        }),
        "recorded" => Some(Request::Recorded { cart, recording }),
        "verify" => Some(Request::Verify {
            cart,
            save,
            recording,
        }),
        "show" => Some(Request::Show { cart, save }),
        "export" => Some(Request::Export { cart, save, out }),
        "import" => Some(Request::Import {
            cart,
            battery: operand(values, "BATTERY"),
            save,
            sectors: optional_number(values, "SECTORS"),
        }),
        "debug" => Some(Request::Debug {
            cart,
            save: optional_operand(values, "SAVE"),
        }),
        _ => None,
    }
}

/// An operand, as it was given. `None`: it was left out.
fn optional_operand<'a>(values: &ArgMatches<'a>, id: &str) -> Option<&'a str>
    ensures { option_map (λ s. s.now) result ≡ first_of id.now (rows_of (found_of values.now)) }
{
    values.get_str(id)
}

/// An operand that `clap` has asked for, as it was given.
fn operand<'a>(values: &ArgMatches<'a>, id: &str) -> &'a str
    ensures { result.now ≡ given_at id.now (rows_of (found_of values.now)) }
{
    optional_operand(values, id).unwrap_or("")
}

/// A number, whose range `clap` has looked at. `None`: it was left out.
fn optional_number(values: &ArgMatches<'_>, id: &str) -> Option<u32>
    ensures none { first_of id.now (rows_of (found_of values.now)) ≡ None → result ≡ None }
    ensures some { (least most : ℕ) (given : Word) → most < 2 ^ 32 →
        PassesAs (number id.now least most) (rows_of (found_of values.now)) given
        → IsSomeAnd result (WritesWithin least most given) }
{
    values.get_one(id)
}

/// A number that `clap` has asked for, and whose range it has looked at.
fn number(values: &ArgMatches<'_>, id: &str) -> u32
    ensures { (least most : ℕ) → most < 2 ^ 32 →
        Passes (rows_of (found_of values.now)) (number id.now least most)
        → WritesWithin least most (given_at id.now (rows_of (found_of values.now))) result }
{
    optional_number(values, id).unwrap_or(0)
}
