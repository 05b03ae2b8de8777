//! The program: words in, files and lines out.

ghost use Rattle.std.specs.Prelude.{◌≡◌, ◌≤◌, ◌⊎◌, IfErr, OnErr, map, true};
ghost use Rattle.gbkeep.specs.Request.{is_battery_name, imports_to_battery_name};
ghost use Rattle.gbkeep.specs.Program.{Ends, EndsOnSome, HasEnded, HasWarned, IsOutputFault, IsPossible, IsServed, IsServedReading, KeepsAtMisuse, TellsOutput};

use crate::batteries::{export, import};
use crate::debugs::debug;
use crate::files::{MOST_ROM, file_bytes};
use crate::games::{frame, new, play, show, stream, trace};
use crate::recordings::{new_recording, record, recorded, verify};
use crate::reporting::{DONE, NOT_UNDERSTOOD, refusal_of, report, write_line};
use crate::testing::test;
use crate::words::{Asked, address_of, read_words};
use clap::Error;
use command_line::Request;
use commands::{info_lines, list_lines, step_line};
use exact_text::Output;
use input_lines::LineInput;
use refusals::Refusal;
use std::convert::AsStr;
use std::fs::File;
use std::rt::{Env, Files};
use std::{env, io};

/// Runs the program on the words that the process was started with: `main` does nothing else.
pub fn run_program<R: Env + Files<File = File> + AllocGlobal, I: LineInput, O: Output, E: Output>(
    rt: &R,
    input: &mut I,
    out: &mut O,
    err: &mut E,
) -> u8
    ensures status { result ≤ 2 }
    ensures misuse { KeepsAtMisuse (O.contents out.old) (O.contents out.new) result }
    ensures ends { EndsOnSome (record {
      input = record { before = I.remaining input.old; since = I.remaining input.new };
      output = record { before = O.contents out.old; since = O.contents out.new };
      errors = record { before = E.contents err.old; since = E.contents err.new };
      input_failed = I.has_failed input.new;
      output_failed = O.has_failed out.new;
    }) result }
{
    match words(rt) {
        Ok(words) => run(rt, words.as_slice(), input, out, err),
        Err(fault) => answer(rt, Err(fault), input, out, err),
    }
}

fn words<R: Env + AllocGlobal>(rt: &R) -> Result<Vec<String>, Refusal>
    ensures { IfErr result (λ fault. (fault ≡ Refusal.Memory) ⊎ (fault ≡ Refusal.Word)) }
{
    match env::args(rt) {
        Ok(args) => args.collect(rt.alloc()).map_err(|_| Refusal::Memory),
        Err(error) if error.kind() == io::ErrorKind::OutOfMemory => Err(Refusal::Memory),
        Err(_) => Err(Refusal::Word),
    }
}

/// Runs the program on its words, the first of which is its own name, and answers its status:
/// 0 done, 1 refused, 2 words not understood.
///
/// `stream`, `record` and `debug` read their lines from `input`; nothing else reads it. What is asked for goes to `out`, which gets
/// nothing where the status is 2. A fault is one line on `err`, `gbkeep: ` and its text; of words that are not understood `err` gets
/// `clap`'s text.
pub fn run<R: Files<File = File> + AllocGlobal, S: AsStr, I: LineInput, O: Output, E: Output>(
    rt: &R,
    words: &[S],
    input: &mut I,
    out: &mut O,
    err: &mut E,
) -> u8
    ensures status { result ≤ 2 }
    ensures misuse { KeepsAtMisuse (O.contents out.old) (O.contents out.new) result }
    ensures ends { Ends (map S.text words.now) (record {
      input = record { before = I.remaining input.old; since = I.remaining input.new };
      output = record { before = O.contents out.old; since = O.contents out.new };
      errors = record { before = E.contents err.old; since = E.contents err.new };
      input_failed = I.has_failed input.new;
      output_failed = O.has_failed out.new;
    }) result }
{
    answer(rt, read_words(rt.alloc(), words), input, out, err)
}

/// Answers what was read of the words.
fn answer<R: Files<File = File> + AllocGlobal, I: LineInput, O: Output, E: Output>(
    rt: &R,
    asked: Result<Asked<'_>, Refusal>,
    input: &mut I,
    out: &mut O,
    err: &mut E,
) -> u8
    requires { IsPossible asked }
    ensures { HasEnded asked.entry (record {
      input = record { before = I.remaining input.old; since = I.remaining input.new };
      output = record { before = O.contents out.old; since = O.contents out.new };
      errors = record { before = E.contents err.old; since = E.contents err.new };
      input_failed = I.has_failed input.new;
      output_failed = O.has_failed out.new;
    }) result }
{
    match asked {
        Ok(Asked::Command(request)) => match serve(rt, request, input, out) {
            Ok(()) => {
                warn(request, err);
                DONE
            }
            Err(fault) => report(fault, err),
        },
        Ok(Asked::Help(text)) => match write_help(text, out) {
            Ok(()) => DONE,
            Err(fault) => report(fault, err),
        },
        Ok(Asked::Misuse(text)) => {
            let _ = write!(err, "{text}");
            NOT_UNDERSTOOD
        }
        Ok(Asked::OutOfRange) => NOT_UNDERSTOOD,
        Err(fault) => report(fault, err),
    }
}

/// Warns where a battery file was taken in, and another emulator takes the SAVE for its own one.
fn warn<E: Output>(request: Request<'_>, err: &mut E)
    ensures { HasWarned (imports_to_battery_name request.entry) (record {
      before = E.contents err.old;
      since = E.contents err.new;
    }) }
{
    match request {
        Request::Import { save, .. } => warn_of(save, err),
        _ => {}
    }
}

fn warn_of<E: Output>(save: &str, err: &mut E)
    ensures { HasWarned (is_battery_name save.now) (record {
      before = E.contents err.old;
      since = E.contents err.new;
    }) }
{
    if is_battery_name(save.as_bytes()) {
        write_line(
            "gbkeep: warning: other emulators write battery files of this name\n",
            err,
        );
    }
}

fn is_battery_name(name: &[u8]) -> bool
    ensures { result ≡ is_battery_name name.now }
{
    name.ends_with(b".sav") || name.ends_with(b".srm")
}

fn write_help<O: Output>(text: Error, out: &mut O) -> Result<(), Refusal>
    ensures fault { IfErr result (λ fault. fault ≡ Refusal.Output) }
    ensures failed { OnErr result (O.has_failed out.new ≡ true) }
{
    match write!(out, "{text}") {
        Ok(()) => Ok(()),
        Err(_) => Err(Refusal::Output),
    }
}

fn serve<R: Files<File = File> + AllocGlobal, I: LineInput, O: Output>(
    rt: &R,
    request: Request<'_>,
    input: &mut I,
    out: &mut O,
) -> Result<(), Refusal>
    ensures served { IsServedReading request.entry result (record {
      before = I.remaining input.old;
      since = I.remaining input.new;
    })
        (record { before = O.contents out.old; since = O.contents out.new }) }
    ensures input { IfErr result (λ fault. fault ≡ Refusal.Input → I.has_failed input.new ≡ true) }
    ensures output { IfErr result (λ fault. TellsOutput request.entry fault → O.has_failed out.new ≡ true) }
{
    match request {
        Request::Info { cart } => info(rt, cart, out),
        Request::List {
            cart,
            address,
            count,
        } => list(rt, cart, address, count, out),
        Request::Step { cart, count } => step(rt, cart, count, out),
        Request::New {
            cart,
            save,
            sectors,
        } => new(rt, cart, save, sectors, out),
        Request::Play { cart, save, script } => play(rt, cart, save, script, out),
        Request::Frame {
            cart,
            save,
            out: picture,
        } => frame(rt, cart, save, picture, out),
        Request::Trace { cart, save, count } => trace(rt, cart, save, count, out),
        Request::Stream { cart, save } => stream(rt, cart, save, input, out),
        Request::NewRecording {
            cart,
            recording,
            sectors,
        } => new_recording(rt, cart, recording, sectors, out),
        Request::Record {
            cart,
            save,
            recording,
        } => record(rt, cart, save, recording, input, out),
        Request::Recorded { cart, recording } => recorded(rt, cart, recording, out),
        Request::Verify {
            cart,
            save,
            recording,
        } => verify(rt, cart, save, recording, out),
        Request::Show { cart, save } => show(rt, cart, save, out),
        Request::Export {
            cart,
            save,
            out: battery,
        } => export(rt, cart, save, battery, out),
        Request::Import {
            cart,
            battery,
            save,
            sectors,
        } => import(rt, cart, battery, save, sectors, out),
        Request::Test {
            cart,
            frames,
            script,
        } => test(rt, cart, frames, script, out),
        Request::Debug { cart, save } => debug(rt, cart, save, input, out),
    }
}

fn info<R: Files<File = File> + AllocGlobal, O: Output>(
    rt: &R,
    cart: &str,
    out: &mut O,
) -> Result<(), Refusal>
    ensures served { IsServed (Request.Info cart.entry) result (O.contents out.old) (O.contents out.new) }
    ensures output { IfErr result (λ fault. IsOutputFault fault → O.has_failed out.new ≡ true) }
{
    let rom = file_bytes(rt, cart, MOST_ROM)?;
    match info_lines(rom, out) {
        Ok(()) => Ok(()),
        Err(why) => Err(refusal_of(why)),
    }
}

fn list<R: Files<File = File> + AllocGlobal, O: Output>(
    rt: &R,
    cart: &str,
    address: &str,
    count: u32,
    out: &mut O,
) -> Result<(), Refusal>
    ensures served { IsServed (Request.List cart.entry address.entry count) result (O.contents out.old) (O.contents out.new) }
    ensures output { IfErr result (λ fault. IsOutputFault fault → O.has_failed out.new ≡ true) }
{
    let Some(first) = address_of(address) else {
        return Err(Refusal::Address);
    };
    let rom = file_bytes(rt, cart, MOST_ROM)?;
    match list_lines(rt.alloc(), rom, first, count, out) {
        Ok(()) => Ok(()),
        Err(why) => Err(refusal_of(why)),
    }
}

fn step<R: Files<File = File> + AllocGlobal, O: Output>(
    rt: &R,
    cart: &str,
    count: u32,
    out: &mut O,
) -> Result<(), Refusal>
    ensures served { IsServed (Request.Step cart.entry count) result (O.contents out.old) (O.contents out.new) }
    ensures output { IfErr result (λ fault. IsOutputFault fault → O.has_failed out.new ≡ true) }
{
    let rom = file_bytes(rt, cart, MOST_ROM)?;
    match step_line(rt.alloc(), rom, count, out) {
        Ok(()) => Ok(()),
        Err(why) => Err(refusal_of(why)),
    }
}
