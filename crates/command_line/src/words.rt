//! The commands and their words.
ghost use Rattle.std.specs.Prelude.{[], IfOk, map};
ghost use Rattle.clap.specs.Words.{App, new_app, with_subcommand};
ghost use Rattle.command_line.specs.Commands.{Reads, ReadsOperand, bare, gbkeep, with_commands};
ghost use Rattle.command_line.specs.Commands.{operand_of, shape_of_usage, usage_of};

use clap::builder::ValueParser;
use clap::{Arg, Command};
use std::alloc::{AllocError, Global};

/// A word behind a command, by its id and its help: any, or a number from the least one to the most.
/// An optional one may be left out.
#[derive(Clone, Copy)]
pub(crate) enum Operand {
    Word(&'static str, &'static str),
    OptionalWord(&'static str, &'static str),
    Number(&'static str, i64, i64, &'static str),
    OptionalNumber(&'static str, i64, i64, &'static str),
}

/// A command, with what help says of it and below its operands.
#[derive(Clone, Copy)]
pub(crate) struct Subcommand {
    name: &'static str,
    about: &'static str,
    lines: Option<&'static str>,
    operands: &'static [Operand],
}

/// The name in usage texts, whatever the file of the program is called.
const NAME: &str = "gbkeep";

const VERSION: &str = "0.1.0";

const SCRIPT_LINES: &str = "Lines of SCRIPT:
  frame BB     one frame with the buttons BB: two hexadecimal digits, the sum of 01 right,
               02 left, 04 up, 08 down, 10 A, 20 B, 40 select, 80 start
  frames BB N  N such frames, 1 to 1,000,000
  seconds N    N seconds pass on the cartridge's clock, 0 to 4,294,967,295
  power        the power switch, off and on
  save         saves what is unsaved";

const STREAM_LINES: &str = "Lines of the standard input:
  frame BB     one frame with the buttons BB: two hexadecimal digits, the sum of 01 right,
               02 left, 04 up, 08 down, 10 A, 20 B, 40 select, 80 start
  frames BB N  N such frames, 1 to 1,000,000
  seconds N    N seconds pass on the cartridge's clock, 0 to 4,294,967,295
  save         saves what is unsaved, and answers saved N
  picture      answers the picture as plain PGM, 46,093 bytes
  shades       answers shades 23040, and the picture, a byte a pixel: 0 is the darkest
  state        answers state N, and the N bytes of the machine's state
  memory ADDR N  answers N bytes as the program sees them, sixteen a line
  bytes ADDR N   answers bytes N, and these bytes as they are
  power        the power switch, off and on
  restore N    and N bytes: goes on with the machine of this state, and answers restored
  keep K       keeps the machine under K, 0 to 999, and answers kept K
  back K       goes on with the machine that was kept last under K, and answers back K";

const DEBUG_LINES: &str = "Lines of the standard input, each answered before the next is read:
  step N            the next N steps, a line each
  until N PLACE..   up to N steps, to one of 1 to 16 places: ADDR, or BANK:ADDR
  until-op N XX     up to N steps, to an instruction with the opcode XX
  until-change N ADDR        up to N steps, until the byte at ADDR is another
  until-write N ADDR [LAST]  up to N steps, to one that writes ADDR, or up to LAST
  until-read N ADDR [LAST]   up to N steps, to one that reads it
  continue N CONDITION..     up to N steps, to the first of 1 to 16 conditions: a place,
                             op XX, change ADDR, read ADDR[-LAST], write ADDR[-LAST]
  profile N [PLACE..]        as until, with the M-cycles of each instruction in ROM
  frame BB          one frame with the buttons BB, as in a script
  frames BB N       N such frames, 1 to 1,000,000
  seconds N         N seconds pass on the cartridge's clock
  set ADDR XX       writes the byte XX to ADDR as an instruction would
  set-register R XXXX        R, such as A, HL or PC, becomes XXXX
  registers         the registers
  history N         the last N instructions, at most 1,024
  list ADDR N       N instructions from ADDR on
  memory ADDR N     N bytes from ADDR on, sixteen a line
  bytes ADDR N      bytes N, and these bytes as they are
  bank ADDR         the number of the bank that is mapped at ADDR
  serial            the bytes that were sent since the last serial
  picture           the picture as plain PGM, 46,093 bytes
  shades            shades 23040, and the picture, a byte a pixel: 0 is the darkest
  state             state K, and the K bytes of the machine's state
  restore K         and K bytes behind it: goes on from this state
  power             the power switch, off and on: what a battery keeps stays
  keep K            keeps the machine under K, 0 to 999
  back K            goes on from the machine that was kept under K
  digest            the SHA-256 of the machine's snapshot
  position          M-cycles and frames that were made, the line, its M-cycle, the mode";

const CART: Operand = Operand::Word("CART", "The ROM file");

const SAVE: Operand = Operand::Word("SAVE", "The file that keeps the game");

const DEBUGGED_SAVE: Operand = Operand::OptionalWord(
    "SAVE",
    "The file of a game that it begins with, which keeps nothing of this",
);

const BATTERY: Operand = Operand::Word("BATTERY", "The battery file");

const NEW_BATTERY: Operand = Operand::Word("OUT", "The new battery file");

const PICTURE: Operand = Operand::Word("OUT", "The file for the picture, as plain PGM");

const RECORDING: Operand = Operand::Word(
    "RECORDING",
    "The file that keeps every input since power-on",
);

const SCRIPT: Operand = Operand::Word("SCRIPT", "The file of moves, a line each");

const FIRST_SCRIPT: Operand = Operand::OptionalWord(
    "SCRIPT",
    "The file of moves, a line each, that are made first",
);

const ADDRESS: Operand = Operand::Word(
    "ADDR",
    "The first address, in one to four hexadecimal digits",
);

const INSTRUCTIONS: Operand = Operand::Number("COUNT", 1, 4_096, "How many instructions");

const STEPS: Operand = Operand::Number("COUNT", 0, 1_000_000, "How many steps");

const TRACED_STEPS: Operand = Operand::Number("COUNT", 1, 1_024, "How many steps");

const FRAMES: Operand = Operand::Number("FRAMES", 1, 1_000_000, "The most frames");

const RECORDING_SECTORS: Operand = Operand::Number(
    "SECTORS",
    1,
    65_536,
    "How many sectors of 512 bytes the file has",
);

const SECTORS: Operand = Operand::OptionalNumber(
    "SECTORS",
    1,
    65_536,
    "How many sectors of 512 bytes the file has; as many as the game needs, if left out",
);

const SUBCOMMANDS: [Subcommand; 17] = [
    Subcommand {
        name: "info",
        about: "Prints the header of a cartridge",
        lines: None,
        operands: &[CART],
    },
    Subcommand {
        name: "list",
        about: "Prints instructions as the machine has them at power-on",
        lines: None,
        operands: &[CART, ADDRESS, INSTRUCTIONS],
    },
    Subcommand {
        name: "step",
        about: "Prints the registers after some steps from power-on",
        lines: None,
        operands: &[CART, STEPS],
    },
    Subcommand {
        name: "new",
        about: "Begins a game in a new file",
        lines: None,
        operands: &[CART, SAVE, SECTORS],
    },
    Subcommand {
        name: "play",
        about: "Resumes a game, plays a script on it and saves it",
        lines: Some(SCRIPT_LINES),
        operands: &[CART, SAVE, SCRIPT],
    },
    Subcommand {
        name: "frame",
        about: "Resumes a game and writes its picture to a file",
        lines: None,
        operands: &[CART, SAVE, PICTURE],
    },
    Subcommand {
        name: "trace",
        about: "Resumes a game and prints its next steps, which are not saved",
        lines: None,
        operands: &[CART, SAVE, TRACED_STEPS],
    },
    Subcommand {
        name: "stream",
        about: "Resumes a game, plays the lines of the standard input as they come and saves it",
        lines: Some(STREAM_LINES),
        operands: &[CART, SAVE],
    },
    Subcommand {
        name: "new-recording",
        about: "Makes a new file for every input of a game since power-on",
        lines: None,
        operands: &[CART, RECORDING, RECORDING_SECTORS],
    },
    Subcommand {
        name: "record",
        about: "Resumes a game as stream does, and records each input before it is saved",
        lines: None,
        operands: &[CART, SAVE, RECORDING],
    },
    Subcommand {
        name: "recorded",
        about: "Prints the inputs of a recording as a script",
        lines: None,
        operands: &[CART, RECORDING],
    },
    Subcommand {
        name: "verify",
        about: "Plays a recording again from power-on and compares it with the game",
        lines: None,
        operands: &[CART, SAVE, RECORDING],
    },
    Subcommand {
        name: "show",
        about: "Prints what a game's file holds, and writes nothing to it",
        lines: None,
        operands: &[CART, SAVE],
    },
    Subcommand {
        name: "export",
        about: "Writes the battery-backed RAM of a game to a new file, as other emulators read it",
        lines: None,
        operands: &[CART, SAVE, NEW_BATTERY],
    },
    Subcommand {
        name: "import",
        about: "Begins a game in a new file with the battery-backed RAM of another emulator",
        lines: None,
        operands: &[CART, BATTERY, SAVE, SECTORS],
    },
    Subcommand {
        name: "test",
        about: "Runs a test ROM from power-on until it says that it is done",
        lines: None,
        operands: &[CART, FRAMES, FIRST_SCRIPT],
    },
    Subcommand {
        name: "debug",
        about: "Runs a cartridge step by step, and shows its registers, memory and history",
        lines: Some(DEBUG_LINES),
        operands: &[CART, DEBUGGED_SAVE],
    },
];

pub(crate) fn command<'a>(alloc: Global) -> Result<Command<'a>, AllocError>
    ensures { IfOk result (Reads gbkeep) }
{
    with_subcommands(alloc, &SUBCOMMANDS)
}

fn with_subcommands<'a>(alloc: Global, rows: &[Subcommand]) -> Result<Command<'a>, AllocError>
    ensures { IfOk result (Reads (with_commands (map usage_of rows.now))) }
{
    let mut command = bare(alloc);
    for row in rows {
        command = joined(command, command_of(alloc, row));
    }
    command
}

/// A command with another one below it, if there was memory for both. Only here is there a command to drop.
fn joined<'a>(
    command: Result<Command<'a>, AllocError>,
    below: Result<Command<'a>, AllocError>,
) -> Result<Command<'a>, AllocError>
    ensures { (app sub : App) → IfOk command.entry (Reads app) → IfOk below.entry (Reads sub) →
        IfOk result (Reads (with_subcommand app sub.top)) }
{
    command?.subcommand(below?)
}

/// The program without its commands.
fn bare<'a>(alloc: Global) -> Result<Command<'a>, AllocError>
    ensures { IfOk result (Reads bare) }
{
    Command::new(alloc, NAME)
        .about("A Game Boy emulator whose every function is proved to meet its contract")
        .version(VERSION)
        .subcommand_required(true)
        .bin_name(NAME)
}

fn command_of<'a>(alloc: Global, row: &Subcommand) -> Result<Command<'a>, AllocError>
    ensures { IfOk result (Reads (record { top = shape_of_usage (usage_of row.now); subs = [] })) }
{
    let mut command = described(alloc, row);
    let operands = row.operands;
    for operand in operands {
        command = command.arg(argument(alloc, *operand))?;
    }
    Ok(command)
}

/// A command without its operands.
fn described<'a>(alloc: Global, row: &Subcommand) -> Command<'a>
    ensures { Reads (new_app row.now.name.now) result }
{
    let command = Command::new(alloc, row.name).about(row.about);
    match row.lines {
        Some(lines) => command.after_help(lines),
        None => command,
    }
}

fn argument<'a>(alloc: Global, operand: Operand) -> Arg<'a>
    ensures { ReadsOperand (operand_of operand) result }
{
    match operand {
        Operand::Word(id, help) => Arg::new(alloc, id).required(true).help(help),
        Operand::OptionalWord(id, help) => Arg::new(alloc, id).help(help),
        Operand::Number(id, least, most, help) => Arg::new(alloc, id)
            .required(true)
            .help(help)
            .value_parser(ValueParser::signed(least, most)),
        Operand::OptionalNumber(id, least, most, help) => Arg::new(alloc, id)
            .help(help)
            .value_parser(ValueParser::signed(least, most)),
    }
}
