//! The refusals.

ghost use Rattle.std.specs.Prelude.{◌≡◌};
ghost use Rattle.refusals.specs.declared.refusal.Refusal.TheVariants.{Cart, Device};

use cartridge::CartError;
use recording::RecordingFault;
use script::ScriptError;
use sector_device::DeviceFault;
use session::SessionError;
use snapshot::SnapError;

/// Why the program or the library did not do what it was asked to.
///
/// The first words of a row say what it means, the last ones what to do about it. Of what a row holds, `refusals.toml` says it.
#[derive(Clone, Copy, Debug, PartialEq, Eq)]
pub enum Refusal {
    /// The image is no cartridge: the first rule that it breaks.
    Cart(CartError),
    /// The bytes are no snapshot of this cartridge: the first reason.
    Snapshot(SnapError),
    /// The script is wrong, or its moves found no memory.
    Script(ScriptError),
    /// A game is not begun or taken up, or a play ended here.
    Session(SessionError),
    /// A recording is not begun, read or appended to.
    Recording(RecordingFault),
    /// The file or the image that is to hold a game or a recording is not opened.
    Device(DeviceFault),
    /// Memory was refused; what was saved stays saved.
    ///
    /// End other programs, or raise the limit of memory.
    Memory,
    /// A write to standard output or to OUT failed; what was saved stays saved.
    ///
    /// Make room on the disk, or read the pipe to its end.
    Output,
    /// CART, SCRIPT or BATTERY is no plain file or can't be read, OUT can't be opened, is a pipe, is SAVE or CART by any name, or has anything else
    /// than a picture, SAVE and RECORDING are one file, or SAVE.recorded is none of `record`'s or can't be made.
    ///
    /// Check the path and its permissions.
    File,
    /// ADDR is not one to four hexadecimal digits (status 2).
    ///
    /// Write it so, as 0150.
    Address,
    /// A word of the command line is not UTF-8 (status 2).
    ///
    /// Give the file another name.
    Word,
    /// Line N of the input is wrong; what was given before it is saved.
    ///
    /// Correct the line, and give what comes from it on.
    Line(u64),
    /// Standard input can't be read; what was given before is saved.
    ///
    /// Check where it comes from.
    Input,
    /// The bytes behind a `restore` are no state of this cartridge, and what was given before is saved.
    ///
    /// Give a state of this cartridge.
    NoState,
    /// The state is of another ROM, and what was given before is saved.
    ///
    /// Give a state of this cartridge.
    OtherState,
    /// RECORDING has N inputs, fewer than the game: another command has played it.
    ///
    /// Take the RECORDING that belongs to the game, or remove SAVE.recorded and go on by `play` or `stream`.
    Behind(u64),
    /// RECORDING has N inputs, more beyond those of the game than a power cut leaves: it is that of another play, or SAVE is an old copy.
    ///
    /// Take the two files that belong together; `gbkeep-branch` makes a game of the recorded inputs.
    Ahead(u64),
    /// The game in SAVE is not the one after the recorded inputs: another command has played it, or RECORDING is that of another play.
    ///
    /// Take the RECORDING that belongs to the game, or remove SAVE.recorded and go on by `play` or `stream`; `gbkeep-branch` makes a game of the
    /// recorded inputs.
    Differ,
    /// RECORDING does not begin with the inputs that SAVE.recorded knows: it is that of another play, or an older copy.
    ///
    /// Take the RECORDING that belongs to the game; with an older copy of both, remove SAVE.recorded.
    OtherRecording,
    /// The game is recorded, in the file that SAVE.recorded names.
    ///
    /// Play it by `record`; to end the recording, remove SAVE.recorded.
    RecordedGame,
    /// The test ROM says that it has failed.
    ///
    /// Look at the registers and at what it printed.
    TestFailed,
    /// The test ROM says neither that it has passed nor that it has failed.
    ///
    /// Give it more frames; [TESTING_ROMS.md](TESTING_ROMS.md) has the rule.
    TestUndecided,
    /// The cartridge's type names no battery, so the game keeps nothing.
    ///
    /// Begin it by `new`.
    NoBattery,
    /// BATTERY has N bytes, and this cartridge's RAM has M.
    ///
    /// Use the file of this game.
    BatteryLength {
        /// The bytes of the file.
        found: u64,
        /// The bytes of the cartridge's RAM.
        needed: u64,
    },
    /// A buffer has another length than gbkeep.h says.
    ///
    /// Give the call a buffer of that length.
    WrongLength,
    /// The bytes are no text of SAVE.time.
    ///
    /// Begin the clock anew.
    NoTime,
}

impl From<CartError> for Refusal {
    ghost from_gives = { λ why refusal. refusal ≡ Cart why };

    fn from(why: CartError) -> Refusal {
        Refusal::Cart(why)
    }
}

impl From<DeviceFault> for Refusal {
    ghost from_gives = { λ why refusal. refusal ≡ Device why };

    fn from(why: DeviceFault) -> Refusal {
        Refusal::Device(why)
    }
}
