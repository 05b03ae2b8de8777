//! Refusals as numbers: the status that the program ends with, and the code in C.

ghost use Rattle.std.specs.Prelude.{◌≡◌};
ghost use Rattle.refusals.specs.Statuses.{status_of, is_device_failure};
ghost use Rattle.refusals.specs.Codes.{done, cart_code, snapshot_code, script_code, damage_code, session_code, recording_code, device_code, code_of};

use crate::refusal::Refusal;
use cartridge::CartError;
use recording::RecordingFault;
use script::ScriptError;
use sector_device::DeviceFault;
use session::{Damage, SessionError};
use snapshot::SnapError;

const REFUSED: u8 = 1;

const NOT_UNDERSTOOD: u8 = 2;

fn cart_code(why: CartError) -> u32
    ensures code { result ≡ cart_code why }
    ensures refused { ¬ (result ≡ done) }
{
    match why {
        CartError::Length(_) => 2,
        CartError::Kind(_) => 3,
        CartError::RamCode(_) => 4,
        CartError::TooManyBanks(_) => 5,
    }
}

fn snapshot_code(why: SnapError) -> u32
    ensures code { result ≡ snapshot_code why }
    ensures refused { ¬ (result ≡ done) }
{
    match why {
        SnapError::Memory => 1,
        SnapError::SnapLength(_) | SnapError::Field(_) => 6,
    }
}

fn script_code(why: ScriptError) -> u32
    ensures code { result ≡ script_code why }
    ensures refused { ¬ (result ≡ done) }
{
    match why {
        ScriptError::Script(_) => 26,
        ScriptError::Memory => 1,
    }
}

fn damage_code(what: Damage) -> u32
    ensures code { result ≡ damage_code what }
    ensures refused { ¬ (result ≡ done) }
{
    match what {
        Damage::Count => 11,
        Damage::Snapshot(_) => 6,
        Damage::Entry(_) => 12,
    }
}

fn session_code(why: SessionError) -> u32
    ensures code { result ≡ session_code why }
    ensures refused { ¬ (result ≡ done) }
{
    match why {
        SessionError::Memory => 1,
        SessionError::Device => 7,
        SessionError::NoSession => 8,
        SessionError::TooSmall { .. } => 9,
        SessionError::OtherCartridge => 10,
        SessionError::Damaged(what) => damage_code(what),
        SessionError::GenerationsUsedUp => 13,
        SessionError::CountFull => 14,
        SessionError::SaveFirst => 15,
        SessionError::Broken => 16,
        SessionError::Output => 19,
    }
}

fn recording_code(why: RecordingFault) -> u32
    ensures code { result ≡ recording_code why }
    ensures refused { ¬ (result ≡ done) }
{
    match why {
        RecordingFault::Memory => 1,
        RecordingFault::Device => 7,
        RecordingFault::TooSmall => 9,
        RecordingFault::NotBlank => 28,
        RecordingFault::NoRecording => 29,
        RecordingFault::OtherCartridge => 10,
        RecordingFault::Full => 30,
        RecordingFault::Broken => 16,
    }
}

fn device_code(why: DeviceFault) -> u32
    ensures code { result ≡ device_code why }
    ensures refused { ¬ (result ≡ done) }
{
    match why {
        DeviceFault::Device => 7,
        DeviceFault::SizeNotSectors(_) => 17,
    }
}

impl Refusal {
    /// The exit status of the program: 1 where it was refused, 2 where its words are not understood.
    pub fn status(self) -> u8
        ensures { result ≡ status_of self }
    {
        match self {
            Refusal::Address | Refusal::Word => NOT_UNDERSTOOD,
            _ => REFUSED,
        }
    }

    /// The code in C, which is never 0, that of a call that was done.
    pub fn code(self) -> u32
        ensures code { result ≡ code_of self }
        ensures refused { ¬ (result ≡ done) }
    {
        match self {
            Refusal::Cart(why) => cart_code(why),
            Refusal::Snapshot(why) => snapshot_code(why),
            Refusal::Script(why) => script_code(why),
            Refusal::Session(why) => session_code(why),
            Refusal::Recording(why) => recording_code(why),
            Refusal::Device(why) => device_code(why),
            Refusal::Memory => 1,
            Refusal::NoState => 6,
            Refusal::OtherState => 10,
            Refusal::WrongLength => 18,
            Refusal::Output => 19,
            Refusal::NoBattery => 20,
            Refusal::BatteryLength { .. } => 21,
            Refusal::NoTime => 22,
            Refusal::File => 23,
            Refusal::Address => 24,
            Refusal::Word => 25,
            Refusal::Line(_) => 26,
            Refusal::Input => 27,
            Refusal::Behind(_) => 31,
            Refusal::Ahead(_) => 32,
            Refusal::Differ => 33,
            Refusal::OtherRecording => 34,
            Refusal::RecordedGame => 35,
            Refusal::TestFailed => 36,
            Refusal::TestUndecided => 37,
        }
    }

    /// Whether it tells that a call of a device has failed.
    pub fn is_device_failure(self) -> bool
        ensures { result ≡ is_device_failure self }
    {
        match self {
            Refusal::Session(SessionError::Device)
            | Refusal::Recording(RecordingFault::Device)
            | Refusal::Device(DeviceFault::Device) => true,
            _ => false,
        }
    }
}
