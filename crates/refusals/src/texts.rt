//! What a refusal says.

ghost use Rattle.std.specs.Prelude.{◌≡◌, ◌≤◌, ◌++◌, length, decimal};
ghost use Rattle.exact_text.specs.Hex.{byte_text};
ghost use Rattle.refusals.specs.Texts.{cart_text, snapshot_text, script_text, damage_text, session_text, recording_text, device_text, text_of};

use crate::refusal::Refusal;
use arrayvec::ArrayString;
use cartridge::CartError;
use exact_text::{byte_digits, number_digits};
use recording::RecordingFault;
use script::ScriptError;
use sector_device::DeviceFault;
use session::{Damage, SessionError};
use snapshot::SnapError;
use std::fmt;

/// No text is longer.
type Text = ArrayString<64>;

fn plain(words: &str) -> Text
    requires { length words.now ≤ 64 }
    ensures { result.bytes ≡ words.now }
{
    let mut text = ArrayString::new();
    text.push_str(words);
    text
}

fn with_number(words: &str, number: u64) -> Text
    requires { length words.now ≤ 44 }
    ensures { result.bytes ≡ words.now ++ decimal number }
{
    let mut text = ArrayString::new();
    text.push_str(words);
    text.push_str(number_digits(number).as_str());
    text
}

fn with_byte(words: &str, byte: u8) -> Text
    requires { length words.now ≤ 62 }
    ensures { result.bytes ≡ words.now ++ byte_text byte }
{
    let mut text = ArrayString::new();
    text.push_str(words);
    text.push_str(byte_digits(byte).as_str());
    text
}

fn around_number(words: &str, number: u64, behind: &str) -> Text
    requires first { length words.now ≤ 22 }
    requires last { length behind.now ≤ 22 }
    ensures { result.bytes ≡ words.now ++ (decimal number ++ behind.now) }
{
    let mut text = ArrayString::new();
    text.push_str(words);
    text.push_str(number_digits(number).as_str());
    text.push_str(behind);
    text
}

fn battery_length_text(found: u64, needed: u64) -> Text
    ensures { result.bytes ≡ text_of (Refusal.BatteryLength found needed) }
{
    let mut text = ArrayString::new();
    text.push_str("battery length ");
    text.push_str(number_digits(found).as_str());
    text.push_str(", ");
    text.push_str(number_digits(needed).as_str());
    text.push_str(" needed");
    text
}

fn cart_text(why: CartError) -> Text
    ensures { result.bytes ≡ cart_text why }
{
    match why {
        CartError::Length(bytes) => with_number("rom length ", bytes),
        CartError::Kind(kind) => with_byte("cartridge type ", kind),
        CartError::RamCode(code) => with_byte("ram code ", code),
        CartError::TooManyBanks(banks) => with_number("too many banks ", banks),
    }
}

fn snapshot_text(why: SnapError) -> Text
    ensures { result.bytes ≡ snapshot_text why }
{
    match why {
        SnapError::SnapLength(bytes) => with_number("snapshot length ", bytes),
        SnapError::Field(offset) => with_number("snapshot field ", u64::from(offset)),
        SnapError::Memory => plain("no memory"),
    }
}

fn script_text(why: ScriptError) -> Text
    ensures { result.bytes ≡ script_text why }
{
    match why {
        ScriptError::Script(line) => with_number("script line ", u64::from(line)),
        ScriptError::Memory => plain("no memory"),
    }
}

fn damage_text(what: Damage) -> Text
    ensures { result.bytes ≡ damage_text what }
{
    match what {
        Damage::Count => plain("damaged count"),
        Damage::Snapshot(_) => plain("damaged snapshot"),
        Damage::Entry(index) => with_number("damaged entry ", u64::from(index)),
    }
}

fn session_text(why: SessionError) -> Text
    ensures { result.bytes ≡ session_text why }
{
    match why {
        SessionError::Memory => plain("no memory"),
        SessionError::Device => plain("device failed"),
        SessionError::NoSession => plain("no session"),
        SessionError::TooSmall { need } => around_number("too small, ", need, " sectors needed"),
        SessionError::OtherCartridge => plain("other cartridge"),
        SessionError::Damaged(what) => damage_text(what),
        SessionError::GenerationsUsedUp => plain("generations used up"),
        SessionError::Broken => plain("broken, open it again"),
        SessionError::SaveFirst => plain("save first"),
        SessionError::CountFull => plain("count full"),
        SessionError::Output => plain("output failed"),
    }
}

fn recording_text(why: RecordingFault) -> Text
    ensures { result.bytes ≡ recording_text why }
{
    match why {
        RecordingFault::Memory => plain("no memory"),
        RecordingFault::Device => plain("device failed"),
        RecordingFault::TooSmall => plain("too small, 2 sectors needed"),
        RecordingFault::NotBlank => plain("not blank"),
        RecordingFault::NoRecording => plain("no recording"),
        RecordingFault::OtherCartridge => plain("other cartridge"),
        RecordingFault::Full => plain("recording full"),
        RecordingFault::Broken => plain("broken, open it again"),
    }
}

fn device_text(why: DeviceFault) -> Text
    ensures { result.bytes ≡ device_text why }
{
    match why {
        DeviceFault::Device => plain("device failed"),
        DeviceFault::SizeNotSectors(bytes) => with_number("device size ", bytes),
    }
}

impl Refusal {
    /// What it says, in one line of ASCII without its end.
    pub fn text(self) -> ArrayString<64>
        ensures { result.bytes ≡ text_of self }
    {
        match self {
            Refusal::Cart(why) => cart_text(why),
            Refusal::Snapshot(why) => snapshot_text(why),
            Refusal::Script(why) => script_text(why),
            Refusal::Session(why) => session_text(why),
            Refusal::Recording(why) => recording_text(why),
            Refusal::Device(why) => device_text(why),
            Refusal::Memory => plain("no memory"),
            Refusal::Output => plain("output failed"),
            Refusal::File => plain("file failed"),
            Refusal::Address => plain("address"),
            Refusal::Word => plain("a word is not text"),
            Refusal::Line(number) => with_number("script line ", number),
            Refusal::Input => plain("input failed"),
            Refusal::NoState => plain("damaged snapshot"),
            Refusal::OtherState => plain("other cartridge"),
            Refusal::Behind(count) => around_number("recording behind, ", count, " inputs"),
            Refusal::Ahead(count) => around_number("recording ahead, ", count, " inputs"),
            Refusal::Differ => plain("machines differ"),
            Refusal::OtherRecording => plain("other recording"),
            Refusal::RecordedGame => plain("recorded game: play it by record"),
            Refusal::TestFailed => plain("test failed"),
            Refusal::TestUndecided => plain("test undecided"),
            Refusal::NoBattery => plain("no battery"),
            Refusal::BatteryLength { found, needed } => battery_length_text(found, needed),
            Refusal::WrongLength => plain("wrong length"),
            Refusal::NoTime => plain("no time"),
        }
    }
}

impl fmt::Display for Refusal {
    ghost use Rattle.std.specs.Prelude.{Some};

    ghost output = { λ refusal. Some (text_of refusal) };

    fn fmt<W: fmt::Write>(&self, f: &mut fmt::Formatter<W>) -> fmt::Result {
        f.write_str(self.text().as_str())
    }
}

impl std::error::Error for Refusal {}
