//! A cartridge: a ROM image that is accepted, and the values of its header.
#![tactic(auto)]

pub mod controller;
pub mod error;
mod length;

ghost use Rattle.std.specs.Prelude.{◌≡◌, ◌*◌, ◌≤◌, ◌↔◌, length, IfOk, IfNone, IsOk, Some};
ghost use Rattle.std.specs.List.{Contains};
ghost use Rattle.std.specs.Result.{result_err};
ghost use Rattle.sha2.specs.Sha256.{sha256};
ghost use Rattle.cartridge.specs.Accepted.{IsAccepted, refusal_of};
ghost use Rattle.cartridge.specs.Controllers.{ram_lengths};
ghost use Rattle.cartridge.specs.Header.{title_of, kind_of, rom_code_of, ram_code_of, stored_checksum_of, checksum_of, banks_of, most_banks, ram_length_of, controller_of, has_battery, has_rumble, header_sum};
ghost use Rattle.cartridge.specs.Length.{IsBankCount};

pub use controller::Controller;
pub use error::CartError;
use sha2::{Digest, Sha256};
use std::marker::Model;

/// A cartridge is seen as its image, byte by byte. The image's SHA-256 is taken once, when it is read: `resume`, a recording and each state
/// ask for it.
#[derive(Drop)]
pub struct Cartridge {
    image: Vec<u8>,
    digest: [u8; 32],
}

impl Model for Cartridge {
    ghost use Rattle.std.specs.Prelude.{◌≡◌, List, ℕ};

    ghost Value = { List ℕ };

    ghost use Rattle.sha2.specs.Sha256.{sha256};
    ghost use Rattle.cartridge.specs.Accepted.{IsAccepted};

    ghost view = { λ c. c.image.items };

    ghost invariant = { λ c. IsAccepted c.image.items × (c.digest ≡ sha256 c.image.items) };
}

impl Cartridge {
    /// Accepts an image, or names the first rule that it breaks: its length, its type, its RAM
    /// code, its number of banks. It takes no memory.
    pub fn read(image: Vec<u8>) -> Result<Cartridge, CartError>
        ensures image { IfOk result (λ cartridge. cartridge ≡ image.items) }
        ensures accepted { IsOk result ↔ IsAccepted image.items }
        ensures refused { result_err result ≡ refusal_of image.items }
    {
        match refusal(&image) {
            Some(why) => Err(why),
            None => {
                let digest = Sha256::digest(image.as_slice());
                Ok(Cartridge { image, digest })
            }
        }
    }

    /// The whole image: at least 32 KiB.
    pub fn rom(&self) -> &[u8]
        ensures image { result.now ≡ self.now }
        ensures accepted { IsAccepted self.now }
        ensures least { 32768 ≤ length self.now }
    {
        self.image.as_slice()
    }

    /// The title at 0134 to 0143: its bytes before the first 00, which need not be text.
    pub fn title(&self) -> &[u8]
        ensures { result.now ≡ title_of self.now }
    {
        before_zero(&self.image[0x134..0x144])
    }

    /// The cartridge type, the byte at 0147.
    pub fn kind(&self) -> u8
        ensures { result ≡ kind_of self.now }
    {
        self.image[0x147]
    }

    /// The ROM code, the byte at 0148, which is not enforced.
    pub fn rom_code(&self) -> u8
        ensures { result ≡ rom_code_of self.now }
    {
        self.image[0x148]
    }

    /// The RAM code, the byte at 0149.
    pub fn ram_code(&self) -> u8
        ensures { result ≡ ram_code_of self.now }
    {
        self.image[0x149]
    }

    /// The header's checksum at 014D, which is not enforced.
    pub fn checksum_stored(&self) -> u8
        ensures { result ≡ stored_checksum_of self.now }
    {
        self.image[0x14D]
    }

    /// The checksum of 0134 to 014C as a sound header has it.
    pub fn checksum_computed(&self) -> u8
        ensures { result ≡ checksum_of self.now }
    {
        checksum(&self.image[0x134..0x14D])
    }

    /// The chip that the cartridge type names.
    pub fn controller(&self) -> Controller
        ensures { controller_of self.now ≡ Some result }
    {
        controller_in(self.rom())
    }

    /// Whether the cartridge type names an MBC5 with a rumble motor (1C to 1E), whose bit 3 of the
    /// RAM bank drives the motor.
    pub fn has_rumble(&self) -> bool
        ensures { result ≡ has_rumble self.now }
    {
        matches!(self.image[0x147], 0x1C..=0x1E)
    }

    /// Whether the cartridge type names a battery, which keeps the RAM and the clock when the power is off: 03, 06, 09, 0F, 10, 13, 1B
    /// and 1E.
    pub fn has_battery(&self) -> bool
        ensures { result ≡ has_battery self.now }
    {
        has_battery_in(self.rom())
    }

    /// The number of banks of 16 KiB: a power of two, and at most what the controller reaches.
    pub fn banks(&self) -> u16
        ensures count { result ≡ banks_of self.now }
        ensures length { length self.now ≡ 16384 * result }
        ensures power { IsBankCount result }
        ensures most { result ≤ most_banks self.now }
    {
        (self.rom().len() / 0x4000) as u16
    }

    /// The bytes of cartridge RAM: 0, 512 (MBC2), 8 KiB, 32 KiB, 64 KiB or 128 KiB.
    pub fn ram_length(&self) -> usize
        ensures header { result ≡ ram_length_of self.now }
        ensures listed { Contains ram_lengths result }
    {
        ram_length_in(self.rom())
    }

    /// The SHA-256 of the whole image.
    pub fn digest(&self) -> [u8; 32]
        ensures { result ≡ sha256 self.now }
    {
        self.digest
    }
}

/// The first rule that an image breaks, as `Cartridge::read` names it. It takes no memory.
pub fn refusal(image: &[u8]) -> Option<CartError>
    ensures rule { result ≡ refusal_of image.now }
    ensures accepted { IfNone result (IsAccepted image.now) }
{
    let size = image.len();
    if !length::is_rom_length(size) {
        return Some(CartError::Length(size as u64));
    }
    let kind = image[0x147];
    let Some(controller) = Controller::of(kind) else {
        return Some(CartError::Kind(kind));
    };
    let ram_code = image[0x149];
    if controller.ram_length(ram_code).is_none() {
        return Some(CartError::RamCode(ram_code));
    }
    let banks = size / 0x4000;
    if banks > usize::from(controller.most_banks()) {
        return Some(CartError::TooManyBanks(banks as u64));
    }
    None
}

/// The chip that the cartridge type of an accepted image names.
pub fn controller_in(image: &[u8]) -> Controller
    requires { IsAccepted image.now }
    ensures { controller_of image.now ≡ Some result }
{
    match Controller::of(image[0x147]) {
        Some(controller) => controller,
        None => unreachable!(),
    }
}

/// Whether the cartridge type of an accepted image names a battery.
pub fn has_battery_in(image: &[u8]) -> bool
    requires { IsAccepted image.now }
    ensures { result ≡ has_battery image.now }
{
    matches!(
        image[0x147],
        0x03 | 0x06 | 0x09 | 0x0F | 0x10 | 0x13 | 0x1B | 0x1E
    )
}

/// The bytes of cartridge RAM that the header of an accepted image asks for.
pub fn ram_length_in(image: &[u8]) -> usize
    requires { IsAccepted image.now }
    ensures header { result ≡ ram_length_of image.now }
    ensures listed { Contains ram_lengths result }
{
    controller_in(image).ram_length(image[0x149]).unwrap_or(0)
}

ghost use Rattle.std.specs.Prelude.{◌==◌, position};
ghost use Rattle.std.specs.List.{before_first};

/// The bytes before the first 00, or all of them.
fn before_zero(text: &[u8]) -> &[u8]
    ensures { result.now ≡ before_first (λ byte. byte == 0) text.now }
{
    match first_zero(text) {
        Some(end) => &text[..end],
        None => text,
    }
}

fn first_zero(text: &[u8]) -> Option<usize>
    ensures { result ≡ position (λ byte. byte == 0) text.now }
{
    text.iter().position(|byte| *byte == 0)
}

fn checksum(bytes: &[u8]) -> u8
    ensures { result ≡ header_sum bytes.now }
{
    bytes
        .iter()
        .fold(0, |sum: u8, byte| sum.wrapping_sub(*byte).wrapping_sub(1))
}
