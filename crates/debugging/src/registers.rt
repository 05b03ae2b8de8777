//! Registers that a line sets.

ghost use Rattle.std.specs.Prelude.{◌≡◌, ◌/◌, ◌%◌};
ghost use Rattle.debugging.specs.Setting.{byte_register, register_of, with_register, word_register};

use crate::order::is_word;
use machine_lines::{read_address, read_hex};
use sm83_alu::{Flags, Registers};

/// The most digits of a byte.
const BYTE_DIGITS: usize = 2;

/// A register, or a pair of them, and the value that it gets.
#[derive(Clone, Copy)]
pub enum RegisterValue {
    A(u8),
    /// The low four bits are dropped.
    F(u8),
    B(u8),
    C(u8),
    D(u8),
    E(u8),
    H(u8),
    L(u8),
    /// The low four bits are dropped.
    Af(u16),
    Bc(u16),
    De(u16),
    Hl(u16),
    Sp(u16),
    Pc(u16),
}

/// The register of this name, which has one letter for a byte and two for two bytes, and its value: one hexadecimal digit or two, or one to
/// four. `None`: there is none of this name, or the value is wrong.
pub(crate) fn read_register(name: &[u8], value: &[u8]) -> Option<RegisterValue>
    ensures { result ≡ register_of name.now value.now }
{
    if name.len() == 1 {
        let value = read_hex(value, BYTE_DIGITS)?;
        return byte_register(name, value as u8);
    }
    let value = read_address(value)?;
    word_register(name, value)
}

fn byte_register(name: &[u8], value: u8) -> Option<RegisterValue>
    ensures { result ≡ byte_register name.now value }
{
    if is_word(name, b"A") {
        return Some(RegisterValue::A(value));
    }
    if is_word(name, b"F") {
        return Some(RegisterValue::F(value));
    }
    if is_word(name, b"B") {
        return Some(RegisterValue::B(value));
    }
    if is_word(name, b"C") {
        return Some(RegisterValue::C(value));
    }
    if is_word(name, b"D") {
        return Some(RegisterValue::D(value));
    }
    if is_word(name, b"E") {
        return Some(RegisterValue::E(value));
    }
    if is_word(name, b"H") {
        return Some(RegisterValue::H(value));
    }
    if is_word(name, b"L") {
        return Some(RegisterValue::L(value));
    }
    None
}

fn word_register(name: &[u8], value: u16) -> Option<RegisterValue>
    ensures { result ≡ word_register name.now value }
{
    if is_word(name, b"AF") {
        return Some(RegisterValue::Af(value));
    }
    if is_word(name, b"BC") {
        return Some(RegisterValue::Bc(value));
    }
    if is_word(name, b"DE") {
        return Some(RegisterValue::De(value));
    }
    if is_word(name, b"HL") {
        return Some(RegisterValue::Hl(value));
    }
    if is_word(name, b"SP") {
        return Some(RegisterValue::Sp(value));
    }
    if is_word(name, b"PC") {
        return Some(RegisterValue::Pc(value));
    }
    None
}

/// The registers with this value in one of them, or in a pair.
pub(crate) fn with_register(registers: Registers, value: RegisterValue) -> Registers
    ensures { result ≡ with_register value registers }
{
    let mut set = registers;
    match value {
        RegisterValue::A(byte) => set.a = byte,
        RegisterValue::F(byte) => set.flags = Flags::from_byte(byte),
        RegisterValue::B(byte) => set.b = byte,
        RegisterValue::C(byte) => set.c = byte,
        RegisterValue::D(byte) => set.d = byte,
        RegisterValue::E(byte) => set.e = byte,
        RegisterValue::H(byte) => set.h = byte,
        RegisterValue::L(byte) => set.l = byte,
        RegisterValue::Af(word) => {
            set.a = high_byte(word);
            set.flags = Flags::from_byte(low_byte(word));
        }
        RegisterValue::Bc(word) => {
            set.b = high_byte(word);
            set.c = low_byte(word);
        }
        RegisterValue::De(word) => {
            set.d = high_byte(word);
            set.e = low_byte(word);
        }
        RegisterValue::Hl(word) => {
            set.h = high_byte(word);
            set.l = low_byte(word);
        }
        RegisterValue::Sp(word) => set.sp = word,
        RegisterValue::Pc(word) => set.pc = word,
    }
    set
}

fn high_byte(word: u16) -> u8
    ensures { result ≡ word / 256 }
{
    (word / 256) as u8
}

fn low_byte(word: u16) -> u8
    ensures { result ≡ word % 256 }
{
    (word % 256) as u8
}
