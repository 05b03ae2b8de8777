//! Registers and flags.

ghost use Rattle.std.specs.Prelude.{◌≡◌};

/// The flags Z, N, H and C, which the register F holds in its bits 7 to 4.
#[derive(Clone, Copy, PartialEq, Eq)]
pub struct Flags {
    pub zero: bool,
    pub subtract: bool,
    pub half_carry: bool,
    pub carry: bool,
}

/// The registers of the processor (Pan Docs, 'CPU Registers and Flags'). F is kept as its flags, so
/// that its low four bits are always 0.
#[derive(Clone, Copy, PartialEq, Eq)]
pub struct Registers {
    pub a: u8,
    pub flags: Flags,
    pub b: u8,
    pub c: u8,
    pub d: u8,
    pub e: u8,
    pub h: u8,
    pub l: u8,
    pub sp: u16,
    pub pc: u16,
}

/// The value that an 8-bit operation gives, and the flags after it.
#[derive(Clone, Copy)]
pub struct Outcome {
    pub value: u8,
    pub flags: Flags,
}

/// The value that a 16-bit operation gives, and the flags after it.
#[derive(Clone, Copy)]
pub struct WordOutcome {
    pub value: u16,
    pub flags: Flags,
}

impl Flags {
    ghost use Rattle.sm83_alu.specs.Flags.{flags_byte, flags_of};

    /// The byte of the register F.
    pub fn to_byte(self) -> u8
        ensures { result ≡ flags_byte self }
    {
        let zero = if self.zero { 0x80 } else { 0 };
        let subtract = if self.subtract { 0x40 } else { 0 };
        let half_carry = if self.half_carry { 0x20 } else { 0 };
        let carry = if self.carry { 0x10 } else { 0 };
        zero | subtract | half_carry | carry
    }

    /// The flags of a byte, whose low four bits are not looked at.
    pub fn from_byte(byte: u8) -> Flags
        ensures { result ≡ flags_of byte }
    {
        Flags {
            zero: byte & 0x80 != 0,
            subtract: byte & 0x40 != 0,
            half_carry: byte & 0x20 != 0,
            carry: byte & 0x10 != 0,
        }
    }
}
