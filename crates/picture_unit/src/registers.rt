//! The addresses of the picture unit's registers, and the bits of LCDC and STAT that it looks at.

/// The address of the LCD control register.
pub const LCDC: u16 = 0xff40;

/// The address of the LCD status register.
pub const STAT: u16 = 0xff41;

/// The address of the register that LY is compared with.
pub const LYC: u16 = 0xff45;

// The other registers.
pub(crate) const SCY: u16 = 0xff42;

pub(crate) const SCX: u16 = 0xff43;

pub(crate) const LY: u16 = 0xff44;

pub(crate) const BGP: u16 = 0xff47;

pub(crate) const OBP0: u16 = 0xff48;

pub(crate) const OBP1: u16 = 0xff49;

pub(crate) const WY: u16 = 0xff4a;

pub(crate) const WX: u16 = 0xff4b;

/// Bit 7 of LCDC: the LCD is on.
pub(crate) const LCD_ENABLE: u8 = 0x80;

/// Bits 6, 5, 4 and 3 of STAT: the sources of the STAT signal.
pub(crate) const LYC_SELECT: u8 = 0x40;

pub(crate) const MODE_2_SELECT: u8 = 0x20;

pub(crate) const MODE_1_SELECT: u8 = 0x10;

pub(crate) const MODE_0_SELECT: u8 = 0x08;
