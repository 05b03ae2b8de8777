//! Where each field of a snapshot begins. A field ends where the next one begins.

/// GBSNAP01.
pub(crate) const MAGIC: u32 = 0;

/// A F B C D E H L, SP and PC.
pub(crate) const A: u32 = 8;

pub(crate) const F: u32 = 9;

pub(crate) const B: u32 = 10;

pub(crate) const C: u32 = 11;

pub(crate) const D: u32 = 12;

pub(crate) const E: u32 = 13;

pub(crate) const H: u32 = 14;

pub(crate) const L: u32 = 15;

pub(crate) const SP: u32 = 16;

pub(crate) const PC: u32 = 18;

/// IME, ime_pending, halted, stopped, locked and halt_bug as bits 0 to 5; the overrun.
pub(crate) const PROCESSOR: u32 = 20;

pub(crate) const OVERRUN: u32 = 21;

/// IE, IF, the buttons, the select bits of P1.
pub(crate) const IE: u32 = 22;

pub(crate) const INTERRUPT_FLAG: u32 = 23;

pub(crate) const BUTTONS: u32 = 24;

pub(crate) const P1_SELECT: u32 = 25;

/// The timer's counter, TIMA, TMA and TAC.
pub(crate) const COUNTER: u32 = 26;

pub(crate) const TIMA: u32 = 28;

pub(crate) const TMA: u32 = 29;

pub(crate) const TAC: u32 = 30;

/// SB, SC and the M-cycles left of a serial transfer.
pub(crate) const SB: u32 = 31;

pub(crate) const SC: u32 = 32;

pub(crate) const CYCLES_LEFT: u32 = 33;

/// The DMA register and the bytes copied.
pub(crate) const DMA: u32 = 35;

pub(crate) const DMA_COPIED: u32 = 36;

/// The registers of the picture unit.
pub(crate) const LCDC: u32 = 37;

pub(crate) const STAT: u32 = 38;

pub(crate) const SCY: u32 = 39;

pub(crate) const SCX: u32 = 40;

pub(crate) const LYC: u32 = 41;

pub(crate) const BGP: u32 = 42;

pub(crate) const OBP0: u32 = 43;

pub(crate) const OBP1: u32 = 44;

pub(crate) const WY: u32 = 45;

pub(crate) const WX: u32 = 46;

/// The line, its M-cycle, the window counter; that WY was seen and the STAT signal as bits 0 and 1.
pub(crate) const LY: u32 = 47;

pub(crate) const M_CYCLE: u32 = 48;

pub(crate) const WINDOW_COUNTER: u32 = 49;

pub(crate) const SEEN_AND_SIGNAL: u32 = 50;

/// The controller: its kind, RAM enabled, the ROM bank, the RAM bank (MBC1's upper bits, MBC3's select), MBC1's mode or the armed latch.
pub(crate) const KIND: u32 = 51;

pub(crate) const RAM_ENABLED: u32 = 52;

pub(crate) const ROM_BANK: u32 = 53;

pub(crate) const RAM_BANK: u32 = 55;

pub(crate) const MODE: u32 = 56;

/// The live clock and the latched one, five bytes each: seconds, minutes, hours, day low, day high.
pub(crate) const CLOCK: u32 = 57;

pub(crate) const LATCHED: u32 = 62;

/// 61 bytes 0.
pub(crate) const UNUSED: u32 = 67;

/// The stores: VRAM, WRAM, OAM, HRAM, the sound bytes, the rows of the picture and the cartridge's RAM.
pub(crate) const VRAM: u32 = 128;

pub(crate) const WRAM: u32 = 8_320;

pub(crate) const OAM: u32 = 16_512;

pub(crate) const HRAM: u32 = 16_672;

pub(crate) const SOUND: u32 = 16_799;

pub(crate) const ROWS: u32 = 16_847;

pub(crate) const RAM: u32 = 22_607;
