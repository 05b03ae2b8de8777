//! The instructions that leave the memory as it is, by their opcode.

ghost use Rattle.std.specs.Prelude.{◌≡◌, true};
ghost use Rattle.sm83_processor.specs.KeptMemory.{KeepsMemory};

use crate::memory::Memory;
use crate::processor::Processor;

impl<M: Memory> Processor<M> {
    /// Whether every instruction of this opcode that takes this many M-cycles leaves the memory as it
    /// is. If not, it may still do so.
    #[inline(always)]
    pub(crate) fn keeps_memory(opcode: u8, cycles: u32) -> bool
        ensures { result ≡ true → KeepsMemory M.rules opcode cycles }
    {
        match opcode {
            // LD (n16),SP and STOP, which writes DIV
            0x08 | 0x10 => false,
            // LD (rr),A
            0x02 | 0x12 | 0x22 | 0x32 => false,
            // INC (HL), DEC (HL) and LD (HL),n8
            0x34 | 0x35 | 0x36 => false,
            // LD (HL),r, and HALT among them
            0x70..=0x77 => false,
            // CALL
            0xc4 | 0xcc | 0xcd | 0xd4 | 0xdc => false,
            // PUSH
            0xc5 | 0xd5 | 0xe5 | 0xf5 => false,
            // RST
            0xc7 | 0xcf | 0xd7 | 0xdf | 0xe7 | 0xef | 0xf7 | 0xff => false,
            // LDH (n8),A and LD (C),A and LD (n16),A
            0xe0 | 0xe2 | 0xea => false,
            // after CB only an operand in memory takes more
            0xcb => cycles == 2,
            _ => true,
        }
    }
}
