//! The bus as the memory of the processor: Rust wants the impl where the type or the trait is.

use crate::bus::Bus;
use sm83_processor::Memory;

impl Memory for Bus {
    ghost use Rattle.memory_map.specs.BusRules.{bus_rules};

    ghost rules = { bus_rules };

    #[inline]
    fn read(&self, address: u16) -> u8 {
        Bus::read(self, address)
    }

    #[inline]
    fn write(&mut self, address: u16, value: u8) {
        Bus::write(self, address, value);
    }

    #[inline]
    fn read_word(&self, address: u16) -> u16 {
        Bus::read_word(self, address)
    }

    #[inline]
    fn write_word_down(&mut self, address: u16, word: u16) {
        Bus::write_word_down(self, address, word);
    }

    #[inline]
    fn pending_interrupts(&self) -> u8 {
        Bus::pending_interrupts(self)
    }

    fn acknowledge(&mut self, bit: u8) {
        Bus::acknowledge(self, bit);
    }

    #[inline]
    fn pass(&mut self, cycles: u8) {
        let _ = Bus::pass_few(self, cycles);
    }
}
