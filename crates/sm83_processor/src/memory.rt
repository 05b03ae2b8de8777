//! What the processor asks of a memory.

ghost use Rattle.std.specs.Prelude.{◌≡◌, ◌+◌, ◌*◌, ◌/◌, ◌%◌};
ghost use Rattle.sm83_processor.specs.Rules.{Rules};
ghost use Rattle.sm83_processor.specs.RegisterOperations.{next_address, previous_address};

/// A memory of 65,536 addresses with the interrupt bits, in which time passes.
///
/// No call refuses, takes the host's memory or depends on anything but the value: the ghost member
/// `rules` states what each gives and leaves.
pub trait Memory {
    /// What each access gives and leaves.
    ghost rules: { Rules Self };

    /// The byte at an address. No read changes anything.
    fn read(&self, address: u16) -> u8
        ensures { result ≡ rules.value_at self.now address };

    /// Writes a byte at an address.
    fn write(&mut self, address: u16, value: u8)
        ensures { self.new ≡ rules.written self.old address value };

    /// The word at an address, its low byte first. After FFFF comes 0000.
    #[inline]
    fn read_word(&self, address: u16) -> u16
        ensures { result ≡ rules.value_at self.now address + 256 * rules.value_at self.now (next_address address) }
    {
        let low = self.read(address);
        let high = self.read(address.wrapping_add(1));
        u16::from(low) + 256 * u16::from(high)
    }

    /// Writes a word downwards: its high byte at an address, and then its low byte at the address before it.
    #[inline]
    fn write_word_down(&mut self, address: u16, word: u16)
        ensures { self.new ≡ rules.written (rules.written self.old address (word / 256)) (previous_address address) (word % 256) }
    {
        self.write(address, (word / 256) as u8);
        self.write(address.wrapping_sub(1), (word % 256) as u8);
    }

    /// The bits that IE and IF share, of the low five: VBlank 0, STAT 1, timer 2, serial 3, joypad
    /// 4.
    fn pending_interrupts(&self) -> u8
        ensures { result ≡ rules.pending_interrupts self.now };

    /// Clears a bit of IF.
    fn acknowledge(&mut self, bit: u8)
        ensures { self.new ≡ rules.acknowledged self.old bit };

    /// Lets M-cycles pass.
    fn pass(&mut self, cycles: u8)
        ensures { self.new ≡ rules.passed self.old cycles };
}
