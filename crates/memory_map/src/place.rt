//! The memory map: the place that each address names.

ghost use Rattle.std.specs.Prelude.{◌≡◌};

/// What an address names: the cartridge or a register by the address itself, every other store by
/// the offset in it.
#[derive(Clone, Copy)]
pub enum Place {
    /// ROM, or cartridge RAM or clock, as the controller says.
    Cartridge(u16),
    Vram(u16),
    Wram(u16),
    Oam(u8),
    /// FEA0 to FEFF: reads 00, and ignores writes (fixed profile).
    Unused,
    /// FF10 to FF3F: bytes that hold what was written (fixed profile).
    Sound(u8),
    Register(u16),
    Hram(u8),
    InterruptEnable,
}

impl Place {
    ghost use Rattle.memory_map.specs.Map.{place};

    /// The place of an address.
    pub fn of(address: u16) -> Place
        ensures { result ≡ place address }
    {
        match address {
            0x0000..=0x7fff => Place::Cartridge(address),
            0x8000..=0x9fff => Place::Vram(address - 0x8000),
            0xa000..=0xbfff => Place::Cartridge(address),
            0xc000..=0xdfff => Place::Wram(address - 0xc000),
            0xe000..=0xfdff => Place::Wram(address - 0xe000),
            0xfe00..=0xfe9f => Place::Oam((address - 0xfe00) as u8),
            0xfea0..=0xfeff => Place::Unused,
            0xff00..=0xff0f => Place::Register(address),
            0xff10..=0xff3f => Place::Sound((address - 0xff10) as u8),
            0xff40..=0xff7f => Place::Register(address),
            0xff80..=0xfffe => Place::Hram((address - 0xff80) as u8),
            0xffff => Place::InterruptEnable,
        }
    }
}
