//! The bank controllers, by the cartridge type.
ghost use Rattle.std.specs.Prelude.{◌≡◌};
ghost use Rattle.cartridge.specs.Controllers.{controller_at, most_banks_of, ram_of};

/// The chip that shows the cartridge's banks.
#[derive(Clone, Copy, Debug, PartialEq, Eq)]
pub enum Controller {
    /// No controller: 32 KiB of ROM and at most one bank of RAM in sight.
    NoMbc,
    Mbc1,
    Mbc2,
    /// MBC3 without its clock.
    Mbc3,
    Mbc3Clock,
    /// MBC5, with or without a rumble motor.
    Mbc5,
}

impl Controller {
    /// The controller of a cartridge type (the byte at 0147), where the type is known.
    pub fn of(kind: u8) -> Option<Controller>
        ensures { result ≡ controller_at kind }
    {
        match kind {
            0x00 | 0x08 | 0x09 => Some(Controller::NoMbc),
            0x01..=0x03 => Some(Controller::Mbc1),
            0x05 | 0x06 => Some(Controller::Mbc2),
            0x0F | 0x10 => Some(Controller::Mbc3Clock),
            0x11..=0x13 => Some(Controller::Mbc3),
            0x19..=0x1E => Some(Controller::Mbc5),
            _ => None,
        }
    }

    /// The most banks of 16 KiB that it reaches.
    pub fn most_banks(self) -> u16
        ensures { result ≡ most_banks_of self }
    {
        match self {
            Controller::NoMbc => 2,
            Controller::Mbc1 | Controller::Mbc3 | Controller::Mbc3Clock => 128,
            Controller::Mbc2 => 16,
            Controller::Mbc5 => 512,
        }
    }

    /// The bytes of cartridge RAM by the RAM code (the byte at 0149), where the code is known.
    pub fn ram_length(self, code: u8) -> Option<usize>
        ensures { result ≡ ram_of self code }
    {
        if self == Controller::Mbc2 {
            return Some(512);
        }
        match code {
            0x00 => Some(0),
            0x02 => Some(0x2000),
            0x03 => Some(0x8000),
            0x04 => Some(0x2_0000),
            0x05 => Some(0x1_0000),
            _ => None,
        }
    }
}
