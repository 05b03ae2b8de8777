//! The registers that belong to no unit.

/// The registers that belong to no unit, and what they are computed from.
#[derive(Clone, Copy)]
pub struct Control {
    /// IE, all eight bits.
    pub ie: u8,
    /// The joypad interrupt is requested.
    pub joypad: bool,
    /// The pressed buttons: Right, Left, Up, Down, A, B, Select, Start as bits 0 to 7.
    pub buttons: u8,
    /// Bits 5 and 4 of P1.
    pub p1_select: u8,
    /// The last value written to DMA.
    pub dma: u8,
    /// How many bytes of a copy to OAM are done; 160 if no copy is running.
    pub dma_copied: u8,
}

impl Control {
    ghost use Rattle.std.specs.Prelude.{◌≡◌, ◌≤◌};
    ghost use Rattle.memory_map.specs.Joypad.{p1_value, joypad_set, lines, select_bits};
    ghost use Rattle.memory_map.specs.State.{control_at_power_on, IsLegalControl};

    pub(crate) fn at_power_on() -> Self
        ensures registers { result ≡ control_at_power_on }
        ensures legal { IsLegalControl result }
    {
        Control {
            ie: 0,
            joypad: false,
            buttons: 0,
            p1_select: 0,
            dma: 0xff,
            dma_copied: 160,
        }
    }

    /// P1 as it reads.
    pub(crate) fn p1(&self) -> u8
        requires { self.now.p1_select ≤ 48 }
        ensures { result ≡ p1_value self.now }
    {
        0xc0 + self.p1_select + lines(self.p1_select, self.buttons)
    }

    /// Sets the select bits and the buttons.
    pub(crate) fn set_joypad(&mut self, select: u8, buttons: u8)
        ensures { self.new ≡ joypad_set select buttons self.old }
    {
        let before = lines(self.p1_select, self.buttons);
        let after = lines(select, buttons);
        self.p1_select = select;
        self.buttons = buttons;
        self.joypad |= before & (15 - after) != 0;
    }
}

ghost use Rattle.std.specs.Prelude.{◌≡◌, ◌<◌};
ghost use Rattle.memory_map.specs.Joypad.{lines, pressed, select_bits};

/// Bits 5 and 4.
pub(crate) fn select_bits(value: u8) -> u8
    ensures { result ≡ select_bits value }
{
    16 * (value / 16 % 4)
}

fn pressed(select: u8, buttons: u8) -> u8
    ensures pressed { result ≡ pressed select buttons }
    ensures four_bits { result < 16 }
{
    let directions = if select / 16 % 2 == 0 {
        buttons % 16
    } else {
        0
    };
    let others = if select / 32 % 2 == 0 {
        buttons / 16
    } else {
        0
    };
    directions | others
}

/// The low bits of P1.
fn lines(select: u8, buttons: u8) -> u8
    ensures lines { result ≡ lines select buttons }
    ensures four_bits { result < 16 }
{
    15 - pressed(select, buttons)
}
