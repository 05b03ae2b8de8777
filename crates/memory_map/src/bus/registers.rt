//! The interrupts and the registers.

ghost use Rattle.std.specs.Prelude.{◌≡◌};
ghost use Rattle.std.specs.Prelude.{◌%◌};
ghost use Rattle.timer_unit.specs.Timer.{with_counter_and_tac};
ghost use Rattle.picture_unit.specs.Registers.{register_written as picture_register_written, register_stored};
ghost use Rattle.memory_map.specs.Joypad.{joypad_set, select_bits};
ghost use Rattle.memory_map.specs.Bus.{register_value, register_written, interrupt_flag, with_interrupt_flag, pending_interrupts, acknowledged};

use super::clock::clock_of;
use super::{Bus, NOTHING_KNOWN};
use crate::control::select_bits;
use picture_unit::{LCDC, LYC, STAT};
use timer_unit::SerialState;

/// The addresses of the registers but those of the picture unit (Pan Docs, "I/O Ranges").
const P1: u16 = 0xff00;

const SB: u16 = 0xff01;

const SC: u16 = 0xff02;

const DIV: u16 = 0xff04;

const TIMA: u16 = 0xff05;

const TMA: u16 = 0xff06;

const TAC: u16 = 0xff07;

const IF: u16 = 0xff0f;

const DMA: u16 = 0xff46;

impl Bus {
    /// The serial port: its registers, and the M-cycles that are left of a transfer.
    #[inline]
    pub fn serial(&self) -> SerialState
        ensures { result ≡ self.now.serial.serial }
    {
        self.serial.state()
    }

    /// The bits that IE and IF share, of the low five: VBlank 0, STAT 1, timer 2, serial 3, joypad
    /// 4.
    #[inline]
    pub fn pending_interrupts(&self) -> u8
        ensures { result ≡ pending_interrupts self.now }
    {
        if self.calm_until > self.clock {
            return 0;
        }
        self.control.ie & self.interrupt_flag()
    }

    /// Clears a bit of IF. A bit above 4 changes nothing.
    pub fn acknowledge(&mut self, bit: u8)
        ensures { self.new ≡ acknowledged bit self.old }
    {
        self.withdraw(bit);
        self.find_calm();
    }

    fn withdraw(&mut self, bit: u8)
        ensures { self.new ≡ acknowledged bit self.old }
    {
        self.calm_until = NOTHING_KNOWN;
        match bit {
            0 => self.vblank_requested = false,
            1 => self.stat_requested = false,
            2 => self.timer.set_requested(self.clock, false),
            3 => self.serial_requested = false,
            4 => self.control.joypad = false,
            _ => {}
        }
    }

    /// The low five bits of IF.
    pub(super) fn interrupt_flag(&self) -> u8
        ensures { result ≡ interrupt_flag self.now }
    {
        u8::from(self.vblank_requested)
            + 2 * u8::from(self.stat_requested)
            + 4 * u8::from(self.timer.requested)
            + 8 * u8::from(self.serial_requested)
            + 16 * u8::from(self.control.joypad)
    }

    /// Sets the low five bits of IF to those of the value.
    pub(super) fn set_interrupt_flag(&mut self, value: u8)
        ensures { self.new ≡ with_interrupt_flag value self.old }
    {
        self.calm_until = NOTHING_KNOWN;
        self.vblank_requested = value / 1 % 2 == 1;
        self.stat_requested = value / 2 % 2 == 1;
        self.timer.set_requested(self.clock, value / 4 % 2 == 1);
        self.serial_requested = value / 8 % 2 == 1;
        self.control.joypad = value / 16 % 2 == 1;
        self.find_calm();
    }

    #[tactic(auto, unfolding(crate::specs::Bus::register_value))]
    pub(super) fn register(&self, address: u16) -> u8
        ensures { result ≡ register_value self.now address }
    {
        match address {
            P1 => self.control.p1(),
            SB => self.serial.sb(),
            SC => self.serial.sc(),
            DIV => self.timer.copy_at(self.clock).div(),
            TIMA => self.timer.copy_at(self.clock).tima(),
            TMA => self.timer.copy_at(self.clock).tma(),
            TAC => self.timer.copy_at(self.clock).tac(),
            IF => 0xe0 + self.interrupt_flag() % 32,
            DMA => self.control.dma,
            _ => self.picture.read_register(address),
        }
    }

    #[tactic(auto, unfolding(crate::specs::Bus::register_written))]
    pub(super) fn write_register(&mut self, address: u16, value: u8)
        ensures { self.new ≡ register_written address value self.old }
    {
        match address {
            P1 => self.write_p1(value),
            SB => self.serial.write_sb(value),
            SC => {
                self.calm_until = NOTHING_KNOWN;
                self.quiet_until = NOTHING_KNOWN;
                self.serial.write_sc(value);
            }
            DIV => self.write_div(),
            TIMA => self.write_tima(value),
            TMA => self.write_tma(value),
            TAC => self.write_tac(value),
            IF => self.set_interrupt_flag(value),
            DMA => {
                self.calm_until = NOTHING_KNOWN;
                self.quiet_until = NOTHING_KNOWN;
                self.control.dma = value;
                self.control.dma_copied = 0;
            }
            _ => self.write_picture(address, value),
        }
    }

    fn write_p1(&mut self, value: u8)
        ensures { self.new ≡ record self.old
            { control = joypad_set (select_bits value) self.old.control.buttons self.old.control } }
    {
        self.calm_until = NOTHING_KNOWN;
        let buttons = self.control.buttons;
        self.control.set_joypad(select_bits(value), buttons);
    }

    fn write_div(&mut self)
        ensures { self.new ≡ record self.old
            { timer = with_counter_and_tac 0 self.old.timer.timer.tac self.old.timer } }
    {
        self.calm_until = NOTHING_KNOWN;
        self.quiet_until = NOTHING_KNOWN;
        let clock = clock_of(&self.picture);
        self.timer.write_div(self.clock, clock);
        self.clock = clock;
    }

    fn write_tac(&mut self, value: u8)
        ensures { self.new ≡ record self.old
            { timer = with_counter_and_tac self.old.timer.timer.counter (value % 8) self.old.timer } }
    {
        self.calm_until = NOTHING_KNOWN;
        self.quiet_until = NOTHING_KNOWN;
        self.timer.write_tac(self.clock, value);
    }

    fn write_tima(&mut self, value: u8)
        ensures { self.new ≡ record self.old
            { timer = record self.old.timer { timer = record self.old.timer.timer { tima = value } } } }
    {
        self.calm_until = NOTHING_KNOWN;
        self.quiet_until = NOTHING_KNOWN;
        self.timer.write_tima(self.clock, value);
    }

    fn write_tma(&mut self, value: u8)
        ensures { self.new ≡ record self.old
            { timer = record self.old.timer { timer = record self.old.timer.timer { tma = value } } } }
    {
        self.calm_until = NOTHING_KNOWN;
        self.quiet_until = NOTHING_KNOWN;
        self.timer.write_tma(self.clock, value);
    }

    #[tactic(auto, unfolding(picture_unit::specs::Registers::register_written))]
    fn write_picture(&mut self, address: u16, value: u8)
        ensures { self.new ≡ record self.old { picture = picture_register_written address value self.old.picture } }
    {
        match address {
            LCDC | STAT | LYC => self.write_signal_register(address, value),
            _ => self.store_in_picture(address, value),
        }
    }

    // LCDC, STAT or LYC, each of which may change the STAT signal.
    fn write_signal_register(&mut self, address: u16, value: u8)
        ensures { self.new ≡ record self.old { picture = picture_register_written address value self.old.picture } }
    {
        self.calm_until = NOTHING_KNOWN;
        self.quiet_until = NOTHING_KNOWN;
        self.stat_requested |= self.picture.write_register(address, value);
        let clock = clock_of(&self.picture);
        self.timer.catch_up(self.clock, clock);
        self.clock = clock;
    }

    // A register that only holds what was written: what is quiet or calm stays so.
    fn store_in_picture(&mut self, address: u16, value: u8)
        ensures { self.new ≡ record self.old {
          picture = record self.old.picture {
            picture =
                record self.old.picture.picture
                { state = register_stored address value self.old.picture.picture.state };
          };
        } }
    {
        self.picture.store_register(address, value);
    }
}
