//! All that the processor reaches by address.

ghost use Rattle.std.specs.Prelude.{◌≡◌, ◌<◌, ◌≤◌, ◌+◌, ◌*◌, ◌/◌, ◌%◌, true, IfOk, vec_len, slice_index, if◌then◌else◌};

mod clock;
mod contents;
mod registers;

use crate::control::Control;
use crate::late_timer::LateTimer;
use crate::place::Place;
use bank_controllers::Banks;
use cartridge::Cartridge;
use picture_unit::LatePicture;
use std::alloc::{AllocError, Global};
use std::marker::Model;
use timer_unit::Serial;

/// What `calm_until` and `quiet_until` are before a change that may end what is calm or quiet: nothing is
/// known of the M-cycles to come until the bus finds it again.
pub(crate) const NOTHING_KNOWN: u16 = 0;

/// All that the processor reaches by address, and the units in which time passes.
///
/// Contracts see it as a `BusState`: each unit with the interrupts that it has requested, the
/// cartridge, WRAM, HRAM, the sound bytes, and the registers that belong to no unit. `new`
/// allocates all the memory that it needs, and no other call takes memory or refuses.
#[derive(Drop)]
pub struct Bus {
    timer: LateTimer,
    serial: Serial,
    serial_requested: bool,
    picture: LatePicture,
    vblank_requested: bool,
    stat_requested: bool,
    banks: Banks,
    wram: Vec<u8>,
    hram: [u8; 127],
    sound: [u8; 48],
    control: Control,
    // The M-cycle of the frame. While the LCD is off, those since it was last set to 0: it runs on, and at the latest when the counter of
    // DIV overflows it is set to 0 again.
    clock: u16,
    // Before this M-cycle of the clock IE and IF share no bit, and up to the one before it nothing is requested and no byte copied: the
    // picture unit, which counts too, and the timer are given them late. What may end that sets it to 0.
    calm_until: u16,
    // Up to this M-cycle of the clock nothing is requested and no byte copied, where IE and IF may share a bit.
    quiet_until: u16,
}

impl Model for Bus {
    ghost use Rattle.memory_map.specs.State.{BusState};
    ghost use Rattle.memory_map.specs.LateTimer.{up_to};
    ghost use Rattle.memory_map.specs.Invariant.{IsConsistent};

    ghost Value = { BusState };

    ghost view = { λ b. record {
      timer = up_to b.clock b.timer;
      serial = record { serial = b.serial; requested = b.serial_requested };
      picture = record { picture = b.picture; vblank = b.vblank_requested; stat = b.stat_requested };
      banks = b.banks;
      wram = b.wram.items;
      hram = b.hram;
      sound = b.sound;
      control = b.control;
    } };

    ghost invariant = { λ b. IsConsistent b.calm_until b.quiet_until b.clock b.timer (record {
      timer = up_to b.clock b.timer;
      serial = record { serial = b.serial; requested = b.serial_requested };
      picture = record { picture = b.picture; vblank = b.vblank_requested; stat = b.stat_requested };
      banks = b.banks;
      wram = b.wram.items;
      hram = b.hram;
      sound = b.sound;
      control = b.control;
    }) };
}

/// Whether an address names WRAM by its own range, and not by the echo.
#[inline(always)]
fn is_in_wram(address: u16) -> bool
    ensures from { result ≡ true → 0xc000 ≤ address }
    ensures to { result ≡ true → address < 0xe000 }
{
    address >= 0xc000 && address < 0xe000
}

#[inline(always)]
fn is_in_hram(address: u16) -> bool
    ensures from { result ≡ true → 0xff80 ≤ address }
    ensures to { result ≡ true → address < 0xffff }
{
    address >= 0xff80 && address < 0xffff
}

#[tactic(auto, unfolding(crate::specs::State::zeros))]
fn zeros(alloc: Global, count: usize) -> Result<Vec<u8>, AllocError>
    ensures items { IfOk result (λ v. v.items ≡ zeros count) }
    ensures len { IfOk result (λ v. vec_len v ≡ count) }
{
    Vec::from_elem(alloc, 0u8, count)
}

#[tactic(auto, unfolding(crate::specs::State::zeros))]
fn hram_at_power_on() -> [u8; 127]
    ensures { result ≡ zeros 127 }
{
    [0; 127]
}

#[tactic(auto, unfolding(crate::specs::State::zeros))]
fn sound_at_power_on() -> [u8; 48]
    ensures { result ≡ zeros 48 }
{
    [0; 48]
}

ghost use Rattle.memory_map.specs.State.{zeros};

impl Bus {
    ghost use Rattle.memory_map.specs.State.{bus_at_power_on};
    ghost use Rattle.memory_map.specs.Map.{place, address_after, address_before};
    ghost use Rattle.std.specs.Prelude.{[], ◌∷◌};
    ghost use Rattle.memory_map.specs.Bus.{value_at, is_closed, stored_at, peeked, read_at, written, buttons_set};

    /// The bus at power-on, with this cartridge. Refused if there is no memory.
    pub fn new(alloc: Global, cartridge: &Cartridge) -> Result<Bus, AllocError>
        ensures { IfOk result (λ b. b ≡ bus_at_power_on cartridge.now) }
    {
        let picture = LatePicture::new(alloc)?;
        let banks = Banks::new(alloc, cartridge)?;
        let wram = zeros(alloc, 8192)?;
        Ok(Bus {
            timer: LateTimer::new(),
            serial: Serial::new(),
            serial_requested: false,
            picture,
            vblank_requested: true,
            stat_requested: false,
            banks,
            wram,
            hram: hram_at_power_on(),
            sound: sound_at_power_on(),
            control: Control::at_power_on(),
            clock: 0,
            calm_until: NOTHING_KNOWN,
            quiet_until: NOTHING_KNOWN,
        })
    }

    /// Reads an address. VRAM in mode 3, and OAM in modes 2 and 3 and while a copy runs, read FF.
    /// No read changes anything.
    #[inline]
    #[tactic(auto, unfolding(crate::specs::Bus::read_at))]
    pub fn read(&self, address: u16) -> u8
        ensures { result ≡ read_at self.now address }
    {
        // WRAM comes first, since most data lies there. Where the address is that of code, the caller has mostly tested it before.
        if is_in_wram(address) {
            return self.read_wram(address);
        }
        if address < 0x4000 {
            return self.banks.read(address);
        }
        if address < 0x8000 {
            return self.banks.read(address);
        }
        if is_in_hram(address) {
            return self.read_hram(address);
        }
        self.read_place(address)
    }

    /// Reads two addresses in a row, as a word whose low byte comes first. After FFFF comes 0000.
    #[inline]
    pub fn read_word(&self, address: u16) -> u16
        ensures { result ≡ read_at self.now address + 256 * read_at self.now (address_after address) }
    {
        // Most stacks lie in WRAM or HRAM: a word there takes one access of the host.
        let second = address.wrapping_add(1);
        if is_in_wram(address) && is_in_wram(second) {
            return u16::from(self.read_wram(address)) + 256 * u16::from(self.read_wram(second));
        }
        if is_in_hram(address) && is_in_hram(second) {
            return u16::from(self.read_hram(address)) + 256 * u16::from(self.read_hram(second));
        }
        self.word_out_of_line(address)
    }

    #[inline(never)]
    fn word_out_of_line(&self, address: u16) -> u16
        ensures { result ≡ read_at self.now address + 256 * read_at self.now (address_after address) }
    {
        let low = self.read(address);
        let high = self.read(address.wrapping_add(1));
        u16::from(low) + 256 * u16::from(high)
    }

    #[inline(always)]
    #[tactic(auto, unfolding(crate::specs::Bus::read_at))]
    fn read_wram(&self, address: u16) -> u8
        requires from { 0xc000 ≤ address }
        requires to { address < 0xe000 }
        ensures { result ≡ read_at self.now address }
    {
        self.wram[usize::from(address) - 0xc000]
    }

    #[inline(always)]
    #[tactic(auto, unfolding(crate::specs::Bus::read_at))]
    fn read_hram(&self, address: u16) -> u8
        requires from { 0xff80 ≤ address }
        requires to { address < 0xffff }
        ensures { result ≡ read_at self.now address }
    {
        self.hram[usize::from(address) - 0xff80]
    }

    /// Reads three addresses in a row into `bytes`. After FFFF comes 0000.
    #[inline(always)]
    pub fn read_three(&self, address: u16, bytes: &mut [u8; 3])
        ensures { bytes.new ≡
            read_at self.now address ∷ read_at self.now (address_after address) ∷
            read_at self.now (address_after (address_after address)) ∷ [] }
    {
        // Where all three lie in one half of ROM, none of them is looked up in the memory map.
        if address < 0x3ffe {
            *bytes = self.three_at(address);
        } else if address >= 0x4000 && address < 0x7ffe {
            *bytes = self.three_at(address);
        } else {
            *bytes = self.three_out_of_line(address);
        }
    }

    #[inline(always)]
    fn three_at(&self, address: u16) -> [u8; 3]
        ensures { result ≡
            read_at self.now address ∷ read_at self.now (address_after address) ∷
            read_at self.now (address_after (address_after address)) ∷ [] }
    {
        let second = address.wrapping_add(1);
        let third = second.wrapping_add(1);
        [self.read(address), self.read(second), self.read(third)]
    }

    #[inline(never)]
    fn three_out_of_line(&self, address: u16) -> [u8; 3]
        ensures { result ≡
            read_at self.now address ∷ read_at self.now (address_after address) ∷
            read_at self.now (address_after (address_after address)) ∷ [] }
    {
        self.three_at(address)
    }

    #[inline(never)]
    #[tactic(auto, unfolding(crate::specs::Bus::read_at, picture_unit::specs::Stores::byte_read))]
    fn read_place(&self, address: u16) -> u8
        ensures { result ≡ read_at self.now address }
    {
        match Place::of(address) {
            Place::Cartridge(address) => self.banks.read(address),
            Place::Vram(offset) => self.picture.read_vram(offset),
            Place::Wram(offset) => self.wram_byte(offset),
            Place::Oam(offset) => self.oam_byte(offset),
            Place::Unused => 0,
            Place::Sound(offset) => self.sound_byte(offset),
            Place::Register(address) => self.register(address),
            Place::Hram(offset) => self.hram_byte(offset),
            Place::InterruptEnable => self.control.ie,
        }
    }

    /// What `read` gives if neither a mode nor a copy closes anything.
    #[tactic(auto, unfolding(crate::specs::Bus::peeked, picture_unit::specs::Stores::byte_read))]
    pub fn peek(&self, address: u16) -> u8
        ensures { result ≡ peeked self.now address }
    {
        self.value(Place::of(address))
    }

    /// Writes to an address. A write to a closed place is ignored.
    #[inline]
    pub fn write(&mut self, address: u16, value: u8)
        ensures { self.new ≡ written address value self.old }
    {
        if is_in_wram(address) {
            return self.set_wram(address, value);
        }
        if is_in_hram(address) {
            return self.set_hram(address, value);
        }
        self.write_place(address, value);
    }

    /// Writes the high byte of a word at an address, and then its low byte at the address before it.
    #[inline]
    pub fn write_word_down(&mut self, address: u16, word: u16)
        ensures { self.new ≡ written (address_before address) (word % 256) (written address (word / 256) self.old) }
    {
        let second = address.wrapping_sub(1);
        if is_in_wram(address) && is_in_wram(second) {
            self.set_wram(address, (word / 256) as u8);
            return self.set_wram(second, (word % 256) as u8);
        }
        if is_in_hram(address) && is_in_hram(second) {
            self.set_hram(address, (word / 256) as u8);
            return self.set_hram(second, (word % 256) as u8);
        }
        self.write_word_out_of_line(address, word);
    }

    #[inline(never)]
    fn write_word_out_of_line(&mut self, address: u16, word: u16)
        ensures { self.new ≡ written (address_before address) (word % 256) (written address (word / 256) self.old) }
    {
        self.write(address, (word / 256) as u8);
        self.write(address.wrapping_sub(1), (word % 256) as u8);
    }

    #[inline(always)]
    #[tactic(auto, unfolding(crate::specs::Bus::written))]
    fn set_wram(&mut self, address: u16, value: u8)
        requires from { 0xc000 ≤ address }
        requires to { address < 0xe000 }
        ensures { self.new ≡ written address value self.old }
    {
        self.wram[usize::from(address) - 0xc000] = value;
    }

    #[inline(always)]
    #[tactic(auto, unfolding(crate::specs::Bus::written))]
    fn set_hram(&mut self, address: u16, value: u8)
        requires from { 0xff80 ≤ address }
        requires to { address < 0xffff }
        ensures { self.new ≡ written address value self.old }
    {
        self.hram[usize::from(address) - 0xff80] = value;
    }

    #[inline(never)]
    #[tactic(auto, unfolding(crate::specs::Bus::written, picture_unit::specs::Stores::vram_written))]
    fn write_place(&mut self, address: u16, value: u8)
        ensures { self.new ≡ written address value self.old }
    {
        match Place::of(address) {
            Place::Cartridge(address) => self.banks.write(address, value),
            Place::Vram(offset) => self.write_vram(offset, value),
            Place::Wram(offset) => self.write_wram(offset, value),
            Place::Oam(offset) => self.write_oam(offset, value),
            Place::Unused => {}
            Place::Sound(offset) => self.write_sound(offset, value),
            Place::Register(address) => self.write_register(address, value),
            Place::Hram(offset) => self.write_hram(offset, value),
            Place::InterruptEnable => self.write_ie(value),
        }
    }

    /// Sets the pressed buttons: Right, Left, Up, Down, A, B, Select, Start as bits 0 to 7. If a
    /// line of P1 falls as a result, the joypad interrupt is requested.
    pub fn set_buttons(&mut self, buttons: u8)
        ensures { self.new ≡ buttons_set buttons self.old }
    {
        let select = self.control.p1_select;
        self.calm_until = NOTHING_KNOWN;
        self.control.set_joypad(select, buttons);
    }

    #[tactic(auto, unfolding(picture_unit::specs::Stores::byte_read))]
    fn value(&self, place: Place) -> u8
        ensures { result ≡ value_at self.now place }
    {
        match place {
            Place::Cartridge(address) => self.banks.read(address),
            Place::Vram(offset) => self.picture.peek_vram(offset),
            Place::Wram(offset) => self.wram_byte(offset),
            Place::Oam(offset) => self.picture.peek_oam(offset),
            Place::Unused => 0,
            Place::Sound(offset) => self.sound_byte(offset),
            Place::Register(address) => self.register(address),
            Place::Hram(offset) => self.hram_byte(offset),
            Place::InterruptEnable => self.control.ie,
        }
    }

    fn wram_byte(&self, offset: u16) -> u8
        ensures { result ≡ slice_index self.now.wram offset }
    {
        match self.wram.get(usize::from(offset)) {
            Some(byte) => *byte,
            None => 0,
        }
    }

    fn hram_byte(&self, offset: u8) -> u8
        ensures { result ≡ slice_index self.now.hram offset }
    {
        match self.hram.get(usize::from(offset)) {
            Some(byte) => *byte,
            None => 0,
        }
    }

    fn sound_byte(&self, offset: u8) -> u8
        ensures { result ≡ slice_index self.now.sound offset }
    {
        match self.sound.get(usize::from(offset)) {
            Some(byte) => *byte,
            None => 0,
        }
    }

    #[tactic(auto, unfolding(picture_unit::specs::Stores::vram_written))]
    fn write_vram(&mut self, offset: u16, value: u8)
        ensures { self.new ≡ (if is_closed self.old (Place.Vram offset) then self.old else stored_at (Place.Vram offset)
            value self.old) }
    {
        self.picture.write_vram(offset, value);
    }

    fn write_ie(&mut self, value: u8)
        ensures { self.new ≡ stored_at Place.InterruptEnable value self.old }
    {
        self.calm_until = NOTHING_KNOWN;
        self.control.ie = value;
        self.find_calm();
    }

    fn write_wram(&mut self, offset: u16, value: u8)
        ensures { self.new ≡ stored_at (Place.Wram offset) value self.old }
    {
        let place = usize::from(offset);
        if place < self.wram.len() {
            self.wram[place] = value;
        }
    }

    fn write_hram(&mut self, offset: u8, value: u8)
        ensures { self.new ≡ stored_at (Place.Hram offset) value self.old }
    {
        if offset < 127 {
            self.hram[usize::from(offset)] = value;
        }
    }

    fn write_sound(&mut self, offset: u8, value: u8)
        ensures { self.new ≡ stored_at (Place.Sound offset) value self.old }
    {
        if offset < 48 {
            self.sound[usize::from(offset)] = value;
        }
    }

    #[tactic(auto, unfolding(picture_unit::specs::Stores::byte_read))]
    fn oam_byte(&self, offset: u8) -> u8
        ensures { result ≡ (if is_closed self.now (Place.Oam offset) then 255 else value_at self.now
            (Place.Oam offset)) }
    {
        if self.control.dma_copied < 160 {
            return 0xff;
        }
        self.picture.read_oam(offset)
    }

    #[tactic(auto, unfolding(picture_unit::specs::Stores::oam_written, picture_unit::specs::Stores::oam_copied))]
    fn write_oam(&mut self, offset: u8, value: u8)
        ensures { self.new ≡ (if is_closed self.old (Place.Oam offset) then self.old else stored_at (Place.Oam offset)
            value self.old) }
    {
        if self.control.dma_copied < 160 {
            return;
        }
        self.picture.write_oam(offset, value);
    }
}
