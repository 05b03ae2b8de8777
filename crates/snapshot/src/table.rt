//! The table of fields of a cartridge's snapshots, and the first one that is not legal.

ghost use Rattle.std.specs.Prelude.{◌≡◌, ◌≤◌, ◌<◌, true, IfSome, IfNone, length, get_or, if◌then◌else◌};
ghost use Rattle.std.specs.List.{All};
ghost use Rattle.bank_controllers.specs.State.{first_rom_bank, last_rom_bank, last_ram_bank, has_ram_enable, has_mode, has_clock};
ghost use Rattle.snapshot.specs.Encoding.{kind_byte};
ghost use Rattle.snapshot.specs.Table.{byte, word, bytes, switch, counts_to, day_high_of, ram_rule, table, is_legal};
ghost use Rattle.snapshot.specs.Legal.{IsFirstIllegal};
ghost use Rattle.snapshot.specs.Ascending.{IsAscending};

use crate::field::{Rule, SnapshotField};
use crate::layout;
use cartridge::Controller;

fn byte(offset: u32, rule: Rule) -> SnapshotField
    ensures { result ≡ byte offset rule }
{
    SnapshotField {
        offset,
        width: 1,
        rule,
    }
}

fn word(offset: u32, rule: Rule) -> SnapshotField
    ensures { result ≡ word offset rule }
{
    SnapshotField {
        offset,
        width: 2,
        rule,
    }
}

fn bytes(offset: u32, width: u32, rule: Rule) -> SnapshotField
    ensures { result ≡ bytes offset width rule }
{
    SnapshotField {
        offset,
        width,
        rule,
    }
}

/// The byte 51 of a kind.
pub(crate) fn kind_byte(kind: Controller) -> u8
    ensures { result ≡ kind_byte kind }
{
    match kind {
        Controller::NoMbc => 0,
        Controller::Mbc1 => 1,
        Controller::Mbc2 => 2,
        Controller::Mbc3 => 3,
        Controller::Mbc3Clock => 4,
        Controller::Mbc5 => 5,
    }
}

fn kind_rule(kind: Controller) -> Rule
    ensures { result ≡ Rule.Between (kind_byte kind) (kind_byte kind) }
{
    let byte = u16::from(kind_byte(kind));
    Rule::Between(byte, byte)
}

fn enable_rule(kind: Controller) -> Rule
    ensures { result ≡ switch (has_ram_enable kind) }
{
    match kind {
        Controller::NoMbc => Rule::Between(0, 0),
        _ => Rule::Between(0, 1),
    }
}

fn rom_bank_rule(kind: Controller) -> Rule
    ensures { result ≡ Rule.Between (first_rom_bank kind) (last_rom_bank kind) }
{
    match kind {
        Controller::NoMbc => Rule::Between(0, 0),
        Controller::Mbc1 => Rule::Between(1, 31),
        Controller::Mbc2 => Rule::Between(1, 15),
        Controller::Mbc3 | Controller::Mbc3Clock => Rule::Between(1, 127),
        Controller::Mbc5 => Rule::Between(0, 511),
    }
}

fn ram_bank_rule(kind: Controller, rumble: bool) -> Rule
    ensures { result ≡ Rule.Between 0 (last_ram_bank kind rumble) }
{
    match kind {
        Controller::NoMbc | Controller::Mbc2 => Rule::Between(0, 0),
        Controller::Mbc1 => Rule::Between(0, 3),
        Controller::Mbc3 | Controller::Mbc3Clock => Rule::Between(0, 15),
        Controller::Mbc5 => Rule::Between(0, if rumble { 7 } else { 15 }),
    }
}

fn mode_rule(kind: Controller) -> Rule
    ensures { result ≡ switch (has_mode kind) }
{
    match kind {
        Controller::Mbc1 | Controller::Mbc3Clock => Rule::Between(0, 1),
        _ => Rule::Between(0, 0),
    }
}

fn counts_to(kind: Controller, last: u16) -> Rule
    ensures { result ≡ counts_to kind last }
{
    match kind {
        Controller::Mbc3Clock => Rule::Between(0, last),
        _ => Rule::Between(0, 0),
    }
}

fn day_high_rule(kind: Controller) -> Rule
    ensures { result ≡ day_high_of kind }
{
    match kind {
        Controller::Mbc3Clock => Rule::Bits(0xC1),
        _ => Rule::Bits(0),
    }
}

fn ram_rule(kind: Controller) -> Rule
    ensures { result ≡ ram_rule kind }
{
    match kind {
        Controller::Mbc2 => Rule::HalfBytes,
        _ => Rule::Any,
    }
}

/// The fields of the snapshots of a cartridge with this kind, with or without a rumble motor, and with this many bytes of RAM.
#[tactic(auto, unfolding(crate::specs::Table::table))]
pub(crate) fn table(kind: Controller, rumble: bool, ram: u32) -> [SnapshotField; 63]
    ensures { result ≡ table kind rumble ram }
{
    [
        bytes(layout::MAGIC, 8, Rule::Magic),
        byte(layout::A, Rule::Any),
        byte(layout::F, Rule::Bits(0xF0)),
        byte(layout::B, Rule::Any),
        byte(layout::C, Rule::Any),
        byte(layout::D, Rule::Any),
        byte(layout::E, Rule::Any),
        byte(layout::H, Rule::Any),
        byte(layout::L, Rule::Any),
        word(layout::SP, Rule::Any),
        word(layout::PC, Rule::Any),
        byte(layout::PROCESSOR, Rule::Between(0, 63)),
        byte(layout::OVERRUN, Rule::Between(0, 5)),
        byte(layout::IE, Rule::Any),
        byte(layout::INTERRUPT_FLAG, Rule::Between(0, 31)),
        byte(layout::BUTTONS, Rule::Any),
        byte(layout::P1_SELECT, Rule::Bits(0x30)),
        word(layout::COUNTER, Rule::Any),
        byte(layout::TIMA, Rule::Any),
        byte(layout::TMA, Rule::Any),
        byte(layout::TAC, Rule::Between(0, 7)),
        byte(layout::SB, Rule::Any),
        byte(layout::SC, Rule::Bits(0x81)),
        word(layout::CYCLES_LEFT, Rule::Between(0, 1024)),
        byte(layout::DMA, Rule::Any),
        byte(layout::DMA_COPIED, Rule::Between(0, 160)),
        byte(layout::LCDC, Rule::Any),
        byte(layout::STAT, Rule::Bits(0x78)),
        byte(layout::SCY, Rule::Any),
        byte(layout::SCX, Rule::Any),
        byte(layout::LYC, Rule::Any),
        byte(layout::BGP, Rule::Any),
        byte(layout::OBP0, Rule::Any),
        byte(layout::OBP1, Rule::Any),
        byte(layout::WY, Rule::Any),
        byte(layout::WX, Rule::Any),
        byte(layout::LY, Rule::Between(0, 153)),
        byte(layout::M_CYCLE, Rule::Between(0, 113)),
        byte(layout::WINDOW_COUNTER, Rule::Any),
        byte(layout::SEEN_AND_SIGNAL, Rule::Between(0, 3)),
        byte(layout::KIND, kind_rule(kind)),
        byte(layout::RAM_ENABLED, enable_rule(kind)),
        word(layout::ROM_BANK, rom_bank_rule(kind)),
        byte(layout::RAM_BANK, ram_bank_rule(kind, rumble)),
        byte(layout::MODE, mode_rule(kind)),
        byte(layout::CLOCK, counts_to(kind, 63)),
        byte(layout::CLOCK + 1, counts_to(kind, 63)),
        byte(layout::CLOCK + 2, counts_to(kind, 31)),
        byte(layout::CLOCK + 3, counts_to(kind, 255)),
        byte(layout::CLOCK + 4, day_high_rule(kind)),
        byte(layout::LATCHED, counts_to(kind, 63)),
        byte(layout::LATCHED + 1, counts_to(kind, 63)),
        byte(layout::LATCHED + 2, counts_to(kind, 31)),
        byte(layout::LATCHED + 3, counts_to(kind, 255)),
        byte(layout::LATCHED + 4, day_high_rule(kind)),
        bytes(layout::UNUSED, 61, Rule::Zeros),
        bytes(layout::VRAM, 8192, Rule::Any),
        bytes(layout::WRAM, 8192, Rule::Any),
        bytes(layout::OAM, 160, Rule::Any),
        bytes(layout::HRAM, 127, Rule::Any),
        bytes(layout::SOUND, 48, Rule::Any),
        bytes(layout::ROWS, 5760, Rule::Any),
        bytes(layout::RAM, ram, ram_rule(kind)),
    ]
}

/// The offset of the first of the fields, which come by offset, that is not legal.
pub(crate) fn first_illegal(fields: &[SnapshotField], encoded: &[u8]) -> Option<u32>
    requires { IsAscending fields.now }
    ensures none { IfNone result (All (λ field. is_legal field encoded.now ≡ true) fields.now) }
    ensures some { IfSome result (λ offset. IsFirstIllegal fields.now encoded.now offset) }
{
    for field in fields {
        if !field.is_legal(encoded) {
            return Some(field.offset);
        }
    }
    None
}
