//! How long the instructions of a run took, by the byte of ROM with which each begins.

ghost use Rattle.std.specs.Prelude.{◌≡◌, ◌≤◌, ◌<◌, ◌+◌, ◌^◌, ℕ, drop, length, true, IfOk, IfSome, OnErr, OnOk};
ghost use Rattle.std.specs.Io.KnownBytes.{Appends};
ghost use Rattle.std.specs.List.{count_by};
ghost use Rattle.exact_text.specs.Written.{AppendsProperPrefix};
ghost use Rattle.debugging.specs.Counting.{IsWithin};
ghost use Rattle.debugging.specs.Profile.{address_of_offset, begins_at, cycles_line, cycles_lines, cycles_text, is_some_cycle, no_cycles, rom_text, with_cycles};

use arrayvec::ArrayString;
use exact_text::{Output, OutputFailed, number_digits, word_digits, write_whole};
use machine::StepKind;
use machine_lines::write_count;
use std::alloc::{AllocError, Global};
use std::marker::Model;

/// The bytes of a bank of ROM.
const ROM_BANK: usize = 0x4000;

/// The M-cycles of the instructions that begin with each byte of ROM, and those of all other steps.
#[derive(Drop)]
pub(crate) struct CycleCounts {
    rom: Vec<u64>,
    elsewhere: u64,
}

impl Model for CycleCounts {
    ghost use Rattle.debugging.specs.Profile.{Cycles};

    ghost Value = { Cycles };

    ghost view = { λ c. record { rom = c.rom.items; elsewhere = c.elsewhere } };
}

impl CycleCounts {
    /// Nothing was run yet, of a ROM of so many bytes.
    pub(crate) fn new(alloc: Global, size: usize) -> Result<CycleCounts, AllocError>
        ensures { IfOk result (λ c. c ≡ no_cycles size) }
    {
        let rom = vec![in alloc; 0u64; size]?;
        Ok(CycleCounts { rom, elsewhere: 0 })
    }

    /// Counts the M-cycles of a step. Conditions: the offset is one of the ROM, and there is room for more.
    pub(crate) fn count(&mut self, offset: Option<usize>, cycles: u8)
        requires inside { IfSome offset (λ at. at < length self.old.rom) }
        requires room { IsWithin (2 ^ 63) self.old }
        ensures counted { self.new ≡ with_cycles offset cycles self.old }
        ensures within { (most : ℕ) → IsWithin most self.old → IsWithin (most + 255) self.new }
        ensures size { length self.new.rom ≡ length self.old.rom }
    {
        match offset {
            Some(at) => self.rom[at] += u64::from(cycles),
            None => self.elsewhere += u64::from(cycles),
        }
    }

    /// Writes the M-cycles of other steps, and then a line for each byte of ROM with which an instruction began. Condition: it has 2^30 bytes at
    /// most.
    pub(crate) fn write<W: Output>(&self, out: &mut W) -> Result<(), OutputFailed>
        requires { length self.now.rom ≤ 2 ^ 30 }
        ensures ok { OnOk result (Appends (W.contents out.old) (W.contents out.new) (cycles_text self.now)) }
        ensures err { OnErr result
            (AppendsProperPrefix (W.contents out.old) (W.contents out.new) (cycles_text self.now)) }
        ensures failed { OnErr result (W.has_failed out.new ≡ true) }
    {
        if let Err(fault) = write_count("elsewhere", self.elsewhere as usize, out) {
            return Err(fault);
        }
        write_rom(&self.rom, out)
    }
}

/// Writes how many lines follow, and then they. Condition: there are 2^30 bytes at most.
fn write_rom<W: Output>(rom: &[u64], out: &mut W) -> Result<(), OutputFailed>
    requires { length rom.now ≤ 2 ^ 30 }
    ensures ok { OnOk result (Appends (W.contents out.old) (W.contents out.new) (rom_text rom.now)) }
    ensures err { OnErr result (AppendsProperPrefix (W.contents out.old) (W.contents out.new) (rom_text rom.now)) }
    ensures failed { OnErr result (W.has_failed out.new ≡ true) }
{
    if let Err(fault) = write_count("profile", lines_of(rom), out) {
        return Err(fault);
    }
    write_lines(rom, out)
}

/// The byte of ROM with which the instruction begins that a step ran, where PC was at this one.
pub(crate) fn begins_at(kind: StepKind, at: Option<usize>) -> Option<usize>
    ensures offset { result ≡ begins_at kind at }
    ensures same { (size : ℕ) → IfSome at (λ offset. offset < size) → IfSome result (λ offset. offset < size) }
{
    match kind {
        StepKind::Ran(_) => at,
        StepKind::Wait => None,
        StepKind::Dispatch(_) => None,
    }
}

/// How many bytes have M-cycles.
fn lines_of(rom: &[u64]) -> usize
    ensures { result ≡ count_by is_some_cycle rom.now }
{
    let mut lines = 0;
    for cycles in rom {
        if *cycles != 0 {
            lines += 1;
        }
    }
    lines
}

/// Writes the line of each byte that has M-cycles. Condition: there are 2^30 bytes at most.
fn write_lines<W: Output>(rom: &[u64], out: &mut W) -> Result<(), OutputFailed>
    requires { length rom.now ≤ 2 ^ 30 }
    ensures ok { OnOk result (Appends (W.contents out.old) (W.contents out.new) (cycles_lines 0 rom.now)) }
    ensures err { OnErr result
        (AppendsProperPrefix (W.contents out.old) (W.contents out.new) (cycles_lines 0 rom.now)) }
    ensures failed { OnErr result (W.has_failed out.new ≡ true) }
{
    for offset in 0..rom.len() {
        let cycles = rom[offset];
        if cycles == 0 {
            continue;
        }
        if let Err(fault) = write_line(offset, cycles, out) {
            return Err(fault);
        }
    }
    Ok(())
}

fn write_line<W: Output>(offset: usize, cycles: u64, out: &mut W) -> Result<(), OutputFailed>
    requires { offset < 2 ^ 30 }
    ensures ok { OnOk result (Appends (W.contents out.old) (W.contents out.new) (cycles_line offset cycles)) }
    ensures err { OnErr result
        (AppendsProperPrefix (W.contents out.old) (W.contents out.new) (cycles_line offset cycles)) }
    ensures failed { OnErr result (W.has_failed out.new ≡ true) }
{
    let text = cycles_line(offset, cycles);
    write_whole(out, text.as_bytes())
}

fn cycles_line(offset: usize, cycles: u64) -> ArrayString<40>
    requires { offset < 2 ^ 30 }
    ensures { result.bytes ≡ cycles_line offset cycles }
{
    let mut text = ArrayString::new();
    text.push_str(word_digits((offset / ROM_BANK) as u16).as_str());
    text.push_str(":");
    text.push_str(word_digits(address_of(offset)).as_str());
    text.push_str(" ");
    text.push_str(number_digits(cycles).as_str());
    text.push_str("\n");
    text
}

/// The address at which a byte of ROM is seen: the first 16 KiB at 0000, each other bank at 4000.
fn address_of(offset: usize) -> u16
    ensures { result ≡ address_of_offset offset }
{
    if offset < ROM_BANK {
        return offset as u16;
    }
    (ROM_BANK + offset % ROM_BANK) as u16
}
