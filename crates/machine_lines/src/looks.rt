//! Lines that look at a machine, whatever it is of.

ghost use Rattle.std.specs.Prelude.{◌≡◌, length, true, OnErr, OnOk};
ghost use Rattle.std.specs.Str.{bytes_eq};
ghost use Rattle.std.specs.Io.KnownBytes.{Appends};
ghost use Rattle.exact_text.specs.Written.{AppendsProperPrefix};
ghost use Rattle.script.specs.Line.{words_of};
ghost use Rattle.machine.specs.Looking.{bytes_from, shades_of};
ghost use Rattle.machine.specs.Machine.{picture_rows};
ghost use Rattle.snapshot.specs.Encoding.{snapshot_length};
ghost use Rattle.machine_lines.specs.Looks.{bytes_text, look_of, look_of_one, look_of_three, look_text, shades_text, shows_picture};

use crate::memory::write_memory;
use crate::states::write_state;
use crate::texts::write_count;
use crate::words::{read_address, read_room};
use cartridge::Cartridge;
use exact_text::{Output, OutputFailed, write_whole};
use machine::{Machine, PICTURE_LENGTH, write_shades};
use script::cut;

const SPACE: u8 = b' ';

/// How many bytes are written at once.
const AT_ONCE: u32 = 4_096;

/// What a line looks at.
#[derive(Clone, Copy)]
pub enum Look {
    /// The picture as it is now, as plain PGM.
    Picture,
    /// Its shades, a byte each.
    Shades,
    /// The machine's state.
    State,
    /// Bytes as the machine sees them, as lines of sixteen.
    Memory { address: u16, count: u32 },
    /// The same bytes as they are.
    Bytes { address: u16, count: u32 },
}

/// What a line looks at: `picture`, `shades`, `state`, `memory ADDR N`, `bytes ADDR N`. `None`: it is another line.
pub fn read_look(line: &[u8]) -> Option<Look>
    ensures { result ≡ look_of (words_of line.now) }
{
    let (name, rest) = cut(line, SPACE);
    let Some(rest) = rest else {
        return with_none(name);
    };
    let (word, rest) = cut(rest, SPACE);
    let (other, rest) = cut(rest?, SPACE);
    if rest.is_some() {
        return None;
    }
    with_two(name, word, other)
}

fn is_word(word: &[u8], name: &[u8]) -> bool
    ensures { result ≡ bytes_eq word.now name.now }
{
    word == name
}

fn with_none(name: &[u8]) -> Option<Look>
    ensures { result ≡ look_of_one name.now }
{
    if is_word(name, b"picture") {
        return Some(Look::Picture);
    }
    if is_word(name, b"shades") {
        return Some(Look::Shades);
    }
    if is_word(name, b"state") {
        return Some(Look::State);
    }
    None
}

fn with_two(name: &[u8], word: &[u8], other: &[u8]) -> Option<Look>
    ensures { result ≡ look_of_three name.now word.now other.now }
{
    if is_word(name, b"memory") {
        let address = read_address(word)?;
        let count = read_room(other)?;
        return Some(Look::Memory { address, count });
    }
    if is_word(name, b"bytes") {
        let address = read_address(word)?;
        let count = read_room(other)?;
        return Some(Look::Bytes { address, count });
    }
    None
}

/// Whether rows of the picture are told, which may have to be drawn for it.
pub fn shows_picture(look: Look) -> bool
    ensures { result ≡ shows_picture look }
{
    match look {
        Look::Picture | Look::Shades | Look::State => true,
        Look::Memory { .. } | Look::Bytes { .. } => false,
    }
}

/// Writes what is looked at. Conditions: the machine is one of the cartridge, and the slice has room for its snapshot.
pub fn write_look<W: Output>(
    look: Look,
    machine: &Machine,
    cartridge: &Cartridge,
    snapshot: &mut [u8],
    out: &mut W,
) -> Result<(), OutputFailed>
    requires rom { machine.now.processor.memory.banks.rom ≡ cartridge.now }
    requires room { length snapshot.old ≡ snapshot_length (length machine.now.processor.memory.banks.ram) }
    ensures ok { OnOk result (Appends (W.contents out.old) (W.contents out.new) (look_text look machine.now)) }
    ensures err { OnErr result
        (AppendsProperPrefix (W.contents out.old) (W.contents out.new) (look_text look machine.now)) }
    ensures failed { OnErr result (W.has_failed out.new ≡ true) }
    ensures room { length snapshot.new ≡ length snapshot.old }
{
    match look {
        Look::Picture => machine.picture().write_pgm(out),
        Look::Shades => write_all_shades(machine, out),
        Look::State => write_state(machine, cartridge, snapshot, out),
        Look::Memory { address, count } => write_memory(machine, address, count, out),
        Look::Bytes { address, count } => write_bytes(machine, address, count, out),
    }
}

/// Writes how many bytes follow, and the shades.
fn write_all_shades<W: Output>(machine: &Machine, out: &mut W) -> Result<(), OutputFailed>
    ensures ok { OnOk result
        (Appends (W.contents out.old) (W.contents out.new) (shades_text (picture_rows machine.now))) }
    ensures err { OnErr result
        (AppendsProperPrefix (W.contents out.old) (W.contents out.new) (shades_text (picture_rows machine.now))) }
    ensures failed { OnErr result (W.has_failed out.new ≡ true) }
{
    let mut shades = [0; PICTURE_LENGTH];
    write_shades(machine.picture(), &mut shades);
    if let Err(fault) = write_count("shades", shades.len(), out) {
        return Err(fault);
    }
    write_whole(out, &shades)
}

/// Writes how many bytes follow, and the bytes from an address on; after FFFF comes 0000.
fn write_bytes<W: Output>(
    machine: &Machine,
    address: u16,
    count: u32,
    out: &mut W,
) -> Result<(), OutputFailed>
    ensures ok { OnOk result
        (Appends (W.contents out.old) (W.contents out.new) (bytes_text machine.now address count)) }
    ensures err { OnErr result
        (AppendsProperPrefix (W.contents out.old) (W.contents out.new) (bytes_text machine.now address count)) }
    ensures failed { OnErr result (W.has_failed out.new ≡ true) }
{
    if let Err(fault) = write_count("bytes", count as usize, out) {
        return Err(fault);
    }
    write_all_bytes(machine, address, count, out)
}

fn write_all_bytes<W: Output>(
    machine: &Machine,
    address: u16,
    count: u32,
    out: &mut W,
) -> Result<(), OutputFailed>
    ensures ok { OnOk result
        (Appends (W.contents out.old) (W.contents out.new) (bytes_from machine.now address count)) }
    ensures err { OnErr result
        (AppendsProperPrefix (W.contents out.old) (W.contents out.new) (bytes_from machine.now address count)) }
    ensures failed { OnErr result (W.has_failed out.new ≡ true) }
{
    let mut room = [0; AT_ONCE as usize];
    let mut place = address;
    let mut left = count;
    while left > 0 {
        let size = left.min(AT_ONCE);
        let bytes = &mut room[..size as usize];
        machine::write_memory(machine, place, bytes);
        if let Err(fault) = write_whole(out, bytes) {
            return Err(fault);
        }
        place = place.wrapping_add(size as u16);
        left -= size;
    }
    Ok(())
}
