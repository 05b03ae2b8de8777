//! What a machine shows, as bytes.

ghost use Rattle.std.specs.Prelude.{◌≡◌, ◌<◌, ◌-◌, length, slice_index, All};
ghost use Rattle.machine.specs.Looking.{bytes_from, shades_of};

use crate::machine::Machine;
use picture_unit::LatePicture;

/// The bytes of a picture: 144 rows of 160 pixels.
pub const PICTURE_LENGTH: usize = 23_040;

/// Writes what the program would read from `address` on if nothing closed a memory to it; after FFFF comes 0000.
pub fn write_memory(machine: &Machine, address: u16, bytes: &mut [u8])
    ensures { bytes.new ≡ bytes_from machine.now address (length bytes.old) }
{
    for k in 0..bytes.len() {
        bytes[k] = machine.peek(((address as usize + k) % 65_536) as u16);
    }
}

/// A shade of a row, 0 the darkest.
#[inline(always)]
fn lightness(row: &[u8; 160], column: usize) -> u8
    requires column { column < 160 }
    requires shades { All (λ shade. shade < 4) row.now }
    ensures { result ≡ 3 - slice_index row.now column }
{
    3 - row[column]
}

/// Writes the shades of a picture row by row, 0 the darkest. Condition: there are 23,040 bytes.
pub fn write_shades(picture: &LatePicture, out: &mut [u8])
    requires { length out.old ≡ 23040 }
    ensures { out.new ≡ shades_of picture.now.rows }
{
    for y in 0..144 {
        let row = picture.row(y);
        for x in 0..160 {
            out[160 * y + x] = lightness(&row, x);
        }
    }
}
