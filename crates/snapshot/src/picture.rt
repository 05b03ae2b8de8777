//! The shades of a picture as bytes: four shades a byte, the leftmost in bits 7 and 6, row by row.

ghost use Rattle.std.specs.Prelude.{◌≡◌, ℕ, ◌<◌, [], length, slice_index_or, All};
ghost use Rattle.machine.specs.Legal.{IsRow};
ghost use Rattle.snapshot.specs.Encoding.{byte_of_four, picture_bytes};
ghost use Rattle.snapshot.specs.Reading.{shade_in, row_in};

use picture_unit::LatePicture;

/// A byte of four shades, from column 4 times `place` on.
#[inline(always)]
fn byte_of_four(row: &[u8; 160], place: usize) -> u8
    requires place { place < 40 }
    requires shades { All (λ shade. shade < 4) row.now }
    ensures { result ≡ byte_of_four row.now place }
{
    64 * row[4 * place] + 16 * row[4 * place + 1] + 4 * row[4 * place + 2] + row[4 * place + 3]
}

/// Writes the bytes of the picture.
pub(crate) fn write_picture(picture: &LatePicture, out: &mut [u8])
    requires { length out.old ≡ 5760 }
    ensures bytes { out.new ≡ picture_bytes picture.now.rows }
    ensures rows { (y : ℕ) → y < 144 → IsRow (slice_index_or picture.now.rows y []) }
{
    for y in 0..144 {
        let row = picture.row(y);
        for place in 0..40 {
            out[40 * y + place] = byte_of_four(&row, place);
        }
    }
}

/// A shade of a byte of four.
#[inline(always)]
fn shade_in(byte: u8, place: usize) -> u8
    ensures shade { result ≡ shade_in byte place }
    ensures small { result < 4 }
{
    match place {
        0 => byte / 64,
        1 => byte / 16 % 4,
        2 => byte / 4 % 4,
        _ => byte % 4,
    }
}

/// A row of the picture.
pub(crate) fn row_in(picture: &[u8], y: usize) -> [u8; 160]
    requires length { length picture.now ≡ 5760 }
    requires y_in { y < 144 }
    ensures { result ≡ row_in picture.now y }
{
    let mut row = [0; 160];
    for place in 0..40 {
        let four = picture[40 * y + place];
        row[4 * place] = shade_in(four, 0);
        row[4 * place + 1] = shade_in(four, 1);
        row[4 * place + 2] = shade_in(four, 2);
        row[4 * place + 3] = shade_in(four, 3);
    }
    row
}
