//! A picture as plain PGM.

ghost use Rattle.std.specs.Prelude.{◌≡◌, ◌<◌, ◌≤◌, ◌+◌, ◌*◌, ◌%◌, map, take, drop, length, true, All, OnOk, OnErr};
ghost use lib.Lanes.{chunk, put_chunk};
ghost use Rattle.std.specs.Io.KnownBytes.{Appends};
ghost use Rattle.exact_text.specs.Written.{AppendsProperPrefix};
ghost use Rattle.picture_unit.specs.Pgm.{values_text, row_text, picture_text};

use crate::late_picture::LatePicture;
use exact_text::{Output, OutputFailed, write_whole};
use std::simd::prelude::*;

const HEADER: &[u8; 13] = b"P2\n160 144\n3\n";

// Puts the text of eight columns. The two low bits of the digit 3 are set, so that 3 less a shade turns those that the shade has; the
// zeros between the shades turn none.
#[inline(always)]
fn put_eight(row: &[u8], column: usize, text: &mut [u8])
    requires within { column + 8 ≤ length row.now }
    requires room { 2 * column + 16 ≤ length text.old }
    requires eighth { column % 8 ≡ 0 }
    requires shades { All (λ shade. shade < 4) row.now }
    ensures { text.new ≡ put_chunk (2 * column) text.old (values_text column (chunk column 8 row.now)) }
{
    let last = if column % 32 == 24 { b'\n' } else { b' ' };
    let shades = u8x8::from_slice(&row[column..]);
    let apart = shades.shuffle(
        u8x8::splat(0),
        [0, 8, 1, 9, 2, 10, 3, 11, 4, 12, 5, 13, 6, 14, 7, 15],
    );
    let of_shade_0 = u8x16::from_array([
        b'3', b' ', b'3', b' ', b'3', b' ', b'3', b' ', b'3', b' ', b'3', b' ', b'3', b' ', b'3',
        last,
    ]);
    (apart ^ of_shade_0).copy_to_slice(&mut text[2 * column..]);
}

// Puts the text of a row. Each part of 32 columns is a line.
#[inline(always)]
fn put_text(row: &[u8; 160], text: &mut [u8; 320])
    requires shades { All (λ shade. shade < 4) row.now }
    ensures { text.new ≡ row_text row.now }
{
    for part in 0..20 {
        put_eight(row, 8 * part, text);
    }
}

// Puts the texts of 24 rows, from `first` on.
fn put_drawn_rows(rows: &[[u8; 160]], first: usize, texts: &mut [[u8; 320]; 24])
    requires within { first + 24 ≤ length rows.now }
    requires shades { All (λ row. All (λ shade. shade < 4) row) rows.now }
    ensures { texts.new ≡ map row_text (take 24 (drop first rows.now)) }
{
    for index in 0..24 {
        put_text(&rows[first + index], &mut texts[index]);
    }
}

// The same, of rows that may have to be drawn for it.
#[inline(never)]
fn put_late_rows(picture: &LatePicture, first: usize, texts: &mut [[u8; 320]; 24])
    requires rows { length picture.now.rows ≡ 144 }
    requires within { first + 24 ≤ 144 }
    ensures { texts.new ≡ map row_text (take 24 (drop first picture.now.rows)) }
{
    for index in 0..24 {
        put_text(&picture.row(first + index), &mut texts[index]);
    }
}

// Puts the texts of 24 rows, from `first` on: so many go out by one write, which may be a call of the system.
fn put_rows(picture: &LatePicture, first: usize, texts: &mut [[u8; 320]; 24])
    requires rows { length picture.now.rows ≡ 144 }
    requires within { first + 24 ≤ 144 }
    ensures { texts.new ≡ map row_text (take 24 (drop first picture.now.rows)) }
{
    match picture.drawn_rows() {
        Some(rows) => put_drawn_rows(rows, first, texts),
        None => put_late_rows(picture, first, texts),
    }
}

/// Writes the rows of a picture as plain PGM.
pub(crate) fn write_rows<W: Output>(picture: &LatePicture, out: &mut W) -> Result<(), OutputFailed>
    ensures ok { OnOk result
        (Appends (W.contents out.old) (W.contents out.new) (picture_text picture.now.rows)) }
    ensures err { OnErr result
        (AppendsProperPrefix (W.contents out.old) (W.contents out.new) (picture_text picture.now.rows)) }
    ensures failed { OnErr result (W.has_failed out.new ≡ true) }
{
    if let Err(fault) = write_whole(out, HEADER) {
        return Err(fault);
    }
    let mut texts = [[b' '; 320]; 24];
    for part in 0..picture.row_count() / 24 {
        put_rows(picture, 24 * part, &mut texts);
        if let Err(fault) = write_whole(out, texts.as_flattened()) {
            return Err(fault);
        }
    }
    Ok(())
}
