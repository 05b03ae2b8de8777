//! The picture unit: time, registers, stores and pictures.
use crate::asserting::{OrStop, holds, same};
use exact_text::CheckedOutput;
use picture_unit::{LatePicture, OutputFailed, map_shades, tile_colours};

// These have no contract, so that a test's proof does not follow the picture.

const BLACK_LINE: &[u8] = b"3 3 3 3 3 3 3 3 3 3 3 3 3 3 3 3 3 3 3 3 3 3 3 3 3 3 3 3 3 3 3 3\n";

fn is_black(text: &[u8]) -> bool {
    text.starts_with(b"P2\n160 144\n3\n")
        && text
            .iter()
            .skip(13)
            .eq(BLACK_LINE.iter().cycle().take(46080))
}

// A writer with room for 100 bytes has the first of them.
fn is_cut_short(picture: &LatePicture, text: &[u8]) -> bool {
    let mut part = [0; 100];
    is_longer(picture, &mut part) && text.starts_with(&part)
}

fn is_longer(picture: &LatePicture, room: &mut [u8]) -> bool {
    picture.write_pgm(&mut CheckedOutput::new(room)) == Err(OutputFailed)
}

#[test]
fn picture_at_power_on_as_text(rt: HostRuntime) {
    let picture = LatePicture::new(rt.alloc()).or_stop(&rt);
    let mut text = Vec::new(rt.alloc());
    same!(rt; picture.write_pgm(&mut CheckedOutput::new(&mut text)), Ok(()));
    same!(rt; text.len(), 46093);
    holds!(rt; is_black(&text));
    holds!(rt; is_cut_short(&picture, &text));
}

#[test]
fn colours_and_shades(rt: HostRuntime) {
    // the example of Pan Docs, "Tile Data"
    same!(rt; tile_colours(0x3c, 0x7e), [0, 2, 3, 3, 3, 3, 2, 0]);
    let mut shades = [0, 1, 2, 3, 3, 2, 1, 0, 0, 0, 1, 1, 2, 2, 3, 3, 1];
    map_shades(0x1b, &mut shades);
    same!(rt; shades, [3, 2, 1, 0, 0, 1, 2, 3, 3, 3, 2, 2, 1, 1, 0, 0, 2]);
}
