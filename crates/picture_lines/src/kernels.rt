//! Eight and sixteen colours at once.

ghost use Rattle.std.specs.Prelude.{◌≡◌, ℕ, ◌+◌, ◌<◌, ◌≤◌, length, map, All, slice_index};
ghost use lib.Lanes.{chunk, put_chunk};
ghost use Rattle.picture_lines.specs.Bits.{plane_colours, shade_of};

use crate::bits::shade;
use std::simd::prelude::*;

/// The eight colours of a tile row, the leftmost first: 2 times the bit of the high plane plus that
/// of the low one (Pan Docs, "Tile Data").
pub fn tile_colours(low: u8, high: u8) -> [u8; 8]
    ensures { result ≡ plane_colours low high }
{
    let places = u8x8::from_array([7, 6, 5, 4, 3, 2, 1, 0]);
    let one = u8x8::splat(1);
    let low_bits = (u8x8::splat(low) >> places) & one;
    let high_bits = (u8x8::splat(high) >> places) & one;
    (high_bits + high_bits + low_bits).to_array()
}

// The shade of each colour, and 0 in the other lanes.
#[inline(always)]
fn shades_of(palette: u8) -> u8x16
    ensures { (colour : ℕ) → colour < 4 → slice_index result colour ≡ shade_of palette colour }
{
    let first = palette % 4;
    let second = palette / 4 % 4;
    let third = palette / 16 % 4;
    let fourth = palette / 64;
    u8x16::from_array([
        first, second, third, fourth, 0, 0, 0, 0, 0, 0, 0, 0, 0, 0, 0, 0,
    ])
}

// Sixteen shades at once.
fn map_sixteen(palette: u8, colours: &mut [u8], at: usize)
    requires room { at + 16 ≤ length colours.old }
    requires colours { All (λ colour. colour < 4) (chunk at 16 colours.old) }
    ensures { colours.new
        ≡ put_chunk at colours.old (map (shade_of palette) (chunk at 16 colours.old)) }
{
    let lanes = u8x16::from_slice(&colours[at..]);
    let shades = shades_of(palette).swizzle_dyn(lanes);
    shades.copy_to_slice(&mut colours[at..]);
}

// Eight shades at once.
fn map_eight(palette: u8, colours: &mut [u8], at: usize)
    requires room { at + 8 ≤ length colours.old }
    requires colours { All (λ colour. colour < 4) (chunk at 8 colours.old) }
    ensures { colours.new
        ≡ put_chunk at colours.old (map (shade_of palette) (chunk at 8 colours.old)) }
{
    let lanes = u8x8::from_slice(&colours[at..]);
    let shades = (u8x8::splat(palette) >> (lanes + lanes)) & u8x8::splat(3);
    shades.copy_to_slice(&mut colours[at..]);
}

/// Puts for each colour its shade: the palette's two bits at 2 times the colour. Sixteen or eight at
/// a time in lanes, and the rest one by one. Condition: each colour is at most 3.
#[tactic(auto, using(crate::proofs::Lanes::mapping))]
pub fn map_shades(palette: u8, colours: &mut [u8])
    requires { All (λ colour. colour < 4) colours.old }
    ensures { colours.new ≡ map (shade_of palette) colours.old }
{
    let mut at = 0;
    'sixteens: while colours.len() - at >= 16 {
        map_sixteen(palette, colours, at);
        at += 16;
    }
    'eights: while colours.len() - at >= 8 {
        map_eight(palette, colours, at);
        at += 8;
    }
    'rest: while at < colours.len() {
        colours[at] = shade(palette, colours[at]);
        at += 1;
    }
}
