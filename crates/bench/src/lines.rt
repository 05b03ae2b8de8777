//! Lines of the picture: by tile rows and pixel by pixel.

ghost use Rattle.std.specs.Prelude.{◌≡◌, ◌<◌};

use crate::best::best_of;
use picture_lines::{LineRegisters, TileMemory};
use std::io;

const ROUNDS: u32 = 16;

const FRAMES: u32 = 16;

fn next(state: u32) -> u32 {
    state.wrapping_mul(1664525).wrapping_add(1013904223)
}

fn registers(line: u8, lcdc: u8, scroll: u8) -> LineRegisters
    ensures { result.ly ≡ line }
{
    LineRegisters {
        lcdc,
        scy: scroll,
        scx: scroll,
        bgp: 0xe4,
        obp0: 0xd2,
        obp1: 0x1b,
        wx: 90,
        ly: line,
        window_counter: line,
        seen: true,
    }
}

fn sum_of(row: &[u8; 160], line: u8, sum: u32) -> u32
    requires { line < 144 }
{
    sum.wrapping_mul(31).wrapping_add(row[line as usize] as u32)
}

fn draw_frame(tiles: &mut TileMemory, oam: &[u8; 160], lcdc: u8, scroll: u8) -> u32 {
    let mut sum = 0;
    let mut row = [0; 160];
    for line in 0..144 {
        registers(line % 8, lcdc, scroll).draw(tiles, oam, &mut row);
        sum = sum_of(&row, line, sum);
    }
    sum
}

fn draw_frame_by_definition(vram: &[u8; 8192], oam: &[u8; 160], lcdc: u8, scroll: u8) -> u32 {
    let mut sum = 0;
    let mut row = [0; 160];
    for line in 0..144 {
        registers(line % 8, lcdc, scroll).draw_by_definition(vram, oam, &mut row);
        sum = sum_of(&row, line, sum);
    }
    sum
}

// VRAM and OAM without a pattern; forty objects cover the first eight lines, of which ten are drawn.
fn put_noise(vram: &mut [u8; 8192], oam: &mut [u8; 160]) {
    let mut state: u32 = 2463534242;
    for byte in vram.iter_mut() {
        state = next(state);
        *byte = (state / 65536 % 256) as u8;
    }
    for index in 0..40 {
        state = next(state);
        oam[4 * index] = 16;
        oam[4 * index + 1] = (state / 65536 % 168) as u8;
        oam[4 * index + 2] = index as u8;
        oam[4 * index + 3] = (state / 256 % 256) as u8;
    }
}

fn time_kind(
    rt: &HostRuntime,
    what: &str,
    lcdc: u8,
    vram: &[u8; 8192],
    oam: &[u8; 160],
) -> io::Result<()> {
    let mut tiles = TileMemory::new(rt.alloc())?;
    tiles.fill(vram);
    let cached = best_of(rt, ROUNDS, || {
        let mut sum: u32 = 0;
        for frame in 0..FRAMES {
            sum = sum.wrapping_add(draw_frame(&mut tiles, oam, lcdc, (frame % 256) as u8));
        }
        Ok(sum)
    })?;
    let plain = best_of(rt, ROUNDS, || {
        let mut sum: u32 = 0;
        for frame in 0..FRAMES {
            sum = sum.wrapping_add(draw_frame_by_definition(vram, oam, lcdc, (frame % 256) as u8));
        }
        Ok(sum)
    })?;
    let lines = 144 * u64::from(FRAMES);
    println!(rt;
        "{what}: {} ns a line by tile rows, {} ns pixel by pixel, same {}",
        cached.nanoseconds / lines,
        plain.nanoseconds / lines,
        cached.sum == plain.sum
    )
}

/// Lines with a background, a window, and objects of both heights.
pub(crate) fn time(rt: &HostRuntime) -> io::Result<()> {
    let mut vram = [0; 8192];
    let mut oam = [0; 160];
    put_noise(&mut vram, &mut oam);
    let kinds = [
        (0x81, "background"),
        (0xf1, "background and window"),
        (0x83, "background and ten objects 8x8"),
        (0x87, "background and ten objects 8x16"),
    ];
    for (lcdc, what) in kinds {
        time_kind(rt, what, lcdc, &vram, &oam)?;
    }
    Ok(())
}
