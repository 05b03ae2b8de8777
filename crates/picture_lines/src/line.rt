//! A line by whole tile rows.

ghost use Rattle.std.specs.Prelude.{◌≡◌, ℕ, ◌+◌, ◌*◌, ◌-◌, ◌/◌, ◌%◌, ◌<◌, ◌≤◌, length, slice_index, All, List, drop, [], ◌∷◌, if◌then◌else◌};
ghost use Rattle.std.specs.List.{AllPass};
ghost use lib.Lanes.{put_chunk};
ghost use Rattle.picture_lines.specs.Pixel.{tile_of, map_row as map_row_of, map_colour, background_colour, background_shade, object_colour, object_palette, covers_line, shade_at, drawn_row};
ghost use Rattle.picture_lines.specs.Choice.{IsChoice};
ghost use Rattle.picture_lines.specs.Bits.{shade_of};
ghost use Rattle.picture_lines.specs.Layers.{IsBackground, IsLayered};

use crate::bits::has_bit;
use crate::by_definition::{map_start, shade_over};
use crate::chosen::ChosenObjects;
use crate::kernels::map_shades;
use crate::object_entry::{Object, X_FLIP};
use crate::registers::{
    BACKGROUND_ENABLE, BACKGROUND_MAP, LineRegisters, OBJECT_ENABLE, TILE_DATA, WINDOW_MAP,
};
use crate::tiles::TileMemory;

const WIDTH: usize = 176;

// The palette that gives each colour the shade of the same number.
const OWN_SHADES: u8 = 0xe4;

// The tile data at 8800 count tiles from -128 to 127. Adding this to a tile's number twice, the first time modulo 256, gives the tile
// without a branch on the number.
#[tactic(auto, unfolding(crate::specs::Pixel::tile_of))]
#[inline(always)]
fn first_tile(lcdc: u8) -> u8
    ensures value { (number : ℕ) → number < 256 → tile_of lcdc number ≡ (number + result) % 256 + result }
    ensures small { result ≤ 128 }
{
    if has_bit(lcdc, TILE_DATA) { 0 } else { 128 }
}

// The tile row of a tile of a map, at a row of the map.
#[tactic(auto, using(crate::proofs::Composing::map_row_of_tile))]
#[inline(always)]
fn map_row(lcdc: u8, tiles: &TileMemory, start: usize, tile: usize, row: u8) -> usize
    requires start_in { start ≤ 7168 }
    requires tile_in { tile < 32 }
    ensures value { result ≡ map_row_of lcdc tiles.now start (8 * tile) row }
    ensures small { result < 3072 }
{
    let number = tiles.byte(start + 32 * (row as usize / 8) + tile);
    let first = first_tile(lcdc);
    8 * number.wrapping_add(first) as usize + (8 * first as usize + row as usize % 8)
}

// Puts eight colours side by side.
fn put_row(buffer: &mut [u8; WIDTH], at: usize, colours: [u8; 8])
    requires { at + 8 ≤ 176 }
    ensures { buffer.new ≡ put_chunk at buffer.old colours }
{
    buffer[at..at + 8].copy_from_slice(&colours);
}

// Puts the colours of a row of a map, from the index `start_at` to the end of the line.
fn put_map(
    lcdc: u8,
    tiles: &mut TileMemory,
    start: usize,
    first: u8,
    row: u8,
    buffer: &mut [u8; WIDTH],
    left: usize,
)
    requires start_in { start ≤ 7168 }
    requires whole { first % 8 ≡ 0 }
    requires small { All (λ colour. colour < 4) buffer.old }
    ensures tiles { tiles.new ≡ tiles.old }
    ensures small { All (λ colour. colour < 4) buffer.new }
    ensures kept { (i : ℕ) → i < left → slice_index buffer.new i ≡ slice_index buffer.old i }
    ensures put { (i : ℕ) → left ≤ i → i < 168 →
        slice_index buffer.new i
        ≡ map_colour lcdc tiles.old start ((first + (i - left)) % 256) row }
{
    let mut at = left;
    let mut tile = first as usize / 8;
    while at < 168 {
        let index = map_row(lcdc, tiles, start, tile, row);
        put_row(buffer, at, tiles.row(index));
        at += 8;
        tile = (tile + 1) % 32;
    }
}

// A column of a tile row, counted from the other side where it is flipped.
fn turned(is_flipped: bool, across: usize) -> usize
    requires { across < 8 }
    ensures value { result ≡ (if is_flipped then 7 - across else across) }
    ensures small { result < 8 }
{
    if is_flipped { 7 - across } else { across }
}

// The background of a line, with eight columns of room on each side: column x stands at index x +
// 8.
#[derive(Drop)]
struct Background {
    colours: [u8; WIDTH],
    shades: [u8; WIDTH],
}

// The shades of a line, and X of the object in front at each column.
#[derive(Drop)]
struct Overlay {
    shades: [u8; WIDTH],
    fronts: [u8; WIDTH],
}

impl LineRegisters {
    // The colours of the background, column x at index x + 8.
    #[inline(always)]
    fn background_colours(&self, tiles: &mut TileMemory) -> [u8; WIDTH]
        ensures tiles { tiles.new ≡ tiles.old }
        ensures small { All (λ colour. colour < 4) result }
        ensures colours { (x : ℕ) → x < 160 →
            slice_index result (x + 8) ≡ background_colour self.now tiles.old x }
    {
        let mut colours = [0; WIDTH];
        if !has_bit(self.lcdc, BACKGROUND_ENABLE) {
            return colours;
        }
        let across = self.scx % 8;
        put_map(
            self.lcdc,
            tiles,
            map_start(self.lcdc, BACKGROUND_MAP),
            self.scx - across,
            self.scy.wrapping_add(self.ly),
            &mut colours,
            8 - across as usize,
        );
        if self.is_window_drawn() {
            put_map(
                self.lcdc,
                tiles,
                map_start(self.lcdc, WINDOW_MAP),
                0,
                self.window_counter,
                &mut colours,
                self.wx as usize + 1,
            );
        }
        colours
    }

    // The background of the line.
    fn background(&self, tiles: &mut TileMemory) -> Background
        ensures tiles { tiles.new ≡ tiles.old }
        ensures columns { (x : ℕ) → x < 160 →
            IsBackground self.now tiles.old result.colours result.shades x }
    {
        let colours = self.background_colours(tiles);
        let mut shades = colours;
        if has_bit(self.lcdc, BACKGROUND_ENABLE) {
            map_shades(self.bgp, &mut shades);
        }
        Background { colours, shades }
    }

    // The shades of the background, column x at index x + 8.
    fn background_shades(&self, tiles: &mut TileMemory) -> [u8; WIDTH]
        ensures tiles { tiles.new ≡ tiles.old }
        ensures shades { (x : ℕ) → x < 160 →
            slice_index result (x + 8) ≡ background_shade self.now tiles.old x }
    {
        let mut colours = self.background_colours(tiles);
        if has_bit(self.lcdc, BACKGROUND_ENABLE) && self.bgp != OWN_SHADES {
            map_shades(self.bgp, &mut colours);
        }
        colours
    }

    // The background without an object over it.
    fn bare_overlay(&self, background: &Background) -> Overlay
        ensures { (vram : List ℕ) (x : ℕ) → x < 160 →
            IsBackground self.now vram background.now.colours background.now.shades x →
            IsLayered self.now vram [] result.shades result.fronts x }
    {
        Overlay {
            shades: background.shades,
            fronts: [255; WIDTH],
        }
    }

    // Puts one colour of an object over what lies behind it.
    fn put_pixel(
        &self,
        object: &Object,
        colour: u8,
        shade: u8,
        background: &Background,
        overlay: &mut Overlay,
        at: usize,
    )
        requires at_in { at < 176 }
        requires shade { shade ≡ shade_of (object_palette self.now object.now) colour }
        ensures shades { (i : ℕ) → (i ≡ at → ⊥) →
            slice_index overlay.new.shades i ≡ slice_index overlay.old.shades i }
        ensures fronts { (i : ℕ) → (i ≡ at → ⊥) →
            slice_index overlay.new.fronts i ≡ slice_index overlay.old.fronts i }
        ensures put { (vram : List ℕ) (rest : List _) (x : ℕ) → at ≡ x + 8 →
            colour ≡ object_colour self.now vram x object.now →
            IsBackground self.now vram background.now.colours background.now.shades x →
            IsLayered self.now vram rest overlay.old.shades overlay.old.fronts x →
            IsLayered self.now vram (object.now ∷ rest) overlay.new.shades overlay.new.fronts x }
    {
        if colour == 0 {
            return;
        }
        if overlay.fronts[at] < object.x {
            return;
        }
        let under = background.colours[at];
        let under_shade = background.shades[at];
        overlay.fronts[at] = object.x;
        overlay.shades[at] = shade_over(object, shade, under, under_shade);
    }

    // Puts one of the selected objects over those after it.
    fn put_object(
        &self,
        tiles: &mut TileMemory,
        selected: &[Object],
        index: usize,
        background: &Background,
        overlay: &mut Overlay,
    )
        requires line_in { self.now.ly < 144 }
        requires index_in { index < length selected.now }
        requires covered { AllPass (covers_line self.now) selected.now }
        requires background { (x : ℕ) → x < 160 →
            IsBackground self.now tiles.old background.now.colours background.now.shades x }
        requires layered { (x : ℕ) → x < 160 →
            IsLayered self.now tiles.old (drop (index + 1) selected.now)
            overlay.old.shades overlay.old.fronts x }
        ensures tiles { tiles.new ≡ tiles.old }
        ensures layered { (x : ℕ) → x < 160 →
            IsLayered self.now tiles.old (drop index selected.now)
            overlay.new.shades overlay.new.fronts x }
    {
        let object = selected[index];
        if object.x >= 168 {
            return;
        }
        let colours = tiles.row(self.object_row(&object));
        let mut shades = colours;
        map_shades(self.object_palette(&object), &mut shades);
        let is_flipped = has_bit(object.attributes, X_FLIP);
        for across in 0..8 {
            let place = turned(is_flipped, across);
            self.put_pixel(
                &object,
                colours[place],
                shades[place],
                background,
                overlay,
                object.x as usize + across,
            );
        }
    }

    // Draws a line on which no object is.
    #[inline(never)]
    fn draw_background(&self, tiles: &mut TileMemory, row: &mut [u8; 160])
        ensures tiles { tiles.new ≡ tiles.old }
        ensures shades { (x : ℕ) → x < 160 →
            slice_index row.new x ≡ background_shade self.now tiles.old x }
    {
        let shades = self.background_shades(tiles);
        row.copy_from_slice(&shades[8..168]);
    }

    // Draws a line with these objects, by whole tile rows.
    fn draw_selected(&self, tiles: &mut TileMemory, selected: &[Object], row: &mut [u8; 160])
        requires line_in { self.now.ly < 144 }
        requires covered { AllPass (covers_line self.now) selected.now }
        ensures tiles { tiles.new ≡ tiles.old }
        ensures shades { (x : ℕ) → x < 160 →
            slice_index row.new x ≡ shade_at self.now tiles.old selected.now x }
    {
        if selected.is_empty() {
            return self.draw_background(tiles, row);
        }
        let background = self.background(tiles);
        let mut overlay = self.bare_overlay(&background);
        let mut index = selected.len();
        while index > 0 {
            index -= 1;
            self.put_object(tiles, selected, index, &background, &mut overlay);
        }
        row.copy_from_slice(&overlay.shades[8..168]);
    }

    /// Draws the line, by whole tile rows.
    pub fn draw(&self, tiles: &mut TileMemory, oam: &[u8], row: &mut [u8; 160])
        requires line_in { self.now.ly < 144 }
        requires oam { length oam.now ≡ 160 }
        ensures tiles { tiles.new ≡ tiles.old }
        ensures row { row.new ≡ drawn_row self.now tiles.old oam.now }
        ensures shades { All (λ shade. shade < 4) row.new }
    {
        let selected = self.selected_objects(oam);
        self.draw_selected(tiles, &selected, row);
    }

    /// Draws the line as `draw` does. The objects that were chosen for an earlier line are used again,
    /// unless others may cover this line.
    pub fn draw_with(
        &self,
        tiles: &mut TileMemory,
        oam: &[u8],
        chosen: &mut ChosenObjects,
        row: &mut [u8; 160],
    )
        requires line_in { self.now.ly < 144 }
        requires oam { length oam.now ≡ 160 }
        requires chosen { IsChoice chosen.old oam.now }
        ensures chosen { IsChoice chosen.new oam.now }
        ensures tiles { tiles.new ≡ tiles.old }
        ensures row { row.new ≡ drawn_row self.now tiles.old oam.now }
        ensures shades { All (λ shade. shade < 4) row.new }
    {
        if !has_bit(self.lcdc, OBJECT_ENABLE) {
            return self.draw_selected(tiles, &[], row);
        }
        self.choose(oam, chosen);
        self.draw_selected(tiles, &chosen.objects, row);
    }
}
