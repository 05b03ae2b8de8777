//! A line pixel by pixel, as it is defined: what a line by whole tile rows is compared with.

ghost use Rattle.std.specs.Prelude.{◌≡◌, ℕ, ◌+◌, ◌*◌, ◌-◌, ◌/◌, ◌%◌, ◌<◌, ◌≤◌, length, IsTrue, filter, drop, IfSome, true};
ghost use Rattle.std.specs.List.{AllPass};
ghost use Rattle.picture_lines.specs.Pixel.{row_colour as row_colour_of, tile_of, map_start as start_of, map_row as map_row_of, map_colour as map_colour_of, is_window_drawn as is_drawn, background_colour as background_colour_of, background_shade as background_shade_of, object_height as height_of, covers_line as covers, object_row as object_row_of, object_colour as object_colour_of, object_shade as object_shade_of, shade_over as shade_over_of, object_palette as palette_of, object_at as entry_at, objects_of, selected_objects, shade_at, winner as winner_among, is_seen, drawn_row};
ghost use Rattle.picture_lines.specs.WinnerLaw.{WinnerIsLeast, SomeObjectWins};

use crate::bits::{colour, has_bit, shade};
use crate::object_entry::{Object, PALETTE, PRIORITY, X_FLIP, Y_FLIP};
use crate::registers::{
    BACKGROUND_ENABLE, BACKGROUND_MAP, LineRegisters, OBJECT_ENABLE, OBJECT_SIZE, TILE_DATA,
    WINDOW_ENABLE, WINDOW_MAP,
};
use arrayvec::ArrayVec;

#[tactic(auto, unfolding(crate::specs::Pixel::row_colour))]
fn row_colour(vram: &[u8], row: usize, column: u8) -> u8
    requires row_in { 2 * row + 1 < length vram.now }
    requires column_in { column < 8 }
    ensures value { result ≡ row_colour_of vram.now row column }
    ensures small { result < 4 }
{
    colour(vram[2 * row], vram[2 * row + 1], column)
}

#[tactic(auto, unfolding(crate::specs::Pixel::tile_of))]
fn tile_number(lcdc: u8, number: u8) -> usize
    ensures value { result ≡ tile_of lcdc number }
    ensures small { result < 384 }
{
    if has_bit(lcdc, TILE_DATA) || number >= 128 {
        number as usize
    } else {
        number as usize + 256
    }
}

#[tactic(auto, unfolding(crate::specs::Pixel::map_start))]
pub(crate) fn map_start(lcdc: u8, place: u32) -> usize
    requires { place < 8 }
    ensures value { result ≡ start_of lcdc place }
    ensures small { result ≤ 7168 }
{
    if has_bit(lcdc, place) { 7168 } else { 6144 }
}

#[tactic(auto, unfolding(crate::specs::Pixel::map_row))]
fn map_row(lcdc: u8, vram: &[u8], start: usize, column: u8, row: u8) -> usize
    requires start_in { start ≤ 7168 }
    requires vram { length vram.now ≡ 8192 }
    ensures value { result ≡ map_row_of lcdc vram.now start column row }
    ensures small { result < 3072 }
{
    let at = start + 32 * (row as usize / 8) + column as usize / 8;
    8 * tile_number(lcdc, vram[at]) + row as usize % 8
}

#[tactic(auto, unfolding(crate::specs::Pixel::map_colour))]
fn map_colour(lcdc: u8, vram: &[u8], start: usize, column: u8, row: u8) -> u8
    requires start_in { start ≤ 7168 }
    requires vram { length vram.now ≡ 8192 }
    ensures value { result ≡ map_colour_of lcdc vram.now start column row }
    ensures small { result < 4 }
{
    row_colour(vram, map_row(lcdc, vram, start, column, row), column % 8)
}

/// The shade of an object over the background's colour and shade.
#[tactic(auto, unfolding(crate::specs::Pixel::shade_over))]
pub(crate) fn shade_over(object: &Object, shade: u8, under: u8, under_shade: u8) -> u8
    ensures value { result ≡ shade_over_of object.now shade under under_shade }
    ensures small { shade < 4 → under_shade < 4 → result < 4 }
{
    if has_bit(object.attributes, PRIORITY) && under != 0 {
        under_shade
    } else {
        shade
    }
}

impl LineRegisters {
    /// Whether the window is drawn on the line, at any column.
    #[tactic(auto, unfolding(crate::specs::Pixel::is_window_drawn))]
    pub fn is_window_drawn(&self) -> bool
        ensures { result ≡ is_drawn self.now }
    {
        has_bit(self.lcdc, WINDOW_ENABLE)
            && has_bit(self.lcdc, BACKGROUND_ENABLE)
            && self.seen
            && self.wx <= 166
    }

    #[tactic(auto, unfolding(crate::specs::Pixel::background_colour))]
    fn background_colour(&self, vram: &[u8], column: u8) -> u8
        requires column_in { column < 160 }
        requires vram { length vram.now ≡ 8192 }
        ensures value { result ≡ background_colour_of self.now vram.now column }
        ensures small { result < 4 }
    {
        if !has_bit(self.lcdc, BACKGROUND_ENABLE) {
            0
        } else if self.is_window_drawn() && self.wx <= column + 7 {
            let start = map_start(self.lcdc, WINDOW_MAP);
            map_colour(
                self.lcdc,
                vram,
                start,
                column + 7 - self.wx,
                self.window_counter,
            )
        } else {
            let start = map_start(self.lcdc, BACKGROUND_MAP);
            map_colour(
                self.lcdc,
                vram,
                start,
                self.scx.wrapping_add(column),
                self.scy.wrapping_add(self.ly),
            )
        }
    }

    #[tactic(auto, unfolding(crate::specs::Pixel::background_shade))]
    fn background_shade(&self, vram: &[u8], column: u8) -> u8
        requires column_in { column < 160 }
        requires vram { length vram.now ≡ 8192 }
        ensures value { result ≡ background_shade_of self.now vram.now column }
        ensures small { result < 4 }
    {
        if has_bit(self.lcdc, BACKGROUND_ENABLE) {
            shade(self.bgp, self.background_colour(vram, column))
        } else {
            0
        }
    }

    /// How many lines an object has: 8, or 16 by bit 2 of LCDC.
    #[tactic(auto, unfolding(crate::specs::Pixel::object_height))]
    pub fn object_height(&self) -> usize
        ensures { result ≡ height_of self.now }
    {
        if has_bit(self.lcdc, OBJECT_SIZE) {
            16
        } else {
            8
        }
    }

    #[tactic(auto, unfolding(crate::specs::Pixel::covers_line, crate::specs::Pixel::object_height))]
    pub(crate) fn covers_line(&self, object: &Object) -> bool
        requires { self.now.ly < 144 }
        ensures { result ≡ covers self.now object.now }
    {
        let line = self.ly as usize + 16;
        let top = object.y as usize;
        top <= line && line < top + self.object_height()
    }

    #[tactic(auto, unfolding(crate::specs::Pixel::covers_line, crate::specs::Pixel::object_height, crate::specs::Pixel::object_row))]
    pub(crate) fn object_row(&self, object: &Object) -> usize
        requires line_in { self.now.ly < 144 }
        requires covered { IsTrue (covers self.now object.now) }
        ensures value { result ≡ object_row_of self.now object.now }
        ensures small { result < 2048 }
    {
        let row = self.ly as usize + 16 - object.y as usize;
        let is_tall = has_bit(self.lcdc, OBJECT_SIZE);
        let tile = if is_tall {
            2 * (object.tile as usize / 2)
        } else {
            object.tile as usize
        };
        let is_flipped = has_bit(object.attributes, Y_FLIP);
        8 * tile
            + if is_flipped {
                self.object_height() - 1 - row
            } else {
                row
            }
    }

    #[tactic(auto, unfolding(crate::specs::Pixel::object_colour))]
    fn object_colour(&self, vram: &[u8], column: u8, object: &Object) -> u8
        requires line_in { self.now.ly < 144 }
        requires column_in { column < 160 }
        requires vram { length vram.now ≡ 8192 }
        requires covered { IsTrue (covers self.now object.now) }
        ensures value { result ≡ object_colour_of self.now vram.now column object.now }
        ensures small { result < 4 }
    {
        let right = column + 8;
        if object.x <= right && right - object.x < 8 {
            let across = right - object.x;
            let is_flipped = has_bit(object.attributes, X_FLIP);
            row_colour(
                vram,
                self.object_row(object),
                if is_flipped { 7 - across } else { across },
            )
        } else {
            0
        }
    }

    #[tactic(auto, unfolding(crate::specs::Pixel::object_palette))]
    pub(crate) fn object_palette(&self, object: &Object) -> u8
        ensures { result ≡ palette_of self.now object.now }
    {
        if has_bit(object.attributes, PALETTE) {
            self.obp1
        } else {
            self.obp0
        }
    }

    #[tactic(auto, unfolding(crate::specs::Pixel::object_shade))]
    fn object_shade(&self, vram: &[u8], column: u8, object: &Object) -> u8
        requires line_in { self.now.ly < 144 }
        requires column_in { column < 160 }
        requires vram { length vram.now ≡ 8192 }
        requires covered { IsTrue (covers self.now object.now) }
        ensures value { result ≡ object_shade_of self.now vram.now column object.now }
        ensures small { result < 4 }
    {
        let colour = self.object_colour(vram, column, object);
        let under = self.background_colour(vram, column);
        let under_shade = self.background_shade(vram, column);
        let shade = shade(self.object_palette(object), colour);
        shade_over(object, shade, under, under_shade)
    }

    // The object in front at a column.
    #[tactic(auto, unfolding(crate::specs::Pixel::is_seen, crate::specs::Pixel::in_front, crate::specs::Pixel::winner))]
    fn winner(&self, vram: &[u8], selected: &[Object], column: u8) -> Option<Object>
        requires line_in { self.now.ly < 144 }
        requires column_in { column < 160 }
        requires vram { length vram.now ≡ 8192 }
        requires covered { AllPass (covers self.now) selected.now }
        ensures value { result
            ≡ winner_among (filter (is_seen self.now vram.now column) selected.now) }
        ensures covered { IfSome result (λ o. covers self.now o ≡ true) }
    {
        let mut front: Option<Object> = None;
        let mut index = selected.len();
        while index > 0 {
            index -= 1;
            let object = selected[index];
            if self.object_colour(vram, column, &object) != 0 {
                front = match front {
                    Some(other) if other.x < object.x => Some(other),
                    _ => Some(object),
                };
            }
        }
        front
    }

    #[tactic(auto, unfolding(crate::specs::Pixel::shade_at, crate::specs::Pixel::shade_under))]
    fn shade(&self, vram: &[u8], selected: &[Object], column: u8) -> u8
        requires line_in { self.now.ly < 144 }
        requires column_in { column < 160 }
        requires vram { length vram.now ≡ 8192 }
        requires covered { AllPass (covers self.now) selected.now }
        ensures value { result ≡ shade_at self.now vram.now selected.now column }
        ensures small { result < 4 }
    {
        match self.winner(vram, selected, column) {
            Some(object) => self.object_shade(vram, column, &object),
            None => self.background_shade(vram, column),
        }
    }
}

/// An object of OAM, by its place there. Condition: OAM has that many.
#[tactic(auto, unfolding(crate::specs::Pixel::object_at))]
pub fn object_at(oam: &[u8], index: usize) -> Object
    requires { 4 * index + 3 < length oam.now }
    ensures { result ≡ entry_at oam.now index }
{
    Object {
        y: oam[4 * index],
        x: oam[4 * index + 1],
        tile: oam[4 * index + 2],
        attributes: oam[4 * index + 3],
    }
}

impl LineRegisters {
    /// The objects of the line, in OAM order.
    #[tactic(auto, using(crate::proofs::Objects::selected_objects_when_off))]
    pub(crate) fn selected_objects(&self, oam: &[u8]) -> ArrayVec<Object, 10>
        requires line_in { self.now.ly < 144 }
        requires oam { length oam.now ≡ 160 }
        ensures value { result.items ≡ selected_objects self.now (objects_of oam.now) }
        ensures covered { AllPass (covers self.now) result.items }
    {
        let mut selected = ArrayVec::new();
        if has_bit(self.lcdc, OBJECT_ENABLE) {
            for index in 0..40 {
                let object = object_at(oam, index);
                if self.covers_line(&object) && !selected.is_full() {
                    selected.push(object);
                }
            }
        }
        selected
    }

    /// Draws the line pixel by pixel, as a pixel is defined: what `draw` is compared with.
    #[tactic(auto, using(crate::proofs::Rows::drawn_row_from_columns), unfolding(crate::specs::Pixel::pixel))]
    pub fn draw_by_definition(&self, vram: &[u8], oam: &[u8], row: &mut [u8; 160])
        requires line_in { self.now.ly < 144 }
        requires vram { length vram.now ≡ 8192 }
        requires oam { length oam.now ≡ 160 }
        ensures { row.new ≡ drawn_row self.now vram.now oam.now }
    {
        let selected = self.selected_objects(oam);
        for column in 0..160 {
            row[column as usize] = self.shade(vram, &selected, column);
        }
    }
}

/// Law: of some objects in OAM order, the one that wins has the smallest X, and of those with that
/// X it is the first. Only of no objects none wins.
pub fn winner_is_least()
    ensures least { WinnerIsLeast }
    ensures some { SomeObjectWins }
{}
