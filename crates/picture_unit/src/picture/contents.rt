//! What the picture unit holds: its state, VRAM, OAM and rows.

ghost use Rattle.std.specs.Prelude.{◌≡◌, ◌<◌, length, All, Some, slice_get, slice_set, IfSome};
ghost use Rattle.picture_unit.specs.Picture.{IsLegalPicture, ticks};
ghost use Rattle.picture_unit.specs.Stores.{region_of, region_length, region_filled};

use super::Picture;
use crate::region::PictureRegion;
use crate::state::PictureState;

impl Picture {
    /// What a snapshot holds of the registers and counters.
    pub(crate) fn state(&self) -> PictureState
        ensures state { result ≡ self.now.state }
        ensures legal { IsLegalPicture result }
        ensures rows { length self.now.rows ≡ 144 }
    {
        self.state
    }

    /// Sets the registers and counters. Condition: they are legal.
    pub(crate) fn restore(&mut self, state: &PictureState)
        requires { IsLegalPicture state.now }
        ensures { self.new ≡ record self.old { state = state.now } }
    {
        self.state = *state;
        self.tiles.mark_stale();
    }

    /// The bytes of VRAM or OAM.
    #[tactic(auto, unfolding(crate::specs::Stores::region_of, crate::specs::Stores::region_length))]
    pub(crate) fn region(&self, region: PictureRegion) -> &[u8]
        ensures bytes { result.now ≡ region_of self.now region }
        ensures whole { length result.now ≡ region_length region }
    {
        match region {
            PictureRegion::Vram => self.tiles.bytes(),
            PictureRegion::Oam => &self.oam,
        }
    }

    /// Sets all bytes of VRAM or OAM. Condition: there are as many as the region has.
    #[tactic(auto, unfolding(crate::specs::Stores::region_filled, crate::specs::Stores::region_length))]
    pub(crate) fn fill(&mut self, region: PictureRegion, bytes: &[u8])
        requires { length bytes.now ≡ region_length region }
        ensures { self.new ≡ region_filled self.old region bytes.now }
    {
        self.rows
            .set_late_aside(&mut self.tiles, &self.oam, &self.state);
        match region {
            PictureRegion::Vram => self.tiles.fill(bytes),
            PictureRegion::Oam => self.oam.copy_from_slice(bytes),
        }
    }

    /// How many rows the picture has: 144.
    pub(crate) fn row_count(&self) -> usize
        ensures count { result ≡ length self.now.rows }
        ensures all { result ≡ 144 }
    {
        self.rows.drawn.len()
    }

    /// The 160 shades of a row, 0 to 3, the leftmost first. Condition: the row is below 144.
    pub(crate) fn row(&self, y: usize) -> [u8; 160]
        requires { y < 144 }
        ensures row { slice_get self.now.rows y ≡ Some result }
        ensures shades { All (λ shade. shade < 4) result }
    {
        self.rows.row(y, &self.tiles, &self.oam)
    }

    /// The rows, if no line is to be drawn on any.
    #[inline(always)]
    pub(crate) fn drawn_rows(&self) -> Option<&[[u8; 160]]>
        ensures { IfSome result (λ rows. rows.now ≡ self.now.rows) }
    {
        self.rows.drawn_rows()
    }

    /// The shades of a row after this many M-cycles. If its line is drawn in them, it is drawn pixel
    /// by pixel. Condition: the row is below 144.
    pub(crate) fn row_after(&self, cycles: u16, y: usize) -> [u8; 160]
        requires { y < 144 }
        ensures row { slice_get (ticks cycles self.now).picture.rows y ≡ Some result }
        ensures shades { All (λ shade. shade < 4) result }
    {
        let mut row = self.row(y);
        let mut state = self.state();
        let vram = self.region(PictureRegion::Vram);
        let oam = self.region(PictureRegion::Oam);
        for _cycle in 0..cycles {
            if let Some(by) = state.tick() {
                if usize::from(by.ly) == y {
                    by.draw_by_definition(vram, oam, &mut row);
                }
            }
        }
        row
    }

    /// Draws the lines that were only noted when they were due. No value changes: the rows are then
    /// read and written quickly.
    pub(crate) fn draw_late(&mut self)
        ensures { self.new ≡ self.old }
    {
        self.rows.draw(&mut self.tiles, &self.oam);
    }

    /// Sets the shades of a row. Condition: the row is below 144, and each shade is at most 3.
    pub(crate) fn set_row(&mut self, y: usize, row: &[u8; 160])
        requires y_in { y < 144 }
        requires shades { All (λ shade. shade < 4) row.now }
        ensures { self.new ≡ record self.old { rows = slice_set self.old.rows y row.now } }
    {
        self.rows.set(y, row);
    }
}
