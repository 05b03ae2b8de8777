//! What the late picture unit holds: its state, VRAM, OAM and rows.

ghost use Rattle.std.specs.Prelude.{◌≡◌, ◌<◌, length, All, Some, slice_get, slice_set, IfSome};
ghost use Rattle.picture_unit.specs.Picture.{IsLegalPicture};
ghost use Rattle.picture_unit.specs.Stores.{region_of, region_length, region_filled};

use super::LatePicture;
use crate::region::PictureRegion;
use crate::state::PictureState;

impl LatePicture {
    /// What a snapshot holds of the registers and counters.
    pub fn state(&self) -> PictureState
        ensures state { result ≡ self.now.state }
        ensures legal { IsLegalPicture result }
        ensures rows { length self.now.rows ≡ 144 }
    {
        let late = self.frame_cycle() - self.picture.frame_cycle();
        self.picture.state().after(late)
    }

    /// Sets the registers and counters. Condition: they are legal.
    pub fn restore(&mut self, state: &PictureState)
        requires { IsLegalPicture state.now }
        ensures { self.new ≡ record self.old { state = state.now } }
    {
        self.picture.pass_to(self.frame_cycle);
        self.picture.restore(state);
        self.frame_cycle = self.picture.frame_cycle();
        self.quiet_until = 0;
    }

    /// The bytes of VRAM or OAM.
    #[tactic(auto, unfolding(crate::specs::Stores::region_of))]
    pub fn region(&self, region: PictureRegion) -> &[u8]
        ensures bytes { result.now ≡ region_of self.now region }
        ensures whole { length result.now ≡ region_length region }
    {
        self.picture.region(region)
    }

    /// Sets all bytes of VRAM or OAM. Condition: there are as many as the region has.
    pub fn fill(&mut self, region: PictureRegion, bytes: &[u8])
        requires { length bytes.now ≡ region_length region }
        ensures { self.new ≡ region_filled self.old region bytes.now }
    {
        self.picture.pass_to(self.frame_cycle);
        self.picture.fill(region, bytes);
        self.frame_cycle = self.picture.frame_cycle();
        self.quiet_until = 0;
    }

    /// The 160 shades of a row, 0 to 3, the leftmost first. Condition: the row is below 144.
    ///
    /// Each call draws a row that is not drawn yet pixel by pixel, and goes through the M-cycles that the
    /// picture unit is late. To read many rows, call `draw_late` first.
    pub fn row(&self, y: usize) -> [u8; 160]
        requires { y < 144 }
        ensures row { slice_get self.now.rows y ≡ Some result }
        ensures shades { All (λ shade. shade < 4) result }
    {
        let late = self.frame_cycle() - self.picture.frame_cycle();
        self.picture.row_after(late, y)
    }

    /// The rows, if they can be read as they were drawn last, as they can after `draw_late`.
    pub(crate) fn drawn_rows(&self) -> Option<&[[u8; 160]]>
        ensures rows { IfSome result (λ rows. rows.now ≡ self.now.rows) }
        ensures shades { IfSome result (λ rows. All (λ row. All (λ shade. shade < 4) row) rows.now) }
    {
        if self.frame_cycle() != self.picture.frame_cycle() {
            return None;
        }
        self.picture.drawn_rows()
    }

    /// How many rows the picture has: 144.
    pub(crate) fn row_count(&self) -> usize
        ensures count { result ≡ length self.now.rows }
        ensures all { result ≡ 144 }
    {
        self.picture.row_count()
    }

    /// Gives the picture unit the M-cycles that it is late. No value changes, but reads are then quick,
    /// except those of rows.
    pub fn catch_up(&mut self)
        ensures { self.new ≡ self.old }
    {
        self.picture.pass_to(self.frame_cycle);
        self.frame_cycle = self.picture.frame_cycle();
        self.quiet_until = self.frame_cycle + self.picture.quiet();
    }

    /// Catches up, and draws the lines that were only noted when they were due. No value changes:
    /// the rows are then read and written quickly.
    pub fn draw_late(&mut self)
        ensures { self.new ≡ self.old }
    {
        self.picture.pass_to(self.frame_cycle);
        self.picture.draw_late();
        self.frame_cycle = self.picture.frame_cycle();
        self.quiet_until = self.frame_cycle + self.picture.quiet();
    }

    /// Sets the shades of a row. Condition: the row is below 144, and each shade is at most 3.
    pub fn set_row(&mut self, y: usize, row: &[u8; 160])
        requires y_in { y < 144 }
        requires shades { All (λ shade. shade < 4) row.now }
        ensures { self.new ≡ record self.old { rows = slice_set self.old.rows y row.now } }
    {
        self.picture.pass_to(self.frame_cycle);
        self.picture.set_row(y, row);
        self.frame_cycle = self.picture.frame_cycle();
        self.quiet_until = 0;
    }
}
