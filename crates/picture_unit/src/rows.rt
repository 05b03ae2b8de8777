//! The rows of shades, and the lines that are due to be drawn.

ghost use Rattle.std.specs.Prelude.{◌≡◌, ◌<◌, ◌≤◌, ◌+◌, ◌⊎◌, ℕ, List, All, Some, true, false, length, get_or, replicate, slice_get, slice_set, IfOk, IfSome};
ghost use Rattle.picture_lines.specs.Pixel.{drawn_row, covers_line};
ghost use Rattle.picture_lines.specs.Choice.{IsChoice};
ghost use Rattle.picture_lines.specs.declared.registers.LineRegisters.{LineRegisters as RegistersOfLine};
ghost use Rattle.picture_unit.specs.Picture.{blank_rows};
ghost use Rattle.picture_unit.specs.LateRows.{shown, with_late, rows_of, earlier_vram, AreLines, AreKept, AreRight};

use crate::state::PictureState;
use picture_lines::{ChosenObjects, LineRegisters, Object, TileMemory, object_at};
use std::alloc::{AllocError, Global};

// Whether a flag is set. All are read, many at once.
#[inline(always)]
fn has_set(flags: &[bool; 144]) -> bool
    ensures { result ≡ false → flags.now ≡ replicate 144 false }
{
    let mut is_set = false;
    for y in 0..144 {
        is_set = is_set | flags[y];
    }
    is_set
}

// The lines that are due to be drawn, with the registers that each is drawn by.
#[derive(Clone, Copy)]
pub(crate) struct LateLines {
    pub(crate) are_late: [bool; 144],
    pub(crate) drawn_by: [LineRegisters; 144],
    // Where this is not set, no line is late.
    pub(crate) has_some: bool,
}

impl LateLines {
    fn none() -> LateLines
        ensures lines { AreLines result }
        ensures none { result.are_late ≡ replicate 144 false }
    {
        let first = LineRegisters {
            lcdc: 0,
            scy: 0,
            scx: 0,
            bgp: 0,
            obp0: 0,
            obp1: 0,
            wx: 0,
            ly: 0,
            window_counter: 0,
            seen: false,
        };
        LateLines {
            are_late: [false; 144],
            drawn_by: [first; 144],
            has_some: false,
        }
    }

    // What a line is drawn by.
    fn line(&self, y: usize) -> LineRegisters
        requires y_in { y < 144 }
        requires lines { AreLines self.now }
        ensures line { (first : RegistersOfLine) → get_or self.now.drawn_by y first ≡ result }
        ensures visible { result.ly < 144 }
        ensures count { length self.now.drawn_by ≡ 144 }
    {
        self.drawn_by[y]
    }

    // Whether this line is late, and no other.
    #[inline(always)]
    fn is_only(&self, y: usize) -> bool
        requires { y < 144 }
        ensures late { result ≡ true → get_or self.now.are_late y false ≡ true }
        ensures alone { result ≡ true → slice_set self.now.are_late y false ≡ replicate 144 false }
    {
        let mut others = self.are_late;
        others[y] = false;
        self.are_late[y] && !has_set(&others)
    }

    // Draws the late lines, except those whose rows are kept by the same registers, and keeps the rows. Each is one from `first` up to
    // `end`.
    fn draw(
        &mut self,
        first: usize,
        end: usize,
        kept: &mut KeptRows,
        tiles: &mut TileMemory,
        oam: &[u8],
        rows: &mut [[u8; 160]],
    )
        requires lines { AreLines self.old }
        requires end_in { end ≤ 144 }
        requires before { (y : ℕ) → y < first → get_or self.old.are_late y false ≡ false }
        requires behind { (y : ℕ) → end ≤ y → y < 144 → get_or self.old.are_late y false ≡ false }
        requires oam { length oam.now ≡ 160 }
        requires row_count { length rows.old ≡ 144 }
        requires kept { AreKept kept.old rows.old tiles.old oam.now }
        ensures lines { AreLines self.new }
        ensures none { self.new.are_late ≡ replicate 144 false }
        ensures none_left { self.new.has_some ≡ false }
        ensures tiles { tiles.new ≡ tiles.old }
        ensures rows { rows.new ≡ shown self.old.are_late self.old.drawn_by tiles.old oam.now rows.old }
        ensures kept { AreKept kept.new rows.new tiles.old oam.now }
    {
        if !self.has_some {
            return;
        }
        let mut objects = ChosenObjects::none();
        kept.begin();
        for y in first..end {
            if self.are_late[y] {
                let by = self.drawn_by[y];
                kept.draw(y, &by, tiles, oam, &mut objects, rows);
                self.are_late[y] = false;
            }
        }
        self.has_some = false;
    }
}

// The rows that were drawn from VRAM as it is and from an OAM that `Rows` has, and not set since. A late line would draw its row as it
// is, where that was drawn by the same registers.
#[derive(Clone, Copy)]
pub(crate) struct KeptRows {
    pub(crate) are_marked: [bool; 144],
    pub(crate) drawn_by: [LineRegisters; 144],
    // Where this is not set, no row is kept, whatever is marked.
    pub(crate) has_some: bool,
}

impl KeptRows {
    fn none() -> KeptRows
        ensures { result.has_some ≡ false }
    {
        let lines = LateLines::none();
        let drawn_by = lines.drawn_by;
        KeptRows {
            are_marked: [false; 144],
            drawn_by,
            has_some: false,
        }
    }

    // From here on the marks count. Where none did, none is set.
    fn begin(&mut self)
        ensures some { self.new.has_some ≡ true }
        ensures kept { (rows : List (List ℕ)) → (vram oam : List ℕ) → AreKept self.old rows vram oam →
            AreKept self.new rows vram oam }
    {
        if self.has_some {
            return;
        }
        self.are_marked = [false; 144];
        self.has_some = true;
    }

    // Draws a row, unless it is kept by the same registers.
    #[inline(always)]
    fn draw(
        &mut self,
        y: usize,
        by: &LineRegisters,
        tiles: &mut TileMemory,
        oam: &[u8],
        objects: &mut ChosenObjects,
        rows: &mut [[u8; 160]],
    )
        requires y_in { y < 144 }
        requires line_in { by.now.ly < 144 }
        requires oam { length oam.now ≡ 160 }
        requires chosen { IsChoice objects.old oam.now }
        requires row_count { length rows.old ≡ 144 }
        requires some { self.old.has_some ≡ true }
        requires kept { AreKept self.old rows.old tiles.old oam.now }
        ensures tiles { tiles.new ≡ tiles.old }
        ensures chosen { IsChoice objects.new oam.now }
        ensures rows { rows.new ≡ slice_set rows.old y (drawn_row by.now tiles.old oam.now) }
        ensures some { self.new.has_some ≡ true }
        ensures kept { AreKept self.new rows.new tiles.old oam.now }
    {
        if self.is_drawn_by(y, by) {
            return;
        }
        by.draw_with(tiles, oam, objects, &mut rows[y]);
        // a late line is in its row: this has to be known where an object changes
        self.are_marked[y] = usize::from(by.ly) == y;
        self.drawn_by[y] = *by;
    }

    // Whether a row is marked and was drawn by these registers.
    #[inline(always)]
    fn is_drawn_by(&self, y: usize, by: &LineRegisters) -> bool
        requires { y < 144 }
        ensures marked { result ≡ true → get_or self.now.are_marked y false ≡ true }
        ensures same { result ≡ true → (first : RegistersOfLine) → get_or self.now.drawn_by y first ≡ by.now }
    {
        self.are_marked[y] && self.drawn_by[y] == *by
    }

    // Takes the marks from the rows on which an object is, before or after, that is not the same in both OAMs.
    #[inline(never)]
    fn follow(&mut self, before: &[u8], after: &[u8])
        requires before { length before.now ≡ 160 }
        requires after { length after.now ≡ 160 }
        ensures { (rows : List (List ℕ)) (vram : List ℕ) → AreKept self.old rows vram before.now →
            AreKept self.new rows vram after.now }
    {
        if !self.has_some {
            return;
        }
        for index in 0..40 {
            let was = object_at(before, index);
            let is = object_at(after, index);
            self.follow_object(&was, &is);
        }
    }

    // Takes the marks from the rows on which an object is, before or after, if it changed.
    #[inline(always)]
    fn follow_object(&mut self, before: &Object, after: &Object)
        ensures lines { self.new.drawn_by ≡ self.old.drawn_by }
        ensures some { self.new.has_some ≡ self.old.has_some }
        ensures fewer { (y : ℕ) → get_or self.new.are_marked y false ≡ true →
            get_or self.old.are_marked y false ≡ true }
        ensures beside { (y : ℕ) → y < 144 → get_or self.new.are_marked y false ≡ true →
            (by : RegistersOfLine) → (get_or self.old.drawn_by y by).ly ≡ y →
            (before.now ≡ after.now) ⊎
            ((covers_line (get_or self.old.drawn_by y by) before.now ≡ false) ×
            (covers_line (get_or self.old.drawn_by y by) after.now ≡ false)) }
    {
        if before == after {
            return;
        }
        self.unmark(before);
        self.unmark(after);
    }

    // Takes the marks from the rows on which an object is.
    fn unmark(&mut self, object: &Object)
        ensures lines { self.new.drawn_by ≡ self.old.drawn_by }
        ensures some { self.new.has_some ≡ self.old.has_some }
        ensures fewer { (y : ℕ) → get_or self.new.are_marked y false ≡ true →
            get_or self.old.are_marked y false ≡ true }
        ensures beside { (y : ℕ) → y < 144 → get_or self.new.are_marked y false ≡ true →
            (by : RegistersOfLine) → (get_or self.old.drawn_by y by).ly ≡ y →
            covers_line (get_or self.old.drawn_by y by) object.now ≡ false }
    {
        let bottom = usize::from(object.y);
        let top = bottom.saturating_sub(16);
        for y in top..bottom.min(144) {
            if y + 16 < bottom + self.drawn_by[y].object_height() {
                self.are_marked[y] = false;
            }
        }
    }
}

// 144 rows of shades. A line that is due is only noted. It is drawn when its row is read, or at the
// latest at the second change of VRAM or OAM after that: at the first one they are copied. A row that
// the next frame draws over before that is never drawn, nor one that is kept as it would be drawn.
#[derive(Drop)]
pub(crate) struct Rows {
    pub(crate) drawn: Vec<[u8; 160]>,
    // To be drawn by VRAM and OAM as they are.
    pub(crate) late: LateLines,
    // To be drawn by VRAM and OAM as they were. A late line is not among them.
    pub(crate) earlier: LateLines,
    // Whether VRAM is as the earlier lines are drawn by. Else they are drawn by the copy.
    pub(crate) has_same_vram: bool,
    pub(crate) earlier_tiles: TileMemory,
    pub(crate) earlier_oam: Vec<u8>,
    pub(crate) kept: KeptRows,
    // The OAM that the kept rows were drawn from.
    pub(crate) kept_oam: [u8; 160],
    // Where this is not set, it may be another one than OAM as it is.
    pub(crate) has_same_oam: bool,
}

impl Rows {
    // Rows of shades 0.
    pub(crate) fn new(alloc: Global) -> Result<Rows, AllocError>
        ensures right { IfOk result (λ r. (vram oam : List ℕ) → AreRight r vram oam) }
        ensures blank { IfOk result (λ r. (vram oam : List ℕ) → rows_of r vram oam ≡ blank_rows) }
    {
        let drawn = Vec::from_elem(alloc, [0u8; 160], 144)?;
        let earlier_tiles = TileMemory::new(alloc)?;
        let earlier_oam = Vec::from_elem(alloc, 0u8, 160)?;
        let late = LateLines::none();
        let earlier = LateLines::none();
        Ok(Rows {
            drawn,
            late,
            earlier,
            has_same_vram: false,
            earlier_tiles,
            earlier_oam,
            kept: KeptRows::none(),
            kept_oam: [0; 160],
            has_same_oam: false,
        })
    }

    // Notes a line that is due to be drawn.
    pub(crate) fn note(&mut self, registers: &LineRegisters)
        requires line_in { registers.now.ly < 144 }
        ensures right { (vram oam : List ℕ) → AreRight self.old vram oam → AreRight self.new vram oam }
        ensures rows { (vram oam : List ℕ) → rows_of self.new vram oam
            ≡ slice_set (rows_of self.old vram oam) registers.now.ly (drawn_row registers.now vram oam) }
    {
        let y = registers.ly as usize;
        self.late.are_late[y] = true;
        self.late.drawn_by[y] = *registers;
        self.late.has_some = true;
        self.earlier.are_late[y] = false;
    }

    // Has to be called before VRAM changes. The late lines are drawn by VRAM and OAM as they are: a line that alone is late at once, more of
    // them by copies. No row is kept, since a changed VRAM may draw it otherwise.
    #[inline(always)]
    pub(crate) fn set_late_aside(
        &mut self,
        tiles: &mut TileMemory,
        oam: &[u8],
        state: &PictureState,
    )
        requires oam { length oam.now ≡ 160 }
        requires right { AreRight self.old tiles.old oam.now }
        ensures tiles { tiles.new ≡ tiles.old }
        ensures right { (vram oam' : List ℕ) → AreRight self.new vram oam' }
        ensures rows { (vram oam' : List ℕ) → rows_of self.new vram oam' ≡ rows_of self.old tiles.old oam.now }
    {
        self.set_aside_for_objects(tiles, oam, state);
        self.copy_vram(tiles);
        self.kept.has_some = false;
    }

    // Has to be called before OAM changes, where VRAM does not. The rows stay kept that no changed object touches.
    #[inline(always)]
    pub(crate) fn set_aside_for_objects(
        &mut self,
        tiles: &mut TileMemory,
        oam: &[u8],
        state: &PictureState,
    )
        requires oam { length oam.now ≡ 160 }
        requires right { AreRight self.old tiles.old oam.now }
        ensures tiles { tiles.new ≡ tiles.old }
        ensures none { self.new.late.are_late ≡ replicate 144 false }
        ensures right { (oam' : List ℕ) → AreRight self.new tiles.new oam' }
        ensures rows { (oam' : List ℕ) → rows_of self.new tiles.new oam' ≡ rows_of self.old tiles.old oam.now }
    {
        if self.late.has_some {
            return self.set_some_aside(tiles, oam, state);
        }
        self.has_same_oam = false;
    }

    #[inline(never)]
    fn set_some_aside(&mut self, tiles: &mut TileMemory, oam: &[u8], state: &PictureState)
        requires oam { length oam.now ≡ 160 }
        requires right { AreRight self.old tiles.old oam.now }
        ensures tiles { tiles.new ≡ tiles.old }
        ensures none { self.new.late.are_late ≡ replicate 144 false }
        ensures right { (oam' : List ℕ) → AreRight self.new tiles.new oam' }
        ensures rows { (oam' : List ℕ) → rows_of self.new tiles.new oam' ≡ rows_of self.old tiles.old oam.now }
    {
        let line = state.line_before();
        if self.late.is_only(line) {
            self.draw_only(line, tiles, oam);
        } else {
            self.copy_oam(tiles, oam);
        }
    }

    // Draws the earlier lines, and the one late line over them.
    fn draw_only(&mut self, y: usize, tiles: &mut TileMemory, oam: &[u8])
        requires y_in { y < 144 }
        requires oam { length oam.now ≡ 160 }
        requires right { AreRight self.old tiles.old oam.now }
        requires late { get_or self.old.late.are_late y false ≡ true }
        requires alone { slice_set self.old.late.are_late y false ≡ replicate 144 false }
        ensures tiles { tiles.new ≡ tiles.old }
        ensures none { self.new.late.are_late ≡ replicate 144 false }
        ensures right { (oam' : List ℕ) → AreRight self.new tiles.new oam' }
        ensures rows { (oam' : List ℕ) → rows_of self.new tiles.new oam' ≡ rows_of self.old tiles.old oam.now }
    {
        self.draw_earlier(tiles);
        self.draw_late(y, y + 1, tiles, oam);
        self.has_same_oam = false;
    }

    // Draws the earlier lines, and makes the late lines the earlier ones, with a copy of OAM.
    fn copy_oam(&mut self, tiles: &mut TileMemory, oam: &[u8])
        requires oam { length oam.now ≡ 160 }
        requires right { AreRight self.old tiles.old oam.now }
        ensures tiles { tiles.new ≡ tiles.old }
        ensures none { self.new.late.are_late ≡ replicate 144 false }
        ensures right { (oam' : List ℕ) → AreRight self.new tiles.new oam' }
        ensures rows { (oam' : List ℕ) → rows_of self.new tiles.new oam' ≡ rows_of self.old tiles.old oam.now }
    {
        self.draw_earlier(tiles);
        self.earlier_oam.copy_from_slice(oam);
        self.has_same_vram = true;
        self.earlier = self.late;
        self.late.are_late = [false; 144];
        self.late.has_some = false;
        self.has_same_oam = false;
    }

    // Copies VRAM, if there are earlier lines that are to be drawn by it.
    #[inline(always)]
    fn copy_vram(&mut self, tiles: &TileMemory)
        requires lines { AreLines self.old.earlier }
        ensures late { self.new.late ≡ self.old.late }
        ensures lines { self.new.earlier ≡ self.old.earlier }
        ensures earlier_oam { self.new.earlier_oam ≡ self.old.earlier_oam }
        ensures drawn { self.new.drawn ≡ self.old.drawn }
        ensures kept_oam { self.new.kept_oam ≡ self.old.kept_oam }
        ensures same_oam { self.new.has_same_oam ≡ self.old.has_same_oam }
        ensures same_vram { self.new.has_same_vram ≡ false }
        ensures vram { (rows : List (List ℕ)) →
            with_late self.old.earlier self.new.earlier_tiles self.old.earlier_oam.items rows
            ≡ with_late self.old.earlier (earlier_vram self.old tiles.now) self.old.earlier_oam.items rows }
    {
        if !self.has_same_vram {
            return;
        }
        self.has_same_vram = false;
        if self.earlier.has_some {
            self.earlier_tiles.fill(tiles.bytes());
        }
    }

    // Draws the earlier lines.
    fn draw_earlier(&mut self, tiles: &mut TileMemory)
        requires earlier { AreLines self.old.earlier }
        requires oam { length self.old.earlier_oam.items ≡ 160 }
        requires row_count { length self.old.drawn.items ≡ 144 }
        requires kept { AreKept self.old.kept self.old.drawn.items tiles.old self.old.kept_oam }
        ensures tiles { tiles.new ≡ tiles.old }
        ensures late { self.new.late ≡ self.old.late }
        ensures earlier { AreLines self.new.earlier }
        ensures none { self.new.earlier.are_late ≡ replicate 144 false }
        ensures oam { length self.new.earlier_oam.items ≡ 160 }
        ensures row_count { length self.new.drawn.items ≡ 144 }
        ensures rows { self.new.drawn.items ≡
            with_late self.old.earlier (earlier_vram self.old tiles.old) self.old.earlier_oam.items
            self.old.drawn.items }
        ensures kept { AreKept self.new.kept self.new.drawn.items tiles.old self.new.kept_oam }
        ensures kept_oam { (oam : List ℕ) → (self.old.has_same_oam ≡ true → self.old.kept_oam ≡ oam) →
            self.new.has_same_oam ≡ true → self.new.kept_oam ≡ oam }
    {
        if !self.earlier.has_some {
            return;
        }
        if !has_set(&self.earlier.are_late) {
            self.earlier.has_some = false;
            return;
        }
        if self.has_same_vram {
            return self.draw_earlier_by_vram(tiles);
        }
        self.kept.has_some = false;
        self.earlier.draw(
            0,
            144,
            &mut self.kept,
            &mut self.earlier_tiles,
            &self.earlier_oam,
            &mut self.drawn,
        );
        self.kept.has_some = false;
    }

    // Draws the earlier lines by VRAM as it is, but for those whose rows are kept.
    fn draw_earlier_by_vram(&mut self, tiles: &mut TileMemory)
        requires earlier { AreLines self.old.earlier }
        requires oam { length self.old.earlier_oam.items ≡ 160 }
        requires row_count { length self.old.drawn.items ≡ 144 }
        requires kept { AreKept self.old.kept self.old.drawn.items tiles.old self.old.kept_oam }
        ensures tiles { tiles.new ≡ tiles.old }
        ensures late { self.new.late ≡ self.old.late }
        ensures earlier { AreLines self.new.earlier }
        ensures none { self.new.earlier.are_late ≡ replicate 144 false }
        ensures oam { length self.new.earlier_oam.items ≡ 160 }
        ensures row_count { length self.new.drawn.items ≡ 144 }
        ensures rows { self.new.drawn.items ≡
            with_late self.old.earlier tiles.old self.old.earlier_oam.items self.old.drawn.items }
        ensures kept { AreKept self.new.kept self.new.drawn.items tiles.old self.new.kept_oam }
        ensures kept_oam { self.new.has_same_oam ≡ false }
    {
        self.kept.follow(&self.kept_oam, &self.earlier_oam);
        self.kept_oam.copy_from_slice(&self.earlier_oam);
        self.has_same_oam = false;
        self.earlier.draw(
            0,
            144,
            &mut self.kept,
            tiles,
            &self.earlier_oam,
            &mut self.drawn,
        );
    }

    // Draws all lines that were noted, and keeps the rows of those that VRAM as it is draws.
    pub(crate) fn draw(&mut self, tiles: &mut TileMemory, oam: &[u8])
        requires oam { length oam.now ≡ 160 }
        requires right { AreRight self.old tiles.old oam.now }
        ensures right { AreRight self.new tiles.new oam.now }
        ensures tiles { tiles.new ≡ tiles.old }
        ensures rows { rows_of self.new tiles.old oam.now ≡ rows_of self.old tiles.old oam.now }
    {
        self.draw_earlier(tiles);
        if !self.late.has_some {
            return;
        }
        self.draw_late(0, 144, tiles, oam);
    }

    // Draws the late lines, where none is earlier. Each is one from `first` up to `end`.
    fn draw_late(&mut self, first: usize, end: usize, tiles: &mut TileMemory, oam: &[u8])
        requires oam { length oam.now ≡ 160 }
        requires right { AreRight self.old tiles.old oam.now }
        requires none { self.old.earlier.are_late ≡ replicate 144 false }
        requires end_in { end ≤ 144 }
        requires before { (y : ℕ) → y < first → get_or self.old.late.are_late y false ≡ false }
        requires behind { (y : ℕ) → end ≤ y → y < 144 → get_or self.old.late.are_late y false ≡ false }
        ensures tiles { tiles.new ≡ tiles.old }
        ensures none { self.new.late.are_late ≡ replicate 144 false }
        ensures right { AreRight self.new tiles.old oam.now }
        ensures rows { (oam' : List ℕ) → rows_of self.new tiles.old oam' ≡ rows_of self.old tiles.old oam.now }
    {
        self.keep_by(oam);
        self.late
            .draw(first, end, &mut self.kept, tiles, oam, &mut self.drawn);
    }

    // Keeps the rows by OAM as it is, but for those that a changed object touches.
    fn keep_by(&mut self, oam: &[u8])
        requires oam { length oam.now ≡ 160 }
        requires same { self.old.has_same_oam ≡ true → self.old.kept_oam ≡ oam.now }
        ensures late { self.new.late ≡ self.old.late }
        ensures earlier { self.new.earlier ≡ self.old.earlier }
        ensures earlier_oam { self.new.earlier_oam ≡ self.old.earlier_oam }
        ensures drawn { self.new.drawn ≡ self.old.drawn }
        ensures oam { self.new.kept_oam ≡ oam.now }
        ensures kept { (rows : List (List ℕ)) (vram : List ℕ) → AreKept self.old.kept rows vram self.old.kept_oam →
            AreKept self.new.kept rows vram oam.now }
    {
        if self.has_same_oam {
            return;
        }
        self.kept.follow(&self.kept_oam, oam);
        self.kept_oam.copy_from_slice(oam);
        self.has_same_oam = true;
    }

    // The shades of a row.
    pub(crate) fn row(&self, y: usize, tiles: &TileMemory, oam: &[u8]) -> [u8; 160]
        requires y_in { y < 144 }
        requires oam { length oam.now ≡ 160 }
        requires right { AreRight self.now tiles.now oam.now }
        ensures { slice_get (rows_of self.now tiles.now oam.now) y ≡ Some result }
    {
        let mut row = self.drawn[y];
        if self.late.are_late[y] {
            let by = self.late.drawn_by[y];
            by.draw_by_definition(tiles.bytes(), oam, &mut row);
        } else if self.earlier.are_late[y] {
            let by = self.earlier.line(y);
            by.draw_by_definition(self.earlier_vram(tiles), &self.earlier_oam, &mut row);
        }
        row
    }

    // VRAM as the earlier lines are drawn by it.
    fn earlier_vram<'a>(&'a self, tiles: &'a TileMemory) -> &'a [u8]
        ensures bytes { result.now ≡ earlier_vram self.now tiles.now }
        ensures whole { length result.now ≡ 8192 }
    {
        if self.has_same_vram {
            tiles.bytes()
        } else {
            self.earlier_tiles.bytes()
        }
    }

    // The rows, if no line is to be drawn on any.
    #[inline(always)]
    pub(crate) fn drawn_rows(&self) -> Option<&[[u8; 160]]>
        requires late { AreLines self.now.late }
        requires earlier { AreLines self.now.earlier }
        ensures { IfSome result (λ rows. (vram oam : List ℕ) → rows.now ≡ rows_of self.now vram oam) }
    {
        if self.late.has_some || self.earlier.has_some {
            return None;
        }
        Some(&self.drawn)
    }

    pub(crate) fn set(&mut self, y: usize, row: &[u8; 160])
        requires y_in { y < 144 }
        requires row_count { length self.old.drawn.items ≡ 144 }
        ensures right { (vram oam : List ℕ) → AreRight self.old vram oam → AreRight self.new vram oam }
        ensures rows { (vram oam : List ℕ) → rows_of self.new vram oam
            ≡ slice_set (rows_of self.old vram oam) y row.now }
    {
        self.late.are_late[y] = false;
        self.earlier.are_late[y] = false;
        self.kept.are_marked[y] = false;
        self.drawn[y] = *row;
    }

    // Sets all shades to 0.
    pub(crate) fn blank(&mut self)
        requires row_count { length self.old.drawn.items ≡ 144 }
        requires oam { length self.old.earlier_oam.items ≡ 160 }
        ensures right { (vram oam : List ℕ) → AreRight self.new vram oam }
        ensures rows { (vram oam : List ℕ) → rows_of self.new vram oam ≡ blank_rows }
    {
        self.late = LateLines::none();
        self.earlier = LateLines::none();
        self.kept = KeptRows::none();
        self.has_same_oam = false;
        blank(&mut self.drawn);
    }
}

// Sets all shades to 0.
fn blank(rows: &mut [[u8; 160]])
    ensures { rows.new ≡ replicate (length rows.old) (replicate 160 0) }
{
    for row in rows.iter_mut() {
        *row = [0; 160];
    }
}
