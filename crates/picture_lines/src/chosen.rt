//! The objects of a line, chosen once for all lines on which they are the same.

ghost use Rattle.std.specs.Prelude.{◌≡◌, ℕ, ◌+◌, ◌<◌, ◌≤◌, length, take, filter, List};
ghost use Rattle.std.specs.List.{AllPass};
ghost use Rattle.picture_lines.specs.Bits.{has_bit as is_bit_set};
ghost use Rattle.picture_lines.specs.Pixel.{covers_line as covers, objects_of};
ghost use Rattle.picture_lines.specs.Choice.{IsChoice};

use crate::bits::has_bit;
use crate::by_definition::object_at;
use crate::object_entry::Object;
use crate::registers::{LineRegisters, OBJECT_SIZE};
use arrayvec::ArrayVec;

/// The objects that were chosen for a line, with the lines on which the same ones are chosen as long
/// as OAM stays as it is. Lines are counted as Y of an object is, from 16 on.
#[derive(Drop)]
pub struct ChosenObjects {
    /// The first ten that cover the line, in OAM order.
    pub objects: ArrayVec<Object, 10>,
    /// The line that they were chosen for.
    pub first: usize,
    /// The line after the last one that they are right for.
    pub end: usize,
    /// Whether they are 8x16.
    pub is_tall: bool,
}

impl ChosenObjects {
    /// None, which are right for no line.
    pub fn none() -> ChosenObjects
        ensures { (oam : List ℕ) → IsChoice result oam }
    {
        ChosenObjects {
            objects: ArrayVec::new(),
            first: 0,
            end: 0,
            is_tall: false,
        }
    }

    /// Forgets them: from now on they are right for no line.
    pub fn forget(&mut self)
        ensures { (oam : List ℕ) → IsChoice self.new oam }
    {
        self.end = 0;
    }
}

impl LineRegisters {
    // The first line after this one on which it may change whether the object covers the line.
    fn same_cover_until(&self, object: &Object) -> usize
        requires { self.now.ly < 144 }
        ensures later { self.now.ly + 16 < result }
        ensures same { (s : LineRegisters) → self.now.ly ≤ s.ly → s.ly + 16 < result →
            is_bit_set s.lcdc 2 ≡ is_bit_set self.now.lcdc 2 → covers s object.now ≡ covers self.now object.now }
    {
        let line = self.ly as usize + 16;
        let top = object.y as usize;
        if line < top {
            return top;
        }
        let bottom = top + self.object_height();
        if line < bottom { bottom } else { 512 }
    }

    // Chooses the objects of the line from all 40.
    fn choice(&self, oam: &[u8]) -> ChosenObjects
        requires line_in { self.now.ly < 144 }
        requires oam { length oam.now ≡ 160 }
        ensures right { IsChoice result oam.now }
        ensures objects { result.objects.items ≡ take 10 (filter (covers self.now) (objects_of oam.now)) }
    {
        let mut objects = ArrayVec::new();
        let mut end = 512;
        for index in 0..40 {
            let object = object_at(oam, index);
            end = self.same_cover_until(&object).min(end);
            if self.covers_line(&object) && !objects.is_full() {
                objects.push(object);
            }
        }
        ChosenObjects {
            objects,
            first: self.ly as usize + 16,
            end,
            is_tall: has_bit(self.lcdc, OBJECT_SIZE),
        }
    }

    // Chooses the objects of the line, unless those that were chosen before are still the right ones.
    pub(crate) fn choose(&self, oam: &[u8], chosen: &mut ChosenObjects)
        requires line_in { self.now.ly < 144 }
        requires oam { length oam.now ≡ 160 }
        requires chosen { IsChoice chosen.old oam.now }
        ensures right { IsChoice chosen.new oam.now }
        ensures objects { chosen.new.objects.items ≡ take 10 (filter (covers self.now) (objects_of oam.now)) }
    {
        let line = self.ly as usize + 16;
        let is_tall = has_bit(self.lcdc, OBJECT_SIZE);
        if chosen.first <= line && line < chosen.end && chosen.is_tall == is_tall {
            return;
        }
        *chosen = self.choice(oam);
    }
}
