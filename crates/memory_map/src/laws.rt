//! Laws of the definitions. The functions do nothing: the contract of each is a law.

ghost use Rattle.memory_map.specs.Laws.{EachRowIsMapped};

/// Law: the place of an address is that of its row in the table of the memory map. The call does
/// nothing.
pub fn each_row_of_the_map_is_mapped()
    ensures { EachRowIsMapped }
{}

ghost use Rattle.memory_map.specs.CopyLaws.{OamHoldsTheSourcePage};

/// Law: 160 M-cycles after a write to FF46, OAM holds the 160 bytes of the source page as they were
/// at the write, if nothing else is written meanwhile. Until then OAM reads FF, and each M-cycle
/// copies one byte. The call does nothing.
pub fn oam_holds_the_source_page()
    ensures { OamHoldsTheSourcePage }
{}
