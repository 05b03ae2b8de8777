//! Laws of the definitions. The functions do nothing: the contract of each is a law.

ghost use Rattle.picture_unit.specs.Laws.{PictureRequestsAreAdded, DrawnLineHoldsItsPixels, FrameHas17556Cycles};

/// Law: what n M-cycles do does not depend on the requests that were pending; new requests are
/// added to these.
pub fn picture_requests_are_added()
    ensures { PictureRequestsAreAdded }
{}

/// Law: a line that is drawn holds the shade of its pixel in each of its 160 columns, and the other
/// rows stay as they were.
pub fn drawn_line_holds_its_pixels()
    ensures { DrawnLineHoldsItsPixels }
{}

/// Law: a frame has 154 lines of 114 M-cycles, together 17,556, and in n M-cycles a picture unit
/// that is on moves n M-cycles further.
pub fn frame_has_17556_cycles()
    ensures { FrameHas17556Cycles }
{}

ghost use Rattle.picture_unit.specs.SignalLaws.{StatIsRequestedAtRises};
ghost use Rattle.picture_unit.specs.WindowLaws.{WindowCounterCountsLines};

/// Law: in an M-cycle and at a write of a register the STAT interrupt is requested exactly if the
/// STAT signal rises: once for each rise.
pub fn stat_is_requested_at_rises()
    ensures { StatIsRequestedAtRises }
{}

/// Law: the window counter is 0 when a frame begins, and from then on it is the number of lines of
/// this frame on which the window was drawn, modulo 256, whatever is written meanwhile.
pub fn window_counter_counts_lines()
    ensures { WindowCounterCountsLines }
{}
