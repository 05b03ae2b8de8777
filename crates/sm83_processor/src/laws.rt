//! A law of the definitions. The function does nothing: its contract is the law.

ghost use Rattle.sm83_processor.specs.Steps.{DispatchesLowest};

/// Of the interrupts that IE and IF share, the lowest is dispatched.
pub fn dispatch_takes_the_lowest_bit()
    ensures { DispatchesLowest }
{}
