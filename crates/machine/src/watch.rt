//! What a run of fast steps looks for.

ghost use Rattle.std.specs.Prelude.{◌≡◌, false};
ghost use Rattle.memory_map.specs.State.{BusState};
ghost use Rattle.memory_map.specs.BusRules.{bus_rules};
ghost use Rattle.sm83_processor.specs.FastStep.{IsFast};
ghost use Rattle.sm83_processor.specs.declared.processor.Processor.{Processor};

use memory_map::Bus;
use sm83_processor::Processor;

/// A watch, at which a run of fast steps ends.
pub trait Watch {
    /// What is known of a processor whose next step the watch lets pass.
    ghost passes: { Self → Processor BusState → Type 0 };

    /// Whether a run may have to end before the next step. It is asked before each step but the first,
    /// so it has to be quick, and may be wrong where it says yes. Condition: that step is fast.
    fn may_end(&self, processor: &Processor<Bus>) -> bool
        requires { IsFast bus_rules processor.now }
        ensures { result ≡ false → passes self.now processor.now };
}
