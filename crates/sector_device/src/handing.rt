//! A device whose calls somebody else makes, as the layers above see it.
ghost use Rattle.std.specs.Prelude.{Option};
ghost use Rattle.sector_device.specs.DiskState.{HasHanded};

use crate::device::SectorDevice;

/// A device that notes the calls it is asked for, and hands them out for somebody else to make.
pub trait HandingDevice: SectorDevice {
    /// A call that somebody else has to make.
    type Call;

    /// What it handed out, if anything, leads from here to there.
    ghost hands: { Self → Option Self.Call → Self → Type 0 };

    /// Hands out the next call, if there is one. To the layers above nothing changes.
    fn next_call(&mut self) -> Option<Self::Call>
        ensures disk { HasHanded (Self.disk self.old) (Self.disk self.new) }
        ensures hands { hands self.old result self.new };
}
