//! A bus in which no M-cycle passes: what the accesses of a step leave.

ghost use Rattle.std.specs.Prelude.{◌≡◌};

use memory_map::Bus;
use sm83_processor::Memory;
use std::marker::Model;

/// A bus whose M-cycles are given to it later.
#[derive(Drop)]
pub(crate) struct UntimedBus {
    bus: Bus,
}

impl Model for UntimedBus {
    ghost use Rattle.memory_map.specs.State.{BusState};

    ghost Value = { BusState };

    ghost view = { λ u. u.bus };
}

impl UntimedBus {
    /// The same bus, whose M-cycles no longer pass.
    pub(crate) fn of(bus: Bus) -> UntimedBus
        ensures { result ≡ bus }
    {
        UntimedBus { bus }
    }

    /// The same bus, whose M-cycles pass again.
    pub(crate) fn into_bus(self) -> Bus
        ensures { result ≡ self }
    {
        let UntimedBus { bus } = self;
        bus
    }
}

impl Memory for UntimedBus {
    ghost use Rattle.memory_map.specs.BusRules.{bus_rules};
    ghost use Rattle.machine.specs.Sent.{untimed};

    ghost rules = { untimed bus_rules };

    fn read(&self, address: u16) -> u8 {
        self.bus.read(address)
    }

    fn write(&mut self, address: u16, value: u8) {
        self.bus.write(address, value);
    }

    fn pending_interrupts(&self) -> u8 {
        self.bus.pending_interrupts()
    }

    fn acknowledge(&mut self, bit: u8) {
        self.bus.acknowledge(bit);
    }

    fn pass(&mut self, _cycles: u8) {}
}
