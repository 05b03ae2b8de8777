//! The serial port.

ghost use Rattle.std.specs.Prelude.{◌≡◌, ◌+◌};

use crate::requests::Requests;
use std::marker::Model;

/// What a snapshot holds of the serial port. It is legal if SC has no bits but 7 and 0, and at most 1,024 M-cycles are
/// left.
#[derive(Clone, Copy, PartialEq, Eq)]
pub struct SerialState {
    pub sb: u8,
    /// Bits 7 and 0 of SC.
    pub sc: u8,
    /// The M-cycles left of a transfer, 0 where none runs.
    pub cycles_left: u16,
}

/// The serial port: registers SB and SC (FF01 and FF02), as Pan Docs, "Serial Data Transfer", has it, with nothing on the
/// other end of the cable.
#[derive(Drop)]
pub struct Serial {
    state: SerialState,
}

impl Model for Serial {
    ghost use Rattle.timer_unit.specs.declared.serial.SerialState.{SerialState};
    ghost use Rattle.timer_unit.specs.Serial.{IsLegalSerial};

    ghost Value = { SerialState };

    ghost view = { λ s. s.state };

    ghost invariant = { λ s. IsLegalSerial s.state };
}

impl Serial {
    ghost use Rattle.repeated_steps.specs.NextEvent.{IsNextEvent};
    ghost use Rattle.timer_unit.specs.Serial.{IsLegalSerial, serial_at_power_on, unrequested, tick, ticks, transfer_ends, sc_bits, sc_written, serial_request};

    /// The serial port at power-on: SB 00, both bits of SC clear, no transfer.
    pub fn new() -> Self
        ensures { result ≡ serial_at_power_on }
    {
        Serial {
            state: SerialState {
                sb: 0,
                sc: 0,
                cycles_left: 0,
            },
        }
    }

    /// What a snapshot holds of the serial port.
    #[inline]
    pub fn state(&self) -> SerialState
        ensures state { result ≡ self.now }
        ensures legal { IsLegalSerial result }
    {
        self.state
    }

    /// The serial port becomes this one. Condition: the state is legal.
    pub fn restore(&mut self, state: &SerialState)
        requires { IsLegalSerial state.now }
        ensures { self.new ≡ state.now }
    {
        self.state = *state;
    }

    /// That many M-cycles pass. At the end of a transfer SB is FF, bit 7 of SC is 0 and the interrupt is requested.
    #[inline]
    #[tactic(auto, using(crate::proofs::SerialJump::serial_jumps))]
    pub fn pass(&mut self, cycles: u32) -> Requests
        ensures state { self.new ≡ (ticks cycles self.old).serial }
        ensures requests { result.bits ≡ serial_request (ticks cycles self.old).requested }
    {
        if self.state.cycles_left == 0 {
            return Requests::of_serial(false);
        }
        if cycles < u32::from(self.state.cycles_left) {
            self.state.cycles_left -= cycles as u16;
            return Requests::of_serial(false);
        }
        self.state = SerialState {
            sb: 0xff,
            sc: self.state.sc % 128,
            cycles_left: 0,
        };
        Requests::of_serial(true)
    }

    /// After how many M-cycles a transfer ends; None where none runs.
    pub fn due(&self) -> Option<u32>
        ensures { IsNextEvent tick transfer_ends (unrequested self.now) result }
    {
        match self.state.cycles_left {
            0 => None,
            left => Some(u32::from(left)),
        }
    }

    /// SB as it is read. The bits of a running transfer are not seen shifting (fixed profile).
    #[inline]
    pub fn sb(&self) -> u8
        ensures { result ≡ self.now.sb }
    {
        self.state.sb
    }

    /// SC as it is read: bits 6 to 1 are unused and read 1 (fixed profile).
    #[inline]
    pub fn sc(&self) -> u8
        ensures { result ≡ 0x7e + self.now.sc }
    {
        0x7e | self.state.sc
    }

    /// A write to SB.
    #[inline]
    pub fn write_sb(&mut self, value: u8)
        ensures { self.new ≡ record self.old { sb = value } }
    {
        self.state.sb = value;
    }

    /// A write to SC, of which bits 7 and 0 are kept. Both set start a transfer of 1,024 M-cycles, or start it again; any
    /// other write ends a running one, without an interrupt (fixed profile).
    pub fn write_sc(&mut self, value: u8)
        ensures { self.new ≡ sc_written value self.old }
    {
        self.state.sc = Serial::kept_bits(value);
        self.state.cycles_left = if self.state.sc == 0x81 { 1024 } else { 0 };
    }

    /// Bits 7 and 0.
    fn kept_bits(value: u8) -> u8
        ensures { result ≡ sc_bits value }
    {
        value & 0x81
    }
}
