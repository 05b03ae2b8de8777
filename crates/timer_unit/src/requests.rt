//! The interrupts that the timer and the serial port request.

ghost use Rattle.std.specs.Prelude.{◌≡◌};

/// Interrupts that were requested, as bits of the interrupt flag register IF (FF0F): bit 2 is the timer's, bit 3 the
/// serial port's (Pan Docs, "Interrupts").
#[derive(Clone, Copy)]
pub struct Requests {
    pub bits: u8,
}

impl Requests {
    ghost use Rattle.timer_unit.specs.Timer.{timer_request};
    ghost use Rattle.timer_unit.specs.Serial.{serial_request};

    #[inline]
    pub(crate) fn of_timer(requested: bool) -> Self
        ensures { result.bits ≡ timer_request requested }
    {
        Requests {
            bits: if requested { 0x04 } else { 0 },
        }
    }

    #[inline]
    pub(crate) fn of_serial(requested: bool) -> Self
        ensures { result.bits ≡ serial_request requested }
    {
        Requests {
            bits: if requested { 0x08 } else { 0 },
        }
    }
}
