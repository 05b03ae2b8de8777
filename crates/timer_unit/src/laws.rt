//! Laws of the definitions. The functions do nothing: the contract of each is a law.

ghost use Rattle.timer_unit.specs.Laws.{TimerRequestIsAdded, SerialRequestIsAdded, TimerCountsAtItsRate};

/// Law: what the timer does in n M-cycles does not depend on whether its interrupt was requested before; a request from
/// before stays.
pub fn timer_request_is_added()
    ensures { TimerRequestIsAdded }
{}

/// Law: what the serial port does in n M-cycles does not depend on whether its interrupt was requested before; a request
/// from before stays.
pub fn serial_request_is_added()
    ensures { SerialRequestIsAdded }
{}

/// Law: a running timer counts once in every 256, 4, 16 or 64 M-cycles, by the two low bits of TAC.
pub fn timer_counts_at_its_rate()
    ensures { TimerCountsAtItsRate }
{}

ghost use Rattle.timer_unit.specs.SerialLaws.{TransferTakes1024Cycles};

/// Law: 1,024 M-cycles after a write of SC with bits 7 and 0 set the transfer ends, with SB FF, bit 7 of SC clear and one
/// request; until then it runs and nothing is requested.
pub fn transfer_takes_1024_cycles()
    ensures { TransferTakes1024Cycles }
{}
