//! What a snapshot holds of the bus beside its stores.

use bank_controllers::BanksState;
use picture_unit::PictureState;
use timer_unit::{SerialState, TimerState};

/// What a snapshot holds of the bus besides its stores of bytes and the rows of the picture.
#[derive(Clone, Copy, PartialEq, Eq)]
pub struct BusWithoutMemory {
    pub ie: u8,
    /// The low five bits of IF.
    pub interrupt_flag: u8,
    pub buttons: u8,
    /// Bits 5 and 4 of P1.
    pub p1_select: u8,
    pub timer: TimerState,
    pub serial: SerialState,
    pub dma: u8,
    /// 160 if no copy is running.
    pub dma_copied: u8,
    pub picture: PictureState,
    pub banks: BanksState,
}
