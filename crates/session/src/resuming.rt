//! Resuming a game.
ghost use Rattle.std.specs.Prelude.{◌≡◌, ◌≢◌, ◌<◌, ◌-◌, ◌^◌, ◌⊎◌, [], false, length, Ok, Err, Some, None, IfOk, IfErr};
ghost use Rattle.snapshot.specs.Legal.{IsMachineOf};
ghost use Rattle.sector_device.specs.DiskState.{HasAnswered};
ghost use Rattle.sector_device.specs.Looking.{HasLooked};
ghost use Rattle.sector_device.specs.Runs.{HoldsSince};
ghost use Rattle.log_format.specs.Content.{content, generation_in};
ghost use Rattle.session.specs.Calls.{faults_after};
ghost use Rattle.session.specs.Stands.{IsAtRest, CanBeTakenUp, StandsAsBefore, stands};
ghost use Rattle.session.specs.Found.{IsResumeCause};
ghost use Rattle.session.specs.Accessors.{device_of, machine_of, rom_of, pending_of, acknowledged_of, saved_of, is_broken, left_by};
ghost use Rattle.session.specs.declared.error.SessionError.TheVariants.{Memory, Device, Output};

use crate::begin::{begin_with, fault_of, make_room, snapshot_length};
use crate::error::SessionError;
use crate::recovery::recovered;
use crate::session::Session;
use cartridge::Cartridge;
use sector_device::{Refused, SectorDevice};
use sector_log::open_log;
use std::alloc::Global;

/// Resumes the game that the device stands for, and begins a new generation with it. A power cut at
/// any moment leaves an image that stands for what one stood for before.
///
/// Refusals, in this order: `Memory` for the buffers, `Device`, `NoSession`, `TooSmall`,
/// `OtherCartridge`, `Damaged` (`Count`, `Snapshot`, `Entry`), `GenerationsUsedUp`, `Memory` for the machine,
/// all with nothing written; `Device` while writing.
pub fn resume<D: SectorDevice>(
    alloc: Global,
    device: D,
    cartridge: &Cartridge,
) -> Result<Session<D>, Refused<SessionError, D>>
    // what is taken up
    ensures begun { IfOk result (λ s. (pending_of s ≡ []) × (is_broken s ≡ false) × (rom_of s ≡ cartridge.now)) }
    ensures saved { IfOk result (λ s. saved_of s ≡ record { count = acknowledged_of s; machine = machine_of s }) }
    ensures of { IfOk result (λ s. IsMachineOf cartridge.now (machine_of s)) }
    ensures stands { IfOk result (λ s. (D.disk device).honest →
        stands cartridge.now (content (D.disk device).sectors) ≡
        Some (record { count = acknowledged_of s; machine = machine_of s })) }

    // what the device stands for, at Ok and at each moment
    ensures rests { IfOk result (λ s.
        (D.disk device).honest → IsAtRest cartridge.now (D.disk (device_of s)) (acknowledged_of s) [] (machine_of s)) }
    ensures images { (D.disk device).honest →
        HoldsSince (D.disk device) (D.disk (left_by result)) (StandsAsBefore cartridge.now (D.disk device)) }
    ensures nothing { (D.disk device).honest → stands cartridge.now (content (D.disk device).sectors) ≡ None →
        HoldsSince (D.disk device) (D.disk (left_by result)) (D.disk device).image }
    ensures kept { IfErr result (λ refused. (refused.why ≡ Device) ⊎
        ((D.disk device).honest → (D.disk refused.device).sectors ≡ (D.disk device).sectors)) }
    ensures untouched { IfErr result (λ refused. (refused.why ≡ Device) ⊎
        ((D.disk device).honest → HoldsSince (D.disk device) (D.disk refused.device) (D.disk device).image)) }

    // when it is refused
    ensures can { IfOk result (λ s. (D.disk device).honest → generation_in (D.disk device).sectors < 2 ^ 64 - 1) }
    ensures cause { IfErr result (λ refused. (D.disk device).honest →
        IsResumeCause cartridge.now (generation_in (D.disk device).sectors) (content (D.disk device).sectors)
        refused.why) }

    // before all other causes, or once none of them holds
    ensures memory { IfErr result (λ refused. refused.why ≡ Memory → (refused.device ≡ device) ⊎
        ((D.disk device).honest → CanBeTakenUp cartridge.now (D.disk device))) }
    ensures failed { IfErr result (λ refused. refused.why ≡ Device → (D.disk device).honest →
        HasLooked (D.disk device) (D.disk refused.device) ⊎ CanBeTakenUp cartridge.now (D.disk device)) }

    // no report is written, so none fails
    ensures no_report { IfErr result (λ refused. refused.why ≢ Output) }

    ensures answered { HasAnswered (λ refused. faults_after refused.why) (D.disk device) (D.disk (left_by result))
        result }
{
    let Ok(room) = make_room(alloc, cartridge) else {
        return Err(Refused {
            why: SessionError::Memory,
            device,
        });
    };
    let opened = match open_log(alloc, device, snapshot_length(cartridge)) {
        Ok(opened) => opened,
        Err(refused) => return Err(Refused {
            why: fault_of(refused.why),
            device: refused.device,
        }),
    };
    let generation = opened.generation();
    match recovered(alloc, &opened, generation, cartridge) {
        Ok((count, machine)) => begin_with(opened, cartridge, count, machine, room),
        Err(why) => Err(Refused {
            why,
            device: opened.into_device(),
        }),
    }
}
