//! A look at a game, with which nothing is written.
ghost use Rattle.std.specs.Prelude.{◌≡◌, ◌≢◌, ◌⊎◌, [], length, Ok, Err, Some, IfOk, IfErr};
ghost use Rattle.snapshot.specs.Legal.{IsMachineOf};
ghost use Rattle.sector_device.specs.DiskState.{HasAnswered};
ghost use Rattle.sector_device.specs.Looking.{HasLooked};
ghost use Rattle.input_entries.specs.Inputs.{inputs};
ghost use Rattle.log_format.specs.Content.{content, generation_in};
ghost use Rattle.log_format.specs.Found.{log_of};
ghost use Rattle.session.specs.Calls.{CanBeLookedAt, faults_after};
ghost use Rattle.session.specs.Stands.{IsAtRest, stands};
ghost use Rattle.session.specs.Found.{IsLookCause};
ghost use Rattle.session.specs.LookAccessors.{device_of_look, machine_of_look, count_of_look, logged_of_look, generation_of_look, left_by_look};
ghost use Rattle.session.specs.declared.error.SessionError.TheVariants.{Memory, Device, Output};

use crate::begin::{blank_snapshot, fault_of, snapshot_length};
use crate::error::SessionError;
use crate::look::Look;
use crate::recovery::recovered;
use cartridge::Cartridge;
use sector_device::{Refused, SectorDevice};
use sector_log::open_log;
use std::alloc::Global;

/// Looks at the game that the device stands for: a sync and reads, and nothing is written.
///
/// Refusals, in this order: `Memory` for the buffers, `Device`, `NoSession`, `TooSmall`,
/// `OtherCartridge`, `Damaged` (`Count`, `Snapshot`, `Entry`), `Memory` for the machine. A game whose
/// generations are used up can still be looked at.
pub fn look_at<D: SectorDevice>(
    alloc: Global,
    device: D,
    cartridge: &Cartridge,
) -> Result<Look<D>, Refused<SessionError, D>>
    ensures looked { (D.disk device).honest → HasLooked (D.disk device) (D.disk (left_by_look result)) }

    // what is seen
    ensures of { IfOk result (λ look. IsMachineOf cartridge.now (machine_of_look look)) }
    ensures stands { IfOk result (λ look. (D.disk device).honest →
        stands cartridge.now (content (D.disk device).sectors) ≡
        Some (record { count = count_of_look look; machine = machine_of_look look })) }
    ensures log { IfOk result (λ look. (D.disk device).honest →
        (logged_of_look look ≡ length (inputs (log_of (content (D.disk device).sectors)))) ×
        (generation_of_look look ≡ generation_in (D.disk device).sectors)) }
    ensures rests { IfOk result (λ look. (D.disk device).honest →
        IsAtRest cartridge.now (D.disk (device_of_look look)) (count_of_look look) [] (machine_of_look look)) }

    // when it is refused
    ensures cause { IfErr result (λ refused. (D.disk device).honest →
        IsLookCause cartridge.now (content (D.disk device).sectors) refused.why) }
    ensures memory { IfErr result (λ refused. refused.why ≡ Memory → (refused.device ≡ device) ⊎
        ((D.disk device).honest → CanBeLookedAt cartridge.now (D.disk device))) }

    // no report is written, so none fails
    ensures no_report { IfErr result (λ refused. refused.why ≢ Output) }

    ensures answered { HasAnswered (λ refused. faults_after refused.why) (D.disk device) (D.disk (left_by_look result))
        result }
{
    let Ok(room) = blank_snapshot(alloc, cartridge) else {
        return Err(Refused {
            why: SessionError::Memory,
            device,
        });
    };
    let opened = match open_log(alloc, device, snapshot_length(cartridge)) {
        Ok(opened) => opened,
        Err(refused) => return Err(Refused {
            why: fault_of(refused.why),
            device: refused.device,
        }),
    };
    match recovered(alloc, &opened, 0, cartridge) {
        Ok((count, machine)) => Ok(Look::at(opened, count, machine, room)),
        Err(why) => Err(Refused {
            why,
            device: opened.into_device(),
        }),
    }
}
