//! The battery file of a game on a device.

ghost use Rattle.std.specs.Prelude.{◌≡◌, ◌⊎◌, true, IfErr, IfOk, OnOk};
ghost use Rattle.cartridge.specs.Accepted.{IsAccepted};
ghost use Rattle.cartridge.specs.Header.{has_battery};
ghost use Rattle.sector_device.specs.DiskState.{HasAnswered};
ghost use Rattle.sector_device.specs.Looking.{HasLooked};
ghost use Rattle.session.specs.Calls.{CanBeLookedAt};
ghost use Rattle.battery_files.specs.Exporting.{IsExportCause, IsExported, IsUntouchedBy, faults_after_export, left_by};

use crate::battery::battery_of;
use cartridge::Cartridge;
use refusals::Refusal;
use sector_device::{Refused, SectorDevice};
use session::{SessionError, look_at};
use std::alloc::Global;

/// A battery file of a game.
#[derive(Drop)]
pub struct Exported<D: SectorDevice> {
    /// How many inputs brought the game there.
    pub count: u64,
    pub bytes: Vec<u8>,
    /// Nothing was written to it.
    pub device: D,
}

/// The battery file of the game on a device. Nothing is written to the device.
///
/// Refusals, in this order, each of which hands the device back: what is wrong with the image, and `NoBattery`, with the device untouched;
/// those of `look_at`; `Memory` for the file.
pub fn export_battery<D: SectorDevice>(
    alloc: Global,
    device: D,
    rom: Vec<u8>,
) -> Result<Exported<D>, Refused<Refusal, D>>
    ensures accepted { OnOk result (IsAccepted rom.items) }
    ensures battery { OnOk result (has_battery rom.items ≡ true) }
    ensures exported { IfOk result (λ exported. (D.disk device).honest →
        IsExported rom.items (D.disk device).sectors exported.count exported.bytes.items) }
    ensures looked { (D.disk device).honest → HasLooked (D.disk device) (D.disk (left_by result)) }
    ensures cause { IfErr result (λ refused. IsExportCause rom.items (D.disk device) refused.why) }
    ensures untouched { IfErr result (λ refused. IsUntouchedBy refused.why device refused.device) }
    ensures memory { IfErr result (λ refused.
        refused.why ≡ Refusal.Session SessionError.Memory → (refused.device ≡ device) ⊎
        ((D.disk device).honest → CanBeLookedAt rom.items (D.disk device))) }
    ensures answered { HasAnswered (λ refused. faults_after_export refused.why) (D.disk device)
        (D.disk (left_by result)) result }
{
    let cartridge = match Cartridge::read(rom) {
        Ok(cartridge) => cartridge,
        Err(fault) => return Err(Refused {
            why: Refusal::Cart(fault),
            device,
        }),
    };
    if !cartridge.has_battery() {
        return Err(Refused {
            why: Refusal::NoBattery,
            device,
        });
    }
    let look = match look_at(alloc, device, &cartridge) {
        Ok(look) => look,
        Err(refused) => return Err(Refused {
            why: Refusal::Session(refused.why),
            device: refused.device,
        }),
    };
    let count = look.count();
    match battery_of(alloc, look.machine()) {
        Ok(bytes) => Ok(Exported {
            count,
            bytes,
            device: look.into_device(),
        }),
        Err(_) => Err(Refused {
            why: Refusal::Session(SessionError::Memory),
            device: look.into_device(),
        }),
    }
}
