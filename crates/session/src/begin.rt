//! A new game.
ghost use Rattle.std.specs.Prelude.{◌≡◌, ◌≤◌, ◌<◌, ◌^◌, ◌⊎◌, [], false, true, length, vec_capacity, Ok, Err, IfOk, IfErr};
ghost use Rattle.sha2.specs.Sha256.{sha256};
ghost use Rattle.cartridge.specs.Header.{ram_length_of};
ghost use Rattle.machine.specs.Machine.{start};
ghost use Rattle.snapshot.specs.Encoding.{encoded, snapshot_length};
ghost use Rattle.snapshot.specs.Legal.{IsMachineOf};
ghost use Rattle.sector_device.specs.DiskState.{HasAnswered};
ghost use Rattle.sector_device.specs.Runs.{HoldsSince};
ghost use Rattle.sector_log.specs.Calls.{HasOldOrNewContent, HasBegun, CanBegin};
ghost use Rattle.log_format.specs.Content.{need};
ghost use Rattle.sector_log.specs.OpenedAccessors.{device_under, found_generation};
ghost use Rattle.session.specs.Calls.{HasOldContentOrGame, HasOldContentOrNewGame, most_unsaved, faults_after};
ghost use Rattle.session.specs.Stands.{IsAtRest};
ghost use Rattle.session.specs.Beginning.{session_fault, IsBeginRefusal};
ghost use Rattle.session.specs.NewGame.{AnswersNewGame};
ghost use Rattle.session.specs.Resting.{IsOfItsRom};
ghost use Rattle.session.specs.Accessors.{device_of, machine_of, rom_of, pending_of, acknowledged_of, saved_of, is_broken, left_by};
ghost use Rattle.session.specs.declared.error.SessionError.TheVariants.{Device};

use crate::error::SessionError;
use crate::session::{MOST_UNSAVED, Session};
use cartridge::Cartridge;
use machine::Machine;
use sector_device::{Refused, SectorDevice};
use sector_log::{Entry, LogFault, Opened, open_log};
use snapshot::encode;
use std::alloc::{AllocError, Global};

/// The sectors that a session of this cartridge needs: two roots, and two areas with a log and a
/// snapshot.
pub fn sectors_needed(cartridge: &Cartridge) -> u64
    ensures { result ≡ need (snapshot_length (ram_length_of cartridge.now)) }
{
    sector_log::sectors_needed(snapshot_length(cartridge) as u32)
}

/// The length of the snapshots of a cartridge's machines.
pub(crate) fn snapshot_length(cartridge: &Cartridge) -> usize
    ensures length { result ≡ snapshot_length (ram_length_of cartridge.now) }
    ensures short { result < 2 ^ 32 }
{
    snapshot::length(cartridge.ram_length())
}

/// What a refusal of the log means for a session.
pub(crate) fn fault_of(why: LogFault) -> SessionError
    ensures { result ≡ session_fault why }
{
    match why {
        LogFault::Memory => SessionError::Memory,
        LogFault::Device => SessionError::Device,
        LogFault::TooSmall { need } => SessionError::TooSmall { need },
        LogFault::GenerationsUsedUp => SessionError::GenerationsUsedUp,
        LogFault::LogFull | LogFault::Broken => SessionError::Broken,
    }
}

/// Room for 3,200 unsaved inputs and for one snapshot.
#[derive(Drop)]
pub(crate) struct Room {
    pub pending: Vec<Entry>,
    pub encoded: Vec<u8>,
}

/// Allocates room for a snapshot of this cartridge's machines.
pub(crate) fn blank_snapshot(alloc: Global, cartridge: &Cartridge) -> Result<Vec<u8>, AllocError>
    ensures { IfOk result (λ blank.
        (length blank.items ≡ snapshot_length (ram_length_of cartridge.now)) × (length blank.items < 2 ^ 32)) }
{
    vec![in alloc; 0u8; snapshot_length(cartridge)]
}

/// Allocates the room that a session needs besides that for a snapshot.
pub(crate) fn room_with(alloc: Global, encoded: Vec<u8>) -> Result<Room, AllocError>
    ensures pending { IfOk result (λ room. (room.pending.items ≡ []) × (most_unsaved ≤ vec_capacity room.pending)) }
    ensures encoded { IfOk result (λ room. room.encoded.items ≡ encoded.items) }
{
    let pending = Vec::with_capacity(alloc, MOST_UNSAVED as usize)?;
    Ok(Room { pending, encoded })
}

/// Allocates the room that a session of this cartridge needs.
pub(crate) fn make_room(alloc: Global, cartridge: &Cartridge) -> Result<Room, AllocError>
    ensures pending { IfOk result (λ room. (room.pending.items ≡ []) × (most_unsaved ≤ vec_capacity room.pending)) }
    ensures encoded { IfOk result (λ room.
        (length room.encoded.items ≡ snapshot_length (ram_length_of cartridge.now)) ×
        (length room.encoded.items < 2 ^ 32)) }
{
    let encoded = blank_snapshot(alloc, cartridge)?;
    room_with(alloc, encoded)
}

/// The machine at power-on, as one of this cartridge: a game may begin with it. Refused if there is
/// no memory.
pub fn machine_at_power_on(alloc: Global, cartridge: &Cartridge) -> Result<Machine, AllocError>
    ensures start { IfOk result (λ m. m ≡ start cartridge.now) }
    ensures of { IfOk result (λ m. IsMachineOf cartridge.now m) }
{
    // its contract says that the image is an accepted one
    let _ = cartridge.rom();
    Machine::power_on(alloc, cartridge)
}

/// Begins a game at power-on, whatever the device holds. A power cut at any moment leaves what the
/// device held or the new game.
///
/// Refusals, in this order: `Memory`, `Device` while reading what the device holds, `TooSmall`,
/// `GenerationsUsedUp`, all with what a power cut may leave as it was; `Device` while writing.
pub fn new_game<D: SectorDevice>(
    alloc: Global,
    device: D,
    cartridge: &Cartridge,
) -> Result<Session<D>, Refused<SessionError, D>>
    // what is begun
    ensures begun { IfOk result (λ s. (acknowledged_of s ≡ 0) × (pending_of s ≡ []) × (is_broken s ≡ false)) }
    ensures machine { IfOk result (λ s. (machine_of s ≡ start cartridge.now) × (rom_of s ≡ cartridge.now)) }
    ensures saved { IfOk result (λ s. saved_of s ≡ record { count = 0; machine = start cartridge.now }) }

    // what the device stands for, at Ok and at each moment
    ensures rests { IfOk result (λ s.
        (D.disk device).honest → IsAtRest cartridge.now (D.disk (device_of s)) 0 [] (start cartridge.now)) }
    ensures images { (D.disk device).honest →
        HoldsSince (D.disk device) (D.disk (left_by result)) (HasOldContentOrNewGame cartridge.now (D.disk device)) }

    // when it is refused, and what then is left
    ensures refused { AnswersNewGame cartridge.now device result }
    ensures answered { HasAnswered (λ refused. faults_after refused.why) (D.disk device) (D.disk (left_by result))
        result }
{
    let Ok(machine) = machine_at_power_on(alloc, cartridge) else {
        return Err(Refused {
            why: SessionError::Memory,
            device,
        });
    };
    new_game_from(alloc, device, cartridge, machine)
}

/// Begins a game with a machine of this cartridge, whatever the device holds. A power cut at any
/// moment leaves what the device held or the new game, which stands for no input and this machine.
///
/// Condition: the machine has this cartridge's ROM, and the controller, the rumble motor and the
/// length of RAM that this ROM asks for.
///
/// Refusals: those of `new_game`, in its order. None hands the machine back.
pub fn new_game_from<D: SectorDevice>(
    alloc: Global,
    device: D,
    cartridge: &Cartridge,
    machine: Machine,
) -> Result<Session<D>, Refused<SessionError, D>>
    requires { IsMachineOf cartridge.now machine }

    // what is begun
    ensures begun { IfOk result (λ s. (acknowledged_of s ≡ 0) × (pending_of s ≡ []) × (is_broken s ≡ false)) }
    ensures machine { IfOk result (λ s. (machine_of s ≡ machine) × (rom_of s ≡ cartridge.now)) }
    ensures saved { IfOk result (λ s. saved_of s ≡ record { count = 0; machine = machine }) }

    // what the device stands for, at Ok and at each moment
    ensures rests { IfOk result (λ s.
        (D.disk device).honest → IsAtRest cartridge.now (D.disk (device_of s)) 0 [] machine) }
    ensures images { (D.disk device).honest →
        HoldsSince (D.disk device) (D.disk (left_by result))
        (HasOldContentOrGame cartridge.now machine (D.disk device)) }

    // when it is refused, and what then is left
    ensures refused { AnswersNewGame cartridge.now device result }
    ensures answered { HasAnswered (λ refused. faults_after refused.why) (D.disk device) (D.disk (left_by result))
        result }
{
    let Ok(room) = make_room(alloc, cartridge) else {
        drop(machine);
        return Err(Refused {
            why: SessionError::Memory,
            device,
        });
    };
    let opened = match open_log(alloc, device, 0) {
        Ok(opened) => opened,
        Err(refused) => {
            drop(machine);
            drop(room);
            return Err(Refused {
                why: fault_of(refused.why),
                device: refused.device,
            });
        }
    };
    begin_with(opened, cartridge, 0, machine, room)
}

/// Begins a generation with a snapshot of the machine, and the session on top of it.
pub(crate) fn begin_with<D: SectorDevice>(
    opened: Opened<D>,
    cartridge: &Cartridge,
    count: u64,
    machine: Machine,
    room: Room,
) -> Result<Session<D>, Refused<SessionError, D>>
    requires rom { machine.processor.memory.banks.rom ≡ cartridge.now }
    requires own { IsOfItsRom machine }
    requires pending { (room.pending.items ≡ []) × (most_unsaved ≤ vec_capacity room.pending) }
    requires encoded { (length room.encoded.items ≡ snapshot_length (ram_length_of cartridge.now)) ×
        (length room.encoded.items < 2 ^ 32) }

    ensures begun { IfOk result (λ s.
        (acknowledged_of s ≡ count) × (pending_of s ≡ []) × (is_broken s ≡ false) × (machine_of s ≡ machine)) }
    ensures saved { IfOk result (λ s. saved_of s ≡ record { count = count; machine = machine }) }
    ensures of { IsMachineOf cartridge.now machine }
    ensures new { IfOk result (λ s. (D.disk (device_under opened)).honest →
        HasBegun (D.disk (device_under opened)) (D.disk (device_of s)) (sha256 cartridge.now) count (encoded machine)) }
    ensures images { (D.disk (device_under opened)).honest →
        HoldsSince (D.disk (device_under opened)) (D.disk (left_by result))
        (HasOldOrNewContent (D.disk (device_under opened)).sectors (sha256 cartridge.now) count (encoded machine)) }
    ensures untouched { IfErr result (λ refused. (refused.why ≡ Device) ⊎ (refused.device ≡ device_under opened)) }
    ensures can { IfOk result (λ s.
        CanBegin (snapshot_length (ram_length_of cartridge.now)) (length (D.disk (device_under opened)).sectors)
        (found_generation opened)) }
    ensures cause { IfErr result (λ refused.
        IsBeginRefusal refused.why (snapshot_length (ram_length_of cartridge.now))
        (length (D.disk (device_under opened)).sectors)
        (found_generation opened)) }
    ensures answered { HasAnswered (λ refused. faults_after refused.why) (D.disk (device_under opened))
        (D.disk (left_by result)) result }
{
    let Room {
        pending,
        mut encoded,
    } = room;
    encode(&machine, &mut encoded);
    match opened.begin(cartridge.digest(), count, &encoded) {
        Ok(store) => Ok(Session::at(store, machine, pending, encoded, count)),
        Err(refused) => {
            drop(machine);
            drop(pending);
            drop(encoded);
            Err(Refused {
                why: fault_of(refused.why),
                device: refused.device,
            })
        }
    }
}
