//! Pending inputs written to a store.
ghost use Rattle.std.specs.Prelude.{◌≡◌, ◌↔◌, ◌≤◌, ◌<◌, ◌+◌, ◌-◌, ◌^◌, ◌⊎◌, ◌++◌, ◌∷◌, [], false, true, length, vec_capacity, OnOk, IfErr, IsErrOf};
ghost use Rattle.std.specs.List.{list_all};
ghost use Rattle.machine.specs.Machine.{start};
ghost use Rattle.snapshot.specs.Encoding.{encoded, snapshot_length};
ghost use Rattle.machine.specs.Legal.{IsLegalMachine};
ghost use Rattle.sector_device.specs.DiskState.{HasAnswered};
ghost use Rattle.sector_device.specs.Runs.{HoldsSince};
ghost use Rattle.log_format.specs.Content.{need};
ghost use Rattle.input_entries.specs.Inputs.{is_input};
ghost use Rattle.sector_log.specs.Accessors.{device_of, is_broken, entries_of, generation_of, id_of};
ghost use Rattle.session.specs.Calls.{IsSaveCause, faults_after, fits_log};
ghost use Rattle.session.specs.Inputs.{can_be_logged};
ghost use Rattle.session.specs.Writing.{HoldsWritten, IsWritten};

use crate::begin::fault_of;
use crate::error::SessionError;
use machine::Machine;
use sector_device::SectorDevice;
use sector_log::{Entry, Store, are_inputs};
use snapshot::encode;

/// Adds an entry for which room was reserved.
pub(crate) fn push(entries: &mut Vec<Entry>, entry: Entry)
    requires { length entries.old.items < vec_capacity entries.old }
    ensures items { entries.new.items ≡ entries.old.items ++ entry ∷ [] }
    ensures capacity { vec_capacity entries.old ≤ vec_capacity entries.new }
{
    entries.push_reserved(entry);
}

/// Whether the log can hold these entries behind what it holds.
fn fits_log<D: SectorDevice>(store: &Store<D>, entries: &[Entry]) -> bool
    ensures { result ≡ fits_log (entries_of store.now) entries.now }
{
    if are_inputs(entries) {
        return store.fits(entries);
    }
    false
}

/// Appends entries to the log if it can hold them; otherwise writes a snapshot of the machine as a new
/// generation.
pub(crate) fn write_pending<D: SectorDevice>(
    store: &mut Store<D>,
    machine: &Machine,
    pending: &[Entry],
    buffer: &mut [u8],
    all: u64,
) -> Result<(), SessionError>
    requires open { is_broken store.old ≡ false }
    requires room { length buffer.old ≡ snapshot_length (length machine.now.processor.memory.banks.ram) }
    requires short { length buffer.old < 2 ^ 32 }
    requires large { need (length buffer.old) ≤ length (D.disk (device_of store.old)).sectors }

    ensures cause { IfErr result (λ why.
        IsSaveCause why false (fits_log (entries_of store.old) pending.now) (generation_of store.old)) }
    ensures unchanged { IfErr result (λ why. (why ≡ SessionError.Device) ⊎ (store.new ≡ store.old)) }
    ensures broken { (is_broken store.new ≡ true) ↔ IsErrOf result SessionError.Device }
    ensures images { (D.disk (device_of store.old)).honest →
        HoldsSince (D.disk (device_of store.old)) (D.disk (device_of store.new))
        (HoldsWritten (fits_log (entries_of store.old) pending.now) (D.disk (device_of store.old)).sectors pending.now
        (id_of store.old) all (encoded machine.now)) }
    ensures written { OnOk result ((D.disk (device_of store.old)).honest →
        IsWritten (fits_log (entries_of store.old) pending.now) (D.disk (device_of store.old))
        (D.disk (device_of store.new)) pending.now (id_of store.old) all (encoded machine.now) (entries_of store.old)
        (entries_of store.new)) }
    ensures legal { fits_log (entries_of store.old) pending.now ≡ false → IsLegalMachine machine.now }
    ensures id { id_of store.new ≡ id_of store.old }
    ensures answered { HasAnswered faults_after (D.disk (device_of store.old)) (D.disk (device_of store.new)) result }
{
    if fits_log(store, pending) {
        return match store.append(pending) {
            Ok(()) => Ok(()),
            Err(why) => Err(fault_of(why)),
        };
    }
    encode(machine, buffer);
    match store.replace(all, buffer) {
        Ok(()) => Ok(()),
        Err(why) => Err(fault_of(why)),
    }
}
