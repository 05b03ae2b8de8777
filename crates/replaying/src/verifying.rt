//! A SAVE against the recording beside which it was made.
ghost use Rattle.std.specs.Prelude.{◌≡◌, ◌⊎◌, ◌↔◌, length, take, false, IsTrue, IfOk, IfErr};
ghost use Rattle.sha2.specs.Sha256.{sha256};
ghost use Rattle.machine.specs.Machine.{after, start};
ghost use Rattle.snapshot.specs.Encoding.{encoded, snapshot_length};
ghost use Rattle.machine.specs.Legal.{IsLegalMachine};
ghost use Rattle.snapshot.specs.Legal.{IsMachineOf};
ghost use Rattle.sector_device.specs.DiskState.{HasAnswered};
ghost use Rattle.sector_device.specs.Looking.{HasLooked};
ghost use Rattle.input_entries.specs.Inputs.{inputs};
ghost use Rattle.recording.specs.Recorded.{entries};
ghost use Rattle.recording.specs.Accessors.{device_of, is_broken, count_of};
ghost use Rattle.session.specs.Inputs.{inputs_of};
ghost use Rattle.session.specs.Resting.{IsOfItsRom};
ghost use Rattle.session.specs.LookAccessors.{machine_of_look, count_of_look};
ghost use Rattle.replaying.specs.Replayed.{LeadsTo, LeadsWithin, IsCompareCause, IsCompareCauseWithin, IsOfComparing};
ghost use Rattle.replaying.specs.Verifying.{IsVerifiedWithin, IsVerifyCause, IsOfVerifying, IsWhereMemoryLacks, save_faults_after, recording_faults_after};

use crate::error::VerifyError;
use crate::replay::replay;
use cartridge::Cartridge;
use machine::Machine;
use recording::{Recording, RecordingFault, open_recording};
use sector_device::SectorDevice;
use session::{Look, look_at};
use snapshot::encode;
use std::alloc::Global;

/// How far a recording and its SAVE may be apart, and up to where they are compared.
#[derive(Clone, Copy)]
pub struct Limits {
    /// As many inputs the recording may have beyond those of the SAVE.
    pub beyond: u64,
    /// The machines of a SAVE with more inputs are not compared.
    pub replayed: u64,
}

/// What `verify` found, and both devices.
#[derive(Drop)]
pub struct Verified<S: SectorDevice, D: SectorDevice> {
    /// How many inputs lead to the machine of the SAVE, or why it is not verified.
    pub answer: Result<u64, VerifyError>,
    pub save: S,
    pub recording: D,
}

/// Whether a machine is the one with this snapshot.
fn has_snapshot(alloc: Global, machine: &Machine, snapshot: &[u8]) -> Result<bool, VerifyError>
    requires { length snapshot.now ≡ snapshot_length (length machine.now.processor.memory.banks.ram) }
    ensures same { IfOk result (λ same. IsTrue same ↔ (encoded machine.now ≡ snapshot.now)) }
    ensures legal { IfOk result (λ _. IsLegalMachine machine.now) }
    ensures memory { IfErr result (λ why. why ≡ VerifyError.Memory) }
{
    let Ok(mut room) = vec![in alloc; 0u8; snapshot.len()] else {
        return Err(VerifyError::Memory);
    };
    encode(machine, &mut room);
    Ok(room.as_slice() == snapshot)
}

/// The machine that the first `count` inputs of a recording lead to from power-on.
fn machine_after<D: SectorDevice>(
    alloc: Global,
    recording: &mut Recording<D>,
    count: u64,
    cartridge: &Cartridge,
) -> Result<Machine, VerifyError>
    requires { is_broken recording.old ≡ false }
    ensures own { IfOk result (λ machine. IsOfItsRom machine × (machine.processor.memory.banks.rom ≡ cartridge.now)) }
    ensures machine { IfOk result (λ machine. (D.disk (device_of recording.old)).honest →
        machine ≡ after (start cartridge.now)
        (inputs_of (take count (inputs (entries (D.disk (device_of recording.old)).sectors))))) }
    ensures looked { (D.disk (device_of recording.old)).honest →
        HasLooked (D.disk (device_of recording.old)) (D.disk (device_of recording.new)) }
    ensures cause { IfErr result (λ why.
        (why ≡ VerifyError.Memory) ⊎ (why ≡ VerifyError.Recording RecordingFault.Device)) }
    ensures answered { HasAnswered recording_faults_after (D.disk (device_of recording.old))
        (D.disk (device_of recording.new)) result }
{
    let Ok(mut machine) = Machine::power_on(alloc, cartridge) else {
        return Err(VerifyError::Memory);
    };
    match replay(recording, &mut machine, count) {
        Ok(()) => Ok(machine),
        Err(why) => {
            drop(machine);
            Err(VerifyError::Recording(why))
        }
    }
}

/// Compares what was seen of a SAVE with a recording of the same ROM.
fn compare<S: SectorDevice, D: SectorDevice>(
    alloc: Global,
    look: &Look<S>,
    recording: &mut Recording<D>,
    cartridge: &Cartridge,
) -> Result<u64, VerifyError>
    requires whole { is_broken recording.old ≡ false }
    requires of { IsMachineOf cartridge.now (machine_of_look look.now) }
    requires counted { (D.disk (device_of recording.old)).honest →
        count_of recording.old ≡ length (inputs (entries (D.disk (device_of recording.old)).sectors)) }

    ensures count { IfOk result (λ count. count ≡ count_of_look look.now) }
    ensures leads { IfOk result (λ _. (D.disk (device_of recording.old)).honest →
        LeadsTo cartridge.now (inputs (entries (D.disk (device_of recording.old)).sectors)) (count_of_look look.now)
        (machine_of_look look.now)) }
    ensures cause { IfErr result (λ why. (D.disk (device_of recording.old)).honest →
        IsCompareCause cartridge.now (inputs (entries (D.disk (device_of recording.old)).sectors))
        (count_of_look look.now) (machine_of_look look.now) why) }
    ensures kind { IfErr result (IsOfComparing None) }
    ensures looked { (D.disk (device_of recording.old)).honest →
        HasLooked (D.disk (device_of recording.old)) (D.disk (device_of recording.new)) }
    ensures answered { HasAnswered recording_faults_after (D.disk (device_of recording.old))
        (D.disk (device_of recording.new)) result }
{
    let count = look.count();
    let recorded = recording.input_count();
    if recorded < count {
        return Err(VerifyError::Behind(recorded));
    }
    let machine = match machine_after(alloc, recording, count, cartridge) {
        Ok(machine) => machine,
        Err(why) => return Err(why),
    };
    let same = has_snapshot(alloc, &machine, look.snapshot());
    drop(machine);
    match same {
        Ok(true) => Ok(count),
        Ok(false) => Err(VerifyError::Differ),
        Err(why) => Err(why),
    }
}

/// `compare`, within limits where there are any.
fn compare_within<S: SectorDevice, D: SectorDevice>(
    alloc: Global,
    look: &Look<S>,
    recording: &mut Recording<D>,
    cartridge: &Cartridge,
    limits: Option<Limits>,
) -> Result<u64, VerifyError>
    requires whole { is_broken recording.old ≡ false }
    requires of { IsMachineOf cartridge.now (machine_of_look look.now) }
    requires counted { (D.disk (device_of recording.old)).honest →
        count_of recording.old ≡ length (inputs (entries (D.disk (device_of recording.old)).sectors)) }

    ensures count { IfOk result (λ count. count ≡ count_of_look look.now) }
    ensures leads { IfOk result (λ _. (D.disk (device_of recording.old)).honest →
        LeadsWithin limits cartridge.now (inputs (entries (D.disk (device_of recording.old)).sectors))
        (count_of_look look.now) (machine_of_look look.now)) }
    ensures cause { IfErr result (λ why. (D.disk (device_of recording.old)).honest →
        IsCompareCauseWithin limits cartridge.now (inputs (entries (D.disk (device_of recording.old)).sectors))
        (count_of_look look.now) (machine_of_look look.now) why) }
    ensures kind { IfErr result (IsOfComparing limits) }
    ensures looked { (D.disk (device_of recording.old)).honest →
        HasLooked (D.disk (device_of recording.old)) (D.disk (device_of recording.new)) }
    ensures answered { HasAnswered recording_faults_after (D.disk (device_of recording.old))
        (D.disk (device_of recording.new)) result }
{
    let Some(limits) = limits else {
        return compare(alloc, look, recording, cartridge);
    };
    let count = look.count();
    let recorded = recording.input_count();
    if recorded > count && recorded - count > limits.beyond {
        return Err(VerifyError::Ahead(recorded));
    }
    if recorded >= count && count > limits.replayed {
        return Ok(count);
    }
    compare(alloc, look, recording, cartridge)
}

/// Compares a SAVE with the recording beside which it was made: replays from power-on as many
/// inputs of the recording as the SAVE has, and compares the machines. Nothing is written. With
/// limits a recording that is too far beyond the SAVE is refused, and the machines of a long play are not compared.
///
/// Refusals, in this order: those of the look at the SAVE (`Save`); those of opening the recording
/// (`Recording`); `Behind`, if it has fewer inputs than the SAVE; `Ahead`; `Memory` for a machine;
/// `Recording(Device)` while reading it; `Memory` for a snapshot; `Differ`.
pub fn verify<S: SectorDevice, D: SectorDevice>(
    alloc: Global,
    save: S,
    recording: D,
    cartridge: &Cartridge,
    limits: Option<Limits>,
) -> Verified<S, D>
    ensures ok { IfOk result.answer (λ count. (S.disk save).honest → (D.disk recording).honest →
        IsVerifiedWithin limits cartridge.now (S.disk save).sectors (D.disk recording).sectors count) }
    ensures cause { IfErr result.answer (λ why. (S.disk save).honest → (D.disk recording).honest →
        IsVerifyCause limits cartridge.now (S.disk save) (D.disk recording) why) }
    ensures kind { IfErr result.answer (IsOfVerifying limits) }
    ensures memory { IfErr result.answer (λ why. IsWhereMemoryLacks why cartridge.now (S.disk save) (S.disk result.save)
        (D.disk recording) (D.disk result.recording)) }
    ensures looked_save { (S.disk save).honest → HasLooked (S.disk save) (S.disk result.save) }
    ensures looked_recording { (D.disk recording).honest → HasLooked (D.disk recording) (D.disk result.recording) }
    ensures answered_save { HasAnswered save_faults_after (S.disk save) (S.disk result.save) result.answer }
    ensures answered_recording { HasAnswered recording_faults_after (D.disk recording) (D.disk result.recording)
        result.answer }
{
    let look = match look_at(alloc, save, cartridge) {
        Ok(look) => look,
        Err(refused) => return Verified {
            answer: Err(VerifyError::Save(refused.why)),
            save: refused.device,
            recording,
        },
    };
    let mut recording = match open_recording(alloc, recording, cartridge.digest()) {
        Ok(recording) => recording,
        Err(refused) => return Verified {
            answer: Err(VerifyError::Recording(refused.why)),
            save: look.into_device(),
            recording: refused.device,
        },
    };
    let answer = compare_within(alloc, &look, &mut recording, cartridge, limits);
    Verified {
        answer,
        save: look.into_device(),
        recording: recording.into_device(),
    }
}
