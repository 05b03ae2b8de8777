//! Whether a recording is the one that is known.
ghost use Rattle.std.specs.Prelude.{◌≡◌, ◌↔◌, length, false, IsTrue, OnOk, IfOk, IfErr, IfSome};
ghost use Rattle.sector_device.specs.DiskState.{HasAnswered};
ghost use Rattle.sector_device.specs.Looking.{HasLooked};
ghost use Rattle.input_entries.specs.Inputs.{inputs};
ghost use Rattle.recording.specs.Calls.{faults_after};
ghost use Rattle.recording.specs.Recorded.{entries};
ghost use Rattle.recording.specs.Accessors.{device_of, is_broken, count_of};
ghost use Rattle.recording_marks.specs.Digests.{digest_of, mark_faults_after, IsKnown, IsMarkCause, IsOther, IsReadCause};

use crate::hashing::hash_inputs;
use recording::{Recording, RecordingFault, open_recording};
use sector_device::SectorDevice;
use sha2::{Digest, Sha256};
use std::alloc::Global;

/// What is known of a recording.
#[derive(Clone, Copy)]
pub struct Known {
    /// How many inputs its game had when it was last taken up.
    pub count: u64,
    /// The SHA-256 of these inputs.
    pub digest: [u8; 32],
}

/// Why a recording is not taken for the one that is known.
#[derive(Clone, Copy)]
pub enum MarkFault {
    /// It can't be opened or read.
    Recording(RecordingFault),
    /// It is another one.
    Other,
}

/// What was found of a recording, and its device.
#[derive(Drop)]
pub struct Looked<D: SectorDevice> {
    /// What is to be known of it from now on.
    pub answer: Result<Known, MarkFault>,
    pub device: D,
}

/// The SHA-256 of the first `count` inputs; of all if there are fewer.
fn digest<D: SectorDevice>(
    recording: &mut Recording<D>,
    count: u64,
) -> Result<[u8; 32], RecordingFault>
    requires { is_broken recording.old ≡ false }
    ensures digest { IfOk result (λ digest. (D.disk (device_of recording.old)).honest →
        digest ≡ digest_of count (inputs (entries (D.disk (device_of recording.old)).sectors))) }
    ensures whole { IfOk result (λ _. is_broken recording.new ≡ false) }
    ensures count { count_of recording.new ≡ count_of recording.old }
    ensures looked { (D.disk (device_of recording.old)).honest →
        HasLooked (D.disk (device_of recording.old)) (D.disk (device_of recording.new)) }
    ensures cause { IfErr result (λ why. why ≡ RecordingFault.Device) }
    ensures answered { HasAnswered faults_after (D.disk (device_of recording.old)) (D.disk (device_of recording.new))
        result }
{
    let mut hasher = Sha256::new();
    match hash_inputs(recording, &mut hasher, count) {
        Ok(()) => Ok(hasher.finalize()),
        Err(why) => Err(why),
    }
}

/// Whether the recording is the one of which this is known.
fn is_known<D: SectorDevice>(
    recording: &mut Recording<D>,
    known: &Known,
) -> Result<bool, RecordingFault>
    requires whole { is_broken recording.old ≡ false }
    requires counted { (D.disk (device_of recording.old)).honest →
        count_of recording.old ≡ length (inputs (entries (D.disk (device_of recording.old)).sectors)) }
    ensures same { IfOk result (λ same. (D.disk (device_of recording.old)).honest →
        IsTrue same ↔ IsKnown known.now (inputs (entries (D.disk (device_of recording.old)).sectors))) }
    ensures whole { IfOk result (λ _. is_broken recording.new ≡ false) }
    ensures looked { (D.disk (device_of recording.old)).honest →
        HasLooked (D.disk (device_of recording.old)) (D.disk (device_of recording.new)) }
    ensures cause { IfErr result (λ why. why ≡ RecordingFault.Device) }
    ensures answered { HasAnswered faults_after (D.disk (device_of recording.old)) (D.disk (device_of recording.new))
        result }
{
    if recording.input_count() < known.count {
        return Ok(false);
    }
    match digest(recording, known.count) {
        Ok(found) => Ok(found.as_slice() == known.digest.as_slice()),
        Err(why) => Err(why),
    }
}

/// Looks whether the recording is the one that is known, and what is to be known of it.
fn compared<D: SectorDevice>(
    recording: &mut Recording<D>,
    known: Option<Known>,
    count: u64,
) -> Result<Known, MarkFault>
    requires whole { is_broken recording.old ≡ false }
    requires counted { (D.disk (device_of recording.old)).honest →
        count_of recording.old ≡ length (inputs (entries (D.disk (device_of recording.old)).sectors)) }
    ensures count { IfOk result (λ now. now.count ≡ count) }
    ensures digest { IfOk result (λ now. (D.disk (device_of recording.old)).honest →
        now.digest ≡ digest_of count (inputs (entries (D.disk (device_of recording.old)).sectors))) }
    ensures same { IfOk result (λ now. (D.disk (device_of recording.old)).honest →
        IfSome known (λ known. IsKnown known (inputs (entries (D.disk (device_of recording.old)).sectors)))) }
    ensures other { IfErr result (λ why. why ≡ MarkFault.Other → (D.disk (device_of recording.old)).honest →
        IsOther known (inputs (entries (D.disk (device_of recording.old)).sectors))) }
    ensures looked { (D.disk (device_of recording.old)).honest →
        HasLooked (D.disk (device_of recording.old)) (D.disk (device_of recording.new)) }
    ensures cause { IfErr result (λ why. IsReadCause why) }
    ensures answered { HasAnswered mark_faults_after (D.disk (device_of recording.old))
        (D.disk (device_of recording.new)) result }
{
    if let Some(known) = known {
        match is_known(recording, &known) {
            Ok(true) => {}
            Ok(false) => return Err(MarkFault::Other),
            Err(why) => return Err(MarkFault::Recording(why)),
        }
    }
    match digest(recording, count) {
        Ok(digest) => Ok(Known { count, digest }),
        Err(why) => Err(MarkFault::Recording(why)),
    }
}

/// Looks whether the recording on a device, of the ROM with this SHA-256, is the one of which this is known, and what is to be known of it
/// where its game has `count` inputs. Nothing is written.
///
/// Refusals, in this order: those of opening the recording (`Recording`); `Recording(Device)` while reading it; `Other`, if it has fewer
/// inputs than are known, or others.
pub fn known_of<D: SectorDevice>(
    alloc: Global,
    device: D,
    id: [u8; 32],
    known: Option<Known>,
    count: u64,
) -> Looked<D>
    ensures count { IfOk result.answer (λ now. now.count ≡ count) }
    ensures digest { IfOk result.answer (λ now. (D.disk device).honest →
        now.digest ≡ digest_of count (inputs (entries (D.disk device).sectors))) }
    ensures same { IfOk result.answer (λ now. (D.disk device).honest →
        IfSome known (λ known. IsKnown known (inputs (entries (D.disk device).sectors)))) }
    ensures other { IfErr result.answer (λ why. why ≡ MarkFault.Other → (D.disk device).honest →
        IsOther known (inputs (entries (D.disk device).sectors))) }
    ensures cause { IfErr result.answer (λ why. IsMarkCause why id (D.disk device)) }
    ensures looked { (D.disk device).honest → HasLooked (D.disk device) (D.disk result.device) }
    ensures answered { HasAnswered mark_faults_after (D.disk device) (D.disk result.device) result.answer }
{
    match open_recording(alloc, device, id) {
        Ok(recording) => {
            let mut recording = recording;
            let answer = compared(&mut recording, known, count);
            Looked {
                answer,
                device: recording.into_device(),
            }
        }
        Err(refused) => Looked {
            answer: Err(MarkFault::Recording(refused.why)),
            device: refused.device,
        },
    }
}
