//! Recordings: their bytes, their refusals, and what a cut leaves.
use crate::asserting::{OrStop, holds, same};
use input_entries::{Entry, are_inputs};
use recording::{Recording, RecordingFault, create_recording, open_recording};
use sector_device::{MemoryDevice, SectorDevice};
use std::alloc::Global;
use std::process::Abort;
use std::test::Fail;

const ID: [u8; 32] = [7; 32];

/// Frames with no button and with button 0 pressed, in turn.
fn alternating(i: u32) -> Entry {
    if i % 2 == 0 {
        Entry::frame(0)
    } else {
        Entry::frame(1)
    }
}

fn alternating_from(alloc: Global, from: u32, to: u32) -> Result<Vec<Entry>, Fail> {
    let mut more = Vec::new(alloc);
    for i in from..to {
        more.push(alternating(i))?;
    }
    Ok(more)
}

fn created(rt: &impl Abort, alloc: Global, sectors: usize) -> Recording<MemoryDevice> {
    let device = MemoryDevice::new(alloc, sectors, 10_000).or_stop(rt);
    let Ok(recording) = create_recording(alloc, device, ID) else {
        panic!(rt; "not created");
    };
    recording
}

fn opened(rt: &impl Abort, alloc: Global, device: MemoryDevice) -> Recording<MemoryDevice> {
    let Ok(recording) = open_recording(alloc, device, ID) else {
        panic!(rt; "not opened");
    };
    recording
}

/// What the append answers.
fn append(
    rt: &impl Abort,
    recording: &mut Recording<MemoryDevice>,
    more: &[Entry],
) -> Result<(), RecordingFault> {
    assert!(rt; are_inputs(more));
    recording.append(more)
}

fn append_alternating(
    rt: &impl Abort,
    alloc: Global,
    recording: &mut Recording<MemoryDevice>,
    from: u32,
    to: u32,
) {
    let more = alternating_from(alloc, from, to).or_stop(rt);
    same!(rt; append(rt, recording, &more), Ok(()));
}

fn sectors_used(rt: &impl Abort, recording: &Recording<MemoryDevice>) -> u64 {
    assert!(rt; !recording.is_broken());
    recording.sectors_used()
}

fn sectors_left(rt: &impl Abort, recording: &Recording<MemoryDevice>) -> u64 {
    assert!(rt; !recording.is_broken());
    recording.sectors_left()
}

fn read_sector(rt: &impl Abort, recording: &mut Recording<MemoryDevice>, number: u64) {
    assert!(rt; !recording.is_broken());
    assert!(rt; number >= 1 && number <= recording.sectors_used());
    same!(rt; recording.read_sector(number), Ok(()));
}

/// The recording holds the first so many of the frames in turn, each as a run of its own.
fn holds_alternating(rt: &impl Abort, recording: &mut Recording<MemoryDevice>) -> u32 {
    let mut count: u32 = 0;
    for number in 0..sectors_used(rt, recording) {
        read_sector(rt, recording, number.saturating_add(1));
        for entry in recording.entries() {
            same!(rt; entry.code, [0, (count % 2) as u8, 1, 0, 0, 0]);
            count = count.saturating_add(1);
        }
    }
    same!(rt; recording.input_count(), count as u64);
    count
}

fn sector(rt: &impl Abort, device: &mut MemoryDevice, at: u64) -> [u8; 512] {
    let mut bytes = [9; 512];
    assert!(rt; at < device.count());
    holds!(rt; device.read(at, &mut bytes).is_ok());
    bytes
}

/// The sector has these bytes, and zeros after them.
fn has_bytes(rt: &impl Abort, device: &mut MemoryDevice, at: u64, want: &[u8]) {
    let bytes = sector(rt, device, at);
    holds!(rt; bytes.starts_with(want));
    for (i, byte) in bytes.iter().enumerate() {
        holds!(rt; i < want.len() || *byte == 0);
    }
}

#[test]
fn the_worked_example(rt: HostRuntime) {
    let mut recording = created(&rt, rt.alloc(), 4);
    let more = [Entry::frame(5), Entry::frame(5), Entry::seconds(259)];
    same!(rt; append(&rt, &mut recording, &more), Ok(()));
    same!(rt; append(&rt, &mut recording, &[Entry::frame(1)]), Ok(()));
    same!(rt; append(&rt, &mut recording, &[Entry::frame(1)]), Ok(()));
    same!(rt; recording.input_count(), 5);
    same!(rt; sectors_used(&rt, &recording), 1);
    same!(rt; sectors_left(&rt, &recording), 2);
    let mut device = recording.into_device();
    has_bytes(
        &rt,
        &mut device,
        0,
        b"GBKPRECD\x01\x00\x00\x00\x07\x07\x07\x07\x07\x07\x07\x07\x07\x07\x07\x07\x07\x07\x07\x07\x07\x07\x07\x07\x07\x07\x07\x07\x07\x07\x07\x07\x07\x07\x07\x07",
    );
    has_bytes(
        &rt,
        &mut device,
        1,
        b"GBR1\x01\x00\x00\x00\x03\x00\x00\x05\x02\x00\x00\x00\x01\x03\x01\x00\x00\x00\x00\x01\x02\x00\x00\x00",
    );
    has_bytes(&rt, &mut device, 2, b"");
}

#[test]
fn a_full_recording_is_refused(rt: HostRuntime) {
    let mut recording = created(&rt, rt.alloc(), 3);
    append_alternating(&rt, rt.alloc(), &mut recording, 0, 165);
    same!(rt; sectors_left(&rt, &recording), 0);
    let calls = recording.device().calls();
    let two = alternating_from(rt.alloc(), 165, 167).or_stop(&rt);
    same!(rt; append(&rt, &mut recording, &two), Err(RecordingFault::Full));
    same!(rt; recording.device().calls(), calls);
    append_alternating(&rt, rt.alloc(), &mut recording, 165, 166);
    // Its last run is not lengthened: the sector is full.
    same!(rt; append(&rt, &mut recording, &[alternating(165)]), Err(RecordingFault::Full));
    same!(rt; append(&rt, &mut recording, &[]), Ok(()));
    same!(rt; holds_alternating(&rt, &mut recording), 166);
    same!(rt; holds_alternating(&rt, &mut opened(&rt, rt.alloc(), recording.into_device())), 166);
}

#[test]
fn a_run_has_at_most_216000_frames(rt: HostRuntime) {
    let mut recording = created(&rt, rt.alloc(), 2);
    let more = Vec::from_elem(rt.alloc(), Entry::frame(9), 216_002).or_stop(&rt);
    same!(rt; append(&rt, &mut recording, &more), Ok(()));
    same!(rt; recording.input_count(), 216_002);
    read_sector(&rt, &mut recording, 1);
    same!(rt; recording.entries().len(), 2);
    same!(rt; recording.entries()[0].code, [0, 9, 0xc0, 0x4b, 3, 0]);
    same!(rt; recording.entries()[1].code, [0, 9, 2, 0, 0, 0]);
}

/// Why a recording is not created on this device, or not opened.
fn refusals(rt: &impl Abort, alloc: Global, device: MemoryDevice) -> [RecordingFault; 2] {
    let (first, device) = match create_recording(alloc, device, ID) {
        Ok(_) => panic!(rt; "created"),
        Err(refused) => (refused.why, refused.device),
    };
    match open_recording(alloc, device, ID) {
        Ok(_) => panic!(rt; "opened"),
        Err(refused) => [first, refused.why],
    }
}

fn write_sector(rt: &impl Abort, device: &mut MemoryDevice, at: u64, bytes: &[u8; 512]) {
    assert!(rt; at < device.count());
    holds!(rt; device.write(at, bytes).is_ok());
}

#[test]
fn what_is_no_recording(rt: HostRuntime) {
    let tiny = MemoryDevice::new(rt.alloc(), 1, 100).or_stop(&rt);
    same!(rt; refusals(&rt, rt.alloc(), tiny), [RecordingFault::TooSmall, RecordingFault::NoRecording]);
    let none = MemoryDevice::new(rt.alloc(), 0, 100).or_stop(&rt);
    same!(rt; refusals(&rt, rt.alloc(), none), [RecordingFault::TooSmall, RecordingFault::NoRecording]);
    let mut other = MemoryDevice::new(rt.alloc(), 3, 100).or_stop(&rt);
    write_sector(&rt, &mut other, 2, &[1; 512]);
    same!(rt; refusals(&rt, rt.alloc(), other), [RecordingFault::NotBlank, RecordingFault::NoRecording]);
    let mut foreign = created(&rt, rt.alloc(), 3).into_device();
    let mut head = sector(&rt, &mut foreign, 0);
    head[43] = 8;
    write_sector(&rt, &mut foreign, 0, &head);
    same!(rt; refusals(&rt, rt.alloc(), foreign), [RecordingFault::NotBlank, RecordingFault::OtherCartridge]);
}
