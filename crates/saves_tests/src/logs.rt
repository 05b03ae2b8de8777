//! Logs and generations: their bytes, their refusals, and what a cut leaves.
use crate::asserting::{OrStop, holds, same};
use sector_device::{MemoryDevice, Refused, SectorDevice};
use sector_log::{Entry, Found, LogFault, Opened, Store, are_inputs, open_log};
use std::alloc::Global;
use std::process::Abort;
use std::test::Fail;

fn frame(buttons: u8) -> Entry {
    Entry {
        code: [0, buttons, 0, 0, 0],
    }
}

fn seconds(count: u8) -> Entry {
    Entry {
        code: [1, count, 0, 0, 0],
    }
}

/// Frames with no button and with button 0 pressed, in turn.
fn alternating(i: u32) -> Entry {
    if i % 2 == 0 { frame(0) } else { frame(1) }
}

/// A log of the first generation on a device of 70 sectors with room for 8,000 calls; its area begins at sector 36.
fn begun(rt: &impl Abort, alloc: Global) -> Store<MemoryDevice> {
    let Ok(device) = MemoryDevice::new(alloc, 70, 8000) else {
        panic!(rt; "memory");
    };
    let opened = opened(rt, alloc, device);
    same!(rt; opened.found(), Found::Nothing);
    same!(rt; opened.generation(), 0);
    holds!(rt; opened.entries().is_empty());
    holds!(rt; opened.blob().is_none());
    must_begin(rt, opened, 5, b"blob")
}

fn opened(rt: &impl Abort, alloc: Global, device: MemoryDevice) -> Opened<MemoryDevice> {
    let Ok(opened) = open_log(alloc, device, 40_000) else {
        panic!(rt; "not opened");
    };
    opened
}

fn begin(
    rt: &impl Abort,
    opened: Opened<MemoryDevice>,
    base: u64,
    blob: &[u8],
) -> Result<Store<MemoryDevice>, Refused<LogFault, MemoryDevice>> {
    assert!(rt; blob.len() < 1_000_000);
    opened.begin([7; 32], base, blob)
}

fn must_begin(
    rt: &impl Abort,
    opened: Opened<MemoryDevice>,
    base: u64,
    blob: &[u8],
) -> Store<MemoryDevice> {
    let Ok(store) = begin(rt, opened, base, blob) else {
        panic!(rt; "not begun");
    };
    store
}

/// Why a generation was not begun, and the calls of the device that came back.
fn refusal(
    rt: &impl Abort,
    opened: Opened<MemoryDevice>,
    base: u64,
    blob: &[u8],
) -> (LogFault, usize) {
    match begin(rt, opened, base, blob) {
        Ok(_) => panic!(rt; "begun"),
        Err(refused) => (refused.why, refused.device.calls()),
    }
}

fn sector(rt: &impl Abort, device: &mut MemoryDevice, at: u64) -> [u8; 512] {
    let mut bytes = [9; 512];
    assert!(rt; at < device.count());
    holds!(rt; device.read(at, &mut bytes).is_ok());
    bytes
}

fn put(rt: &impl Abort, device: &mut MemoryDevice, at: u64, from: usize, bytes: &[u8]) {
    let mut whole = sector(rt, device, at);
    assert!(rt; from < 512);
    for (i, byte) in whole[from..].iter_mut().zip(bytes) {
        *i = *byte;
    }
    assert!(rt; at < device.count());
    holds!(rt; device.write(at, &whole).is_ok());
}

/// How many inputs the log of a device stands for.
fn inputs(rt: &impl Abort, alloc: Global, device: MemoryDevice) -> u32 {
    let opened = opened(rt, alloc, device);
    let mut count = 0;
    for entry in opened.entries() {
        let code = entry.code;
        if code[0] == 0 {
            count = u32::from_le_bytes([code[2], code[3], code[4], code[5]]).saturating_add(count);
        } else {
            count = count.saturating_add(1);
        }
    }
    count
}

fn append(rt: &impl Abort, store: &mut Store<MemoryDevice>, more: &[Entry]) {
    assert!(rt; are_inputs(more));
    assert!(rt; store.fits(more));
    same!(rt; store.append(more), Ok(()));
}

/// An append that is refused.
fn refused(rt: &impl Abort, store: &mut Store<MemoryDevice>, more: &[Entry]) -> LogFault {
    assert!(rt; are_inputs(more));
    match store.append(more) {
        Ok(()) => panic!(rt; "appended"),
        Err(why) => why,
    }
}

fn alternating_from(alloc: Global, from: u32, to: u32) -> Result<Vec<Entry>, Fail> {
    let mut more = Vec::new(alloc);
    for i in from..to {
        more.push(alternating(i))?;
    }
    Ok(more)
}

fn append_alternating(
    rt: &impl Abort,
    alloc: Global,
    store: &mut Store<MemoryDevice>,
    from: u32,
    to: u32,
) {
    append(rt, store, &alternating_from(alloc, from, to).or_stop(rt));
}

#[test]
fn a_log_is_full_at_2688_entries(rt: HostRuntime) {
    let mut store = begun(&rt, rt.alloc());
    append_alternating(&rt, rt.alloc(), &mut store, 0, 2688);
    same!(rt; refused(&rt, &mut store, &[seconds(1)]), LogFault::LogFull);
    // The last sector is full, so its last run is not lengthened either.
    same!(rt;
        refused(&rt, &mut store, &[alternating(2687)]),
        LogFault::LogFull
    );
    append(&rt, &mut store, &[]);
    let device = store.into_device();
    // A sync; 32 log sectors, one of the blob, a sync, the root, a sync; 32 log sectors and a sync.
    same!(rt; device.calls(), 70);
    same!(rt; inputs(&rt, rt.alloc(), device), 2688);
}

/// The device of a log of 40 inputs, whose sync of 80 more in two sectors has failed.
fn cut(rt: &impl Abort, alloc: Global) -> MemoryDevice {
    let mut device = MemoryDevice::new(alloc, 70, 100).or_stop(rt);
    // Opening takes three calls, beginning 36, the first append two, the second two writes and this sync.
    device.fail_at(44, false);
    let mut store = must_begin(rt, opened(rt, alloc, device), 5, b"blob");
    append_alternating(rt, alloc, &mut store, 0, 40);
    let more = alternating_from(alloc, 40, 120).or_stop(rt);
    same!(rt; refused(rt, &mut store, &more), LogFault::Device);
    same!(rt; refused(rt, &mut store, &more), LogFault::Broken);
    same!(rt; store.replace(5, b"blob"), Err(LogFault::Broken));
    store.into_device()
}

/// A root in its slot: its version, generation, the id 7.., this base and a blob of this length.
fn put_root(
    rt: &impl Abort,
    device: &mut MemoryDevice,
    version: u8,
    generation: u64,
    base: u64,
    blob_length: u32,
) {
    let slot = generation % 2;
    put(rt, device, slot, 0, b"GBKPROOT");
    put(rt, device, slot, 8, &[version, 0, 0, 0]);
    put(rt, device, slot, 12, &generation.to_le_bytes());
    put(rt, device, slot, 20, &[7; 32]);
    put(rt, device, slot, 52, &base.to_le_bytes());
    put(rt, device, slot, 60, &blob_length.to_le_bytes());
}

#[test]
fn generations_are_used_up(rt: HostRuntime) {
    let mut device = MemoryDevice::new(rt.alloc(), 70, 100).or_stop(&rt);
    put_root(&rt, &mut device, 2, u64::MAX, 5, 4);
    same!(rt; device.calls(), 6);
    let opened = opened(&rt, rt.alloc(), device);
    same!(rt; opened.generation(), u64::MAX);
    // One sync was made, and nothing was written.
    same!(rt; refusal(&rt, opened, 5, b"blob"), (LogFault::GenerationsUsedUp, 7));
}

#[test]
fn a_failed_read_is_a_device_fault(rt: HostRuntime) {
    for call in 1..4 {
        let mut device = MemoryDevice::new(rt.alloc(), 70, 9).or_stop(&rt);
        device.fail_at(call, false);
        match open_log(rt.alloc(), device, 16) {
            Ok(_) => panic!(rt; "opened"),
            Err(refused) => same!(rt; refused.why, LogFault::Device),
        }
    }
}
