//! Devices in memory and in files.
use crate::asserting::{OrStop, holds, same};
use sector_device::{DeviceFault, FileDevice, MemoryDevice, SectorDevice};
use std::fs::{self, File, OpenOptions};
use std::path::Path;
use std::process::Abort;
use std::rt::Files;

/// The byte of a sector of which all bytes are the same.
fn byte_at<D: SectorDevice>(rt: &impl Abort, device: &mut D, at: u64) -> Result<u8, DeviceFault> {
    assert!(rt; at < device.count());
    let mut sector = [9; 512];
    device.read(at, &mut sector)?;
    holds!(rt; sector.iter().all(|byte| *byte == sector[0]));
    Ok(sector[0])
}

/// Such bytes of a device of three sectors.
fn three<D: SectorDevice>(rt: &impl Abort, device: &mut D) -> Result<[u8; 3], DeviceFault> {
    same!(rt; device.count(), 3);
    Ok([
        byte_at(rt, device, 0)?,
        byte_at(rt, device, 1)?,
        byte_at(rt, device, 2)?,
    ])
}

/// Writes a sector of one byte.
fn put<D: SectorDevice>(
    rt: &impl Abort,
    device: &mut D,
    at: u64,
    byte: u8,
) -> Result<(), DeviceFault> {
    assert!(rt; at < device.count());
    device.write(at, &[byte; 512])
}

/// Three sectors are of these bytes.
fn has<D: SectorDevice>(rt: &impl Abort, device: &mut D, want: [u8; 3]) {
    same!(rt; three(rt, device).or_stop(rt), want);
}

/// Writes a sector of one byte, which has to succeed.
fn write<D: SectorDevice>(rt: &impl Abort, device: &mut D, at: u64, byte: u8) {
    put(rt, device, at, byte).or_stop(rt);
}

fn sync<D: SectorDevice>(rt: &impl Abort, device: &mut D) {
    device.sync().or_stop(rt);
}

/// A write and a sync fail.
fn fails<D: SectorDevice>(rt: &impl Abort, device: &mut D, at: u64) {
    same!(rt; put(rt, device, at, 2), Err(DeviceFault::Device));
    same!(rt; device.sync(), Err(DeviceFault::Device));
}

#[test]
fn images_keep_the_chosen_writes(rt: HostRuntime) {
    let mut device = MemoryDevice::new(rt.alloc(), 3, 4).or_stop(&rt);
    has(&rt, &mut device, [0, 0, 0]);
    write(&rt, &mut device, 0, 1);
    sync(&rt, &mut device);
    write(&rt, &mut device, 1, 2);
    write(&rt, &mut device, 2, 3);
    same!(rt; device.calls(), 4);
    for (kept, want) in [
        ([true].as_slice(), [1, 2, 0]),
        ([false, true, true].as_slice(), [1, 0, 3]),
        ([].as_slice(), [1, 0, 0]),
        ([true, true].as_slice(), [1, 2, 3]),
    ] {
        let mut image = device.image(rt.alloc(), kept).or_stop(&rt);
        has(&rt, &mut image, want);
        same!(rt; image.calls(), 0);
        same!(rt; image.asked(), 3);
        holds!(rt; !image.blown());
    }
    has(&rt, &mut device, [1, 2, 3]);
}

#[test]
fn a_full_record_fails_the_call(rt: HostRuntime) {
    let mut device = MemoryDevice::new(rt.alloc(), 3, 2).or_stop(&rt);
    write(&rt, &mut device, 0, 1);
    sync(&rt, &mut device);
    same!(rt; device.calls(), 2);
    fails(&rt, &mut device, 0);
    same!(rt; device.calls(), 2);
    has(&rt, &mut device, [1, 0, 0]);
}

#[test]
fn a_fuse_fails_every_later_call(rt: HostRuntime) {
    let mut device = MemoryDevice::new(rt.alloc(), 3, 9).or_stop(&rt);
    device.fuse(2);
    write(&rt, &mut device, 0, 1);
    sync(&rt, &mut device);
    holds!(rt; !device.blown());
    fails(&rt, &mut device, 1);
    holds!(rt; device.blown());
    same!(rt; device.calls(), 4);
    same!(rt; device.asked(), 4);
    // the write that failed may have reached the medium
    let mut image = device.image(rt.alloc(), &[true]).or_stop(&rt);
    has(&rt, &mut image, [1, 2, 0]);
    device.fuse(9);
    has(&rt, &mut device, [1, 0, 0]);
    same!(rt; device.asked(), 7);
}

/// The second of three calls fails, and its write is kept or not.
fn second_call_fails(rt: &impl Abort, device: &mut MemoryDevice, kept: bool, want: [u8; 3]) {
    device.fail_at(2, kept);
    sync(rt, device);
    same!(rt; put(rt, device, 1, 2), Err(DeviceFault::Device));
    has(rt, device, want);
    holds!(rt; !device.blown());
    same!(rt; device.calls(), 2);
}

#[test]
fn one_call_fails(rt: HostRuntime) {
    for (kept, want) in [(false, [0, 0, 0]), (true, [0, 2, 0])] {
        let mut device = MemoryDevice::new(rt.alloc(), 3, 9).or_stop(&rt);
        second_call_fails(&rt, &mut device, kept, want);
    }
}

#[test]
fn a_call_behind_a_fuse_is_not_kept(rt: HostRuntime) {
    let mut device = MemoryDevice::new(rt.alloc(), 3, 9).or_stop(&rt);
    device.fuse(0);
    device.fail_at(1, true);
    same!(rt; put(&rt, &mut device, 1, 2), Err(DeviceFault::Device));
    device.fuse(9);
    has(&rt, &mut device, [0, 0, 0]);
}

/// A file that stands is not made anew, and keeps its length.
fn is_not_made_anew<R: Files<File = File> + AllocGlobal + Abort>(rt: &R, path: &str) {
    same!(rt; FileDevice::create(rt, Path::new(path), 3).err(), Some(DeviceFault::Device));
    same!(rt; fs::metadata(rt, path).or_stop(rt).len(), 1536);
}

#[test]
fn a_file_keeps_sectors(rt: HostRuntime) {
    let path = "kept.save";
    let mut device = FileDevice::create(&rt, Path::new(path), 3).or_stop(&rt);
    has(&rt, &mut device, [0, 0, 0]);
    write(&rt, &mut device, 1, 7);
    sync(&rt, &mut device);
    has(&rt, &mut device, [0, 7, 0]);
    drop(device);
    let mut again = FileDevice::attach(&rt, Path::new(path)).or_stop(&rt);
    has(&rt, &mut again, [0, 7, 0]);
    drop(again);
    is_not_made_anew(&rt, path);
    fs::remove_file(&rt, path).or_stop(&rt);
    same!(rt; FileDevice::attach(&rt, Path::new(path)).err(), Some(DeviceFault::Device));
}

fn is_held<R: Files<File = File> + AllocGlobal + Abort>(rt: &R, path: &str) {
    same!(rt; FileDevice::attach(rt, Path::new(path)).err(), Some(DeviceFault::Device));
}

#[test]
fn a_file_that_another_device_holds_is_refused(rt: HostRuntime) {
    let path = "held.save";
    let mut device = FileDevice::create(&rt, Path::new(path), 3).or_stop(&rt);
    is_held(&rt, path);
    write(&rt, &mut device, 1, 7);
    sync(&rt, &mut device);
    drop(device);
    let mut device = FileDevice::attach(&rt, Path::new(path)).or_stop(&rt);
    is_held(&rt, path);
    has(&rt, &mut device, [0, 7, 0]);
    fs::remove_file(&rt, path).or_stop(&rt);
}

#[test]
fn a_file_of_other_size_is_refused(rt: HostRuntime) {
    let path = "odd.save";
    fs::write(&rt, path, [0u8; 1000].as_slice()).or_stop(&rt);
    match FileDevice::attach(&rt, Path::new(path)) {
        Ok(_) => holds!(rt; false, "attached to 1000 bytes"),
        Err(fault) => same!(rt; fault, DeviceFault::SizeNotSectors(1000)),
    }
    fs::remove_file(&rt, path).or_stop(&rt);
}

#[test]
fn a_file_of_too_many_sectors_is_refused(rt: HostRuntime) {
    let path = "many.save";
    fs::write(&rt, path, "").or_stop(&rt);
    let file = OpenOptions::new().write(true).open(&rt, path).or_stop(&rt);
    file.set_len(512 * 65_537).or_stop(&rt);
    same!(rt;
        FileDevice::attach(&rt, Path::new(path)).err(),
        Some(DeviceFault::SizeNotSectors(512 * 65_537))
    );
    fs::remove_file(&rt, path).or_stop(&rt);
}

#[test]
fn a_file_that_is_there_is_not_taken(rt: HostRuntime) {
    let path = "empty.save";
    fs::write(&rt, path, "").or_stop(&rt);
    same!(rt;
        FileDevice::create(&rt, Path::new(path), 3).err(),
        Some(DeviceFault::Device)
    );
    same!(rt; fs::metadata(&rt, path).or_stop(&rt).len(), 0);
    fs::remove_file(&rt, path).or_stop(&rt);
}

/// What is written to a file that no name leads to, or that was cut short, can't be found again: a sync of it is no sync.
#[test]
fn a_file_that_is_gone_keeps_nothing(rt: HostRuntime) {
    let path = "gone.save";
    let mut device = FileDevice::create(&rt, Path::new(path), 3).or_stop(&rt);
    put(&rt, &mut device, 1, 7).or_stop(&rt);
    device.sync().or_stop(&rt);
    fs::remove_file(&rt, path).or_stop(&rt);
    put(&rt, &mut device, 1, 8).or_stop(&rt);
    same!(rt; device.sync(), Err(DeviceFault::Device));
    same!(rt; device.sync(), Err(DeviceFault::Device));
    drop(device);
    let mut device = FileDevice::create(&rt, Path::new(path), 3).or_stop(&rt);
    let other = OpenOptions::new().write(true).open(&rt, path).or_stop(&rt);
    other.set_len(700).or_stop(&rt);
    put(&rt, &mut device, 0, 7).or_stop(&rt);
    same!(rt; device.sync(), Err(DeviceFault::Device));
    fs::remove_file(&rt, path).or_stop(&rt);
}

/// The file is made before its length is set, and taken away when that fails.
#[test]
fn a_length_that_is_too_great_leaves_no_file(rt: HostRuntime) {
    let path = "great.save";
    match FileDevice::create(&rt, Path::new(path), u64::MAX) {
        Ok(_) => holds!(rt; false, "made"),
        Err(fault) => same!(rt; fault, DeviceFault::Device),
    }
    holds!(rt; fs::metadata(&rt, path).is_err());
}

fn cut_short<R: Files<File = File> + AllocGlobal + Abort>(rt: &R, path: &str) {
    let other = OpenOptions::new().write(true).open(rt, path).or_stop(rt);
    other.set_len(700).or_stop(rt);
}

/// A sector of this byte can be read; None: it can't.
fn reads<D: SectorDevice>(rt: &impl Abort, device: &mut D, at: u64, want: Option<u8>) {
    same!(rt; byte_at(rt, device, at).ok(), want);
}

#[test]
fn a_changed_file_gives_a_fault(rt: HostRuntime) {
    let path = "changed.save";
    let mut device = FileDevice::create(&rt, Path::new(path), 3).or_stop(&rt);
    has(&rt, &mut device, [0, 0, 0]);
    cut_short(&rt, path);
    reads(&rt, &mut device, 0, Some(0));
    reads(&rt, &mut device, 1, None);
    reads(&rt, &mut device, 2, None);
    fs::write(&rt, path, [5u8; 1536].as_slice()).or_stop(&rt);
    reads(&rt, &mut device, 0, None);
    write(&rt, &mut device, 0, 6);
    reads(&rt, &mut device, 0, Some(6));
    fs::remove_file(&rt, path).or_stop(&rt);
}
