//! What is on a device.
ghost use Rattle.std.specs.Prelude.{◌≡◌, ◌≤◌, ◌<◌, ◌+◌, ◌*◌, ◌/◌, ◌%◌, ◌^◌, ◌++◌, [], length, take, drop, IfOk, vec_capacity, Bool, if◌then◌else◌, Option, Some, None};
ghost use Rattle.sector_device.specs.DiskState.{HasCalled, Settled};
ghost use Rattle.log_format.specs.Log.{log_from};
ghost use Rattle.std.specs.List.{flat_map};
ghost use Rattle.log_format.specs.Content.{root_at, newer, chosen, content};
ghost use Rattle.log_format.specs.Found.{blob_in};
ghost use Rattle.sector_device.specs.Looking.{LooksOnly};
ghost use Rattle.sector_log.specs.Reading.{IsFound};
ghost use Rattle.log_format.specs.Sizes.{log_sectors_per_area, most_entries_read};

use crate::StoredEntry;
use crate::writes::sync_once;
use log_format::{
    LOG_SECTORS_PER_AREA, Root, Version, area_length, newer, parse_root, read_entries,
};
use sector_device::{DeviceFault, SectorDevice};

fn read_root<D: SectorDevice>(device: &mut D, slot: u64) -> Result<Option<Root>, DeviceFault>
    requires { slot < length (D.disk device.old).sectors }
    ensures called { HasCalled (D.disk device.old) (D.disk device.new) result }
    ensures looked { (D.disk device.old).honest → LooksOnly (D.disk device.old) (D.disk device.new) }
    ensures root { IfOk result (λ root. (D.disk device.old).honest → root ≡ root_at slot (D.disk device.old).sectors) }
{
    let mut sector = [0; 512];
    device.read(slot, &mut sector)?;
    Ok(parse_root(slot, &sector))
}

/// The root with the greater generation.
fn read_chosen<D: SectorDevice>(device: &mut D) -> Result<Option<Root>, DeviceFault>
    requires { 2 ≤ length (D.disk device.old).sectors }
    ensures called { HasCalled (D.disk device.old) (D.disk device.new) result }
    ensures looked { (D.disk device.old).honest → LooksOnly (D.disk device.old) (D.disk device.new) }
    ensures root { IfOk result (λ root. (D.disk device.old).honest →
        root ≡ newer (root_at 0 (D.disk device.old).sectors) (root_at 1 (D.disk device.old).sectors)) }
{
    let zeroth = read_root(device, 0)?;
    let first = read_root(device, 1)?;
    Ok(newer(zeroth, first))
}

/// Reads the log of an area, one sector per turn.
fn read_log<D: SectorDevice>(
    device: &mut D,
    start: u64,
    version: Version,
    log: &mut Vec<StoredEntry>,
) -> Result<(), DeviceFault>
    requires room { start + log_sectors_per_area ≤ length (D.disk device.old).sectors }
    requires range { start + log_sectors_per_area < 2 ^ 64 }
    requires empty { log.old.items ≡ [] }
    requires reserved { most_entries_read ≤ vec_capacity log.old }
    ensures called { HasCalled (D.disk device.old) (D.disk device.new) result }
    ensures looked { (D.disk device.old).honest → LooksOnly (D.disk device.old) (D.disk device.new) }
    ensures capacity { vec_capacity log.old ≤ vec_capacity log.new }
    ensures few { length log.new.items ≤ most_entries_read }
    ensures log { IfOk result (λ _. (D.disk device.old).honest →
        log_from version 0 (take log_sectors_per_area (drop start (D.disk device.old).sectors)) ≡ log.new.items) }
{
    let mut sector = [0; 512];
    for index in 0..LOG_SECTORS_PER_AREA as u16 {
        device.read(start + index as u64, &mut sector)?;
        if !read_entries(log, version, index, &sector) {
            return Ok(());
        }
    }
    Ok(())
}

/// The first sector of the area of a generation, where each has `area` sectors.
fn area_start(generation: u64, area: u64) -> u64
    requires { 2 + area < 2 ^ 64 }
    ensures is { result ≡ 2 + generation % 2 * area }
    ensures within { result ≤ 2 + area }
{
    2 + generation % 2 * area
}

/// What was found: the chosen root, and whether the area is too small for its blob.
#[derive(Clone, Copy)]
pub(crate) struct Finding {
    pub(crate) root: Option<Root>,
    pub(crate) too_small: bool,
}

/// Syncs, and reads the chosen root and its log. It writes nothing.
pub(crate) fn read_chosen_log<D: SectorDevice>(
    device: &mut D,
    log: &mut Vec<StoredEntry>,
) -> Result<Finding, DeviceFault>
    requires empty { log.old.items ≡ [] }
    requires reserved { most_entries_read ≤ vec_capacity log.old }
    ensures called { HasCalled (D.disk device.old) (D.disk device.new) result }
    ensures looked { (D.disk device.old).honest → LooksOnly (D.disk device.old) (D.disk device.new) }
    ensures capacity { vec_capacity log.old ≤ vec_capacity log.new }
    ensures few { length log.new.items ≤ most_entries_read }
    ensures found { IfOk result (λ found.
        (D.disk device.old).honest → IsFound (D.disk device.new) found.root found.too_small log.new.items) }
{
    sync_once(device)?;
    let count = device.count();
    if count < 2 {
        return Ok(Finding {
            root: None,
            too_small: false,
        });
    }
    let chosen = read_chosen(device)?;
    let Some(root) = chosen else {
        return Ok(Finding {
            root: None,
            too_small: false,
        });
    };
    let area = area_length(count);
    if area < LOG_SECTORS_PER_AREA + (root.blob_length as u64 + 511) / 512 {
        return Ok(Finding {
            root: Some(root),
            too_small: true,
        });
    }
    let start = area_start(root.generation, area);
    read_log(device, start, root.version, log)?;
    Ok(Finding {
        root: Some(root),
        too_small: false,
    })
}

/// Puts bytes into reserved room.
fn push_bytes(blob: &mut Vec<u8>, bytes: &[u8])
    requires { length blob.old.items + length bytes.now ≤ vec_capacity blob.old }
    ensures items { blob.new.items ≡ blob.old.items ++ bytes.now }
    ensures capacity { vec_capacity blob.old ≤ vec_capacity blob.new }
{
    for byte in bytes {
        blob.push_reserved(*byte);
    }
}

/// Reads a blob of `size` bytes from the `room` sectors at `start`, one sector per turn.
fn read_blob<D: SectorDevice>(
    device: &mut D,
    start: u64,
    room: u64,
    size: u64,
    blob: &mut Vec<u8>,
) -> Result<(), DeviceFault>
    requires room { start + room ≤ length (D.disk device.old).sectors }
    requires range { length (D.disk device.old).sectors < 2 ^ 64 }
    requires size { (size + 511) / 512 ≤ room }
    requires small { size < 2 ^ 32 }
    requires empty { blob.old.items ≡ [] }
    requires reserved { size ≤ vec_capacity blob.old }
    ensures called { HasCalled (D.disk device.old) (D.disk device.new) result }
    ensures looked { (D.disk device.old).honest → LooksOnly (D.disk device.old) (D.disk device.new) }
    ensures blob { IfOk result (λ _. (D.disk device.old).honest →
        take size (flat_map (λ s. s) (take room (drop start (D.disk device.old).sectors))) ≡ blob.new.items) }
{
    let mut sector = [0; 512];
    for index in 0..(size + 511) / 512 {
        device.read(start + index, &mut sector)?;
        let part = (size - 512 * index).min(512) as usize;
        push_bytes(blob, &sector[..part]);
    }
    Ok(())
}

/// Reads the blob of the chosen root, if it fits its area and is no longer than `most`, and answers
/// whether it was read.
pub(crate) fn read_chosen_blob<D: SectorDevice>(
    device: &mut D,
    found: Option<Root>,
    most: usize,
    blob: &mut Vec<u8>,
) -> Result<bool, DeviceFault>
    requires empty { blob.old.items ≡ [] }
    requires reserved { most ≤ vec_capacity blob.old }
    ensures called { HasCalled (D.disk device.old) (D.disk device.new) result }
    ensures looked { (D.disk device.old).honest → LooksOnly (D.disk device.old) (D.disk device.new) }
    ensures blob { IfOk result (λ read. (D.disk device.old).honest → chosen (D.disk device.old).sectors ≡ found →
        blob_in most (content (D.disk device.old).sectors) ≡ (if read then Some blob.new.items else None)) }
{
    let Some(root) = found else {
        return Ok(false);
    };
    let size = root.blob_length as u64;
    if size > most as u64 {
        return Ok(false);
    }
    let count = device.count();
    if count < 2 {
        return Ok(false);
    }
    let area = area_length(count);
    if area < LOG_SECTORS_PER_AREA + (size + 511) / 512 {
        return Ok(false);
    }
    let start = area_start(root.generation, area) + LOG_SECTORS_PER_AREA;
    read_blob(device, start, area - LOG_SECTORS_PER_AREA, size, blob)?;
    Ok(true)
}
