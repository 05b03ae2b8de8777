//! Sectors in a file.
ghost use Rattle.std.specs.Prelude.{◌≡◌, ◌+◌, ◌*◌, ◌^◌, ◌<◌, [], List, ℕ, IsTrue, length, replicate, slice_index, IfOk, IfErr, IfSome, OnOk};
ghost use Rattle.sector_device.specs.DiskState.{HasCalled, HasRead, HasWritten, HasSynced, sector_at, next_count};
ghost use Rattle.sector_device.specs.Records.{replayed, are_sectors, are_recordable};
ghost use Rattle.sector_device.specs.RecordLaws.{only_last, counts_last, reads_image, images_sized, reads_fit};

use crate::device::{DeviceFault, SectorDevice};
use crate::file_record::FileRecord;
use crate::replay::zero_sectors;
use std::alloc::Global;
use std::fs::{self, File, OpenOptions, TryLockError};
use std::io::{self, ErrorKind};
use std::os::unix::fs::{FileExt, MetadataExt};
use std::path::{AsPath, Path};
use std::rt::Files;

/// A file has at most this many sectors, 32 MiB.
const MOST_SECTORS: u64 = 65_536;

/// Sectors in a file. It keeps a copy of them in memory, with which each read is compared, so that a file that lost or
/// changed what was written gives a fault and no wrong answer. It takes every fault of the file, and running out of memory, as
/// `Device`.
///
/// It holds an exclusive lock on the file for its life, so that a second one on the same file, of this process or another, is refused
/// before anything is written. On a file system without locks there is none.
///
/// What is left of the file after a stop is no fact that a program can know. The device is honest by a premise: that the
/// file held, as it was opened, what the stop before had left of it, one of the images of that time.
#[derive(Drop)]
pub struct FileDevice {
    file: File,
    /// What reads give.
    sectors: Vec<[u8; 512]>,
    /// A sync has failed. What was written may then be lost although a later sync succeeds, so that none does.
    unsure: bool,
    faults: u64,
    history: FileRecord,
    ghost replays: { sectors.items ≡ (replayed history.found history.calls).reads },
    ghost same_count: { length sectors.items ≡ length history.found },
    ghost few: { length history.found < 2 ^ 64 },
    ghost fits: { 512 * length history.found < 2 ^ 64 },
    ghost found_sized: { IsTrue (are_sectors history.found) },
    ghost faults_fit: { faults < 2 ^ 64 },
    ghost recordable: { IsTrue (are_recordable (length history.found) history.calls) },
}

impl FileDevice {
    ghost use Rattle.sector_device.specs.FileDevice.{file_disk, IsOpened, IsAttachFault};
    ghost use Rattle.sector_device.specs.FileRecord.{unasked, with_call};
    ghost use Rattle.sector_device.specs.declared.recorded.Recorded.TheVariants.{Write, Sync};

    /// Makes a file of zero sectors, and makes it and its folder's entry durable. Every sector is written, so that a file system that
    /// has no room for them all refuses the file and not a later write.
    ///
    /// Nothing may stand at the path. Any fault is `Device`, and then no file is left behind where that can be helped. `held` is what the
    /// file then holds, whatever the caller takes for it.
    pub fn create<R: Files<File = File> + AllocGlobal>(
        rt: &R,
        path: Path<'_>,
        sectors: u64,
    ) -> Result<FileDevice, DeviceFault>
        ghost held: { List (List ℕ) }
        ensures opened { IfOk result (IsOpened held) }
        ensures zero { IfOk result (λ d. (file_disk d).sectors ≡ replicate sectors (replicate 512 0)) }
        ensures fault { IfErr result (λ fault. fault ≡ DeviceFault.Device) }
    {
        let Ok(file) = claimed_file(rt, path.path_text()) else {
            return Err(DeviceFault::Device);
        };
        let Ok(zero) = filled_file(rt, &file, path.path_text(), sectors) else {
            // the file is still locked, so that what is taken away is this file
            let _ = fs::remove_file(rt, path.path_text());
            return Err(DeviceFault::Device);
        };
        Ok(FileDevice::opened(file, zero, FileRecord::new()))
    }

    /// Opens a file of whole sectors, 65,536 at most, syncs it and reads it. `held` is what the file then holds, whatever the caller takes for
    /// it: after a stop, one of the images of that time.
    pub fn attach<R: Files<File = File> + AllocGlobal>(
        rt: &R,
        path: Path<'_>,
    ) -> Result<FileDevice, DeviceFault>
        ghost held: { List (List ℕ) }
        ensures opened { IfOk result (IsOpened held) }
        ensures fault { IfErr result IsAttachFault }
    {
        let Ok((file, size)) = old_file(rt, path.path_text()) else {
            return Err(DeviceFault::Device);
        };
        if size % 512 != 0 {
            return Err(DeviceFault::SizeNotSectors(size));
        }
        if size > 512 * MOST_SECTORS {
            return Err(DeviceFault::SizeNotSectors(size));
        }
        match read_sectors(rt.alloc(), &file, (size / 512) as usize) {
            Some(sectors) => Ok(FileDevice::opened(file, sectors, FileRecord::new())),
            None => Err(DeviceFault::Device),
        }
    }

    /// A device over a file that holds these sectors as far as can be seen.
    fn opened(file: File, sectors: Vec<[u8; 512]>, history: FileRecord) -> FileDevice
        requires unasked { history ≡ unasked history.held }
        requires sized { IsTrue (are_sectors sectors.items) }
        requires fits { 512 * length sectors.items < 2 ^ 64 }
        ensures opened { IsOpened history.held result }
        ensures sectors { (file_disk result).sectors ≡ sectors.items }
    {
        let history = history.with_sectors(&sectors);
        FileDevice {
            file,
            sectors,
            unsure: false,
            faults: 0,
            history,
        }
    }

    /// The sector as the file gives it, if that is what was found or written there.
    fn read_sector(&self, at: u64, buffer: &mut [u8; 512]) -> bool
        requires { at < length self.now.history.found }
        ensures { IsTrue result →
            buffer.new ≡ sector_at (replayed self.now.history.found self.now.history.calls).reads at }
    {
        if self.file.read_exact_at(buffer, 512 * at).is_err() {
            return false;
        }
        *buffer == self.sectors[at as usize]
    }

    /// Writes the sector and notes it; answers whether the file took it whole.
    fn write_sector(&mut self, at: u64, bytes: &[u8; 512]) -> bool
        requires { at < length self.old.history.found }
        ensures history { self.new.history ≡ with_call (Write at bytes.now result) self.old.history }
        ensures faults { self.new.faults ≡ self.old.faults }
    {
        let kept = self.file.write_all_at(bytes, 512 * at).is_ok();
        self.history.note_write(at, bytes, kept);
        if kept {
            self.sectors[at as usize] = *bytes;
        }
        kept
    }

    /// Syncs the file and notes it; answers whether what was written is durable, in a file that somebody can find again.
    fn sync_file(&mut self) -> bool
        ensures history { self.new.history ≡ with_call (Sync result) self.old.history }
        ensures faults { self.new.faults ≡ self.old.faults }
    {
        let done = is_kept(self.unsure, &self.file, self.sectors.len());
        self.unsure = !done;
        self.history.note_sync(done);
        done
    }

    /// Counts a failed call.
    fn fail(&mut self)
        ensures history { self.new.history ≡ self.old.history }
        ensures faults { self.new.faults ≡ next_count self.old.faults }
    {
        self.faults = self.faults.saturating_add(1);
    }
}

/// A new file, locked.
fn claimed_file<R: Files<File = File>>(rt: &R, path: &str) -> io::Result<File> {
    let file = File::create_new(rt, path)?;
    if let Err(fault) = lock_file(&file) {
        let _ = fs::remove_file(rt, path);
        return Err(fault);
    }
    Ok(file)
}

/// Fills an empty file with zero sectors, makes it durable and its entry in its folder too, and gives these sectors.
fn filled_file<R: Files<File = File> + AllocGlobal>(
    rt: &R,
    file: &File,
    path: &str,
    sectors: u64,
) -> io::Result<Vec<[u8; 512]>>
    ensures zero { IfOk result (λ v. v.items ≡ replicate sectors (replicate 512 0)) }
    ensures sized { IfOk result (λ v. IsTrue (are_sectors v.items)) }
    ensures fits { OnOk result (512 * sectors < 2 ^ 64) }
{
    file.set_len(sectors.saturating_mul(512))?;
    let Ok(zero) = zero_sectors(rt.alloc(), sectors as usize) else {
        return Err(ErrorKind::OutOfMemory.into());
    };
    write_sectors(file, &zero)?;
    file.sync_all()?;
    sync_folder(rt, path)?;
    Ok(zero)
}

fn write_sectors(file: &File, sectors: &[[u8; 512]]) -> io::Result<()>
    requires { 512 * length sectors.now < 2 ^ 64 }
{
    for (at, sector) in sectors.iter().enumerate() {
        file.write_all_at(sector, 512 * at as u64)?;
    }
    Ok(())
}

fn sync_folder<R: Files<File = File>>(rt: &R, path: &str) -> io::Result<()> {
    let folder = match Path::new(path).parent() {
        Some(folder) if !folder.as_str().is_empty() => folder,
        _ => Path::new("."),
    };
    File::open(rt, folder)?.sync_all()
}

/// Locks the file for as long as it is open, where no other open file holds a lock on it.
fn lock_file(file: &File) -> io::Result<()> {
    match file.try_lock() {
        Ok(()) => Ok(()),
        // a file system without locks: there is nothing to hold
        Err(TryLockError::Error(fault)) if fault.kind() == ErrorKind::Unsupported => Ok(()),
        Err(fault) => Err(fault.into()),
    }
}

/// Syncs a file, if no sync of it has failed, and answers whether it then has a name still, and the length of so many sectors: it has not
/// where another file was put in its place, or it was removed or cut short.
fn is_kept(unsure: bool, file: &File, sectors: usize) -> bool {
    !unsure
        && file.sync_all().is_ok()
        && file.metadata().is_ok_and(|found| found.nlink() > 0
            && is_of_sectors(found.len(), sectors))
}

/// Whether so many bytes are so many sectors.
fn is_of_sectors(bytes: u64, sectors: usize) -> bool {
    bytes % 512 == 0 && bytes / 512 == sectors as u64
}

/// The file, locked and synced, and its size. One that lost its name before it was locked is refused.
fn old_file<R: Files<File = File>>(rt: &R, path: &str) -> io::Result<(File, u64)> {
    let file = OpenOptions::new().read(true).write(true).open(rt, path)?;
    lock_file(&file)?;
    file.sync_all()?;
    let found = file.metadata()?;
    if found.nlink() == 0 {
        return Err(ErrorKind::NotFound.into());
    }
    Ok((file, found.len()))
}

/// The first sectors of a file, so many; None where it can't be read or there is no memory.
fn read_sectors(alloc: Global, file: &File, count: usize) -> Option<Vec<[u8; 512]>>
    requires { 512 * count < 2 ^ 64 }
    ensures { IfSome result (λ v. (length v.items ≡ count) × IsTrue (are_sectors v.items)) }
{
    let mut sectors = Vec::with_capacity(alloc, count).ok()?;
    for at in 0..count {
        let mut sector = [0; 512];
        file.read_exact_at(&mut sector, 512 * at as u64).ok()?;
        sectors.push_reserved(sector);
    }
    Some(sectors)
}

impl SectorDevice for FileDevice {
    ghost use Rattle.sector_device.specs.FileDevice.{file_disk};

    ghost disk = { λ d. file_disk d };

    ghost reads_are_an_image = { λ d _. reads_image d.history.found d.history.calls };

    ghost images_are_sized = { λ d c _. images_sized d.history.found d.history.calls c d.found_sized d.recordable };

    ghost counts_now = { λ d. counts_last d.history.found d.history.calls };

    ghost only_now = { λ d. only_last d.history.found d.history.calls };

    ghost count_fits = { λ d. reads_fit d.history.found d.history.calls d.found_sized d.recordable d.few };

    ghost faults_fit = { λ d. d.faults_fit };

    fn count(&self) -> u64 {
        self.sectors.len() as u64
    }

    fn read(&mut self, at: u64, buffer: &mut [u8; 512]) -> Result<(), DeviceFault> {
        if self.read_sector(at, buffer) {
            Ok(())
        } else {
            self.fail();
            Err(DeviceFault::Device)
        }
    }

    fn write(&mut self, at: u64, bytes: &[u8; 512]) -> Result<(), DeviceFault> {
        if self.write_sector(at, bytes) {
            Ok(())
        } else {
            self.fail();
            Err(DeviceFault::Device)
        }
    }

    fn sync(&mut self) -> Result<(), DeviceFault> {
        if self.sync_file() {
            Ok(())
        } else {
            self.fail();
            Err(DeviceFault::Device)
        }
    }
}
