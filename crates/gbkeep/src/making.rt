//! Files that are made: each gets its name once it is whole.

ghost use Rattle.std.specs.Prelude.{◌≡◌, ◌⊎◌, IfErr, IfOk, replicate};
ghost use Rattle.sector_device.specs.FileDevice.{file_disk};

use refusals::Refusal;
use sector_device::{DeviceFault, FileDevice};
use std::fs::{self, File, Metadata, OpenOptions, TryLockError};
use std::io::{self, ErrorKind, Write};
use std::os::unix::fs::{MetadataExt, OpenOptionsExt};
use std::path::Path;
use std::rt::Files;

/// Permission for the group, or for anybody, to write.
const OTHERS_WRITE: u32 = 0o022;

/// How many names are tried for a file that has not its own yet.
const MOST_NAMES: u32 = 100;

/// A file that is being made under another name, in the folder of the one that it is to have. That name is kept for it by an empty file, which
/// is locked: a new one, or one that nobody else owns, may write, or holds. Nothing else is ever replaced.
#[derive(Drop)]
pub(crate) struct Making<'a> {
    path: &'a str,
    /// The name that it has meanwhile.
    part: String,
    keeper: File,
    /// The empty file was made here.
    is_new: bool,
}

/// A file, whatever its name.
#[derive(Clone, Copy)]
struct FileNumber {
    device: u64,
    inode: u64,
}

fn number_of(found: &Metadata) -> FileNumber {
    FileNumber {
        device: found.dev(),
        inode: found.ino(),
    }
}

/// Whether that file has this name.
fn is_named<R: Files<File = File>>(rt: &R, path: &str, file: FileNumber) -> bool {
    match fs::symlink_metadata(rt, path) {
        Ok(named) => named.dev() == file.device && named.ino() == file.inode,
        Err(_) => false,
    }
}

/// Takes away the file of this name, where it is the one that was made.
fn remove_made<R: Files<File = File>>(rt: &R, path: &str, made: &File) {
    if let Ok(found) = made.metadata() {
        if is_named(rt, path, number_of(&found)) {
            let _ = fs::remove_file(rt, path);
        }
    }
}

/// A device over a file that is being made.
#[derive(Drop)]
pub(crate) struct MakingDevice<'a> {
    pub(crate) making: Making<'a>,
    pub(crate) device: FileDevice,
}

impl<'a> Making<'a> {
    /// Keeps the name, and finds another one for the file.
    pub(crate) fn begin<R: Files<File = File> + AllocGlobal>(
        rt: &R,
        path: &'a str,
    ) -> io::Result<Making<'a>> {
        let (keeper, is_new) = kept_name(rt, path)?;
        match free_name(rt, path, &keeper) {
            Ok(part) => Ok(Making {
                path,
                part,
                keeper,
                is_new,
            }),
            Err(fault) => {
                if is_new {
                    remove_made(rt, path, &keeper);
                }
                Err(fault)
            }
        }
    }

    /// The name that the file has until it is whole.
    pub(crate) fn part(&self) -> &str {
        self.part.as_str()
    }

    /// Gives the file, which is whole and synced, its name, and makes that durable. Where that fails, it is taken away again; another one that
    /// was moved to its name meanwhile stays.
    pub(crate) fn finish<R: Files<File = File>>(self, rt: &R) -> io::Result<()> {
        let made = match self.rename(rt) {
            Ok(made) => made,
            Err(fault) => {
                self.give_up(rt);
                return Err(fault);
            }
        };
        let synced = sync_folder(rt, self.path);
        if synced.is_err() && is_named(rt, self.path, made) {
            let _ = fs::remove_file(rt, self.path);
        }
        synced
    }

    fn rename<R: Files<File = File>>(&self, rt: &R) -> io::Result<FileNumber> {
        let part = fs::symlink_metadata(rt, self.part())?;
        if self.keeps_name(rt) && self.keeper.metadata()?.uid() == part.uid() {
            fs::rename(rt, self.part(), self.path)?;
            Ok(number_of(&part))
        } else {
            Err(ErrorKind::AlreadyExists.into())
        }
    }

    /// Whether the name is that of the file that keeps it, and that is still empty.
    fn keeps_name<R: Files<File = File>>(&self, rt: &R) -> bool {
        match self.keeper.metadata() {
            Ok(held) => held.len() == 0 && is_named(rt, self.path, number_of(&held)),
            Err(_) => false,
        }
    }

    /// Takes away what was made.
    pub(crate) fn give_up<R: Files<File = File>>(&self, rt: &R) {
        let _ = fs::remove_file(rt, self.part());
        if self.is_new && self.keeps_name(rt) {
            let _ = fs::remove_file(rt, self.path);
        }
    }
}

/// Makes a file of blank sectors that is to have this name.
pub(crate) fn new_device<'a, R: Files<File = File> + AllocGlobal>(
    rt: &R,
    path: &'a str,
    sectors: u64,
) -> Result<MakingDevice<'a>, Refusal>
    ensures zero { IfOk result (λ made. (file_disk made.device).sectors ≡ replicate sectors (replicate 512 0)) }
    ensures honest { IfOk result (λ made. (file_disk made.device).honest) }
    ensures fault { IfErr result (λ fault. (fault ≡ Refusal.Memory) ⊎ (fault ≡ Refusal.Device DeviceFault.Device)) }
{
    let making = match Making::begin(rt, path) {
        Ok(making) => making,
        Err(fault) if fault.kind() == ErrorKind::OutOfMemory => return Err(Refusal::Memory),
        Err(_) => return Err(Refusal::Device(DeviceFault::Device)),
    };
    match FileDevice::create(rt, Path::new(making.part()), sectors) {
        Ok(device) => Ok(MakingDevice { making, device }),
        Err(_) => {
            making.give_up(rt);
            Err(Refusal::Device(DeviceFault::Device))
        }
    }
}

/// Makes a file of these bytes, and makes it and its entry in its folder durable. Nothing may stand at the path. Where that fails, no file is
/// left behind.
pub(crate) fn durable_file<R: Files<File = File> + AllocGlobal>(
    rt: &R,
    path: &str,
    bytes: &[u8],
) -> Result<(), Refusal>
    ensures { IfErr result (λ fault. (fault ≡ Refusal.Memory) ⊎ (fault ≡ Refusal.File)) }
{
    match made_file(rt, path, bytes) {
        Ok(()) => Ok(()),
        Err(fault) if fault.kind() == ErrorKind::OutOfMemory => Err(Refusal::Memory),
        Err(_) => Err(Refusal::File),
    }
}

fn made_file<R: Files<File = File> + AllocGlobal>(
    rt: &R,
    path: &str,
    bytes: &[u8],
) -> io::Result<()> {
    let making = Making::begin(rt, path)?;
    match written_file(rt, making.part(), bytes) {
        Ok(()) => making.finish(rt),
        Err(fault) => {
            making.give_up(rt);
            Err(fault)
        }
    }
}

/// Makes a file of these bytes under this name, and syncs it.
pub(crate) fn written_file<R: Files<File = File>>(
    rt: &R,
    path: &str,
    bytes: &[u8],
) -> io::Result<()> {
    let mut file = OpenOptions::new()
        .write(true)
        .create_new(true)
        .open(rt, path)?;
    file.write_all(bytes)?;
    file.sync_all()
}

/// Makes a file of these bytes in the place of the one of this name, and makes that durable. At each moment the old file stands there or the
/// new one, whole.
pub(crate) fn replaced_file<R: Files<File = File> + AllocGlobal>(
    rt: &R,
    path: &str,
    bytes: &[u8],
) -> Result<(), Refusal>
    ensures { IfErr result (λ fault. (fault ≡ Refusal.Memory) ⊎ (fault ≡ Refusal.File)) }
{
    for number in 0..MOST_NAMES {
        let Ok(part) = format!(in rt.alloc(); "{path}.{number}.part") else {
            return Err(Refusal::Memory);
        };
        match written_file(rt, part.as_str(), bytes) {
            Ok(()) => return renamed_file(rt, part.as_str(), path),
            Err(fault) if fault.kind() == ErrorKind::AlreadyExists => {}
            Err(_) => {
                let _ = fs::remove_file(rt, part.as_str());
                return Err(Refusal::File);
            }
        }
    }
    Err(Refusal::File)
}

fn renamed_file<R: Files<File = File>>(rt: &R, part: &str, path: &str) -> Result<(), Refusal>
    ensures { IfErr result (λ fault. fault ≡ Refusal.File) }
{
    if fs::rename(rt, part, path).is_err() {
        let _ = fs::remove_file(rt, part);
        return Err(Refusal::File);
    }
    match sync_folder(rt, path) {
        Ok(()) => Ok(()),
        Err(_) => Err(Refusal::File),
    }
}

/// Makes the entries of the folder of this file durable.
pub(crate) fn sync_folder<R: Files<File = File>>(rt: &R, path: &str) -> io::Result<()> {
    File::open(rt, folder_of(path))?.sync_all()
}

fn folder_of(path: &str) -> &str {
    match Path::new(path).parent() {
        Some(folder) if !folder.as_str().is_empty() => folder.as_str(),
        _ => ".",
    }
}

/// An empty file of this name, locked, and whether it is a new one.
fn kept_name<R: Files<File = File>>(rt: &R, path: &str) -> io::Result<(File, bool)> {
    let made = OpenOptions::new()
        .write(true)
        .create_new(true)
        .mode(0o600)
        .open(rt, path);
    match made {
        Ok(file) => match lock_file(&file) {
            Ok(()) => Ok((file, true)),
            Err(fault) => {
                remove_made(rt, path, &file);
                Err(fault)
            }
        },
        Err(fault) if fault.kind() == ErrorKind::AlreadyExists => {
            Ok((empty_file(rt, path)?, false))
        }
        Err(fault) => Err(fault),
    }
}

/// Opens an empty file that nobody holds and nobody but its owner may write.
fn empty_file<R: Files<File = File>>(rt: &R, path: &str) -> io::Result<File> {
    let found = fs::symlink_metadata(rt, path)?;
    if !found.is_file() || found.len() > 0 || found.mode() & OTHERS_WRITE != 0 {
        return Err(ErrorKind::AlreadyExists.into());
    }
    let file = OpenOptions::new().write(true).open(rt, path)?;
    lock_file(&file)?;
    Ok(file)
}

/// Locks the file for as long as it is open, where no other open file holds a lock on it.
fn lock_file(file: &File) -> io::Result<()> {
    match file.try_lock() {
        Ok(()) => Ok(()),
        // a file system without locks: there is nothing to hold
        Err(TryLockError::Error(fault)) if fault.kind() == ErrorKind::Unsupported => Ok(()),
        Err(fault) => Err(fault.into()),
    }
}

/// A name that no file has, in the folder of this one. That of the file that keeps its name is part of it, so that two programs seldom try
/// the same.
fn free_name<R: Files<File = File> + AllocGlobal>(
    rt: &R,
    path: &str,
    keeper: &File,
) -> io::Result<String> {
    let folder = folder_of(path);
    let kept = keeper.metadata()?.ino();
    for number in 0..MOST_NAMES {
        let Ok(name) = format!(in rt.alloc(); "{folder}/.gbkeep-{kept}-{number}.part") else {
            return Err(ErrorKind::OutOfMemory.into());
        };
        match fs::symlink_metadata(rt, name.as_str()) {
            Ok(_) => {}
            Err(fault) if fault.kind() == ErrorKind::NotFound => return Ok(name),
            Err(fault) => return Err(fault),
        }
    }
    Err(ErrorKind::AlreadyExists.into())
}
