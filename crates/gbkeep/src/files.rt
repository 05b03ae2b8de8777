//! The bytes of files.

ghost use Rattle.std.specs.Prelude.{◌≡◌, ◌⊎◌, IfErr};

use refusals::Refusal;
use std::fs::{self, File, Metadata, OpenOptions, TryLockError};
use std::io::{self, ErrorKind, Read};
use std::os::unix::fs::{FileExt, FileTypeExt, MetadataExt};
use std::rt::Files;

/// A ROM file is read up to this many bytes and one.
pub(crate) const MOST_ROM: u64 = 0x80_0000;

/// A script is read up to this many bytes and one.
pub(crate) const MOST_SCRIPT: u64 = 0x10_0000;

/// A battery file is read up to this many bytes and one.
pub(crate) const MOST_BATTERY: u64 = 0x10_0000;

/// The bytes of the file at this path, and of a longer one the first `most` and one more. A file that does not give what its length says is
/// refused: no more is read than that, since one in which the system tells of itself may wait for ever.
pub(crate) fn file_bytes<R: Files<File = File> + AllocGlobal>(
    rt: &R,
    path: &str,
    most: u64,
) -> Result<Vec<u8>, Refusal>
    ensures { IfErr result (λ fault. (fault ≡ Refusal.File) ⊎ (fault ≡ Refusal.Memory)) }
{
    not_a_pipe(rt, path)?;
    let Ok(file) = File::open(rt, path) else {
        return Err(Refusal::File);
    };
    let Ok(found) = file.metadata() else {
        return Err(Refusal::File);
    };
    if found.len() == 0 && is_of_the_system(rt, &found) {
        return Err(Refusal::File);
    }
    let wanted = found.len().min(most.saturating_add(1));
    let mut bytes = Vec::new(rt.alloc());
    match file.take(wanted).read_to_end(&mut bytes) {
        Ok(_) if bytes.len() as u64 == wanted => Ok(bytes),
        Ok(_) => Err(Refusal::File),
        Err(error) if error.kind() == ErrorKind::OutOfMemory => Err(Refusal::Memory),
        Err(_) => Err(Refusal::File),
    }
}

/// Whether the file is one of those below `/proc`, whose length says nothing.
fn is_of_the_system<R: Files<File = File>>(rt: &R, found: &Metadata) -> bool {
    match (fs::metadata(rt, "/proc"), fs::metadata(rt, "/")) {
        (Ok(system), Ok(root)) => system.dev() != root.dev() && found.dev() == system.dev(),
        _ => false,
    }
}

/// Refuses what is there and no plain file: to open a pipe, or to read it, may take forever.
pub(crate) fn not_a_pipe<R: Files<File = File>>(rt: &R, path: &str) -> Result<(), Refusal>
    ensures { IfErr result (λ fault. fault ≡ Refusal.File) }
{
    match fs::metadata(rt, path) {
        Ok(found) if !found.is_file() => Err(Refusal::File),
        _ => Ok(()),
    }
}

/// How a picture of `frame` begins.
const PICTURE: [u8; 13] = *b"P2\n160 144\n3\n";

/// Opens the file of a picture: makes it, or empties it. Refused as it was is a file that is one of those to be kept, by whatever name,
/// that another open file holds, or that has anything else than a picture.
pub(crate) fn emptied_file<R: Files<File = File>>(
    rt: &R,
    path: &str,
    kept: [&str; 2],
) -> Result<File, Refusal>
    ensures { IfErr result (λ fault. fault ≡ Refusal.File) }
{
    emptied(rt, path, kept).map_err(|_| Refusal::File)
}

fn emptied<R: Files<File = File>>(rt: &R, path: &str, kept: [&str; 2]) -> io::Result<File> {
    // to open a pipe would wait for its reader
    if fs::metadata(rt, path).is_ok_and(|found| found.file_type().is_fifo()) {
        return Err(ErrorKind::InvalidInput.into());
    }
    let file = OpenOptions::new()
        .read(true)
        .write(true)
        .create(true)
        .open(rt, path)?;
    let found = file.metadata()?;
    for other in kept {
        let other = fs::metadata(rt, other)?;
        if found.dev() == other.dev() && found.ino() == other.ino() {
            return Err(ErrorKind::AlreadyExists.into());
        }
    }
    if let Err(TryLockError::WouldBlock) = file.try_lock() {
        return Err(ErrorKind::WouldBlock.into());
    }
    // a pipe or a terminal has no length
    if found.len() > 0 {
        let mut first = [0; 13];
        file.read_exact_at(&mut first, 0)?;
        if first != PICTURE {
            return Err(ErrorKind::AlreadyExists.into());
        }
        file.set_len(0)?;
    }
    Ok(file)
}
