//! What a device held and what was asked of it, as clauses read it. It takes no memory.
ghost use Rattle.std.specs.Prelude.{◌≡◌, List, ℕ};
ghost use Rattle.std.specs.Borrow.{ftrue};
ghost use Rattle.sector_device.specs.declared.recorded.Recorded.{Recorded};

use std::marker::{Model, PhantomData};

/// Of a file, what it held as it was opened, the sectors that were found in it then, and the writes and syncs since; of another device, its writes
/// and syncs. Clauses alone read it, and it takes no memory.
#[derive(Drop)]
pub struct FileRecord {
    marker: PhantomData<u8>,
    pub ghost held: { List (List ℕ) },
    pub ghost found: { List (List ℕ) },
    pub ghost calls: { List Recorded },
}

impl Model for FileRecord {
    ghost also_owns = { λ _. ftrue };
}

impl FileRecord {
    ghost use Rattle.sector_device.specs.FileRecord.{unasked, noted, with_found, with_call};
    ghost use Rattle.sector_device.specs.declared.recorded.Recorded.TheVariants.{Write, Sync};

    /// Of a device that holds this and of which nothing was asked yet.
    pub fn new() -> FileRecord
        ghost held: { List (List ℕ) }
        ensures { result ≡ unasked held }
    {
        FileRecord {
            marker: PhantomData,
        }
    }

    /// These sectors were found in the file.
    pub(crate) fn with_sectors(mut self, sectors: &[[u8; 512]]) -> FileRecord
        requires { self ≡ unasked self.held }
        ensures { result ≡ record (unasked self.held) { found = sectors.now } }
    {
        for sector in sectors {
            self.note_found(sector);
        }
        self
    }

    /// Notes a sector that was found, after those before it.
    fn note_found(&mut self, sector: &[u8; 512])
        ensures { self.new ≡ with_found sector.now self.old }
    {
        self.note(&[0], sector);
    }

    /// Notes a write, and whether it succeeded.
    pub fn note_write(&mut self, at: u64, bytes: &[u8; 512], kept: bool)
        ensures { self.new ≡ with_call (Write at bytes.now kept) self.old }
    {
        self.note(&[1, at, u64::from(kept)], bytes);
    }

    /// Notes a sync, and whether it succeeded.
    pub fn note_sync(&mut self, done: bool)
        ensures { self.new ≡ with_call (Sync done) self.old }
    {
        self.note(&[2, 0, u64::from(done)], &[]);
    }

    /// Notes a sector that was found (`[0]`), a write (`[1, at, kept]`) or a sync (`[2, 0, done]`). It and `new` are proved
    /// by hand, since no memory holds what they set; so it takes plain slices, and the three above give them names.
    fn note(&mut self, _numbers: &[u64], _bytes: &[u8])
        ensures { self.new ≡ noted _numbers.now _bytes.now self.old }
    {}
}
