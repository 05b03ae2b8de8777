//! A device whose sectors are the host's: it notes each write and sync, for the host to make.

ghost use Rattle.std.specs.Prelude.{◌≡◌, ◌<◌, ◌^◌, ◌++◌, ◌∷◌, [], IsTrue, true, false, length, slice_set, slice_range, IfOk};
ghost use Rattle.sector_device.specs.DiskState.{next_count};
ghost use Rattle.sector_device.specs.Records.{replayed, are_recordable};
ghost use Rattle.sector_device.specs.RecordLaws.{only_last, counts_last, reads_image, images_sized, reads_fit};
ghost use Rattle.sector_device.specs.declared.recorded.Recorded.TheVariants as recorded;
ghost use Rattle.embedding.specs.Calls.{blank, made, recorded_of, sized};

use sector_device::{DeviceFault, FileRecord, HandingDevice, SectorDevice};
use std::alloc::{AllocError, Global};
use std::collections::VecDeque;

/// A call that the host has to make.
#[derive(Clone, Copy)]
pub enum Call {
    /// These bytes at this sector.
    Write { at: u64, bytes: [u8; 512] },
    /// What was written before has to be on the disk.
    Sync,
}

/// A device in memory that began with zero sectors, and notes its calls until they are handed out. A call fails only for want of memory for the
/// note.
#[derive(Drop)]
pub struct HostDevice {
    /// What reads give.
    sectors: Vec<[u8; 512]>,
    /// The calls that are still to be handed out, the first of them first.
    waiting: VecDeque<Call>,
    /// Those that were handed out. It takes no memory.
    handed: FileRecord,
    faults: u64,
    ghost replays: { sectors.items ≡ (replayed (blank (length sectors.items)) (handed.calls ++ recorded_of waiting.items)).reads },
    ghost few: { length (blank (length sectors.items)) < 2 ^ 64 },
    ghost faults_fit: { faults < 2 ^ 64 },
    ghost recordable: { IsTrue (are_recordable (length (blank (length sectors.items))) (handed.calls ++ recorded_of waiting.items)) },
}

/// So many zero sectors.
fn zero_sectors(alloc: Global, count: usize) -> Result<Vec<[u8; 512]>, AllocError>
    ensures { IfOk result (λ sectors. sectors.items ≡ blank count) }
{
    let mut sectors = Vec::with_capacity(alloc, count)?;
    for _ in 0..count {
        sectors.push_reserved([0; 512]);
    }
    Ok(sectors)
}

/// Notes a call; false where there is no memory for it.
fn push(waiting: &mut VecDeque<Call>, call: Call) -> bool
    ensures noted { result ≡ true → waiting.new.items ≡ waiting.old.items ++ call ∷ [] }
    ensures refused { result ≡ false → waiting.new.items ≡ waiting.old.items }
{
    waiting.push_back(call).is_ok()
}

impl HostDevice {
    ghost use Rattle.embedding.specs.HostDevices.{HasHandedOut, calls_of, count_of, handed_of, waiting_of};

    /// A device of zero sectors, with nothing noted. `Err` only when out of memory.
    pub fn new(alloc: Global, count: usize) -> Result<HostDevice, AllocError>
        ensures handed { IfOk result (λ d. handed_of d ≡ []) }
        ensures waiting { IfOk result (λ d. waiting_of d ≡ []) }
        ensures count { IfOk result (λ d. count_of d ≡ count) }
    {
        let sectors = zero_sectors(alloc, count)?;
        Ok(HostDevice {
            sectors,
            waiting: VecDeque::new(alloc),
            handed: FileRecord::new(),
            faults: 0,
        })
    }

    /// Counts a failed call.
    fn fail(&mut self)
        ensures faults { self.new.faults ≡ next_count self.old.faults }
        ensures handed { handed_of self.new ≡ handed_of self.old }
        ensures waiting { waiting_of self.new ≡ waiting_of self.old }
        ensures sectors { self.new.sectors.items ≡ self.old.sectors.items }
    {
        self.faults = self.faults.saturating_add(1);
    }

    /// Notes a write, and does it; false where there is no memory for the note.
    fn note_write(&mut self, at: u64, bytes: &[u8; 512]) -> bool
        requires at { at < count_of self.old }
        requires sector { length bytes.now ≡ 512 }
        ensures noted { result ≡ true → waiting_of self.new ≡ waiting_of self.old ++ Call.Write at bytes.now ∷ [] }
        ensures refused { result ≡ false → waiting_of self.new ≡ waiting_of self.old }
        ensures handed { handed_of self.new ≡ handed_of self.old }
        ensures count { count_of self.new ≡ count_of self.old }
        ensures faults { self.new.faults ≡ self.old.faults }
    {
        let noted = push(&mut self.waiting, Call::Write { at, bytes: *bytes });
        if noted {
            self.sectors[at as usize] = *bytes;
        }
        noted
    }

    /// Notes a sync; false where there is no memory for the note.
    fn note_sync(&mut self) -> bool
        ensures noted { result ≡ true → waiting_of self.new ≡ waiting_of self.old ++ Call.Sync ∷ [] }
        ensures refused { result ≡ false → waiting_of self.new ≡ waiting_of self.old }
        ensures handed { handed_of self.new ≡ handed_of self.old }
        ensures count { count_of self.new ≡ count_of self.old }
        ensures faults { self.new.faults ≡ self.old.faults }
    {
        push(&mut self.waiting, Call::Sync)
    }

    /// Writes a sector that the host's disk holds already: a call that is not handed out any more.
    pub(crate) fn fill(&mut self, at: u64, bytes: &[u8; 512])
        requires at { at < count_of self.old }
        requires sector { length bytes.now ≡ 512 }
        requires none { waiting_of self.old ≡ [] }
        ensures handed { handed_of self.new ≡ handed_of self.old ++ recorded.Write at bytes.now true ∷ [] }
        ensures waiting { waiting_of self.new ≡ [] }
        ensures sectors { self.new.sectors.items ≡ slice_set self.old.sectors.items at bytes.now }
        ensures count { count_of self.new ≡ count_of self.old }
    {
        self.sectors[at as usize] = *bytes;
        self.handed.note_write(at, bytes, true);
    }

    /// What was filled is on the host's disk.
    pub(crate) fn fill_done(&mut self)
        requires none { waiting_of self.old ≡ [] }
        ensures handed { handed_of self.new ≡ handed_of self.old ++ recorded.Sync true ∷ [] }
        ensures waiting { waiting_of self.new ≡ [] }
        ensures sectors { self.new.sectors.items ≡ self.old.sectors.items }
        ensures count { count_of self.new ≡ count_of self.old }
    {
        self.handed.note_sync(true);
    }

    /// Takes the next call away, if there is one.
    fn take_next(&mut self) -> Option<Call>
        ensures taken { HasHandedOut self.old result self.new }
        ensures sectors { self.new.sectors.items ≡ self.old.sectors.items }
        ensures faults { self.new.faults ≡ self.old.faults }
    {
        let call = self.waiting.pop_front()?;
        match call {
            Call::Write { at, bytes } => self.handed.note_write(at, &bytes, true),
            Call::Sync => self.handed.note_sync(true),
        }
        Some(call)
    }
}

impl SectorDevice for HostDevice {
    ghost use Rattle.embedding.specs.HostDevices.{calls_of, count_of, host_disk};

    ghost disk = { λ d. host_disk d };

    ghost reads_are_an_image = { λ d _. reads_image (blank (count_of d)) (calls_of d) };

    ghost images_are_sized = { λ d c _. images_sized (blank (count_of d)) (calls_of d) c
        (sized (count_of d)) d.recordable };

    ghost counts_now = { λ d. counts_last (blank (count_of d)) (calls_of d) };

    ghost only_now = { λ d. only_last (blank (count_of d)) (calls_of d) };

    ghost count_fits = { λ d. reads_fit (blank (count_of d)) (calls_of d) (sized (count_of d))
        d.recordable d.few };

    ghost faults_fit = { λ d. d.faults_fit };

    fn count(&self) -> u64 {
        self.sectors.len() as u64
    }

    /// Never fails.
    fn read(&mut self, at: u64, buffer: &mut [u8; 512]) -> Result<(), DeviceFault> {
        *buffer = self.sectors[at as usize];
        Ok(())
    }

    fn write(&mut self, at: u64, bytes: &[u8; 512]) -> Result<(), DeviceFault> {
        if self.note_write(at, bytes) {
            return Ok(());
        }
        self.fail();
        Err(DeviceFault::Device)
    }

    fn sync(&mut self) -> Result<(), DeviceFault> {
        if self.note_sync() {
            return Ok(());
        }
        self.fail();
        Err(DeviceFault::Device)
    }
}

impl HandingDevice for HostDevice {
    type Call = Call;

    ghost use Rattle.embedding.specs.HostDevices.{HasHandedOut};

    ghost hands = { λ old call new. HasHandedOut old call new };

    fn next_call(&mut self) -> Option<Call> {
        self.take_next()
    }
}
