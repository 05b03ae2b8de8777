//! A device in memory that records its writes and syncs, and can be made to fail.
ghost use Rattle.std.specs.Prelude.{◌≡◌, ◌≤◌, ◌<◌, ◌+◌, ◌^◌, ◌++◌, ◌∷◌, ◌&&◌, [], IsTrue, false, List, ℕ, length, IfOk, IfErr, Some, None, if◌then◌else◌, is_ok, is_some, replicate, vec_len, vec_capacity};
ghost use Rattle.sector_device.specs.DiskState.{HasCalled, HasRead, HasWritten, HasSynced, sector_at, next_count};
ghost use Rattle.sector_device.specs.Records.{replayed, cut, are_sectors, are_recordable, is_recordable};
ghost use Rattle.sector_device.specs.Memory.{IsCounted, memory_disk, image_of, fused, fuse_fails, fuse_after, passes, keeps_write, has_room, call_counted, failed, with_record, recorded_or_failed, read_called, write_called, sync_called};
ghost use Rattle.sector_device.specs.RecordLaws.{only_last, counts_last, reads_image, images_sized, reads_fit};

use crate::device::{DeviceFault, SectorDevice};
use crate::fuse::Fuse;
use crate::recorded::Recorded;
use crate::replay::{cut_at, zero_sectors};
use std::alloc::{AllocError, Global};

/// What becomes of a call.
#[derive(Clone, Copy)]
struct Outcome {
    passes: bool,
    /// A write is what reads give from then on.
    kept: bool,
}

/// A device in memory. It is always honest. It keeps a record of its writes and syncs, so that any image that a stop may
/// leave can be made of it, and its calls can be made to fail.
#[derive(Drop)]
pub struct MemoryDevice {
    /// The sectors when the device was made.
    at_start: Vec<[u8; 512]>,
    /// What reads give.
    sectors: Vec<[u8; 512]>,
    /// Its capacity is the room of the record.
    recorded: Vec<Recorded>,
    /// How many calls still pass.
    fuse: Option<u64>,
    blown: bool,
    /// The fuse as it was set.
    set: Fuse,
    /// How many calls it was asked for since it was made, up to the greatest `u64`.
    asked: u64,
    /// Which call from now on fails, 0 for none, and whether its write is kept.
    fails_in: u64,
    keeps: bool,
    faults: u64,
    ghost replays: { sectors.items ≡ (replayed at_start.items recorded.items).reads },
    ghost same_count: { length sectors.items ≡ length at_start.items },
    ghost few: { length at_start.items < 2 ^ 64 },
    ghost start_sized: { IsTrue (are_sectors at_start.items) },
    ghost faults_fit: { faults < 2 ^ 64 },
    ghost counted: { IsCounted set fuse blown asked faults },
    ghost recordable: { IsTrue (are_recordable (length at_start.items) recorded.items) },
}

impl MemoryDevice {
    ghost use Rattle.sector_device.specs.MemoryDevice.{memory, IsNewMemory};

    /// A device of zero sectors, with room to record that many writes and syncs. `Err` only when out of memory.
    pub fn new(alloc: Global, sectors: usize, calls: usize) -> Result<Self, AllocError>
        ensures { IfOk result (λ d. IsNewMemory (replicate sectors (replicate 512 0)) calls 0 d) }
    {
        MemoryDevice::holding(alloc, zero_sectors(alloc, sectors)?, calls, 0)
    }

    /// A device that holds these sectors, with an empty record.
    fn holding(
        alloc: Global,
        sectors: Vec<[u8; 512]>,
        calls: usize,
        faults: u64,
    ) -> Result<Self, AllocError>
        requires { IsTrue (are_sectors sectors.items) }
        ensures { IfOk result (λ d. IsNewMemory sectors.items calls faults d) }
    {
        let at_start = Vec::from_slice(alloc, &sectors)?;
        Ok(MemoryDevice {
            at_start,
            sectors,
            recorded: Vec::with_capacity(alloc, calls)?,
            fuse: None,
            blown: false,
            set: Fuse {
                lets: u64::MAX,
                asked: 0,
                faults: 0,
            },
            asked: 0,
            fails_in: 0,
            keeps: false,
            faults,
        })
    }

    /// A device that holds the sectors of the last successful sync with the chosen later writes applied in order: what a
    /// stop now may leave. A missing choice is false, a further one is ignored, and a failed write is one of the writes.
    /// Its record is empty and has the same room, its fault count is the same, and it has no fuse and no failing call.
    /// `Err` only when out of memory.
    pub fn image(&self, alloc: Global, kept: &[bool]) -> Result<MemoryDevice, AllocError>
        ensures { IfOk result (λ d.
            IsNewMemory (image_of (memory self.now) kept.now) (memory self.now).room (memory self.now).faults d) }
    {
        let at_start = Vec::from_slice(alloc, &self.at_start)?;
        let sectors = cut_at(at_start, &self.recorded, kept);
        MemoryDevice::holding(alloc, sectors, self.recorded.capacity(), self.faults)
    }

    /// Counts a call, and a failed one if it does not pass: the fuse comes first, then the call that is to fail.
    fn count_call(&mut self) -> Outcome
        ensures passes { result.passes ≡ passes (memory self.old) }
        ensures kept { result.kept ≡ keeps_write (memory self.old) }
        ensures state { memory self.new ≡ read_called (memory self.old) }
        ensures sectors { self.new.sectors ≡ self.old.sectors }
    {
        let fused = self.is_fuse_out();
        let fails = self.fails_in == 1;
        let passes = !fused && !fails;
        self.blown = self.blown || fused;
        self.fuse = MemoryDevice::burnt(self.fuse);
        self.fails_in = self.fails_in.saturating_sub(1);
        self.asked = self.asked.saturating_add(1);
        self.faults = MemoryDevice::faults_after(self.faults, passes);
        Outcome {
            passes,
            kept: !fused && (!fails || self.keeps),
        }
    }

    /// The count of faults after a call that passes, or fails.
    fn faults_after(faults: u64, passes: bool) -> u64
        ensures { result ≡ (if passes then faults else next_count faults) }
    {
        if passes {
            faults
        } else {
            faults.saturating_add(1)
        }
    }

    /// The fuse lets no call pass.
    fn is_fuse_out(&self) -> bool
        ensures { result ≡ fuse_fails self.now.fuse }
    {
        match self.fuse {
            Some(left) => left == 0,
            None => false,
        }
    }

    /// A fuse after one more call.
    fn burnt(fuse: Option<u64>) -> Option<u64>
        ensures { result ≡ fuse_after fuse }
    {
        match fuse {
            Some(left) => Some(left.saturating_sub(1)),
            None => None,
        }
    }

    /// Records a call that there is room for, and does it.
    fn record(&mut self, call: Recorded)
        requires room { vec_len self.old.recorded < vec_capacity self.old.recorded }
        requires recordable { IsTrue (is_recordable (length self.old.at_start.items) call) }
        ensures { memory self.new ≡ with_record call (memory self.old) }
    {
        self.recorded.push_reserved(call);
        if let Recorded::Write { at, bytes, kept } = call {
            if kept {
                self.sectors[at as usize] = bytes;
            }
        }
    }

    /// Counts a failed call.
    fn fail(&mut self)
        ensures { memory self.new ≡ failed (memory self.old) }
    {
        self.faults = self.faults.saturating_add(1);
    }

    /// A read; answers whether it passes.
    fn read_sector(&mut self, at: u64, buffer: &mut [u8; 512]) -> bool
        requires { at < length (replayed self.old.at_start.items self.old.recorded.items).reads }
        ensures state { memory self.new ≡ read_called (memory self.old) }
        ensures passes { result ≡ passes (memory self.old) }
        ensures bytes { IsTrue result →
            buffer.new ≡ sector_at (replayed self.old.at_start.items self.old.recorded.items).reads at }
    {
        if !self.count_call().passes {
            return false;
        }
        *buffer = self.sectors[at as usize];
        true
    }

    /// A write; answers whether it passes.
    fn write_sector(&mut self, at: u64, bytes: &[u8; 512]) -> bool
        requires { at < length (replayed self.old.at_start.items self.old.recorded.items).reads }
        ensures state { memory self.new ≡ write_called at bytes.now (memory self.old) }
        ensures passes { result ≡ (passes (memory self.old) && has_room (memory self.old)) }
    {
        let outcome = self.count_call();
        let call = Recorded::Write {
            at,
            bytes: *bytes,
            kept: outcome.kept,
        };
        self.do_recorded(call, outcome.passes)
    }

    /// A sync; answers whether it passes.
    fn sync_all(&mut self) -> bool
        ensures state { memory self.new ≡ sync_called (memory self.old) }
        ensures passes { result ≡ (passes (memory self.old) && has_room (memory self.old)) }
    {
        let done = self.count_call().passes;
        self.do_recorded(Recorded::Sync { done }, done)
    }

    /// Records a call that was counted, if there is room; counts it as failed if there is none and it passed.
    fn do_recorded(&mut self, call: Recorded, passes: bool) -> bool
        requires { IsTrue (is_recordable (length self.old.at_start.items) call) }
        ensures state { memory self.new ≡ recorded_or_failed passes call (memory self.old) }
        ensures passes { result ≡ (passes && has_room (memory self.old)) }
    {
        if self.recorded.len() < self.recorded.capacity() {
            self.record(call);
            return passes;
        }
        if passes {
            self.fail();
        }
        false
    }

    /// How many places of the record are used.
    pub fn calls(&self) -> usize
        ensures { result ≡ length (memory self.now).recorded }
    {
        self.recorded.len()
    }

    /// How many calls it was asked for since it was made: reads, writes and syncs, whether they passed or not, up to the greatest `u64`.
    pub fn asked(&self) -> u64
        ensures { result ≡ (memory self.now).asked }
    {
        self.asked
    }

    /// From now on `k` calls pass, and then every call fails. It replaces an earlier fuse.
    pub fn fuse(&mut self, k: u64)
        ensures { memory self.new ≡ fused k (memory self.old) }
    {
        self.fuse = Some(k);
        self.blown = false;
        self.set = Fuse {
            lets: k,
            asked: self.asked,
            faults: self.faults,
        };
    }

    /// Whether this fuse has failed a call.
    pub fn blown(&self) -> bool
        ensures { result ≡ (memory self.now).blown }
    {
        self.blown
    }

    /// Only the `k`-th call from now fails (the first is 1; 0: none). A write that fails so leaves its sector new if
    /// `kept`. It replaces an earlier one.
    pub fn fail_at(&mut self, k: u64, kept: bool)
        ensures { memory self.new ≡ record (memory self.old) { fails_in = k; keeps = kept } }
    {
        self.fails_in = k;
        self.keeps = kept;
    }
}

impl SectorDevice for MemoryDevice {
    ghost use Rattle.sector_device.specs.MemoryDevice.{memory};

    ghost disk = { λ d. memory_disk (memory d) };

    ghost reads_are_an_image = { λ d _. reads_image d.at_start.items d.recorded.items };

    ghost images_are_sized = { λ d c _. images_sized d.at_start.items d.recorded.items c d.start_sized d.recordable };

    ghost counts_now = { λ d. counts_last d.at_start.items d.recorded.items };

    ghost only_now = { λ d. only_last d.at_start.items d.recorded.items };

    ghost count_fits = { λ d. reads_fit d.at_start.items d.recorded.items d.start_sized d.recordable d.few };

    ghost faults_fit = { λ d. d.faults_fit };

    fn count(&self) -> u64 {
        self.sectors.len() as u64
    }

    /// Fails only by the fuse or the failing call.
    fn read(&mut self, at: u64, buffer: &mut [u8; 512]) -> Result<(), DeviceFault>
        requires { at < length (memory_disk (memory self.old)).sectors }
        ensures called { HasCalled (memory_disk (memory self.old)) (memory_disk (memory self.new)) result }
        ensures read { (memory_disk (memory self.old)).honest →
            HasRead at buffer.new (memory_disk (memory self.old)) (memory_disk (memory self.new)) result }
        ensures device { IfErr result (λ fault. fault ≡ DeviceFault.Device) }
        ensures state { memory self.new ≡ read_called (memory self.old) }
        ensures passes { is_ok result ≡ passes (memory self.old) }
    {
        if self.read_sector(at, buffer) {
            Ok(())
        } else {
            Err(DeviceFault::Device)
        }
    }

    /// Fails only by the fuse, the failing call or for want of room in the record.
    fn write(&mut self, at: u64, bytes: &[u8; 512]) -> Result<(), DeviceFault>
        requires { at < length (memory_disk (memory self.old)).sectors }
        ensures called { HasCalled (memory_disk (memory self.old)) (memory_disk (memory self.new)) result }
        ensures written { (memory_disk (memory self.old)).honest →
            HasWritten at bytes.now (memory_disk (memory self.old)) (memory_disk (memory self.new)) result }
        ensures device { IfErr result (λ fault. fault ≡ DeviceFault.Device) }
        ensures state { memory self.new ≡ write_called at bytes.now (memory self.old) }
        ensures passes { is_ok result ≡ (passes (memory self.old) && has_room (memory self.old)) }
    {
        if self.write_sector(at, bytes) {
            Ok(())
        } else {
            Err(DeviceFault::Device)
        }
    }

    /// Fails only by the fuse, the failing call or for want of room in the record.
    fn sync(&mut self) -> Result<(), DeviceFault>
        ensures called { HasCalled (memory_disk (memory self.old)) (memory_disk (memory self.new)) result }
        ensures synced { (memory_disk (memory self.old)).honest →
            HasSynced (memory_disk (memory self.old)) (memory_disk (memory self.new)) result }
        ensures device { IfErr result (λ fault. fault ≡ DeviceFault.Device) }
        ensures state { memory self.new ≡ sync_called (memory self.old) }
        ensures passes { is_ok result ≡ (passes (memory self.old) && has_room (memory self.old)) }
    {
        if self.sync_all() {
            Ok(())
        } else {
            Err(DeviceFault::Device)
        }
    }
}
