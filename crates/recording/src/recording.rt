//! A recording to which inputs can be appended.
ghost use Rattle.std.specs.Prelude.{◌≡◌, ◌≤◌, ◌<◌, ◌+◌, ◌-◌, ◌⊎◌, ◌↔◌, [], length, true, false, OnOk, IfErr, IsErrOf, vec_capacity};
ghost use Rattle.sector_device.specs.DiskState.{HasAnswered, sector_at};
ghost use Rattle.sector_device.specs.Looking.{HasLooked};
ghost use Rattle.sector_device.specs.Runs.{HoldsSince};
ghost use Rattle.input_entries.specs.Inputs.{all_input};
ghost use Rattle.recording.specs.Calls.{HoldsPrefix, KeepsFull, IsAppendCause, IsReadCause, faults_after};
ghost use Rattle.recording.specs.Format.{entries_at};
ghost use Rattle.recording.specs.Growing.{fits, fits_image};
ghost use Rattle.recording.specs.Keeping.{Kept, IsStored, KeptUnlessBroken, kept_prop, StoredUnlessBroken, stored_prop};
ghost use Rattle.recording.specs.Recorded.{entries, entries_up_to};
ghost use Rattle.recording.specs.Sizes.{entries_per_sector, list_sectors_in};
ghost use Rattle.recording.specs.declared.fault.RecordingFault.TheVariants.{Device, Full};

use crate::fault::RecordingFault;
use crate::packing::fits;
use crate::parse::read_entries;
use crate::reading::{End, list_sectors_in};
use crate::writes::{clear_rest, write_inputs};
use input_entries::{Entry, StoredEntry};
use sector_device::SectorDevice;

/// A recording that was created or opened. Inputs can be appended until a call of the device fails.
#[derive(Drop)]
pub struct Recording<D: SectorDevice> {
    device: D,
    /// How many sectors of the list are full.
    full: u64,
    /// The entries after them.
    tail: Vec<StoredEntry>,
    /// How many inputs it holds.
    input_count: u64,
    /// The sectors after the list are known to be blank.
    blank_after: bool,
    /// The entries that were read last.
    page: Vec<StoredEntry>,
    broken: bool,
    ghost room: { entries_per_sector ≤ vec_capacity tail },
    ghost page_room: { entries_per_sector ≤ vec_capacity page },
    ghost kept: { KeptUnlessBroken (length (D.disk device).sectors) full tail.items input_count broken } by { kept_prop (length (D.disk device).sectors) full tail.items input_count broken },
    ghost stored: { StoredUnlessBroken (D.disk device) full tail.items input_count blank_after broken } by { stored_prop (D.disk device) full tail.items input_count blank_after broken },
}

impl<D: SectorDevice> Recording<D> {
    ghost use Rattle.recording.specs.Promises.{HasAppended};
    ghost use Rattle.recording.specs.Accessors.{device_of, is_broken, full_of, tail_of, count_of, used_of, page_of};

    /// The recording that was created or opened.
    pub(crate) fn at(
        device: D,
        end: End,
        tail: Vec<StoredEntry>,
        page: Vec<StoredEntry>,
        blank_after: bool,
    ) -> Self
        requires room { entries_per_sector ≤ vec_capacity tail }
        requires page_room { entries_per_sector ≤ vec_capacity page }
        requires kept { Kept (length (D.disk device).sectors) end.full tail.items end.input_count }
        requires stored { (D.disk device).honest →
            IsStored (D.disk device) end.full tail.items end.input_count blank_after }
        ensures device { device_of result ≡ device }
        ensures full { full_of result ≡ end.full }
        ensures tail { tail_of result ≡ tail.items }
        ensures count { count_of result ≡ end.input_count }
        ensures unbroken { is_broken result ≡ false }
    {
        Recording {
            device,
            full: end.full,
            tail,
            input_count: end.input_count,
            blank_after,
            page,
            broken: false,
        }
    }

    /// Whether a call of the device has failed: then only opening it again helps.
    pub fn is_broken(&self) -> bool
        ensures { result ≡ is_broken self.now }
    {
        self.broken
    }

    /// How many inputs it holds.
    pub fn input_count(&self) -> u64
        ensures { result ≡ count_of self.now }
    {
        self.input_count
    }

    /// How many sectors of the list have entries: they have the numbers from 1 to this one.
    pub fn sectors_used(&self) -> u64
        requires { is_broken self.now ≡ false }
        ensures used { result ≡ used_of self.now }
        ensures whole { (D.disk (device_of self.now)).honest →
            entries (D.disk (device_of self.now)).sectors ≡ entries_up_to result (D.disk (device_of self.now)).sectors }
    {
        if self.tail.is_empty() {
            self.full
        } else {
            self.full + 1
        }
    }

    /// How many sectors of the list have no entry.
    pub fn sectors_left(&self) -> u64
        requires { is_broken self.now ≡ false }
        ensures { result ≡ list_sectors_in (length (D.disk (device_of self.now)).sectors) - used_of self.now }
    {
        list_sectors_in(self.device.count()) - self.sectors_used()
    }

    /// Whether the inputs can be appended: their entries fit the sectors that are left.
    pub fn fits(&self, more: &[Entry]) -> bool
        requires { is_broken self.now ≡ false }
        ensures { result ≡ fits (tail_of self.now)
            (list_sectors_in (length (D.disk (device_of self.now)).sectors) - full_of self.now) more.now }
    {
        let left = list_sectors_in(self.device.count()) - self.full;
        fits(&self.tail, left, more)
    }

    /// Adds inputs after those that are there. A power cut at any moment leaves the old list with a
    /// prefix of them, and no sector that is full is written. Adding none makes no device call.
    /// `Err`: `Broken`, or `Full` if the device has too few sectors for their entries, with the
    /// recording as it was, or `Device`, which breaks it.
    pub fn append(&mut self, more: &[Entry]) -> Result<(), RecordingFault>
        requires { all_input more.now }
        ensures images { is_broken self.old ≡ false → (D.disk (device_of self.old)).honest →
            HoldsSince (D.disk (device_of self.old)) (D.disk (device_of self.new))
            (HoldsPrefix (D.disk (device_of self.old)).sectors more.now) }
        ensures writes { is_broken self.old ≡ false → (D.disk (device_of self.old)).honest →
            HoldsSince (D.disk (device_of self.old)) (D.disk (device_of self.new))
            (KeepsFull (D.disk (device_of self.old)).sectors (full_of self.old)) }
        ensures appended { OnOk result
            (HasAppended (D.disk (device_of self.old)) (D.disk (device_of self.new)) self.old self.new more.now) }
        ensures cause { IfErr result (λ why. IsAppendCause why (is_broken self.old)
            (fits (tail_of self.old) (list_sectors_in (length (D.disk (device_of self.old)).sectors) - full_of self.old)
            more.now)) }
        ensures full { IfErr result (λ why. why ≡ Full → (D.disk (device_of self.old)).honest →
            fits_image (D.disk (device_of self.old)).sectors more.now ≡ false) }
        ensures unchanged { IfErr result (λ why. (why ≡ Device) ⊎ (self.new ≡ self.old)) }
        ensures nothing { length more.now ≡ 0 → self.new ≡ self.old }
        ensures broken { (is_broken self.new ≡ true) ↔
            ((is_broken self.old ≡ true) ⊎ IsErrOf result RecordingFault.Device) }
        ensures answered { HasAnswered faults_after (D.disk (device_of self.old)) (D.disk (device_of self.new)) result }
    {
        if self.broken {
            // Nothing is known of what stands on the device.
            return Err(RecordingFault::Broken);
        }
        let left = list_sectors_in(self.device.count()) - self.full;
        if !fits(&self.tail, left, more) {
            return Err(RecordingFault::Full);
        }
        if more.is_empty() {
            return Ok(());
        }
        let first = self.sectors_used() + 1;
        // Until the sync of `write_inputs` is done.
        self.broken = true;
        clear_rest(&mut self.device, first, self.blank_after)?;
        self.full = write_inputs(&mut self.device, self.full, &mut self.tail, more)?;
        self.input_count += more.len() as u64;
        self.blank_after = true;
        self.broken = false;
        Ok(())
    }

    /// Reads the sector of the list with this number, for `entries`. `Err`: `Broken`, with the
    /// recording as it was, or `Device`, which breaks it.
    pub fn read_sector(&mut self, number: u64) -> Result<(), RecordingFault>
        requires one { 1 ≤ number }
        requires used { number ≤ used_of self.old }
        ensures looked { (D.disk (device_of self.old)).honest →
            HasLooked (D.disk (device_of self.old)) (D.disk (device_of self.new)) }
        ensures page { OnOk result ((D.disk (device_of self.old)).honest →
            page_of self.new ≡ entries_at number (sector_at (D.disk (device_of self.old)).sectors number)) }
        ensures same { (full_of self.new ≡ full_of self.old) × (tail_of self.new ≡ tail_of self.old) ×
            (count_of self.new ≡ count_of self.old) }
        ensures cause { IfErr result (λ why. IsReadCause why (is_broken self.old)) }
        ensures unchanged { IfErr result (λ why. (why ≡ Device) ⊎ (self.new ≡ self.old)) }
        ensures broken { (is_broken self.new ≡ true) ↔
            ((is_broken self.old ≡ true) ⊎ IsErrOf result RecordingFault.Device) }
        ensures answered { HasAnswered faults_after (D.disk (device_of self.old)) (D.disk (device_of self.new)) result }
    {
        if self.broken {
            return Err(RecordingFault::Broken);
        }
        let mut sector = [0; 512];
        self.broken = true;
        self.device.read(number, &mut sector)?;
        read_entries(&mut self.page, number as u32, &sector);
        self.broken = false;
        Ok(())
    }

    /// The entries of the sector that was read last; none before the first.
    pub fn entries(&self) -> &[StoredEntry]
        ensures { result.now ≡ page_of self.now }
    {
        &self.page
    }

    /// A read-only view of the device.
    pub fn device(&self) -> &D
        ensures { result.now ≡ device_of self.now }
    {
        &self.device
    }

    /// The device as it is.
    pub fn into_device(self) -> D
        ensures { result ≡ device_of self }
    {
        self.device
    }
}
