//! A store: the log of a generation that this process began.
ghost use Rattle.std.specs.Prelude.{◌≡◌, ◌≤◌, ◌<◌, ◌+◌, ◌-◌, ◌^◌, ◌⊎◌, ◌↔◌, [], ℕ, length, true, false, Some, OnOk, IfErr, IsErrOf, vec_capacity};
ghost use Rattle.sector_device.specs.DiskState.{HasAnswered, HasHanded};
ghost use Rattle.sector_device.specs.Runs.{HoldsSince};
ghost use Rattle.log_format.specs.Appends.{HoldsPrefix, fits};
ghost use Rattle.sector_log.specs.Calls.{ChangesOpenLog, IsAppendCause, HasOldOrNewContent, IsReplaceCause, faults_after};
ghost use Rattle.sector_log.specs.Store.{IsStored, Kept, kept_prop, StoredUnlessBroken, stored_prop};
ghost use Rattle.input_entries.specs.Inputs.{inputs, all_input};
ghost use Rattle.log_format.specs.Sizes.{log_sectors_per_area, most_entries_read};
ghost use Rattle.sector_log.specs.declared.fault.LogFault.TheVariants.{Device, Broken};

use crate::fault::LogFault;
use crate::generation::{begin_generation, refusal};
use crate::writes::{sync_once, write_log};
use crate::{Entry, StoredEntry};
use log_format::{ENTRIES_PER_SECTOR, MOST_ENTRIES, MOST_INPUTS, Root, add_inputs, grown_length};
use sector_device::{DeviceFault, HandingDevice, SectorDevice};

/// The log of a generation that this process began. Inputs can be appended until a call of the
/// device fails.
#[derive(Drop)]
pub struct Store<D: SectorDevice> {
    device: D,
    /// The first sector of the area.
    start: u64,
    root: Root,
    log: Vec<StoredEntry>,
    /// How many inputs the log stands for.
    input_count: u32,
    broken: bool,
    ghost placed: { start + log_sectors_per_area ≤ length (D.disk device).sectors },
    ghost range: { start + log_sectors_per_area < 2 ^ 64 },
    ghost reserved: { most_entries_read ≤ vec_capacity log },
    ghost kept: { Kept log.items } by { kept_prop log.items },
    ghost count: { input_count ≡ length (inputs log.items) },
    ghost stored: { StoredUnlessBroken (D.disk device) start root log.items broken } by { stored_prop (D.disk device) start root log.items broken },
}

impl<D: SectorDevice> Store<D> {
    ghost use Rattle.sector_log.specs.Promises.{HasAppended, HasReplaced};
    ghost use Rattle.sector_log.specs.Accessors.{device_of, is_broken, entries_of, generation_of, id_of};

    /// The store that a new generation leaves.
    pub(crate) fn at(device: D, start: u64, root: Root, log: Vec<StoredEntry>) -> Self
        requires placed { start + log_sectors_per_area ≤ length (D.disk device).sectors }
        requires range { start + log_sectors_per_area < 2 ^ 64 }
        requires reserved { most_entries_read ≤ vec_capacity log }
        requires empty { log.items ≡ [] }
        requires stored { (D.disk device).honest → IsStored (D.disk device) start root [] }
        ensures device { result.device ≡ device }
        ensures root { result.root ≡ root }
        ensures log { result.log.items ≡ [] }
        ensures open { result.broken ≡ false }
    {
        Store {
            device,
            start,
            root,
            log,
            input_count: 0,
            broken: false,
        }
    }

    /// Whether a call of the device has failed: then only opening the log again helps.
    pub fn is_broken(&self) -> bool
        ensures { result ≡ is_broken self.now }
    {
        self.broken
    }

    /// Whether the inputs can be appended: their entries fit the log's sectors, and the log then
    /// stands for no more than 216,000 inputs.
    pub fn fits(&self, more: &[Entry]) -> bool
        ensures { result ≡ fits (entries_of self.now) more.now }
    {
        if more.len() > (MOST_INPUTS - self.input_count) as usize {
            return false;
        }
        grown_length(&self.log, more) <= MOST_ENTRIES
    }

    /// Adds inputs to the log. A power cut at any moment leaves the old log with a prefix of them.
    /// Adding none makes no device call. `Err`: `Broken` or `LogFull`, with the store as it was, or
    /// `Device`, which breaks it.
    pub fn append(&mut self, more: &[Entry]) -> Result<(), LogFault>
        requires { all_input more.now }
        ensures images { is_broken self.old ≡ false → (D.disk (device_of self.old)).honest →
            HoldsSince (D.disk (device_of self.old)) (D.disk (device_of self.new))
            (HoldsPrefix (D.disk (device_of self.old)).sectors more.now) }
        ensures writes { is_broken self.old ≡ false → (D.disk (device_of self.old)).honest →
            HoldsSince (D.disk (device_of self.old)) (D.disk (device_of self.new))
            (ChangesOpenLog (D.disk (device_of self.old)).sectors (length (entries_of self.old))) }
        ensures appended { OnOk result
            (HasAppended (D.disk (device_of self.old)) (D.disk (device_of self.new)) self.old self.new more.now) }
        ensures cause { IfErr result (λ why.
            IsAppendCause why (is_broken self.old) (fits (entries_of self.old) more.now)) }
        ensures unchanged { IfErr result (λ why. (why ≡ Device) ⊎ (self.new ≡ self.old)) }
        ensures nothing { length more.now ≡ 0 → self.new ≡ self.old }
        ensures broken { (is_broken self.new ≡ true) ↔ ((is_broken self.old ≡ true) ⊎ IsErrOf result LogFault.Device) }
        ensures generation { (generation_of self.new ≡ generation_of self.old) × (id_of self.new ≡ id_of self.old) }
        ensures answered { HasAnswered faults_after (D.disk (device_of self.old)) (D.disk (device_of self.new)) result }
    {
        if self.broken {
            // Nothing is known of what stands on the device.
            return Err(LogFault::Broken);
        }
        if !self.fits(more) {
            return Err(LogFault::LogFull);
        }
        if more.is_empty() {
            return Ok(());
        }
        let first = (self.log.len() / ENTRIES_PER_SECTOR) as u16;
        // Until the sync below is done.
        self.broken = true;
        add_inputs(&mut self.log, more);
        self.input_count += more.len() as u32;
        let end = ((self.log.len() + (ENTRIES_PER_SECTOR - 1)) / ENTRIES_PER_SECTOR) as u16;
        write_log(&mut self.device, self.start, &self.log, first, end)?;
        sync_once(&mut self.device)?;
        self.broken = false;
        Ok(())
    }

    /// Begins a new generation with this blob and an empty log. A power cut at any moment leaves
    /// the old content or the new one. `Err`: `Broken`, `TooSmall` or `GenerationsUsedUp`, with
    /// the store as it was, or `Device`, which breaks it.
    pub fn replace(&mut self, base: u64, blob: &[u8]) -> Result<(), LogFault>
        requires { length blob.now < 2 ^ 32 }
        ensures images { is_broken self.old ≡ false → (D.disk (device_of self.old)).honest →
            HoldsSince (D.disk (device_of self.old)) (D.disk (device_of self.new))
            (HasOldOrNewContent (D.disk (device_of self.old)).sectors (id_of self.old) base blob.now) }
        ensures replaced { OnOk result
            (HasReplaced (D.disk (device_of self.old)) (D.disk (device_of self.new)) self.old self.new base blob.now) }
        ensures cause { IfErr result (λ why.
            IsReplaceCause why (is_broken self.old) (length blob.now) (length (D.disk (device_of self.old)).sectors)
            (generation_of self.old)) }
        ensures unchanged { IfErr result (λ why. (why ≡ Device) ⊎ (self.new ≡ self.old)) }
        ensures broken { (is_broken self.new ≡ true) ↔ ((is_broken self.old ≡ true) ⊎ IsErrOf result LogFault.Device) }
        ensures id { id_of self.new ≡ id_of self.old }
        ensures answered { HasAnswered faults_after (D.disk (device_of self.old)) (D.disk (device_of self.new)) result }
    {
        if self.broken {
            return Err(LogFault::Broken);
        }
        if let Some(why) = refusal(self.device.count(), self.root.generation, blob.len()) {
            return Err(why);
        }
        // Until the new generation stands.
        self.broken = true;
        let begun = begin_generation(
            &mut self.device,
            self.root.generation,
            self.root.id,
            base,
            blob,
        )?;
        self.start = begun.start;
        self.root = begun.root;
        self.log.clear();
        self.input_count = 0;
        self.broken = false;
        Ok(())
    }

    /// A read-only view of the device.
    pub fn device(&self) -> &D
        ensures { result.now ≡ device_of self.now }
    {
        &self.device
    }

    /// The device as it is.
    pub fn into_device(self) -> D
        ensures { result ≡ device_of self }
    {
        self.device
    }
}

impl<D: HandingDevice> Store<D> {
    ghost use Rattle.sector_log.specs.Accessors.{device_of, is_broken, entries_of, generation_of, id_of};

    /// Hands out the next call that the device noted, if there is one. Nothing changes of the store.
    pub fn next_call(&mut self) -> Option<D::Call>
        ensures hands { D.hands (device_of self.old) result (device_of self.new) }
        ensures disk { HasHanded (D.disk (device_of self.old)) (D.disk (device_of self.new)) }
        ensures broken { is_broken self.new ≡ is_broken self.old }
        ensures entries { entries_of self.new ≡ entries_of self.old }
        ensures generation { (generation_of self.new ≡ generation_of self.old) × (id_of self.new ≡ id_of self.old) }
    {
        self.device.next_call()
    }
}
