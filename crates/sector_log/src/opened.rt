//! What was found when a log was opened, and the start of a new generation.
ghost use Rattle.std.specs.Prelude.{◌≡◌, ◌≤◌, ◌<◌, ◌+◌, ◌*◌, ◌/◌, ◌^◌, ◌-◌, ◌⊎◌, ℕ, [], length, IfOk, IfErr, IfSome, IsNone, Some, None, false, vec_capacity};
ghost use Rattle.sector_device.specs.DiskState.{HasAnswered};
ghost use Rattle.sector_device.specs.Runs.{HoldsSince};
ghost use Rattle.sector_log.specs.Calls.{HasOldOrNewContent, IsBeginCause, faults_after};
ghost use Rattle.sector_log.specs.Reading.{FoundIs, found_prop, BlobIs, blob_prop};
ghost use Rattle.log_format.specs.Content.{content, generation_in};
ghost use Rattle.log_format.specs.Found.{found_in, log_of, blob_in};
ghost use Rattle.log_format.specs.Sizes.{most_entries_read};
ghost use Rattle.sector_log.specs.declared.fault.LogFault.TheVariants.{Memory, Device};

use crate::StoredEntry;
use crate::fault::LogFault;
use crate::generation::{begin_generation, refusal};
use crate::store::Store;
use log_format::{Found, Header, Part, Root, counted, last_generation, sectors_needed};
use sector_device::{Refused, SectorDevice};

/// A device whose log was read, and to which nothing can be appended: only `begin` makes a store of
/// it.
#[derive(Drop)]
pub struct Opened<D: SectorDevice> {
    pub(crate) device: D,
    pub(crate) root: Option<Root>,
    /// The area is too small for the blob.
    pub(crate) too_small: bool,
    pub(crate) log: Vec<StoredEntry>,
    pub(crate) most: usize,
    /// The blob was read.
    pub(crate) blob_read: bool,
    pub(crate) blob: Vec<u8>,
    ghost reserved: { most_entries_read ≤ vec_capacity log },
    ghost few: { length log.items ≤ most_entries_read },
    ghost found: { FoundIs (D.disk device) root too_small log.items } by { found_prop (D.disk device) root too_small log.items },
    ghost blob_is: { BlobIs (D.disk device) most blob_read blob.items } by { blob_prop (D.disk device) most blob_read blob.items },
}

impl<D: SectorDevice> Opened<D> {
    ghost use Rattle.sector_log.specs.Promises.{HasBegunStore};
    ghost use Rattle.sector_log.specs.Accessors.{left_by_begin, device_of, is_broken, entries_of, generation_of, id_of};
    ghost use Rattle.sector_log.specs.OpenedAccessors.{device_under, found_generation, longest_blob, seen};

    /// What reads give: nothing, a content, or a damaged content.
    pub fn found(&self) -> Found
        ensures seen { result ≡ (seen self.now).found }
        ensures reads { (D.disk (device_under self.now)).honest →
            result ≡ found_in (content (D.disk (device_under self.now)).sectors) }
    {
        let Some(root) = self.root else {
            return Found::Nothing;
        };
        let id = root.id;
        let header = Header {
            id,
            base: root.base,
            blob_length: root.blob_length,
        };
        if self.too_small {
            let need = sectors_needed(root.blob_length);
            return Found::Damaged(header, Part::Length { need });
        }
        if counted(&self.log) > u64::MAX - root.base {
            return Found::Damaged(header, Part::Count);
        }
        Found::Intact(header)
    }

    /// The generation of the chosen root; 0 if there is none.
    pub fn generation(&self) -> u64
        ensures generation { result ≡ found_generation self.now }
        ensures found { (D.disk (device_under self.now)).honest →
            result ≡ generation_in (D.disk (device_under self.now)).sectors }
    {
        last_generation(self.root)
    }

    /// The entries of the log; none if nothing is found or the blob does not fit the area.
    #[tactic(auto, unfolding(crate::specs::OpenedAccessors::seen))]
    pub fn entries(&self) -> &[StoredEntry]
        ensures seen { result.now ≡ (seen self.now).log }
        ensures reads { (D.disk (device_under self.now)).honest →
            log_of (content (D.disk (device_under self.now)).sectors) ≡ result.now }
    {
        &self.log
    }

    /// The blob, if it fits its area and is no longer than the `most` of `open_log`.
    #[tactic(auto, unfolding(crate::specs::OpenedAccessors::seen))]
    pub fn blob(&self) -> Option<&[u8]>
        ensures seen_some { IfSome result (λ blob. (seen self.now).blob ≡ Some blob.now) }
        ensures seen_none { IsNone result → (seen self.now).blob ≡ None }
        ensures some { IfSome result (λ blob. (D.disk (device_under self.now)).honest →
            blob_in (longest_blob self.now) (content (D.disk (device_under self.now)).sectors) ≡ Some blob.now) }
        ensures none { IsNone result → (D.disk (device_under self.now)).honest →
            blob_in (longest_blob self.now) (content (D.disk (device_under self.now)).sectors) ≡ None }
    {
        if self.blob_read {
            Some(&self.blob)
        } else {
            None
        }
    }

    /// A read-only view of the device.
    pub fn device(&self) -> &D
        ensures { result.now ≡ device_under self.now }
    {
        &self.device
    }

    /// The device as it is.
    pub fn into_device(self) -> D
        ensures { result ≡ device_under self }
    {
        self.device
    }

    /// Begins a new generation with this blob and an empty log. A power cut at any moment leaves
    /// the old content or the new one. `Err`: `TooSmall` or `GenerationsUsedUp`, with the device
    /// as it was, or `Device`.
    pub fn begin(
        self,
        id: [u8; 32],
        base: u64,
        blob: &[u8],
    ) -> Result<Store<D>, Refused<LogFault, D>>
        requires { length blob.now < 2 ^ 32 }
        ensures images { (D.disk (device_under self)).honest →
            HoldsSince (D.disk (device_under self)) (D.disk (left_by_begin result))
            (HasOldOrNewContent (D.disk (device_under self)).sectors id base blob.now) }
        ensures begun { IfOk result (λ store.
            HasBegunStore (D.disk (device_under self)) (D.disk (device_of store)) self id base blob.now store) }
        ensures cause { IfErr result (λ refused.
            IsBeginCause refused.why (length blob.now) (length (D.disk (device_under self)).sectors)
            (found_generation self)) }
        ensures untouched { IfErr result (λ refused. (refused.why ≡ Device) ⊎ (refused.device ≡ device_under self)) }
        ensures answered { HasAnswered (λ refused. faults_after refused.why) (D.disk (device_under self))
            (D.disk (left_by_begin result)) result }
    {
        let Opened {
            mut device,
            root: found,
            too_small: _,
            most: _,
            blob_read: _,
            blob: _,
            mut log,
        } = self;
        let last = last_generation(found);
        if let Some(why) = refusal(device.count(), last, blob.len()) {
            return Err(Refused { why, device });
        }
        match begin_generation(&mut device, last, id, base, blob) {
            Ok(begun) => {
                log.clear();
                Ok(Store::at(device, begun.start, begun.root, log))
            }
            Err(_) => Err(Refused {
                why: LogFault::Device,
                device,
            }),
        }
    }
}
