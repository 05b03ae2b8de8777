//! A device of sectors as the layers above see it.
ghost use Rattle.std.specs.Prelude.{◌≡◌, ◌<◌, ◌≤◌, ◌^◌, List, ℕ, length, IfErr};
ghost use Rattle.sector_device.specs.DiskState.{DiskState, IsSized, HasCalled, HasRead, HasWritten, HasSynced};

use thiserror::Error;

#[derive(Clone, Copy, Debug, PartialEq, Eq, Error)]
pub enum DeviceFault {
    /// A call of the device failed.
    #[error("device failed")]
    Device,
    /// A file of this many bytes is not whole sectors.
    #[error("device size {0}")]
    SizeNotSectors(u64),
}

/// A device of sectors of 512 bytes. What it promises of its contents it promises where it is honest: no call makes an
/// honest device dishonest or the reverse.
pub trait SectorDevice {
    /// What reads give, whether it is honest, its images now and since a moment, its count of failed calls, the writes and syncs that it was
    /// asked for, and its fuse.
    ghost disk: { Self → DiskState };

    /// The number of sectors, which no call changes, honest or not.
    fn count(&self) -> u64
        ensures { result ≡ length (disk self.now).sectors };

    /// Reads a sector.
    fn read(&mut self, at: u64, buffer: &mut [u8; 512]) -> Result<(), DeviceFault>
        requires { at < length (disk self.old).sectors }
        ensures called { HasCalled (disk self.old) (disk self.new) result }
        ensures read { (disk self.old).honest → HasRead at buffer.new (disk self.old) (disk self.new) result }
        ensures device { IfErr result (λ fault. fault ≡ DeviceFault.Device) };

    /// Writes a sector. After a failed write the sector is old or new. A stop leaves the write or not, until a sync.
    fn write(&mut self, at: u64, bytes: &[u8; 512]) -> Result<(), DeviceFault>
        requires { at < length (disk self.old).sectors }
        ensures called { HasCalled (disk self.old) (disk self.new) result }
        ensures written { (disk self.old).honest → HasWritten at bytes.now (disk self.old) (disk self.new) result }
        ensures device { IfErr result (λ fault. fault ≡ DeviceFault.Device) };

    /// At `Ok` a stop leaves what reads give. A failed sync makes nothing sure.
    fn sync(&mut self) -> Result<(), DeviceFault>
        ensures called { HasCalled (disk self.old) (disk self.new) result }
        ensures synced { (disk self.old).honest → HasSynced (disk self.old) (disk self.new) result }
        ensures device { IfErr result (λ fault. fault ≡ DeviceFault.Device) };

    /// What reads give is an image.
    ghost reads_are_an_image: { (d : Self) → (disk d).honest → (disk d).image (disk d).sectors };

    /// Each image has the device's number of sectors, of 512 bytes each.
    ghost images_are_sized: { (d : Self) (c : List (List ℕ)) → (disk d).honest → (disk d).image c → IsSized (length (disk d).sectors) c };

    /// An image of this moment is one of those since an earlier moment.
    ghost counts_now: { (d : Self) (t : ℕ) (c : List (List ℕ)) → t ≤ (disk d).moment → (disk d).image c → (disk d).since t c };

    /// Since this moment there is no other.
    ghost only_now: { (d : Self) (c : List (List ℕ)) → (disk d).since (disk d).moment c → (disk d).image c };

    /// The number of sectors fits a `u64`.
    ghost count_fits: { (d : Self) → length (disk d).sectors < 2 ^ 64 };

    /// The count of failed calls fits a `u64`.
    ghost faults_fit: { (d : Self) → (disk d).faults < 2 ^ 64 };
}
