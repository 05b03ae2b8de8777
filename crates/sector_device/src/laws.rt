//! Laws of the definitions. The functions do nothing: the contract of each is a law.
ghost use Rattle.std.specs.Prelude.{List, ℕ, ◌↔◌, ◌≡◌};
ghost use Rattle.sector_device.specs.Records.{replayed, IsCutOf};
ghost use Rattle.sector_device.specs.FileDevice.{file_disk};
ghost use Rattle.sector_device.specs.MemoryDevice.{memory};

use crate::device::SectorDevice;
use crate::file::FileDevice;
use crate::memory::MemoryDevice;

/// Law: a device in memory is always honest; reads give what its record makes of its first sectors; and a list of sectors
/// is an image of it exactly if it is the sectors of the last successful sync with some of the writes since applied.
pub fn memory_keeps_the_disk_model()
    ensures honest { (d : MemoryDevice) → (⟦<MemoryDevice as SectorDevice>⟧.disk d).honest }
    ensures sectors { (d : MemoryDevice) →
        (⟦<MemoryDevice as SectorDevice>⟧.disk d).sectors ≡ (replayed (memory d).at_start (memory d).recorded).reads }
    ensures images { (d : MemoryDevice) (c : List (List ℕ)) →
        (⟦<MemoryDevice as SectorDevice>⟧.disk d).image c ↔
        IsCutOf (replayed (memory d).at_start (memory d).recorded) c }
{}

/// Law: what `SectorDevice` says of a device in a file is what `create` and `attach` say of it. So it is honest exactly under
/// the premise that their caller names.
pub fn file_keeps_the_disk_model()
    ensures honest { (d : FileDevice) → (⟦<FileDevice as SectorDevice>⟧.disk d).honest ↔ (file_disk d).honest }
    ensures sectors { (d : FileDevice) → (⟦<FileDevice as SectorDevice>⟧.disk d).sectors ≡ (file_disk d).sectors }
    ensures images { (d : FileDevice) (c : List (List ℕ)) →
        (⟦<FileDevice as SectorDevice>⟧.disk d).image c ↔ (file_disk d).image c }
    ensures moment { (d : FileDevice) → (⟦<FileDevice as SectorDevice>⟧.disk d).moment ≡ (file_disk d).moment }
    ensures since { (d : FileDevice) (t : ℕ) (c : List (List ℕ)) →
        (⟦<FileDevice as SectorDevice>⟧.disk d).since t c ↔ (file_disk d).since t c }
    ensures faults { (d : FileDevice) → (⟦<FileDevice as SectorDevice>⟧.disk d).faults ≡ (file_disk d).faults }
{}

ghost use Rattle.sector_device.specs.FailingCalls.{FuseLetsSoManyPass, OnlyThatCallFails};

/// Law: after `fuse(k)` of a device in memory with no failing call exactly k more calls pass, and each one after them fails, while
/// its record has room.
pub fn fuse_lets_so_many_pass()
    ensures { FuseLetsSoManyPass }
{}

/// Law: after `fail_at(k, _)` of a device in memory without a fuse the k-th call fails and no other, while its record has room.
pub fn only_that_call_fails()
    ensures { OnlyThatCallFails }
{}
