//! Laws of the definitions. The functions do nothing: the contract of each is the law.

ghost use Rattle.std.specs.Prelude.{List, ℕ};
ghost use Rattle.replaying.specs.Agreeing.{AllAgree};
ghost use Rattle.gbkeep.specs.NewFiles.{IsNewGame, IsNewRecording};
ghost use Rattle.test_run.specs.Laws.{NothingMoreHappens};

use sector_device::SectorDevice;

/// What `new` and `new-recording` begin of one ROM stands together: whatever a power cut leaves of both agrees.
pub fn new_files_stand_together<S: SectorDevice, D: SectorDevice>(_save: &S, _recording: &D)
    ensures { (rom : List ℕ) → IsNewGame rom (S.disk _save.now) → IsNewRecording rom (D.disk _recording.now) →
        AllAgree rom (S.disk _save.now) (D.disk _recording.now) }
{}

/// Where a test ended as locked, or in a loop, its registers stay as they are, and nothing more is sent, however many steps follow.
pub fn nothing_more_happens()
    ensures { NothingMoreHappens }
{}
