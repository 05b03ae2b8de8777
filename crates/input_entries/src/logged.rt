//! What an entry stands for.
ghost use Rattle.std.specs.Prelude.{◌≡◌, ◌≤◌, ◌<◌, length, take, drop, true, false, IfSome, IsNone};
ghost use Rattle.std.specs.Int.{w32, to_le_bytes};
ghost use Rattle.input_entries.specs.Inputs.{frame, seconds, is_input, is_entry, inputs_in, inputs_logged, HasFewTimes};

use crate::counts::{is_run, is_seconds, run_length};
use crate::{Entry, StoredEntry};

/// What an entry of a log stands for.
#[derive(Clone, Copy)]
pub enum Logged {
    /// A run of equal frames.
    Frames {
        /// The buttons that are held, one per bit.
        buttons: u8,
        /// How many frames, 1 to 216,000.
        times: u32,
    },
    /// Seconds that pass at once.
    Seconds(u32),
}

impl Entry {
    /// The input of one frame with these buttons.
    #[tactic(auto, unfolding(crate::specs::Inputs::is_input))]
    pub fn frame(buttons: u8) -> Entry
        ensures is { result ≡ frame buttons }
        ensures input { is_input result ≡ true }
    {
        Entry {
            code: [0, buttons, 0, 0, 0],
        }
    }

    /// The input of `count` seconds.
    #[tactic(auto, unfolding(crate::specs::Inputs::is_input))]
    pub fn seconds(count: u32) -> Entry
        ensures is { result ≡ seconds count }
        ensures input { is_input result ≡ true }
    {
        let bytes = count.to_le_bytes();
        Entry {
            code: [1, bytes[0], bytes[1], bytes[2], bytes[3]],
        }
    }
}

/// The seconds of an entry that is not a run.
fn seconds_of(entry: &StoredEntry) -> u32
    ensures { to_le_bytes w32 result ≡ take 4 (drop 1 entry.now.code) }
{
    let code = entry.code;
    let (first, second, third, fourth) = (code[1], code[2], code[3], code[4]);
    u32::from_le_bytes([first, second, third, fourth])
}

impl StoredEntry {
    /// What the entry stands for; `None` if it is neither a run of 1 to 216,000 frames nor seconds.
    pub fn logged(&self) -> Option<Logged>
        ensures none { IsNone result → is_entry self.now ≡ false }
        ensures some { IfSome result (λ logged.
            (is_entry self.now ≡ true) × (inputs_in self.now ≡ inputs_logged logged)) }
        ensures times { IfSome result HasFewTimes }
    {
        let code = self.code;
        if is_run(self) {
            return Some(Logged::Frames {
                buttons: code[1],
                times: run_length(self),
            });
        }
        if is_seconds(self) {
            return Some(Logged::Seconds(seconds_of(self)));
        }
        None
    }
}
