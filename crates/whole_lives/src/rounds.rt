//! One round of a life: a game taken up, played, and cut.
ghost use Rattle.std.specs.Prelude.{◌≡◌, List, ℕ, Bool, true, false, IfOk, IfErr};
ghost use Rattle.whole_lives.specs.Devices.{memories, EachStands, IsByNoFuse, IsCutRound, IsPlayed, IsSound, KeepFuses, LeavesRound, RefusesPlay, RefusesRound};
ghost use Rattle.whole_lives.specs.Rounds.{IsByFuse};

use crate::devices::{Devices, cut};
use crate::error::{LifeError, LifeRefused};
use crate::player::Player;
use cartridge::Cartridge;
use recorded_play::RecordError;
use recording::RecordingFault;
use session::SessionError;
use std::alloc::Global;
use streaming::StreamError;

/// One round of a life, and how it is cut. Of the choices a missing one is false, and a further one is ignored; those of a recording mean
/// nothing where there is none.
#[derive(Drop)]
pub struct Round {
    /// What the player is given.
    pub lines: Vec<u8>,
    /// How many calls of the SAVE's device pass before the cut.
    pub save_calls: u64,
    /// How many calls of the recording's device pass before the cut.
    pub recording_calls: u64,
    /// Which of the SAVE's writes since the last successful sync the cut keeps.
    pub save_kept: Vec<bool>,
    /// Which of the recording's writes since the last successful sync the cut keeps.
    pub recording_kept: Vec<bool>,
}

/// How a round ended.
#[derive(Drop)]
pub struct RoundEnd {
    /// What was written to the report.
    pub report: Vec<u8>,
    /// Whether all was obeyed and saved before the cut.
    pub whole: bool,
}

/// Whether the fuse of one of the devices caused the refusal.
fn is_by_fuse(refused: &LifeRefused) -> bool
    ensures yes { result ≡ true → IsByFuse (refused.now).why (memories (refused.now).devices) }
    ensures no { result ≡ false → IsByNoFuse (refused.now).why (memories (refused.now).devices) }
{
    match refused.why {
        LifeError::Stream(StreamError::Session(SessionError::Device)) => refused
            .devices
            .save
            .blown(),
        LifeError::Record(RecordError::Session(SessionError::Device)) => refused
            .devices
            .save
            .blown(),
        LifeError::Record(RecordError::Recording(RecordingFault::Device)) => {
            match &refused.devices.recording {
                Some(recording) => recording.blown(),
                None => false,
            }
        }
        _ => false,
    }
}

/// Takes the game up and obeys the lines, until all are obeyed or a fuse is blown. Any other refusal ends the life.
fn play_until_cut<P: Player>(
    alloc: Global,
    devices: Devices,
    cartridge: &Cartridge,
    lines: &[u8],
) -> Result<(Devices, RoundEnd), LifeRefused>
    ensures played { IfOk result (λ r.
        IsPlayed P.asks P.obeys P.refuses cartridge.now (memories devices) (memories r.0) lines.now r.1.report.items r.1.whole) }
    ensures fuses { IfOk result (λ r. KeepFuses (memories devices) (memories r.0)) }
    ensures refused { IfErr result (λ refused. (report : List ℕ) ×
        RefusesPlay P.refuses cartridge.now (memories devices) (memories refused.devices) lines.now report refused.why) }
    ensures fuse { IfErr result (λ refused. IsByNoFuse refused.why (memories refused.devices)) }
    ensures stopped { IfErr result (λ refused. (front : List ℕ) ×
        LeavesRound P.asks cartridge.now (memories devices) (memories refused.devices) lines.now front false) }
    ensures sound { IfErr result (λ refused. EachStands cartridge.now (memories devices) → IsSound refused.why) }
{
    match P::play(alloc, devices, cartridge, lines) {
        Ok(given) => {
            let end = RoundEnd {
                report: given.report,
                whole: true,
            };
            Ok((given.game.into_devices(), end))
        }
        Err(stopped) => {
            if !is_by_fuse(&stopped.refused) {
                return Err(stopped.refused);
            }
            let end = RoundEnd {
                report: stopped.report,
                whole: false,
            };
            Ok((stopped.refused.devices, end))
        }
    }
}

/// One round: the fuses are set, the game is played, and the power is cut.
pub(crate) fn one_round<P: Player>(
    alloc: Global,
    devices: Devices,
    cartridge: &Cartridge,
    round: &Round,
) -> Result<(Devices, RoundEnd), LifeRefused>
    ensures cut { IfOk result (λ r.
        IsCutRound P.asks P.obeys P.refuses cartridge.now (memories devices) round.now (memories r.0) r.1.report.items r.1.whole) }
    ensures refused { IfErr result (λ refused.
        RefusesRound P.asks P.obeys P.refuses cartridge.now (memories devices) (memories refused.devices) round.now refused.why) }
    ensures stopped { IfErr result (λ refused. (report : List ℕ) × (whole : Bool) ×
        LeavesRound P.asks cartridge.now (memories devices) (memories refused.devices) (round.now).lines.items report whole) }
    ensures sound { IfErr result (λ refused. EachStands cartridge.now (memories devices) → IsSound refused.why) }
{
    let fused = devices.with_fuses(round.save_calls, round.recording_calls);
    let (played, end) = match play_until_cut::<P>(alloc, fused, cartridge, &round.lines) {
        Ok(ended) => ended,
        Err(refused) => return Err(refused),
    };
    match cut(alloc, &played, &round.save_kept, &round.recording_kept) {
        Ok(left) => Ok((left, end)),
        Err(_) => Err(LifeRefused {
            why: LifeError::Memory,
            devices: played,
        }),
    }
}
