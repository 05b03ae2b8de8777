//! Whole lives.
ghost use Rattle.std.specs.Prelude.{◌∷◌, ◌++◌, [], true, IfOk, IfErr};
ghost use Rattle.whole_lives.specs.Devices.{memories, memories_of, position_of, all_texts, reports_of, wholes_of, AreRounds, EachStands, EndsLife, EndsRounds, IsLifeRefusal, IsSound, IsTakenUp, LeavesSomeLife};

use crate::devices::Devices;
use crate::error::{LifeError, LifeRefused};
use crate::player::{Game, Player};
use crate::rounds::{Round, RoundEnd, one_round};
use cartridge::Cartridge;
use std::alloc::Global;

/// A life that reached its end.
#[derive(Drop)]
pub struct Lived {
    /// How each round ended.
    pub ends: Vec<RoundEnd>,
    /// What the game reported when it was taken up after the last round.
    pub report: Vec<u8>,
    /// The game as it was taken up then.
    pub game: Game,
}

/// Plays the rounds on the devices, and hands them on as the last cut left them, with the end of each round.
fn live_rounds<P: Player>(
    alloc: Global,
    devices: Devices,
    cartridge: &Cartridge,
    rounds: &[Round],
) -> Result<(Devices, Vec<RoundEnd>), LifeRefused>
    ensures rounds { IfOk result (λ r.
        AreRounds P.asks P.obeys P.refuses cartridge.now rounds.now (memories devices) (memories r.0) (reports_of r.1.items)
        (wholes_of r.1.items)) }
    ensures left { IfErr result (λ refused.
        LeavesSomeLife P.asks cartridge.now (memories devices) (memories refused.devices) rounds.now) }
    ensures refused { IfErr result (λ refused.
        IsLifeRefusal P.asks P.obeys P.refuses cartridge.now (memories devices) (memories refused.devices) rounds.now refused.why) }
    ensures sound { IfErr result (λ refused. EachStands cartridge.now (memories devices) → IsSound refused.why) }
{
    let Ok(mut ends) = Vec::with_capacity(alloc, rounds.len()) else {
        return Err(LifeRefused {
            why: LifeError::Memory,
            devices,
        });
    };
    let mut left = devices;
    for round in rounds {
        match one_round::<P>(alloc, left, cartridge, round) {
            Ok((devices, end)) => {
                left = devices;
                ends.push_reserved(end);
            }
            Err(refused) => return Err(refused),
        }
    }
    Ok((left, ends))
}

/// Lives through rounds on the devices of a game. In each round the fuses are set, and the player takes the game up and obeys what is
/// given, until it ends or a fuse is blown. Then the power is cut: each device becomes the image that keeps the chosen writes. After the
/// last round the game is taken up once more, with no fuse. What is given is the player's matter: `Lines` is the one of the program.
///
/// Refusals: `Memory` for the ends and for what a cut leaves; `Stream` and `Record` of the player, with those of `stream` for a SAVE alone
/// and those of `record`, of which `Output` means that there was no memory for a report. A failed call by a round's fuse ends the round;
/// any other refusal ends the life, as do a full record of a device and a call that `fail_at` made fail.
pub fn live<P: Player>(
    alloc: Global,
    devices: Devices,
    cartridge: &Cartridge,
    rounds: &[Round],
) -> Result<Lived, LifeRefused>
    // the ends, and the count and the machine of the game, are those of a life, whatever the fuses and the cuts
    ensures lived { IfOk result (λ lived.
        EndsLife P.asks cartridge.now (memories devices) (all_texts rounds.now)
        (reports_of lived.ends.items ++ lived.report.items ∷ [])
        (wholes_of lived.ends.items ++ true ∷ []) (position_of lived.game)) }
    ensures begun { IfOk result (λ lived. IsTakenUp cartridge.now lived.game) }
    // each round was played with exactly its fuses, and made no more calls than they let pass but the one that failed; its report is all that
    // the player told, it was cut only where a call failed and a fuse is blown, and its cut kept the chosen writes
    ensures rounds { IfOk result (λ lived.
        EndsRounds P.asks P.obeys P.refuses cartridge.now (memories devices) rounds.now (reports_of lived.ends.items)
        (wholes_of lived.ends.items) lived.report.items (memories_of lived.game)) }

    // when it is refused, and what then is left
    ensures left { IfErr result (λ refused.
        LeavesSomeLife P.asks cartridge.now (memories devices) (memories refused.devices) rounds.now) }
    ensures refused { IfErr result (λ refused.
        IsLifeRefusal P.asks P.obeys P.refuses cartridge.now (memories devices) (memories refused.devices) rounds.now refused.why) }
    ensures sound { IfErr result (λ refused. EachStands cartridge.now (memories devices) → IsSound refused.why) }
{
    let (left, ends) = match live_rounds::<P>(alloc, devices, cartridge, rounds) {
        Ok(lived) => lived,
        Err(refused) => return Err(refused),
    };
    match P::play(alloc, left, cartridge, &[]) {
        Ok(given) => Ok(Lived {
            ends,
            report: given.report,
            game: given.game,
        }),
        Err(stopped) => Err(stopped.refused),
    }
}
