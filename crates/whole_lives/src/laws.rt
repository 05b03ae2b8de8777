//! Laws of lives. The functions do nothing: the contract of each is the law.
ghost use Rattle.whole_lives.specs.Laws.{NoLifeLosesWhatWasSaved};

use crate::player::Player;

/// Law: whatever was asked for and cut in a life, the game that is taken up at its end has what it had at first and exactly the inputs that the cuts
/// kept, of each round the first ones. The SAVE has all inputs up to each count that was ever told. A recording holds the same inputs, and
/// agrees with its SAVE if it did at first.
pub fn no_life_loses_what_was_saved<P: Player>()
    ensures { NoLifeLosesWhatWasSaved P.asks }
{}
