//! A step taken n times, and the next event of such a run: definitions and their laws.
//!
//! `iterate step n x` of std is x after n steps. The definitions stand in `specs/`, the lemmas by which other crates
//! reason in `proofs/`. The functions here do nothing: the contract of each is a law, for every type of state.
#![tactic(auto)]

ghost use Rattle.std.specs.Prelude.{Bool};
ghost use Rattle.repeated_steps.specs.Laws.{StepsAddUp, StepsCommute, NextEventIsUnique, NextOfEitherIsEarlier};

/// Law: m + n steps are m steps and then n steps.
pub fn steps_add_up<State>()
    ensures { (step : State → State) → StepsAddUp step }
{}

/// Law: of two steps that may change places, n times both is n times the first and then n times the second.
pub fn steps_commute<State>()
    ensures { (first second : State → State) → StepsCommute first second }
{}

/// Law: a run has one next event at most, so an answer that meets `IsNextEvent` is the only one.
pub fn next_event_is_unique<State>()
    ensures { (step : State → State) (happens : State → Bool) → NextEventIsUnique step happens }
{}

/// Law: the next event of two kinds is the earlier of the next of each.
pub fn next_of_either_is_earlier<State>()
    ensures { (step : State → State) (first second : State → Bool) → NextOfEitherIsEarlier step first second }
{}
