//! Worked values on devices, logs, recordings, sessions and lives, through public calls: real files, written bytes, refusals, and what cuts
//! leave. What the program prints, and why it refuses, is tested by `scripts/program_tests`.
#![tactic(auto)]

#[cfg(test)]
mod asserting;
#[cfg(test)]
mod beginnings;
#[cfg(test)]
mod devices;
#[cfg(test)]
mod found;
#[cfg(test)]
mod games;
#[cfg(test)]
mod life_rounds;
#[cfg(test)]
mod lives;
#[cfg(test)]
mod logs;
#[cfg(test)]
mod pairs;
#[cfg(test)]
mod recorded_rounds;
#[cfg(test)]
mod recordings;
#[cfg(test)]
mod saves;
#[cfg(test)]
mod states;
