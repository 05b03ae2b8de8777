//! Worked values on texts, lines, scripts, cartridges, the machine at power-on, snapshots, test ROMs and steps of a debugger, through public
//! calls. A library that has no tests of its own is proved once. Values of the running machine are compared with the second one.
#![tactic(auto)]

#[cfg(test)]
mod asserting;
#[cfg(test)]
mod banks;
#[cfg(test)]
mod buses;
#[cfg(test)]
mod cartridges;
#[cfg(test)]
mod debuggers;
#[cfg(test)]
mod lines_read;
#[cfg(test)]
mod pictures;
#[cfg(test)]
mod roms;
#[cfg(test)]
mod runs;
#[cfg(test)]
mod scripts;
#[cfg(test)]
mod snapshots;
#[cfg(test)]
mod text_written;
