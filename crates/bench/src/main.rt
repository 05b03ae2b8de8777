//! Benchmarks: `bench WORD` times lines or units, each done at once and as it is defined, which is in nothing that ships.
//!
//! Without a word it prints its words.
#![tactic(auto)]

mod best;
mod lines;
mod units;

use std::{env, io};

fn main(rt: HostRuntime) -> io::Result<()> {
    let mut words = env::args(&rt)?.skip(1);
    let what = words.next();
    match what.as_deref() {
        Some("lines") => lines::time(&rt),
        Some("units") => units::time(&rt),
        _ => usage(&rt),
    }
}

fn usage(rt: &HostRuntime) -> io::Result<()> {
    println!(rt; "bench lines: lines of the picture by tile rows and pixel by pixel")?;
    println!(rt; "bench units: M-cycles of picture, timer and serial port, at once and one by one")
}
