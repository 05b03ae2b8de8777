//! M-cycles of the picture unit, and of timer and serial port: many at once and one by one.

ghost use Rattle.std.specs.Prelude.{◌<◌};

use crate::best::best_of;
use picture_unit::LatePicture;
use std::io;
use timer_unit::{Serial, Timer};

const ROUNDS: u32 = 16;

const PICTURE_CYCLES: u32 = 1_053_360;

const CYCLES: u32 = 6_000_000;

fn steps(picture: &mut LatePicture, step: u32, calls: u32) -> u32 {
    let mut vblanks: u32 = 0;
    for _call in 0..calls {
        if picture.pass(step).vblank {
            vblanks = vblanks.wrapping_add(1);
        }
    }
    vblanks
}

fn steps_by_definition(picture: &mut LatePicture, step: u32, calls: u32) -> u32 {
    let mut vblanks: u32 = 0;
    for _call in 0..calls {
        if picture.pass_by_definition(step).vblank {
            vblanks = vblanks.wrapping_add(1);
        }
    }
    vblanks
}

fn at_once(timer: &mut Timer, serial: &mut Serial, step: u32, calls: u32) -> u32 {
    let mut requests: u32 = 0;
    for _call in 0..calls {
        requests = requests.wrapping_add(u32::from(timer.pass(step).bits));
        requests = requests.wrapping_add(u32::from(serial.pass(step).bits));
    }
    requests
}

fn one_by_one(timer: &mut Timer, serial: &mut Serial, step: u32, one: u32, calls: u32) -> u32 {
    let mut requests: u32 = 0;
    for _call in 0..calls {
        for _cycle in 0..step {
            requests = requests.wrapping_add(u32::from(timer.pass(one).bits));
            requests = requests.wrapping_add(u32::from(serial.pass(one).bits));
        }
    }
    requests
}

/// Tenths of a nanosecond a call.
fn tenths(nanoseconds: u64, calls: u32) -> u64 {
    nanoseconds.saturating_mul(10) / u64::from(calls).max(1)
}

fn time_picture(rt: &HostRuntime, step: u32) -> io::Result<()>
    requires { 0 < step }
{
    let calls = PICTURE_CYCLES / step;
    let mut picture = LatePicture::new(rt.alloc())?;
    let best = best_of(rt, ROUNDS, || Ok(steps(&mut picture, step, calls)))?;
    let plain = best_of(
        rt,
        ROUNDS,
        || Ok(steps_by_definition(&mut picture, step, calls)),
    )?;
    let a_call = tenths(best.nanoseconds, calls);
    let a_plain_call = tenths(plain.nanoseconds, calls);
    let speed = u64::from(PICTURE_CYCLES) * 1000 / best.nanoseconds.max(1);
    let plain_speed = u64::from(PICTURE_CYCLES) * 1000 / plain.nanoseconds.max(1);
    println!(rt;
        "pass({step}), lines drawn: {}.{} ns a call, {speed} million M-cycles a second; one by one {}.{} ns, {plain_speed} million; VBlanks {} {}",
        a_call / 10,
        a_call % 10,
        a_plain_call / 10,
        a_plain_call % 10,
        best.sum,
        plain.sum
    )
}

fn time_timer(rt: &HostRuntime, step: u32) -> io::Result<()>
    requires { 0 < step }
{
    let calls = CYCLES / step;
    let mut timer = Timer::new();
    timer.write_tac(5);
    let mut serial = Serial::new();
    let best = best_of(
        rt,
        ROUNDS,
        || Ok(at_once(&mut timer, &mut serial, step, calls)),
    )?;
    let plain = best_of(rt, ROUNDS, || {
        Ok(one_by_one(&mut timer, &mut serial, step, 1, calls))
    })?;
    let a_call = tenths(best.nanoseconds, calls);
    let a_plain_call = tenths(plain.nanoseconds, calls);
    println!(rt;
        "timer and serial pass({step}): {}.{} ns a call; one by one {}.{} ns; requests {} {}",
        a_call / 10,
        a_call % 10,
        a_plain_call / 10,
        a_plain_call % 10,
        best.sum,
        plain.sum
    )
}

/// Steps of 1 to 6 M-cycles, as instructions take them.
pub(crate) fn time(rt: &HostRuntime) -> io::Result<()> {
    for step in 1..7 {
        time_picture(rt, step)?;
    }
    for step in 1..7 {
        time_timer(rt, step)?;
    }
    Ok(())
}
