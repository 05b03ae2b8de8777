//! Worked examples.

use crate::giving::{Answer, Clock};
use crate::lives::{Event, Held, Outcome, World, live};
use crate::opening::{Away, Played, time_away, where_played};
use crate::text::{TextFault, lines_text, read_lines};
use crate::until::{Line, given_until};
use std::process::Abort;

const DAY: u64 = 86_400;

fn line(count: u64, until: u64) -> Line {
    Line { count, until }
}

/// A game of 10 inputs that is opened first at second 1000.
fn fresh() -> World {
    World {
        file: Held::Nothing,
        saved: 10,
        moment: 5_000,
        session: None,
    }
}

fn expect(rt: &impl Abort, world: World, file: Held, saved: u64) {
    assert!(rt; world.file == file);
    assert!(rt; world.saved == saved);
}

fn expect_lines(rt: &impl Abort, text: &[u8], lines: &[Line]) {
    match read_lines(text) {
        Ok(found) => assert!(rt; found.as_slice() == lines),
        Err(_) => assert!(rt; false),
    }
}

fn expect_fault(rt: &impl Abort, text: &[u8], why: TextFault) {
    match read_lines(text) {
        Ok(_) => assert!(rt; false),
        Err(found) => assert!(rt; found == why),
    }
}

#[test]
fn the_greatest_line_that_fits_counts(rt: HostRuntime) {
    let lines = [line(12, 1_060), line(10, 1_000)];
    assert_eq!(rt; given_until(&lines, 9), 1_060);
    assert_eq!(rt; given_until(&lines, 10), 1_000);
    assert_eq!(rt; given_until(&lines, 11), 1_000);
    assert_eq!(rt; given_until(&lines, 12), 1_060);
    assert_eq!(rt; given_until(&lines, 99), 1_060);
}

#[test]
fn a_minute_is_given_and_saved(rt: HostRuntime) {
    let events = [
        Event::Opened(1_000_999, None, Outcome::Done),
        Event::Passed(60_000),
        Event::Played(1),
        Event::Claimed(Outcome::Done),
        Event::Gave,
        Event::Saved(2),
        Event::Cut,
    ];
    expect(
        &rt,
        live(fresh(), &events),
        Held::Both(line(12, 1_060), line(10, 1_000)),
        12,
    );
}

#[test]
fn a_cut_before_the_save_gives_the_minute_again(rt: HostRuntime) {
    let events = [
        Event::Opened(1_000_000, None, Outcome::Done),
        Event::Passed(60_000),
        Event::Claimed(Outcome::Done),
        Event::Gave,
        Event::Cut,
        Event::Opened(1_100_000, None, Outcome::Done),
        Event::Claimed(Outcome::Done),
    ];
    let world = live(fresh(), &events);
    expect(&rt, world, Held::Both(line(11, 1_100), line(10, 1_000)), 10);
}

#[test]
fn without_a_written_claim_nothing_is_given(rt: HostRuntime) {
    let events = [
        Event::Opened(1_000_000, None, Outcome::Done),
        Event::Passed(60_000),
        Event::Claimed(Outcome::Failed),
        Event::Gave,
        Event::Played(3),
        Event::Saved(3),
        Event::Noted(Outcome::Done),
        Event::Claimed(Outcome::Done),
        Event::Gave,
        Event::Saved(1),
    ];
    let world = live(fresh(), &events);
    expect(&rt, world, Held::Both(line(14, 1_060), line(13, 1_000)), 14);
}

#[test]
fn a_date_that_is_set_back_gives_nothing_of_the_time_away(rt: HostRuntime) {
    let lines = [line(10, 1_000_000)];
    let mut clock = Clock::open(&lines, 10, 400_000_000, 7_000, None);
    assert_eq!(rt; clock.due(7_999), 0);
    assert_eq!(rt; clock.due(17_000), 10);
    assert!(rt; clock.claim(10, 17_000) == Some(line(11, 1_000_010)));
    clock.claimed(line(11, 1_000_010));
    assert_eq!(rt; clock.give(), 10);
    assert_eq!(rt; clock.give(), 0);
}

#[test]
fn more_than_a_year_waits_for_an_answer(rt: HostRuntime) {
    let lines = [line(10, 1_000)];
    let date = (1_000 + 400 * DAY) * 1_000;
    let waits = Clock::open(&lines, 10, date, 0, None);
    assert_eq!(rt; waits.due(0), 0);
    assert_eq!(rt; waits.due(5_000), 5);
    let gives = Clock::open(&lines, 10, date, 0, Some(Answer::Give));
    assert_eq!(rt; gives.due(0), 34_560_000);
    let leaves = Clock::open(&lines, 10, date, 0, Some(Answer::Leave));
    assert_eq!(rt; leaves.due(0), 0);
    assert_eq!(rt; leaves.until, 34_561_000);
    let year = Clock::open(&lines, 10, (1_000 + 366 * DAY) * 1_000, 0, None);
    assert_eq!(rt; year.due(0), 31_622_400);
}

#[test]
fn what_is_asked_and_told(rt: HostRuntime) {
    let lines = [line(10, 40_000_000)];
    assert!(rt; time_away(&lines, 10, 40_000_500_000) == Away::Behind(500));
    assert!(rt; time_away(&lines, 10, 39_999_940_000) == Away::Nothing);
    assert!(rt; time_away(&lines, 10, 39_999_939_000) == Away::Before(61));
    assert!(rt; time_away(&lines, 10, 0) == Away::FarBefore(40_000_000));
    assert!(rt; time_away(&lines, 10, 80_000_000_000) == Away::FarBehind(40_000_000));
    assert!(rt; time_away(&[], 10, 80_000_000_000) == Away::Nothing);
    assert!(rt; where_played(&lines, 9, 125) == Played::Older);
    assert!(rt; where_played(&lines, 135, 125) == Played::Here);
    assert!(rt; where_played(&lines, 136, 125) == Played::Elsewhere);
    assert!(rt; where_played(&[], 136, 125) == Played::Here);
}

#[test]
fn an_older_copy_is_told_by_a_note(rt: HostRuntime) {
    let mut clock = Clock::open(&[line(10, 1_000)], 10, 1_000_000, 0, None);
    assert!(rt; clock.note(10) == None);
    assert!(rt; clock.note(70) == Some(line(70, 1_000)));
    clock.noted(line(70, 1_000));
    assert!(rt; clock.note(70) == None);
}

#[test]
fn a_rewound_game_is_given_the_seconds_again(rt: HostRuntime) {
    let mut clock = Clock::open(&[line(10, 1_000)], 10, 1_060_000, 0, None);
    assert!(rt; clock.claim(20, 0) == Some(line(21, 1_060)));
    clock.claimed(line(21, 1_060));
    assert_eq!(rt; clock.give(), 60);
    clock.go_back(1_020);
    assert_eq!(rt; clock.due(1_000), 41);
    assert!(rt; clock.note(30) == None);
    assert!(rt; clock.claim(30, 1_000) == Some(line(31, 1_061)));
}

#[test]
fn lines_are_written_and_read(rt: HostRuntime) {
    let lines = [line(u64::MAX, 99_999_999_999), line(0, 0)];
    let text = lines_text(&lines);
    assert!(rt; text.as_str() == "18446744073709551615 99999999999\n0 0\n");
    expect_lines(&rt, text.as_str().as_bytes(), &lines);
    expect_lines(
        &rt,
        b"12 1060\n10 1000",
        &[line(12, 1_060), line(10, 1_000)],
    );
    expect_lines(&rt, b"", &[]);
    let eight = [line(1, 2); 8];
    expect_lines(&rt, lines_text(&eight).as_str().as_bytes(), &eight);
}

#[test]
fn another_text_is_refused(rt: HostRuntime) {
    expect_fault(
        &rt,
        b"1 2\n1 2\n1 2\n1 2\n1 2\n1 2\n1 2\n1 2\n1 2\n",
        TextFault::Many,
    );
    expect_fault(&rt, &[b'1'; 513], TextFault::Long);
    for text in [
        "\n",
        " ",
        "1",
        "1 ",
        " 1",
        "1 2\n\n",
        "1  2",
        "1 2 3",
        "+1 2",
        "1 +2",
        "01 2",
        "1 02",
        "1 2\r\n",
        "1 -2",
        "1 100000000000",
        "18446744073709551616 1",
        "a b",
        "1\t2",
        "1 2\n3",
        "\u{0660} 1",
    ] {
        expect_fault(&rt, text.as_bytes(), TextFault::Wrong);
    }
    expect_fault(&rt, &[b'1', b' ', 0xff], TextFault::Wrong);
}
