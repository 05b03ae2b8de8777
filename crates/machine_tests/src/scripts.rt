//! Scripts that are read and refused.
use crate::asserting::{OrStop, holds, same};
use script::{Move, ScriptError, read_script};
use std::alloc::Global;
use std::process::Abort;
use std::test::Fail;

const fn frames(buttons: u8, times: u32) -> Move {
    Move::Frames { buttons, times }
}

/// A script is read as these moves.
fn accepts(rt: &impl Abort, alloc: Global, script: &[u8], moves: &[Move]) {
    match read_script(alloc, script) {
        Ok(read) => holds!(rt; read.as_slice() == moves, "{script:?} is read as {read:?}"),
        Err(why) => holds!(rt; false, "{script:?} is refused: {why}"),
    }
}

static WRONG_LINES: [(&[u8], u32); 35] = [
    (b"save\nframe 1G\n", 2),
    (b"\nwait", 2),
    (b"wait\nsave \n", 1),
    (b"save\n\n\nsave\nframes 00 0", 5),
    (b"frames 00 0", 1),
    (b"frames 00 1000001", 1),
    (b"frames 00 4294967297", 1),
    (b"frames 00 00000000001", 1),
    (b"frames 00", 1),
    (b"frames 00 ", 1),
    (b"frames 00 1 1", 1),
    (b"frames  00 1", 1),
    (b"frames 00 +1", 1),
    (b"frames 00 -1", 1),
    (b"frames 00 a", 1),
    (b"frames 0 1", 1),
    (b"frame  00", 1),
    (b"frame 00 ", 1),
    (b"frame 000", 1),
    (b"frame 0", 1),
    (b"frame", 1),
    (b"frame ", 1),
    (b"frame +1", 1),
    (b"frame 00 1", 1),
    (b"Frame 00", 1),
    (b"save ", 1),
    (b" save", 1),
    (b" ", 1),
    (b"save\r\n", 1),
    (b"SAVE", 1),
    (b"seconds", 1),
    (b"seconds ", 1),
    (b"seconds 4294967296", 1),
    (b"seconds 10000000000", 1),
    (b"seconds 00000000000", 1),
];

#[test]
fn names_the_first_wrong_line(rt: HostRuntime) {
    for (script, number) in WRONG_LINES.as_slice() {
        let read = read_script(rt.alloc(), script).err();
        same!(rt; read, Some(ScriptError::Script(*number)), "{script:?}");
    }
}

/// A first line, so many newlines, and `save`.
fn long_script(alloc: Global, first: &[u8], newlines: usize) -> Result<Vec<u8>, Fail> {
    let mut script = first.to_vec(alloc)?;
    let empty = vec![in alloc; b'\n'; newlines]?;
    script.extend_from_slice(&empty)?;
    script.extend_from_slice(b"save")?;
    Ok(script)
}

#[test]
fn has_a_most_of_bytes(rt: HostRuntime) {
    let alloc = rt.alloc();
    let most = long_script(alloc, b"", 1_048_572).or_stop(&rt);
    accepts(&rt, alloc, &most, &[Move::Save]);
    for (first, newlines, number) in [
        ("", 1_048_573, 0),
        ("?", 1_048_572, 0),
        ("?", 1_048_571, 1),
    ] {
        let script = long_script(alloc, first.as_bytes(), newlines).or_stop(&rt);
        let read = read_script(alloc, &script).err();
        same!(rt;
            read,
            Some(ScriptError::Script(number)),
            "{first} and {newlines}"
        );
    }
}
