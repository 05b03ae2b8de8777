//! Whole tests, with their text and verdict.

use crate::asserting::{OrStop, same};
use crate::roms::{PASSES, PRINTS, rom};
use cartridge::CartError;
use exact_text::CheckedOutput;
use script::ScriptError;
use std::alloc::{AllocError, Global};
use std::io::{self, Write};
use std::process::Abort;
use test_run::{TestError, Verdict, run_test};

/// Runs a test, and gives what it wrote. It has no contract, so that a test's proof does not follow the machine.
fn run(
    alloc: Global,
    code: &[u8],
    script: &[u8],
    frames: u32,
    out: &mut Vec<u8>,
) -> Result<Verdict, TestError> {
    let Ok(rom) = rom(alloc, code) else {
        return Err(TestError::Memory);
    };
    run_test(alloc, rom, script, frames, &mut CheckedOutput::new(out))
}

/// A program that writes 41 to SB and 81 to SC, after which 20 M-cycles of the 1,024 are left when its loop has ended, and as many
/// fewer as there are `nops`; then come these bytes, and D3, which locks the processor.
fn sending(alloc: Global, nops: usize, then: &[u8]) -> Result<Vec<u8>, AllocError> {
    // LD A,41; LDH (01),A; LD A,81; LDH (02),A: 3 of the M-cycles; LD B,FA: 2; 250 times DEC B and JR NZ,-3: 4, the last time 3
    let mut code = vec![in alloc;
        0x3e, 0x41, 0xe0, 0x01, 0x3e, 0x81, 0xe0, 0x02, 0x06, 0xfa, 0x05, 0x20, 0xfd,
    ]?;
    for _nop in 0..nops {
        code.push(0x00)?;
    }
    code.extend_from_slice(then)?;
    code.push(0xd3)?;
    Ok(code)
}

/// What a test of such a program writes begins with these bytes.
fn begins_with(rt: &impl Abort, alloc: Global, nops: usize, then: &[u8], wanted: &[u8]) {
    let code = sending(alloc, nops, then).or_stop(rt);
    let mut out = Vec::new(alloc);
    let _ = run(alloc, &code, b"", 3, &mut out);
    let found = out.get(..wanted.len()).unwrap_or(b"");
    same!(*rt; found, wanted, "after {nops} NOP");
}

/// LD A,42; LDH (01),A.
const REPLACED: [u8; 4] = [0x3e, 0x42, 0xe0, 0x01];

/// LD A,01; LDH (02),A.
const STOPPED: [u8; 4] = [0x3e, 0x01, 0xe0, 0x02];

/// LD A,81; LDH (02),A.
const BEGUN_AGAIN: [u8; 4] = [0x3e, 0x81, 0xe0, 0x02];

/// LD SP,FF03; LD BC,8142; PUSH BC: SC is written, and then SB.
const PUSHED: [u8; 7] = [0x31, 0x03, 0xff, 0x01, 0x42, 0x81, 0xc5];

// Each write is made at the start of its instruction, 2 M-cycles after the NOPs, of PUSH 6: so 20 - 2 - 15 = 3 M-cycles are left then.
#[test]
fn what_is_sent_is_in_sb_as_the_last_cycle_begins(rt: HostRuntime) {
    let alloc = rt.alloc();
    begins_with(&rt, alloc, 0, b"", b"A\nA=");
    for nops in 0..18 {
        begins_with(&rt, alloc, nops, &REPLACED, b"B\nA=");
        begins_with(&rt, alloc, nops, &STOPPED, b"A=01 ");
        begins_with(&rt, alloc, nops, &BEGUN_AGAIN, b"A\nA=");
    }
    for nops in 18..21 {
        begins_with(&rt, alloc, nops, &REPLACED, b"A\nA=");
        begins_with(&rt, alloc, nops, &STOPPED, b"A\nA=");
    }
    begins_with(&rt, alloc, 18, &BEGUN_AGAIN, b"A\xff\nA=");
    begins_with(&rt, alloc, 13, &PUSHED, b"B\nA=");
    begins_with(&rt, alloc, 14, &PUSHED, b"AB\nA=");
}

/// A program that sends these letters, waiting for each, and then runs D3. It stands after the header.
fn saying(alloc: Global, word: &[u8]) -> Result<Vec<u8>, AllocError> {
    let mut code = vec![in alloc; 0u8; 0x50]?;
    for (place, byte) in code.iter_mut().zip([0xc3, 0x50, 0x01]) {
        *place = byte;
    }
    for letter in word {
        // LD A,letter; LDH (01),A; LD A,81; LDH (02),A; LDH A,(02); ADD A,A; JR C,-5
        code.extend_from_slice(&[
            0x3e, *letter, 0xe0, 0x01, 0x3e, 0x81, 0xe0, 0x02, 0xf0, 0x02, 0x87, 0x38, 0xfb,
        ])?;
    }
    code.push(0xd3)?;
    Ok(code)
}

fn says(rt: &impl Abort, alloc: Global, word: &[u8], wanted: Verdict) {
    let code = saying(alloc, word).or_stop(rt);
    let mut out = Vec::new(alloc);
    let found = run(alloc, &code, b"", 9, &mut out);
    same!(*rt; found, Ok(wanted));
    same!(*rt; out.get(..word.len()).unwrap_or(b""), word);
}

/// Takes so many bytes, one in each write, and then none.
#[derive(Drop)]
struct Narrow {
    left: usize,
    taken: Vec<u8>,
}

impl Write for Narrow {
    fn write(&mut self, bytes: &[u8]) -> io::Result<usize> {
        let Some(byte) = bytes.first() else {
            return Ok(0);
        };
        if self.left == 0 {
            return Ok(0);
        }
        self.left -= 1;
        self.taken.push(*byte)?;
        Ok(1)
    }

    fn flush(&mut self) -> io::Result<()> {
        Ok(())
    }
}

/// Wherever the output fails, the text up to there went out, and the call says so.
#[test]
fn output_fails_at_any_byte(rt: HostRuntime) {
    let alloc = rt.alloc();
    let mut whole = Vec::new(alloc);
    let _ = run(alloc, &PRINTS, b"", 9, &mut whole);
    for left in 0..whole.len() {
        let mut narrow = Narrow {
            left,
            taken: Vec::new(alloc),
        };
        let rom = rom(alloc, &PRINTS).or_stop(&rt);
        let found = run_test(alloc, rom, b"", 9, &mut CheckedOutput::new(&mut narrow));
        same!(rt; found, Err(TestError::Output));
        same!(rt; narrow.taken.as_slice(), whole.get(..left).unwrap_or(b""));
    }
}

#[test]
fn refusals(rt: HostRuntime) {
    let alloc = rt.alloc();
    let mut out = Vec::new(alloc);
    same!(rt; run(alloc, &PASSES, b"frame 0\n", 9, &mut out), Err(TestError::Script(ScriptError::Script(1))));
    let short = vec![in alloc; 0u8; 3].or_stop(&rt);
    let found = run_test(alloc, short, b"x", 9, &mut CheckedOutput::new(&mut out));
    same!(rt; found, Err(TestError::Cart(CartError::Length(3))));
    same!(rt; out.len(), 0);
}
