//! Steps of a debugger.
use crate::roms::rom;
use cartridge::Cartridge;
use debugger::{Debugger, OutputFailed, write_stepped};
use exact_text::CheckedOutput;
use machine::{Machine, StepKind, Stepped};
use std::alloc::Global;
use std::process::Abort;
use std::test::Fail;

/// The machine at power-on with this program at 0100.
fn machine(alloc: Global, program: &[u8]) -> Result<Machine, Fail> {
    match Cartridge::read(rom(alloc, program)?) {
        Ok(cartridge) => Ok(Machine::power_on(alloc, &cartridge)?),
        Err(_) => Err(Fail::from("no cartridge")),
    }
}

fn debugger(alloc: Global, program: &[u8], size: usize) -> Result<Debugger, Fail> {
    let machine = machine(alloc, program)?;
    if size == 0 || size > 1024 {
        return Err(Fail::from("a size that no debugger has"));
    }
    match Debugger::new(alloc, machine, size) {
        Ok(debugger) => Ok(debugger),
        Err(_) => Err(Fail::from("no memory")),
    }
}

// These have no contract, so that a test's proof does not follow the numbers.

fn step(debugger: &mut Debugger) -> Stepped {
    debugger.step()
}

fn has_history(rt: &impl Abort, debugger: &Debugger, addresses: &[u16]) {
    assert_eq!(rt; debugger.history_len(), addresses.len());
    for (index, address) in addresses.iter().enumerate() {
        let seen = debugger.history(index);
        assert_eq!(rt; seen.map(|seen| seen.pc), Some(*address), "at {index}");
    }
    assert!(rt; debugger.history(addresses.len()).is_none());
}

/// `LD A,3A` and `ADD A,C6`, and then nothing but `NOP`.
const SUM: [u8; 4] = [0x3e, 0x3a, 0xc6, 0xc6];

/// Halts until the timer asks for its interrupt.
const TIMED_HALT: [u8; 17] = [
    0xaf, 0xe0, 0x0f, 0x3e, 0x05, 0xe0, 0x07, 0x3e, 0xfc, 0xe0, 0x05, 0x3e, 0x04, 0xe0, 0xff, 0xfb,
    0x76,
];

const TIMED_LINES: &str = "\
0100 AF     XOR A,A
0101 E00F   LDH (0F),A
0103 3E05   LD A,05
0105 E007   LDH (07),A
0107 3EFC   LD A,FC
0109 E005   LDH (05),A
010B 3E04   LD A,04
010D E0FF   LDH (FF),A
010F FB     EI
0110 76     HALT
wait
wait
wait
interrupt 50
0050 00     NOP
0051 00     NOP
";

#[test]
fn keeps_the_last_instructions(rt: HostRuntime) -> Result<(), Fail> {
    let cases: [(usize, u32, &[u16]); 8] = [
        (2, 0, &[]),
        (2, 1, &[0x0100]),
        (2, 2, &[0x0100, 0x0102]),
        (2, 3, &[0x0102, 0x0104]),
        (2, 6, &[0x0106, 0x0107]),
        (1, 3, &[0x0104]),
        (3, 9, &[0x0108, 0x0109, 0x010a]),
        (1024, 2, &[0x0100, 0x0102]),
    ];
    for (size, steps, addresses) in cases {
        let mut debugger = debugger(rt.alloc(), &SUM, size)?;
        for _step in 0..steps {
            let _ = step(&mut debugger);
        }
        has_history(&rt, &debugger, addresses);
    }
    Ok(())
}

/// So many steps are told by these lines.
fn tells(rt: &impl Abort, alloc: Global, debugger: &mut Debugger, steps: u32, lines: &str) {
    let mut out = CheckedOutput::new(Vec::<u8>::new(alloc));
    for _step in 0..steps {
        let stepped = step(debugger);
        assert_eq!(rt; write_stepped(&stepped, &mut out), Ok(()));
    }
    let written = out.into_writer();
    assert!(rt; written.as_slice() == lines.as_bytes());
}

#[test]
fn tells_each_step(rt: HostRuntime) -> Result<(), Fail> {
    let cases: [(&[u8], usize, u32, &str, &[u16]); 4] = [
        (
            &SUM,
            8,
            2,
            "0100 3E3A   LD A,3A\n0102 C6C6   ADD A,C6\n",
            &[0x0100, 0x0102],
        ),
        (&[0x76], 8, 3, "0100 76     HALT\nwait\nwait\n", &[0x0100]),
        (
            // VBlank is asked for at power-on
            &[0x3e, 0x01, 0xe0, 0xff, 0xfb],
            8,
            6,
            "0100 3E01   LD A,01\n0102 E0FF   LDH (FF),A\n0104 FB     EI\n0105 00     NOP\ninterrupt 40\n0040 00     NOP\n",
            &[0x0100, 0x0102, 0x0104, 0x0105, 0x0040],
        ),
        (
            &TIMED_HALT,
            4,
            16,
            TIMED_LINES,
            &[0x010f, 0x0110, 0x0050, 0x0051],
        ),
    ];
    for (program, size, steps, lines, addresses) in cases {
        let mut debugger = debugger(rt.alloc(), program, size)?;
        tells(&rt, rt.alloc(), &mut debugger, steps, lines);
        has_history(&rt, &debugger, addresses);
    }
    Ok(())
}

fn lists(rt: &impl Abort, alloc: Global, debugger: &Debugger) {
    let mut out = Vec::new(alloc);
    let listed = debugger.list(0x0100, 2, &mut CheckedOutput::new(&mut out));
    assert_eq!(rt; listed, Ok(()));
    assert!(rt; out.as_slice() == b"0100 00     NOP\n0101 C35001 JP 0150\n".as_slice());
}

fn lists_into(rt: &impl Abort, debugger: &Debugger, room: &mut [u8]) {
    let mut full = CheckedOutput::new(room);
    assert_eq!(rt; debugger.list(0x0100, 2, &mut full), Err(OutputFailed));
}

fn waits_into(rt: &impl Abort, room: &mut [u8]) {
    let wait = Stepped {
        kind: StepKind::Wait,
        cycles: 1,
    };
    let mut full = CheckedOutput::new(room);
    assert_eq!(rt; write_stepped(&wait, &mut full), Err(OutputFailed));
}

#[test]
fn lists_instructions(rt: HostRuntime) -> Result<(), Fail> {
    let debugger = debugger(rt.alloc(), &[0x00, 0xc3, 0x50, 0x01], 1)?;
    lists(&rt, rt.alloc(), &debugger);
    let mut room = [0; 20];
    lists_into(&rt, &debugger, &mut room);
    assert!(rt; room == *b"0100 00     NOP\n0101");
    let mut room = [0; 3];
    waits_into(&rt, &mut room);
    assert!(rt; room == *b"wai");
    Ok(())
}
