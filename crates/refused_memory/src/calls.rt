//! The calls, each on a game of five inputs or on its cartridge. `None`: the memory before it was refused.
use crate::answers::{Answer, refused};
use cartridge::Cartridge;
use commands::{CommandError, debug_game, debug_rom, play_and_draw, step_line};
use debugger::Debugger;
use exact_text::CheckedOutput;
use input_lines::CheckedInput;
use machine::{Input, Machine, Region};
use playing::play;
use script::{Move, ScriptError, read_script};
use sector_device::{MemoryDevice, Refused, SectorDevice};
use sector_log::{LogFault, open_log};
use session::{Session, SessionError, new_game, resume};
use snapshot::{SnapError, decode, encode, length};
use std::alloc::Global;

/// Sectors of a device that holds a game with 8 KiB of RAM.
const SECTORS: usize = 188;

/// Inputs of the game.
const INPUTS: u32 = 5;

const SCRIPT: &[u8] = b"frames 01 2\nseconds 3\nsave\nframe 02\n";

const LINES: &[u8] = b"step 3\nframe 01\nhistory 3\nserial\ndigest\nregisters\n";

/// Lines of a debugger, three of which take memory.
const STATE_LINES: &[u8] = b"step 1\nkeep 3\nkeep 3\nback 3\npower\nprofile 3\nregisters\n";

/// The answers to the lines before each of the three.
const ANSWERED: [&[u8]; 3] = [
    b"0100 18FE   JR -02\n",
    b"0100 18FE   JR -02\nkept 3\nkept 3\nback 3\n",
    b"0100 18FE   JR -02\nkept 3\nkept 3\nback 3\ndone\n",
];

fn set(bytes: &mut [u8], at: usize, value: u8) {
    if let Some(place) = bytes.get_mut(at) {
        *place = value;
    }
}

/// A ROM of 32 KiB with a clock and 8 KiB of RAM, that loops.
fn rom(alloc: Global) -> Option<Vec<u8>> {
    let mut rom = Vec::from_elem(alloc, 0u8, 0x8000).ok()?;
    set(&mut rom, 0x100, 0x18);
    set(&mut rom, 0x101, 0xFE);
    set(&mut rom, 0x147, 0x10);
    set(&mut rom, 0x149, 0x02);
    Some(rom)
}

fn cartridge(alloc: Global) -> Option<Cartridge> {
    Cartridge::read(rom(alloc)?).ok()
}

fn machine(alloc: Global, cartridge: &Cartridge) -> Option<Machine> {
    let mut machine = Machine::power_on(alloc, cartridge).ok()?;
    for i in 0..INPUTS {
        machine.apply(Input::Seconds(i));
    }
    Some(machine)
}

fn snapshot_of(alloc: Global, machine: &Machine) -> Option<Vec<u8>> {
    let ram = machine.region(Region::CartRam).len();
    if ram > 131_072 {
        return None;
    }
    let mut bytes = Vec::from_elem(alloc, 0u8, length(ram)).ok()?;
    encode(machine, &mut bytes);
    Some(bytes)
}

fn play_on(session: &mut Session<MemoryDevice>) -> Option<()> {
    for i in 0..INPUTS {
        session.input(Input::Seconds(i)).ok()?;
    }
    session.save().ok()?;
    Some(())
}

/// The device behind the game's inputs, all of it synced.
fn settled(alloc: Global, session: Session<MemoryDevice>) -> Option<MemoryDevice> {
    let mut session = session;
    play_on(&mut session)?;
    session.into_device().image(alloc, &[]).ok()
}

/// A device with the game on it.
fn game(alloc: Global, cartridge: &Cartridge) -> Option<MemoryDevice> {
    let device = MemoryDevice::new(alloc, SECTORS, 1000).ok()?;
    settled(alloc, new_game(alloc, device, cartridge).ok()?)
}

/// The snapshot of a session's machine, if it has the game's inputs.
fn snapshot_in(alloc: Global, session: &Session<MemoryDevice>) -> Option<Vec<u8>> {
    if session.counts().all == u64::from(INPUTS) {
        snapshot_of(alloc, session.machine())
    } else {
        None
    }
}

/// The snapshot of the machine that a resume finds, if it finds the game's inputs.
fn found(alloc: Global, device: MemoryDevice, cartridge: &Cartridge) -> Option<Vec<u8>> {
    match resume(alloc, device, cartridge) {
        Ok(session) => snapshot_in(alloc, &session),
        Err(_) => None,
    }
}

/// The snapshot of the machine after the game's inputs.
fn wanted(alloc: Global, cartridge: &Cartridge) -> Option<Vec<u8>> {
    snapshot_of(alloc, &machine(alloc, cartridge)?)
}

/// Whether a resume finds the game's inputs and its machine.
fn holds_the_game(alloc: Global, device: MemoryDevice, cartridge: &Cartridge) -> bool {
    match (found(alloc, device, cartridge), wanted(alloc, cartridge)) {
        (Some(found), Some(wanted)) => found.as_slice() == wanted.as_slice(),
        _ => false,
    }
}

fn powered_on(alloc: Global, cartridge: &Cartridge) -> Answer {
    match Machine::power_on(alloc, cartridge) {
        Ok(_) => Answer::Done,
        Err(_) => Answer::Refused,
    }
}

pub(crate) fn power_on(alloc: Global) -> Option<Answer> {
    Some(powered_on(alloc, &cartridge(alloc)?))
}

fn decoded_from(alloc: Global, bytes: &[u8], cartridge: &Cartridge) -> Answer {
    match decode(alloc, bytes, cartridge) {
        Ok(_) => Answer::Done,
        Err(why) => refused(why == SnapError::Memory),
    }
}

pub(crate) fn decoded(alloc: Global) -> Option<Answer> {
    let cartridge = cartridge(alloc)?;
    let bytes = wanted(alloc, &cartridge)?;
    Some(decoded_from(alloc, &bytes, &cartridge))
}

/// Whether a machine has this snapshot.
fn has_snapshot(alloc: Global, machine: &Machine, bytes: &[u8]) -> Answer {
    match snapshot_of(alloc, machine) {
        Some(found) => refused(found.as_slice() == bytes),
        None => Answer::Wrong,
    }
}

fn debugger_of(alloc: Global, machine: Machine, bytes: &[u8]) -> Answer {
    match Debugger::new(alloc, machine, 100) {
        Ok(_) => Answer::Done,
        Err(machine) => has_snapshot(alloc, &machine, bytes),
    }
}

pub(crate) fn debugger(alloc: Global) -> Option<Answer> {
    let cartridge = cartridge(alloc)?;
    let bytes = wanted(alloc, &cartridge)?;
    Some(debugger_of(alloc, machine(alloc, &cartridge)?, &bytes))
}

fn opened_on(alloc: Global, device: MemoryDevice, cartridge: &Cartridge) -> Answer {
    match open_log(alloc, device, 40_000) {
        Ok(_) => Answer::Done,
        Err(left) => refused(
            left.why == LogFault::Memory
                && left.device.calls() == 0
                && holds_the_game(alloc, left.device, cartridge),
        ),
    }
}

pub(crate) fn opened(alloc: Global) -> Option<Answer> {
    let cartridge = cartridge(alloc)?;
    Some(opened_on(alloc, game(alloc, &cartridge)?, &cartridge))
}

/// The game stands on the device of a call that memory refused after so many calls at most.
fn left_the_game(
    alloc: Global,
    left: Refused<SessionError, MemoryDevice>,
    most: usize,
    cartridge: &Cartridge,
) -> Answer {
    refused(
        left.why == SessionError::Memory
            && left.device.calls() <= most
            && holds_the_game(alloc, left.device, cartridge),
    )
}

fn begun_on(alloc: Global, device: MemoryDevice, cartridge: &Cartridge) -> Answer {
    match new_game(alloc, device, cartridge) {
        Ok(_) => Answer::Done,
        Err(left) => left_the_game(alloc, left, 0, cartridge),
    }
}

pub(crate) fn begun(alloc: Global) -> Option<Answer> {
    let cartridge = cartridge(alloc)?;
    Some(begun_on(alloc, game(alloc, &cartridge)?, &cartridge))
}

fn resumed_on(alloc: Global, device: MemoryDevice, cartridge: &Cartridge) -> Answer {
    match resume(alloc, device, cartridge) {
        Ok(_) => Answer::Done,
        Err(left) => left_the_game(alloc, left, 1, cartridge),
    }
}

pub(crate) fn resumed(alloc: Global) -> Option<Answer> {
    let cartridge = cartridge(alloc)?;
    Some(resumed_on(alloc, game(alloc, &cartridge)?, &cartridge))
}

pub(crate) fn script(alloc: Global) -> Option<Answer> {
    Some(match read_script(alloc, SCRIPT) {
        Ok(moves) if moves.len() == 4 => Answer::Done,
        Ok(_) => Answer::Wrong,
        Err(why) => refused(why == ScriptError::Memory),
    })
}

/// A play into a report that takes no memory. What a refused one reported stays empty.
pub(crate) fn played(alloc: Global) -> Option<Answer> {
    let cartridge = cartridge(alloc)?;
    let device = game(alloc, &cartridge)?;
    let moves = [
        Move::Frames {
            buttons: 1,
            times: 2,
        },
        Move::Seconds(3),
        Move::Save,
    ];
    let mut buffer = [0; 64];
    let report: &mut [u8] = &mut buffer;
    let answer = match play(
        alloc,
        device,
        &cartridge,
        &moves,
        &mut CheckedOutput::new(report),
    ) {
        Ok(_) => return Some(Answer::Done),
        Err(left) => refused(
            left.why == SessionError::Memory && holds_the_game(alloc, left.device, &cartridge),
        ),
    };
    Some(match answer {
        Answer::Refused => refused(buffer == [0; 64]),
        other => other,
    })
}

pub(crate) fn drawn(alloc: Global) -> Option<Answer> {
    let cartridge = cartridge(alloc)?;
    let device = game(alloc, &cartridge)?;
    let rom = rom(alloc)?;
    let mut picture = Vec::from_elem(alloc, 0u8, 50_000).ok()?;
    let room: &mut [u8] = &mut picture;
    let mut out = CheckedOutput::new(room);
    let mut buffer = [0; 64];
    let report: &mut [u8] = &mut buffer;
    let answer = match play_and_draw(
        alloc,
        device,
        rom,
        SCRIPT,
        &mut CheckedOutput::new(report),
        &mut out,
    ) {
        Ok(_) => return Some(Answer::Done),
        Err(left) => {
            let is_memory = left.why == CommandError::Session(SessionError::Memory)
                || left.why == CommandError::Script(ScriptError::Memory);
            refused(is_memory && holds_the_game(alloc, left.device, &cartridge))
        }
    };
    Some(match answer {
        Answer::Refused => refused(buffer == [0; 64]),
        other => other,
    })
}

pub(crate) fn stepped(alloc: Global) -> Option<Answer> {
    let rom = rom(alloc)?;
    let mut buffer = [0; 128];
    let out: &mut [u8] = &mut buffer;
    let why = match step_line(alloc, rom, 9, &mut CheckedOutput::new(out)) {
        Ok(()) => return Some(Answer::Done),
        Err(why) => why,
    };
    Some(refused(why == CommandError::Memory && buffer == [0; 128]))
}

/// A debugger that is refused has read nothing and answered nothing.
pub(crate) fn debugged_rom(alloc: Global) -> Option<Answer> {
    let rom = rom(alloc)?;
    let mut buffer = [0; 512];
    let out: &mut [u8] = &mut buffer;
    let mut input: &[u8] = LINES;
    let why = match debug_rom(
        alloc,
        rom,
        &mut CheckedInput::new(&mut input),
        &mut CheckedOutput::new(out),
    ) {
        Ok(()) => return Some(Answer::Done),
        Err(why) => why,
    };
    let is_unread = input.len() == LINES.len();
    Some(refused(why == CommandError::Memory && is_unread && buffer == [0; 512]))
}

/// A debugger that is refused within its lines has answered those before the one that takes memory.
pub(crate) fn debugged_states(alloc: Global) -> Option<Answer> {
    let rom = rom(alloc)?;
    let mut buffer = [0; 512];
    let out: &mut [u8] = &mut buffer;
    let mut input: &[u8] = STATE_LINES;
    let why = match debug_rom(
        alloc,
        rom,
        &mut CheckedInput::new(&mut input),
        &mut CheckedOutput::new(out),
    ) {
        Ok(()) => return Some(Answer::Done),
        Err(why) => why,
    };
    Some(refused(match why {
        CommandError::Memory => input.len() == STATE_LINES.len() && buffer == [0; 512],
        CommandError::Debug(_) => ANSWERED.iter().any(|text| is_all(&buffer, text)),
        _ => false,
    }))
}

/// Whether a buffer that was empty holds this text and nothing more.
fn is_all(buffer: &[u8; 512], text: &[u8]) -> bool {
    buffer.starts_with(text) && buffer.get(text.len()) == Some(&0)
}

pub(crate) fn debugged_game(alloc: Global) -> Option<Answer> {
    let cartridge = cartridge(alloc)?;
    let device = game(alloc, &cartridge)?;
    let rom = rom(alloc)?;
    let mut buffer = [0; 512];
    let out: &mut [u8] = &mut buffer;
    let mut input: &[u8] = LINES;
    let answer = match debug_game(
        alloc,
        device,
        rom,
        &mut CheckedInput::new(&mut input),
        &mut CheckedOutput::new(out),
    ) {
        Ok(_) => return Some(Answer::Done),
        Err(left) => {
            let is_memory = left.why == CommandError::Memory
                || left.why == CommandError::Session(SessionError::Memory);
            refused(is_memory && holds_the_game(alloc, left.device, &cartridge))
        }
    };
    let is_unread = input.len() == LINES.len();
    Some(match answer {
        Answer::Refused => refused(is_unread && buffer == [0; 512]),
        other => other,
    })
}

pub(crate) fn device(alloc: Global) -> Option<Answer> {
    Some(match MemoryDevice::new(alloc, SECTORS, 100) {
        Ok(_) => Answer::Done,
        Err(_) => Answer::Refused,
    })
}

/// An image of a device with a write that is not synced, of a sector that the game does not use.
pub(crate) fn image(alloc: Global) -> Option<Answer> {
    let cartridge = cartridge(alloc)?;
    let mut device = game(alloc, &cartridge)?;
    if device.count() != 188 || device.write(50, &[7; 512]).is_err() {
        return Some(Answer::Wrong);
    }
    if device.image(alloc, &[true]).is_ok() {
        return Some(Answer::Done);
    }
    Some(refused(device.calls() == 1 && holds_the_game(alloc, device, &cartridge)))
}
