//! What is answered to a line.

ghost use Rattle.std.specs.Prelude.{◌≡◌, [], codes, drop, length, true, if◌then◌else◌, OnErr, OnOk};
ghost use Rattle.std.specs.Io.KnownBytes.{Appends};
ghost use Rattle.exact_text.specs.Written.{AppendsProperPrefix};
ghost use Rattle.memory_map.specs.BusRules.{bus_rules};
ghost use Rattle.machine_lines.specs.Texts.{count_line};
ghost use Rattle.snapshot.specs.Encoding.{encoded, snapshot_length};
ghost use Rattle.snapshot.specs.Legal.{IsOfImage};
ghost use Rattle.std.specs.List.{flat_map};
ghost use Rattle.debugger.specs.Registers.{register_line};
ghost use Rattle.debugger.specs.Report.{line_seen, step_lines};
ghost use Rattle.debugging.specs.Answers.{after_line, after_order, answer_line, answer_to, history_text, met_text, restored_text, digest_line, digest_text, place_text, serial_text, wrong_line};
ghost use Rattle.debugging.specs.Answers.{bank_line};
ghost use Rattle.debugging.specs.Position.{position_line};
ghost use Rattle.debugging.specs.States.{after_snapshot, is_snapshot, rom_of};
ghost use Rattle.debugging.specs.Banks.{bank_at};
ghost use Rattle.debugging.specs.Quiet.{HasRom};
ghost use Rattle.debugging.specs.Run.{after_steps_of, processor_of};

use crate::banks::bank_at;
use crate::order::{Order, read_order};
use crate::position::{picture_state, position_text};
use crate::run::{Run, RunMet, RunRestored};
use arrayvec::ArrayString;
use cartridge::Cartridge;
use debugger::{Debugger, register_line, write_stepped};
use exact_text::{Output, OutputFailed, digest_digits, number_digits, word_digits, write_whole};
use machine::{Machine, Processor, StepKind, Stepped};
use machine_lines::{write_count, write_look};
use memory_map::Bus;
use sha2::{Digest, Sha256};
use snapshot::encode;

/// A run after a line was obeyed, and whether its answer was written.
#[derive(Drop)]
pub(crate) struct Answered {
    pub(crate) run: Run,
    pub(crate) written: Result<(), OutputFailed>,
}

/// Does what a line asks for, and answers it. Conditions: the ROM has `rom` bytes, and `snapshot` has room for the machine's.
pub(crate) fn answer<W: Output>(
    run: Run,
    line: &[u8],
    number: u64,
    rom: usize,
    cartridge: &Cartridge,
    snapshot: &mut [u8],
    out: &mut W,
) -> Answered
    requires rom { HasRom rom (processor_of run).memory }
    requires of { (processor_of run).memory.banks.rom ≡ cartridge.now }
    requires snapshot { length snapshot.old ≡ snapshot_length (length (processor_of run).memory.banks.ram) }
    ensures run { OnOk result.written (result.run ≡ after_line line.now run) }
    ensures ok { OnOk result.written
        (Appends (W.contents out.old) (W.contents out.new) (answer_line line.now number run)) }
    ensures err { OnErr result.written
        (AppendsProperPrefix (W.contents out.old) (W.contents out.new) (answer_line line.now number run)) }
    ensures failed { OnErr result.written (W.has_failed out.new ≡ true) }
    ensures room { length snapshot.new ≡ length snapshot.old }
{
    if line.is_empty() {
        return Answered {
            run,
            written: Ok(()),
        };
    }
    match read_order(line) {
        Some(order) => obey(run, order, rom, cartridge, snapshot, out),
        None => {
            let written = write_wrong(number, out);
            Answered { run, written }
        }
    }
}

/// Makes the machine the one of this snapshot, if it is one of the cartridge, and answers it. Condition: the machine is one of it.
pub(crate) fn restore<W: Output>(
    run: Run,
    cartridge: &Cartridge,
    snapshot: &[u8],
    number: u64,
    out: &mut W,
) -> Answered
    requires { IsOfImage cartridge.now run.debugger.machine }
    ensures of { IsOfImage cartridge.now result.run.debugger.machine }
    ensures run { OnOk result.written (result.run ≡ after_snapshot snapshot.now run) }
    ensures ok { OnOk result.written
        (Appends (W.contents out.old) (W.contents out.new)
        (restored_text (is_snapshot (rom_of run) snapshot.now) number)) }
    ensures err { OnErr result.written
        (AppendsProperPrefix (W.contents out.old) (W.contents out.new)
        (restored_text (is_snapshot (rom_of run) snapshot.now) number)) }
    ensures failed { OnErr result.written (W.has_failed out.new ≡ true) }
{
    let RunRestored { run, is_restored } = run.restore(cartridge, snapshot);
    let written = write_restored(is_restored, number, out);
    Answered { run, written }
}

fn write_restored<W: Output>(
    is_restored: bool,
    number: u64,
    out: &mut W,
) -> Result<(), OutputFailed>
    ensures ok { OnOk result (Appends (W.contents out.old) (W.contents out.new)
        (restored_text is_restored number)) }
    ensures err { OnErr result (AppendsProperPrefix (W.contents out.old) (W.contents out.new)
        (restored_text is_restored number)) }
    ensures failed { OnErr result (W.has_failed out.new ≡ true) }
{
    if is_restored {
        return write_whole(out, b"restored\n");
    }
    write_wrong(number, out)
}

/// The line about a wrong line.
pub(crate) fn write_wrong<W: Output>(number: u64, out: &mut W) -> Result<(), OutputFailed>
    ensures ok { OnOk result (Appends (W.contents out.old) (W.contents out.new) (wrong_line number)) }
    ensures err { OnErr result (AppendsProperPrefix (W.contents out.old) (W.contents out.new) (wrong_line number)) }
    ensures failed { OnErr result (W.has_failed out.new ≡ true) }
{
    let text = wrong_text(number);
    write_whole(out, text.as_bytes())
}

fn wrong_text(number: u64) -> ArrayString<32>
    ensures { result.bytes ≡ wrong_line number }
{
    let mut text = ArrayString::new();
    text.push_str("wrong ");
    text.push_str(number_digits(number).as_str());
    text.push_str("\n");
    text
}

/// Does what an order asks for, and answers it.
fn obey<W: Output>(
    run: Run,
    order: Order,
    rom: usize,
    cartridge: &Cartridge,
    snapshot: &mut [u8],
    out: &mut W,
) -> Answered
    requires rom { HasRom rom (processor_of run).memory }
    requires of { (processor_of run).memory.banks.rom ≡ cartridge.now }
    requires snapshot { length snapshot.old ≡ snapshot_length (length (processor_of run).memory.banks.ram) }
    ensures run { OnOk result.written (result.run ≡ after_order order run) }
    ensures ok { OnOk result.written (Appends (W.contents out.old) (W.contents out.new) (answer_to order run)) }
    ensures err { OnErr result.written
        (AppendsProperPrefix (W.contents out.old) (W.contents out.new) (answer_to order run)) }
    ensures failed { OnErr result.written (W.has_failed out.new ≡ true) }
    ensures room { length snapshot.new ≡ length snapshot.old }
{
    match order {
        Order::Frames { buttons, times } => {
            let run = run.frames(buttons, times);
            let written = write_whole(out, b"done\n");
            Answered { run, written }
        }
        Order::Seconds(count) => {
            let run = run.seconds(count);
            let written = write_whole(out, b"done\n");
            Answered { run, written }
        }
        Order::Step(count) => write_steps(run, count, out),
        Order::Until { steps, conditions } => {
            stopped(run.run_until(conditions.as_slice(), rom, steps), out)
        }
        Order::Continue { steps, conditions } => {
            met(run.run_until(conditions.as_slice(), rom, steps), out)
        }
        Order::Set { address, byte } => {
            let run = run.set(address, byte);
            let written = write_whole(out, b"done\n");
            Answered { run, written }
        }
        Order::SetRegister(value) => {
            let run = run.set_register(value);
            let written = write_whole(out, b"done\n");
            Answered { run, written }
        }
        Order::Serial => write_serial(run, out),
        Order::Registers => {
            let written = write_registers(&run, out);
            Answered { run, written }
        }
        Order::History(count) => {
            let written = write_history(&run, count, out);
            Answered { run, written }
        }
        Order::List { address, count } => {
            let written = run.debugger().list(address, count, out);
            Answered { run, written }
        }
        Order::Look(look) => {
            let run = run.drawn_for(look);
            let written = write_look(look, run.debugger().machine(), cartridge, snapshot, out);
            Answered { run, written }
        }
        Order::Bank(address) => {
            let written = write_bank(&run, rom, address, out);
            Answered { run, written }
        }
        Order::Digest => {
            let written = write_digest(run.debugger().machine(), snapshot, out);
            Answered { run, written }
        }
        Order::Position => {
            let written = write_position(&run, out);
            Answered { run, written }
        }
    }
}

/// Says where a run is, and whether it stopped there.
fn stopped<W: Output>(until: RunMet, out: &mut W) -> Answered
    ensures run { result.run ≡ until.run }
    ensures ok { OnOk result.written
        (Appends (W.contents out.old) (W.contents out.new) (place_text until.is_there (processor_of until.run))) }
    ensures err { OnErr result.written
        (AppendsProperPrefix (W.contents out.old) (W.contents out.new)
        (place_text until.is_there (processor_of until.run))) }
    ensures failed { OnErr result.written (W.has_failed out.new ≡ true) }
{
    let RunMet { run, is_there, .. } = until;
    let written = write_place(is_there, run.processor(), out);
    Answered { run, written }
}

/// Says where a run is, and which condition stopped it there, if one did.
fn met<W: Output>(until: RunMet, out: &mut W) -> Answered
    ensures run { result.run ≡ until.run }
    ensures ok { OnOk result.written
        (Appends (W.contents out.old) (W.contents out.new)
        (met_text until.is_there until.number (processor_of until.run))) }
    ensures err { OnErr result.written
        (AppendsProperPrefix (W.contents out.old) (W.contents out.new)
        (met_text until.is_there until.number (processor_of until.run))) }
    ensures failed { OnErr result.written (W.has_failed out.new ≡ true) }
{
    let RunMet {
        run,
        is_there,
        number,
    } = until;
    let text = met_text(is_there, number, run.processor());
    let written = write_whole(out, text.as_bytes());
    Answered { run, written }
}

fn met_text(is_there: bool, number: usize, processor: &Processor<Bus>) -> ArrayString<48>
    ensures { result.bytes ≡ met_text is_there number processor.now }
{
    let mut text = ArrayString::new();
    text.push_str(if is_there { "stopped " } else { "limit " });
    text.push_str(word_digits(processor.registers.pc).as_str());
    if is_there {
        text.push_str(" ");
        text.push_str(number_digits(number as u64).as_str());
    }
    text.push_str("\n");
    text
}

fn write_registers<W: Output>(run: &Run, out: &mut W) -> Result<(), OutputFailed>
    ensures ok { OnOk result
        (Appends (W.contents out.old) (W.contents out.new) (register_line (processor_of run.now))) }
    ensures err { OnErr result
        (AppendsProperPrefix (W.contents out.old) (W.contents out.new) (register_line (processor_of run.now))) }
    ensures failed { OnErr result (W.has_failed out.new ≡ true) }
{
    let text = register_line(run.processor());
    write_whole(out, text.as_bytes())
}

/// Writes which bank is mapped at an address. Condition: the ROM has `rom` bytes.
fn write_bank<W: Output>(
    run: &Run,
    rom: usize,
    address: u16,
    out: &mut W,
) -> Result<(), OutputFailed>
    requires { HasRom rom (processor_of run.now).memory }
    ensures ok { OnOk result
        (Appends (W.contents out.old) (W.contents out.new)
        (bank_line (bank_at (processor_of run.now).memory address))) }
    ensures err { OnErr result
        (AppendsProperPrefix (W.contents out.old) (W.contents out.new)
        (bank_line (bank_at (processor_of run.now).memory address))) }
    ensures failed { OnErr result (W.has_failed out.new ≡ true) }
{
    let text = bank_text(bank_at(&run.processor().memory, rom, address));
    write_whole(out, text.as_bytes())
}

fn bank_text(bank: u16) -> ArrayString<16>
    ensures { result.bytes ≡ bank_line bank }
{
    let mut text = ArrayString::new();
    text.push_str("bank ");
    text.push_str(word_digits(bank).as_str());
    text.push_str("\n");
    text
}

/// Makes so many steps, and writes the line of each.
fn write_steps<W: Output>(run: Run, count: u32, out: &mut W) -> Answered
    ensures run { OnOk result.written (result.run ≡ after_steps_of count run) }
    ensures ok { OnOk result.written
        (Appends (W.contents out.old) (W.contents out.new) (step_lines bus_rules count (processor_of run))) }
    ensures err { OnErr result.written
        (AppendsProperPrefix (W.contents out.old) (W.contents out.new)
        (step_lines bus_rules count (processor_of run))) }
    ensures failed { OnErr result.written (W.has_failed out.new ≡ true) }
{
    run.no_step();
    let mut run = run;
    for _i in 0..count {
        let step = run.step();
        run = step.run;
        if let Err(fault) = write_stepped(&step.stepped, out) {
            return Answered {
                run,
                written: Err(fault),
            };
        }
    }
    Answered {
        run,
        written: Ok(()),
    }
}

/// Writes where a run is, and whether it stopped there.
pub(crate) fn write_place<W: Output>(
    is_there: bool,
    processor: &Processor<Bus>,
    out: &mut W,
) -> Result<(), OutputFailed>
    ensures ok { OnOk result (Appends (W.contents out.old) (W.contents out.new) (place_text is_there processor.now)) }
    ensures err { OnErr result
        (AppendsProperPrefix (W.contents out.old) (W.contents out.new) (place_text is_there processor.now)) }
    ensures failed { OnErr result (W.has_failed out.new ≡ true) }
{
    let text = place_text(is_there, processor);
    write_whole(out, text.as_bytes())
}

fn place_text(is_there: bool, processor: &Processor<Bus>) -> ArrayString<16>
    ensures { result.bytes ≡ place_text is_there processor.now }
{
    let mut text = ArrayString::new();
    text.push_str(if is_there { "stopped " } else { "limit " });
    text.push_str(word_digits(processor.registers.pc).as_str());
    text.push_str("\n");
    text
}

/// Writes how many instructions follow, and then the last ones of the history, at most `most`.
fn write_history<W: Output>(run: &Run, most: u32, out: &mut W) -> Result<(), OutputFailed>
    ensures ok { OnOk result
        (Appends (W.contents out.old) (W.contents out.new) (history_text most run.now.debugger.history)) }
    ensures err { OnErr result
        (AppendsProperPrefix (W.contents out.old) (W.contents out.new) (history_text most run.now.debugger.history)) }
    ensures failed { OnErr result (W.has_failed out.new ≡ true) }
{
    let length = run.debugger().history_len();
    let first = length.saturating_sub(most as usize);
    if let Err(fault) = write_count("history", length - first, out) {
        return Err(fault);
    }
    write_seen(run.debugger(), first, out)
}

/// Writes the instructions of a history from an index on.
fn write_seen<W: Output>(debugger: &Debugger, first: usize, out: &mut W) -> Result<(), OutputFailed>
    ensures ok { OnOk result
        (Appends (W.contents out.old) (W.contents out.new) (flat_map line_seen (drop first debugger.now.history))) }
    ensures err { OnErr result
        (AppendsProperPrefix (W.contents out.old) (W.contents out.new)
        (flat_map line_seen (drop first debugger.now.history))) }
    ensures failed { OnErr result (W.has_failed out.new ≡ true) }
{
    for index in first..debugger.history_len() {
        if let Some(executed) = debugger.history(index) {
            let seen = Stepped {
                kind: StepKind::Ran(executed),
                cycles: 0,
            };
            if let Err(fault) = write_stepped(&seen, out) {
                return Err(fault);
            }
        }
    }
    Ok(())
}

/// Writes how many bytes follow, and then the bytes that were not told yet, which are told then.
fn write_serial<W: Output>(run: Run, out: &mut W) -> Answered
    ensures run { OnOk result.written (result.run ≡ record run { sent = [] }) }
    ensures ok { OnOk result.written (Appends (W.contents out.old) (W.contents out.new) (serial_text run.sent)) }
    ensures err { OnErr result.written
        (AppendsProperPrefix (W.contents out.old) (W.contents out.new) (serial_text run.sent)) }
    ensures failed { OnErr result.written (W.has_failed out.new ≡ true) }
{
    let mut run = run;
    let written = write_sent(&run, out);
    if written.is_ok() {
        run.forget_sent();
    }
    Answered { run, written }
}

fn write_sent<W: Output>(run: &Run, out: &mut W) -> Result<(), OutputFailed>
    ensures ok { OnOk result (Appends (W.contents out.old) (W.contents out.new) (serial_text run.now.sent)) }
    ensures err { OnErr result
        (AppendsProperPrefix (W.contents out.old) (W.contents out.new) (serial_text run.now.sent)) }
    ensures failed { OnErr result (W.has_failed out.new ≡ true) }
{
    let (first, second) = run.sent();
    if let Err(fault) = write_count("serial", first.len() + second.len(), out) {
        return Err(fault);
    }
    if let Err(fault) = write_whole(out, first) {
        return Err(fault);
    }
    if let Err(fault) = write_whole(out, second) {
        return Err(fault);
    }
    write_whole(out, b"\n")
}

/// Writes the digest of the machine's snapshot, for which there is room.
fn write_digest<W: Output>(
    machine: &Machine,
    snapshot: &mut [u8],
    out: &mut W,
) -> Result<(), OutputFailed>
    requires { length snapshot.old ≡ snapshot_length (length machine.now.processor.memory.banks.ram) }
    ensures ok { OnOk result (Appends (W.contents out.old) (W.contents out.new) (digest_text machine.now)) }
    ensures err { OnErr result
        (AppendsProperPrefix (W.contents out.old) (W.contents out.new) (digest_text machine.now)) }
    ensures failed { OnErr result (W.has_failed out.new ≡ true) }
    ensures room { length snapshot.new ≡ length snapshot.old }
{
    encode(machine, snapshot);
    let text = digest_text(Sha256::digest(snapshot));
    write_whole(out, text.as_bytes())
}

/// Writes where in time a run is.
fn write_position<W: Output>(run: &Run, out: &mut W) -> Result<(), OutputFailed>
    ensures ok { OnOk result
        (Appends (W.contents out.old) (W.contents out.new)
        (position_line run.now.played (processor_of run.now).memory.picture.picture.state)) }
    ensures err { OnErr result
        (AppendsProperPrefix (W.contents out.old) (W.contents out.new)
        (position_line run.now.played (processor_of run.now).memory.picture.picture.state)) }
    ensures failed { OnErr result (W.has_failed out.new ≡ true) }
{
    let picture = picture_state(run.debugger().machine());
    let text = position_text(run.played(), &picture);
    write_whole(out, text.as_bytes())
}

fn digest_text(digest: [u8; 32]) -> ArrayString<80>
    ensures { result.bytes ≡ digest_line digest }
{
    let mut text = ArrayString::new();
    text.push_str("digest ");
    text.push_str(digest_digits(digest).as_str());
    text.push_str("\n");
    text
}
