//! A debugger that obeys lines.

ghost use Rattle.std.specs.Prelude.{◌≡◌, true, IfErr, IfOk, OnOk};
ghost use Rattle.machine.specs.Machine.{MachineState};
ghost use Rattle.snapshot.specs.Legal.{IsOfImage};
ghost use Rattle.debugging.specs.Run.{begun};
ghost use Rattle.debugging.specs.Debugged.{HasAnsweredAll, IsDebugCause};

use crate::answering::{answer, restore, write_wrong};
use crate::error::DebugError;
use crate::given::{NextGiven, next_given};
use crate::order::read_state_order;
use crate::run::Run;
use crate::switching::switch;
use arrayvec::ArrayVec;
use cartridge::Cartridge;
use exact_text::Output;
use input_lines::LineInput;
use machine::Machine;
use machine_lines::KeptStates;
use memory_map::Region;
use snapshot::length;
use std::alloc::{AllocError, Global};
use std::marker::Model;

/// A machine that is run and looked at by lines.
#[derive(Drop)]
pub struct LineDebugger {
    run: Run,
    // the bytes of the ROM
    rom: usize,
    // room for a snapshot of the machine
    snapshot: Vec<u8>,
    // no state is kept before the first line
    kept: KeptStates,
}

impl Model for LineDebugger {
    ghost use Rattle.std.specs.Prelude.{◌≡◌, [], length};
    ghost use Rattle.std.specs.List.{All};
    ghost use Rattle.snapshot.specs.Encoding.{snapshot_length};
    ghost use Rattle.debugging.specs.Quiet.{HasRom};
    ghost use Rattle.debugging.specs.Run.{RunState, processor_of};

    ghost Value = { RunState };

    ghost view = { λ d. d.run };

    ghost invariant = { λ d. HasRom d.rom (processor_of d.run).memory ×
        (length d.snapshot.items ≡ snapshot_length (length (processor_of d.run).memory.banks.ram))
        × All (λ bytes. bytes ≡ []) d.kept };
}

impl LineDebugger {
    /// A debugger of this machine, none of whose lines were read yet. Condition: it is one of this cartridge.
    pub fn new(
        alloc: Global,
        machine: Machine,
        cartridge: &Cartridge,
    ) -> Result<LineDebugger, AllocError>
        requires { machine.processor.memory.banks.rom ≡ cartridge.now }
        ensures { IfOk result (λ d. d ≡ begun machine) }
    {
        let rom = cartridge.rom().len();
        let room = length(machine.region(Region::CartRam).len());
        let Ok(snapshot) = vec![in alloc; 0u8; room] else {
            drop(machine);
            return Err(AllocError);
        };
        let Ok(kept) = KeptStates::new(alloc) else {
            drop(machine);
            return Err(AllocError);
        };
        let run = Run::new(alloc, machine)?;
        Ok(LineDebugger {
            run,
            rom,
            snapshot,
            kept,
        })
    }

    /// Obeys the lines of an input as they come, each before more is read, with the answer to each on `out`. An empty line is counted and
    /// skipped, and the last may lack its newline. A wrong line, which one of more than 512 bytes is, is answered by `wrong N`, N its number
    /// from 1. No more than 2^64 - 2 lines are read.
    ///
    /// | Line | What is done | Answer |
    /// |---|---|---|
    /// | `step N` | N steps | the line of each: that of the instruction as in a listing, `wait`, or `interrupt` and the vector |
    /// | `until N PLACE..` | steps up to one of the places, of which there are 1 to 16, but at most N; the first is made wherever it begins. A place is `ADDR`, or `BANK:ADDR` where that bank has to be mapped | `stopped ADDR`, or `limit ADDR` if all N were made, with PC |
    /// | `until-op N XX` | steps up to an instruction with this opcode, but at most N | the same |
    /// | `until-change N ADDR` | steps until the byte at an address is another than before, as nothing closes it, but at most N | the same |
    /// | `until-write N ADDR [LAST]` | steps up to one that writes an address, or one up to LAST, but at most N | the same |
    /// | `until-read N ADDR [LAST]` | steps up to one that reads one, but at most N | the same |
    /// | `frame BB`, `frames BB N` | frames with these buttons; the history is empty then | `done` |
    /// | `seconds N` | seconds of the cartridge's clock | `done` |
    /// | `set ADDR XX` | the byte is written as an instruction writes it, but no M-cycle passes; the history is empty then | `done` |
    /// | `set-register R XXXX` | a register, or a pair of them, gets a value; the history is empty then | `done` |
    /// | `registers` | nothing | the line of registers |
    /// | `history N` | nothing | `history K`, and the lines of the last K instructions that `step` and `until` ran: N of them, if there are as many, of 1,024 at most |
    /// | `list ADDR N` | nothing | N lines |
    /// | `memory ADDR N` | nothing | the bytes, sixteen a line, as nothing closes them |
    /// | `bank ADDR` | nothing | `bank XXXX`, the number of the bank that is mapped at an address, or 0 |
    /// | `serial` | nothing | `serial K`, K bytes that were sent since the last `serial`, at most the last 65,536, and a newline |
    /// | `picture` | nothing | the picture as plain PGM |
    /// | `state` | nothing | `state K`, and the K bytes of the machine's state |
    /// | `restore K`, and K bytes | the machine becomes the one of this state; the history is empty then | `restored` |
    /// | `digest` | nothing | `digest` and the SHA-256 of the machine's snapshot |
    /// | `position` | nothing | `position CYCLES FRAMES LY CYCLE MODE`: M-cycles and frames that were made since the debugger began, each modulo 2^64; the line, its M-cycle, and the mode as STAT shows it |
    /// | `power` | the power switch, off and on: RAM and clock stay where the cartridge has a battery; the history is empty then | `done` |
    /// | `keep N` | nothing; the machine is kept under N, 0 to 999, in place of one that was | `kept N` |
    /// | `back N` | the machine becomes the one that was kept last under N; the history is empty then. The line is wrong where none was | `back N` |
    /// | `profile N PLACE..` | steps as `until` makes them, or N where there is no place | that of `until`; `elsewhere` and the M-cycles of steps that ran no instruction of ROM; `profile K`, and K lines: BANK:ADDR of each byte of ROM with which instructions began, and the M-cycles that they took |
    ///
    /// The bytes of `restore` stand right behind its newline, and the next line behind them. Where they are no state of this cartridge,
    /// or fewer to the end of the input, nothing is done, and the line is wrong. So it is, with no bytes behind it, where K is more than 1,048,576.
    ///
    /// Refusals: input failed, once every line that is whole, with its bytes, is answered; output failed, where a proper prefix of the answers went
    /// out; no memory for a line, where every line before it is answered. Such a line is `power`, `profile`, or the first `keep` of a number.
    pub fn obey<R: LineInput, W: Output>(
        self,
        alloc: Global,
        cartridge: &Cartridge,
        input: &mut R,
        out: &mut W,
    ) -> Result<(), DebugError>
        requires { IsOfImage cartridge.now self.debugger.machine }
        ensures answered { OnOk result (HasAnsweredAll self
            (record {
              unread = R.remaining input.old;
              left = R.remaining input.new;
              before = W.contents out.old;
              since = W.contents out.new;
            })) }
        ensures refused { IfErr result (λ why. IsDebugCause why self
            (record {
              unread = R.remaining input.old;
              left = R.remaining input.new;
              before = W.contents out.old;
              since = W.contents out.new;
            })) }
        ensures input { IfErr result (λ why. why ≡ DebugError.Input → R.has_failed input.new ≡ true) }
        ensures output { IfErr result (λ why. why ≡ DebugError.Output → W.has_failed out.new ≡ true) }
    {
        let LineDebugger {
            mut run,
            rom,
            mut snapshot,
            mut kept,
        } = self;
        let mut unread = ArrayVec::new();
        let mut ended = Ok(());
        for number in 1..u64::MAX {
            let written = match next_given(&mut unread, input, &mut snapshot, cartridge) {
                NextGiven::Line(line) => {
                    if let Some(order) = read_state_order(line.as_slice()) {
                        run = match switch(alloc, cartridge, run, &mut kept, order, number, out) {
                            Ok(run) => run,
                            Err(why) => return Err(why),
                        };
                        continue;
                    }
                    let answered = answer(
                        run,
                        line.as_slice(),
                        number,
                        rom,
                        cartridge,
                        &mut snapshot,
                        out,
                    );
                    run = answered.run;
                    answered.written
                }
                NextGiven::State => {
                    let answered = restore(run, cartridge, &snapshot, number, out);
                    run = answered.run;
                    answered.written
                }
                NextGiven::Wrong => write_wrong(number, out),
                NextGiven::Last => {
                    if write_wrong(number, out).is_err() {
                        ended = Err(DebugError::Output);
                    }
                    break;
                }
                NextGiven::End => break,
                NextGiven::Failed => {
                    ended = Err(DebugError::Input);
                    break;
                }
            };
            if written.is_err() {
                ended = Err(DebugError::Output);
                break;
            }
        }
        drop(run);
        ended
    }
}
