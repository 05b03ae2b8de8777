//! A debugger over a ROM from power-on, or over a game.

ghost use Rattle.std.specs.Prelude.{◌≡◌, true, IfErr, OnOk};
ghost use Rattle.cartridge.specs.Accepted.{IsAccepted};
ghost use Rattle.snapshot.specs.Legal.{IsMachineOf};
ghost use Rattle.sector_device.specs.DiskState.{HasAnswered};
ghost use Rattle.sector_device.specs.Runs.{HoldsSince};
ghost use Rattle.session.specs.Stands.{StandsAsBefore};
ghost use Rattle.session.specs.Resting.{IsOfItsRom};
ghost use Rattle.machine.specs.Machine.{start};
ghost use Rattle.debugging.specs.Debugged.{HasAnsweredAll};
ghost use Rattle.debugging.specs.Run.{begun};
ghost use Rattle.commands.specs.Debug.{HasDebugged, IsBegunAndDebugged, IsDebugGameCause, IsDebugRomCause, IsNotDebugged};
ghost use Rattle.commands.specs.Refusals.{faults_after};
ghost use Rattle.sector_device.specs.Refusal.{left_by};

use crate::copy::copy_of;
use crate::error::CommandError;
use cartridge::Cartridge;
use debugging::{DebugError, LineDebugger};
use exact_text::Output;
use input_lines::LineInput;
use machine::Machine;
use playing::write_resumed;
use sector_device::{Refused, SectorDevice};
use session::resume;
use std::alloc::Global;

/// Debugs a cartridge from power-on, as `LineDebugger` obeys its lines.
///
/// Refusals, in this order: what is wrong with the image; no memory, both with nothing read and nothing written; why the debugger stopped.
#[tactic(auto, unfolding(bank_controllers::specs::CartridgeState::cartridge_at_power_on))]
pub fn debug_rom<R: LineInput, W: Output>(
    alloc: Global,
    rom: Vec<u8>,
    input: &mut R,
    out: &mut W,
) -> Result<(), CommandError>
    ensures accepted { OnOk result (IsAccepted rom.items) }
    ensures answered { OnOk result (HasAnsweredAll (begun (start rom.items))
        (record {
          unread = R.remaining input.old;
          left = R.remaining input.new;
          before = W.contents out.old;
          since = W.contents out.new;
        })) }
    ensures cause { IfErr result (λ why. IsDebugRomCause rom.items
        (record {
          unread = R.remaining input.old;
          left = R.remaining input.new;
          before = W.contents out.old;
          since = W.contents out.new;
        }) why) }
    ensures input { IfErr result (λ why. why ≡ CommandError.Debug DebugError.Input → R.has_failed input.new ≡ true) }
    ensures output { IfErr result (λ why. why ≡ CommandError.Debug DebugError.Output → W.has_failed out.new ≡ true) }
{
    let cartridge = match Cartridge::read(rom) {
        Ok(cartridge) => cartridge,
        Err(fault) => return Err(CommandError::Cart(fault)),
    };
    let machine = match Machine::power_on(alloc, &cartridge) {
        Ok(machine) => machine,
        Err(_) => return Err(CommandError::Memory),
    };
    let debugger = match LineDebugger::new(alloc, machine, &cartridge) {
        Ok(debugger) => debugger,
        Err(_) => return Err(CommandError::Memory),
    };
    match debugger.obey(alloc, &cartridge, input, out) {
        Ok(()) => Ok(()),
        Err(why) => Err(CommandError::Debug(why)),
    }
}

/// Takes up the game that a device holds, writes `resumed N`, N the count of its inputs, and debugs its machine, as `LineDebugger` obeys its
/// lines. Nothing of that is saved: the device is left as taking the game up leaves it.
///
/// Refusals, in this order, each of which hands the device back: what is wrong with the image; why the game can't be taken up; no memory for
/// the debugger, all with nothing read and nothing written; why the debugger stopped.
pub fn debug_game<D: SectorDevice, R: LineInput, W: Output>(
    alloc: Global,
    device: D,
    rom: Vec<u8>,
    input: &mut R,
    out: &mut W,
) -> Result<D, Refused<CommandError, D>>
    ensures accepted { OnOk result (IsAccepted rom.items) }
    ensures debugged { OnOk result (HasDebugged rom.items (D.disk device) (D.disk (left_by result))
        (record {
          unread = R.remaining input.old;
          left = R.remaining input.new;
          before = W.contents out.old;
          since = W.contents out.new;
        })) }
    ensures images { (D.disk device).honest →
        HoldsSince (D.disk device) (D.disk (left_by result)) (StandsAsBefore rom.items (D.disk device)) }
    ensures cause { IfErr result (λ refused. IsDebugGameCause rom.items (D.disk device) (D.disk refused.device)
        (record {
          unread = R.remaining input.old;
          left = R.remaining input.new;
          before = W.contents out.old;
          since = W.contents out.new;
        })
        refused.why) }
    ensures input { IfErr result (λ refused.
        refused.why ≡ CommandError.Debug DebugError.Input → R.has_failed input.new ≡ true) }
    ensures output { IfErr result (λ refused.
        refused.why ≡ CommandError.Debug DebugError.Output → W.has_failed out.new ≡ true) }
    ensures untouched { IfErr result (λ refused.
        (fault : _) → refused.why ≡ CommandError.Cart fault → refused.device ≡ device) }
    ensures answered { HasAnswered (λ refused. faults_after refused.why) (D.disk device) (D.disk (left_by result))
        result }
{
    let cartridge = match Cartridge::read(rom) {
        Ok(cartridge) => cartridge,
        Err(fault) => return Err(Refused {
            why: CommandError::Cart(fault),
            device,
        }),
    };
    let session = match resume(alloc, device, &cartridge) {
        Ok(session) => session,
        Err(refused) => return Err(Refused {
            why: CommandError::Session(refused.why),
            device: refused.device,
        }),
    };
    let inputs = session.counts().all;
    let debugged = debug_machine(alloc, inputs, session.machine(), &cartridge, input, out);
    let device = session.into_device();
    match debugged {
        Ok(()) => Ok(device),
        Err(why) => Err(Refused { why, device }),
    }
}

/// Writes the line of the game and debugs its machine. `Err`: `Memory`, with nothing read and nothing written, or `Debug`.
fn debug_machine<R: LineInput, W: Output>(
    alloc: Global,
    inputs: u64,
    machine: &Machine,
    cartridge: &Cartridge,
    input: &mut R,
    out: &mut W,
) -> Result<(), CommandError>
    requires rom { machine.now.processor.memory.banks.rom ≡ cartridge.now }
    requires own { IsOfItsRom machine.now }
    ensures ok { OnOk result (IsMachineOf cartridge.now machine.now × IsBegunAndDebugged inputs machine.now
        (record {
          unread = R.remaining input.old;
          left = R.remaining input.new;
          before = W.contents out.old;
          since = W.contents out.new;
        })) }
    ensures err { IfErr result (IsNotDebugged cartridge.now inputs machine.now
        (record {
          unread = R.remaining input.old;
          left = R.remaining input.new;
          before = W.contents out.old;
          since = W.contents out.new;
        })) }
    ensures input { IfErr result (λ why. why ≡ CommandError.Debug DebugError.Input → R.has_failed input.new ≡ true) }
    ensures output { IfErr result (λ why. why ≡ CommandError.Debug DebugError.Output → W.has_failed out.new ≡ true) }
{
    let Some(copy) = copy_of(alloc, machine, cartridge) else {
        return Err(CommandError::Memory);
    };
    let debugger = match LineDebugger::new(alloc, copy, cartridge) {
        Ok(debugger) => debugger,
        Err(_) => return Err(CommandError::Memory),
    };
    if let Err(_) = write_resumed(out, inputs) {
        drop(debugger);
        return Err(CommandError::Debug(DebugError::Output));
    }
    match debugger.obey(alloc, cartridge, input, out) {
        Ok(()) => Ok(()),
        Err(why) => Err(CommandError::Debug(why)),
    }
}
