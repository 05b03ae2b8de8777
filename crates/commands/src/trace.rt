//! The next steps of a game.

ghost use Rattle.std.specs.Prelude.{◌≡◌, true, IfErr, IfSome, OnErr, OnOk};
ghost use Rattle.std.specs.Io.KnownBytes.{Appends};
ghost use Rattle.cartridge.specs.Accepted.{IsAccepted};
ghost use Rattle.exact_text.specs.Written.{AppendsProperPrefix};
ghost use Rattle.memory_map.specs.BusRules.{bus_rules};
ghost use Rattle.snapshot.specs.Legal.{IsMachineOf};
ghost use Rattle.sector_device.specs.DiskState.{HasAnswered};
ghost use Rattle.sector_device.specs.Runs.{HoldsSince};
ghost use Rattle.session.specs.Stands.{StandsAsBefore};
ghost use Rattle.session.specs.Resting.{IsOfItsRom};
ghost use Rattle.debugger.specs.Report.{step_lines};
ghost use Rattle.commands.specs.Trace.{HasTraced, IsTraceCause, IsUntraced, trace_text};
ghost use Rattle.commands.specs.Refusals.{faults_after};
ghost use Rattle.sector_device.specs.Refusal.{left_by};

use crate::copy::copy_of;
use crate::error::CommandError;
use cartridge::Cartridge;
use debugger::{Debugger, write_stepped};
use exact_text::{Output, OutputFailed};
use machine::Machine;
use playing::write_resumed;
use sector_device::{Refused, SectorDevice};
use session::resume;
use std::alloc::Global;

/// Takes up the game that a device holds, and writes `resumed N`, N the count of its inputs, and a line for each of the next
/// `count` steps of its machine: that of the instruction as in a listing, `wait`, or `interrupt` and the vector. The steps are
/// not saved: the device is left as taking the game up leaves it.
///
/// Refusals, in this order, each of which hands the device back: what is wrong with the image; why the game can't be taken up; no
/// memory for the machine that is stepped, all with nothing written; that the text could not be written, of which a proper prefix
/// went out.
pub fn trace_lines<D: SectorDevice, W: Output>(
    alloc: Global,
    device: D,
    rom: Vec<u8>,
    count: u32,
    out: &mut W,
) -> Result<D, Refused<CommandError, D>>
    ensures accepted { OnOk result (IsAccepted rom.items) }
    ensures traced { OnOk result
        (HasTraced rom.items (D.disk device) (D.disk (left_by result)) count (W.contents out.old)
        (W.contents out.new)) }
    ensures images { (D.disk device).honest →
        HoldsSince (D.disk device) (D.disk (left_by result)) (StandsAsBefore rom.items (D.disk device)) }
    ensures cause { IfErr result (λ refused.
        IsTraceCause rom.items count
        (record {
          old = D.disk device;
          now = D.disk refused.device;
          output = record { before = W.contents out.old; since = W.contents out.new };
        })
        refused.why) }
    ensures untouched { IfErr result (λ refused.
        (fault : _) → refused.why ≡ CommandError.Cart fault → refused.device ≡ device) }
    ensures output { IfErr result (λ refused. refused.why ≡ CommandError.Output → W.has_failed out.new ≡ true) }
    ensures answered { HasAnswered (λ refused. faults_after refused.why) (D.disk device) (D.disk (left_by result))
        result }
{
    let cartridge = match Cartridge::read(rom) {
        Ok(cartridge) => cartridge,
        Err(fault) => return Err(Refused {
            why: CommandError::Cart(fault),
            device,
        }),
    };
    let session = match resume(alloc, device, &cartridge) {
        Ok(session) => session,
        Err(refused) => return Err(Refused {
            why: CommandError::Session(refused.why),
            device: refused.device,
        }),
    };
    let inputs = session.counts().all;
    let written = write_trace(alloc, inputs, session.machine(), &cartridge, count, out);
    let device = session.into_device();
    match written {
        Ok(()) => Ok(device),
        Err(why) => Err(Refused { why, device }),
    }
}

/// Writes the text of a trace. `Err`: `Memory`, with nothing written, or `Output`.
fn write_trace<W: Output>(
    alloc: Global,
    inputs: u64,
    machine: &Machine,
    cartridge: &Cartridge,
    count: u32,
    out: &mut W,
) -> Result<(), CommandError>
    requires rom { machine.now.processor.memory.banks.rom ≡ cartridge.now }
    requires own { IsOfItsRom machine.now }
    ensures ok { OnOk result (IsMachineOf cartridge.now machine.now ×
        Appends (W.contents out.old) (W.contents out.new) (trace_text inputs machine.now count)) }
    ensures err { IfErr result
        (IsUntraced cartridge.now machine.now (trace_text inputs machine.now count) (W.contents out.old)
        (W.contents out.new)) }
    ensures output { IfErr result (λ why. why ≡ CommandError.Output → W.has_failed out.new ≡ true) }
{
    let written = {
        let Some(mut debugger) = debugger_of(alloc, machine, cartridge) else {
            return Err(CommandError::Memory);
        };
        write_text(inputs, &mut debugger, count, out)
    };
    match written {
        Ok(()) => Ok(()),
        Err(_) => Err(CommandError::Output),
    }
}

/// Writes the line of the game, and those of so many steps.
fn write_text<W: Output>(
    inputs: u64,
    debugger: &mut Debugger,
    count: u32,
    out: &mut W,
) -> Result<(), OutputFailed>
    ensures ok { OnOk result
        (Appends (W.contents out.old) (W.contents out.new) (trace_text inputs debugger.old.machine count)) }
    ensures err { OnErr result
        (AppendsProperPrefix (W.contents out.old) (W.contents out.new) (trace_text inputs debugger.old.machine count)) }
    ensures failed { OnErr result (W.has_failed out.new ≡ true) }
{
    if let Err(fault) = write_resumed(out, inputs) {
        return Err(fault);
    }
    match write_steps(debugger, count, out) {
        Ok(()) => Ok(()),
        Err(fault) => Err(fault),
    }
}

/// A debugger of the same machine again, so that a session keeps its own. `None`: there is no memory for it.
fn debugger_of(alloc: Global, machine: &Machine, cartridge: &Cartridge) -> Option<Debugger>
    requires rom { machine.now.processor.memory.banks.rom ≡ cartridge.now }
    requires own { IsOfItsRom machine.now }
    ensures { IfSome result (λ d. (d.machine ≡ machine.now) × IsMachineOf cartridge.now machine.now) }
{
    let copy = copy_of(alloc, machine, cartridge)?;
    Debugger::new(alloc, copy, 1).ok()
}

/// Makes so many steps, and writes the line of each.
fn write_steps<W: Output>(
    debugger: &mut Debugger,
    count: u32,
    out: &mut W,
) -> Result<(), OutputFailed>
    ensures ok { OnOk result
        (Appends (W.contents out.old) (W.contents out.new)
        (step_lines bus_rules count debugger.old.machine.processor)) }
    ensures err { OnErr result (AppendsProperPrefix (W.contents out.old) (W.contents out.new)
        (step_lines bus_rules count debugger.old.machine.processor)) }
    ensures failed { OnErr result (W.has_failed out.new ≡ true) }
{
    for _i in 0..count {
        let stepped = debugger.step();
        if let Err(fault) = write_stepped(&stepped, out) {
            return Err(fault);
        }
    }
    Ok(())
}
