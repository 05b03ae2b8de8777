//! From ROM and script bytes to a report, a device and a picture.

ghost use Rattle.std.specs.Prelude.{◌≡◌, ◌≢◌, true, IfOk, IfErr, OnOk, OnErr};
ghost use Rattle.machine.specs.Machine.{picture_rows};
ghost use Rattle.std.specs.Io.KnownBytes.{Appends};
ghost use Rattle.exact_text.specs.Written.{AppendsProperPrefix};
ghost use Rattle.picture_unit.specs.Pgm.{picture_text};
ghost use Rattle.session.specs.Accessors.{device_of, machine_of};
ghost use Rattle.commands.specs.Play.{AnswersPlay, HasDrawn, HasDrawnPart, IsLastMachine, left_by_session};
ghost use Rattle.commands.specs.Text.{call_on};
ghost use Rattle.sector_device.specs.Refusal.{left_by};

use crate::error::CommandError;
use cartridge::Cartridge;
use exact_text::Output;
use playing::play;
use script::read_script;
use sector_device::{Refused, SectorDevice};
use session::Session;
use std::alloc::Global;

/// Plays a script on the game that a device holds, and leaves the session.
///
/// Refusals, in this order, each of which hands the device back: what is wrong with the image, what is wrong with the script or that
/// its moves find no memory, both with nothing written; those of the play, and what it saved stays saved.
pub fn play_script<D: SectorDevice, W: Output>(
    alloc: Global,
    device: D,
    rom: Vec<u8>,
    script: &[u8],
    report: &mut W,
) -> Result<Session<D>, Refused<CommandError, D>>
    ensures plays { AnswersPlay rom.items script.now device
        (call_on (D.disk device) (D.disk (left_by_session result)) (W.contents report.old) (W.contents report.new))
        (W.has_failed report.new) result }
    ensures last { IfOk result (λ s. IsLastMachine rom.items script.now (D.disk device) (machine_of s)) }
    ensures undrawn { IfErr result (λ refused. refused.why ≢ CommandError.Output) }
{
    let cartridge = match Cartridge::read(rom) {
        Ok(cartridge) => cartridge,
        Err(fault) => return Err(Refused {
            why: CommandError::Cart(fault),
            device,
        }),
    };
    let moves = match read_script(alloc, script) {
        Ok(moves) => moves,
        Err(fault) => return Err(Refused {
            why: CommandError::Script(fault),
            device,
        }),
    };
    match play(alloc, device, &cartridge, &moves, report) {
        Ok(session) => Ok(session),
        Err(refused) => Err(Refused {
            why: CommandError::Session(refused.why),
            device: refused.device,
        }),
    }
}

/// `play_script`, and then writes the picture of the last machine, and leaves the device.
///
/// One refusal more, the last: that the picture could not be written, and then all that was played is saved and reported.
pub fn play_and_draw<D: SectorDevice, W: Output, P: Output>(
    alloc: Global,
    device: D,
    rom: Vec<u8>,
    script: &[u8],
    report: &mut W,
    out: &mut P,
) -> Result<D, Refused<CommandError, D>>
    ensures plays { AnswersPlay rom.items script.now device
        (call_on (D.disk device) (D.disk (left_by result)) (W.contents report.old) (W.contents report.new))
        (W.has_failed report.new) result }
    ensures picture { OnOk result
        (HasDrawn rom.items script.now (D.disk device) (P.contents out.old) (P.contents out.new)) }
    ensures part { IfErr result (λ refused.
        HasDrawnPart rom.items script.now (D.disk device) (P.contents out.old) (P.contents out.new) refused.why) }
    ensures drawing { IfErr result (λ refused. refused.why ≡ CommandError.Output → P.has_failed out.new ≡ true) }
{
    match play_script(alloc, device, rom, script, report) {
        Ok(session) => picture_of(session, out),
        Err(refused) => Err(refused),
    }
}

/// Writes the picture of a session's machine, and leaves its device.
fn picture_of<D: SectorDevice, P: Output>(
    session: Session<D>,
    out: &mut P,
) -> Result<D, Refused<CommandError, D>>
    ensures device { left_by result ≡ device_of session }
    ensures picture { OnOk result (Appends (P.contents out.old) (P.contents out.new)
        (picture_text (picture_rows (machine_of session)))) }
    ensures why { IfErr result (λ refused. refused.why ≡ CommandError.Output) }
    ensures part { OnErr result (AppendsProperPrefix (P.contents out.old) (P.contents out.new)
        (picture_text (picture_rows (machine_of session)))) }
    ensures failed { OnErr result (P.has_failed out.new ≡ true) }
{
    let written = session.machine().picture().write_pgm(out);
    let device = session.into_device();
    match written {
        Ok(()) => Ok(device),
        Err(_) => Err(Refused {
            why: CommandError::Output,
            device,
        }),
    }
}
