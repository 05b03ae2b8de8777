//! Moves made on a game, saved when a save is due, and reported.
ghost use Rattle.std.specs.Prelude.{◌≡◌, ◌<◌, ◌≤◌, ◌∷◌, [], replicate, true, false, OnOk, IfOk, IfErr};
ghost use Rattle.machine.specs.Machine.{Frame, Power, State, Input as GivenInput, as_input};
ghost use Rattle.snapshot.specs.Legal.{IsLegalSnapshot};
ghost use Rattle.snapshot.specs.Reading.{machine_in};
ghost use Rattle.session.specs.Calls.{most_unsaved};
ghost use Rattle.script.specs.declared.moves.Move.TheVariants.{Power as SwitchMove};
ghost use Rattle.playing.specs.Making.{count_of, IsGiven, AdvancesTelling, StopsTelling, AdvancesByInputs, StopsByInputs, AdvancesByMoves, StopsByMoves, HasRoom, FindsNoMemory, PlaysToMemory};
ghost use Rattle.playing.specs.Report.{report_lines};
ghost use Rattle.playing.specs.Lines.{saved_line};
ghost use Rattle.script.specs.Inputs.{inputs_of_moves};

use crate::playable::Playable;
use crate::report::{Report, write_resumed};
use cartridge::Cartridge;
use exact_text::Output;
use machine::Input;
use script::Move;
use session::MOST_UNSAVED;
use std::alloc::Global;

/// Saves, and writes the line of the save once it is made.
pub fn save_line<G: Playable, R: Report>(game: &mut G, report: &mut R) -> Result<(), G::Fault>
    requires { G.whole game.old }
    ensures made { OnOk result
        (AdvancesTelling ⟦<G as Playable>⟧ game.old game.new (R.contents report.old) (R.contents report.new) [] 0
        (saved_line (count_of ⟦<G as Playable>⟧ game.old) ∷ [])) }
    ensures stopped { IfErr result (λ why.
        StopsTelling ⟦<G as Playable>⟧ game.old game.new (R.contents report.old) (R.contents report.new)
        (R.has_failed report.new) [] (saved_line (count_of ⟦<G as Playable>⟧ game.old) ∷ []) why) }
    ensures whole { OnOk result (G.whole game.new) }
{
    match game.save() {
        Ok(count) => match report.saved(count) {
            Ok(()) => Ok(()),
            Err(_) => Err(G::unwritten()),
        },
        Err(why) => Err(why),
    }
}

/// Saves if 3,200 inputs are unsaved, right after the input that makes them so many.
fn save_due<G: Playable, R: Report>(game: &mut G, report: &mut R) -> Result<(), G::Fault>
    requires whole { G.whole game.old }
    requires few { G.unsaved game.old ≤ most_unsaved }
    ensures made { (before : G) (input : GivenInput) → IsGiven ⟦<G as Playable>⟧ before game.old input → OnOk result
        (AdvancesByInputs ⟦<G as Playable>⟧ before game.new (R.contents report.old) (R.contents report.new) (input ∷ [])) }
    ensures stopped { (before : G) (input : GivenInput) → IsGiven ⟦<G as Playable>⟧ before game.old input →
        IfErr result (λ why.
        StopsByInputs ⟦<G as Playable>⟧ before game.new (R.contents report.old) (R.contents report.new)
        (R.has_failed report.new) (input ∷ []) why) }
    ensures whole { OnOk result (G.whole game.new × (G.unsaved game.new < most_unsaved)) }
{
    if game.counts().pending == MOST_UNSAVED {
        return save_line(game, report);
    }
    Ok(())
}

/// Gives one input, and saves right after it if 3,200 are then unsaved.
pub fn give<G: Playable, R: Report>(
    game: &mut G,
    input: Input,
    report: &mut R,
) -> Result<(), G::Fault>
    requires whole { G.whole game.old }
    requires few { G.unsaved game.old < most_unsaved }
    ensures made { OnOk result
        (AdvancesByInputs ⟦<G as Playable>⟧ game.old game.new (R.contents report.old) (R.contents report.new)
        (as_input input ∷ [])) }
    ensures stopped { IfErr result (λ why.
        StopsByInputs ⟦<G as Playable>⟧ game.old game.new (R.contents report.old) (R.contents report.new)
        (R.has_failed report.new) (as_input input ∷ []) why) }
    ensures whole { OnOk result (G.whole game.new × (G.unsaved game.new < most_unsaved)) }
{
    match game.input(input) {
        Ok(()) => save_due(game, report),
        Err(why) => Err(why),
    }
}

/// Switches the power off and on, one input, and saves right after it if 3,200 are then unsaved. The answer is whether there was memory
/// for it: where there is none, nothing changes.
pub fn give_power<G: Playable, R: Report>(
    game: &mut G,
    alloc: Global,
    cartridge: &Cartridge,
    report: &mut R,
) -> Result<bool, G::Fault>
    requires takes { G.takes_states ≡ true }
    requires of { G.rom game.old ≡ cartridge.now }
    requires whole { G.whole game.old }
    requires few { G.unsaved game.old < most_unsaved }
    ensures made { IfOk result (λ done. done ≡ true →
        AdvancesByInputs ⟦<G as Playable>⟧ game.old game.new (R.contents report.old) (R.contents report.new) (Power ∷ [])) }
    ensures nothing { IfOk result (λ done. done ≡ false → (game.new ≡ game.old) × (report.new ≡ report.old) ×
        HasRoom ⟦<G as Playable>⟧ game.old) }
    ensures stopped { IfErr result (λ why.
        StopsByInputs ⟦<G as Playable>⟧ game.old game.new (R.contents report.old) (R.contents report.new)
        (R.has_failed report.new) (Power ∷ []) why) }
    ensures whole { OnOk result (G.whole game.new × (G.unsaved game.new < most_unsaved)) }
{
    match game.power(alloc, cartridge) {
        Ok(true) => match save_due(game, report) {
            Ok(()) => Ok(true),
            Err(why) => Err(why),
        },
        Ok(false) => Ok(false),
        Err(why) => Err(why),
    }
}

/// Goes on with the machine of a snapshot, one input, and saves right after it if 3,200 are then unsaved. The answer is whether the bytes
/// are a legal snapshot of the cartridge: where they are none, nothing changes.
pub fn give_state<G: Playable, R: Report>(
    game: &mut G,
    bytes: &[u8],
    cartridge: &Cartridge,
    report: &mut R,
) -> Result<bool, G::Fault>
    requires takes { G.takes_states ≡ true }
    requires of { G.rom game.old ≡ cartridge.now }
    requires whole { G.whole game.old }
    requires few { G.unsaved game.old < most_unsaved }
    ensures made { IfOk result (λ done.
        done ≡ true → AdvancesByInputs ⟦<G as Playable>⟧ game.old game.new (R.contents report.old) (R.contents report.new)
        (State (machine_in cartridge.now bytes.now) ∷ [])) }
    ensures legal { IfOk result (λ done. done ≡ true → IsLegalSnapshot cartridge.now bytes.now) }
    ensures nothing { IfOk result (λ done.
        done ≡ false →
        (game.new ≡ game.old) × (report.new ≡ report.old) × (¬ IsLegalSnapshot cartridge.now bytes.now)) }
    ensures stopped { IfErr result (λ why.
        StopsByInputs ⟦<G as Playable>⟧ game.old game.new (R.contents report.old) (R.contents report.new)
        (R.has_failed report.new) (State (machine_in cartridge.now bytes.now) ∷ []) why) }
    ensures whole { OnOk result (G.whole game.new × (G.unsaved game.new < most_unsaved)) }
{
    match game.restore(bytes, cartridge) {
        Ok(true) => match save_due(game, report) {
            Ok(()) => Ok(true),
            Err(why) => Err(why),
        },
        Ok(false) => Ok(false),
        Err(why) => Err(why),
    }
}

/// Gives `times` frames with these buttons.
fn give_frames<G: Playable, R: Report>(
    game: &mut G,
    buttons: u8,
    times: u32,
    report: &mut R,
) -> Result<(), G::Fault>
    requires whole { G.whole game.old }
    requires few { G.unsaved game.old < most_unsaved }
    ensures made { OnOk result
        (AdvancesByInputs ⟦<G as Playable>⟧ game.old game.new (R.contents report.old) (R.contents report.new)
        (replicate times (Frame buttons))) }
    ensures stopped { IfErr result (λ why.
        StopsByInputs ⟦<G as Playable>⟧ game.old game.new (R.contents report.old) (R.contents report.new)
        (R.has_failed report.new) (replicate times (Frame buttons)) why) }
    ensures whole { OnOk result (G.whole game.new × (G.unsaved game.new < most_unsaved)) }
{
    for _i in 0..times {
        give(game, Input::Frame(buttons), report)?;
    }
    Ok(())
}

/// Makes one move: gives its inputs, saves when a save is due, and reports `saved N` after each
/// save, with N the count of all inputs. A save is due at a `Save`, and right after the input that
/// makes 3,200 unsaved. The answer is whether there was memory for it, which only a power switch
/// takes: where there is none, nothing changes.
///
/// Refusals: whichever comes first of those of an input, of a save and, of a report that may fail, of a line. What was saved
/// stays saved: the report then has the first of the move's lines, followed, only where a line could not be written, by a part of
/// the next.
pub fn make_move<G: Playable, R: Report>(
    game: &mut G,
    alloc: Global,
    cartridge: &Cartridge,
    a_move: Move,
    report: &mut R,
) -> Result<bool, G::Fault>
    requires takes { a_move ≡ SwitchMove → G.takes_states ≡ true }
    requires of { G.rom game.old ≡ cartridge.now }
    requires whole { G.whole game.old }
    requires few { G.unsaved game.old < most_unsaved }
    ensures made { IfOk result (λ done. done ≡ true →
        AdvancesByMoves ⟦<G as Playable>⟧ game.old game.new (R.contents report.old) (R.contents report.new) (a_move ∷ [])) }
    ensures nothing { IfOk result (λ done.
        done ≡ false → (a_move ≡ SwitchMove) × (game.new ≡ game.old) × (report.new ≡ report.old) ×
        HasRoom ⟦<G as Playable>⟧ game.old) }
    ensures stopped { IfErr result (λ why.
        StopsByMoves ⟦<G as Playable>⟧ game.old game.new (R.contents report.old) (R.contents report.new)
        (R.has_failed report.new) (a_move ∷ []) why) }
    ensures whole { OnOk result (G.whole game.new × (G.unsaved game.new < most_unsaved)) }
{
    match a_move {
        Move::Frames { buttons, times } => match give_frames(game, buttons, times, report) {
            Ok(()) => Ok(true),
            Err(why) => Err(why),
        },
        Move::Seconds(seconds) => match give(game, Input::Seconds(seconds), report) {
            Ok(()) => Ok(true),
            Err(why) => Err(why),
        },
        Move::Save => match save_line(game, report) {
            Ok(()) => Ok(true),
            Err(why) => Err(why),
        },
        Move::Power => give_power(game, alloc, cartridge, report),
    }
}

/// Makes moves one after another, each as `make_move` does. What is unsaved after the last stays
/// unsaved. The answer is whether there was memory for all: where there is none for a power switch,
/// the moves before it are made, and no other.
///
/// Refusals: those of the first move that is refused, and no later move is begun.
pub fn make_moves<G: Playable, R: Report>(
    game: &mut G,
    alloc: Global,
    cartridge: &Cartridge,
    moves: &[Move],
    report: &mut R,
) -> Result<bool, G::Fault>
    requires takes { G.takes_states ≡ true }
    requires of { G.rom game.old ≡ cartridge.now }
    requires whole { G.whole game.old }
    requires few { G.unsaved game.old < most_unsaved }
    ensures made { IfOk result (λ done. done ≡ true →
        AdvancesByMoves ⟦<G as Playable>⟧ game.old game.new (R.contents report.old) (R.contents report.new) moves.now) }
    ensures memory { IfOk result (λ done. done ≡ false →
        FindsNoMemory ⟦<G as Playable>⟧ game.old game.new (R.contents report.old) (R.contents report.new) moves.now) }
    ensures stopped { IfErr result (λ why.
        StopsByMoves ⟦<G as Playable>⟧ game.old game.new (R.contents report.old) (R.contents report.new)
        (R.has_failed report.new) moves.now why) }
    ensures whole { OnOk result (G.whole game.new × (G.unsaved game.new < most_unsaved)) }
{
    for next in moves {
        match make_move(game, alloc, cartridge, *next, report) {
            Ok(true) => continue,
            Ok(false) => return Ok(false),
            Err(why) => return Err(why),
        }
    }
    Ok(true)
}

/// Writes that the game was resumed, makes the moves, and saves what is then unsaved. The answer is whether there was memory for all.
pub(crate) fn play_on<G: Playable, W: Output>(
    game: &mut G,
    alloc: Global,
    cartridge: &Cartridge,
    moves: &[Move],
    report: &mut W,
) -> Result<bool, G::Fault>
    requires takes { G.takes_states ≡ true }
    requires of { G.rom game.old ≡ cartridge.now }
    requires whole { G.whole game.old }
    requires none { G.unsaved game.old ≡ 0 }
    ensures made { IfOk result (λ done.
        done ≡ true → AdvancesTelling ⟦<G as Playable>⟧ game.old game.new (W.contents report.old) (W.contents report.new)
        (inputs_of_moves moves.now) 0 (report_lines (G.acknowledged game.old) moves.now)) }
    ensures memory { IfOk result (λ done. done ≡ false →
        PlaysToMemory ⟦<G as Playable>⟧ game.old game.new (W.contents report.old) (W.contents report.new) moves.now) }
    ensures stopped { IfErr result (λ why.
        StopsTelling ⟦<G as Playable>⟧ game.old game.new (W.contents report.old) (W.contents report.new)
        (W.has_failed report.new ≡ true) (inputs_of_moves moves.now) (report_lines (G.acknowledged game.old) moves.now)
        why) }
    ensures whole { OnOk result (G.whole game.new) }
{
    if let Err(_) = write_resumed(report, game.counts().all) {
        return Err(G::unwritten());
    }
    match make_moves(game, alloc, cartridge, moves, report) {
        Ok(true) => {}
        Ok(false) => return Ok(false),
        Err(why) => return Err(why),
    }
    if game.counts().pending == 0 {
        return Ok(true);
    }
    match save_line(game, report) {
        Ok(()) => Ok(true),
        Err(why) => Err(why),
    }
}
