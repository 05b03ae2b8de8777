//! Obeying lines.
ghost use Rattle.std.specs.Prelude.{◌≡◌, ◌≢◌, ◌<◌, List, ℕ, [], ◌∷◌, length, true, false, Option as Known, None as NotThere, IfOk, IfErr, OnOk, OnErr};
ghost use Rattle.std.specs.List.{All};
ghost use Rattle.std.specs.Io.KnownBytes.{Appends};
ghost use Rattle.exact_text.specs.Written.{AppendsProperPrefix};
ghost use Rattle.cartridge.specs.Header.{ram_length_of};
ghost use Rattle.snapshot.specs.Encoding.{snapshot_length};
ghost use Rattle.snapshot.specs.Legal.{IsLegalSnapshot};
ghost use Rattle.snapshot.specs.Reading.{machine_in};
ghost use Rattle.input_lines.specs.Reading.{left_of};
ghost use Rattle.script.specs.declared.moves.Move.TheVariants.{Power};
ghost use Rattle.session.specs.Calls.{most_unsaved};
ghost use Rattle.machine_lines.specs.KeptStates.{KeptMachine, kept_under, slots};
ghost use Rattle.machine_lines.specs.Slots.{AreKept};
ghost use Rattle.streaming.specs.Numbers.{IsNumbered};
ghost use Rattle.streaming.specs.Orders.{Does, GoesOnWith, needs_states};
ghost use Rattle.streaming.specs.Answers.{last_deeds, other_text};
ghost use Rattle.streaming.specs.Obeying.{AdvancesByDeeds, StopsByDeeds, AdvancesByLines, StopsByLines, AdvancesByStream, StopsByStream};
ghost use Rattle.streaming.specs.Steps.{IsStep, IsRefused};

use crate::next_order::{Next, read_next};
use crate::order::Order;
use crate::state_room::StateRoom;
use arrayvec::ArrayVec;
use cartridge::Cartridge;
use exact_text::{Output, OutputFailed, write_whole};
use input_lines::{LineInput, Unread};
use machine::Region;
use machine_lines::{
    KeptStates, Look, TakenState, shows_picture, take_state, write_count, write_look,
};
use playing::{Playable, give_state, make_move, save_line, write_resumed};
use script::Move;
use snapshot::length;
use std::alloc::Global;

/// How a stream ends.
#[derive(Clone, Copy, Debug)]
pub enum End {
    /// At the end of its input.
    Whole,
    /// At a wrong line, with its number from 1.
    Wrong(u64),
    /// At a read that failed.
    Failed,
    /// At bytes that are no state.
    Damaged,
    /// At a state of another cartridge.
    OtherCartridge,
    /// At a line for which there was no memory.
    NoMemory,
}

/// How far a line went.
#[derive(Clone, Copy)]
pub(crate) enum Went {
    /// It was obeyed.
    On,
    /// No state is kept under its number.
    Wrong,
    /// A read of its bytes failed.
    Failed,
    /// Its bytes are no state, or fewer to the end of the input.
    Damaged,
    /// Its bytes are a state of another cartridge.
    OtherCartridge,
    /// There was no memory for it.
    NoMemory,
}

/// Makes a move. The answer is whether there was memory for it.
fn obey_move<G: Playable, W: Output>(
    game: &mut G,
    alloc: Global,
    cartridge: &Cartridge,
    a_move: Move,
    out: &mut W,
) -> Result<bool, G::Fault>
    requires takes { a_move ≡ Power → G.takes_states ≡ true }
    requires of { G.rom game.old ≡ cartridge.now }
    requires whole { G.whole game.old }
    requires few { G.unsaved game.old < most_unsaved }
    ensures obeyed { IfOk result (λ done. done ≡ true →
        AdvancesByDeeds ⟦<G as Playable>⟧ game.old game.new (W.contents out.old) (W.contents out.new) (Does (Order.Make a_move) ∷
        [])) }
    ensures nothing { IfOk result (λ done.
        done ≡ false → (a_move ≡ Power) × (game.new ≡ game.old) × (out.new ≡ out.old)) }
    ensures stopped { IfErr result (λ why.
        StopsByDeeds ⟦<G as Playable>⟧ game.old game.new (W.contents out.old) (W.contents out.new)
        (W.has_failed out.new ≡ true) (Does (Order.Make a_move) ∷ []) why) }
    ensures whole { OnOk result (G.whole game.new × (G.unsaved game.new < most_unsaved)) }
{
    make_move(game, alloc, cartridge, a_move, out)
}

/// Draws what was only noted, where a look shows it. No value changes.
fn draw_for<G: Playable>(game: &mut G, look: Look)
    ensures { game.new ≡ game.old }
{
    if shows_picture(look) {
        game.draw_late();
    }
}

/// Writes what is looked at. There is room for the machine's snapshot.
fn obey_look<G: Playable, W: Output>(
    game: &mut G,
    cartridge: &Cartridge,
    snapshot: &mut [u8],
    look: Look,
    out: &mut W,
) -> Result<(), G::Fault>
    requires of { G.rom game.old ≡ cartridge.now }
    requires room { length snapshot.old ≡ snapshot_length (ram_length_of (G.rom game.old)) }
    ensures obeyed { OnOk result
        (AdvancesByDeeds ⟦<G as Playable>⟧ game.old game.new (W.contents out.old) (W.contents out.new) (Does (Order.Look look) ∷
        [])) }
    ensures stopped { IfErr result (λ why.
        StopsByDeeds ⟦<G as Playable>⟧ game.old game.new (W.contents out.old) (W.contents out.new)
        (W.has_failed out.new ≡ true) (Does (Order.Look look) ∷ []) why) }
    ensures same { game.new ≡ game.old }
    ensures room { length snapshot.new ≡ length snapshot.old }
{
    draw_for(game, look);
    match write_look(look, game.machine(), cartridge, snapshot, out) {
        Ok(()) => Ok(()),
        Err(_) => Err(G::unwritten()),
    }
}

/// Keeps the machine under a number, and answers it. The answer is whether there was memory for it: where there is none, nothing changes.
fn obey_keep<G: Playable, W: Output>(
    game: &mut G,
    alloc: Global,
    kept: &mut KeptStates,
    slot: u32,
    out: &mut W,
) -> Result<bool, G::Fault>
    requires { slot < slots }
    ensures obeyed { IfOk result (λ done. done ≡ true →
        AdvancesByDeeds ⟦<G as Playable>⟧ game.old game.new (W.contents out.old) (W.contents out.new) (Does (Order.Keep slot) ∷
        [])) }
    ensures kept { (machines : List KeptMachine) → AreKept (G.rom game.old) kept.old machines →
        IfOk result (λ done. done ≡ true →
        AreKept (G.rom game.old) kept.new (record { number = slot; machine = G.machine game.old } ∷ machines)) }
    ensures nothing { (machines : List KeptMachine) → AreKept (G.rom game.old) kept.old machines →
        IfOk result (λ done. done ≡ false →
        (out.new ≡ out.old) × (kept_under slot machines ≡ NotThere)) }
    ensures stopped { IfErr result (λ why.
        StopsByDeeds ⟦<G as Playable>⟧ game.old game.new (W.contents out.old) (W.contents out.new)
        (W.has_failed out.new ≡ true) (Does (Order.Keep slot) ∷ []) why) }
    ensures same { game.new ≡ game.old }
{
    game.draw_late();
    let machine = game.machine();
    let room = length(machine.region(Region::CartRam).len());
    match kept.keep(alloc, slot as usize, room, machine) {
        Ok(()) => match write_count("kept", slot as usize, out) {
            Ok(()) => Ok(true),
            Err(_) => Err(G::unwritten()),
        },
        Err(_) => Ok(false),
    }
}

/// Goes on with the machine of a snapshot, one input, and answers it with a text. The answer is whether the bytes are a legal snapshot of the
/// cartridge: where they are none, nothing changes.
fn go_on_with<G: Playable, W: Output>(
    game: &mut G,
    bytes: &[u8],
    cartridge: &Cartridge,
    order: Order,
    out: &mut W,
) -> Result<bool, G::Fault>
    requires takes { G.takes_states ≡ true }
    requires of { G.rom game.old ≡ cartridge.now }
    requires whole { G.whole game.old }
    requires few { G.unsaved game.old < most_unsaved }
    ensures obeyed { IfOk result (λ done. done ≡ true →
        AdvancesByDeeds ⟦<G as Playable>⟧ game.old game.new (W.contents out.old) (W.contents out.new)
        (GoesOnWith order (machine_in cartridge.now bytes.now) ∷ [])) }
    ensures legal { IfOk result (λ done. done ≡ true → IsLegalSnapshot cartridge.now bytes.now) }
    ensures nothing { IfOk result (λ done.
        done ≡ false → (game.new ≡ game.old) × (out.new ≡ out.old) × (¬ IsLegalSnapshot cartridge.now bytes.now)) }
    ensures stopped { IfErr result (λ why.
        StopsByDeeds ⟦<G as Playable>⟧ game.old game.new (W.contents out.old) (W.contents out.new)
        (W.has_failed out.new ≡ true) (GoesOnWith order (machine_in cartridge.now bytes.now) ∷ []) why) }
    ensures whole { OnOk result (G.whole game.new × (G.unsaved game.new < most_unsaved)) }
{
    match give_state(game, bytes, cartridge, out) {
        Ok(true) => match write_gone_on(order, out) {
            Ok(()) => Ok(true),
            Err(_) => Err(G::unwritten()),
        },
        Ok(false) => Ok(false),
        Err(why) => Err(why),
    }
}

/// The answer where the game went on with another machine.
fn write_gone_on<W: Output>(order: Order, out: &mut W) -> Result<(), OutputFailed>
    ensures ok { OnOk result (Appends (W.contents out.old) (W.contents out.new) (other_text order)) }
    ensures err { OnErr result (AppendsProperPrefix (W.contents out.old) (W.contents out.new) (other_text order)) }
    ensures failed { OnErr result (W.has_failed out.new ≡ true) }
{
    if let Order::Back(slot) = order {
        return write_count("back", slot as usize, out);
    }
    write_whole(out, b"restored\n")
}

/// Goes on with the machine that is kept under a number, and answers it.
fn obey_back<G: Playable, W: Output>(
    game: &mut G,
    kept: &KeptStates,
    slot: u32,
    cartridge: &Cartridge,
    out: &mut W,
) -> Result<Went, G::Fault>
    requires slot { slot < slots }
    requires takes { G.takes_states ≡ true }
    requires of { G.rom game.old ≡ cartridge.now }
    requires whole { G.whole game.old }
    requires few { G.unsaved game.old < most_unsaved }
    ensures step { (machines : List KeptMachine) → AreKept cartridge.now kept.now machines →
        (left unread : Known (List ℕ)) → IfOk result
        (IsStep ⟦<G as Playable>⟧ game.old game.new (W.contents out.old) (W.contents out.new) (record {
          before = left;
          since = left;
          unread = unread;
        })
        cartridge.now machines (Order.Back slot) kept.now) }
    ensures refused { (machines : List KeptMachine) → AreKept cartridge.now kept.now machines →
        (left unread : Known (List ℕ)) → IfErr result
        (IsRefused ⟦<G as Playable>⟧ game.old game.new (W.contents out.old) (W.contents out.new)
        (record { before = left; since = left; unread = unread })
        cartridge.now machines (Order.Back slot) (W.has_failed out.new ≡ true)) }
    ensures no_read { IfOk result (λ went. went ≢ Went.Failed) }
    ensures whole { OnOk result (G.whole game.new × (G.unsaved game.new < most_unsaved)) }
{
    let bytes = kept.state(slot as usize);
    if bytes.is_empty() {
        return Ok(Went::Wrong);
    }
    match go_on_with(game, bytes, cartridge, Order::Back(slot), out) {
        Ok(true) => Ok(Went::On),
        Ok(false) => Ok(Went::Wrong),
        Err(why) => Err(why),
    }
}

/// Takes the bytes of a state, and goes on with its machine.
fn obey_restore<G: Playable, R: LineInput, W: Output>(
    game: &mut G,
    unread: &mut Unread,
    input: &mut R,
    size: u32,
    snapshot: &mut [u8],
    cartridge: &Cartridge,
    out: &mut W,
) -> Result<Went, G::Fault>
    requires room { length snapshot.old ≡ snapshot_length (ram_length_of cartridge.now) }
    requires takes { G.takes_states ≡ true }
    requires of { G.rom game.old ≡ cartridge.now }
    requires whole { G.whole game.old }
    requires few { G.unsaved game.old < most_unsaved }
    ensures step { (machines : List KeptMachine) (states : List (List ℕ)) → AreKept cartridge.now states machines →
        IfOk result
        (IsStep ⟦<G as Playable>⟧ game.old game.new (W.contents out.old) (W.contents out.new)
        (record {
          before = left_of unread.old.items (R.remaining input.old);
          since = left_of unread.new.items (R.remaining input.new);
          unread = R.remaining input.new;
        })
        cartridge.now machines (Order.Restore size) states) }
    ensures refused { (machines : List KeptMachine) → IfErr result
        (IsRefused ⟦<G as Playable>⟧ game.old game.new (W.contents out.old) (W.contents out.new)
        (record {
          before = left_of unread.old.items (R.remaining input.old);
          since = left_of unread.new.items (R.remaining input.new);
          unread = R.remaining input.new;
        })
        cartridge.now machines (Order.Restore size) (W.has_failed out.new ≡ true)) }
    ensures failed { IfOk result (λ went. went ≡ Went.Failed → R.has_failed input.new ≡ true) }
    ensures whole { OnOk result (G.whole game.new × (G.unsaved game.new < most_unsaved)) }
    ensures room { length snapshot.new ≡ length snapshot.old }
{
    match take_state(unread, input, size as usize, snapshot, cartridge) {
        TakenState::Snapshot => match go_on_with(
            game,
            snapshot,
            cartridge,
            Order::Restore(size),
            out,
        ) {
            Ok(true) => Ok(Went::On),
            Ok(false) => Ok(Went::Damaged),
            Err(why) => Err(why),
        },
        TakenState::Other => Ok(Went::OtherCartridge),
        TakenState::Nothing | TakenState::End => Ok(Went::Damaged),
        TakenState::Failed => Ok(Went::Failed),
    }
}

/// Does what a line asks for.
fn obey<G: Playable, R: LineInput, W: Output>(
    game: &mut G,
    alloc: Global,
    cartridge: &Cartridge,
    room: &mut StateRoom,
    order: Order,
    unread: &mut Unread,
    input: &mut R,
    out: &mut W,
) -> Result<Went, G::Fault>
    requires takes { needs_states order ≡ true → G.takes_states ≡ true }
    requires numbered { IsNumbered order }
    requires room { length room.old.snapshot.items ≡ snapshot_length (ram_length_of cartridge.now) }
    requires of { G.rom game.old ≡ cartridge.now }
    requires whole { G.whole game.old }
    requires few { G.unsaved game.old < most_unsaved }
    ensures step { (machines : List KeptMachine) → AreKept cartridge.now room.old.kept machines → IfOk result
        (IsStep ⟦<G as Playable>⟧ game.old game.new (W.contents out.old) (W.contents out.new)
        (record {
          before = left_of unread.old.items (R.remaining input.old);
          since = left_of unread.new.items (R.remaining input.new);
          unread = R.remaining input.new;
        })
        cartridge.now machines order room.new.kept) }
    ensures refused { (machines : List KeptMachine) → AreKept cartridge.now room.old.kept machines → IfErr result
        (IsRefused ⟦<G as Playable>⟧ game.old game.new (W.contents out.old) (W.contents out.new)
        (record {
          before = left_of unread.old.items (R.remaining input.old);
          since = left_of unread.new.items (R.remaining input.new);
          unread = R.remaining input.new;
        })
        cartridge.now machines order (W.has_failed out.new ≡ true)) }
    ensures failed { IfOk result (λ went. went ≡ Went.Failed → R.has_failed input.new ≡ true) }
    ensures whole { OnOk result (G.whole game.new × (G.unsaved game.new < most_unsaved)) }
    ensures room { length room.new.snapshot.items ≡ length room.old.snapshot.items }
{
    match order {
        Order::Make(a_move) => match obey_move(game, alloc, cartridge, a_move, out) {
            Ok(true) => Ok(Went::On),
            Ok(false) => Ok(Went::NoMemory),
            Err(why) => Err(why),
        },
        Order::Look(look) => match obey_look(game, cartridge, &mut room.snapshot, look, out) {
            Ok(()) => Ok(Went::On),
            Err(why) => Err(why),
        },
        Order::Keep(slot) => match obey_keep(game, alloc, &mut room.kept, slot, out) {
            Ok(true) => Ok(Went::On),
            Ok(false) => Ok(Went::NoMemory),
            Err(why) => Err(why),
        },
        Order::Back(slot) => obey_back(game, &room.kept, slot, cartridge, out),
        Order::Restore(size) => obey_restore(
            game,
            unread,
            input,
            size,
            &mut room.snapshot,
            cartridge,
            out,
        ),
    }
}

/// Obeys lines as they come, up to the end, a wrong one, or a read that fails.
fn obey_lines<G: Playable, R: LineInput, W: Output>(
    game: &mut G,
    alloc: Global,
    cartridge: &Cartridge,
    room: &mut StateRoom,
    input: &mut R,
    out: &mut W,
) -> Result<End, G::Fault>
    requires room { length room.old.snapshot.items ≡ snapshot_length (ram_length_of cartridge.now) }
    requires kept { All (λ bytes. bytes ≡ []) room.old.kept }
    requires of { G.rom game.old ≡ cartridge.now }
    requires whole { G.whole game.old }
    requires few { G.unsaved game.old < most_unsaved }
    ensures obeyed { IfOk result (λ end. AdvancesByLines ⟦<G as Playable>⟧ game.old game.new
        (R.remaining input.old) (R.remaining input.new) (W.contents out.old) (W.contents out.new) end) }
    ensures stopped { IfErr result (λ why. StopsByLines ⟦<G as Playable>⟧ game.old game.new
        (R.remaining input.old) (R.remaining input.new) (W.contents out.old) (W.contents out.new)
        (W.has_failed out.new ≡ true) why) }
    ensures failed { IfOk result (λ end. end ≡ End.Failed → R.has_failed input.new ≡ true) }
    ensures whole { OnOk result (G.whole game.new × (G.unsaved game.new < most_unsaved)) }
{
    let states = G::takes_states();
    let mut unread = ArrayVec::new();
    for number in 1..u64::MAX {
        match read_next(&mut unread, input, states) {
            Next::Line(None) => continue,
            Next::Line(Some(order)) => {
                match obey(game, alloc, cartridge, room, order, &mut unread, input, out) {
                    Ok(Went::On) => continue,
                    Ok(Went::Wrong) => return Ok(End::Wrong(number)),
                    Ok(Went::Failed) => return Ok(End::Failed),
                    Ok(Went::Damaged) => return Ok(End::Damaged),
                    Ok(Went::OtherCartridge) => return Ok(End::OtherCartridge),
                    Ok(Went::NoMemory) => return Ok(End::NoMemory),
                    Err(why) => return Err(why),
                }
            }
            Next::Wrong => return Ok(End::Wrong(number)),
            Next::End => return Ok(End::Whole),
            Next::Failed => return Ok(End::Failed),
        }
    }
    Ok(End::Wrong(u64::MAX))
}

/// Saves what is unsaved.
fn save_rest<G: Playable, W: Output>(game: &mut G, out: &mut W) -> Result<(), G::Fault>
    requires whole { G.whole game.old }
    requires few { G.unsaved game.old < most_unsaved }
    ensures obeyed { OnOk result
        (AdvancesByDeeds ⟦<G as Playable>⟧ game.old game.new (W.contents out.old) (W.contents out.new)
        (last_deeds (G.unsaved game.old))) }
    ensures stopped { IfErr result (λ why.
        StopsByDeeds ⟦<G as Playable>⟧ game.old game.new (W.contents out.old) (W.contents out.new)
        (W.has_failed out.new ≡ true) (last_deeds (G.unsaved game.old)) why) }
    ensures saved { OnOk result (G.whole game.new × (G.unsaved game.new ≡ 0)) }
{
    if game.counts().pending == 0 {
        return Ok(());
    }
    save_line(game, out)
}

/// Writes that the game was resumed, obeys the lines, and saves what is then unsaved. Conditions: the cartridge is the game's own, and the
/// room is that for its states, of which none is kept.
///
/// Refusals: whichever comes first of those of an input, of a save and of a line of the report.
pub fn stream_on<G: Playable, R: LineInput, W: Output>(
    game: &mut G,
    alloc: Global,
    cartridge: &Cartridge,
    room: &mut StateRoom,
    input: &mut R,
    out: &mut W,
) -> Result<End, G::Fault>
    requires room { length room.old.snapshot.items ≡ snapshot_length (ram_length_of cartridge.now) }
    requires kept { All (λ bytes. bytes ≡ []) room.old.kept }
    requires of { G.rom game.old ≡ cartridge.now }
    requires whole { G.whole game.old }
    requires none { G.unsaved game.old ≡ 0 }
    ensures streamed { IfOk result (λ end. AdvancesByStream ⟦<G as Playable>⟧ game.old game.new
        (R.remaining input.old) (R.remaining input.new) (W.contents out.old) (W.contents out.new) end) }
    ensures stopped { IfErr result (λ why. StopsByStream ⟦<G as Playable>⟧ game.old game.new
        (R.remaining input.old) (R.remaining input.new) (W.contents out.old) (W.contents out.new)
        (W.has_failed out.new ≡ true) why) }
    ensures failed { IfOk result (λ end. end ≡ End.Failed → R.has_failed input.new ≡ true) }
    ensures whole { OnOk result (G.whole game.new) }
{
    if let Err(_) = write_resumed(out, game.counts().all) {
        return Err(G::unwritten());
    }
    let end = obey_lines(game, alloc, cartridge, room, input, out)?;
    save_rest(game, out)?;
    Ok(end)
}
