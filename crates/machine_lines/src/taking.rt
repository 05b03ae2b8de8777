//! A state behind a line.

ghost use Rattle.std.specs.Prelude.{◌≡◌, ◌-◌, ◌≤◌, length, true};
ghost use Rattle.cartridge.specs.Header.{ram_length_of};
ghost use Rattle.snapshot.specs.Encoding.{snapshot_length};
ghost use Rattle.input_lines.specs.Reading.{left_of};
ghost use Rattle.machine_lines.specs.Taking.{HasTakenState, IsTakenBehind, is_same, refused_by, unless_fewer};

use cartridge::Cartridge;
use input_lines::{LineInput, Taken, Unread, skip_bytes, take_bytes};
use state_header::{HEADER_LENGTH, Named, read_header};

/// How a state was taken.
#[derive(Clone, Copy)]
pub enum TakenState {
    /// As one of the cartridge, by its header and its length: its snapshot stands in the slice, and was not looked at.
    Snapshot,
    /// As one of another cartridge.
    Other,
    /// As bytes that are no state.
    Nothing,
    /// The input ended before all its bytes.
    End,
    /// A read failed before all its bytes were there.
    Failed,
}

/// How bytes were taken, if `all` is how all of them are.
fn unless_fewer(taken: Taken, all: TakenState) -> TakenState
    ensures { result ≡ unless_fewer taken all }
{
    match taken {
        Taken::All => all,
        Taken::End => TakenState::End,
        Taken::Failed => TakenState::Failed,
    }
}

/// What all bytes of a state are that is not taken, by what its header names.
fn refused_by(named: Named) -> TakenState
    ensures { result ≡ refused_by named }
{
    match named {
        Named::Other => TakenState::Other,
        Named::Same | Named::Nothing => TakenState::Nothing,
    }
}

fn is_same(named: Named) -> bool
    ensures { result ≡ is_same named }
{
    match named {
        Named::Same => true,
        Named::Other | Named::Nothing => false,
    }
}

/// Takes the `rest` bytes that stand behind a header. Conditions: the header has 40 bytes, and the slice as many as a snapshot of the cartridge.
fn take_behind<R: LineInput>(
    unread: &mut Unread,
    input: &mut R,
    header: &[u8],
    rest: usize,
    snapshot: &mut [u8],
    cartridge: &Cartridge,
) -> TakenState
    requires header { length header.now ≡ 40 }
    requires room { length snapshot.old ≡ snapshot_length (ram_length_of cartridge.now) }
    ensures taken { IsTakenBehind result cartridge.now header.now rest snapshot.new
        (left_of unread.old.items (R.remaining input.old))
        (left_of unread.new.items (R.remaining input.new)) (R.remaining input.new) }
    ensures room { length snapshot.new ≡ length snapshot.old }
    ensures failed { result ≡ TakenState.Failed → R.has_failed input.new ≡ true }
{
    let named = read_header(header, cartridge);
    if is_same(named) && rest == snapshot.len() {
        return unless_fewer(take_bytes(unread, input, snapshot), TakenState::Snapshot);
    }
    unless_fewer(skip_bytes(unread, input, rest), refused_by(named))
}

/// Takes a state of `size` bytes: its snapshot into the slice, where it is one of the cartridge by its header and its length. Whatever the bytes are,
/// none behind them is read. Condition: the slice has as many bytes as a snapshot of the cartridge.
pub fn take_state<R: LineInput>(
    unread: &mut Unread,
    input: &mut R,
    size: usize,
    snapshot: &mut [u8],
    cartridge: &Cartridge,
) -> TakenState
    requires { length snapshot.old ≡ snapshot_length (ram_length_of cartridge.now) }
    ensures taken { HasTakenState result cartridge.now size snapshot.new
        (left_of unread.old.items (R.remaining input.old))
        (left_of unread.new.items (R.remaining input.new)) (R.remaining input.new) }
    ensures room { length snapshot.new ≡ length snapshot.old }
    ensures failed { result ≡ TakenState.Failed → R.has_failed input.new ≡ true }
{
    if size < HEADER_LENGTH {
        return unless_fewer(skip_bytes(unread, input, size), TakenState::Nothing);
    }
    let mut header = [0; 40];
    match take_bytes(unread, input, &mut header) {
        Taken::All => take_behind(
            unread,
            input,
            &header,
            size - HEADER_LENGTH,
            snapshot,
            cartridge,
        ),
        Taken::End => TakenState::End,
        Taken::Failed => TakenState::Failed,
    }
}
