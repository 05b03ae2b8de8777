//! The exports of a session.

ghost use Rattle.std.specs.Prelude.{◌≡◌, ◌++◌, ◌∷◌, ◌+◌, ◌*◌, ◌⊎◌, [], length, Some, None, true, false};
ghost use Rattle.cartridge.specs.Header.{has_battery, ram_length_of};
ghost use Rattle.machine.specs.Machine.{Frame, Seconds, Power, State, start, applied, picture_rows};
ghost use Rattle.snapshot.specs.Encoding.{snapshot_length};
ghost use Rattle.state_header.specs.States.{state_length, state_of};
ghost use Rattle.log_format.specs.Content.{need};
ghost use Rattle.sector_device.specs.DiskState.{Follows, HasHanded};
ghost use Rattle.sector_device.specs.Runs.{HoldsSince};
ghost use Rattle.session.specs.Accessors.{device_of, machine_of, rom_of, pending_of, acknowledged_of, saved_of, is_broken, IsUnchanged, KeepsAllBut, KeepsSaved};
ghost use Rattle.session.specs.Calls.{input_answer};
ghost use Rattle.session.specs.Stands.{IsAtRest, StandsAt, StandsBetween};
ghost use Rattle.session.specs.Inputs.{can_be_logged, entry_of, inputs_of};
ghost use Rattle.battery_files.specs.Battery.{battery_length, battery_of};
ghost use Rattle.battery_files.specs.Importing.{start_with};
ghost use Rattle.machine.specs.Looking.{bytes_from, shades_of};
ghost use Rattle.embedding.specs.Games.{IsFrom, IsTaken, KeepsInputs};
ghost use Rattle.embedding.specs.Calls.{image_calls};
ghost use Rattle.embedding.specs.HostDevices.{HasHandedOut, calls_of, count_of, handed_of, host_disk};
ghost use Rattle.embedding.specs.declared.host_device.Call.TheVariants.{Write, Sync};
ghost use Rattle.c_interface.specs.Memories.{region_at, IsCopied, IsRegionAnswer};
ghost use Rattle.refusals.specs.Codes.{done};
ghost use Rattle.c_interface.specs.Codes.{answer_code, no_call, a_write, a_sync, IsBatteryCode, IsBegunCode, IsImportedCode, IsNeededCode, IsPowerCode, IsSaveCode, IsStateCode, IsTakenUpCode};

use crate::codes::{DONE, NO_MEMORY, WRONG_LENGTH};
use crate::session_handle::SessionHandle;
use embedding::{Call, Game, sectors_of};
use machine::{Input, Region};
use refusals::Refusal;
use std::alloc::Global;

/// The kind of a call that there is not.
const NO_CALL: u32 = 0;

const WRITE: u32 = 1;

const SYNC: u32 = 2;

/// The kind of a call; of a write, its sector and its bytes are written.
fn written(call: Call, sector: &mut u64, bytes: &mut [u8]) -> u32
    requires { length bytes.old ≡ 512 }
    ensures write { result ≡ a_write → call ≡ Write sector.new bytes.new }
    ensures sync { result ≡ a_sync → call ≡ Sync }
    ensures kinds { (result ≡ a_write) ⊎ (result ≡ a_sync) }
{
    match call {
        Call::Write { at, bytes: content } => {
            *sector = at;
            bytes.copy_from_slice(&content);
            WRITE
        }
        Call::Sync => SYNC,
    }
}

/// Tells how many sectors a game of this image needs.
#[unsafe(no_mangle)]
pub extern "C" fn gbkeep_raw_session_sectors(alloc: Global, rom: &[u8], sectors: &mut u64) -> u32
    ensures need { result ≡ done → sectors.new ≡ need (snapshot_length (ram_length_of rom.now)) }
    ensures code { IsNeededCode rom.now result }
{
    match sectors_of(alloc, rom) {
        Ok(needed) => {
            *sectors = needed;
            DONE
        }
        Err(why) => why.code(),
    }
}

/// Begins a game at power-on on a device of so many zero sectors. A refusal leaves `out` as it was.
#[unsafe(no_mangle)]
pub extern "C" fn gbkeep_raw_session_begin(
    alloc: Global,
    rom: &[u8],
    sectors: usize,
    out: &mut SessionHandle,
) -> u32
    ensures held { result ≡ done → out.new.held ≡ true }
    ensures begun { result ≡ done →
        (acknowledged_of out.new.value.session ≡ 0) × (pending_of out.new.value.session ≡ []) ×
        (is_broken out.new.value.session ≡ false) }
    ensures machine { result ≡ done →
        (machine_of out.new.value.session ≡ start rom.now) × (rom_of out.new.value.session ≡ rom.now) }
    ensures saved { result ≡ done → saved_of out.new.value.session ≡ record { count = 0; machine = start rom.now } }
    ensures rests { result ≡ done →
        IsAtRest rom.now (host_disk (device_of out.new.value.session)) 0 [] (start rom.now) }
    ensures sectors { result ≡ done → count_of (device_of out.new.value.session) ≡ sectors }
    ensures first { result ≡ done → handed_of (device_of out.new.value.session) ≡ [] }
    ensures refused { ¬ (result ≡ done) → out.new ≡ out.old }
    ensures code { IsBegunCode rom.now sectors result }
{
    let game = match Game::begin(alloc, rom, sectors) {
        Ok(game) => game,
        Err(why) => return why.code(),
    };
    let Ok(held) = Box::new(alloc, game) else {
        return NO_MEMORY;
    };
    *out = SessionHandle::of(held);
    DONE
}

/// Begins a game with the RAM and the clocks of a battery file, on a device of so many zero sectors. A refusal leaves `out` as it was.
#[unsafe(no_mangle)]
pub extern "C" fn gbkeep_raw_session_import(
    alloc: Global,
    rom: &[u8],
    battery: &[u8],
    sectors: usize,
    out: &mut SessionHandle,
) -> u32
    ensures held { result ≡ done → out.new.held ≡ true }
    ensures begun { result ≡ done →
        (acknowledged_of out.new.value.session ≡ 0) × (pending_of out.new.value.session ≡ []) ×
        (is_broken out.new.value.session ≡ false) }
    ensures machine { result ≡ done →
        (machine_of out.new.value.session ≡ start_with rom.now battery.now) × (rom_of out.new.value.session ≡ rom.now) }
    ensures saved { result ≡ done →
        saved_of out.new.value.session ≡ record { count = 0; machine = start_with rom.now battery.now } }
    ensures rests { result ≡ done →
        IsAtRest rom.now (host_disk (device_of out.new.value.session)) 0 [] (start_with rom.now battery.now) }
    ensures taken { result ≡ done → IsTaken rom.now battery.now }
    ensures sectors { result ≡ done → count_of (device_of out.new.value.session) ≡ sectors }
    ensures first { result ≡ done → handed_of (device_of out.new.value.session) ≡ [] }
    ensures refused { ¬ (result ≡ done) → out.new ≡ out.old }
    ensures code { IsImportedCode rom.now battery.now sectors result }
{
    let game = match Game::import(alloc, rom, battery, sectors) {
        Ok(game) => game,
        Err(why) => return why.code(),
    };
    let Ok(held) = Box::new(alloc, game) else {
        return NO_MEMORY;
    };
    *out = SessionHandle::of(held);
    DONE
}

/// Takes up the game that an image stands for. A refusal leaves `out` as it was.
#[unsafe(no_mangle)]
pub extern "C" fn gbkeep_raw_session_resume(
    alloc: Global,
    rom: &[u8],
    image: &[u8],
    out: &mut SessionHandle,
) -> u32
    ensures held { result ≡ done → out.new.held ≡ true }
    ensures begun { result ≡ done →
        (pending_of out.new.value.session ≡ []) × (is_broken out.new.value.session ≡ false) ×
        (rom_of out.new.value.session ≡ rom.now) }
    ensures saved { result ≡ done → saved_of out.new.value.session ≡
        record { count = acknowledged_of out.new.value.session; machine = machine_of out.new.value.session } }
    ensures rests { result ≡ done →
        IsAtRest rom.now (host_disk (device_of out.new.value.session)) (acknowledged_of out.new.value.session) []
        (machine_of out.new.value.session) }
    ensures from { result ≡ done →
        IsFrom rom.now image.now (acknowledged_of out.new.value.session) (machine_of out.new.value.session) }
    ensures sectors { result ≡ done → 512 * count_of (device_of out.new.value.session) ≡ length image.now }
    ensures handed { result ≡ done → handed_of (device_of out.new.value.session) ≡
        image_calls image.now (count_of (device_of out.new.value.session)) }
    ensures refused { ¬ (result ≡ done) → out.new ≡ out.old }
    ensures code { IsTakenUpCode rom.now image.now result }
{
    let game = match Game::resume(alloc, rom, image) {
        Ok(game) => game,
        Err(why) => return why.code(),
    };
    let Ok(held) = Box::new(alloc, game) else {
        return NO_MEMORY;
    };
    *out = SessionHandle::of(held);
    DONE
}

/// Frees a session. What is unsaved is lost.
#[unsafe(no_mangle)]
pub extern "C" fn gbkeep_raw_session_free(session: SessionHandle)
    requires held { session.held ≡ true }
{
    drop(session.into_box());
}

/// Gives a frame with these buttons. A refusal changes nothing.
#[unsafe(no_mangle)]
pub extern "C" fn gbkeep_raw_session_frame(
    session: SessionHandle,
    buttons: u8,
    out: &mut SessionHandle,
) -> u32
    requires held { session.held ≡ true }
    ensures held { out.new.held ≡ true }
    ensures code { result ≡ answer_code (input_answer (is_broken session.value.session)
        (length (pending_of session.value.session))
        (acknowledged_of session.value.session + length (pending_of session.value.session))) }
    ensures machine { result ≡ done →
        machine_of out.new.value.session ≡ applied (Frame buttons) (machine_of session.value.session) }
    ensures pending { result ≡ done →
        pending_of out.new.value.session ≡ pending_of session.value.session ++ entry_of (Frame buttons) ∷ [] }
    ensures refused { ¬ (result ≡ done) → IsUnchanged session.value.session out.new.value.session }
    ensures kept { KeepsSaved session.value.session out.new.value.session }
{
    let mut game = session.into_box();
    let code = match game.input(Input::Frame(buttons)) {
        Ok(()) => DONE,
        Err(why) => Refusal::Session(why).code(),
    };
    *out = SessionHandle::of(game);
    code
}

/// Gives seconds of the clock, as one input. A refusal changes nothing.
#[unsafe(no_mangle)]
pub extern "C" fn gbkeep_raw_session_seconds(
    session: SessionHandle,
    seconds: u32,
    out: &mut SessionHandle,
) -> u32
    requires held { session.held ≡ true }
    ensures held { out.new.held ≡ true }
    ensures code { result ≡ answer_code (input_answer (is_broken session.value.session)
        (length (pending_of session.value.session))
        (acknowledged_of session.value.session + length (pending_of session.value.session))) }
    ensures machine { result ≡ done →
        machine_of out.new.value.session ≡ applied (Seconds seconds) (machine_of session.value.session) }
    ensures pending { result ≡ done →
        pending_of out.new.value.session ≡ pending_of session.value.session ++ entry_of (Seconds seconds) ∷ [] }
    ensures refused { ¬ (result ≡ done) → IsUnchanged session.value.session out.new.value.session }
    ensures kept { KeepsSaved session.value.session out.new.value.session }
{
    let mut game = session.into_box();
    let code = match game.input(Input::Seconds(seconds)) {
        Ok(()) => DONE,
        Err(why) => Refusal::Session(why).code(),
    };
    *out = SessionHandle::of(game);
    code
}

/// Switches the power off and on, as one input. A refusal changes nothing.
#[unsafe(no_mangle)]
pub extern "C" fn gbkeep_raw_session_power(
    alloc: Global,
    session: SessionHandle,
    out: &mut SessionHandle,
) -> u32
    requires held { session.held ≡ true }
    ensures held { out.new.held ≡ true }
    ensures code { IsPowerCode (input_answer (is_broken session.value.session)
        (length (pending_of session.value.session))
        (acknowledged_of session.value.session + length (pending_of session.value.session))) result }
    ensures machine { result ≡ done →
        machine_of out.new.value.session ≡ applied Power (machine_of session.value.session) }
    ensures pending { result ≡ done →
        pending_of out.new.value.session ≡ pending_of session.value.session ++ entry_of Power ∷ [] }
    ensures refused { ¬ (result ≡ done) → IsUnchanged session.value.session out.new.value.session }
    ensures kept { KeepsSaved session.value.session out.new.value.session }
{
    let mut game = session.into_box();
    let code = match game.power(alloc) {
        Ok(()) => DONE,
        Err(why) => Refusal::Session(why).code(),
    };
    *out = SessionHandle::of(game);
    code
}

/// Goes on with the machine of a state, as one input. A refusal changes nothing.
#[unsafe(no_mangle)]
pub extern "C" fn gbkeep_raw_session_restore(
    session: SessionHandle,
    bytes: &[u8],
    out: &mut SessionHandle,
) -> u32
    requires held { session.held ≡ true }
    ensures held { out.new.held ≡ true }
    ensures machine { result ≡ done → state_of (machine_of out.new.value.session) ≡ bytes.now }
    ensures code { IsStateCode session.value.cartridge bytes.now
        (input_answer (is_broken session.value.session) (length (pending_of session.value.session))
        (acknowledged_of session.value.session + length (pending_of session.value.session))) result }
    ensures pending { result ≡ done →
        pending_of out.new.value.session ≡
        pending_of session.value.session ++ entry_of (State (machine_of out.new.value.session)) ∷ [] }
    ensures refused { ¬ (result ≡ done) → IsUnchanged session.value.session out.new.value.session }
    ensures kept { KeepsSaved session.value.session out.new.value.session }
{
    let mut game = session.into_box();
    let code = match game.restore(bytes) {
        Ok(()) => DONE,
        Err(why) => Refusal::Session(why).code(),
    };
    *out = SessionHandle::of(game);
    code
}

/// Saves what is pending, and tells the count of all inputs. The calls that make it sure are then among those to be handed out.
#[unsafe(no_mangle)]
pub extern "C" fn gbkeep_raw_session_save(
    session: SessionHandle,
    saved: &mut u64,
    out: &mut SessionHandle,
) -> u32
    requires held { session.held ≡ true }
    ensures held { out.new.held ≡ true }
    ensures calls { Follows (calls_of (device_of session.value.session)) (calls_of (device_of out.new.value.session)) }
    ensures handed { handed_of (device_of out.new.value.session) ≡ handed_of (device_of session.value.session) }
    ensures all { result ≡ done →
        (saved.new ≡ acknowledged_of session.value.session + length (pending_of session.value.session)) ×
        (acknowledged_of out.new.value.session ≡ saved.new) × (pending_of out.new.value.session ≡ []) }
    ensures rests { result ≡ done →
        IsAtRest (rom_of session.value.session) (host_disk (device_of out.new.value.session)) saved.new []
        (machine_of session.value.session) }
    ensures images { is_broken session.value.session ≡ false →
        HoldsSince (host_disk (device_of session.value.session)) (host_disk (device_of out.new.value.session))
        (StandsBetween (can_be_logged (pending_of session.value.session)) (rom_of session.value.session)
        (Some (saved_of session.value.session)) (inputs_of (pending_of session.value.session))
        (record {
          count = acknowledged_of session.value.session + length (pending_of session.value.session);
          machine = machine_of session.value.session;
        })) }
    ensures stands { is_broken session.value.session ≡ false →
        StandsAt (rom_of session.value.session) (host_disk (device_of session.value.session))
        (saved_of session.value.session) }
    ensures stood { is_broken session.value.session ≡ false → can_be_logged (pending_of session.value.session) ≡ true →
        IsAtRest (rom_of session.value.session) (host_disk (device_of session.value.session))
        (acknowledged_of session.value.session) (pending_of session.value.session) (machine_of session.value.session) }
    ensures inputs { KeepsInputs session.value.session out.new.value.session }
    ensures position { result ≡ done → saved_of out.new.value.session ≡
        record { count = saved.new; machine = machine_of session.value.session } }
    ensures kept { ¬ (result ≡ done) → saved_of out.new.value.session ≡ saved_of session.value.session }
    ensures whole { result ≡ done → is_broken out.new.value.session ≡ false }
    ensures machine { (machine_of out.new.value.session ≡ machine_of session.value.session) ×
        (rom_of out.new.value.session ≡ rom_of session.value.session) }
    ensures code { IsSaveCode session.value.session out.new.value.session result }
{
    let mut game = session.into_box();
    let code = match game.save() {
        Ok(all) => {
            *saved = all;
            DONE
        }
        Err(why) => Refusal::Session(why).code(),
    };
    *out = SessionHandle::of(game);
    code
}

/// Hands out the next call: its kind, and of a write its sector and its 512 bytes.
#[unsafe(no_mangle)]
pub extern "C" fn gbkeep_raw_session_next_call(
    session: SessionHandle,
    sector: &mut u64,
    bytes: &mut [u8],
    out: &mut SessionHandle,
) -> u32
    requires held { session.held ≡ true }
    requires room { length bytes.old ≡ 512 }
    ensures held { out.new.held ≡ true }
    ensures none { result ≡ no_call →
        HasHandedOut (device_of session.value.session) None (device_of out.new.value.session) }
    ensures write { result ≡ a_write → HasHandedOut (device_of session.value.session)
        (Some (Write sector.new bytes.new)) (device_of out.new.value.session) }
    ensures sync { result ≡ a_sync →
        HasHandedOut (device_of session.value.session) (Some Sync) (device_of out.new.value.session) }
    ensures kinds { (result ≡ no_call) ⊎ ((result ≡ a_write) ⊎ (result ≡ a_sync)) }
    ensures disk { HasHanded (host_disk (device_of session.value.session))
        (host_disk (device_of out.new.value.session)) }
    ensures kept { KeepsAllBut session.value.session out.new.value.session }
{
    let mut game = session.into_box();
    let kind = match game.next_call() {
        Some(call) => written(call, sector, bytes),
        None => NO_CALL,
    };
    *out = SessionHandle::of(game);
    kind
}

/// Tells how many inputs there are, saved and unsaved.
#[unsafe(no_mangle)]
pub extern "C" fn gbkeep_raw_session_count(session: SessionHandle, out: &mut SessionHandle) -> u64
    requires held { session.held ≡ true }
    ensures held { out.new.held ≡ true }
    ensures count { result ≡ acknowledged_of session.value.session + length (pending_of session.value.session) }
    ensures session { out.new.value.session ≡ session.value.session }
{
    let game = session.into_box();
    let count = game.count();
    *out = SessionHandle::of(game);
    count
}

/// Writes the picture into 23,040 bytes.
#[unsafe(no_mangle)]
pub extern "C" fn gbkeep_raw_session_picture(
    session: SessionHandle,
    shades: &mut [u8],
    out: &mut SessionHandle,
)
    requires held { session.held ≡ true }
    requires room { length shades.old ≡ 23040 }
    ensures held { out.new.held ≡ true }
    ensures shades { shades.new ≡ shades_of (picture_rows (machine_of session.value.session)) }
    ensures session { out.new.value.session ≡ session.value.session }
{
    let mut game = session.into_box();
    game.picture(shades);
    *out = SessionHandle::of(game);
}

/// How many bytes a state has.
#[unsafe(no_mangle)]
pub extern "C" fn gbkeep_raw_session_state_length(
    session: SessionHandle,
    out: &mut SessionHandle,
) -> usize
    requires held { session.held ≡ true }
    ensures held { out.new.held ≡ true }
    ensures length { result ≡ state_length (length (machine_of session.value.session).processor.memory.banks.ram) }
    ensures session { out.new.value.session ≡ session.value.session }
{
    let game = session.into_box();
    let bytes = game.state_length();
    *out = SessionHandle::of(game);
    bytes
}

/// Writes the state.
#[unsafe(no_mangle)]
pub extern "C" fn gbkeep_raw_session_state(
    session: SessionHandle,
    bytes: &mut [u8],
    out: &mut SessionHandle,
)
    requires held { session.held ≡ true }
    requires room { length bytes.old ≡
        state_length (length (machine_of session.value.session).processor.memory.banks.ram) }
    ensures held { out.new.held ≡ true }
    ensures state { bytes.new ≡ state_of (machine_of session.value.session) }
    ensures session { out.new.value.session ≡ session.value.session }
{
    let mut game = session.into_box();
    game.state(bytes);
    *out = SessionHandle::of(game);
}

/// Writes what the program would read from `address` on.
#[unsafe(no_mangle)]
pub extern "C" fn gbkeep_raw_session_memory(
    session: SessionHandle,
    address: u16,
    bytes: &mut [u8],
    out: &mut SessionHandle,
)
    requires held { session.held ≡ true }
    ensures held { out.new.held ≡ true }
    ensures bytes { bytes.new ≡ bytes_from (machine_of session.value.session) address (length bytes.old) }
    ensures session { out.new.value.session ≡ session.value.session }
{
    let game = session.into_box();
    game.memory(address, bytes);
    *out = SessionHandle::of(game);
}

/// The memory of a machine with this number.
fn region_named(which: u32) -> Option<Region>
    ensures { result ≡ region_at which }
{
    match which {
        0 => Some(Region::Vram),
        1 => Some(Region::Wram),
        2 => Some(Region::Oam),
        3 => Some(Region::Hram),
        4 => Some(Region::CartRam),
        _ => None,
    }
}

fn copied(from: &[u8], bytes: &mut [u8]) -> u32
    ensures { IsCopied from.now bytes.old bytes.new result }
{
    let count = bytes.len();
    if count > from.len() {
        return WRONG_LENGTH;
    }
    bytes.copy_from_slice(&from[..count]);
    DONE
}

/// Copies the first bytes of a memory of the machine, whatever is closed or mapped: as many as there is room for. A refusal leaves `bytes` as they were.
#[unsafe(no_mangle)]
pub extern "C" fn gbkeep_raw_session_region(
    session: SessionHandle,
    which: u32,
    bytes: &mut [u8],
    out: &mut SessionHandle,
) -> u32
    requires held { session.held ≡ true }
    ensures held { out.new.held ≡ true }
    ensures answer { IsRegionAnswer (region_at which) (machine_of session.value.session).processor.memory bytes.old bytes.new result }
    ensures session { out.new.value.session ≡ session.value.session }
{
    let game = session.into_box();
    let code = match region_named(which) {
        Some(region) => copied(game.region(region), bytes),
        None => WRONG_LENGTH,
    };
    *out = SessionHandle::of(game);
    code
}

/// How many bytes the battery file has.
#[unsafe(no_mangle)]
pub extern "C" fn gbkeep_raw_session_battery_length(
    session: SessionHandle,
    out: &mut SessionHandle,
) -> usize
    requires held { session.held ≡ true }
    ensures held { out.new.held ≡ true }
    ensures length { result ≡ battery_length (rom_of session.value.session) }
    ensures session { out.new.value.session ≡ session.value.session }
{
    let game = session.into_box();
    let bytes = game.battery_length();
    *out = SessionHandle::of(game);
    bytes
}

/// Writes the battery file. A refusal leaves `bytes` as they were.
#[unsafe(no_mangle)]
pub extern "C" fn gbkeep_raw_session_battery(
    alloc: Global,
    session: SessionHandle,
    bytes: &mut [u8],
    out: &mut SessionHandle,
) -> u32
    requires held { session.held ≡ true }
    requires room { length bytes.old ≡ battery_length (rom_of session.value.session) }
    ensures held { out.new.held ≡ true }
    ensures battery { result ≡ done →
        (has_battery (rom_of session.value.session) ≡ true) ×
        (bytes.new ≡ battery_of (machine_of session.value.session)) }
    ensures refused { ¬ (result ≡ done) → bytes.new ≡ bytes.old }
    ensures code { IsBatteryCode (rom_of session.value.session) result }
    ensures session { out.new.value.session ≡ session.value.session }
{
    let game = session.into_box();
    let code = match game.battery(alloc, bytes) {
        Ok(()) => DONE,
        Err(why) => why.code(),
    };
    *out = SessionHandle::of(game);
    code
}
