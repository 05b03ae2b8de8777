//! A machine that obeys orders over bytes.

ghost use Rattle.std.specs.Prelude.{◌≡◌, length, replicate, IfOk, IfErr, OnOk, OnErr};
ghost use Rattle.cartridge.specs.Accepted.{IsAccepted};
ghost use Rattle.machine.specs.Machine.{start, after, picture_rows, powered, seconds_passed};
ghost use Rattle.machine.specs.Machine.{Frame};
ghost use Rattle.snapshot.specs.Legal.{IsMachineOf};
ghost use Rattle.state_header.specs.States.{state_length, state_of};
ghost use Rattle.session.specs.Resting.{IsOfItsRom, own_prop};
ghost use Rattle.machine.specs.Looking.{bytes_from, shades_of};
ghost use Rattle.embedding.specs.Orders.{IsNewCause, IsRestoreCause};
ghost use Rattle.refusals.specs.declared.refusal.Refusal.TheVariants.{Memory};

use crate::states::{named, write_state};
use cartridge::{Cartridge, refusal};
use machine::{Input, Machine, write_memory, write_shades};
use refusals::Refusal;
use session::machine_at_power_on;
use snapshot::{decode_into, powered};
use state_header::{HEADER_LENGTH, Named};
use std::alloc::{AllocError, Global};
use std::mem;

/// A machine, and the cartridge that is in it.
///
/// `new` and `power` take memory; no other call does.
#[derive(Drop)]
pub struct Console {
    cartridge: Cartridge,
    machine: Machine,
    ghost rom: { machine.processor.memory.banks.rom ≡ cartridge },
    ghost own: { IsOfItsRom machine } by { own_prop machine },
}

/// The cartridge in a copy of an accepted image. `Err` only when out of memory.
pub(crate) fn copied(alloc: Global, rom: &[u8]) -> Result<Cartridge, AllocError>
    requires { IsAccepted rom.now }
    ensures image { IfOk result (λ cartridge. cartridge ≡ rom.now) }
{
    let image = rom.to_vec(alloc)?;
    match Cartridge::read(image) {
        Ok(cartridge) => Ok(cartridge),
        Err(_) => unreachable!(),
    }
}

/// Plays `count` frames with these buttons.
fn play_frames(machine: &mut Machine, buttons: u8, count: u32)
    ensures { machine.new ≡ after machine.old (replicate count (Frame buttons)) }
{
    for _i in 0..count {
        machine.frame(buttons);
    }
}

impl Console {
    /// The machine of this image at power-on. The image is copied.
    ///
    /// Refusals, in this order: `Cart` with the first rule that the image breaks; `Memory` for the copy and the machine.
    pub fn new(alloc: Global, rom: &[u8]) -> Result<Console, Refusal>
        ensures rom { IfOk result (λ c. c.cartridge ≡ rom.now) }
        ensures machine { IfOk result (λ c. c.machine ≡ start rom.now) }
        ensures accepted { IfOk result (λ c. IsAccepted rom.now) }
        ensures cause { IfErr result (IsNewCause rom.now) }
    {
        if let Some(why) = refusal(rom) {
            return Err(Refusal::Cart(why));
        }
        let Ok(cartridge) = copied(alloc, rom) else {
            return Err(Refusal::Memory);
        };
        let Ok(machine) = machine_at_power_on(alloc, &cartridge) else {
            return Err(Refusal::Memory);
        };
        Ok(Console { cartridge, machine })
    }

    /// Plays `count` frames with these buttons: Right, Left, Up, Down, A, B, Select, Start as bits 0 to 7, 1 for pressed.
    pub fn frames(&mut self, buttons: u8, count: u32)
        ensures machine { self.new.machine ≡ after self.old.machine (replicate count (Frame buttons)) }
        ensures cartridge { self.new.cartridge ≡ self.old.cartridge }
    {
        play_frames(&mut self.machine, buttons, count);
    }

    /// Lets this many seconds pass on the clock of MBC3; without a clock nothing changes.
    pub fn seconds(&mut self, seconds: u32)
        ensures machine { self.new.machine ≡ seconds_passed seconds self.old.machine }
        ensures cartridge { self.new.cartridge ≡ self.old.cartridge }
    {
        self.machine.apply(Input::Seconds(seconds));
    }

    /// Switches the power off and on. The RAM of a cartridge with a battery stays, and its clock goes on; of one without, everything begins
    /// anew. Refused with `Memory` alone.
    pub fn power(&mut self, alloc: Global) -> Result<(), Refusal>
        ensures machine { OnOk result (self.new.machine ≡ powered self.old.machine) }
        ensures cartridge { self.new.cartridge ≡ self.old.cartridge }
        ensures refused { OnErr result (self.new.machine ≡ self.old.machine) }
        ensures cause { IfErr result (λ why. why ≡ Memory) }
    {
        let Ok(machine) = powered(alloc, &self.cartridge, &self.machine) else {
            return Err(Refusal::Memory);
        };
        drop(mem::replace(&mut self.machine, machine));
        Ok(())
    }

    /// Writes the picture: a shade a byte, 0 the darkest and 3 the lightest, row by row. Condition: there are 23,040 bytes.
    pub fn picture(&mut self, shades: &mut [u8])
        requires { length shades.old ≡ 23040 }
        ensures shades { shades.new ≡ shades_of (picture_rows self.old.machine) }
        ensures machine { self.new.machine ≡ self.old.machine }
        ensures cartridge { self.new.cartridge ≡ self.old.cartridge }
    {
        self.machine.draw_late();
        write_shades(self.machine.picture(), shades);
    }

    /// The bytes of a state: 22,647, and those of the cartridge's RAM.
    pub fn state_length(&self) -> usize
        ensures length { result ≡ state_length (length self.now.machine.processor.memory.banks.ram) }
    {
        HEADER_LENGTH + snapshot::length(self.cartridge.ram_length())
    }

    /// Writes the state: the header of this ROM's, and the snapshot of the machine. Condition: there are as many bytes as `state_length` says.
    pub fn state(&mut self, bytes: &mut [u8])
        requires { length bytes.old ≡ state_length (length self.old.machine.processor.memory.banks.ram) }
        ensures state { bytes.new ≡ state_of self.old.machine }
        ensures machine { self.new.machine ≡ self.old.machine }
        ensures cartridge { self.new.cartridge ≡ self.old.cartridge }
    {
        self.machine.draw_late();
        write_state(&self.machine, &self.cartridge, bytes);
    }

    /// Takes the machine whose state this is.
    ///
    /// Refusals: `NoState` for bytes that do not begin with the header of a state; `OtherState` for the header of another ROM, no matter what
    /// stands behind it; `Snapshot` for what is no legal snapshot behind this ROM's.
    pub fn restore(&mut self, bytes: &[u8]) -> Result<(), Refusal>
        ensures state { OnOk result (state_of self.new.machine ≡ bytes.now) }
        ensures of { OnOk result (IsMachineOf self.old.cartridge self.new.machine) }
        ensures cartridge { self.new.cartridge ≡ self.old.cartridge }
        ensures refused { OnErr result (self.new.machine ≡ self.old.machine) }
        ensures cause { IfErr result (IsRestoreCause self.old.cartridge bytes.now) }
    {
        match named(bytes, &self.cartridge) {
            Named::Same => {
                match decode_into(&bytes[HEADER_LENGTH..], &self.cartridge, &mut self.machine) {
                    Ok(()) => Ok(()),
                    Err(why) => Err(Refusal::Snapshot(why)),
                }
            }
            Named::Other => Err(Refusal::OtherState),
            Named::Nothing => Err(Refusal::NoState),
        }
    }

    /// Writes what the program would read from `address` on if nothing closed a memory to it; after FFFF comes 0000.
    pub fn memory(&self, address: u16, bytes: &mut [u8])
        ensures { bytes.new ≡ bytes_from self.now.machine address (length bytes.old) }
    {
        write_memory(&self.machine, address, bytes);
    }
}
