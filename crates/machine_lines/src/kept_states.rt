//! States that are kept under numbers.

ghost use Rattle.std.specs.Prelude.{◌≡◌, ◌≢◌, ◌<◌, [], length, slice_set, IfOk, OnErr, OnOk};
ghost use Rattle.std.specs.List.{All};
ghost use Rattle.machine.specs.Legal.{IsLegalMachine};
ghost use Rattle.snapshot.specs.Encoding.{encoded, snapshot_length};
ghost use Rattle.machine_lines.specs.KeptStates.{slots};
ghost use Rattle.machine_lines.specs.Slots.{state_under};

use machine::Machine;
use snapshot::encode;
use std::alloc::{AllocError, Global};
use std::marker::Model;

/// How many numbers there are.
const SLOTS: usize = 1_000;

/// The snapshot under each number, empty where no state is kept.
#[derive(Drop)]
pub struct KeptStates {
    states: Vec<Vec<u8>>,
}

impl Model for KeptStates {
    ghost use Rattle.std.specs.Prelude.{◌≡◌, ℕ, List, length, map};
    ghost use Rattle.machine_lines.specs.KeptStates.{slots};

    ghost Value = { List (List ℕ) };

    ghost view = { λ k. map (λ v. v.items) k.states.items };

    ghost invariant = { λ k. length k.states.items ≡ slots };
}

impl KeptStates {
    /// No states, with room for one under each number.
    pub fn new(alloc: Global) -> Result<KeptStates, AllocError>
        ensures { IfOk result (λ k. All (λ bytes. bytes ≡ []) k) }
    {
        let mut states = Vec::with_capacity(alloc, SLOTS)?;
        for _number in 0..SLOTS {
            states.push(Vec::new(alloc))?;
        }
        Ok(KeptStates { states })
    }

    /// The snapshot under a number, empty where none is kept. Condition: it is one of the numbers.
    pub fn state(&self, number: usize) -> &[u8]
        requires { number < slots }
        ensures { result.now ≡ state_under self.now number }
    {
        &self.states[number]
    }

    /// Keeps the state of a machine under a number, in the memory of the one that was kept there. Conditions: it is one of the numbers, and a
    /// snapshot of the machine has `room` bytes.
    ///
    /// Refused, with all as it was, where there is no memory for so many bytes, and the number has not as many yet.
    pub fn keep(
        &mut self,
        alloc: Global,
        number: usize,
        room: usize,
        machine: &Machine,
    ) -> Result<(), AllocError>
        requires number { number < slots }
        requires room { room ≡ snapshot_length (length machine.now.processor.memory.banks.ram) }
        ensures kept { OnOk result (self.new ≡ slice_set self.old number (encoded machine.now)) }
        ensures legal { OnOk result (IsLegalMachine machine.now) }
        ensures size { length self.old ≡ slots }
        ensures refused { OnErr result ((self.new ≡ self.old) ×
            (length (state_under self.old number) ≢ snapshot_length (length machine.now.processor.memory.banks.ram))) }
    {
        let state = &mut self.states[number];
        if state.len() != room {
            *state = vec![in alloc; 0u8; room]?;
        }
        encode(machine, state);
        Ok(())
    }
}
