//! The handle of a machine.

ghost use Rattle.std.specs.Prelude.{◌≡◌, true, Bool};
ghost use Rattle.embedding.specs.declared.console.Console.{Console};
ghost use Rattle.c_interface.specs.Handles.{console_coded, owns_console};

use crate::loose::Loose;
use embedding::Console;
use std::alloc::Global;
use std::marker::Model;

/// Where `held` is true, the address of a boxed console, which it owns; else any address, which it does not own.
#[repr(C)]
#[derive(Drop)]
pub struct MachineHandle {
    at: *mut u8,
    alloc: Global,
    pub ghost held: { Bool },
    pub ghost value: { Console } by { console_coded },
}

impl Model for MachineHandle {
    ghost also_owns = { λ h. owns_console h.alloc h.at h.held h.value };
}

impl MachineHandle {
    /// The handle of a boxed console.
    pub(crate) fn of(console: Box<Console>) -> MachineHandle
        ensures held { result.held ≡ true }
        ensures value { result.value ≡ console.value }
    {
        MachineHandle::of_loose(Loose::of(console))
    }

    /// The boxed console of a handle.
    pub(crate) fn into_box(self) -> Box<Console>
        requires { self.held ≡ true }
        ensures { result.value ≡ self.value }
    {
        self.into_loose().into_box()
    }

    fn of_loose(loose: Loose<Console, Global>) -> MachineHandle
        ensures { (result.held ≡ true) × (result.value ≡ loose.value) }
    {
        let Loose { at, alloc } = loose;
        MachineHandle {
            at: at as *mut u8,
            alloc,
        }
    }

    fn into_loose(self) -> Loose<Console, Global>
        requires { self.held ≡ true }
        ensures { result.value ≡ self.value }
    {
        let MachineHandle { at, alloc } = self;
        Loose {
            at: at as *mut Console,
            alloc,
        }
    }
}
