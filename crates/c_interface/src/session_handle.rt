//! The handle of a session.

ghost use Rattle.std.specs.Prelude.{◌≡◌, true, Bool};
ghost use Rattle.embedding.specs.declared.game.Game.{Game};
ghost use Rattle.c_interface.specs.Handles.{game_coded, owns_game};

use crate::loose::Loose;
use embedding::Game;
use std::alloc::Global;
use std::marker::Model;

/// Where `held` is true, the address of a boxed game, which it owns; else any address, which it does not own.
#[repr(C)]
#[derive(Drop)]
pub struct SessionHandle {
    at: *mut u8,
    alloc: Global,
    pub ghost held: { Bool },
    pub ghost value: { Game } by { game_coded },
}

impl Model for SessionHandle {
    ghost also_owns = { λ h. owns_game h.alloc h.at h.held h.value };
}

impl SessionHandle {
    /// The handle of a boxed game.
    pub(crate) fn of(game: Box<Game>) -> SessionHandle
        ensures held { result.held ≡ true }
        ensures value { result.value ≡ game.value }
    {
        SessionHandle::of_loose(Loose::of(game))
    }

    /// The boxed game of a handle.
    pub(crate) fn into_box(self) -> Box<Game>
        requires { self.held ≡ true }
        ensures { result.value ≡ self.value }
    {
        self.into_loose().into_box()
    }

    fn of_loose(loose: Loose<Game, Global>) -> SessionHandle
        ensures { (result.held ≡ true) × (result.value ≡ loose.value) }
    {
        let Loose { at, alloc } = loose;
        SessionHandle {
            at: at as *mut u8,
            alloc,
        }
    }

    fn into_loose(self) -> Loose<Game, Global>
        requires { self.held ≡ true }
        ensures { result.value ≡ self.value }
    {
        let SessionHandle { at, alloc } = self;
        Loose {
            at: at as *mut Game,
            alloc,
        }
    }
}
