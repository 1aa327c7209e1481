//! A session behind a pointer.
ghost use Rattle.std.specs.Prelude.{◌≡◌, None, Option, Some, IsSome};
ghost use Rattle.altstore.specs.declared.session.Session.{Session as SessionValue};
ghost use Rattle.altstore.specs.Holding.{held_coded, holds};

use crate::parts::Parts;
use crate::session::Session;
use std::alloc::Global;
use std::marker::Model;
use std::ptr::null_mut;

/// The pointer that C keeps: it owns a box of a session, or nothing. Only this module reads it.
#[repr(C)]
#[derive(Drop)]
pub struct Held {
    at: *mut u8,
    alloc: Global,
    pub ghost value: { Option SessionValue } by { held_coded },
}

impl Model for Held {
    ghost also_owns = { λ held. holds held.alloc held.at held.value };
}

impl Held {
    /// It owns nothing.
    pub fn none(alloc: Global) -> Held
        ensures { result.value ≡ None }
    {
        Held {
            at: null_mut(),
            alloc,
        }
    }

    fn of_parts(parts: Parts<Session, Global>) -> Held
        ensures { result.value ≡ Some parts.value }
    {
        let Parts { at, alloc } = parts;
        Held {
            at: at as *mut u8,
            alloc,
        }
    }

    fn into_parts(self) -> Parts<Session, Global>
        requires { IsSome self.value }
        ensures { Some result.value ≡ self.value }
    {
        let Held { at, alloc } = self;
        Parts {
            at: at as *mut Session,
            alloc,
        }
    }

    /// It owns this box.
    pub fn of(session: Box<Session>) -> Held
        ensures { result.value ≡ Some session.value }
    {
        Held::of_parts(Parts::of(session))
    }

    /// The box that it owns.
    pub fn into_box(self) -> Box<Session>
        requires { IsSome self.value }
        ensures { Some result.value ≡ self.value }
    {
        self.into_parts().into_box()
    }
}
