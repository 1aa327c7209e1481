//! Taking the session from behind a handle, and putting one there.
ghost use Rattle.std.specs.Prelude.{◌≡◌, None, Some, false, true};
ghost use Rattle.altstore.specs.Handles.{behind, boxed_session};

use crate::held::Held;
use crate::session::Session;
use crate::slot::Slot;
use std::alloc::Global;
use std::mem::replace;

/// Takes the session from behind a handle, if there is one. The handle is then closed.
pub fn take(alloc: Global, slot: &mut Slot) -> Option<Box<Session>>
    ensures session { boxed_session result ≡ behind slot.old }
    ensures closed { behind slot.new ≡ None }
{
    if !slot.is_open {
        return None;
    }
    slot.is_open = false;
    let held = replace(&mut slot.held, Held::none(alloc));
    Some(held.into_box())
}

/// Puts a session behind a handle.
pub fn put(slot: &mut Slot, session: Box<Session>)
    ensures { behind slot.new ≡ Some session.value }
{
    slot.held = Held::of(session);
    slot.is_open = true;
}
