//! Sessions behind handles.
ghost use Rattle.std.specs.Prelude.{◌≡◌, None};
ghost use Rattle.altstore.specs.Exports.{SavesBehind, SavesTo};
ghost use Rattle.altstore.specs.Handles.{KeepsOpened, behind};

use crate::handle::{put, take};
use crate::lifetime::save;
use crate::outcome::{CLOSED, DONE, MEMORY, UNWRITTEN};
use crate::session::Session;
use crate::slot::Slot;
use std::alloc::Global;
use std::io::Write;
use vm_types::Refusal;

/// Puts a session that was opened behind a closed handle, and returns the number that says how it
/// went.
pub fn keep(alloc: Global, slot: &mut Slot, opened: Result<Session, Refusal>) -> u32
    requires { behind slot.old ≡ None }
    ensures { KeepsOpened opened result slot.new }
{
    match opened {
        Ok(session) => match Box::new(alloc, session) {
            Ok(whole) => {
                put(slot, whole);
                DONE
            }
            Err(_) => MEMORY,
        },
        Err(refusal) => refusal.code(),
    }
}

/// Writes the blocks of the store behind a handle, and opens them again: uncommitted changes are
/// gone.
pub fn save_behind<W: Write>(alloc: Global, slot: &mut Slot, writer: &mut W) -> u32
    ensures saves { SavesBehind slot.old result slot.new }

    // If the number is 0, exactly the blocks of the store were written, one after another.
    ensures written { SavesTo W.contents slot.old result writer.old writer.new }
{
    let Some(session) = take(alloc, slot) else {
        return CLOSED;
    };
    let (written, opened) = save(alloc, Box::into_inner(session), writer);
    let code = keep(alloc, slot, opened);
    if code == DONE && written.is_err() {
        return UNWRITTEN;
    }
    code
}
