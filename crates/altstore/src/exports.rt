//! The functions that C calls.
ghost use Rattle.std.specs.Prelude.{◌≡◌, None, length};
ghost use Rattle.altstore.specs.Answers.{CopiesAnswers, answers_behind};
ghost use Rattle.altstore.specs.Lines.{on_refusal as meant};
ghost use Rattle.altstore.specs.Exports.{AsksBehind, LoadsHandle, OpensHandle, SavesBehind};
ghost use Rattle.altstore.specs.Handles.{behind};
ghost use Rattle.altstore.specs.Images.{Creates, Loads};

use crate::answers::copy_answers;
use crate::descriptor::Descriptor;
use crate::handle::{put, take};
use crate::image::load;
use crate::lifetime::create;
use crate::lines::ask;
use crate::outcome::{CLOSED, MEMORY, OPEN, UNREAD, asked};
use crate::sessions::{keep, save_behind};
use crate::slot::Slot;
use std::alloc::Global;
use std::io::{ErrorKind, Read};
use vm_cli::OnRefusal;

/// Makes a new store of this many blocks, and puts it behind a closed handle.
#[unsafe(no_mangle)]
pub extern "C" fn altstore_new(alloc: Global, slot: &mut Slot, blocks: u32, room: u32) -> u32
    ensures { OpensHandle (Creates blocks) slot.old result slot.new }
{
    if slot.is_open {
        return OPEN;
    }
    keep(alloc, slot, create(alloc, blocks, room))
}

/// Puts the store that the blocks of an image show behind a closed handle.
#[unsafe(no_mangle)]
pub extern "C" fn altstore_load_bytes(
    alloc: Global,
    slot: &mut Slot,
    image: &[u8],
    room: u32,
) -> u32
    ensures { OpensHandle (Loads image.now) slot.old result slot.new }
{
    if slot.is_open {
        return OPEN;
    }
    keep(alloc, slot, load(alloc, image, room))
}

/// Reads a descriptor to its end, and puts the store that the blocks of this image show behind a
/// closed handle. A failed read counts as the end; if no byte was read, the image could not be
/// read.
#[unsafe(no_mangle)]
pub extern "C" fn altstore_load(alloc: Global, slot: &mut Slot, fd: i32, room: u32) -> u32
    ensures { LoadsHandle slot.old result slot.new }
{
    if slot.is_open {
        return OPEN;
    }
    let mut image = Vec::new(alloc);
    match (Descriptor { fd }).read_to_end(&mut image) {
        Ok(0) => UNREAD,
        Ok(_) => keep(alloc, slot, load(alloc, &image, room)),
        Err(error) if error.kind() == ErrorKind::OutOfMemory => MEMORY,
        Err(_) => UNREAD,
    }
}

/// Passes lines to the store behind a handle. If `stops` is true, a refused line is the last one.
#[unsafe(no_mangle)]
pub extern "C" fn altstore_ask(alloc: Global, slot: &mut Slot, lines: &[u8], stops: bool) -> u32
    ensures { AsksBehind lines.now (meant stops) slot.old result slot.new }
{
    let Some(mut session) = take(alloc, slot) else {
        return CLOSED;
    };
    let result = ask(alloc, &mut session, lines, on_refusal(stops));
    put(slot, session);
    asked(&result)
}

/// What a refused line means.
fn on_refusal(stops: bool) -> OnRefusal
    ensures { result ≡ meant stops }
{
    if stops {
        OnRefusal::Stop
    } else {
        OnRefusal::Ignore
    }
}

/// How many bytes the answers kept behind a handle have, 0 if it is closed.
#[unsafe(no_mangle)]
pub extern "C" fn altstore_length(alloc: Global, slot: &mut Slot) -> usize
    ensures count { result ≡ length (answers_behind slot.old) }
    ensures same { behind slot.new ≡ behind slot.old }
{
    let Some(session) = take(alloc, slot) else {
        return 0;
    };
    let length = session.answers.len();
    put(slot, session);
    length
}

/// Copies answers from a byte on, as many bytes as there are and fit, and returns their number, 0
/// if the handle is closed.
#[unsafe(no_mangle)]
pub extern "C" fn altstore_answers(
    alloc: Global,
    slot: &mut Slot,
    from: usize,
    into: &mut [u8],
) -> usize
    ensures copied { CopiesAnswers (answers_behind slot.old) from result into.old into.new }
    ensures same { behind slot.new ≡ behind slot.old }
{
    let Some(session) = take(alloc, slot) else {
        return 0;
    };
    let count = copy_answers(&session, from, into);
    put(slot, session);
    count
}

/// Writes the blocks of the store behind a handle to a descriptor, and opens them again:
/// uncommitted changes are gone.
#[unsafe(no_mangle)]
pub extern "C" fn altstore_save(alloc: Global, slot: &mut Slot, fd: i32) -> u32
    ensures { SavesBehind slot.old result slot.new }
{
    save_behind(alloc, slot, &mut Descriptor { fd })
}

/// Closes a handle, with everything behind it. Does nothing if it is closed.
#[unsafe(no_mangle)]
pub extern "C" fn altstore_close(alloc: Global, slot: &mut Slot)
    ensures { behind slot.new ≡ None }
{
    let _session = take(alloc, slot);
}
