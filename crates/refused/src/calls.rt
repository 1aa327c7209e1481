//! The commands, each by a call of its own.
use crate::commands::{COMMANDS, GROW, MERGE, Reply, command, write_reply};
use crate::memory_faults::{Wanting, Wrong};
use crate::sight::{expect, look};
use crate::stores::{new_store, reopen};
use std::alloc::Global;
use vm_disk::MemDisk;
use vm_store::Store;
use vm_types::Refusal;

/// Carries out a command. Only a merge and a grow may lack memory: then nothing has changed, and
/// the command is carried out once more.
fn apply(
    alloc: Global,
    store: &mut Store<MemDisk>,
    n: usize,
    wanting: &mut Wanting,
) -> Result<Reply, Wrong> {
    let before = look(alloc, store, wanting)?;
    let reply = store.apply(&command(alloc, n));
    if reply != Err(Refusal::Memory) {
        return Ok(reply);
    }
    match n {
        MERGE => wanting.note("merge"),
        GROW => wanting.note("grow"),
        _ => return Err(Wrong::Found("a command that takes no memory wants it")),
    }
    expect(
        alloc,
        store,
        before.as_str(),
        "a refused command has changed the store",
    )?;
    Ok(store.apply(&command(alloc, n)))
}

fn apply_all(
    alloc: Global,
    store: &mut Store<MemDisk>,
    wanting: &mut Wanting,
) -> Result<String, Wrong> {
    let mut text = String::from_str(alloc, "by calls:\n")?;
    for n in 0..COMMANDS {
        write_reply(&mut text, apply(alloc, store, n, wanting)?)?;
    }
    text.push_str(look(alloc, store, wanting)?.as_str())?;
    Ok(text)
}

pub(crate) fn carry_out(alloc: Global, wanting: &mut Wanting) -> Result<String, Wrong> {
    let mut store = new_store(alloc, wanting)?;
    let text = apply_all(alloc, &mut store, wanting);
    let disk = store.close();
    reopen(alloc, disk, text?, wanting)
}
