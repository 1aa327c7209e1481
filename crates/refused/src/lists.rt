//! The commands as one list.
use crate::commands::{GROW, MERGE, Reply, commands, write_reply};
use crate::memory_faults::{Wanting, Wrong};
use crate::sight::{expect, look};
use crate::stores::{new_store, reopen};
use std::alloc::Global;
use vm_disk::MemDisk;
use vm_store::{Stop, Store};
use vm_types::{Command, Refusal};

/// Runs a list. If there is no memory for the answers, nothing has changed, and the list is run
/// once more.
fn run(
    alloc: Global,
    store: &mut Store<MemDisk>,
    list: &[Command<'_>],
    wanting: &mut Wanting,
) -> Result<Vec<Reply>, Wrong> {
    let before = look(alloc, store, wanting)?;
    let (mut answers, mut stop) = store.run(alloc, list);
    if stop == Some(Stop::Memory) {
        wanting.note("run");
        if !answers.is_empty() {
            return Err(Wrong::Found("a refused list has answers"));
        }
        expect(
            alloc,
            store,
            before.as_str(),
            "a refused list has changed the store",
        )?;
        (answers, stop) = store.run(alloc, list);
    }
    match stop {
        None => Ok(answers),
        Some(_) => Err(Wrong::Found("a list has stopped")),
    }
}

/// Runs a list on a new store, and returns the answers and everything that is shown then, including
/// after a new opening.
fn run_whole(
    alloc: Global,
    list: &[Command<'_>],
    wanting: &mut Wanting,
) -> Result<(Vec<Reply>, String), Wrong> {
    let mut store = new_store(alloc, wanting)?;
    let answers = run(alloc, &mut store, list, wanting);
    let shown = look(alloc, &mut store, wanting);
    let disk = store.close();
    Ok((answers?, reopen(alloc, disk, shown?, wanting)?))
}

/// Whether a list with a refused command was answered, and left the store, as the list without that
/// command does.
fn is_without(
    alloc: Global,
    refused: usize,
    answers: &[Reply],
    shown: &str,
    wanting: &mut Wanting,
) -> Result<bool, Wrong> {
    let list = commands(alloc, Some(refused))?;
    let (due, due_shown) = run_whole(alloc, list.as_slice(), wanting)?;
    let others = answers.iter().enumerate().filter(|it| it.0 != refused);
    Ok(
        answers.len() == due.len().saturating_add(1)
            && others.zip(&due).all(|(answer, due)| answer.1 == due)
            && shown == due_shown.as_str(),
    )
}

pub(crate) fn carry_out(alloc: Global, wanting: &mut Wanting) -> Result<String, Wrong> {
    let list = commands(alloc, None)?;
    let (answers, shown) = run_whole(alloc, list.as_slice(), wanting)?;
    for (n, what) in [(MERGE, "merge in a list"), (GROW, "grow in a list")] {
        if matches!(answers.get(n), Some(Err(Refusal::Memory))) {
            wanting.note(what);
            if !is_without(alloc, n, answers.as_slice(), shown.as_str(), wanting)? {
                return Err(Wrong::Found("a refused command of a list has changed the store"));
            }
            return Err(Wrong::Again);
        }
    }
    let mut text = String::from_str(alloc, "as a list:\n")?;
    for answer in &answers {
        write_reply(&mut text, *answer)?;
    }
    text.push_str(shown.as_str())?;
    Ok(text)
}
