//! What the script of a Merge and a Post commits, and how many blocks are free after opening that.
use super::BLOCKS;
use super::cast::{alternative, checkpoint, key};
use super::device_calls::run;
use super::scripts::Script;
use std::alloc::Global;
use testkit::{Wrong, top};
use vm_disk::MemDisk;
use vm_store::{Store, format, open};
use vm_types::{Change, Command, Key, Name, Value};

/// What a store shows: the records of `top`, those of `ring` with what it changed since its base,
/// the checkpoints of `ring`, and the number of free blocks.
#[derive(Clone, Copy)]
struct State<'a> {
    top: &'a [(Key, Value)],
    ring: &'a [(Key, Value)],
    changes: &'a [Change],
    checkpoints: &'a [Name],
    free: u32,
}

fn ring() -> Name {
    alternative(1)
}

fn record(n: u32, bytes: &[u8]) -> (Key, Value) {
    (key(n), Value::new(bytes).unwrap_or_default())
}

fn shows(alloc: Global, store: &mut Store<MemDisk>, state: State<'_>) -> Result<bool, Wrong> {
    let alternatives = [(top(), None), (ring(), Some(top()))];
    Ok(
        store.alternatives(alloc)?.as_slice() == alternatives.as_slice()
            && store.list(alloc, &top())?.to_vec(alloc)?.as_slice() == state.top
            && store.list(alloc, &ring())?.to_vec(alloc)?.as_slice() == state.ring
            && store.changes(alloc, &ring())?.to_vec(alloc)?.as_slice() == state.changes
            && store.checkpoints(alloc, &ring())?.as_slice() == state.checkpoints
            && store.free() == Ok(state.free),
    )
}

fn shows_nothing(alloc: Global, store: &mut Store<MemDisk>) -> Result<bool, Wrong> {
    Ok(
        store.alternatives(alloc)?.as_slice() == [(top(), None)].as_slice()
            && store.list(alloc, &top())?.is_empty()
            && store.free() == Ok(30),
    )
}

/// `ring` changed the only record, and has a checkpoint of that.
fn shows_the_change(alloc: Global, store: &mut Store<MemDisk>) -> Result<bool, Wrong> {
    let (old, new) = (record(1, b"a"), record(1, b"b"));
    let state = State {
        top: &[old],
        ring: &[new],
        changes: &[Change {
            key: key(1),
            before: Some(old.1),
            after: Some(new.1),
        }],
        checkpoints: &[checkpoint(0)],
        free: 28,
    };
    let before = shows(alloc, store, state)?;
    store.apply(&Command::Back {
        alt: ring(),
        name: checkpoint(0),
    })?;
    Ok(before && shows(alloc, store, state)?)
}

/// Whether the store shows the right thing after this many commands of the script, the last of
/// which was a Commit.
fn shows_what_is_due(
    alloc: Global,
    store: &mut Store<MemDisk>,
    number: u32,
) -> Result<bool, Wrong> {
    let posted = [record(1, b"b"), record(2, b"d")];
    let changed = [record(2, b"d"), record(3, b"e")];
    let (top, free) = match number {
        0 => return shows_nothing(alloc, store),
        5 => return shows_the_change(alloc, store),
        10 => (&posted, 29),
        _ => (&changed, 28),
    };
    shows(
        alloc,
        store,
        State {
            top,
            ring: &posted,
            changes: &[],
            checkpoints: &[],
            free,
        },
    )
}

/// Carries out this many commands of the script on a new store, and opens what is left once more.
fn is_committed(alloc: Global, number: u32) -> Result<bool, Wrong> {
    let disk = format(MemDisk::new(alloc, BLOCKS)?, BLOCKS)?;
    let mut store = open(alloc, disk)?;
    let stage = run(alloc, &mut store, Script::Posting, 0, number);
    let disk = store.close();
    stage?;
    let mut store = open(alloc, disk)?;
    let same = shows_what_is_due(alloc, &mut store, number);
    store.close();
    same
}

#[test]
fn merge_and_post_commit_what_is_due(rt: HostRuntime) {
    for number in [0, 5, 10, 13] {
        assert_eq!(rt;
            is_committed(rt.alloc(), number),
            Ok(true),
            "after {number} commands"
        );
    }
}
