//! What a list of commands commits, and whether a store shows it.
use super::commands::{GREAT, LAST, Script, key, merge, put};
use super::{BLOCKS, GROWN_BLOCKS, name};
use std::alloc::Global;
use testkit::{Wrong, top};
use vm_disk::{Disk, MemDisk};
use vm_store::{Store, open};
use vm_types::{Answer, Change, Command, Records, Refusal, Value};

/// The records of table 1.
type Map = &'static [(u64, &'static [u8])];

/// An alternative under `top`, and whether it has a checkpoint `c` with the same two maps.
#[derive(Clone, Copy)]
struct Own {
    current: Map,
    base: Map,
    saved: bool,
}

/// What is committed of `top`, `x` and `y`, how many blocks there are, and how many of them are
/// free after an opening. If there is a `y`, `top` has the checkpoint `k`.
#[derive(Clone, Copy)]
struct State {
    top: Map,
    own: Option<Own>,
    branch: Option<Own>,
    blocks: u32,
    free: u32,
}

/// What a disk shows: no store, or what this many commands have committed.
#[derive(Clone, Copy, Debug, PartialEq, Eq)]
pub enum Shown {
    NoStore,
    After(u32),
}

const EMPTY: Map = &[];

const FIRST: Map = &[(1, b"a")];

const CHANGED: Map = &[(1, b"b")];

const POSTED: Map = &[(1, b"b"), (2, GREAT)];

const ENDED: Map = &[(2, GREAT), (3, LAST)];

const OWN: Own = Own {
    current: CHANGED,
    base: FIRST,
    saved: true,
};

const SAME: Own = Own {
    current: POSTED,
    base: POSTED,
    saved: false,
};

/// What this number of commands has committed.
fn committed_by(script: Script, commands: u32) -> State {
    let [_, first, second, last] = script.kept();
    let (top, own, free): (Map, Option<Own>, u32) = match commands {
        _ if commands < first => (EMPTY, None, 30),
        _ if commands < second => (FIRST, Some(OWN), 28),
        _ if commands < last => (POSTED, Some(SAME), 29),
        _ => (ENDED, Some(SAME), 26),
    };
    match script {
        Script::Grown if commands >= second => State {
            top,
            own,
            branch: Some(SAME),
            blocks: GROWN_BLOCKS,
            free: free.saturating_add(16),
        },
        _ => State {
            top,
            own,
            branch: None,
            blocks: BLOCKS,
            free,
        },
    }
}

fn value_at(map: Map, number: u64) -> Option<Value> {
    for record in map {
        if record.0 == number {
            return Value::new(record.1);
        }
    }
    None
}

/// Whether these are exactly the records of the map.
fn are_records(records: &Records, map: Map) -> bool {
    for ((found, value), due) in records.iter().zip(map) {
        if found != key(due.0) || value != due.1 {
            return false;
        }
    }
    records.len() == map.len()
}

/// Whether these are exactly the changes from one map to another. All keys of both are below 10.
fn are_changes(changes: &[Change], before: Map, after: Map) -> bool {
    let mut due = changes.iter();
    for number in 0..10 {
        let change = Change {
            key: key(number),
            before: value_at(before, number),
            after: value_at(after, number),
        };
        if change.before != change.after && due.next() != Some(&change) {
            return false;
        }
    }
    due.next().is_none()
}

/// Whether an alternative has these two maps, and is in no conflict with its parent.
fn has_maps<D: Disk>(
    alloc: Global,
    store: &mut Store<D>,
    alt: &[u8],
    own: Own,
) -> Result<bool, Wrong> {
    let alt = name(alt);
    Ok(
        are_records(&store.list(alloc, &alt)?, own.current)
            && are_changes(
                &store.changes(alloc, &alt)?.to_vec(alloc)?,
                own.base,
                own.current,
            )
            && store.conflicts(alloc, &alt)?.is_empty(),
    )
}

/// Whether an alternative has exactly this checkpoint, or none.
fn has_checkpoint<D: Disk>(
    alloc: Global,
    store: &Store<D>,
    alt: &[u8],
    saved: Option<&[u8]>,
) -> Result<bool, Wrong> {
    let checkpoints = store.checkpoints(alloc, &name(alt))?;
    Ok(match saved {
        Some(saved) => checkpoints.as_slice() == [name(saved)].as_slice(),
        None => checkpoints.is_empty(),
    })
}

/// Whether the store lists exactly these alternatives and checkpoints.
fn has_names<D: Disk>(alloc: Global, store: &Store<D>, state: State) -> Result<bool, Wrong> {
    let all = [
        (top(), None),
        (name(b"x"), Some(top())),
        (name(b"y"), Some(top())),
    ];
    let alternatives = store.alternatives(alloc)?;
    let Some(own) = state.own else {
        return Ok(
            alternatives.as_slice() == &all[..1] && has_checkpoint(alloc, store, b"top", None)?,
        );
    };
    let saved = if own.saved {
        Some(b"c".as_slice())
    } else {
        None
    };
    if !has_checkpoint(alloc, store, b"x", saved)? {
        return Ok(false);
    }
    if state.branch.is_none() {
        return Ok(
            alternatives.as_slice() == &all[..2] && has_checkpoint(alloc, store, b"top", None)?,
        );
    }
    Ok(
        alternatives.as_slice() == all.as_slice()
            && has_checkpoint(alloc, store, b"top", Some(b"k"))?
            && has_checkpoint(alloc, store, b"y", None)?,
    )
}

/// Whether a freshly opened store shows what this many commands have committed, except the maps of
/// checkpoints. It only reads.
pub(super) fn shows<D: Disk>(
    alloc: Global,
    store: &mut Store<D>,
    script: Script,
    commands: u32,
) -> Result<bool, Wrong> {
    let state = committed_by(script, commands);
    if !has_names(alloc, store, state)?
        || !are_records(&store.list(alloc, &top())?, state.top)
        || store.blocks() != Ok(state.blocks)
        || store.free() != Ok(state.free)
    {
        return Ok(false);
    }
    if let Some(own) = state.own
        && !has_maps(alloc, store, b"x", own)?
    {
        return Ok(false);
    }
    match state.branch {
        Some(branch) => has_maps(alloc, store, b"y", branch),
        None => Ok(true),
    }
}

/// Whether `x` has the same two maps after it was given others and went back to its checkpoint.
fn goes_back<D: Disk>(alloc: Global, store: &mut Store<D>, own: Own) -> Result<bool, Wrong> {
    let back = Command::Back {
        alt: name(b"x"),
        name: name(b"c"),
    };
    store.apply(&put(b"top", 9, b"z"))?;
    let merged = store.apply(&merge(alloc))?;
    let changed = !has_maps(alloc, store, b"x", own)?;
    store.apply(&back)?;
    let x = name(b"x");
    Ok(
        merged == Answer::Merged(1)
            && changed
            && are_records(&store.list(alloc, &x)?, own.current)
            && are_changes(
                &store.changes(alloc, &x)?.to_vec(alloc)?,
                own.base,
                own.current,
            ),
    )
}

/// What a freshly opened store shows.
fn find_state<D: Disk>(
    alloc: Global,
    store: &mut Store<D>,
    script: Script,
) -> Result<Shown, Wrong> {
    for commands in script.kept() {
        if !shows(alloc, store, script, commands)? {
            continue;
        }
        return match committed_by(script, commands).own {
            Some(own) if own.saved && !goes_back(alloc, store, own)? => Err(Wrong::Differs(
                commands,
            )),
            _ => Ok(Shown::After(commands)),
        };
    }
    Err(Wrong::Shown)
}

/// What a disk shows, including checkpoints.
pub(super) fn look(alloc: Global, disk: MemDisk, script: Script) -> Result<Shown, Wrong> {
    match open(alloc, disk) {
        Ok(mut store) => {
            let shown = find_state(alloc, &mut store, script);
            let _disk = store.close();
            shown
        }
        Err((_, Refusal::NotAStore)) => Ok(Shown::NoStore),
        Err((_, refusal)) => Err(Wrong::Refused(refusal)),
    }
}
