//! The names and keys that the sessions use, and a comparison of everything that a store shows of
//! them.
use super::model::Model;
use plain_model::Plain;
use std::alloc::Global;
use testkit::{RecordingDisk, Wrong, top};
use vm_disk::Disk;
use vm_store::{Store, open};
use vm_types::{Command, Key, Name, Refusal};

/// How many alternatives are in use, including the first one.
pub const ALTERNATIVES: u32 = 4;

/// How many names of checkpoints are in use.
pub const CHECKPOINTS: u32 = 3;

/// How many keys are in use: more than fit in one leaf.
pub const KEYS: u32 = 40;

/// The alternative of this number: `top`, and others that a session may or may not have.
pub(super) fn alternative(n: u32) -> Name {
    let name = match n {
        1 => Name::new(b"ring"),
        2 => Name::new(b"spur"),
        3 => Name::new(b"loop"),
        _ => None,
    };
    name.unwrap_or(top())
}

/// The name of the checkpoint of this number.
pub(super) fn checkpoint(n: u32) -> Name {
    let name = match n {
        1 => Name::new(b"noon"),
        2 => Name::new(b"dusk"),
        _ => Name::new(b"dawn"),
    };
    name.unwrap_or(top())
}

/// The key of this number. The first half of them is in one table, and the others are in the next
/// one.
pub(super) fn key(n: u32) -> Key {
    let half = KEYS / 2;
    Key {
        table: if n < half { 1 } else { 2 },
        number: u64::from(n % half),
    }
}

/// All alternatives that are in use.
pub(super) fn alternatives() -> [Name; 4] {
    [
        alternative(0),
        alternative(1),
        alternative(2),
        alternative(3),
    ]
}

/// Whether the store lists what the model does, or both refuse for the same reason.
fn is_same<T: PartialEq + Drop>(
    found: Result<Vec<T>, Refusal>,
    expected: Result<Vec<T>, Refusal>,
) -> Result<bool, Wrong> {
    match (found, expected) {
        (Err(Refusal::Device), _) => Err(Wrong::Refused(Refusal::Device)),
        (Ok(found), Ok(expected)) => Ok(found.as_slice() == expected.as_slice()),
        (Err(found), Err(expected)) => Ok(found == expected),
        _ => Ok(false),
    }
}

/// Whether the store finds the value of the model at this key.
fn gets<D: Disk>(store: &mut Store<D>, plain: &Plain, alt: &Name, key: Key) -> Result<bool, Wrong> {
    match store.get(alt, key) {
        Err(Refusal::Device) => Err(Wrong::Refused(Refusal::Device)),
        found => Ok(found == plain.get(alt, key)),
    }
}

/// Whether the store lists the alternatives of the model.
fn has_alternatives<D: Disk>(alloc: Global, store: &Store<D>, plain: &Plain) -> bool {
    match (store.alternatives(alloc), plain.alternatives()) {
        (Ok(found), Ok(expected)) => found.as_slice() == expected.as_slice(),
        _ => false,
    }
}

/// Whether the store lists the checkpoints, records, changes and conflicts of the model in this
/// alternative, or both have none of that name.
fn has_lists<D: Disk>(
    alloc: Global,
    store: &mut Store<D>,
    plain: &Plain,
    alt: &Name,
) -> Result<bool, Wrong> {
    let records = match store.list(alloc, alt) {
        Ok(list) => Ok(list.to_vec(alloc)?),
        Err(refusal) => Err(refusal),
    };
    let changes = match store.changes(alloc, alt) {
        Ok(list) => Ok(list.to_vec(alloc)?),
        Err(refusal) => Err(refusal),
    };
    let conflicts = match store.conflicts(alloc, alt) {
        Ok(list) => Ok(list.to_vec(alloc)?),
        Err(refusal) => Err(refusal),
    };
    Ok(
        is_same(store.checkpoints(alloc, alt), plain.checkpoints(alt))?
            && is_same(records, plain.list(alt))?
            && is_same(changes, plain.changes(alt))?
            && is_same(conflicts, plain.conflicts(alt))?,
    )
}

/// Whether the store lists exactly the alternatives of the model, shows in the given ones what the
/// model does, and finds the record of this key.
pub(super) fn agrees<D: Disk>(
    alloc: Global,
    store: &mut Store<D>,
    plain: &Plain,
    alternatives: &[Name],
    at: Key,
) -> Result<bool, Wrong> {
    if !has_alternatives(alloc, store, plain) {
        return Ok(false);
    }
    for alt in alternatives {
        if !has_lists(alloc, store, plain, alt)? || !gets(store, plain, alt, at)? {
            return Ok(false);
        }
    }
    Ok(true)
}

/// Whether a store goes back to a checkpoint as the model does, or both have none of that name.
fn goes_back<D: Disk>(
    alloc: Global,
    store: &mut Store<D>,
    model: &mut Model,
    alt: Name,
    name: Name,
) -> Result<bool, Wrong> {
    let back = Command::Back { alt, name };
    let answer = store.apply(&back);
    if answer != model.apply(&back)? {
        return Ok(false);
    }
    match answer {
        Ok(_) => has_lists(alloc, store, &model.plain, &alt),
        Err(_) => Ok(true),
    }
}

/// Whether a freshly opened store shows what the model does in each alternative and each
/// checkpoint, and has as many blocks, and as many free ones. It goes back to each checkpoint in
/// turn.
fn agrees_anew<D: Disk>(
    alloc: Global,
    store: &mut Store<D>,
    opened: &mut Model,
) -> Result<bool, Wrong> {
    if store.blocks() != Ok(opened.plain.blocks())
        || store.free() != Ok(opened.free())
        || !agrees(alloc, store, &opened.plain, &alternatives(), key(0))?
    {
        return Ok(false);
    }
    for alt in alternatives() {
        for n in 0..CHECKPOINTS {
            if !goes_back(alloc, store, opened, alt, checkpoint(n))? {
                return Ok(false);
            }
        }
    }
    Ok(true)
}

/// Whether a disk shows what is committed in the model. The disk comes back.
pub(super) fn shows(
    alloc: Global,
    disk: RecordingDisk,
    model: &Model,
) -> Result<(RecordingDisk, bool), Wrong> {
    let mut opened = model.reopened()?;
    let mut store = open(alloc, disk)?;
    let same = agrees_anew(alloc, &mut store, &mut opened);
    let disk = store.close();
    Ok((disk, same?))
}
