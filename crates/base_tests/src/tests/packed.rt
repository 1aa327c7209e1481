//! Packed lists of changes and of conflicts, as they are filled and read.
use super::spelled::key;
use std::alloc::{AllocError, Global};
use std::process::Abort;
use std::test::Fail;
use vm_types::{Change, Changes, Conflict, Conflicts, Key, Value};

const LONG: [u8; 4000] = [7; 4000];

/// A record added, one changed, one removed, and one that is empty before.
fn some_changes(alloc: Global) -> Result<Changes, AllocError> {
    let mut changes = Changes::new(alloc);
    changes.push(key(1, 9), None, Some(b"duct"))?;
    changes.push(key(1, 10), Some(&LONG), Some(b"pipe"))?;
    changes.push(key(2, 0), Some(b"duct"), None)?;
    changes.push(key(2, 3), Some(b""), Some(b"x"))?;
    Ok(changes)
}

/// A record that the alternative removed, one that both added, and one that both changed, or one of
/// them.
fn some_conflicts(alloc: Global) -> Result<Conflicts, AllocError> {
    let mut conflicts = Conflicts::new(alloc);
    conflicts.push(key(1, 9), Some(b"a"), Some(&LONG), None)?;
    conflicts.push(key(2, 0), None, Some(b"b"), Some(b""))?;
    conflicts.push(key(2, 3), Some(&LONG), Some(&[8; 4000]), Some(&LONG))?;
    Ok(conflicts)
}

/// The change of these values.
fn change(key: Key, before: Option<&[u8]>, after: Option<&[u8]>) -> Change {
    Change {
        key,
        before: before.and_then(Value::new),
        after: after.and_then(Value::new),
    }
}

/// The expected list of changes.
fn due_changes() -> [Change; 4] {
    [
        change(key(1, 9), None, Some(b"duct")),
        change(key(1, 10), Some(&LONG), Some(b"pipe")),
        change(key(2, 0), Some(b"duct"), None),
        change(key(2, 3), Some(b""), Some(b"x")),
    ]
}

/// The conflict of these values.
fn conflict(key: Key, base: Option<&[u8]>, parent: Option<&[u8]>, mine: Option<&[u8]>) -> Conflict {
    Conflict {
        key,
        base: base.and_then(Value::new),
        parent: parent.and_then(Value::new),
        mine: mine.and_then(Value::new),
    }
}

/// The expected list of conflicts.
fn due_conflicts() -> [Conflict; 3] {
    [
        conflict(key(1, 9), Some(b"a"), Some(&LONG), None),
        conflict(key(2, 0), None, Some(b"b"), Some(b"")),
        conflict(key(2, 3), Some(&LONG), Some(&[8; 4000]), Some(&LONG)),
    ]
}

fn expect_no_changes(rt: &impl Abort, changes: &Changes) {
    assert!(rt; changes.is_empty());
    assert_eq!(rt; changes.len(), 0);
    assert!(rt; changes.at(0).is_none());
}

fn expect_no_conflicts(rt: &impl Abort, conflicts: &Conflicts) {
    assert!(rt; conflicts.is_empty());
    assert_eq!(rt; conflicts.len(), 0);
    assert!(rt; conflicts.at(0).is_none());
}

#[test]
fn new_lists_are_empty(rt: HostRuntime) -> Result<(), Fail> {
    expect_no_changes(&rt, &Changes::new(rt.alloc()));
    expect_no_conflicts(&rt, &Conflicts::new(rt.alloc()));
    assert!(rt; Conflicts::new(rt.alloc()).to_vec(rt.alloc())?.is_empty());
    Ok(())
}

/// Change `i` must be this one, by its parts and as a whole.
fn expect_change(rt: &impl Abort, changes: &Changes, i: usize, due: Change) {
    assert!(rt; i < changes.len(), "no change {i}");
    let given = change(changes.key(i), changes.before(i), changes.after(i));
    assert!(rt; given == due, "change {i}");
    assert!(rt; changes.at(i) == Some(due), "change {i}, whole");
}

/// How many changes the walk passes until one is not the expected one.
fn walked_changes(changes: &Changes, due: &[Change]) -> usize {
    let mut walked = 0;
    for (key, before, after) in changes {
        if due.get(walked).copied() != Some(change(key, before, after)) {
            return walked;
        }
        walked += 1;
    }
    walked
}

#[test]
fn changes_are_given_walked_and_copied_in_the_order_of_the_pushes(
    rt: HostRuntime,
) -> Result<(), Fail> {
    let changes = some_changes(rt.alloc())?;
    for (i, due) in due_changes().iter().enumerate() {
        expect_change(&rt, &changes, i, *due);
    }
    assert_eq!(rt; changes.len(), 4);
    assert!(rt; changes.at(4).is_none());
    assert_eq!(rt; walked_changes(&changes, &due_changes()), 4);
    let list = changes.to_vec(rt.alloc())?;
    assert!(rt; list.as_slice() == due_changes().as_slice());
    Ok(())
}

/// Conflict `i` must be this one, by its parts and as a whole.
fn expect_conflict(rt: &impl Abort, conflicts: &Conflicts, i: usize, due: Conflict) {
    assert!(rt; i < conflicts.len(), "no conflict {i}");
    let (base, parent) = (conflicts.base(i), conflicts.parent(i));
    let given = conflict(conflicts.key(i), base, parent, conflicts.mine(i));
    assert!(rt; given == due, "conflict {i}");
    assert!(rt; conflicts.at(i) == Some(due), "conflict {i}, whole");
}

/// How many conflicts the walk passes until one is not the expected one.
fn walked_conflicts(conflicts: &Conflicts, due: &[Conflict]) -> usize {
    let mut walked = 0;
    for (key, base, parent, mine) in conflicts {
        if due.get(walked).copied() != Some(conflict(key, base, parent, mine)) {
            return walked;
        }
        walked += 1;
    }
    walked
}

#[test]
fn conflicts_are_given_walked_and_copied_in_the_order_of_the_pushes(
    rt: HostRuntime,
) -> Result<(), Fail> {
    let conflicts = some_conflicts(rt.alloc())?;
    for (i, due) in due_conflicts().iter().enumerate() {
        expect_conflict(&rt, &conflicts, i, *due);
    }
    assert_eq!(rt; conflicts.len(), 3);
    assert!(rt; conflicts.at(3).is_none());
    assert_eq!(rt; walked_conflicts(&conflicts, &due_conflicts()), 3);
    let list = conflicts.to_vec(rt.alloc())?;
    assert!(rt; list.as_slice() == due_conflicts().as_slice());
    Ok(())
}
