//! Which conflicts there are, why settlements of them are refused, and what a merge takes with
//! them.
use super::spelled;
use std::alloc::{AllocError, Global};
use std::process::Abort;
use std::test::Fail;
use vm_types::Side::{Mine, Theirs};
use vm_types::{
    Change, Changes, Conflict, Key, Refusal, Side, Value, conflicts_between, keys_in_conflict,
    plan_merge, settled_refusal,
};

fn key(number: u64) -> Key {
    spelled::key(1, number)
}

fn value(byte: u8) -> Value {
    Value::new(&[byte]).unwrap_or_default()
}

/// A record that both sides added.
fn conflict(number: u64) -> Conflict {
    Conflict {
        key: key(number),
        base: None,
        parent: Some(value(b'p')),
        mine: Some(value(b'm')),
    }
}

/// The keys in conflict, by their numbers in table 1: by rising keys, and in another order.
const RISING: &[u64] = &[2, 4, 6];

const MIXED: &[u64] = &[6, 2, 4];

/// Settlements of keys of table 1, and the keys in conflict: each of these is settled once.
const TAKEN: [(&[(u64, Side)], &[u64]); 5] = [
    (&[(2, Mine), (4, Theirs), (6, Mine)], RISING),
    (&[(2, Mine), (4, Theirs), (6, Mine)], MIXED),
    (&[(4, Theirs), (6, Mine), (2, Mine)], RISING),
    (&[(4, Theirs), (6, Mine), (2, Mine)], MIXED),
    (&[], &[]),
];

/// The same with the number of keys that are not settled.
const UNSETTLED: [(&[(u64, Side)], &[u64], u64); 7] = [
    (&[(2, Mine), (4, Mine)], RISING, 1),
    (&[(2, Mine), (6, Mine)], RISING, 1),
    (&[(4, Mine), (6, Mine)], RISING, 1),
    (&[(6, Mine), (4, Mine)], RISING, 1),
    (&[(4, Mine), (6, Mine)], MIXED, 1),
    (&[(6, Theirs)], RISING, 2),
    (&[], RISING, 3),
];

/// The same with the first settled key that is in no conflict.
const IN_NO_CONFLICT: [(&[(u64, Side)], &[u64], u64); 6] = [
    (&[(2, Mine), (3, Mine), (4, Mine), (5, Mine)], RISING, 3),
    (&[(5, Mine), (4, Mine), (3, Mine), (2, Mine)], RISING, 5),
    (&[(2, Mine), (3, Mine), (4, Mine), (5, Mine)], MIXED, 3),
    (&[(1, Mine), (2, Mine)], RISING, 1),
    (&[(2, Mine), (4, Mine), (6, Mine), (7, Mine)], RISING, 7),
    (&[(2, Mine)], &[], 2),
];

/// The same with the first key that is settled twice.
const TWICE: [(&[(u64, Side)], &[u64], u64); 4] = [
    (&[(2, Mine), (4, Mine), (4, Mine), (6, Mine)], RISING, 4),
    (&[(2, Mine), (4, Mine), (4, Theirs), (6, Mine)], RISING, 4),
    (&[(4, Mine), (6, Mine), (2, Mine), (4, Mine)], RISING, 4),
    (&[(3, Mine), (4, Mine), (4, Mine)], MIXED, 4),
];

/// Settlements of keys of table 1.
fn sides(alloc: Global, settled: &[(u64, Side)]) -> Result<Vec<(Key, Side)>, AllocError> {
    let mut sides = Vec::new(alloc);
    for (number, side) in settled {
        sides.push((key(*number), *side))?;
    }
    Ok(sides)
}

/// Why these settlements are refused if these keys are in conflict.
fn refusal(
    alloc: Global,
    settled: &[(u64, Side)],
    conflicts: &[u64],
) -> Result<Option<Refusal>, AllocError> {
    let sides = sides(alloc, settled)?;
    let mut keys = Vec::new(alloc);
    for number in conflicts {
        keys.push(key(*number))?;
    }
    Ok(settled_refusal(alloc, &sides, &keys))
}

fn expect_refusal<R: AllocGlobal + Abort>(
    rt: &R,
    settled: &[(u64, Side)],
    conflicts: &[u64],
    due: Option<Refusal>,
) {
    match refusal(rt.alloc(), settled, conflicts) {
        Ok(found) => assert_eq!(rt; found, due, "{settled:?} of {conflicts:?}"),
        Err(_) => panic!(rt; "no memory"),
    }
}

#[test]
fn settlements_are_taken_or_refused(rt: HostRuntime) {
    for (settled, conflicts) in &TAKEN {
        expect_refusal(&rt, settled, conflicts, None);
    }
    for (settled, conflicts, count) in &UNSETTLED {
        expect_refusal(&rt, settled, conflicts, Some(Refusal::Unsettled(*count)));
    }
    for (settled, conflicts, first) in &IN_NO_CONFLICT {
        let due = Refusal::NotInConflict(key(*first));
        expect_refusal(&rt, settled, conflicts, Some(due));
    }
    for (settled, conflicts, first) in &TWICE {
        let due = Refusal::SettledTwice(key(*first));
        expect_refusal(&rt, settled, conflicts, Some(due));
    }
}

/// Changes of keys of table 1, each with its values of one byte before and after.
type Edits = &'static [(u64, Option<u8>, Option<u8>)];

/// What the parent changed since a base, and what the alternative did.
const PARENT: Edits = &[
    (1, None, Some(b'p')),
    (2, Some(b'b'), Some(b'p')),
    (4, Some(b'b'), None),
    (6, None, Some(b'p')),
    (7, None, Some(b'p')),
];

const OWN: Edits = &[
    (2, Some(b'b'), Some(b'm')),
    (4, Some(b'b'), Some(b'm')),
    (5, Some(b'b'), None),
    (6, None, Some(b'm')),
    (7, None, Some(b'p')),
];

const ADDED: Edits = &[(1, None, Some(b'p'))];

const REMOVED: Edits = &[(5, Some(b'b'), None)];

fn change(number: u64, before: Option<u8>, after: Option<u8>) -> Change {
    Change {
        key: key(number),
        before: before.map(value),
        after: after.map(value),
    }
}

/// A packed list of these changes.
fn packed(alloc: Global, edits: Edits) -> Result<Changes, AllocError> {
    let mut list = Changes::new(alloc);
    for (number, before, after) in edits {
        let change = change(*number, *before, *after);
        list.push(
            change.key,
            change.before.as_ref().map(|value| value.as_bytes()),
            change.after.as_ref().map(|value| value.as_bytes()),
        )?;
    }
    Ok(list)
}

/// Whether these are the changes of a list.
fn are(changes: &[Change], due: Edits) -> bool {
    for (i, (number, before, after)) in due.iter().enumerate() {
        if changes.get(i).copied() != Some(change(*number, *before, *after)) {
            return false;
        }
    }
    changes.len() == due.len()
}

#[test]
fn finds_the_conflicts_and_their_keys(rt: HostRuntime) -> Result<(), Fail> {
    let (parent, own) = (packed(rt.alloc(), PARENT)?, packed(rt.alloc(), OWN)?);
    let conflicts = conflicts_between(rt.alloc(), &parent, &own)?;
    assert_eq!(rt; conflicts.len(), 3);
    assert!(rt; conflicts.at(2) == Some(conflict(6)));
    let keys = keys_in_conflict(rt.alloc(), &parent, &own)?;
    assert!(rt; keys.as_slice() == [key(2), key(4), key(6)].as_slice());
    Ok(())
}

/// What both sides changed, how the conflicts are settled, with the map of which side a merge
/// begins, the changes that it makes in it, and how many records of the alternative it changes.
type Plan = (Edits, Edits, &'static [(u64, Side)], Side, Edits, usize);

/// The alternative removed key 5, and keeps its value at 6.
const KEPT: Edits = &[(5, Some(b'b'), None), (6, Some(b'p'), Some(b'm'))];

const PLANS: [Plan; 8] = [
    // Three records come in, and two stay.
    (
        PARENT,
        OWN,
        &[(2, Theirs), (4, Theirs), (6, Mine)],
        Theirs,
        KEPT,
        3,
    ),
    (
        PARENT,
        OWN,
        &[(6, Mine), (4, Theirs), (2, Theirs)],
        Theirs,
        KEPT,
        3,
    ),
    (
        PARENT,
        OWN,
        &[(4, Theirs), (6, Mine), (2, Theirs)],
        Theirs,
        KEPT,
        3,
    ),
    // One record comes in, and four stay.
    (
        PARENT,
        OWN,
        &[(2, Mine), (4, Mine), (6, Mine)],
        Mine,
        ADDED,
        1,
    ),
    // The sides are equal, and one side changed nothing.
    (ADDED, REMOVED, &[], Theirs, REMOVED, 1),
    (ADDED, ADDED, &[], Theirs, &[], 0),
    (&[], ADDED, &[], Mine, &[], 0),
    (ADDED, &[], &[], Theirs, &[], 1),
];

fn expect_plan<R: AllocGlobal + Abort>(rt: &R, row: usize, plan: &Plan) -> Result<(), Fail> {
    let (parent, own, settled, start, changes, edits) = *plan;
    let (parent, own) = (packed(rt.alloc(), parent)?, packed(rt.alloc(), own)?);
    let settled = sides(rt.alloc(), settled)?;
    let keys = keys_in_conflict(rt.alloc(), &parent, &own)?;
    assert!(rt;
        settled_refusal(rt.alloc(), &settled, &keys).is_none(),
        "row {row}"
    );
    let plan = plan_merge(rt.alloc(), &parent, &own, &settled)?;
    assert!(rt; plan.start == start && plan.edits == edits, "row {row}");
    let made = plan.changes.to_vec(rt.alloc())?;
    assert!(rt; are(&made, changes), "row {row}: {made:?}");
    Ok(())
}

#[test]
fn merge_begins_with_one_map_and_makes_the_fewer_changes(rt: HostRuntime) -> Result<(), Fail> {
    for (row, plan) in PLANS.iter().enumerate() {
        expect_plan(&rt, row, plan)?;
    }
    Ok(())
}
