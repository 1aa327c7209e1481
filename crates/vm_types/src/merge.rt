//! What a merge makes of two sides: their conflicts, and the changes that it makes on the smaller
//! side.
ghost use Rattle.std.specs.Prelude.{◌≡◌, ◌<◌, ◌≤◌, IsTrue, drop, length, option_copied, IfErr};
ghost use Rattle.vm_types.specs.Map.{same_value, side_of};
ghost use Rattle.vm_types.specs.Merge.{AddsClash, AddsKey, AddsTaken, CountsMerge, ListsConflicts, ListsKeys, ListsMerge, PlansMerge, TellsClash, TellsKey, TellsTaken, from_key, settled_from, taking};

use crate::settlements::{by_rising_keys, settled_rise, side_of};
use crate::{Changes, Conflicts, Key, Refusal, Side};
use std::alloc::{AllocError, Global};
use std::cmp::Ordering;

/// The index of the first change, from `from` on, whose key is not lower. The changes have rising
/// keys.
fn place_from(changes: &Changes, from: usize, key: Key) -> usize
    requires { from ≤ length changes.now }
    ensures within { result ≤ length changes.now }
    ensures rest { drop result changes.now ≡ from_key key (drop from changes.now) }
{
    for i in from..changes.len() {
        if !changes.key(i).cmp(&key).is_lt() {
            return i;
        }
    }
    changes.len()
}

/// Whether there is a change at this index and it has this key.
fn has_key(changes: &Changes, at: usize, key: Key) -> bool
    ensures there { IsTrue result → at < length changes.now }
    ensures first { TellsKey result key changes.now at }
{
    at < changes.len() && changes.key(at).cmp(&key) == Ordering::Equal
}

/// Whether two values are equal. Absence counts as a value.
fn same_value(one: Option<&[u8]>, other: Option<&[u8]>) -> bool
    ensures { result ≡ same_value (option_copied one.entry) (option_copied other.entry) }
{
    match (one, other) {
        (Some(one), Some(other)) => one == other,
        (None, None) => true,
        _ => false,
    }
}

/// Whether the parent's change `i` conflicts with the alternative's own change at `at`.
fn is_clash(theirs: &Changes, i: usize, mine: &Changes, at: usize) -> bool
    requires { i < length theirs.now }
    ensures there { IsTrue result → at < length mine.now }
    ensures clash { TellsClash result theirs.now i mine.now at }
{
    has_key(mine, at, theirs.key(i)) && !same_value(mine.after(at), theirs.after(i))
}

/// The settlements without those at the front that have lower keys.
fn settled_from(settled: &[(Key, Side)], key: Key) -> &[(Key, Side)]
    ensures { result.now ≡ settled_from key settled.now }
{
    for (i, (other, _)) in settled.iter().enumerate() {
        if other.cmp(&key) != Ordering::Less {
            return &settled[i..];
        }
    }
    &[]
}

/// The side of a conflict, as the settlements have it if the changes of `side` are taken: `Theirs`
/// is this side.
fn side_taking(settled: &[(Key, Side)], side: Side, key: Key) -> Option<Side>
    ensures { result ≡ side_of (taking side settled.now) key }
{
    match side {
        Side::Mine => match side_of(settled, key) {
            Some(found) => Some(found.other()),
            None => None,
        },
        Side::Theirs => side_of(settled, key),
    }
}

/// Whether the merge changes something at the key of change `i` of `theirs`. `mine` may have a
/// change of the same key at `at`. `side` is the one whose changes `theirs` has.
fn is_taken(
    settled: &[(Key, Side)],
    side: Side,
    theirs: &Changes,
    i: usize,
    mine: &Changes,
    at: usize,
) -> bool
    requires { i < length theirs.now }
    ensures { TellsTaken result (taking side settled.now) theirs.now i mine.now at }
{
    let key = theirs.key(i);
    if !has_key(mine, at, key) {
        return true;
    }
    is_clash(theirs, i, mine, at) && side_taking(settled, side, key) == Some(Side::Theirs)
}

/// Adds what the merge changes there, if it changes something.
fn add_taken(
    changes: &mut Changes,
    settled: &[(Key, Side)],
    side: Side,
    theirs: &Changes,
    i: usize,
    mine: &Changes,
    at: usize,
) -> Result<(), AllocError>
    requires { i < length theirs.now }
    ensures { AddsTaken result (taking side settled.now) theirs.now i mine.now at changes.old changes.new }
{
    if !is_taken(settled, side, theirs, i, mine, at) {
        return Ok(());
    }
    let key = theirs.key(i);
    if has_key(mine, at, key) {
        return changes.push(key, mine.after(at), theirs.after(i));
    }
    changes.push(key, theirs.before(i), theirs.after(i))
}

/// Adds the conflict of the parent's change `i` with the alternative's own change at `at`, if they
/// conflict.
fn add_conflict(
    conflicts: &mut Conflicts,
    theirs: &Changes,
    i: usize,
    mine: &Changes,
    at: usize,
) -> Result<(), AllocError>
    requires { i < length theirs.now }
    ensures { AddsClash result theirs.now i mine.now at conflicts.old conflicts.new }
{
    if !is_clash(theirs, i, mine, at) {
        return Ok(());
    }
    conflicts.push(
        theirs.key(i),
        theirs.before(i),
        theirs.after(i),
        mine.after(at),
    )
}

/// Adds the key of such a conflict.
fn add_key_in_conflict(
    keys: &mut Vec<Key>,
    theirs: &Changes,
    i: usize,
    mine: &Changes,
    at: usize,
) -> Result<(), AllocError>
    requires { i < length theirs.now }
    ensures { AddsKey result theirs.now i mine.now at keys.old.items keys.new.items }
{
    if is_clash(theirs, i, mine, at) {
        keys.push(theirs.key(i))?;
    }
    Ok(())
}

/// The conflicts between two sides that started from one base, by rising keys. `theirs` is what the
/// parent changed, `mine` what the alternative changed. Returns `Memory` if there is none for the
/// list.
pub fn conflicts_between(
    alloc: Global,
    theirs: &Changes,
    mine: &Changes,
) -> Result<Conflicts, Refusal>
    ensures only { IfErr result (λ refusal. refusal ≡ Refusal.Memory) }
    ensures list { ListsConflicts result theirs.now mine.now }
{
    let mut conflicts = Conflicts::new(alloc);
    let mut at = 0;
    for i in 0..theirs.len() {
        at = place_from(mine, at, theirs.key(i));
        add_conflict(&mut conflicts, theirs, i, mine, at).map_err(|_| Refusal::Memory)?;
    }
    Ok(conflicts)
}

/// The keys of these conflicts, by rising keys. Returns `Memory` if there is none for the list.
pub fn keys_in_conflict(
    alloc: Global,
    theirs: &Changes,
    mine: &Changes,
) -> Result<Vec<Key>, Refusal>
    ensures only { IfErr result (λ refusal. refusal ≡ Refusal.Memory) }
    ensures list { ListsKeys result theirs.now mine.now }
{
    let mut keys = Vec::new(alloc);
    let mut at = 0;
    for i in 0..theirs.len() {
        at = place_from(mine, at, theirs.key(i));
        add_key_in_conflict(&mut keys, theirs, i, mine, at).map_err(|_| Refusal::Memory)?;
    }
    Ok(keys)
}

/// How many changes a merge takes from `theirs`, which has those of `side`. If the settlements have
/// rising keys, too, this is one pass over all three lists. Takes no memory.
fn count_taken(theirs: &Changes, mine: &Changes, settled: &[(Key, Side)], side: Side) -> usize
    ensures { CountsMerge result theirs.now mine.now (taking side settled.now) }
{
    let mut count = 0;
    let mut at = 0;
    let mut unused = settled;
    for i in 0..theirs.len() {
        let key = theirs.key(i);
        at = place_from(mine, at, key);
        unused = settled_from(unused, key);
        if is_taken(unused, side, theirs, i, mine, at) {
            count += 1;
        }
    }
    count
}

/// What a merge changes in the map of the other side, by rising keys, where `theirs` has the
/// changes of `side`. Returns `Memory` if there is none for the list. If the settlements have
/// rising keys, too, and settle every conflict, this is one pass over all three lists; otherwise it
/// searches the settlements for the key of each conflict.
fn list_taken(
    alloc: Global,
    theirs: &Changes,
    mine: &Changes,
    settled: &[(Key, Side)],
    side: Side,
) -> Result<Changes, Refusal>
    ensures only { IfErr result (λ refusal. refusal ≡ Refusal.Memory) }
    ensures list { ListsMerge result theirs.now mine.now (taking side settled.now) }
{
    let mut changes = Changes::new(alloc);
    let mut at = 0;
    let mut unused = settled;
    for i in 0..theirs.len() {
        let key = theirs.key(i);
        at = place_from(mine, at, key);
        unused = settled_from(unused, key);
        add_taken(&mut changes, unused, side, theirs, i, mine, at).map_err(|_| Refusal::Memory)?;
    }
    Ok(changes)
}

/// What a merge does.
#[derive(Debug, Drop)]
pub struct MergePlan {
    /// The side whose map it begins with.
    pub start: Side,
    /// The changes that it makes in that map, by rising keys.
    pub changes: Changes,
    /// How many records it changes in the alternative.
    pub edits: usize,
}

/// What a merge does on the smaller side. Both sides are counted first, and only the list of the
/// smaller one is made. Returns `Memory` if there is none for it.
fn plan_in_turn(
    alloc: Global,
    theirs: &Changes,
    mine: &Changes,
    settled: &[(Key, Side)],
) -> Result<MergePlan, Refusal>
    ensures only { IfErr result (λ refusal. refusal ≡ Refusal.Memory) }
    ensures plan { PlansMerge result theirs.now mine.now settled.now }
{
    let edits = count_taken(theirs, mine, settled, Side::Theirs);
    let kept = count_taken(mine, theirs, settled, Side::Mine);
    if kept <= edits {
        let changes = list_taken(alloc, mine, theirs, settled, Side::Mine)?;
        return Ok(MergePlan {
            start: Side::Theirs,
            changes,
            edits,
        });
    }
    let changes = list_taken(alloc, theirs, mine, settled, Side::Theirs)?;
    Ok(MergePlan {
        start: Side::Mine,
        changes,
        edits,
    })
}

/// What a merge does if every conflict is settled: it brings what the parent changed into the
/// alternative's map, or what it keeps of the alternative's changes into the parent's map,
/// whichever takes fewer changes. Returns `Memory` if there is none for their list. Settlements in
/// another order are sorted first; if there is no memory for that, they are searched for the key of
/// each conflict.
pub fn plan_merge(
    alloc: Global,
    theirs: &Changes,
    mine: &Changes,
    settled: &[(Key, Side)],
) -> Result<MergePlan, Refusal>
    ensures only { IfErr result (λ refusal. refusal ≡ Refusal.Memory) }
    ensures plan { PlansMerge result theirs.now mine.now settled.now }
{
    if !settled_rise(settled)
        && let Some(sorted) = by_rising_keys(alloc, settled)
    {
        return plan_in_turn(alloc, theirs, mine, &sorted);
    }
    plan_in_turn(alloc, theirs, mine, settled)
}
