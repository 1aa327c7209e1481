//! Settlements: the side that they give a key, and why they are refused.
ghost use Rattle.std.specs.Prelude.{◌≡◌, ◌↔◌, IsTrue, [], nat_lt, if◌then◌else◌, length, filter, Some, None, is_none, IfOk, IfErr, IfSome};
ghost use Rattle.std.specs.List.{list_any};
ghost use Rattle.std.specs.List.Sorted.{IsStrictlySortedBy};
ghost use Rattle.std.specs.BTreeMap as tree;
ghost use Rattle.vm_types.specs.declared.refusal.Refusal.TheVariants.{Unsettled};
ghost use Rattle.vm_types.specs.Map.{key_cmp, same_key, side_of};
ghost use Rattle.vm_types.specs.Step.{settled_refusal, first_repeated};
ghost use Rattle.vm_types.specs.Merge.{HasSides, IsSettledOnce, IsSettledTwice, SameSides, first_missing, settled_keys};

use crate::{Key, Refusal, Side};
use std::alloc::{AllocError, Global};
use std::cmp::Ordering;
use std::collections::BTreeMap;

/// The first side that the settlements give the key.
pub(crate) fn side_of(settled: &[(Key, Side)], key: Key) -> Option<Side>
    ensures { result ≡ side_of settled.now key }
{
    for (other, side) in settled {
        if key.cmp(other) == Ordering::Equal {
            return Some(*side);
        }
    }
    None
}

/// The first key that is settled twice.
fn settled_twice(settled: &[(Key, Side)]) -> Option<Key>
    ensures { result ≡ first_repeated [] (settled_keys settled.now) }
{
    for (i, (key, _)) in settled.iter().enumerate() {
        if side_of(&settled[..i], *key).is_some() {
            return Some(*key);
        }
    }
    None
}

/// Whether a key is in conflict.
fn is_in_conflict(conflicts: &[Key], key: Key) -> bool
    ensures { result ≡ list_any (same_key key) conflicts.now }
{
    conflicts
        .iter()
        .any(|other| key.cmp(other) == Ordering::Equal)
}

/// The first key of a settlement that is in no conflict.
fn not_in_conflict(settled: &[(Key, Side)], conflicts: &[Key]) -> Option<Key>
    ensures { result ≡ first_missing conflicts.now (settled_keys settled.now) }
{
    settled
        .iter()
        .map(|(key, _)| *key)
        .find(|key| !is_in_conflict(conflicts, *key))
}

/// How many conflicts have no settlement.
fn unsettled(settled: &[(Key, Side)], conflicts: &[Key]) -> usize
    ensures { result ≡ length
        (filter (λ key. is_none (side_of settled.now key)) conflicts.now) }
{
    conflicts
        .iter()
        .filter(|key| side_of(settled, **key).is_none())
        .count()
}

/// The refusal if this many conflicts have no settlement. None for 0.
fn unsettled_refusal(count: usize) -> Option<Refusal>
    ensures { result ≡ (if nat_lt 0 count then Some (Unsettled count) else None) }
{
    match count {
        0 => None,
        count => Some(Refusal::Unsettled(count as u64)),
    }
}

/// Whether the keys of settlements rise.
pub(crate) fn settled_rise(settled: &[(Key, Side)]) -> bool
    ensures { IsTrue result ↔ IsStrictlySortedBy key_cmp (settled_keys settled.now) }
{
    settled.is_sorted_by(|one, next| one.0.cmp(&next.0).is_lt())
}

/// Whether the keys of conflicts rise.
fn conflicts_rise(conflicts: &[Key]) -> bool
    ensures { IsTrue result ↔ IsStrictlySortedBy key_cmp conflicts.now }
{
    conflicts.is_sorted_by(|one, next| one.cmp(next).is_lt())
}

/// The first key of a settlement that is in no conflict, if the keys of both lists rise. One pass.
fn first_unmatched(settled: &[(Key, Side)], conflicts: &[Key]) -> Option<Key>
    requires settled { IsStrictlySortedBy key_cmp (settled_keys settled.now) }
    requires conflicts { IsStrictlySortedBy key_cmp conflicts.now }
    ensures { result ≡ first_missing conflicts.now (settled_keys settled.now) }
{
    let mut ahead = settled;
    for conflict in conflicts {
        let Some(((key, _), rest)) = ahead.split_first() else {
            return None;
        };
        match conflict.cmp(key) {
            Ordering::Less => {}
            Ordering::Equal => ahead = rest,
            Ordering::Greater => return Some(*key),
        }
    }
    ahead.first().map(|(key, _)| *key)
}

/// Why the settlements are refused, if they are and the keys of both lists rise. Rising keys settle
/// nothing twice, and each settlement of a conflict settles a different one.
fn rising_refusal(settled: &[(Key, Side)], conflicts: &[Key]) -> Option<Refusal>
    requires settled { IsStrictlySortedBy key_cmp (settled_keys settled.now) }
    requires conflicts { IsStrictlySortedBy key_cmp conflicts.now }
    ensures { result ≡ settled_refusal settled.now conflicts.now }
{
    if let Some(key) = first_unmatched(settled, conflicts) {
        return Some(Refusal::NotInConflict(key));
    }
    unsettled_refusal(conflicts.len() - settled.len())
}

/// The side that the settlements give each key, or the first key that is settled twice.
fn sides_by_key(
    alloc: Global,
    settled: &[(Key, Side)],
) -> Result<Result<BTreeMap<Key, Side>, Key>, AllocError>
    ensures sides { IfOk result (λ found. IfOk found
        (λ sides. IsSettledOnce settled.now × HasSides (tree.get key_cmp sides) settled.now)) }
    ensures twice { IfOk result (λ found. IfErr found (IsSettledTwice settled.now)) }
{
    let mut sides = BTreeMap::new(alloc);
    for (key, side) in settled {
        if sides.insert(*key, *side)?.is_some() {
            return Ok(Err(*key));
        }
    }
    Ok(Ok(sides))
}

/// Whether a key is in conflict, if the keys of the conflicts rise.
fn is_in_rising(conflicts: &[Key], key: Key) -> bool
    requires { IsStrictlySortedBy key_cmp conflicts.now }
    ensures { result ≡ list_any (same_key key) conflicts.now }
{
    conflicts.binary_search_by(|other| other.cmp(&key)).is_ok()
}

/// The first key of a settlement that is in no conflict, if the keys of the conflicts rise.
fn not_in_rising(settled: &[(Key, Side)], conflicts: &[Key]) -> Option<Key>
    requires { IsStrictlySortedBy key_cmp conflicts.now }
    ensures { result ≡ first_missing conflicts.now (settled_keys settled.now) }
{
    settled
        .iter()
        .map(|(key, _)| *key)
        .find(|key| !is_in_rising(conflicts, *key))
}

/// How many conflicts have no side.
fn unsettled_by_key(sides: &BTreeMap<Key, Side>, conflicts: &[Key]) -> usize
    ensures { result ≡ length
        (filter (λ key. is_none (tree.get key_cmp sides.now key)) conflicts.now) }
{
    conflicts
        .iter()
        .filter(|key| sides.get(*key).is_none())
        .count()
}

/// Why the settlements are refused, if they are. Nothing is settled twice, and the keys of the
/// conflicts rise.
fn refusal_by_key(
    sides: &BTreeMap<Key, Side>,
    settled: &[(Key, Side)],
    conflicts: &[Key],
) -> Option<Refusal>
    requires once { IsSettledOnce settled.now }
    requires sides { HasSides (tree.get key_cmp sides.now) settled.now }
    requires conflicts { IsStrictlySortedBy key_cmp conflicts.now }
    ensures { result ≡ settled_refusal settled.now conflicts.now }
{
    if let Some(key) = not_in_rising(settled, conflicts) {
        return Some(Refusal::NotInConflict(key));
    }
    unsettled_refusal(unsettled_by_key(sides, conflicts))
}

/// Why the settlements are refused, if they are. Each key is searched for in the other list.
fn searched_refusal(settled: &[(Key, Side)], conflicts: &[Key]) -> Option<Refusal>
    ensures { result ≡ settled_refusal settled.now conflicts.now }
{
    if let Some(key) = settled_twice(settled) {
        return Some(Refusal::SettledTwice(key));
    }
    if let Some(key) = not_in_conflict(settled, conflicts) {
        return Some(Refusal::NotInConflict(key));
    }
    unsettled_refusal(unsettled(settled, conflicts))
}

/// Why these settlements are refused, if they are. `conflicts` has the keys of all conflicts. If
/// the keys of both lists rise, one pass over them is enough. Settlements in another order are put
/// into a map by key; if there is no memory for it, each key is searched for in the other list.
pub fn settled_refusal(alloc: Global, settled: &[(Key, Side)], conflicts: &[Key]) -> Option<Refusal>
    ensures { result ≡ settled_refusal settled.now conflicts.now }
{
    if !conflicts_rise(conflicts) {
        return searched_refusal(settled, conflicts);
    }
    if settled_rise(settled) {
        return rising_refusal(settled, conflicts);
    }
    match sides_by_key(alloc, settled) {
        Ok(Ok(sides)) => refusal_by_key(&sides, settled, conflicts),
        Ok(Err(key)) => Some(Refusal::SettledTwice(key)),
        Err(AllocError) => searched_refusal(settled, conflicts),
    }
}

/// The entries of a map, by rising keys.
fn entries_of(alloc: Global, sides: BTreeMap<Key, Side>) -> Result<Vec<(Key, Side)>, AllocError>
    ensures { IfOk result (λ list. list.items ≡ sides.entries) }
{
    sides.into_iter().collect(alloc)
}

/// The settlements by rising keys, if nothing is settled twice and there is memory for them.
pub(crate) fn by_rising_keys(alloc: Global, settled: &[(Key, Side)]) -> Option<Vec<(Key, Side)>>
    ensures { IfSome result (λ sorted. SameSides sorted.items settled.now) }
{
    let Ok(Ok(sides)) = sides_by_key(alloc, settled) else {
        return None;
    };
    match entries_of(alloc, sides) {
        Ok(sorted) => Some(sorted),
        Err(AllocError) => None,
    }
}
