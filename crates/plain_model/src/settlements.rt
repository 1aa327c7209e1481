//! Whether settlements fit the conflicts.
ghost use Rattle.std.specs.Prelude.{◌≡◌, [], length, filter, find, map, not, is_none};
ghost use Rattle.std.specs.List.{list_any};
ghost use Rattle.vm_types.specs.Map.{same_key, side_of};
ghost use Rattle.vm_types.specs.Step.{first_repeated, settled_refusal};

use crate::map_changes;
use std::cmp::Ordering;
use vm_types::{Conflict, Key, Refusal, Side};

fn is_settled(settled: &[(Key, Side)], key: Key) -> bool
    ensures { result ≡ list_any (same_key key) (map (λ e. e.0) settled.now) }
{
    settled
        .iter()
        .map(|settlement| settlement.0)
        .any(|other| key.cmp(&other) == Ordering::Equal)
}

/// The first key that is settled twice.
fn settled_twice(settled: &[(Key, Side)]) -> Option<Key>
    ensures { result ≡ first_repeated [] (map (λ e. e.0) settled.now) }
{
    for (i, (key, _)) in settled.iter().enumerate() {
        if is_settled(&settled[..i], *key) {
            return Some(*key);
        }
    }
    None
}

fn is_in_conflict(conflicts: &[Conflict], key: Key) -> bool
    ensures { result ≡ list_any (same_key key) (map (λ c. c.key) conflicts.now) }
{
    conflicts
        .iter()
        .map(|conflict| conflict.key)
        .any(|other| key.cmp(&other) == Ordering::Equal)
}

/// The first settled key that is in no conflict.
fn not_in_conflict(settled: &[(Key, Side)], conflicts: &[Conflict]) -> Option<Key>
    ensures { result ≡ find (λ key. not (list_any (same_key key) (map (λ c. c.key) conflicts.now))) (map (λ e. e.0) settled.now) }
{
    settled
        .iter()
        .map(|settlement| settlement.0)
        .find(|key| !is_in_conflict(conflicts, *key))
}

/// How many conflicts have no settlement.
fn unsettled_count(settled: &[(Key, Side)], conflicts: &[Conflict]) -> usize
    ensures { result ≡ length (filter (λ key. is_none (side_of settled.now key)) (map (λ c. c.key) conflicts.now)) }
{
    conflicts
        .iter()
        .map(|conflict| conflict.key)
        .filter(|key| map_changes::side_of(settled, *key).is_none())
        .count()
}

/// Why settlements are refused, if they are: a key is settled twice or is in no conflict, or
/// conflicts are left.
pub(super) fn refusal(settled: &[(Key, Side)], conflicts: &[Conflict]) -> Option<Refusal>
    ensures { result ≡ settled_refusal settled.now (map (λ c. c.key) conflicts.now) }
{
    if let Some(key) = settled_twice(settled) {
        return Some(Refusal::SettledTwice(key));
    }
    if let Some(key) = not_in_conflict(settled, conflicts) {
        return Some(Refusal::NotInConflict(key));
    }
    match unsettled_count(settled, conflicts) {
        0 => None,
        count => Some(Refusal::Unsettled(count as u64)),
    }
}
