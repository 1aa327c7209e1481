//! Differences between maps, and the merge of three.
ghost use Rattle.std.specs.Prelude.{◌≡◌, IfOk};
ghost use Rattle.vm_types.specs.Map.{same_map, change_at, delta, three, conflict_at, conflicts, side_of, merged_at, merge};

use crate::held::Held;
use crate::map::{self, Map};
use std::alloc::{AllocError, Global};
use std::cmp::Ordering;
use vm_types::{Change, Conflict, Key, Side, Value};

/// Whether two maps are equal.
pub(super) fn same(m: &[(Key, Held)], n: &[(Key, Held)]) -> bool
    ensures { result ≡ same_map m.now n.now }
{
    m == n
}

fn change_at(m: &[(Key, Held)], n: &[(Key, Held)], key: Key) -> Option<Change>
    ensures { result ≡ change_at m.now n.now key }
{
    let (before, after) = (map::get(m, key), map::get(n, key));
    if before == after {
        None
    } else {
        Some(Change { key, before, after })
    }
}

/// What changed from the first map to the second, by rising keys.
pub fn changes(
    alloc: Global,
    m: &[(Key, Value)],
    n: &[(Key, Value)],
) -> Result<Vec<Change>, AllocError>
    ensures { IfOk result (λ list. list.items ≡ delta m.now n.now) }
{
    let (m, n) = (map::of_values(alloc, m)?, map::of_values(alloc, n)?);
    changes_between(alloc, &m, &n)
}

/// The same for maps.
pub(super) fn changes_between(
    alloc: Global,
    m: &[(Key, Held)],
    n: &[(Key, Held)],
) -> Result<Vec<Change>, AllocError>
    ensures { IfOk result (λ list. list.items ≡ delta m.now n.now) }
{
    let all = map::over(alloc, m, n)?;
    all.iter()
        .map(|record| record.0)
        .filter_map(|key| change_at(m, n, key))
        .collect(alloc)
}

/// The result of the three-way rule. None is a conflict.
fn three_way(
    base: &Option<Value>,
    parent: &Option<Value>,
    mine: &Option<Value>,
) -> Option<Option<Value>>
    ensures { result ≡ three base.now parent.now mine.now }
{
    if parent == base {
        Some(*mine)
    } else if mine == base {
        Some(*parent)
    } else if mine == parent {
        Some(*mine)
    } else {
        None
    }
}

fn conflict_at(
    base: &[(Key, Held)],
    parent: &[(Key, Held)],
    mine: &[(Key, Held)],
    key: Key,
) -> Option<Conflict>
    ensures { result ≡ conflict_at base.now parent.now mine.now key }
{
    let (base, parent, mine) = (
        map::get(base, key),
        map::get(parent, key),
        map::get(mine, key),
    );
    match three_way(&base, &parent, &mine) {
        Some(_) => None,
        None => Some(Conflict {
            key,
            base,
            parent,
            mine,
        }),
    }
}

/// The keys in conflict, rising, with their three values.
pub(super) fn conflicts(
    alloc: Global,
    base: &[(Key, Held)],
    parent: &[(Key, Held)],
    mine: &[(Key, Held)],
) -> Result<Vec<Conflict>, AllocError>
    ensures { IfOk result (λ list. list.items ≡ conflicts base.now parent.now mine.now) }
{
    let all = map::over(alloc, parent, mine)?;
    all.iter()
        .map(|record| record.0)
        .filter_map(|key| conflict_at(base, parent, mine, key))
        .collect(alloc)
}

/// The first side that the settlements give the key.
pub(super) fn side_of(settled: &[(Key, Side)], key: Key) -> Option<Side>
    ensures { result ≡ side_of settled.now key }
{
    for (other, side) in settled {
        if key.cmp(other) == Ordering::Equal {
            return Some(*side);
        }
    }
    None
}

/// The value of the merge at a key, if it has one.
fn merged_at(
    base: &[(Key, Held)],
    parent: &[(Key, Held)],
    mine: &[(Key, Held)],
    settled: &[(Key, Side)],
    key: Key,
) -> Option<Value>
    ensures { result ≡ merged_at base.now parent.now mine.now settled.now key }
{
    let (base, parent, mine) = (
        map::get(base, key),
        map::get(parent, key),
        map::get(mine, key),
    );
    match (three_way(&base, &parent, &mine), side_of(settled, key)) {
        (Some(value), _) => value,
        (None, Some(Side::Theirs)) => parent,
        (None, _) => mine,
    }
}

/// The records of the merge of three maps, with conflicts settled so.
fn merged_records(
    alloc: Global,
    base: &[(Key, Held)],
    parent: &[(Key, Held)],
    mine: &[(Key, Held)],
    settled: &[(Key, Side)],
) -> Result<Vec<(Key, Value)>, AllocError>
    ensures { IfOk result (λ merged. merged.items ≡ merge base.now parent.now mine.now settled.now) }
{
    let all = map::over(alloc, parent, mine)?;
    all.iter()
        .map(|record| record.0)
        .filter_map(|key| merged_at(base, parent, mine, settled, key).map(|value| (key, value)))
        .collect(alloc)
}

/// The merge of three maps, with conflicts settled so.
pub(super) fn merge(
    alloc: Global,
    base: &[(Key, Held)],
    parent: &[(Key, Held)],
    mine: &[(Key, Held)],
    settled: &[(Key, Side)],
) -> Result<Map, AllocError>
    ensures { IfOk result (λ merged. merged.items ≡ merge base.now parent.now mine.now settled.now) }
{
    let merged = merged_records(alloc, base, parent, mine, settled)?;
    map::of_values(alloc, &merged)
}
