//! Maps as records by rising keys. Each change makes a whole new copy.
ghost use Rattle.std.specs.Prelude.{◌≡◌, ℕ, ◌+◌, ◌<◌, ◌≤◌, ◌++◌, ◌∷◌, List, length, take, drop, insert, IfOk, IfErr, MatchResult, OnOk};
ghost use Rattle.vm_types.specs.Bytes.{longest};
ghost use Rattle.vm_types.specs.Map.{get, over, with_value, without};

use crate::held::Held;
use std::alloc::{AllocError, Global};
use std::cmp::Ordering;
use vm_types::{Key, Value};

/// The records of a map, by rising keys.
pub type Map = Vec<(Key, Held)>;

/// The map of these records.
pub(super) fn of_values(alloc: Global, records: &[(Key, Value)]) -> Result<Map, AllocError>
    ensures { IfOk result (λ map. map.items ≡ records.now) }
{
    let mut map = Vec::new(alloc);
    for (key, value) in records {
        map.push((*key, Held::new(alloc, value.as_bytes())?))?;
    }
    Ok(map)
}

/// The records of a map, with each value in the space of the longest possible one.
pub(super) fn values(alloc: Global, map: &[(Key, Held)]) -> Result<Vec<(Key, Value)>, AllocError>
    ensures { IfOk result (λ records. records.items ≡ map.now) }
{
    let mut records = Vec::new(alloc);
    for (key, held) in map {
        records.push((*key, held.value()))?;
    }
    Ok(records)
}

/// A copy of the map.
pub(super) fn copy(alloc: Global, map: &[(Key, Held)]) -> Result<Map, AllocError>
    ensures { IfOk result (λ copy. copy.items ≡ map.now) }
{
    let mut copy = Vec::new(alloc);
    for (key, held) in map {
        copy.push((*key, held.copy(alloc)?))?;
    }
    Ok(copy)
}

/// The value at a key, if there is one.
pub(super) fn get(map: &[(Key, Held)], key: Key) -> Option<Value>
    ensures { result ≡ get map.now key }
{
    for (other, held) in map {
        if key.cmp(other) == Ordering::Equal {
            return Some(held.value());
        }
    }
    None
}

/// The index of a key among the records: Ok with the index of its record, or Err with the index
/// where its record would go.
fn place_of(map: &[(Key, Held)], key: Key) -> Result<usize, usize>
    ensures within { MatchResult result (λ i. i < length map.now) (λ i. i ≤ length map.now) }
    ensures there { (value : List ℕ) → IfOk result (λ i. with_value map.now key value ≡ take i map.now ++ (key, value) ∷ drop (i + 1) map.now) }
    ensures absent { (value : List ℕ) → IfErr result (λ i. with_value map.now key value ≡ insert map.now i (key, value)) }
{
    for (i, (other, _)) in map.iter().enumerate() {
        match key.cmp(other) {
            Ordering::Less => return Err(i),
            Ordering::Equal => return Ok(i),
            Ordering::Greater => {}
        }
    }
    Err(map.len())
}

/// Sets the value of a key in a map.
fn put(alloc: Global, map: &mut Map, key: Key, value: &[u8]) -> Result<(), AllocError>
    requires { length value.now ≤ longest }
    ensures { OnOk result (map.new.items ≡ with_value map.old.items key value.now) }
{
    let held = Held::new(alloc, value)?;
    match place_of(map, key) {
        Ok(i) => map[i] = (key, held),
        Err(i) => map.insert(i, (key, held))?,
    }
    Ok(())
}

/// The map with this value at the key.
pub(super) fn with_value(
    alloc: Global,
    map: &[(Key, Held)],
    key: Key,
    value: &[u8],
) -> Result<Map, AllocError>
    requires { length value.now ≤ longest }
    ensures { IfOk result (λ changed. changed.items ≡ with_value map.now key value.now) }
{
    let mut changed = copy(alloc, map)?;
    put(alloc, &mut changed, key, value)?;
    Ok(changed)
}

/// The second map with the records of the first put into it.
pub(super) fn over(alloc: Global, m: &[(Key, Held)], n: &[(Key, Held)]) -> Result<Map, AllocError>
    ensures { IfOk result (λ all. all.items ≡ over m.now n.now) }
{
    let mut all = copy(alloc, n)?;
    for (key, held) in m {
        put(alloc, &mut all, *key, held.as_bytes())?;
    }
    Ok(all)
}

/// The map without the key.
pub(super) fn without(alloc: Global, map: &[(Key, Held)], key: Key) -> Result<Map, AllocError>
    ensures { IfOk result (λ changed. changed.items ≡ without map.now key) }
{
    let mut changed = Vec::new(alloc);
    for (other, held) in map {
        if key.cmp(other) != Ordering::Equal {
            changed.push((*other, held.copy(alloc)?))?;
        }
    }
    Ok(changed)
}
