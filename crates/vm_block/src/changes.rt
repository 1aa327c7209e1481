//! One record put into the bytes of a leaf, or removed from them.
ghost use Rattle.std.specs.Prelude.{◌≡◌, ◌≢◌, ◌≤◌, ◌∷◌, [], false, length};
ghost use Rattle.vm_types.specs.Bytes.{longest};
ghost use Rattle.vm_types.specs.Places.{place};
ghost use Rattle.vm_block.specs.Edits.{IsAfterPut, IsAfterTake, PutsOver, WritesChanged, span_of};
ghost use Rattle.vm_block.specs.Leaf.{HasRecords, RecordFits};
ghost use Rattle.vm_block.specs.Look.{IfRecords, IsLook, IsWithin};
ghost use Rattle.vm_block.specs.Parts.{PartFits};

use crate::look::{Look, find_record, records_len, values_range};
use crate::parts::{Part, bound_alone, no_part, part_of, write_fitting, write_parts};
use crate::sizes::MAX_RECORDS;
use vm_types::{Block, Key};

/// What became of a record put into a leaf.
#[derive(Clone, Copy, Debug, PartialEq, Eq)]
pub enum Placed {
    /// The leaf has it now.
    Put,
    /// The leaf has no room for it, and is unchanged.
    TooBig,
}

/// What became of a record removed from a leaf.
#[derive(Clone, Copy, Debug, PartialEq, Eq)]
pub enum Taken {
    /// The leaf no longer has it.
    Out,
    /// The leaf has no other record, and is unchanged.
    Last,
    /// The leaf does not have it, and is unchanged.
    Absent,
}

/// Which records give way to one of the key that was looked for.
pub(crate) fn span(look: Look) -> (usize, usize)
    requires { IsWithin look }
    ensures span { result ≡ span_of look }
    ensures order { result.0 ≤ result.1 }
    ensures few { result.1 ≤ MAX_RECORDS }
{
    match look {
        Look::Found(index) => (index, index + 1),
        Look::Missing(index) => (index, index),
    }
}

/// Writes the leaf of the records before `index`, those of the part, and those from `next` on, if
/// they fit in one.
fn write_changed(old: &Block, index: usize, middle: &Part<'_>, next: usize, out: &mut Block) -> bool
    requires order { index ≤ next }
    requires few { next ≤ MAX_RECORDS }
    requires fits { PartFits middle.now }
    ensures kept { result ≡ false → out.new ≡ out.old }
    ensures only { WritesChanged result old.now index middle.now next out.new }
{
    let count = records_len(old).max(next);
    let front = part_of(old, 0, index);
    let back = part_of(old, next, count);
    write_fitting(&front, middle, &back, out)
}

/// Writes the leaf of one record.
pub fn first_record(key: Key, value: &[u8], out: &mut Block)
    requires { length value.now ≤ longest }
    ensures { HasRecords out.new ((key, value.now) ∷ []) }
{
    let bound = bound_alone(key, value.len());
    let part = Part {
        count: 1,
        before: 0,
        bounds: &bound,
        values: value,
    };
    let none = no_part();
    write_parts(&part, &none, &none, out);
}

/// Writes the leaf of the records of another one, with the value of a key that was looked for
/// there, if they fit in one.
fn put_where(old: &Block, look: Look, key: Key, value: &[u8], out: &mut Block) -> Placed
    requires within { IsWithin look }
    requires short { length value.now ≤ longest }
    ensures kept { result ≡ Placed.TooBig → out.new ≡ out.old }
    ensures only { IfRecords old.now (λ rs. IsLook (place key) look rs → IsAfterPut result (key, value.now) rs out.new) }
{
    let (index, next) = span(look);
    let bound = bound_alone(key, value.len());
    let middle = Part {
        count: 1,
        before: 0,
        bounds: &bound,
        values: value,
    };
    if write_changed(old, index, &middle, next, out) {
        Placed::Put
    } else {
        Placed::TooBig
    }
}

/// Writes the leaf of the records of another one, with the value of a key, if they fit in one.
pub fn put_into(old: &Block, key: Key, value: &[u8], out: &mut Block) -> Placed
    requires { length value.now ≤ longest }
    ensures fits { RecordFits (key, value.now) }
    ensures kept { result ≡ Placed.TooBig → out.new ≡ out.old }
    ensures only { IfRecords old.now (λ rs. IsAfterPut result (key, value.now) rs out.new) }
{
    put_where(old, find_record(old, key), key, value, out)
}

/// Writes a value over one of its length, if that is the one that was found.
fn put_over(bytes: &mut Block, look: Look, value: &[u8]) -> bool
    requires within { IsWithin look }
    requires short { length value.now ≤ longest }
    ensures kept { result ≡ false → bytes.new ≡ bytes.old }
    ensures only { PutsOver result look value.now bytes.old bytes.new }
{
    match look {
        Look::Found(index) => {
            let (low, high) = values_range(bytes, index, index + 1);
            if high - low != value.len() {
                return false;
            }
            bytes[low..high].copy_from_slice(value);
            true
        }
        Look::Missing(_) => false,
    }
}

/// Sets the value of a key in a leaf, if the leaf has room for it.
pub fn put_record(bytes: &mut Block, key: Key, value: &[u8]) -> Placed
    requires { length value.now ≤ longest }
    ensures fits { RecordFits (key, value.now) }
    ensures kept { result ≡ Placed.TooBig → bytes.new ≡ bytes.old }
    ensures only { IfRecords bytes.old (λ rs. IsAfterPut result (key, value.now) rs bytes.new) }
{
    let look = find_record(bytes, key);
    if put_over(bytes, look, value) {
        return Placed::Put;
    }
    let old = *bytes;
    put_where(&old, look, key, value, bytes)
}

/// Removes a key's record from a leaf, if another record is left.
pub fn remove_record(bytes: &mut Block, key: Key) -> Taken
    ensures kept { result ≢ Taken.Out → bytes.new ≡ bytes.old }
    ensures only { IfRecords bytes.old (λ rs. IsAfterTake result (place key) rs bytes.new) }
{
    let Look::Found(index) = find_record(bytes, key) else {
        return Taken::Absent;
    };
    if records_len(bytes) == 1 {
        return Taken::Last;
    }
    let old = *bytes;
    if write_changed(&old, index, &no_part(), index + 1, bytes) {
        Taken::Out
    } else {
        Taken::Absent
    }
}
