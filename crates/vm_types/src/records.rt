//! A list of records, packed.
ghost use Rattle.std.specs.Prelude.{◌≡◌, ◌<◌, ◌≤◌, ◌∷◌, ◌++◌, ℕ, List, [], length, slice_index_or, OnOk, OnErr};
ghost use Rattle.vm_types.specs.Bytes.{longest};
ghost use Rattle.vm_types.specs.declared.key.Key.{Key};

use crate::packed::{Packed, PackedIter, PackedList};
use crate::values::{Piece, Values};
use crate::{Key, Value};
use std::alloc::AllocError;

/// A list of records that takes memory only for what it holds: 32 bytes per record, and the bytes
/// of its value. The values lie one after another in a single run of bytes. Each row has a value,
/// since a push gives it one: one that is absent would be read as empty.
pub type Records = PackedList<(Key, Value), 1>;

impl Packed<1> for (Key, Value) {
    ghost use Rattle.std.proofs.Common.{arith};
    ghost use Rattle.vm_types.specs.Packed.{record_of};

    ghost item = { record_of };

    ghost few = { Prim.omega arith };

    fn whole(key: Key, pieces: &[Piece], values: &Values) -> Self {
        (key, values.whole(pieces[0]).unwrap_or(Value::default()))
    }
}

impl<'a> Iterator for PackedIter<'a, (Key, Value), 1> {
    ghost use Rattle.std.specs.Iterator.{at_most};
    ghost use Rattle.std.specs.Prelude.{length};
    ghost use Rattle.vm_types.specs.Packed.{Takes, lent_record};

    type Item = (Key, &'a [u8]);

    ghost next_gives = { Takes lent_record };

    ghost remaining = { λ left. at_most (length left) };

    fn next(&mut self) -> Option<(Key, &'a [u8])> {
        let (key, pieces, values) = self.next_row()?;
        Some((key, values.get(pieces[0]).unwrap_or_default()))
    }
}

impl<'a> IntoIterator for &'a Records {
    type Item = (Key, &'a [u8]);

    type IntoIter = PackedIter<'a, (Key, Value), 1>;

    ghost into_iter_gives = { λ list left. left ≡ list.now };

    fn into_iter(self) -> PackedIter<'a, (Key, Value), 1> {
        self.iter()
    }
}

impl Records {
    /// Appends a record. If memory cannot be allocated, the list does not change.
    pub fn push(&mut self, key: Key, value: &[u8]) -> Result<(), AllocError>
        requires { length value.now ≤ longest }
        ensures ok { OnOk result (self.new ≡ self.old ++ (key, value.now) ∷ []) }
        ensures err { OnErr result (self.new ≡ self.old) }
    {
        self.push_row(key, &[Some(value)])
    }

    /// The key of record `i`.
    pub fn key(&self, i: usize) -> Key
        requires { i < length self.now }
        ensures { (d : Key × List ℕ) → result ≡ (slice_index_or self.now i d).0 }
    {
        let (key, _, _) = self.row(i);
        key
    }

    /// The bytes of its value.
    pub fn value(&self, i: usize) -> &[u8]
        requires { i < length self.now }
        ensures value { (d : Key × List ℕ) → result.now ≡ (slice_index_or self.now i d).1 }
        ensures short { length result.now ≤ longest }
    {
        let (_, pieces, values) = self.row(i);
        values.get(pieces[0]).unwrap_or_default()
    }
}
