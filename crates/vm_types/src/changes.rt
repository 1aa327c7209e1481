//! A list of changes, packed.
ghost use Rattle.std.specs.Prelude.{◌≡◌, ◌<◌, ◌≤◌, ◌∷◌, ◌++◌, [], length, slice_index_or, option_copied, IfSome, OnOk, OnErr};
ghost use Rattle.vm_types.specs.Bytes.{longest};
ghost use Rattle.vm_types.specs.declared.change.Change.{Change};

use crate::packed::{Packed, PackedIter, PackedList};
use crate::values::{Piece, Values};
use crate::{Change, Key};
use std::alloc::AllocError;

/// A list of changes that takes memory only for what it holds: 48 bytes per change, and the bytes
/// of their values. The values lie one after another in a single run of bytes.
pub type Changes = PackedList<Change, 2>;

impl Packed<2> for Change {
    ghost use Rattle.std.proofs.Common.{arith};
    ghost use Rattle.vm_types.specs.Packed.{change_of};

    ghost item = { change_of };

    ghost few = { Prim.omega arith };

    fn whole(key: Key, pieces: &[Piece], values: &Values) -> Self {
        Change {
            key,
            before: values.whole(pieces[0]),
            after: values.whole(pieces[1]),
        }
    }
}

impl<'a> Iterator for PackedIter<'a, Change, 2> {
    ghost use Rattle.std.specs.Iterator.{at_most};
    ghost use Rattle.std.specs.Prelude.{length};
    ghost use Rattle.vm_types.specs.Packed.{Takes, lent_change};

    type Item = (Key, Option<&'a [u8]>, Option<&'a [u8]>);

    ghost next_gives = { Takes lent_change };

    ghost remaining = { λ left. at_most (length left) };

    fn next(&mut self) -> Option<(Key, Option<&'a [u8]>, Option<&'a [u8]>)> {
        let (key, pieces, values) = self.next_row()?;
        Some((key, values.get(pieces[0]), values.get(pieces[1])))
    }
}

impl<'a> IntoIterator for &'a Changes {
    type Item = (Key, Option<&'a [u8]>, Option<&'a [u8]>);

    type IntoIter = PackedIter<'a, Change, 2>;

    ghost into_iter_gives = { λ list left. left ≡ list.now };

    fn into_iter(self) -> PackedIter<'a, Change, 2> {
        self.iter()
    }
}

impl Changes {
    /// Appends a change. If memory cannot be allocated, the list does not change.
    pub fn push(
        &mut self,
        key: Key,
        before: Option<&[u8]>,
        after: Option<&[u8]>,
    ) -> Result<(), AllocError>
        requires before { IfSome before (λ value. length value.now ≤ longest) }
        requires after { IfSome after (λ value. length value.now ≤ longest) }
        ensures ok { OnOk result (self.new ≡ self.old ++ record {
          key = key;
          before = option_copied before.entry;
          after = option_copied after.entry;
        } ∷ []) }
        ensures err { OnErr result (self.new ≡ self.old) }
    {
        self.push_row(key, &[before, after])
    }

    /// The key of change `i`.
    pub fn key(&self, i: usize) -> Key
        requires { i < length self.now }
        ensures { (d : Change) → result ≡ (slice_index_or self.now i d).key }
    {
        let (key, _, _) = self.row(i);
        key
    }

    /// The bytes of its value before, if it has one.
    pub fn before(&self, i: usize) -> Option<&[u8]>
        requires { i < length self.now }
        ensures value { (d : Change) → option_copied result ≡ (slice_index_or self.now i d).before }
        ensures short { IfSome result (λ value. length value.now ≤ longest) }
    {
        let (_, pieces, values) = self.row(i);
        values.get(pieces[0])
    }

    /// The bytes of its value after, if it has one.
    pub fn after(&self, i: usize) -> Option<&[u8]>
        requires { i < length self.now }
        ensures value { (d : Change) → option_copied result ≡ (slice_index_or self.now i d).after }
        ensures short { IfSome result (λ value. length value.now ≤ longest) }
    {
        let (_, pieces, values) = self.row(i);
        values.get(pieces[1])
    }
}
