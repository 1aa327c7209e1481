//! A list of conflicts, packed.
ghost use Rattle.std.specs.Prelude.{◌≡◌, ◌<◌, ◌≤◌, ◌∷◌, ◌++◌, [], length, slice_index_or, option_copied, IfSome, OnOk, OnErr};
ghost use Rattle.vm_types.specs.Bytes.{longest};
ghost use Rattle.vm_types.specs.declared.change.Conflict.{Conflict};

use crate::packed::{Packed, PackedIter, PackedList};
use crate::values::{Piece, Values};
use crate::{Conflict, Key};
use std::alloc::AllocError;

/// A list of conflicts that takes memory only for what it holds: 64 bytes per conflict, and the
/// bytes of their values. The values lie one after another in a single run of bytes.
pub type Conflicts = PackedList<Conflict, 3>;

impl Packed<3> for Conflict {
    ghost use Rattle.std.proofs.Common.{arith};
    ghost use Rattle.vm_types.specs.Packed.{conflict_of};

    ghost item = { conflict_of };

    ghost few = { Prim.omega arith };

    fn whole(key: Key, pieces: &[Piece], values: &Values) -> Self {
        Conflict {
            key,
            base: values.whole(pieces[0]),
            parent: values.whole(pieces[1]),
            mine: values.whole(pieces[2]),
        }
    }
}

impl<'a> Iterator for PackedIter<'a, Conflict, 3> {
    ghost use Rattle.std.specs.Iterator.{at_most};
    ghost use Rattle.std.specs.Prelude.{length};
    ghost use Rattle.vm_types.specs.Packed.{Takes, lent_conflict};

    type Item = (Key, Option<&'a [u8]>, Option<&'a [u8]>, Option<&'a [u8]>);

    ghost next_gives = { Takes lent_conflict };

    ghost remaining = { λ left. at_most (length left) };

    fn next(&mut self) -> Option<(Key, Option<&'a [u8]>, Option<&'a [u8]>, Option<&'a [u8]>)> {
        let (key, pieces, values) = self.next_row()?;
        Some((
            key,
            values.get(pieces[0]),
            values.get(pieces[1]),
            values.get(pieces[2]),
        ))
    }
}

impl<'a> IntoIterator for &'a Conflicts {
    type Item = (Key, Option<&'a [u8]>, Option<&'a [u8]>, Option<&'a [u8]>);

    type IntoIter = PackedIter<'a, Conflict, 3>;

    ghost into_iter_gives = { λ list left. left ≡ list.now };

    fn into_iter(self) -> PackedIter<'a, Conflict, 3> {
        self.iter()
    }
}

impl Conflicts {
    /// Appends a conflict. If memory cannot be allocated, the list does not change.
    pub fn push(
        &mut self,
        key: Key,
        base: Option<&[u8]>,
        parent: Option<&[u8]>,
        mine: Option<&[u8]>,
    ) -> Result<(), AllocError>
        requires base { IfSome base (λ value. length value.now ≤ longest) }
        requires parent { IfSome parent (λ value. length value.now ≤ longest) }
        requires mine { IfSome mine (λ value. length value.now ≤ longest) }
        ensures ok { OnOk result (self.new ≡ self.old ++ record {
          key = key;
          base = option_copied base.entry;
          parent = option_copied parent.entry;
          mine = option_copied mine.entry;
        } ∷ []) }
        ensures err { OnErr result (self.new ≡ self.old) }
    {
        self.push_row(key, &[base, parent, mine])
    }

    /// The key of conflict `i`.
    pub fn key(&self, i: usize) -> Key
        requires { i < length self.now }
        ensures { (d : Conflict) → result ≡ (slice_index_or self.now i d).key }
    {
        let (key, _, _) = self.row(i);
        key
    }

    /// The bytes of the value in the base, if there is one.
    pub fn base(&self, i: usize) -> Option<&[u8]>
        requires { i < length self.now }
        ensures value { (d : Conflict) → option_copied result ≡ (slice_index_or self.now i d).base }
        ensures short { IfSome result (λ value. length value.now ≤ longest) }
    {
        let (_, pieces, values) = self.row(i);
        values.get(pieces[0])
    }

    /// The bytes of the value in the parent, if there is one.
    pub fn parent(&self, i: usize) -> Option<&[u8]>
        requires { i < length self.now }
        ensures value { (d : Conflict) → option_copied result ≡ (slice_index_or self.now i d).parent }
        ensures short { IfSome result (λ value. length value.now ≤ longest) }
    {
        let (_, pieces, values) = self.row(i);
        values.get(pieces[1])
    }

    /// The bytes of the alternative's own value, if there is one.
    pub fn mine(&self, i: usize) -> Option<&[u8]>
        requires { i < length self.now }
        ensures value { (d : Conflict) → option_copied result ≡ (slice_index_or self.now i d).mine }
        ensures short { IfSome result (λ value. length value.now ≤ longest) }
    {
        let (_, pieces, values) = self.row(i);
        values.get(pieces[2])
    }
}
