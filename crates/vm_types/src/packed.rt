//! Lists that take memory only for what they hold.
ghost use Rattle.std.specs.Prelude.{◌≡◌, ◌<◌, ◌≤◌, ◌∷◌, ◌++◌, ℕ, List, [], All, Option, length, map, slice_get, slice_index_or, option_copied, IsTrue, ◌↔◌, IfOk, IfSome, OnOk, OnErr};
ghost use Rattle.vm_types.specs.Bytes.{longest};
ghost use Rattle.vm_types.specs.declared.key.Key.{Key};
ghost use Rattle.vm_types.specs.Pieces.{AllLieIn, values_in};
ghost use Rattle.vm_types.specs.Packed.{Takes, item_lent};

use crate::Key;
use crate::values::{Piece, Values};
use std::alloc::{AllocError, Global};
use std::marker::{Model, PhantomData};

/// What a packed list can hold: an item made of a key and `N` values, of which some may be absent.
pub trait Packed<const N: usize>: Copy {
    /// The item of a key and its values.
    ghost item: { Key → List (Option (List ℕ)) → Self };

    /// The item of a key and the values at these pieces.
    fn whole(key: Key, pieces: &[Piece], values: &Values) -> Self
        requires count { length pieces.now ≡ N }
        requires lie { AllLieIn (length values.now) pieces.now }
        ensures { result ≡ item key (values_in values.now pieces.now) };

    /// There are few values, so that their pieces can be lent as a slice.
    ghost few: { N < 256 };
}

/// A list of items that takes memory only for what it holds: 16 bytes for the key of each and 16
/// for each of its values, and the bytes of the values. These lie one after another in a single run
/// of bytes.
#[derive(Drop)]
#[derive_where(Debug)]
pub struct PackedList<T: Packed<N>, const N: usize> {
    rows: Vec<(Key, [Piece; N])>,
    values: Values,
    #[derive_where(skip)]
    items: PhantomData<T>,
}

impl<T: Packed<N>, const N: usize> Model for PackedList<T, N> {
    ghost use Rattle.std.specs.Prelude.{List, length};

    ghost Value = { List T };

    ghost use Rattle.vm_types.specs.Packed.{RowsLieIn, items_in};

    ghost view = { λ l. items_in T.item l.values l.rows.items };

    ghost invariant = { λ l. RowsLieIn (length l.values) l.rows.items };
}

impl<T: Packed<N>, const N: usize> PackedList<T, N> {
    /// An empty list. Takes no memory.
    pub fn new(alloc: Global) -> Self
        ensures { result ≡ [] }
    {
        PackedList {
            rows: Vec::new(alloc),
            values: Values::new(alloc),
            items: PhantomData,
        }
    }

    pub fn len(&self) -> usize
        ensures { result ≡ length self.now }
    {
        self.rows.len()
    }

    pub fn is_empty(&self) -> bool
        ensures { IsTrue result ↔ (self.now ≡ []) }
    {
        self.rows.is_empty()
    }

    /// Appends the item of a key and its values. If memory cannot be allocated, the list does not
    /// change.
    pub(crate) fn push_row(&mut self, key: Key, values: &[Option<&[u8]>]) -> Result<(), AllocError>
        requires count { length values.now ≡ N }
        requires short { All (λ value. IfSome value (λ bytes. length bytes.now ≤ longest)) values.now }
        ensures ok { OnOk result (self.new ≡ self.old ++ T.item key (map option_copied values.now) ∷ []) }
        ensures err { OnErr result (self.new ≡ self.old) }
    {
        self.rows.reserve(1)?;
        let pieces = self.values.add_all(values)?;
        self.rows.push_reserved((key, pieces));
        Ok(())
    }

    /// The key of item `i`, and where its values lie.
    pub(crate) fn row(&self, i: usize) -> (Key, &[Piece], &Values)
        requires { i < length self.now }
        ensures count { length result.1.now ≡ N }
        ensures lie { AllLieIn (length result.2.now) result.1.now }
        ensures item { (d : T) → T.item result.0 (values_in result.2.now result.1.now) ≡ slice_index_or self.now i d }
    {
        let (key, pieces) = &self.rows[i];
        (*key, pieces, &self.values)
    }

    /// Each item in order, in its parts.
    pub fn iter(&self) -> PackedIter<'_, T, N>
        ensures { result ≡ self.now }
    {
        PackedIter { list: self, at: 0 }
    }

    /// Item `i`, if there is one.
    pub fn at(&self, i: usize) -> Option<T>
        ensures { result ≡ slice_get self.now i }
    {
        if i >= self.len() {
            return None;
        }
        let (key, pieces, values) = self.row(i);
        Some(T::whole(key, pieces, values))
    }

    /// The same list, with each value in the space of the longest possible one.
    pub fn to_vec(&self, alloc: Global) -> Result<Vec<T>, AllocError>
        ensures { IfOk result (λ items. items.items ≡ self.now) }
    {
        let mut items = Vec::new(alloc);
        let mut i = 0;
        while let Some(item) = self.at(i) {
            items.push(item)?;
            i += 1;
        }
        Ok(items)
    }
}

/// The items of a list, from an index on.
#[derive(Drop)]
pub struct PackedIter<'a, T: Packed<N> + 'a, const N: usize> {
    list: &'a PackedList<T, N>,
    at: usize,
}

impl<'a, T: Packed<N> + 'a, const N: usize> Model for PackedIter<'a, T, N> {
    ghost use Rattle.std.specs.Prelude.{List, drop};

    ghost Value = { List T };

    ghost view = { λ i. drop i.at i.list.now };
}

impl<'a, T: Packed<N> + 'a, const N: usize> PackedIter<'a, T, N> {
    /// The key of the next item, and where its values lie.
    pub(crate) fn next_row(&mut self) -> Option<(Key, &'a [Piece], &'a Values)>
        ensures count { IfSome result (λ row. length row.1.now ≡ N) }
        ensures lie { IfSome result (λ row. AllLieIn (length row.2.now) row.1.now) }
        ensures item { Takes (item_lent T.item) self.old result self.new }
    {
        let list = self.list;
        if self.at >= list.len() {
            return None;
        }
        let (key, pieces) = &list.rows[self.at];
        self.at += 1;
        Some((*key, pieces, &list.values))
    }
}
