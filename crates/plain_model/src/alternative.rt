//! An alternative and its checkpoints, with whole copies of their maps.
ghost use Rattle.std.specs.Prelude.{◌≡◌, [], ◌∷◌, ◌++◌, length, find, Some, None, is_some, option_map, IfSome, IfNone, IfOk, OnOk, OnErr, bytes_eq};
ghost use Rattle.std.specs.Option.{option_eq};
ghost use Rattle.vm_types.specs.Firsts.{IsFirst, without_first};
ghost use Rattle.vm_types.specs.Map.{get, with_value, without, same_map, delta, conflicts, merge};
ghost use Rattle.vm_types.specs.Shape.{saved_names, shape};
ghost use Rattle.vm_types.specs.Step.{new_alternative};
ghost use Rattle.vm_types.specs.Tree.{saved_as};
ghost use Rattle.vm_types.specs.Outcomes.{gone_back};

use crate::held::Held;
use crate::map::{self, Map};
use crate::map_changes;
use std::alloc::{AllocError, Global};
use std::marker::Model;
use vm_types::{Change, Conflict, Key, Name, Side, Value, ValueRef};

/// A checkpoint: an earlier state of an alternative, under a name.
#[derive(Drop)]
pub struct Saved {
    name: Name,
    current: Map,
    base: Map,
}

impl Model for Saved {
    ghost use Rattle.vm_types.specs.Tree as tree;

    ghost Value = { tree.Saved };

    ghost view = { λ c. record { name = c.name; current = c.current.items; base = c.base.items } };
}

/// An alternative: its records, those of its parent that it last took in, and its checkpoints.
#[derive(Drop)]
pub struct Alternative {
    name: Name,
    parent: Option<Name>,
    current: Map,
    base: Map,
    saved: Vec<Saved>,
}

impl Model for Alternative {
    ghost use Rattle.vm_types.specs.Tree as tree;

    ghost Value = { tree.Alternative };

    ghost view = { λ a. record { name = a.name; parent = a.parent; current = a.current.items; base = a.base.items; saved = a.saved.items } };
}

impl Saved {
    fn is_named(&self, name: &Name) -> bool
        ensures { result ≡ bytes_eq self.now.name name.now }
    {
        self.name == *name
    }

    fn copy(&self, alloc: Global) -> Result<Saved, AllocError>
        ensures { IfOk result (λ copy. copy ≡ self.now) }
    {
        Ok(Saved {
            name: self.name,
            current: map::copy(alloc, &self.current)?,
            base: map::copy(alloc, &self.base)?,
        })
    }
}

/// The position of the checkpoint of this name.
fn position_of(saved: &[Saved], name: &Name) -> Option<usize>
    ensures found { IfSome result (IsFirst (λ c. bytes_eq c.name name.now) saved.now) }
    ensures none { IfNone result (find (λ c. bytes_eq c.name name.now) saved.now ≡ None) }
{
    for (i, checkpoint) in saved.iter().enumerate() {
        if checkpoint.is_named(name) {
            return Some(i);
        }
    }
    None
}

fn copy_saved(alloc: Global, saved: &[Saved]) -> Result<Vec<Saved>, AllocError>
    ensures { IfOk result (λ copy. copy.items ≡ saved.now) }
{
    let mut copy = Vec::new(alloc);
    for checkpoint in saved {
        copy.push(checkpoint.copy(alloc)?)?;
    }
    Ok(copy)
}

impl Alternative {
    /// The first alternative of a store, without records.
    pub(super) fn first(alloc: Global, name: &Name) -> Alternative
        ensures { result ≡ record { name = name.now; parent = None; current = []; base = []; saved = [] } }
    {
        Alternative {
            name: *name,
            parent: None,
            current: Vec::new(alloc),
            base: Vec::new(alloc),
            saved: Vec::new(alloc),
        }
    }

    /// A new alternative under this one. It shows this one's records.
    pub(super) fn child(&self, alloc: Global, name: &Name) -> Result<Alternative, AllocError>
        ensures { IfOk result (λ child. child ≡ new_alternative name.now self.now self.now.current) }
    {
        self.child_with(alloc, name, &self.current)
    }

    /// A new alternative under this one. It shows the records of the checkpoint of this name, if
    /// there is one.
    pub(super) fn child_at(
        &self,
        alloc: Global,
        name: &Name,
        checkpoint: &Name,
    ) -> Result<Option<Alternative>, AllocError>
        ensures { IfOk result (λ child. child ≡ option_map (λ c. new_alternative name.now self.now c.current) (saved_as self.now checkpoint.now)) }
    {
        match position_of(&self.saved, checkpoint) {
            Some(i) => {
                let child = self.child_with(alloc, name, &self.saved[i].current)?;
                Ok(Some(child))
            }
            None => Ok(None),
        }
    }

    /// A new alternative under this one. It shows these records.
    fn child_with(
        &self,
        alloc: Global,
        name: &Name,
        records: &[(Key, Held)],
    ) -> Result<Alternative, AllocError>
        ensures { IfOk result (λ child. child ≡ new_alternative name.now self.now records.now) }
    {
        Ok(Alternative {
            name: *name,
            parent: Some(self.name),
            current: map::copy(alloc, records)?,
            base: map::copy(alloc, records)?,
            saved: Vec::new(alloc),
        })
    }

    /// A copy of it.
    pub(super) fn copy(&self, alloc: Global) -> Result<Alternative, AllocError>
        ensures { IfOk result (λ copy. copy ≡ self.now) }
    {
        Ok(Alternative {
            name: self.name,
            parent: self.parent,
            current: map::copy(alloc, &self.current)?,
            base: map::copy(alloc, &self.base)?,
            saved: copy_saved(alloc, &self.saved)?,
        })
    }

    /// Whether it has this name.
    pub(super) fn is_named(&self, name: &Name) -> bool
        ensures { result ≡ bytes_eq self.now.name name.now }
    {
        self.name == *name
    }

    /// The name of its parent. The first alternative has none.
    pub(super) fn parent(&self) -> Option<Name>
        ensures { result ≡ self.now.parent }
    {
        self.parent
    }

    /// Whether its parent has this name.
    pub(super) fn is_under(&self, name: &Name) -> bool
        ensures { result ≡ option_eq bytes_eq self.now.parent (Some name.now) }
    {
        self.parent == Some(*name)
    }

    /// How many checkpoints it has.
    pub(super) fn saved_count(&self) -> usize
        ensures { result ≡ length self.now.saved }
    {
        self.saved.len()
    }

    /// The value of a record.
    pub(super) fn get(&self, key: Key) -> Option<Value>
        ensures { result ≡ get self.now.current key }
    {
        map::get(&self.current, key)
    }

    /// Sets the value of a record.
    pub(super) fn put(
        &mut self,
        alloc: Global,
        key: Key,
        value: &ValueRef<'_>,
    ) -> Result<(), AllocError>
        ensures ok { OnOk result (self.new ≡ record self.old { current = with_value self.old.current key value.now }) }
        ensures err { OnErr result (self.new ≡ self.old) }
    {
        self.current = map::with_value(alloc, &self.current, key, value.as_bytes())?;
        Ok(())
    }

    /// Removes a record.
    pub(super) fn remove(&mut self, alloc: Global, key: Key) -> Result<(), AllocError>
        ensures ok { OnOk result (self.new ≡ record self.old { current = without self.old.current key }) }
        ensures err { OnErr result (self.new ≡ self.old) }
    {
        self.current = map::without(alloc, &self.current, key)?;
        Ok(())
    }

    /// A copy of what it shows.
    pub(super) fn records(&self, alloc: Global) -> Result<Map, AllocError>
        ensures { IfOk result (λ copy. copy.items ≡ self.now.current) }
    {
        map::copy(alloc, &self.current)
    }

    /// The same, with each value in the space of the longest possible one.
    pub(super) fn values(&self, alloc: Global) -> Result<Vec<(Key, Value)>, AllocError>
        ensures { IfOk result (λ records. records.items ≡ self.now.current) }
    {
        map::values(alloc, &self.current)
    }

    /// What changed since its base, by rising keys.
    pub(super) fn changes(&self, alloc: Global) -> Result<Vec<Change>, AllocError>
        ensures { IfOk result (λ list. list.items ≡ delta self.now.base self.now.current) }
    {
        map_changes::changes_between(alloc, &self.base, &self.current)
    }

    /// Its conflicts with its parent, by rising keys.
    pub(super) fn conflicts(
        &self,
        alloc: Global,
        parent: &Alternative,
    ) -> Result<Vec<Conflict>, AllocError>
        ensures { IfOk result (λ list. list.items ≡ conflicts self.now.base parent.now.current self.now.current) }
    {
        map_changes::conflicts(alloc, &self.base, &parent.current, &self.current)
    }

    /// Whether its base is what its parent shows.
    pub(super) fn is_merged(&self, parent: &Alternative) -> bool
        ensures { result ≡ same_map self.now.base parent.now.current }
    {
        map_changes::same(&self.base, &parent.current)
    }

    /// What it shows after a merge with its parent, with conflicts settled so.
    pub(super) fn merged(
        &self,
        alloc: Global,
        parent: &Alternative,
        settled: &[(Key, Side)],
    ) -> Result<Map, AllocError>
        ensures { IfOk result (λ merged. merged.items ≡ merge self.now.base parent.now.current self.now.current settled.now) }
    {
        map_changes::merge(alloc, &self.base, &parent.current, &self.current, settled)
    }

    /// How many of its records change if it shows these instead. More changes than a `u32` counts
    /// would take more than a TiB, and are refused as lack of memory.
    pub(super) fn change_count(
        &self,
        alloc: Global,
        records: &[(Key, Held)],
    ) -> Result<usize, AllocError>
        ensures { IfOk result (λ count. count ≡ length (delta self.now.current records.now)) }
    {
        let changes = map_changes::changes_between(alloc, &self.current, records)?;
        Ok(changes.len())
    }

    /// Shows these records from now on, and has those as its base.
    pub(super) fn rebase(&mut self, current: Map, base: Map)
        ensures { self.new ≡ record self.old { current = current.items; base = base.items } }
    {
        self.set_current(current);
        self.set_base(base);
    }

    /// Shows these records from now on.
    pub(super) fn set_current(&mut self, records: Map)
        ensures { self.new ≡ record self.old { current = records.items } }
    {
        self.current = records;
    }

    /// Has these as its base from now on.
    pub(super) fn set_base(&mut self, records: Map)
        ensures { self.new ≡ record self.old { base = records.items } }
    {
        self.base = records;
    }

    /// Its name, and its parent.
    pub(super) fn labels(&self) -> (Name, Option<Name>)
        ensures { result ≡ (self.now.name, self.now.parent) }
    {
        (self.name, self.parent)
    }

    /// The names of its checkpoints, in order of creation.
    pub(super) fn saved_names(&self, alloc: Global) -> Result<Vec<Name>, AllocError>
        ensures { IfOk result (λ names. names.items ≡ saved_names self.now.saved) }
    {
        self.saved.iter().map(|c| c.name).collect(alloc)
    }

    /// Whether it has a checkpoint of this name.
    pub(super) fn has_saved(&self, name: &Name) -> bool
        ensures { result ≡ is_some (saved_as self.now name.now) }
    {
        position_of(&self.saved, name).is_some()
    }

    /// Names its present state.
    pub(super) fn save(&mut self, alloc: Global, name: &Name) -> Result<(), AllocError>
        ensures ok { OnOk result (self.new ≡ record self.old { saved = self.old.saved ++ record { name = name.now; current = self.old.current; base = self.old.base } ∷ [] }) }
        ensures err { OnErr result (self.new ≡ self.old) }
    {
        let checkpoint = Saved {
            name: *name,
            current: map::copy(alloc, &self.current)?,
            base: map::copy(alloc, &self.base)?,
        };
        self.saved.push(checkpoint)?;
        Ok(())
    }

    /// Removes the checkpoint of this name, if there is one.
    pub(super) fn forget(&mut self, name: &Name)
        ensures { self.new ≡ record self.old { saved = without_first (λ c. bytes_eq c.name name.now) self.old.saved } }
    {
        if let Some(i) = position_of(&self.saved, name) {
            self.saved.remove(i);
        }
    }

    /// Goes back to the checkpoint of this name, if there is one.
    pub(super) fn go_back(&mut self, alloc: Global, name: &Name) -> Result<(), AllocError>
        ensures ok { OnOk result (self.new ≡ gone_back self.old (saved_as self.old name.now)) }
        ensures err { OnErr result (self.new ≡ self.old) }
    {
        let Some(i) = position_of(&self.saved, name) else {
            return Ok(());
        };
        let current = map::copy(alloc, &self.saved[i].current)?;
        let base = map::copy(alloc, &self.saved[i].base)?;
        self.current = current;
        self.base = base;
        Ok(())
    }
}

/// A copy of the tree.
pub(super) fn copy_tree(alloc: Global, tree: &[Alternative]) -> Result<Vec<Alternative>, AllocError>
    ensures { IfOk result (λ copy. copy.items ≡ tree.now) }
{
    let mut copy = Vec::new(alloc);
    for alternative in tree {
        copy.push(alternative.copy(alloc)?)?;
    }
    Ok(copy)
}

/// The alternatives of a tree with their parents, in order of creation.
pub(super) fn tree_labels(
    alloc: Global,
    tree: &[Alternative],
) -> Result<Vec<(Name, Option<Name>)>, AllocError>
    ensures { IfOk result (λ labels. labels.items ≡ shape tree.now) }
{
    let mut labels = Vec::new(alloc);
    for alternative in tree {
        labels.push(alternative.labels())?;
    }
    Ok(labels)
}
