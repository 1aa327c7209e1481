//! The alternatives and checkpoints of a store in memory: found by name, added, changed and
//! removed.
ghost use Rattle.std.specs.Prelude.{◌≡◌, ◌↔◌, ◌≤◌, ◌<◌, ◌*◌, ◌++◌, ◌∷◌, ◌+◌, [], find, filter, length, None, option_map, vec_capacity, IfSome, IfNone, IfOk, IfErr, IsTrue};
ghost use Rattle.std.specs.List.{list_any};
ghost use Rattle.vm_types.specs.Firsts.{IsFirst, change_first, without_first};
ghost use Rattle.vm_types.specs.Name.{IsName};
ghost use Rattle.vm_store.specs.Answers.{ChangesEntriesAlone};
ghost use Rattle.vm_store.specs.Pairs.{IsPair, LacksPair};
ghost use Rattle.vm_store.specs.Turns.{Turns};
ghost use Rattle.vm_store.specs.Versions.{versions_of, slot_entries, IsEarliest, is_alternative_of, is_checkpoint_of, is_child_of, is_apart, with_current, with_base, with_tops};

mod alternatives;
mod checkpoints;
mod roots;

use crate::version::{Version, is_alternative_of, is_apart, is_checkpoint_of, is_child_of};
pub use alternatives::alternatives_among;
pub use checkpoints::checkpoints_among;
use std::alloc::{AllocError, Global};
use std::marker::Model;
use vm_block::Entry;
use vm_tree::Root;
use vm_types::{Answer, Command, MAX_VERSIONS, Name, Refusal};

/// Alternatives and checkpoints, in order of creation. There is room for as many as a slot may
/// have, so only `of_entries` takes memory. The search for an alternative starts where one was used
/// last.
#[derive(Drop)]
pub struct Versions {
    list: Vec<Version>,
    recent: usize,
}

impl Model for Versions {
    ghost use Rattle.std.specs.Prelude.{◌≤◌, List, length, vec_capacity};
    ghost use Rattle.vm_types.specs.declared.sizes.TheConstants.{MAX_VERSIONS};
    ghost use Rattle.vm_store.specs.Versions.{IsEarliest};
    ghost use Rattle.vm_store.specs.declared.version.Version.{Version};

    ghost Value = { List Version };

    ghost view = { λ a. a.list.items };

    ghost invariant = { λ a. (length a.list.items ≤ MAX_VERSIONS) × (MAX_VERSIONS ≤ vec_capacity a.list)
        × IsEarliest a.list.items a.recent };
}

/// The position of the alternative of this name.
fn position_of(versions: &[Version], alt: &Name) -> Option<usize>
    ensures found { IfSome result (IsFirst (is_alternative_of alt.now) versions.now) }
    ensures earliest { IfSome result (IsEarliest versions.now) }
    ensures none { IfNone result (find (is_alternative_of alt.now) versions.now ≡ None) }
{
    for (i, version) in versions.iter().enumerate() {
        if is_alternative_of(alt, version) {
            return Some(i);
        }
    }
    None
}

/// The position of the checkpoint of this name of the alternative.
fn checkpoint_position(versions: &[Version], alt: &Name, name: &Name) -> Option<usize>
    ensures found { IfSome result (IsFirst (is_checkpoint_of alt.now name.now) versions.now) }
    ensures none { IfNone result (find (is_checkpoint_of alt.now name.now) versions.now ≡ None) }
{
    for (i, version) in versions.iter().enumerate() {
        if is_checkpoint_of(alt, name, version) {
            return Some(i);
        }
    }
    None
}

/// Adds the versions of entries with these roots, current before base. There must be room, so it
/// takes no memory.
fn add_versions(into: &mut Vec<Version>, entries: &[Entry], roots: &[Root])
    requires space { length into.old.items + length entries.now ≤ vec_capacity into.old }
    requires roots { length roots.now ≡ 2 * length entries.now }
    ensures items { into.new.items ≡ into.old.items ++ versions_of entries.now roots.now }
    ensures room { vec_capacity into.old ≤ vec_capacity into.new }
{
    for (i, entry) in entries.iter().enumerate() {
        let version = Version {
            kind: entry.kind,
            name: entry.name,
            owner: entry.owner,
            current: roots[2 * i],
            base: roots[2 * i + 1],
        };
        let Ok(()) = into.extend_from_slice(&[version]) else {
            unreachable!();
        };
    }
}

impl Versions {
    /// The versions of a slot's entries with these roots, current before base.
    pub fn of_entries(
        alloc: Global,
        entries: &[Entry],
        roots: &[Root],
    ) -> Result<Versions, AllocError>
        requires few { length entries.now ≤ MAX_VERSIONS }
        requires roots { length roots.now ≡ 2 * length entries.now }
        ensures items { IfOk result (λ versions. versions ≡ versions_of entries.now roots.now) }
    {
        let mut list = Vec::with_capacity(alloc, MAX_VERSIONS)?;
        add_versions(&mut list, entries, roots);
        Ok(Versions { list, recent: 0 })
    }

    /// Makes these versions the same as others.
    pub fn copy_from(&mut self, other: &Versions)
        ensures { self.new ≡ other.now }
    {
        self.list.clear();
        self.recent = 0;
        let Ok(()) = self.list.extend_from_slice(&other.list) else {
            unreachable!();
        };
    }

    /// All of them.
    pub fn as_slice(&self) -> &[Version]
        ensures items { result.now ≡ self.now }
        ensures few { length self.now ≤ MAX_VERSIONS }
    {
        &self.list
    }

    /// The position of the alternative of this name.
    fn position(&self, alt: &Name) -> Option<usize>
        ensures found { IfSome result (IsFirst (is_alternative_of alt.now) self.now) }
        ensures earliest { IfSome result (IsEarliest self.now) }
        ensures none { IfNone result (find (is_alternative_of alt.now) self.now ≡ None) }
    {
        match self.list.get(self.recent) {
            Some(version) if is_alternative_of(alt, version) => Some(self.recent),
            _ => position_of(&self.list, alt),
        }
    }

    /// The alternative of this name, if it is there.
    pub fn alternative(&self, alt: &Name) -> Option<Version>
        ensures { result ≡ find (is_alternative_of alt.now) self.now }
    {
        match self.position(alt) {
            Some(i) => Some(self.list[i]),
            None => None,
        }
    }

    /// The current root of the alternative of this name, if it is there.
    pub fn current_of(&mut self, alt: &Name) -> Option<Root>
        ensures root { result ≡ option_map (λ version. version.current)
            (find (is_alternative_of alt.now) self.old) }
        ensures same { self.new ≡ self.old }
    {
        let i = self.position(alt)?;
        self.recent = i;
        Some(self.list[i].current)
    }

    /// The checkpoint of this name of the alternative, if it is there.
    pub fn checkpoint(&self, alt: &Name, name: &Name) -> Option<Version>
        ensures { result ≡ find (is_checkpoint_of alt.now name.now) self.now }
    {
        match checkpoint_position(&self.list, alt, name) {
            Some(i) => Some(self.list[i]),
            None => None,
        }
    }

    /// The alternative of this name, and its parent.
    ///
    /// Returns `NoSuchAlternative` if one of them is not there, and `IsTop` if the alternative has
    /// no parent.
    pub fn pair_of(&self, alt: &Name) -> Result<(Version, Version), Refusal>
        ensures found { IfOk result (IsPair self.now alt.now) }
        ensures none { IfErr result (LacksPair self.now alt.now) }
    {
        let Some(own) = self.alternative(alt) else {
            return Err(Refusal::NoSuchAlternative);
        };
        let Some(name) = own.owner else {
            return Err(Refusal::IsTop);
        };
        let Some(parent) = self.alternative(&name) else {
            return Err(Refusal::NoSuchAlternative);
        };
        Ok((own, parent))
    }

    /// Gives the alternative of this name another current root, if it is there.
    pub fn set_current(&mut self, alt: &Name, current: Root)
        ensures { self.new ≡ change_first (is_alternative_of alt.now) (with_current current) self.old }
    {
        if let Some(i) = self.position(alt) {
            self.recent = i;
            self.list[i].current = current;
        }
    }

    /// Gives the alternative of this name another base root, if it is there.
    pub fn set_base(&mut self, alt: &Name, base: Root)
        ensures { self.new ≡ change_first (is_alternative_of alt.now) (with_base base) self.old }
    {
        if let Some(i) = self.position(alt) {
            self.recent = i;
            self.list[i].base = base;
        }
    }

    /// Gives the alternative of this name two other roots, if it is there.
    fn set_roots(&mut self, alt: &Name, current: Root, base: Root)
        ensures { self.new ≡ change_first (is_alternative_of alt.now) (with_tops current base) self.old }
    {
        if let Some(i) = self.position(alt) {
            self.recent = i;
            self.list[i] = Version {
                current,
                base,
                ..self.list[i]
            };
        }
    }

    /// Whether there are as many as a slot may have.
    fn are_full(&self) -> bool
        ensures { IsTrue result ↔ (MAX_VERSIONS ≤ length self.now) }
    {
        self.list.len() >= MAX_VERSIONS
    }

    /// Whether some alternative has this one as its parent.
    fn has_children(&self, alt: &Name) -> bool
        ensures { result ≡ list_any (is_child_of alt.now) self.now }
    {
        self.list.iter().any(|v| is_child_of(alt, v))
    }

    /// Appends a version.
    fn add(&mut self, version: Version)
        requires { length self.old < MAX_VERSIONS }
        ensures items { self.new ≡ self.old ++ version ∷ [] }
        ensures name { IsName version.name }
    {
        let named = !version.name.as_bytes().is_empty();
        prove!(named);
        self.recent = 0;
        let Ok(()) = self.list.extend_from_slice(&[version]) else {
            unreachable!();
        };
    }

    /// Removes the alternative of this name and its checkpoints.
    fn take_out(&mut self, alt: &Name)
        ensures { self.new ≡ filter (is_apart alt.now) self.old }
    {
        self.recent = 0;
        self.list.retain(|v| is_apart(alt, v));
    }

    /// Removes the checkpoint of this name of the alternative, if it is there.
    fn take_checkpoint_out(&mut self, alt: &Name, name: &Name)
        ensures { self.new ≡ without_first (is_checkpoint_of alt.now name.now) self.old }
    {
        if let Some(i) = checkpoint_position(&self.list, alt, name) {
            self.recent = 0;
            self.list.remove(i);
        }
    }

    /// Carries out a command that makes, drops or goes back to an alternative or a checkpoint.
    pub fn change_by(&mut self, command: &Command<'_>) -> Result<Answer, Refusal>
        requires { ChangesEntriesAlone command.now }
        ensures { Turns self.old self.new command.now result }
    {
        match command {
            Command::New { name, parent } => self.make_alternative(name, parent),
            Command::NewAt {
                name,
                parent,
                checkpoint,
            } => self.make_alternative_at(name, parent, checkpoint),
            Command::Drop { alt } => self.drop_alternative(alt),
            Command::Checkpoint { alt, name } => self.make_checkpoint(alt, name),
            Command::Uncheck { alt, name } => self.uncheck(alt, name),
            Command::Back { alt, name } => self.go_back(alt, name),
            _ => unreachable!(),
        }
    }
}

/// Makes a list what a slot says of the versions. There must be room, so it takes no memory.
pub fn write_entries(into: &mut Vec<Entry>, versions: &[Version])
    requires { length versions.now ≤ vec_capacity into.old }
    ensures items { into.new.items ≡ slot_entries versions.now }
    ensures room { vec_capacity into.old ≤ vec_capacity into.new }
{
    into.clear();
    for version in versions {
        let Ok(()) = into.extend_from_slice(&[version.entry()]) else {
            unreachable!();
        };
    }
}
