//! An alternative or a checkpoint in memory.
ghost use Rattle.std.specs.Prelude.{◌≡◌};
ghost use Rattle.vm_store.specs.Versions.{entry_of, is_alternative_of, is_checkpoint_under, is_checkpoint_of, is_child_of, is_apart};

use vm_block::{Entry, Kind};
use vm_tree::Root;
use vm_types::Name;

/// An alternative or a checkpoint: a version of a slot, with the tops of its trees instead of their
/// block numbers.
#[derive(Clone, Copy, Debug, PartialEq, Eq)]
pub struct Version {
    pub kind: Kind,
    pub name: Name,
    /// The parent of an alternative, or the alternative of a checkpoint.
    pub owner: Option<Name>,
    pub current: Root,
    pub base: Root,
}

impl Version {
    /// What a slot says of it.
    pub fn entry(&self) -> Entry
        ensures { result ≡ entry_of self.now }
    {
        Entry {
            kind: self.kind,
            name: self.name,
            owner: self.owner,
            current: self.current.block,
            base: self.base.block,
        }
    }
}

/// Whether the version is the alternative of this name.
pub fn is_alternative_of(name: &Name, version: &Version) -> bool
    ensures { result ≡ is_alternative_of name.now version.now }
{
    version.kind == Kind::Alternative && version.name == *name
}

/// Whether the version is a checkpoint of the alternative.
pub fn is_checkpoint_under(alt: &Name, version: &Version) -> bool
    ensures { result ≡ is_checkpoint_under alt.now version.now }
{
    version.kind == Kind::Checkpoint && version.owner.as_ref() == Some(alt)
}

/// Whether the version is the checkpoint of this name of the alternative.
pub fn is_checkpoint_of(alt: &Name, name: &Name, version: &Version) -> bool
    ensures { result ≡ is_checkpoint_of alt.now name.now version.now }
{
    is_checkpoint_under(alt, version) && version.name == *name
}

/// Whether the version is an alternative whose parent is this one.
pub fn is_child_of(alt: &Name, version: &Version) -> bool
    ensures { result ≡ is_child_of alt.now version.now }
{
    version.kind == Kind::Alternative && version.owner.as_ref() == Some(alt)
}

/// Whether the version is neither the alternative nor one of its checkpoints.
pub fn is_apart(alt: &Name, version: &Version) -> bool
    ensures { result ≡ is_apart alt.now version.now }
{
    !(is_alternative_of(alt, version) || is_checkpoint_under(alt, version))
}
