//! Alternatives: made, dropped and listed.
ghost use Rattle.std.specs.Prelude.{◌≡◌, Some, IfOk, IfErr};
ghost use Rattle.vm_types.specs.declared.command.Command.TheVariants.{New, NewAt, Drop};
ghost use Rattle.vm_store.specs.Turns.{Turns};
ghost use Rattle.vm_store.specs.Versions.{alternative_under, alternatives_among};

use super::Versions;
use crate::version::Version;
use std::alloc::Global;
use vm_block::Kind;
use vm_tree::Root;
use vm_types::{Answer, Name, Refusal};

/// A new alternative under a parent, with this root for both of its trees.
fn alternative_under(parent: &Name, name: &Name, root: Root) -> Version
    ensures { result ≡ alternative_under parent.now name.now root }
{
    Version {
        kind: Kind::Alternative,
        name: *name,
        owner: Some(*parent),
        current: root,
        base: root,
    }
}

impl Versions {
    /// Makes a new alternative. Its current and base records are the parent's current ones.
    pub(super) fn make_alternative(&mut self, name: &Name, parent: &Name) -> Result<Answer, Refusal>
        ensures { Turns self.old self.new (New name.now parent.now) result }
    {
        let Some(above) = self.alternative(parent) else {
            return Err(Refusal::NoSuchAlternative);
        };
        if self.alternative(name).is_some() {
            return Err(Refusal::AlternativeExists);
        }
        if self.are_full() {
            return Err(Refusal::TooMany);
        }
        self.add(alternative_under(parent, name, above.current));
        Ok(Answer::Done)
    }

    /// Makes a new alternative. Its current and base records are the current ones of a checkpoint
    /// of the parent.
    pub(super) fn make_alternative_at(
        &mut self,
        name: &Name,
        parent: &Name,
        checkpoint: &Name,
    ) -> Result<Answer, Refusal>
        ensures { Turns self.old self.new (NewAt name.now parent.now checkpoint.now) result }
    {
        if self.alternative(parent).is_none() {
            return Err(Refusal::NoSuchAlternative);
        }
        if self.alternative(name).is_some() {
            return Err(Refusal::AlternativeExists);
        }
        let Some(saved) = self.checkpoint(parent, checkpoint) else {
            return Err(Refusal::NoSuchCheckpoint);
        };
        if self.are_full() {
            return Err(Refusal::TooMany);
        }
        self.add(alternative_under(parent, name, saved.current));
        Ok(Answer::Done)
    }

    /// Removes an alternative that has a parent and no children, together with its checkpoints.
    pub(super) fn drop_alternative(&mut self, alt: &Name) -> Result<Answer, Refusal>
        ensures { Turns self.old self.new (Drop alt.now) result }
    {
        let Some(own) = self.alternative(alt) else {
            return Err(Refusal::NoSuchAlternative);
        };
        if own.owner.is_none() {
            return Err(Refusal::IsTop);
        }
        if self.has_children(alt) {
            return Err(Refusal::HasChildren);
        }
        self.take_out(alt);
        Ok(Answer::Done)
    }
}

/// The alternatives among the versions, each with its parent, in order.
///
/// Returns `Memory` if there is none for the list.
pub fn alternatives_among(
    alloc: Global,
    versions: &[Version],
) -> Result<Vec<(Name, Option<Name>)>, Refusal>
    ensures list { IfOk result (λ list. list.items ≡ alternatives_among versions.now) }
    ensures only { IfErr result (λ refusal. refusal ≡ Refusal.Memory) }
{
    let mut list = Vec::new(alloc);
    for version in versions {
        if version.kind == Kind::Alternative {
            let Ok(()) = list.push((version.name, version.owner)) else {
                return Err(Refusal::Memory);
            };
        }
    }
    Ok(list)
}
