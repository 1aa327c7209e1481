//! Checkpoints: made, removed, gone back to, and listed.
ghost use Rattle.std.specs.Prelude.{◌≡◌, IfOk, IfErr};
ghost use Rattle.vm_types.specs.declared.command.Command.TheVariants.{Checkpoint, Uncheck, Back};
ghost use Rattle.vm_store.specs.Turns.{Turns};
ghost use Rattle.vm_store.specs.Versions.{checkpoints_among};

use super::Versions;
use crate::version::{Version, is_checkpoint_under};
use std::alloc::Global;
use vm_block::Kind;
use vm_types::{Answer, Name, Refusal};

impl Versions {
    /// Names the present records of the alternative, current and base.
    pub(super) fn make_checkpoint(&mut self, alt: &Name, name: &Name) -> Result<Answer, Refusal>
        ensures { Turns self.old self.new (Checkpoint alt.now name.now) result }
    {
        let Some(own) = self.alternative(alt) else {
            return Err(Refusal::NoSuchAlternative);
        };
        if self.checkpoint(alt, name).is_some() {
            return Err(Refusal::CheckpointExists);
        }
        if self.are_full() {
            return Err(Refusal::TooMany);
        }
        self.add(Version {
            kind: Kind::Checkpoint,
            name: *name,
            owner: Some(*alt),
            ..own
        });
        Ok(Answer::Done)
    }

    /// Removes a checkpoint.
    pub(super) fn uncheck(&mut self, alt: &Name, name: &Name) -> Result<Answer, Refusal>
        ensures { Turns self.old self.new (Uncheck alt.now name.now) result }
    {
        if self.alternative(alt).is_none() {
            return Err(Refusal::NoSuchAlternative);
        }
        if self.checkpoint(alt, name).is_none() {
            return Err(Refusal::NoSuchCheckpoint);
        }
        self.take_checkpoint_out(alt, name);
        Ok(Answer::Done)
    }

    /// Gives the alternative the records of a checkpoint, current and base.
    pub(super) fn go_back(&mut self, alt: &Name, name: &Name) -> Result<Answer, Refusal>
        ensures { Turns self.old self.new (Back alt.now name.now) result }
    {
        if self.alternative(alt).is_none() {
            return Err(Refusal::NoSuchAlternative);
        }
        let Some(saved) = self.checkpoint(alt, name) else {
            return Err(Refusal::NoSuchCheckpoint);
        };
        self.set_roots(alt, saved.current, saved.base);
        Ok(Answer::Done)
    }
}

/// The names of the alternative's checkpoints among the versions, in order.
///
/// Returns `Memory` if there is none for the list.
pub fn checkpoints_among(
    alloc: Global,
    versions: &[Version],
    alt: &Name,
) -> Result<Vec<Name>, Refusal>
    ensures list { IfOk result (λ list. list.items ≡ checkpoints_among versions.now alt.now) }
    ensures only { IfErr result (λ refusal. refusal ≡ Refusal.Memory) }
{
    let mut list = Vec::new(alloc);
    for version in versions {
        if is_checkpoint_under(alt, version) {
            let Ok(()) = list.push(version.name) else {
                return Err(Refusal::Memory);
            };
        }
    }
    Ok(list)
}
