//! The roots of versions.
ghost use Rattle.std.specs.Prelude.{◌≡◌, find};
ghost use Rattle.vm_store.specs.Roots.{root_at, saved_root};
ghost use Rattle.vm_store.specs.Versions.{is_alternative_of};

use super::Versions;
use vm_tree::Root;
use vm_types::{At, Name, Of, Refusal};

impl Versions {
    /// The root of a version. Returns `NoSuchAlternative` if the alternative is not there, and
    /// otherwise `NoSuchCheckpoint` if it has no such checkpoint.
    pub fn root_at(&mut self, at: &At) -> Result<Root, Refusal>
        ensures root { result ≡ root_at self.old at.now }
        ensures same { self.new ≡ self.old }
    {
        match &at.of {
            Of::Current => match self.current_of(&at.alt) {
                Some(root) => Ok(root),
                None => Err(Refusal::NoSuchAlternative),
            },
            Of::Base => match self.alternative(&at.alt) {
                Some(version) => Ok(version.base),
                None => Err(Refusal::NoSuchAlternative),
            },
            Of::Checkpoint(name) => self.saved_root(&at.alt, name),
        }
    }

    /// The root of the records of a checkpoint. Refuses as `root_at` does.
    fn saved_root(&self, alt: &Name, name: &Name) -> Result<Root, Refusal>
        ensures { result ≡ saved_root self.now alt.now name.now (find (is_alternative_of alt.now) self.now) }
    {
        if self.alternative(alt).is_none() {
            return Err(Refusal::NoSuchAlternative);
        }
        match self.checkpoint(alt, name) {
            Some(saved) => Ok(saved.current),
            None => Err(Refusal::NoSuchCheckpoint),
        }
    }
}
