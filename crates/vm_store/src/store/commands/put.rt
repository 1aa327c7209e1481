//! The command that sets the value of a record.
use crate::series::{before_series, go_on};
use crate::store::Store;
use crate::{FAN, LEVELS};
use vm_disk::Disk;
use vm_tree::put;
use vm_types::{Answer, Command, Key, Name, Refusal, ValueRef};

impl<D: Disk> Store<D> {
    ghost use Rattle.vm_store.specs.Commands.{Performs};

    /// Sets the value of a record of the alternative. The blocks that the series took are changed
    /// in their places.
    pub(super) fn put_value(
        &mut self,
        alt: &Name,
        key: Key,
        value: &ValueRef<'_>,
    ) -> Result<Answer, Refusal>
        ensures { Performs self.old self.new (Command.Put alt.now key value.now) result }
    {
        let Some(version) = self.parts.working.alternative(alt) else {
            return Err(Refusal::NoSuchAlternative);
        };
        if !self.has_spare(1)? {
            return Err(Refusal::Full);
        }
        self.parts.marked = false;
        go_on(
            &mut self.parts.series,
            &mut self.parts.changes,
            &mut self.parts.before,
            &self.parts.held,
            alt,
        );
        let root = put::<D, FAN, LEVELS>(
            &mut self.disk,
            &mut self.parts.held,
            before_series(&self.parts.series, &self.parts.before),
            version.current,
            key,
            value.as_bytes(),
        )?;
        self.parts.working.set_current(alt, root);
        Ok(Answer::Done)
    }
}
