//! The query for one record of a version.
ghost use Rattle.std.specs.Prelude.{◌≡◌, ◌≢◌, ◌+◌, ◌≤◌, length, option_copied, IfOk, IfSome};
ghost use Rattle.vm_types.specs.Bytes.{longest};
ghost use Rattle.vm_types.specs.Queries.{value_in};
ghost use Rattle.vm_types.specs.Versions.{value_at};
ghost use Rattle.vm_store.specs.Answers.{IsDueOrDevice, copied_answer};

use crate::store::Store;
use vm_disk::Disk;
use vm_tree::get;
use vm_types::{At, Block, Key, Name, Of, Refusal, Value};

/// A copy of a borrowed value.
fn copy_of(value: Option<&[u8]>) -> Option<Value>
    requires { IfSome value (λ bytes. length bytes.now ≤ longest) }
    ensures { result ≡ option_copied value.entry }
{
    match value {
        Some(bytes) => Value::new(bytes),
        None => None,
    }
}

impl<D: Disk> Store<D> {
    ghost use Rattle.vm_store.specs.Queries.{Queries};
    ghost use Rattle.vm_store.specs.Store.{reads_of};

    /// The value of a record of a version in the working state, lent from this buffer, into which
    /// it is read or copied.
    pub fn look_at<'a>(
        &mut self,
        at: &At,
        key: Key,
        room: &'a mut Block,
    ) -> Result<Option<&'a [u8]>, Refusal>
        ensures query { Queries self.old self.new result
            (λ s. IsDueOrDevice (copied_answer result) (value_at s.working at.now key)) }
        ensures no_memory { result ≢ Err Refusal.Memory }
        ensures short { IfOk result (λ value. IfSome value (λ bytes. length bytes.now ≤ longest)) }

        // Whatever the store holds, it makes at most eight reads.
        ensures bound { reads_of self.new ≤ reads_of self.old + 8 }
    {
        self.ready()?;
        let root = self.parts.working.root_at(at)?;
        Ok(get(&mut self.disk, self.parts.blocks, root, key, room)?)
    }

    /// The value of a record in the working state of an alternative, lent from this buffer, into
    /// which it is read or copied.
    pub fn look<'a>(
        &mut self,
        alt: &Name,
        key: Key,
        room: &'a mut Block,
    ) -> Result<Option<&'a [u8]>, Refusal>
        ensures query { Queries self.old self.new result
            (λ s. IsDueOrDevice (copied_answer result) (value_in s.working alt.now key)) }
        ensures no_memory { result ≢ Err Refusal.Memory }
        ensures short { IfOk result (λ value. IfSome value (λ bytes. length bytes.now ≤ longest)) }

        // Whatever the store holds, it makes at most eight reads.
        ensures bound { reads_of self.new ≤ reads_of self.old + 8 }
    {
        let current = At {
            alt: *alt,
            of: Of::Current,
        };
        self.look_at(&current, key, room)
    }

    /// The value of a record of a version in the working state.
    pub fn get_at(&mut self, at: &At, key: Key) -> Result<Option<Value>, Refusal>
        ensures query { Queries self.old self.new result
            (λ s. IsDueOrDevice result (value_at s.working at.now key)) }
        ensures no_memory { result ≢ Err Refusal.Memory }

        // Whatever the store holds, it makes at most eight reads.
        ensures bound { reads_of self.new ≤ reads_of self.old + 8 }
    {
        let mut room = [0; 4096];
        let value = self.look_at(at, key, &mut room)?;
        Ok(copy_of(value))
    }

    /// The value of a record in the working state of an alternative.
    pub fn get(&mut self, alt: &Name, key: Key) -> Result<Option<Value>, Refusal>
        ensures query { Queries self.old self.new result
            (λ s. IsDueOrDevice result (value_in s.working alt.now key)) }
        ensures no_memory { result ≢ Err Refusal.Memory }

        // Whatever the store holds, it makes at most eight reads.
        ensures bound { reads_of self.new ≤ reads_of self.old + 8 }
    {
        let current = At {
            alt: *alt,
            of: Of::Current,
        };
        self.get_at(&current, key)
    }
}
