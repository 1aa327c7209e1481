//! The queries for the records of a version: all of them, those of a part, and the first ones from
//! a key on.
ghost use Rattle.std.specs.Prelude.{◌+◌, length};
ghost use Rattle.vm_types.specs.Queries.{IsListing, records_in};
ghost use Rattle.vm_types.specs.Versions.{map_at};
ghost use Rattle.vm_store.specs.Parts.{from_at, part_at};

use crate::store::Store;
use std::alloc::Global;
use vm_disk::Disk;
use vm_tree::{scan, scan_from, scan_part};
use vm_types::{At, Key, Name, Of, Records, Refusal};

impl<D: Disk> Store<D> {
    ghost use Rattle.vm_store.specs.Queries.{Queries};
    ghost use Rattle.vm_store.specs.Shared.{blocks_at, blocks_of_page, blocks_of_part};
    ghost use Rattle.vm_store.specs.Store.{ReadsAtMost};

    /// All records of a version in the working state, by rising keys.
    pub fn list_at(&mut self, alloc: Global, at: &At) -> Result<Records, Refusal>
        ensures query { Queries self.old self.new result
            (λ s. IsListing result (map_at s.working at.now)) }

        // It reads each block of the version's tree at most once.
        ensures bound { ReadsAtMost self.old self.new
            (λ s holds. length (blocks_at holds.rests at.now)) }
    {
        self.ready()?;
        let root = self.parts.working.root_at(at)?;
        Ok(scan(alloc, &mut self.disk, self.parts.blocks, root)?)
    }

    /// The records of a version in the working state from one key to another, both included, by
    /// rising keys. There are none if the first key is above the second.
    pub fn list_part(
        &mut self,
        alloc: Global,
        at: &At,
        low: Key,
        high: Key,
    ) -> Result<Records, Refusal>
        ensures query { Queries self.old self.new result
            (λ s. IsListing result (part_at s.working at.now low high)) }

        // It makes at most as many reads as the version's tree has blocks with a record of the part
        // under them, and 8 more.
        ensures bound { ReadsAtMost self.old self.new
            (λ s holds. length (blocks_of_part holds.rests low high at.now) + 8) }
    {
        self.ready()?;
        let root = self.parts.working.root_at(at)?;
        Ok(scan_part(alloc, &mut self.disk, self.parts.blocks, root, low, high)?)
    }

    /// The first records of a version in the working state from a key on, at most `count` of them,
    /// by rising keys.
    pub fn list_from(
        &mut self,
        alloc: Global,
        at: &At,
        low: Key,
        count: u32,
    ) -> Result<Records, Refusal>
        ensures query { Queries self.old self.new result
            (λ s. IsListing result (from_at s.working at.now low count)) }

        // It makes at most as many reads as the version's tree has blocks with one of these records
        // under them, and 8 more.
        ensures bound { ReadsAtMost self.old self.new
            (λ s holds. length (blocks_of_page holds.rests low count at.now) + 8) }
    {
        self.ready()?;
        let root = self.parts.working.root_at(at)?;
        Ok(scan_from(alloc, &mut self.disk, self.parts.blocks, root, low, count)?)
    }

    /// All records in the working state of an alternative, by rising keys.
    pub fn list(&mut self, alloc: Global, alt: &Name) -> Result<Records, Refusal>
        ensures query { Queries self.old self.new result
            (λ s. IsListing result (records_in s.working alt.now)) }
    {
        let current = At {
            alt: *alt,
            of: Of::Current,
        };
        self.list_at(alloc, &current)
    }
}
