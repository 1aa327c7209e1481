//! Counting what a store holds.
ghost use Rattle.std.specs.Prelude.{◌≡◌, ◌≢◌, ◌+◌, ◌≤◌, ◌++◌, false, length, IfErr, IfOk};
ghost use Rattle.vm_store.specs.Store.{InState, has_failed};
ghost use Rattle.vm_cli.specs.program.StoreCounts.{AreCounts};
ghost use Rattle.vm_cli.specs.session.Standing.{GivesCheckpoints, InListed, IsMemory};
ghost use Rattle.vm_cli.specs.program.Exits.{counts_text};

use crate::answers::text::Text;
use std::alloc::Global;
use vm_disk::Disk;
use vm_store::Store;
use vm_types::{Name, Refusal};

/// How many alternatives (including `top`), checkpoints of all of them, and free blocks a store
/// has.
#[derive(Clone, Copy, Debug, PartialEq, Eq)]
pub struct Counts {
    pub alternatives: usize,
    pub checkpoints: usize,
    pub free: u32,
}

impl Counts {
    /// Writes them, one line each.
    pub(crate) fn push_onto(&self, text: &mut Text)
        requires { length text.old + 200 ≤ Text.MAX_LEN }
        ensures { text.new ≡ text.old ++ counts_text self.now }
    {
        text.push_bytes(b"alternatives ");
        text.push_number(self.alternatives as u64);
        text.push_bytes(b"\ncheckpoints ");
        text.push_number(self.checkpoints as u64);
        text.push_bytes(b"\nfree ");
        text.push_number(u64::from(self.free));
        text.push(b'\n');
    }
}

/// Counts what a store holds. Makes no device call.
pub(crate) fn count<D: Disk>(alloc: Global, store: &Store<D>) -> Result<Counts, Refusal>
    ensures counted { InState store.now (λ s. IfOk result (AreCounts store.now s)) }
    ensures refused { InState store.now (λ s. IfErr result IsMemory) }
    ensures never { has_failed store.now ≡ false → result ≢ Err Refusal.Device }
{
    let alternatives = store.alternatives(alloc)?;
    let checkpoints = count_checkpoints(alloc, store, &alternatives)?;
    let free = store.free()?;
    Ok(Counts {
        alternatives: alternatives.len(),
        checkpoints,
        free,
    })
}

/// Counts the checkpoints of all the listed alternatives.
fn count_checkpoints<D: Disk>(
    alloc: Global,
    store: &Store<D>,
    listed: &[(Name, Option<Name>)],
) -> Result<usize, Refusal>
    ensures counted { InListed store.now listed.now (GivesCheckpoints result) }
    ensures refused { InListed store.now listed.now (λ s. IfErr result IsMemory) }
    ensures never { has_failed store.now ≡ false → result ≢ Err Refusal.Device }
{
    let mut count: usize = 0;
    for alternative in listed {
        let names = store.checkpoints(alloc, &alternative.0)?;
        // They are few, 511 in all, if the disk keeps its model.
        count = count.saturating_add(names.len());
    }
    Ok(count)
}
