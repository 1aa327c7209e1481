//! What is drawn of each alternative of a store.
ghost use Rattle.std.specs.Prelude.{◌≡◌, None, IfErr, IfOk};
ghost use Rattle.vm_store.specs.Store.{FromState, GoesOn};
ghost use Rattle.vm_cli.specs.program.Branches.{HasNoNumbers, HasNumbers, IsDrawn, IsUndrawn};
ghost use Rattle.vm_cli.specs.session.Standing.{FromListed, GivesBranches, IsDeviceOrMemory};
ghost use Rattle.vm_cli.specs.session.Session.{Passes};

use crate::program::branches::Branch;
use std::alloc::Global;
use vm_disk::Disk;
use vm_store::{Store, Tally};
use vm_types::{Name, Refusal};

/// What is drawn of each alternative of a store, in order of creation. Reads only what differs
/// between an alternative, its base and its parent.
pub(crate) fn survey<D: Disk>(alloc: Global, store: &mut Store<D>) -> Result<Vec<Branch>, Refusal>
    ensures any { GoesOn (result ≡ Err Refusal.Device) store.old store.new }
    ensures passes { Passes store.old store.new None }
    ensures drawn { FromState store.old store.new (GivesBranches result) }
    ensures refused { FromState store.old store.new (λ s. IfErr result IsDeviceOrMemory) }
{
    let listed = store.alternatives(alloc)?;
    survey_listed(alloc, store, &listed)
}

/// What is drawn of all the listed alternatives.
fn survey_listed<D: Disk>(
    alloc: Global,
    store: &mut Store<D>,
    listed: &[(Name, Option<Name>)],
) -> Result<Vec<Branch>, Refusal>
    ensures any { GoesOn (result ≡ Err Refusal.Device) store.old store.new }
    ensures passes { Passes store.old store.new None }
    ensures drawn { FromListed store.old store.new listed.now (GivesBranches result) }
    ensures refused { FromListed store.old store.new listed.now (λ s. IfErr result IsDeviceOrMemory) }
{
    let mut branches = Vec::new(alloc);
    for alternative in listed {
        let branch = branch_of(alloc, store, &alternative.0, alternative.1)?;
        let Ok(()) = branches.push(branch) else {
            return Err(Refusal::Memory);
        };
    }
    Ok(branches)
}

/// What is drawn of the alternative of this name with this parent.
fn branch_of<D: Disk>(
    alloc: Global,
    store: &mut Store<D>,
    name: &Name,
    parent: Option<Name>,
) -> Result<Branch, Refusal>
    ensures any { GoesOn (result ≡ Err Refusal.Device) store.old store.new }
    ensures passes { Passes store.old store.new None }
    ensures drawn { FromState store.old store.new (λ s. IfOk result (IsDrawn s name.now parent)) }
    ensures refused { FromState store.old store.new (λ s. IfErr result (IsUndrawn s name.now)) }
{
    let tally = numbers(store.tally(alloc, name))?;
    let checkpoints = store.checkpoints(alloc, name)?;
    Ok(Branch {
        name: *name,
        parent,
        tally,
        checkpoints,
    })
}

/// The numbers, if there are any: an alternative without a parent has none.
fn numbers(tallied: Result<Tally, Refusal>) -> Result<Option<Tally>, Refusal>
    ensures ok { IfOk result (HasNumbers tallied) }
    ensures err { IfErr result (HasNoNumbers tallied) }
{
    if let Err(Refusal::IsTop | Refusal::NoSuchAlternative) = tallied {
        return Ok(None);
    }
    Ok(Some(tallied?))
}
