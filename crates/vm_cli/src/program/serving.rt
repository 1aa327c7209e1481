//! Which session a manner asks for, and how the program ends after it.
ghost use Rattle.std.specs.Prelude.{◌≡◌, None};
ghost use Rattle.vm_types.specs.State.{State};
ghost use Rattle.vm_store.specs.Store.{GrowsOn};
ghost use Rattle.vm_cli.specs.session.Known.{streams_of};
ghost use Rattle.vm_cli.specs.session.Served.{ServesBy};
ghost use Rattle.vm_cli.specs.program.DiskUses.{end_of as end_of_session};
ghost use Rattle.vm_cli.specs.session.Session.{Passes};

use crate::program::Exit;
use crate::session::batches::serve_batches;
use crate::session::planners::serve_planners;
use crate::session::{Grouping, Manner, OnCommand, OnRefusal, ServeFault, serve};
use std::alloc::Global;
use std::io::{Read, Write};
use vm_disk::Disk;
use vm_store::Store;

/// Answers the lines of the input, each by itself or in batches, of one planner or of many.
pub(crate) fn serve_by<D: Disk, R: Read, W: Write>(
    alloc: Global,
    input: &mut R,
    output: &mut W,
    store: &mut Store<D>,
    manner: Manner,
) -> Result<bool, ServeFault>
    ensures goes { GrowsOn ⊥ store.old store.new }
    ensures answers { (s : State) → ServesBy manner.grouping store.old store.new s manner result
        (streams_of (R.remaining input.old) (W.contents output.old) (W.contents output.new)) }
    ensures reads { manner.on_command ≡ OnCommand.Refuse → Passes store.old store.new None }
{
    match manner.grouping {
        Grouping::Lines => serve(alloc, input, output, store, manner),
        Grouping::Batches => serve_batches(alloc, input, output, store, manner),
        Grouping::Planners => serve_planners(alloc, input, output, store, manner),
    }
}

/// How the program ends after a session.
pub(crate) fn end_of(on_refusal: OnRefusal, served: &Result<bool, ServeFault>) -> Exit
    ensures { result ≡ end_of_session on_refusal served.now }
{
    match served {
        Ok(false) => Exit::Done,
        Ok(true) => match on_refusal {
            OnRefusal::Ignore => Exit::Done,
            OnRefusal::Tell => Exit::LineRefused,
            OnRefusal::Stop => Exit::LineRefused,
        },
        Err(ServeFault::Refused) => Exit::LineRefused,
        Err(_) => Exit::Stopped,
    }
}
