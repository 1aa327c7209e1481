//! Showing a store's tree of alternatives.
ghost use Rattle.std.specs.Prelude.{◌≡◌, ◌⊎◌, List, None, true, IfErr, IfOk};
ghost use Rattle.vm_store.specs.Store.{FromState, GoesOn};
ghost use Rattle.vm_cli.specs.program.Branches.{Branch, drawing};
ghost use Rattle.vm_cli.specs.program.Exits.{DrawEnds, JobEnds, Tells, reported};
ghost use Rattle.vm_cli.specs.session.Known.{writer, writers, written_to};
ghost use Rattle.vm_cli.specs.program.Places.{place_use};
ghost use Rattle.vm_cli.specs.program.Runs.{DrawsIn};
ghost use Rattle.vm_cli.specs.program.Told.{TellsRefusal, TellsTree};
ghost use Rattle.vm_cli.specs.session.Standing.{GivesTree, IsDeviceOrMemory};
ghost use Rattle.vm_cli.specs.session.Session.{Passes};
ghost use Rattle.vm_cli.specs.program.Words.Wanted.{draw as draw_wanted};

use crate::program::branches::draw;
use crate::program::opening::{open_whole_store, unopened};
use crate::program::place::Place;
use crate::program::tree_lines::survey;
use crate::program::{Exit, no_file, refused, say, unless_fault};
use std::alloc::Global;
use std::io::Write;
use vm_disk::Disk;
use vm_store::Store;
use vm_types::Refusal;

/// Opens the store in a file read only, and draws the tree of its alternatives.
pub(crate) fn tree<P: Place, W: Write, F: Write>(
    alloc: Global,
    file: &str,
    place: &mut P,
    output: &mut W,
    errors: &mut F,
) -> Exit
    ensures says { JobEnds (draw_wanted file.now) result
        (writers (writer W.contents output.old output.new) (writer F.contents errors.old errors.new)) }
    ensures reads { P.to_write place.new ≡ P.to_write place.old }
    ensures files { DrawsIn P.D.Disk (place_use P.state P.denied P.to_write place.old place.new)
        (reported result (written_to W.contents output.old output.new) (written_to F.contents errors.old errors.new))
        file.now }
{
    let Some(disk) = place.look(file) else {
        return no_file(b"altctl: cannot open ", file, errors);
    };
    let (exit, shown) = show_disk(alloc, disk, output, errors);
    place.give_back(file, shown);
    exit
}

/// Opens the store on a disk, and draws the tree of its alternatives.
fn show_disk<D: Disk, W: Write, F: Write>(
    alloc: Global,
    disk: D,
    output: &mut W,
    errors: &mut F,
) -> (Exit, D)
    ensures ends { DrawEnds result.0 (writers (writer W.contents output.old output.new) (writer F.contents errors.old errors.new)) }
    // The tree is the one that the disk shows, or it is reported why the disk was refused. At each
    // moment nothing has changed, or everything is synced.
    ensures told { (D.state result.1).honest ≡ true
        → TellsTree D.Disk disk result (written_to W.contents output.old output.new)
        ⊎ TellsRefusal D.Disk disk result (written_to F.contents errors.old errors.new) }
{
    match open_whole_store(alloc, disk) {
        Ok(mut store) => {
            let drawn = draw_store(alloc, &mut store);
            let disk = store.close();
            match drawn {
                Ok(text) => (show(&text, output), disk),
                Err(refusal) => (refused(&refusal, errors), disk),
            }
        }
        Err((disk, why)) => (unopened(&why, errors), disk),
    }
}

/// The text of a store's tree.
fn draw_store<D: Disk>(alloc: Global, store: &mut Store<D>) -> Result<Vec<u8>, Refusal>
    ensures any { GoesOn (result ≡ Err Refusal.Device) store.old store.new }
    ensures passes { Passes store.old store.new None }
    ensures text { IfOk result (λ text. (branches : List Branch)
        × (text.items ≡ drawing branches)) }
    ensures drawn { FromState store.old store.new (GivesTree result) }
    ensures refused { FromState store.old store.new (λ s. IfErr result IsDeviceOrMemory) }
{
    let branches = survey(alloc, store)?;
    let Ok(text) = draw(alloc, &branches) else {
        return Err(Refusal::Memory);
    };
    Ok(text)
}

/// Writes a text to the output.
fn show<W: Write>(text: &[u8], output: &mut W) -> Exit
    ensures { Tells Exit.Done result (written_to W.contents output.old output.new) text.now }
{
    unless_fault(say(output, text), Exit::Done)
}
