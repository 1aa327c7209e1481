//! Copying the store in a file to a new file. That is made under another name, and gets its own once
//! everything was copied and synced.
ghost use Rattle.std.specs.Prelude.{◌≡◌, true, false, IfOk};
ghost use Rattle.std.specs.String.{string_bytes};
ghost use Rattle.vm_store.specs.Store.{GoesOn, IsHonest, ReadsAlone, disk_of, has_failed};
ghost use Rattle.vm_cli.specs.program.Copies.{CopiesIn, CopiesTo, DropsIn, NamesIn, Sizes, TakesCopyIn};
ghost use Rattle.vm_cli.specs.program.Exits.{CopyEnds, DropEnds, JobEnds, Tells, copied_text, part_of, reported};
ghost use Rattle.vm_cli.specs.session.Known.{writer, writers, written_to};
ghost use Rattle.vm_cli.specs.program.Places.{WasHonest, place_use};
ghost use Rattle.vm_cli.specs.program.Runs.{DuplicatesIn};
ghost use Rattle.vm_cli.specs.program.Words.Wanted.{copy as copy_wanted};

use crate::answers::text::Text;
use crate::program::opening::{open_whole_store, unopened};
use crate::program::place::Place;
use crate::program::{Exit, no_file, refused, say, unless_fault};
use std::alloc::{AllocError, Global};
use std::io::Write;
use vm_disk::Disk;
use vm_store::Store;
use vm_types::Refusal;

/// The number of blocks of a copy, and how many of them are in use.
#[derive(Clone, Copy, Debug, PartialEq, Eq)]
pub struct Size {
    pub blocks: u32,
    pub used: u32,
}

/// Opens the store in a file read only, and makes the file `to` with a copy of it: of `blocks` blocks,
/// or of as many as the store has. Until the copy is whole and durable, nothing has that name.
pub(crate) fn copy<P: Place, W: Write, F: Write>(
    alloc: Global,
    file: &str,
    to: &str,
    blocks: Option<u32>,
    place: &mut P,
    output: &mut W,
    errors: &mut F,
) -> Exit
    ensures says { JobEnds (copy_wanted file.now to.now blocks) result
        (writers (writer W.contents output.old output.new) (writer F.contents errors.old errors.new)) }
    ensures files { DuplicatesIn P.D.Disk (place_use P.state P.denied P.to_write place.old place.new)
        (reported result (written_to W.contents output.old output.new) (written_to F.contents errors.old errors.new))
        file.now to.now blocks }
{
    let Some(disk) = place.look(file) else {
        return no_file(b"altctl: cannot open ", file, errors);
    };
    let (exit, source) = copy_disk(alloc, disk, to, blocks, place, output, errors);
    place.give_back(file, source);
    exit
}

/// Opens the store on a disk, and copies it to a new file.
fn copy_disk<P: Place, W: Write, F: Write>(
    alloc: Global,
    disk: P::D,
    to: &str,
    blocks: Option<u32>,
    place: &mut P,
    output: &mut W,
    errors: &mut F,
) -> (Exit, P::D)
    ensures ends { CopyEnds to.now result.0 (writers (writer W.contents output.old output.new) (writer F.contents errors.old errors.new)) }
    ensures earlier { WasHonest (P.state place.old) (P.state place.new) }
    ensures copied { TakesCopyIn P.D.Disk (place_use P.state P.denied P.to_write place.old place.new)
        (reported result.0 (written_to W.contents output.old output.new) (written_to F.contents errors.old errors.new))
        disk result.1 to.now blocks }
{
    match open_whole_store(alloc, disk) {
        Ok(mut store) => {
            let exit = copy_store(alloc, &mut store, to, blocks, place, output, errors);
            (exit, store.close())
        }
        Err((disk, why)) => (unopened(&why, errors), disk),
    }
}

/// Copies a store to a new file. If that would be too small, or there is something of its name, no
/// file is made.
fn copy_store<S: Disk, P: Place, W: Write, F: Write>(
    alloc: Global,
    store: &mut Store<S>,
    to: &str,
    blocks: Option<u32>,
    place: &mut P,
    output: &mut W,
    errors: &mut F,
) -> Exit
    ensures ends { CopyEnds to.now result (writers (writer W.contents output.old output.new) (writer F.contents errors.old errors.new)) }
    ensures any { GoesOn ⊥ store.old store.new }
    ensures reads { IsHonest store.new → ReadsAlone store.old store.new }
    ensures earlier { WasHonest (P.state place.old) (P.state place.new) }
    ensures files { CopiesIn (place_use P.state P.denied P.to_write place.old place.new)
        (reported result (written_to W.contents output.old output.new) (written_to F.contents errors.old errors.new))
        to.now blocks store.old store.new }
{
    let size = match size_for(store, blocks) {
        Ok(size) => size,
        Err(refusal) => return refused(&refusal, errors),
    };
    let Ok(name) = part_name(alloc, to) else {
        return refused(&Refusal::Memory, errors);
    };
    let part = name.as_str();
    if !place.lacks(to) {
        return no_file(b"altctl: cannot create ", to, errors);
    }
    let Some(disk) = place.create(part, size.blocks) else {
        return no_file(b"altctl: cannot create ", part, errors);
    };
    copy_onto(store, disk, size, part, to, place, output, errors)
}

/// The name that a copy has until it is whole.
fn part_name(alloc: Global, to: &str) -> Result<String, AllocError>
    ensures { IfOk result (λ part. string_bytes part ≡ part_of to.now) }
{
    let mut part = String::from_str(alloc, to)?;
    part.push_str(".part")?;
    Ok(part)
}

/// The size of a copy of a store in `blocks` blocks, or in as many as the store has. It is refused if
/// that is fewer than are in use.
fn size_for<D: Disk>(store: &Store<D>, blocks: Option<u32>) -> Result<Size, Refusal>
    ensures { has_failed store.now ≡ false → Sizes result blocks store.now }
{
    let held = store.blocks()?;
    let used = held.saturating_sub(store.free()?);
    let blocks = blocks.unwrap_or(held);
    if blocks < used {
        return Err(Refusal::Full);
    }
    Ok(Size { blocks, used })
}

/// Copies a store to the disk of the file `part`, which then gets the name `to`, and says so. If one
/// of the two devices fails, the program stops.
fn copy_onto<S: Disk, P: Place, W: Write, F: Write>(
    store: &mut Store<S>,
    disk: P::D,
    size: Size,
    part: &str,
    to: &str,
    place: &mut P,
    output: &mut W,
    errors: &mut F,
) -> Exit
    ensures ends { CopyEnds to.now result (writers (writer W.contents output.old output.new) (writer F.contents errors.old errors.new)) }
    ensures any { GoesOn ⊥ store.old store.new }
    ensures reads { IsHonest store.new → ReadsAlone store.old store.new }
    ensures writes { P.to_write place.new ≡ P.to_write place.old }
    ensures earlier { WasHonest (P.state place.old) (P.state place.new) }
    ensures told { CopiesTo (place_use P.state P.denied P.to_write place.old place.new)
        (reported result (written_to W.contents output.old output.new) (written_to F.contents errors.old errors.new))
        part.now to.now store.old store.new size (P.D.Disk.state disk) }
{
    match vm_store::copy(store, disk, size.blocks) {
        Ok(copy) => name_copy(copy, size, part, to, place, output, errors),
        Err((disk, refusal)) => drop_copy(disk, &refusal, part, place, errors),
    }
}

/// Gives the file `part`, whose disk has the whole copy, the name `to`, and says that a store was
/// copied.
fn name_copy<P: Place, W: Write, F: Write>(
    copy: P::D,
    size: Size,
    part: &str,
    to: &str,
    place: &mut P,
    output: &mut W,
    errors: &mut F,
) -> Exit
    ensures ends { CopyEnds to.now result (writers (writer W.contents output.old output.new) (writer F.contents errors.old errors.new)) }
    ensures writes { P.to_write place.new ≡ P.to_write place.old }
    ensures earlier { WasHonest (P.state place.old) (P.state place.new) }
    ensures named { NamesIn P.D.Disk.state (place_use P.state P.denied P.to_write place.old place.new)
        copy size part.now to.now
        (reported result (written_to W.contents output.old output.new) (written_to F.contents errors.old errors.new)) }
{
    place.give_back(part, copy);
    let is_named = place.link(part, to);
    place.remove(part);
    if is_named {
        copied(size, output)
    } else {
        no_file(b"altctl: cannot create ", to, errors)
    }
}

/// Removes the file `part`, to which nothing was copied, and says why. If it is that a device failed,
/// the program stops.
fn drop_copy<P: Place, F: Write>(
    disk: P::D,
    refusal: &Refusal,
    part: &str,
    place: &mut P,
    errors: &mut F,
) -> Exit
    ensures ends { DropEnds refusal.now result (writer F.contents errors.old errors.new) }
    ensures writes { P.to_write place.new ≡ P.to_write place.old }
    ensures earlier { WasHonest (P.state place.old) (P.state place.new) }
    ensures dropped { DropsIn P.D.Disk.state (place_use P.state P.denied P.to_write place.old place.new)
        disk part.now refusal.now result (written_to F.contents errors.old errors.new) }
{
    place.give_back(part, disk);
    place.remove(part);
    match refusal {
        Refusal::Device => Exit::Stopped,
        refusal => refused(refusal, errors),
    }
}

/// Says that a store was copied.
fn copied<W: Write>(size: Size, output: &mut W) -> Exit
    ensures { Tells Exit.Done result (written_to W.contents output.old output.new) (copied_text size.blocks size.used) }
{
    let mut text = Text::new();
    text.push_bytes(b"copied ");
    text.push_number(u64::from(size.blocks));
    text.push_bytes(b", ");
    text.push_number(u64::from(size.used));
    text.push_bytes(b" used");
    text.push(b'\n');
    unless_fault(say(output, text.as_bytes()), Exit::Done)
}
