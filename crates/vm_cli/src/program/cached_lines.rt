//! Answering lines over a disk with a block cache in memory, and a write-back buffer on top of it.
ghost use Rattle.std.specs.Prelude.{◌≡◌, ◌⊎◌};
ghost use Rattle.vm_types.specs.declared.refusal.Refusal.{Refusal as RefusalValue};
ghost use Rattle.vm_cli.specs.program.CachedLines.{disks};
ghost use Rattle.vm_cli.specs.program.Runs.{AnswersInMemory, TellsRefusalInMemory};
ghost use Rattle.vm_cli.specs.program.Exits.{SessionEnds};
ghost use Rattle.vm_cli.specs.session.Known.{streams_of, writer, writers, written_to};

use crate::program::Exit;
use crate::program::delayed_lines::answer_lines_late;
use crate::program::task::{InMemory, buffer_for};
use crate::session::Manner;
use std::alloc::Global;
use std::io::{Read, Write};
use vm_disk::{CachedDisk, DelayedDisk, Disk};

/// Opens the store on a disk, and answers the lines of the input. The most recently used blocks of
/// the disk stay in memory; if there is no memory for a cache, none do. Written blocks wait on top
/// of that: one that is changed again while it waits reaches the cache once, and one that was
/// written out stays there.
pub(crate) fn answer_lines_in_memory<D: Disk, R: Read, W: Write, F: Write>(
    alloc: Global,
    disk: D,
    in_memory: InMemory,
    manner: Manner,
    input: &mut R,
    output: &mut W,
    errors: &mut F,
) -> (Exit, D)
    ensures ends { SessionEnds manner.on_refusal result.0
        (writers (writer W.contents output.old output.new) (writer F.contents errors.old errors.new)) }
    // The lines are answered as `answer_lines_late` promises, over the disk itself or over a cache
    // of its blocks; or it is reported why that one shows no store, and it is at most synced.
    ensures served { let over = disks D.Disk ⟦<CachedDisk<D> as Disk>⟧ ⟦<DelayedDisk<D> as Disk>⟧ ⟦<DelayedDisk<CachedDisk<D>> as Disk>⟧ in
        AnswersInMemory over disk result in_memory manner (streams_of (R.remaining input.old) (W.contents output.old) (W.contents output.new))
        ⊎ TellsRefusalInMemory over disk result in_memory (written_to F.contents errors.old errors.new) }
{
    let InMemory { cache, buffer } = in_memory;
    let buffer = buffer_for(buffer, disk.blocks());
    if cache == 0 {
        return answer_lines_late(alloc, disk, buffer, manner, input, output, errors);
    }
    match CachedDisk::new(alloc, disk, cache as usize) {
        Ok(cached) => {
            let (exit, cached) = answer_lines_late(
                alloc, cached, buffer, manner, input, output, errors,
            );
            (exit, cached.into_inner())
        }
        Err(disk) => answer_lines_late(alloc, disk, buffer, manner, input, output, errors),
    }
}
