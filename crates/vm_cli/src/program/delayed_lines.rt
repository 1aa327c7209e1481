//! Answering lines over a disk with written blocks waiting in memory.
ghost use Rattle.std.specs.Prelude.{◌≡◌, ◌⊎◌};
ghost use Rattle.vm_types.specs.declared.refusal.Refusal.{Refusal as RefusalValue};
ghost use Rattle.vm_cli.specs.program.Told.{AnswersLate, TellsRefusalLate};
ghost use Rattle.vm_cli.specs.program.Exits.{SessionEnds};
ghost use Rattle.vm_cli.specs.session.Known.{streams_of, writer, writers, written_to};

use crate::program::{Exit, answer_lines};
use crate::session::Manner;
use std::alloc::Global;
use std::io::{Read, Write};
use vm_disk::{DelayedDisk, Disk};

/// Opens the store on a disk, and answers the lines of the input. Up to `buffer` written blocks of
/// the disk wait in memory; if there is no memory for them, none do. Those that still wait at the
/// end are dropped: no commit reaches them.
pub(crate) fn answer_lines_late<D: Disk, R: Read, W: Write, F: Write>(
    alloc: Global,
    disk: D,
    buffer: u32,
    manner: Manner,
    input: &mut R,
    output: &mut W,
    errors: &mut F,
) -> (Exit, D)
    ensures ends { SessionEnds manner.on_refusal result.0
        (writers (writer W.contents output.old output.new) (writer F.contents errors.old errors.new)) }
    // The lines are answered as `answer_lines` promises, over the disk itself or over a delayed
    // disk on top of it; or it is reported why that one shows no store, and it is at most synced.
    ensures served { let late = ⟦<DelayedDisk<D> as Disk>⟧ in
        AnswersLate D.Disk late buffer manner disk result
        (streams_of (R.remaining input.old) (W.contents output.old) (W.contents output.new))
        ⊎ TellsRefusalLate D.Disk late buffer disk result (written_to F.contents errors.old errors.new) }
{
    if buffer == 0 {
        return answer_lines(alloc, disk, manner, input, output, errors);
    }
    match DelayedDisk::new(alloc, disk, buffer as usize) {
        Ok(late) => {
            let (exit, late) = answer_lines(alloc, late, manner, input, output, errors);
            (exit, late.into_inner())
        }
        Err(disk) => answer_lines(alloc, disk, manner, input, output, errors),
    }
}
