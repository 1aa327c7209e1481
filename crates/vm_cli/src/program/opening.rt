//! Opening the store on a disk, and why that is refused.
ghost use Rattle.std.specs.Prelude.{◌≡◌, None, IfErr};
ghost use Rattle.vm_store.specs.Recovery.{OpensAs, OpensWhole};
ghost use Rattle.vm_cli.specs.program.Exits.{Tells, earlier_text, no_store_text, without_sums_text};
ghost use Rattle.vm_cli.specs.session.Known.{written_to};
ghost use Rattle.vm_cli.specs.program.Openings.{FindsWhy, IsOpening, NamesAll};

use crate::answers::reply::push_refusal;
use crate::answers::text::Text;
use crate::program::{Exit, refused, say, unless_fault};
use std::alloc::Global;
use std::io::Write;
use vm_alloc::Marks;
use vm_block::is_earlier_header;
use vm_disk::Disk;
use vm_store::{Store, open, open_surveyed, open_whole};
use vm_sums::is_without_sum;
use vm_types::{BlockNumber, FIRST_DATA, Refusal};

/// Why a disk is refused.
#[derive(Clone, Copy, Debug, PartialEq, Eq)]
pub enum NoStore {
    /// For this refusal.
    Refused(Refusal),
    /// It is no store of this format: it has the header of one of an earlier format.
    Earlier,
    /// The slot with this first block is damaged: that block has no checksum, as in a store that
    /// was written before there were any.
    WithoutSums(BlockNumber),
}

/// Opens the store on a disk. If the disk is no store, reads block 0 once more, to tell whether it
/// has one of an earlier format; if a slot is damaged, its first block, to tell whether that has a
/// checksum.
pub(crate) fn open_store<D: Disk>(alloc: Global, disk: D) -> Result<Store<D>, (D, NoStore)>
    ensures { IsOpening D.Disk OpensAs disk result }
{
    match open(alloc, disk) {
        Ok(store) => Ok(store),
        Err((mut disk, refusal)) => {
            let why = why_refused(&mut disk, refusal);
            Err((disk, why))
        }
    }
}

/// Opens the store on a disk as `open_store` does, and reads every block of it.
pub(crate) fn open_whole_store<D: Disk>(alloc: Global, disk: D) -> Result<Store<D>, (D, NoStore)>
    ensures { IsOpening D.Disk OpensWhole disk result }
{
    match open_whole(alloc, disk) {
        Ok(store) => Ok(store),
        Err((mut disk, refusal)) => {
            let why = why_refused(&mut disk, refusal);
            Err((disk, why))
        }
    }
}

/// Opens the store on a disk as `open_whole_store` does, and goes on behind a damaged block: marks on
/// the damaged blocks of the trees are left.
pub(crate) fn open_surveyed_store<D: Disk>(
    alloc: Global,
    disk: D,
    damaged: &mut Option<Marks>,
) -> Result<Store<D>, (D, NoStore)>
    requires { damaged.old ≡ None }
    ensures opening { IsOpening D.Disk OpensWhole disk result }
    ensures names { IfErr result (λ e. NamesAll (D.state disk) (D.state e.0) e.1 damaged.new) }
{
    match open_surveyed(alloc, disk, damaged) {
        Ok(store) => Ok(store),
        Err((mut disk, refusal)) => {
            let why = why_refused(&mut disk, refusal);
            Err((disk, why))
        }
    }
}

/// Why a disk is refused whose opening gave this refusal.
fn why_refused<D: Disk>(disk: &mut D, refusal: Refusal) -> NoStore
    ensures { FindsWhy refusal (D.state disk.old) (D.state disk.new) result }
{
    match refusal {
        Refusal::NotAStore => no_store(disk),
        Refusal::Damaged(n) => damaged(disk, n),
        refusal => NoStore::Refused(refusal),
    }
}

/// Why a disk is no store of this format.
fn no_store<D: Disk>(disk: &mut D) -> NoStore
    ensures { FindsWhy Refusal.NotAStore (D.state disk.old) (D.state disk.new) result }
{
    if disk.blocks() == 0 {
        return NoStore::Refused(Refusal::NotAStore);
    }
    let mut header = [0; 4096];
    let Ok(()) = disk.read(0, &mut header) else {
        return NoStore::Refused(Refusal::Device);
    };
    if is_earlier_header(&header) {
        NoStore::Earlier
    } else {
        NoStore::Refused(Refusal::NotAStore)
    }
}

/// Why a disk is refused of which this block is damaged.
fn damaged<D: Disk>(disk: &mut D, n: BlockNumber) -> NoStore
    ensures { FindsWhy (Refusal.Damaged n) (D.state disk.old) (D.state disk.new) result }
{
    if n >= FIRST_DATA || n >= disk.blocks() {
        return NoStore::Refused(Refusal::Damaged(n));
    }
    let mut block = [0; 4096];
    let Ok(()) = disk.read(n, &mut block) else {
        return NoStore::Refused(Refusal::Device);
    };
    if is_without_sum(n, &block) {
        NoStore::WithoutSums(n)
    } else {
        NoStore::Refused(Refusal::Damaged(n))
    }
}

/// Says why a disk is refused.
pub(crate) fn unopened<F: Write>(why: &NoStore, errors: &mut F) -> Exit
    ensures { Tells Exit.Refused result (written_to F.contents errors.old errors.new) (no_store_text why.now) }
{
    match why {
        NoStore::Refused(refusal) => refused(refusal, errors),
        NoStore::Earlier => of_earlier_format(errors),
        NoStore::WithoutSums(n) => without_sums(*n, errors),
    }
}

/// Says that a disk is no store, and in a second line that it is one of an earlier format.
fn of_earlier_format<F: Write>(errors: &mut F) -> Exit
    ensures { Tells Exit.Refused result (written_to F.contents errors.old errors.new) earlier_text }
{
    let mut text = Text::new();
    text.push_bytes(b"altctl: ");
    push_refusal(&mut text, &Refusal::NotAStore);
    text.push(b'\n');
    text.push_bytes(b"altctl: the file is of an earlier format: ");
    text.push_bytes(b"tools/upgrade.py OLD NEW carries it over\n");
    unless_fault(say(errors, text.as_bytes()), Exit::Refused)
}

/// Says that a slot is damaged, and in a second line that the file has no checksums.
fn without_sums<F: Write>(n: BlockNumber, errors: &mut F) -> Exit
    ensures { Tells Exit.Refused result (written_to F.contents errors.old errors.new) (without_sums_text n) }
{
    let mut text = Text::new();
    text.push_bytes(b"altctl: ");
    push_refusal(&mut text, &Refusal::Damaged(n));
    text.push(b'\n');
    text.push_bytes(b"altctl: the file has no checksums: ");
    text.push_bytes(b"tools/upgrade.py OLD NEW carries it over\n");
    unless_fault(say(errors, text.as_bytes()), Exit::Refused)
}
