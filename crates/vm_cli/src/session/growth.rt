//! Commands that the store grows for.
ghost use Rattle.std.specs.Prelude.{◌≡◌, ◌↔◌, IsTrue};
ghost use Rattle.vm_cli.specs.lines.Asking.{Request};
ghost use Rattle.vm_cli.specs.session.Feeds.{AsksBy, TriesBy};
ghost use Rattle.vm_cli.specs.session.Session.{larger as larger_of};

use crate::answers::reply::Reply;
use crate::session::commands::answered;
use vm_disk::Disk;
use vm_store::Store;
use vm_types::{Answer, Command, Refusal};

/// How often a store grows at most for one command. Fewer doublings take the smallest store to the
/// largest.
pub const GROWTHS: u32 = 20;

/// Carries out a command. As long as it is answered `Full`, the store grows to twice its blocks,
/// but to at most `most`, and the command is carried out again. If the store cannot grow, the
/// answer is why not.
#[inline(never)]
pub(crate) fn reply_growing<D: Disk>(
    command: &Command<'_>,
    most: u32,
    store: &mut Store<D>,
) -> Reply
    ensures { AsksBy (Request.Growing most command.now) result store.old store.new }
{
    carry_out(command, most, GROWTHS, store)
}

/// Carries out a command. The store may grow `growths` times for it.
fn carry_out<D: Disk>(command: &Command<'_>, most: u32, growths: u32, store: &mut Store<D>) -> Reply
    ensures { TriesBy growths most command.now result store.old store.new }
{
    let answer = store.apply(command);
    if !is_full(&answer) {
        return answered(answer);
    }
    if growths == 0 {
        return answered(answer);
    }
    let Ok(blocks) = store.blocks() else {
        return answered(answer);
    };
    if blocks >= most {
        return answered(answer);
    }
    let blocks = larger(most, blocks);
    match store.apply(&Command::Grow { blocks }) {
        Ok(_) => carry_out(command, most, growths - 1, store),
        Err(refusal) => answered(Err(refusal)),
    }
}

/// Whether too few blocks were spare for a command.
fn is_full(answer: &Result<Answer, Refusal>) -> bool
    ensures { IsTrue result ↔ (answer.now ≡ Err Refusal.Full) }
{
    matches!(answer, Err(Refusal::Full))
}

/// The number of blocks that a store grows to.
fn larger(most: u32, blocks: u32) -> u32
    ensures { result ≡ larger_of most blocks }
{
    if blocks <= most / 2 { blocks * 2 } else { most }
}
