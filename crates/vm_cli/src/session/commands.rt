//! Commands.
ghost use Rattle.std.specs.Prelude.{◌≡◌, true, Err, None};
ghost use Rattle.vm_cli.specs.lines.Asking.{Request};
ghost use Rattle.vm_cli.specs.session.Feeds.{AsksBy, SessionGoesOn};
ghost use Rattle.vm_cli.specs.answers.Replies.{ends_session, reply_text};
ghost use Rattle.vm_cli.specs.lines.Requests.{asked_in};
ghost use Rattle.vm_cli.specs.session.Session.{answer_text};

use crate::answers::reply::Reply;
use crate::lines::settlement::for_all;
use crate::session::OnCommand;
use crate::session::growth::reply_growing;
use std::alloc::Global;
use vm_disk::Disk;
use vm_store::Store;
use vm_types::{Answer, Command, Name, Refusal, Settled, Side};

/// Does with a command what the session does with commands. If the device fails in it, the store
/// carries out nothing more.
pub(crate) fn reply_to_command<D: Disk>(
    command: &Command<'_>,
    on_command: OnCommand,
    store: &mut Store<D>,
) -> Reply
    ensures { AsksBy (asked_in on_command (Request.Command command.now)) result store.old store.new }
{
    match on_command {
        OnCommand::Refuse => Reply::ReadOnly,
        OnCommand::CarryOut => answered(store.apply(command)),
        OnCommand::GrowIfFull(most) => reply_growing(command, most, store),
    }
}

/// Merges an alternative with these settlements, and with this side for each other conflict. The
/// conflicts take memory, and so do their settlements. If the device fails while they are listed,
/// the merge has these settlements alone: it reads the same, so the session ends with it if the
/// device fails again, as with any command, and otherwise it says what is not settled. Kept out of
/// line so that the session's stack frame stays small.
#[inline(never)]
pub(crate) fn reply_to_merge_all<D: Disk>(
    alloc: Global,
    alt: &Name,
    side: Side,
    settled: Settled,
    on_command: OnCommand,
    store: &mut Store<D>,
) -> Reply
    ensures { AsksBy (asked_in on_command (Request.MergeAll None alt.now side settled)) result
        store.old store.new }
{
    if let OnCommand::Refuse = on_command {
        return Reply::ReadOnly;
    }
    let conflicts = match store.conflicts(alloc, alt) {
        Ok(conflicts) => conflicts,
        Err(Refusal::Device) => {
            return reply_to_command(&Command::Merge { alt: *alt, settled }, on_command, store);
        }
        Err(refusal) => return Reply::from_refusal(refusal),
    };
    let Ok(settled) = for_all(alloc, &conflicts, side, settled) else {
        return Reply::Refused(Refusal::Memory);
    };
    reply_to_command(&Command::Merge { alt: *alt, settled }, on_command, store)
}

/// The answer to a command.
pub(crate) fn answered(answer: Result<Answer, Refusal>) -> Reply
    ensures text { reply_text result ≡ answer_text answer }
    ensures last { SessionGoesOn answer result }
    ensures device { answer ≡ Err Refusal.Device → ends_session result ≡ true }
    ensures failed { answer ≡ Err Refusal.Failed → ends_session result ≡ true }
{
    match answer {
        Ok(Answer::Done) => Reply::Done,
        Ok(Answer::Merged(changes)) => Reply::Merged(changes),
        Err(Refusal::Device) => Reply::Last(Refusal::Device),
        Err(refusal) => Reply::from_refusal(refusal),
    }
}
