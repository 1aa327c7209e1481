//! What a line is in a session with batches.
ghost use Rattle.std.specs.Prelude.{◌≡◌, ℕ, List};
ghost use Rattle.vm_cli.specs.lines.Input.{HoldsLine};
ghost use Rattle.vm_cli.specs.session.LineUses.{IsUse, IsUseOfWords, change_use, is_alone as alone_in, use_of_request as request_use};
ghost use Rattle.vm_cli.specs.lines.Requested.{asks_for};
ghost use Rattle.vm_cli.specs.lines.Spaces.{words_of};

use crate::answers::reply::Reply;
use crate::lines::arguments::ends;
use crate::lines::line::{Line, LineKind};
use crate::lines::pieces::first_word;
use crate::lines::request::{Request, parse_request};
use crate::session::OnCommand;
use std::alloc::{AllocError, Global};
use vm_types::{Block, Command, Refusal};

/// What a line is in a session with batches.
#[derive(Clone, Copy)]
pub enum LineUse {
    /// It has no words, or is a comment.
    Nothing,
    /// It begins a batch.
    Begin,
    /// It ends a batch, which is then carried out.
    Commit,
    /// It ends a batch, which is then forgotten.
    Abort,
    /// It changes the store.
    Change,
    /// It asks the store for something.
    Query,
    /// It is refused so, wherever it stands.
    Refused(Reply),
}

/// What a line is. Only the settlements of a merge take memory, and the value of a put may be read
/// into this buffer.
pub(crate) fn use_of(alloc: Global, line: &Line, on_command: OnCommand, room: &mut Block) -> LineUse
    ensures used { (part : List ℕ) → HoldsLine line.now part → IsUse on_command part result }
    ensures kept { result ≡ LineUse.Change → line.now.kind ≡ LineKind.Kept }
{
    match line.kind {
        LineKind::Long => LineUse::Refused(Reply::LongLine),
        LineKind::NoMemory => LineUse::Refused(Reply::Refused(Refusal::Memory)),
        LineKind::Kept => use_of_words(alloc, line.text(), on_command, room),
    }
}

/// What a line of these bytes is.
fn use_of_words(alloc: Global, line: &[u8], on_command: OnCommand, room: &mut Block) -> LineUse
    ensures { IsUseOfWords on_command (words_of line.now) result }
{
    if is_alone(line, b"begin") {
        return LineUse::Begin;
    }
    if is_alone(line, b"abort") {
        return LineUse::Abort;
    }
    match parse_request(alloc, line, room) {
        Ok(request) => use_of_request(&request, on_command),
        Err(AllocError) => LineUse::Refused(Reply::Refused(Refusal::Memory)),
    }
}

/// Whether this is the only word of a line.
fn is_alone(line: &[u8], word: &[u8]) -> bool
    ensures { result ≡ alone_in word.now (words_of line.now) }
{
    match first_word(line) {
        Some((first, rest)) => first == word && ends(rest).is_some(),
        None => false,
    }
}

/// What a line is that asks for this.
fn use_of_request(request: &Request<'_>, on_command: OnCommand) -> LineUse
    ensures { result ≡ request_use on_command (asks_for request.now) }
{
    match request {
        Request::Nothing => LineUse::Nothing,
        Request::Bad(mistake) => LineUse::Refused(Reply::BadLine(*mistake)),
        Request::Command(Command::Commit) => LineUse::Commit,
        Request::Command(Command::Rollback) => LineUse::Abort,
        Request::Command(_) => change(on_command),
        Request::MergeAll { .. } => change(on_command),
        _ => LineUse::Query,
    }
}

/// What a line is that changes the store, if commands are not refused.
fn change(on_command: OnCommand) -> LineUse
    ensures { result ≡ change_use on_command }
{
    match on_command {
        OnCommand::Refuse => LineUse::Refused(Reply::ReadOnly),
        _ => LineUse::Change,
    }
}
