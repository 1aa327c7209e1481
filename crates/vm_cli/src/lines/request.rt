//! What a line asks for.
ghost use Rattle.std.specs.Prelude.{◌≡◌, ◌∷◌, codes, IfOk, OnErr, option_map};
ghost use Rattle.vm_cli.specs.lines.Requested.{asks_for};
ghost use Rattle.vm_cli.specs.lines.Requests.{IsLongMerge, merge_of, query_of, request_of};
ghost use Rattle.vm_cli.specs.lines.Spaces.{words_of};

use crate::lines::arguments::{ends, name, one_name};
use crate::lines::command::command;
use crate::lines::list_query::{ListQuery, list_query};
use crate::lines::mistake::{Mistake, mistake_in};
use crate::lines::pieces::first_word;
use crate::lines::settlement::{first_side, settled};
use crate::lines::versions::record_at;
use std::alloc::{AllocError, Global};
use vm_types::{At, Block, Command, Key, Name, Settled, Side};

/// What a line asks for.
#[derive(Drop)]
pub(crate) enum Request<'a> {
    /// The line has no words, or is a comment.
    Nothing,
    /// The line is none of the known ones, and this is wrong with it.
    Bad(Mistake),
    Command(Command<'a>),
    /// A merge with these settlements, and with this side for each other conflict.
    MergeAll {
        alt: Name,
        side: Side,
        settled: Settled,
    },
    /// The value of a record of a version.
    Get(At, Key),
    /// How far an alternative has gone from its base and from its parent.
    Tally(Name),
    /// The number of free blocks.
    Free,
    /// The number of blocks.
    Blocks,
    /// A query that is answered line by line.
    List(ListQuery),
}

/// What a line asks for. Only the settlements of a merge take memory. The value of a put is lent
/// from the line, or from this buffer.
pub(crate) fn parse_request<'a>(
    alloc: Global,
    line: &'a [u8],
    room: &'a mut Block,
) -> Result<Request<'a>, AllocError>
    ensures asked { IfOk result (λ request. asks_for request ≡ request_of (words_of line.now)) }
    ensures memory { OnErr result (IsLongMerge (words_of line.now)) }
{
    let Some((verb, rest)) = first_word(line) else {
        return Ok(Request::Nothing);
    };
    if verb.first() == Some(&b'#') {
        return Ok(Request::Nothing);
    }
    if let Some(command) = command(verb, rest, room) {
        return Ok(Request::Command(command));
    }
    let asked = if verb == b"merge".as_slice() {
        merge(alloc, rest)?
    } else {
        query(verb, rest)
    };
    match asked {
        Some(request) => Ok(request),
        None => Ok(Request::Bad(mistake_in(verb, rest))),
    }
}

/// `ALT` and settlements, which take memory, the first of which may be for all conflicts.
fn merge(alloc: Global, rest: &[u8]) -> Result<Option<Request<'static>>, AllocError>
    ensures asked { IfOk result (λ merge. option_map asks_for merge ≡ merge_of (words_of rest.now)) }
    ensures memory { OnErr result (IsLongMerge (codes "merge" ∷ words_of rest.now)) }
{
    let Some((word, rest)) = first_word(rest) else {
        return Ok(None);
    };
    let Some(alt) = name(word) else {
        return Ok(None);
    };
    let (side, rest) = match first_side(rest) {
        Some((side, rest)) => (Some(side), rest),
        None => (None, rest),
    };
    let Some(settled) = settled(alloc, rest)? else {
        return Ok(None);
    };
    match side {
        Some(side) => Ok(Some(Request::MergeAll { alt, side, settled })),
        None => Ok(Some(Request::Command(Command::Merge { alt, settled }))),
    }
}

/// The query that the words after the first complete.
fn query(verb: &[u8], rest: &[u8]) -> Option<Request<'static>>
    ensures { option_map asks_for result ≡ query_of verb.now (words_of rest.now) }
{
    match verb {
        _ if verb == b"get".as_slice() => {
            let (at, key) = record_at(rest)?;
            Some(Request::Get(at, key))
        }
        _ if verb == b"tally".as_slice() => Some(Request::Tally(one_name(rest)?)),
        _ if verb == b"free".as_slice() => {
            ends(rest)?;
            Some(Request::Free)
        }
        _ if verb == b"blocks".as_slice() => {
            ends(rest)?;
            Some(Request::Blocks)
        }
        _ => Some(Request::List(list_query(verb, rest)?)),
    }
}
