//! Commands, except for a merge, whose settlements take memory.
ghost use Rattle.std.specs.Prelude.{◌≡◌};
ghost use Rattle.vm_cli.specs.lines.Requests.{command_of, new_of, put_of};
ghost use Rattle.vm_cli.specs.lines.Spaces.{words_of};

use crate::lines::arguments::{blocks, ends, name, one_name, record, two_names};
use crate::lines::escape::value;
use crate::lines::number::key;
use crate::lines::pieces::first_word;
use vm_types::{Block, Command};

/// The command that the words after the first complete, if it is no merge. The value of a put is
/// lent from its word, or from this buffer if the word spells other bytes than its own.
pub(crate) fn command<'a>(verb: &[u8], rest: &'a [u8], room: &'a mut Block) -> Option<Command<'a>>
    ensures { result ≡ command_of verb.now (words_of rest.now) }
{
    match verb {
        _ if verb == b"put".as_slice() => put(rest, room),
        _ if verb == b"remove".as_slice() => {
            let (alt, key) = record(rest)?;
            Some(Command::Remove { alt, key })
        }
        _ if verb == b"commit".as_slice() => {
            ends(rest)?;
            Some(Command::Commit)
        }
        _ if verb == b"rollback".as_slice() => {
            ends(rest)?;
            Some(Command::Rollback)
        }
        _ if verb == b"reclaim".as_slice() => {
            ends(rest)?;
            Some(Command::Reclaim)
        }
        _ if verb == b"grow".as_slice() => Some(Command::Grow {
            blocks: blocks(rest)?,
        }),
        _ if verb == b"drop".as_slice() => Some(Command::Drop {
            alt: one_name(rest)?,
        }),
        _ if verb == b"post".as_slice() => Some(Command::Post {
            alt: one_name(rest)?,
        }),
        _ if verb == b"new".as_slice() => new(rest),
        _ if verb == b"checkpoint".as_slice() => {
            let (alt, name) = two_names(rest)?;
            Some(Command::Checkpoint { alt, name })
        }
        _ if verb == b"uncheck".as_slice() => {
            let (alt, name) = two_names(rest)?;
            Some(Command::Uncheck { alt, name })
        }
        _ if verb == b"back".as_slice() => {
            let (alt, name) = two_names(rest)?;
            Some(Command::Back { alt, name })
        }
        _ => None,
    }
}

/// `ALT TABLE NUMBER VALUE`
fn put<'a>(rest: &'a [u8], room: &'a mut Block) -> Option<Command<'a>>
    ensures { result ≡ put_of (words_of rest.now) }
{
    let (alt, rest) = first_word(rest)?;
    let (table, rest) = first_word(rest)?;
    let (number, rest) = first_word(rest)?;
    let (word, rest) = first_word(rest)?;
    ends(rest)?;
    let alt = name(alt)?;
    let key = key(table, number)?;
    let value = value(word, room)?;
    Some(Command::Put { alt, key, value })
}

/// `NAME PARENT`, or `NAME PARENT CHECKPOINT`
fn new(rest: &[u8]) -> Option<Command<'static>>
    ensures { result ≡ new_of (words_of rest.now) }
{
    let (first, rest) = first_word(rest)?;
    let (second, rest) = first_word(rest)?;
    let child = name(first)?;
    let parent = name(second)?;
    let Some((third, rest)) = first_word(rest) else {
        return Some(Command::New {
            name: child,
            parent,
        });
    };
    ends(rest)?;
    let checkpoint = name(third)?;
    Some(Command::NewAt {
        name: child,
        parent,
        checkpoint,
    })
}
