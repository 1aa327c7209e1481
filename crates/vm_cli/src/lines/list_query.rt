//! Queries that are answered line by line.
ghost use Rattle.std.specs.Prelude.{◌≡◌, option_map};
ghost use Rattle.vm_cli.specs.lines.Requested.{list_for};
ghost use Rattle.vm_cli.specs.lines.Requests.{diff_asked, list_asked, list_of};
ghost use Rattle.vm_cli.specs.lines.Spaces.{words_of};

use crate::lines::arguments::{ends, one_name};
use crate::lines::versions::{at_and_part, ats_and_part, page};
use vm_types::{At, Key, Name};

/// A query that is answered line by line.
#[derive(Clone, Copy)]
pub(crate) enum ListQuery {
    /// All records of a version.
    Records(At),
    /// Those from one key to another, both included.
    Part(At, Key, Key),
    /// The first ones from a key on, at most this many.
    Page(At, Key, u32),
    /// The changes from one version to another.
    Diff(At, At),
    /// Those from one key to another, both included.
    DiffPart(At, At, Key, Key),
    /// All alternatives, with their parents.
    Alternatives,
    /// The checkpoints of an alternative.
    Checkpoints(Name),
    /// What changed in an alternative since its base.
    Changes(Name),
    /// The conflicts of an alternative with its parent.
    Conflicts(Name),
}

/// The query for a list that the words after the first complete.
pub(crate) fn list_query(verb: &[u8], rest: &[u8]) -> Option<ListQuery>
    ensures { option_map list_for result ≡ list_of verb.now (words_of rest.now) }
{
    match verb {
        _ if verb == b"list".as_slice() => {
            let (at, part) = at_and_part(rest)?;
            Some(records(at, part))
        }
        _ if verb == b"next".as_slice() => {
            let (at, low, count) = page(rest)?;
            Some(ListQuery::Page(at, low, count))
        }
        _ if verb == b"diff".as_slice() => {
            let (first, second, part) = ats_and_part(rest)?;
            Some(diff(first, second, part))
        }
        _ if verb == b"alts".as_slice() => {
            ends(rest)?;
            Some(ListQuery::Alternatives)
        }
        _ if verb == b"checks".as_slice() => Some(ListQuery::Checkpoints(one_name(rest)?)),
        _ if verb == b"changes".as_slice() => Some(ListQuery::Changes(one_name(rest)?)),
        _ if verb == b"conflicts".as_slice() => Some(ListQuery::Conflicts(one_name(rest)?)),
        _ => None,
    }
}

/// The query for the records of a version, or of a part of it.
fn records(at: At, part: Option<(Key, Key)>) -> ListQuery
    ensures { list_for result ≡ list_asked (at, part) }
{
    match part {
        None => ListQuery::Records(at),
        Some((low, high)) => ListQuery::Part(at, low, high),
    }
}

/// The query for what differs between two versions, or in a part of them.
fn diff(first: At, second: At, part: Option<(Key, Key)>) -> ListQuery
    ensures { list_for result ≡ diff_asked (first, second, part) }
{
    match part {
        None => ListQuery::Diff(first, second),
        Some((low, high)) => ListQuery::DiffPart(first, second, low, high),
    }
}
