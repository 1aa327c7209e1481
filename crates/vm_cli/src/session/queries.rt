//! Queries. The text takes an answer, or the lines of a list except the last one. What does not fit
//! is written, and the last line of the answer is returned.
ghost use Rattle.std.specs.Prelude.{◌≡◌, []};
ghost use Rattle.vm_cli.specs.lines.Asking.{Request};
ghost use Rattle.vm_cli.specs.session.Feeds.{AsksInto, QueriesBy, QueriesWith};
ghost use Rattle.vm_cli.specs.session.Known.{written_to};
ghost use Rattle.vm_cli.specs.lines.Requested.{list_for};

use crate::answers::lists::reply_with_list;
use crate::answers::output::WriteFault;
use crate::answers::reply::{Reply, push_found};
use crate::answers::text::Text;
use crate::lines::list_query::ListQuery;
use std::alloc::Global;
use std::io::Write;
use vm_disk::Disk;
use vm_store::Store;
use vm_types::{At, Key, Name};

/// Answers a query for the value of a record. The text takes the answer, unless it is a refusal.
#[inline(never)]
pub(crate) fn get<D: Disk>(
    at: &At,
    key: Key,
    text: &mut Text,
    room: &mut [u8; 4096],
    store: &mut Store<D>,
) -> Reply
    requires { text.old ≡ [] }
    ensures { QueriesWith (Request.Get at.now key) result text.new store.old store.new }
{
    match store.look_at(at, key, room) {
        Ok(found) => {
            push_found(text, found);
            Reply::Nothing
        }
        Err(refusal) => Reply::from_refusal(refusal),
    }
}

/// Answers a query for the numbers of an alternative.
#[inline(never)]
pub(crate) fn tally<D: Disk>(alloc: Global, alt: &Name, store: &mut Store<D>) -> Reply
    ensures { QueriesBy (Request.Tally alt.now) result store.old store.new }
{
    match store.tally(alloc, alt) {
        Ok(numbers) => Reply::Tally(numbers),
        Err(refusal) => Reply::from_refusal(refusal),
    }
}

/// Answers a query for the number of free blocks.
pub(crate) fn free<D: Disk>(store: &Store<D>) -> Reply
    ensures { QueriesBy Request.Free result store.now store.now }
{
    match store.free() {
        Ok(count) => Reply::Free(count),
        Err(refusal) => Reply::from_refusal(refusal),
    }
}

/// Answers a query for the number of blocks.
pub(crate) fn blocks<D: Disk>(store: &Store<D>) -> Reply
    ensures { QueriesBy Request.Blocks result store.now store.now }
{
    match store.blocks() {
        Ok(count) => Reply::Blocks(count),
        Err(refusal) => Reply::from_refusal(refusal),
    }
}

/// Answers a query line by line.
#[inline(never)]
pub(crate) fn reply_to_list<W: Write, D: Disk>(
    query: &ListQuery,
    alloc: Global,
    text: &mut Text,
    writer: &mut W,
    store: &mut Store<D>,
) -> Result<Reply, WriteFault>
    requires { text.old ≡ [] }
    ensures { AsksInto (list_for query.now) result store.old store.new
        (written_to W.contents writer.old writer.new) text.new }
{
    match query {
        ListQuery::Records(at) => reply_with_list(store.list_at(alloc, at), text, writer),
        ListQuery::Part(at, low, high) => {
            reply_with_list(store.list_part(alloc, at, *low, *high), text, writer)
        }
        ListQuery::Page(at, low, count) => {
            reply_with_list(store.list_from(alloc, at, *low, *count), text, writer)
        }
        ListQuery::Diff(first, second) => {
            reply_with_list(store.diff(alloc, first, second), text, writer)
        }
        ListQuery::DiffPart(first, second, low, high) => {
            let diff = store.diff_part(alloc, first, second, *low, *high);
            reply_with_list(diff, text, writer)
        }
        ListQuery::Alternatives => reply_with_list(store.alternatives(alloc), text, writer),
        ListQuery::Checkpoints(alt) => reply_with_list(store.checkpoints(alloc, alt), text, writer),
        ListQuery::Changes(alt) => reply_with_list(store.changes(alloc, alt), text, writer),
        ListQuery::Conflicts(alt) => reply_with_list(store.conflicts(alloc, alt), text, writer),
    }
}
