//! The same line, several times.
ghost use Rattle.std.specs.Prelude.{OnErr, OnOk};
ghost use Rattle.vm_cli.specs.answers.Carried.{Begins, Gains};
ghost use Rattle.vm_cli.specs.answers.Replies.{reply_text};
ghost use Rattle.vm_cli.specs.session.Streams.{repeated};

use crate::answers::lists::make_room;
use crate::answers::output::{WriteFault, flush, put_all};
use crate::answers::reply::Reply;
use crate::answers::text::Text;
use std::io::Write;

/// Writes the line of an answer this many times, and flushes it.
pub(crate) fn put_repeated<W: Write>(
    reply: Reply,
    count: usize,
    text: &mut Text,
    writer: &mut W,
) -> Result<(), WriteFault>
    ensures ok { OnOk result (Gains W.contents (repeated count (reply_text reply)) writer.old writer.new) }
    ensures err { OnErr result (Begins W.contents (repeated count (reply_text reply)) writer.old writer.new) }
{
    text.clear();
    for _ in 0..count {
        make_room(text, writer)?;
        reply.push_onto(text);
    }
    put_all(writer, text.as_bytes())?;
    flush(writer)
}
