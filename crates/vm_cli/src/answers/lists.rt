//! Answers that are lists.
ghost use Rattle.std.specs.Prelude.{◌≡◌, ◌+◌, ◌≤◌, [], length, IfOk, OnErr, OnOk};
ghost use Rattle.vm_cli.specs.answers.Carried.{Begins, GainsBut};
ghost use Rattle.vm_cli.specs.session.Feeds.{RepliesWithList, joined};
ghost use Rattle.vm_cli.specs.session.Known.{written_to};

use crate::answers::listing::Listing;
use crate::answers::output::{WriteFault, put_all};
use crate::answers::reply::Reply;
use crate::answers::text::Text;
use std::io::Write;
use vm_types::Refusal;

/// The maximum length of a line of an answer in bytes.
pub(crate) const LONGEST_LINE: usize = 36_096;

/// Answers a query for a list with its lines, or with the reason why there is none. The text takes
/// the lines except the last one, and what does not fit is written. The last line of the answer is
/// returned.
pub(crate) fn reply_with_list<L: Listing + Drop, W: Write>(
    list: Result<L, Refusal>,
    text: &mut Text,
    writer: &mut W,
) -> Result<Reply, WriteFault>
    requires { text.old ≡ [] }
    ensures room { OnOk result (length text.new + 1024 ≤ Text.MAX_LEN) }
    ensures list { RepliesWithList L.lines list result (written_to W.contents writer.old writer.new) text.new }
{
    match list {
        Ok(list) => write_list(&list, text, writer),
        Err(refusal) => Ok(Reply::from_refusal(refusal)),
    }
}

/// Writes the lines of a list, except those that the text still has room for, and returns its end.
fn write_list<L: Listing, W: Write>(
    list: &L,
    text: &mut Text,
    writer: &mut W,
) -> Result<Reply, WriteFault>
    requires { text.old ≡ [] }
    ensures room { OnOk result (length text.new + 1024 ≤ Text.MAX_LEN) }
    ensures reply { IfOk result (λ reply. reply ≡ Reply.End (length (L.lines list.now))) }
    ensures ok { OnOk result (GainsBut W.contents text.new (joined (L.lines list.now)) writer.old writer.new) }
    ensures err { OnErr result (Begins W.contents (joined (L.lines list.now)) writer.old writer.new) }
{
    let count = list.count();
    for i in 0..count {
        make_room(text, writer)?;
        list.push_line(i, text);
    }
    make_room(text, writer)?;
    Ok(Reply::End(count))
}

/// Makes room in the text for one more line. If it has too much, that is written.
pub(crate) fn make_room<W: Write>(text: &mut Text, writer: &mut W) -> Result<(), WriteFault>
    ensures room { OnOk result (length text.new + LONGEST_LINE ≤ Text.MAX_LEN) }
    ensures ok { OnOk result (GainsBut W.contents text.new text.old writer.old writer.new) }
    ensures err { OnErr result (Begins W.contents text.old writer.old writer.new) }
{
    if text.as_bytes().len() > Text::MAX_LEN - LONGEST_LINE {
        put_all(writer, text.as_bytes())?;
        text.clear();
    }
    Ok(())
}
