//! The answer to a line.
ghost use Rattle.std.specs.Prelude.{◌≡◌, ◌≢◌, ◌+◌, ◌≤◌, ◌++◌, length, true, false};

use crate::answers::mistakes::push_mistake;
use crate::answers::text::Text;
use crate::lines::escape;
use crate::lines::mistake::Mistake;
use vm_store::Tally;
use vm_types::{Key, Refusal};

/// The answer to a line.
#[derive(Clone, Copy)]
pub enum Reply {
    /// No further line: the answer is empty, or the text already has all of it.
    Nothing,
    Done,
    /// A merge, with the number of its record changes.
    Merged(usize),
    /// The number of free blocks.
    Free(u32),
    /// The number of blocks.
    Blocks(u32),
    /// How far an alternative is from its base and from its parent.
    Tally(Tally),
    /// The end of a list, with the number of its lines before this one.
    End(usize),
    Refused(Refusal),
    /// A refusal after which the store carries out nothing more. The session ends with it.
    Last(Refusal),
    /// The line is none, and this is wrong with it.
    BadLine(Mistake),
    LongLine,
    /// A command, if the store is only read.
    ReadOnly,
    /// Another line of the batch was refused, the one of this number.
    NotDone(usize),
    /// The batch of this line was forgotten.
    Aborted,
    /// The line is no change, and stands in a batch.
    NotInBatch,
    /// The batch has as many lines or bytes as it may have.
    TooLarge,
    /// The input ended within this line.
    HalfLine,
    /// The commit of the batch was not acknowledged. The session ends with it.
    Unsure,
    /// No planner of this number has joined.
    NoSuchPlanner,
    /// A planner of this number has joined.
    PlannerExists,
}

impl Reply {
    ghost use Rattle.vm_cli.specs.answers.Replies.{ends_session, is_error, reply_text};
    ghost use Rattle.vm_cli.specs.session.Session.{error_text};

    /// Writes the answer as one line, or as no line.
    pub(crate) fn push_onto(&self, text: &mut Text)
        requires { length text.old + 1024 ≤ Text.MAX_LEN }
        ensures { text.new ≡ text.old ++ reply_text self.now }
    {
        match self {
            Reply::Nothing => {}
            Reply::Done => text.push_bytes(b"ok\n"),
            Reply::Merged(changes) => {
                text.push_bytes(b"ok ");
                text.push_number(*changes as u64);
                text.push(b'\n');
            }
            Reply::Free(count) => {
                text.push_bytes(b"free ");
                text.push_number(u64::from(*count));
                text.push(b'\n');
            }
            Reply::Blocks(count) => {
                text.push_bytes(b"blocks ");
                text.push_number(u64::from(*count));
                text.push(b'\n');
            }
            Reply::Tally(tally) => push_tally(text, tally),
            Reply::End(count) => {
                text.push_bytes(b"end ");
                text.push_number(*count as u64);
                text.push(b'\n');
            }
            Reply::Refused(refusal) => push_error(text, refusal),
            Reply::Last(refusal) => push_error(text, refusal),
            Reply::BadLine(mistake) => {
                text.push_bytes(b"error 22 BadLine ");
                push_mistake(text, mistake);
                text.push(b'\n');
            }
            Reply::LongLine => text.push_bytes(b"error 23 LongLine\n"),
            Reply::ReadOnly => text.push_bytes(b"error 24 ReadOnly\n"),
            Reply::NotDone(line) => {
                text.push_bytes(b"error 91 NotDone ");
                text.push_number(*line as u64);
                text.push(b'\n');
            }
            Reply::Aborted => text.push_bytes(b"error 92 Aborted\n"),
            Reply::NotInBatch => text.push_bytes(b"error 93 NotInBatch\n"),
            Reply::TooLarge => text.push_bytes(b"error 94 TooLarge\n"),
            Reply::HalfLine => text.push_bytes(b"error 96 HalfLine\n"),
            Reply::Unsure => text.push_bytes(b"error 101 Unsure\n"),
            Reply::NoSuchPlanner => text.push_bytes(b"error 106 NoSuchPlanner\n"),
            Reply::PlannerExists => text.push_bytes(b"error 107 PlannerExists\n"),
        }
    }

    /// The answer to a line that is refused, if the device did not fail in a command.
    pub(crate) fn from_refusal(refusal: Refusal) -> Reply
        ensures text { reply_text result ≡ error_text refusal }
        ensures last { refusal ≢ Refusal.Failed → ends_session result ≡ false }
        ensures failed { refusal ≡ Refusal.Failed → ends_session result ≡ true }
    {
        match refusal {
            Refusal::Failed => Reply::Last(refusal),
            _ => Reply::Refused(refusal),
        }
    }

    /// Whether the session ends with this answer.
    pub(crate) fn is_last(&self) -> bool
        ensures { result ≡ ends_session self.now }
    {
        match self {
            Reply::Last(_) => true,
            _ => false,
        }
    }

    /// Whether it says that a line was refused.
    pub(crate) fn is_refusal(&self) -> bool
        ensures { result ≡ is_error (reply_text self.now) }
    {
        match self {
            Reply::Nothing => false,
            Reply::Done => false,
            Reply::Merged(_) => false,
            Reply::Free(_) => false,
            Reply::Blocks(_) => false,
            Reply::Tally(_) => false,
            Reply::End(_) => false,
            Reply::Refused(_) => true,
            Reply::Last(_) => true,
            Reply::BadLine(_) => true,
            Reply::LongLine => true,
            Reply::ReadOnly => true,
            Reply::NotDone(_) => true,
            Reply::Aborted => true,
            Reply::NotInBatch => true,
            Reply::TooLarge => true,
            Reply::HalfLine => true,
            Reply::Unsure => true,
            Reply::NoSuchPlanner => true,
            Reply::PlannerExists => true,
        }
    }
}

ghost use Rattle.std.specs.Prelude.{◌∷◌, [], codes, option_copied, IfSome};
ghost use Rattle.vm_types.specs.Bytes.{longest};
ghost use Rattle.vm_types.specs.Texts.{detail_text, key_text, refusal_text};
ghost use Rattle.vm_cli.specs.answers.Replies.{found_text, tally_text};

/// Writes the line of a record's value, or that there is none.
pub(crate) fn push_found(text: &mut Text, found: Option<&[u8]>)
    requires room { length text.old + 12007 ≤ Text.MAX_LEN }
    requires small { IfSome found (λ value. length value.now ≤ longest) }
    ensures written { text.new ≡ text.old ++ found_text (option_copied found.entry) }
    ensures short { length text.new ≤ length text.old + 12007 }
{
    match found {
        None => text.push_bytes(b"none\n"),
        Some(value) => {
            text.push_bytes(b"value ");
            escape::push_spelled(text, value);
            text.push(b'\n');
        }
    }
}

/// Writes the line of a tally.
fn push_tally(text: &mut Text, tally: &Tally)
    requires { length text.old + 200 ≤ Text.MAX_LEN }
    ensures { text.new ≡ text.old ++ tally_text tally.now }
{
    text.push_bytes(b"tally ");
    text.push_number(tally.changed as u64);
    text.push(b' ');
    text.push_number(tally.unmerged as u64);
    text.push(b' ');
    text.push_number(tally.conflicts as u64);
    text.push(b' ');
    if tally.can_post {
        text.push_bytes(b"yes\n");
    } else {
        text.push_bytes(b"no\n");
    }
}

/// Writes the line of a refusal.
fn push_error(text: &mut Text, refusal: &Refusal)
    requires { length text.old + 200 ≤ Text.MAX_LEN }
    ensures { text.new ≡ text.old ++ (codes "error " ++ (refusal_text refusal.now ++ 10 ∷ [])) }
{
    text.push_bytes(b"error ");
    push_refusal(text, refusal);
    text.push(b'\n');
}

/// Writes a refusal: its number, its name, and what it carries.
pub(crate) fn push_refusal(text: &mut Text, refusal: &Refusal)
    requires room { length text.old + 120 ≤ Text.MAX_LEN }
    ensures written { text.new ≡ text.old ++ refusal_text refusal.now }
    ensures short { length text.new ≤ length text.old + 120 }
{
    text.push_number(u64::from(refusal.code()));
    text.push(b' ');
    text.push_bytes(refusal.name().as_bytes());
    push_detail(text, refusal);
}

/// Writes what a refusal carries beside its number and name.
fn push_detail(text: &mut Text, refusal: &Refusal)
    requires room { length text.old + 50 ≤ Text.MAX_LEN }
    ensures written { text.new ≡ text.old ++ detail_text refusal.now }
    ensures short { length text.new ≤ length text.old + 50 }
{
    match refusal {
        Refusal::Unsettled(count) => {
            text.push(b' ');
            text.push_number(*count);
        }
        Refusal::NotInConflict(key) => {
            text.push(b' ');
            push_key(text, *key);
        }
        Refusal::SettledTwice(key) => {
            text.push(b' ');
            push_key(text, *key);
        }
        Refusal::Damaged(block) => {
            text.push(b' ');
            text.push_number(u64::from(*block));
        }
        _ => {}
    }
}

/// Writes a key.
fn push_key(text: &mut Text, key: Key)
    requires room { length text.old + 41 ≤ Text.MAX_LEN }
    ensures written { text.new ≡ text.old ++ key_text key }
    ensures short { length text.new ≤ length text.old + 41 }
{
    text.push_number(u64::from(key.table));
    text.push(b':');
    text.push_number(key.number);
}
