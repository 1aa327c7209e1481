//! The texts of what is wrong with a line.
ghost use Rattle.std.specs.Prelude.{◌≡◌, ◌+◌, ◌≤◌, ◌++◌, length};
ghost use Rattle.vm_cli.specs.answers.Replies.{form_text as text_of_form, kind_text as text_of_kind, mistake_text};

use crate::answers::text::Text;
use crate::lines::mistake::{LineForm, Mistake, WordKind};

/// Writes which word of a line is wrong, by its place, and what was expected there. No byte of the
/// line is among it.
pub(crate) fn push_mistake(text: &mut Text, mistake: &Mistake)
    requires room { length text.old + 65 ≤ Text.MAX_LEN }
    ensures written { text.new ≡ text.old ++ mistake_text mistake.now }
    ensures short { length text.new ≤ length text.old + 65 }
{
    match mistake {
        Mistake::NoSuchLine => text.push_bytes(b"word 1: there is no such line"),
        Mistake::Takes(form) => {
            text.push_bytes(b"word 1 takes ");
            text.push_bytes(form_text(*form));
        }
        Mistake::Wrong { place, kind } => {
            text.push_bytes(b"word ");
            text.push_number(*place as u64);
            text.push_bytes(b": ");
            text.push_bytes(kind_text(*kind));
        }
    }
}

/// The words that a form takes.
fn form_text(form: LineForm) -> &'static [u8]
    ensures text { result.now ≡ text_of_form form }
    ensures short { length result.now ≤ 26 }
{
    match form {
        LineForm::Bare => b"no other word",
        LineForm::Alt => b"ALT",
        LineForm::AltAndName => b"ALT NAME",
        LineForm::New => b"NAME PARENT [CHECKPOINT]",
        LineForm::Put => b"ALT TABLE NUMBER VALUE",
        LineForm::Remove => b"ALT TABLE NUMBER",
        LineForm::Merge => b"ALT [SETTLEMENT ..]",
        LineForm::Grow => b"BLOCKS",
        LineForm::Get => b"AT TABLE NUMBER",
        LineForm::List => b"AT [TABLE [FIRST LAST]]",
        LineForm::Next => b"AT TABLE NUMBER COUNT",
        LineForm::Diff => b"AT AT [TABLE [FIRST LAST]]",
    }
}

/// What a word of a kind is.
fn kind_text(kind: WordKind) -> &'static [u8]
    ensures text { result.now ≡ text_of_kind kind }
    ensures short { length result.now ≤ 38 }
{
    match kind {
        WordKind::Name => b"NAME is 1 to 32 of A-Za-z0-9_.-",
        WordKind::Parent => b"PARENT is 1 to 32 of A-Za-z0-9_.-",
        WordKind::Checkpoint => b"CHECKPOINT is 1 to 32 of A-Za-z0-9_.-",
        WordKind::Alt => b"ALT is 1 to 32 of A-Za-z0-9_.-",
        WordKind::At => b"AT is ALT, ALT@ or ALT@CHECKPOINT",
        WordKind::Table => b"TABLE is 0 to 65535",
        WordKind::Number => b"NUMBER is 0 to 18446744073709551615",
        WordKind::First => b"FIRST is 0 to 18446744073709551615",
        WordKind::Last => b"LAST is 0 to 18446744073709551615",
        WordKind::Count => b"COUNT is 0 to 4294967295",
        WordKind::Blocks => b"BLOCKS is 0 to 4294967295",
        WordKind::Value => b"VALUE is at most 4,000 bytes, % as %25",
        WordKind::FirstSettlement => b"SETTLEMENT is TABLE:NUMBER=mine|theirs",
        WordKind::Settlement => b"SETTLEMENT is TABLE:NUMBER=mine|theirs",
    }
}
