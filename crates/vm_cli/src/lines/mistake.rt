//! What is wrong with a line that is none.
ghost use Rattle.std.specs.Prelude.{◌≡◌, length};
ghost use Rattle.vm_cli.specs.lines.Mistakes.{command_form as command_form_of, first_wrong, form_of, is_of, kinds_of, mistake_of, query_form as query_form_of, takes as takes_words};
ghost use Rattle.vm_cli.specs.lines.Spaces.{words_of};

use crate::lines::arguments::name;
use crate::lines::escape::value;
use crate::lines::number::number;
use crate::lines::pieces::first_word;
use crate::lines::settlement::{settlement, side_for_all};
use crate::lines::versions::at;

/// A kind of word, by the name that the forms of lines give it.
#[derive(Clone, Copy)]
pub enum WordKind {
    Name,
    Parent,
    Checkpoint,
    Alt,
    /// A version.
    At,
    Table,
    Number,
    First,
    Last,
    Count,
    Blocks,
    Value,
    /// A settlement, which may be for all conflicts.
    FirstSettlement,
    Settlement,
}

/// The words that a line has after its first one.
#[derive(Clone, Copy)]
pub enum LineForm {
    /// None.
    Bare,
    Alt,
    AltAndName,
    New,
    Put,
    Remove,
    Merge,
    Grow,
    Get,
    List,
    Next,
    Diff,
}

/// What is wrong with a line that is none.
#[derive(Clone, Copy)]
pub enum Mistake {
    /// No line begins with its first word.
    NoSuchLine,
    /// It has too few words or too many: these are those that its first one takes.
    Takes(LineForm),
    /// The word at this place, where the first one is at 1, is not of this kind.
    Wrong { place: usize, kind: WordKind },
}

/// What is wrong with a line that is none: that its first word begins no line, or else the number
/// of its words, or else the first one that is not what was expected there.
pub(crate) fn mistake_in(verb: &[u8], rest: &[u8]) -> Mistake
    ensures { result ≡ mistake_of verb.now (words_of rest.now) }
{
    let Some(form) = form(verb) else {
        return Mistake::NoSuchLine;
    };
    if takes(form, count(rest)) {
        return wrong_word(form, rest);
    }
    Mistake::Takes(form)
}

/// The first word that is not of its kind.
fn wrong_word(form: LineForm, words: &[u8]) -> Mistake
    ensures { result ≡ first_wrong form 2 (kinds_of form) (words_of words.now) }
{
    let mut kinds = kinds(form);
    let mut place = 2;
    let mut rest = words;
    while let Some((word, after)) = first_word(rest) {
        let (kind, others) = match kinds.split_first() {
            Some((kind, others)) => (*kind, others),
            None => (WordKind::Settlement, kinds),
        };
        if !is_one(kind, word) {
            return Mistake::Wrong { place, kind };
        }
        kinds = others;
        place += 1;
        rest = after;
    }
    Mistake::Takes(form)
}

/// The number of words.
fn count(line: &[u8]) -> usize
    ensures { result ≡ length (words_of line.now) }
{
    let mut count = 0;
    let mut rest = line;
    while let Some((_, after)) = first_word(rest) {
        count += 1;
        rest = after;
    }
    count
}

/// Whether a word is of a kind.
fn is_one(kind: WordKind, word: &[u8]) -> bool
    ensures { result ≡ is_of kind word.now }
{
    match kind {
        WordKind::Name => name(word).is_some(),
        WordKind::Parent => name(word).is_some(),
        WordKind::Checkpoint => name(word).is_some(),
        WordKind::Alt => name(word).is_some(),
        WordKind::At => at(word).is_some(),
        WordKind::Table => number(word, 65_535).is_some(),
        WordKind::Number => number(word, u64::MAX).is_some(),
        WordKind::First => number(word, u64::MAX).is_some(),
        WordKind::Last => number(word, u64::MAX).is_some(),
        WordKind::Count => number(word, 4_294_967_295).is_some(),
        WordKind::Blocks => number(word, 4_294_967_295).is_some(),
        WordKind::Value => is_value(word),
        WordKind::FirstSettlement => side_for_all(word).is_some() || settlement(word).is_some(),
        WordKind::Settlement => settlement(word).is_some(),
    }
}

/// Whether a word spells a value, in a stack frame that has a buffer for one.
#[inline(never)]
fn is_value(word: &[u8]) -> bool
    ensures { result ≡ is_of WordKind.Value word.now }
{
    value(word, &mut [0; 4096]).is_some()
}

/// The kinds of the words that a form takes.
fn kinds(form: LineForm) -> &'static [WordKind]
    ensures { result.now ≡ kinds_of form }
{
    match form {
        LineForm::Bare => &[],
        LineForm::Alt => &[WordKind::Alt],
        LineForm::AltAndName => &[WordKind::Alt, WordKind::Name],
        LineForm::New => &[WordKind::Name, WordKind::Parent, WordKind::Checkpoint],
        LineForm::Put => &[
            WordKind::Alt,
            WordKind::Table,
            WordKind::Number,
            WordKind::Value,
        ],
        LineForm::Remove => &[WordKind::Alt, WordKind::Table, WordKind::Number],
        LineForm::Merge => &[WordKind::Alt, WordKind::FirstSettlement],
        LineForm::Grow => &[WordKind::Blocks],
        LineForm::Get => &[WordKind::At, WordKind::Table, WordKind::Number],
        LineForm::List => &[
            WordKind::At,
            WordKind::Table,
            WordKind::First,
            WordKind::Last,
        ],
        LineForm::Next => &[
            WordKind::At,
            WordKind::Table,
            WordKind::Number,
            WordKind::Count,
        ],
        LineForm::Diff => &[
            WordKind::At,
            WordKind::At,
            WordKind::Table,
            WordKind::First,
            WordKind::Last,
        ],
    }
}

/// Whether a form takes that many words.
fn takes(form: LineForm, count: usize) -> bool
    ensures { result ≡ takes_words form count }
{
    match form {
        LineForm::Bare => count == 0,
        LineForm::Alt => count == 1,
        LineForm::AltAndName => count == 2,
        LineForm::New => count == 2 || count == 3,
        LineForm::Put => count == 4,
        LineForm::Remove => count == 3,
        LineForm::Merge => count >= 1,
        LineForm::Grow => count == 1,
        LineForm::Get => count == 3,
        LineForm::List => count == 1 || count == 2 || count == 4,
        LineForm::Next => count == 4,
        LineForm::Diff => count == 2 || count == 3 || count == 5,
    }
}

/// The form of a line, by its first word.
fn form(verb: &[u8]) -> Option<LineForm>
    ensures { result ≡ form_of verb.now }
{
    match command_form(verb) {
        Some(form) => Some(form),
        None => query_form(verb),
    }
}

/// The form of a command, by its first word.
fn command_form(verb: &[u8]) -> Option<LineForm>
    ensures { result ≡ command_form_of verb.now }
{
    match verb {
        _ if verb == b"put".as_slice() => Some(LineForm::Put),
        _ if verb == b"merge".as_slice() => Some(LineForm::Merge),
        _ if verb == b"remove".as_slice() => Some(LineForm::Remove),
        _ if verb == b"commit".as_slice() => Some(LineForm::Bare),
        _ if verb == b"rollback".as_slice() => Some(LineForm::Bare),
        _ if verb == b"reclaim".as_slice() => Some(LineForm::Bare),
        _ if verb == b"grow".as_slice() => Some(LineForm::Grow),
        _ if verb == b"drop".as_slice() => Some(LineForm::Alt),
        _ if verb == b"post".as_slice() => Some(LineForm::Alt),
        _ if verb == b"new".as_slice() => Some(LineForm::New),
        _ if verb == b"checkpoint".as_slice() => Some(LineForm::AltAndName),
        _ if verb == b"uncheck".as_slice() => Some(LineForm::AltAndName),
        _ if verb == b"back".as_slice() => Some(LineForm::AltAndName),
        _ => None,
    }
}

/// The form of a query, by its first word.
fn query_form(verb: &[u8]) -> Option<LineForm>
    ensures { result ≡ query_form_of verb.now }
{
    match verb {
        _ if verb == b"get".as_slice() => Some(LineForm::Get),
        _ if verb == b"tally".as_slice() => Some(LineForm::Alt),
        _ if verb == b"free".as_slice() => Some(LineForm::Bare),
        _ if verb == b"blocks".as_slice() => Some(LineForm::Bare),
        _ if verb == b"list".as_slice() => Some(LineForm::List),
        _ if verb == b"next".as_slice() => Some(LineForm::Next),
        _ if verb == b"diff".as_slice() => Some(LineForm::Diff),
        _ if verb == b"alts".as_slice() => Some(LineForm::Bare),
        _ if verb == b"checks".as_slice() => Some(LineForm::Alt),
        _ if verb == b"changes".as_slice() => Some(LineForm::Alt),
        _ if verb == b"conflicts".as_slice() => Some(LineForm::Alt),
        _ => None,
    }
}
