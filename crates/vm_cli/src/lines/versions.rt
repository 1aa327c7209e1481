//! Words that name versions.
ghost use Rattle.std.specs.Prelude.{◌≡◌, ◌∷◌, [], Some, option_map};
ghost use Rattle.vm_cli.specs.lines.Names.{at_of, meant_behind};
ghost use Rattle.vm_cli.specs.lines.Requests.{at_part_of, ats_part_of, page_of, part_of, record_at_of};
ghost use Rattle.vm_cli.specs.lines.Spaces.{words_of};

use crate::lines::arguments::{ends, name};
use crate::lines::number::{key, number};
use crate::lines::pieces::{first_piece, first_word};
use vm_types::{At, Key, Of};

/// `AT TABLE NUMBER`
pub(crate) fn record_at(rest: &[u8]) -> Option<(At, Key)>
    ensures { result ≡ record_at_of (words_of rest.now) }
{
    let (version, rest) = first_word(rest)?;
    let (table, rest) = first_word(rest)?;
    let (number, rest) = first_word(rest)?;
    ends(rest)?;
    let version = at(version)?;
    let key = key(table, number)?;
    Some((version, key))
}

/// `AT`, `AT TABLE` or `AT TABLE FIRST LAST`: the version, and the first and the last key of the
/// part, if the words give one.
pub(crate) fn at_and_part(rest: &[u8]) -> Option<(At, Option<(Key, Key)>)>
    ensures { result ≡ at_part_of (words_of rest.now) }
{
    let (version, rest) = first_word(rest)?;
    let version = at(version)?;
    let part = part(rest)?;
    Some((version, part))
}

/// `AT AT`, `AT AT TABLE` or `AT AT TABLE FIRST LAST`
pub(crate) fn ats_and_part(rest: &[u8]) -> Option<(At, At, Option<(Key, Key)>)>
    ensures { result ≡ ats_part_of (words_of rest.now) }
{
    let (first, rest) = first_word(rest)?;
    let (second, rest) = first_word(rest)?;
    let first = at(first)?;
    let second = at(second)?;
    let part = part(rest)?;
    Some((first, second, part))
}

/// `AT TABLE NUMBER COUNT`
pub(crate) fn page(rest: &[u8]) -> Option<(At, Key, u32)>
    ensures { result ≡ page_of (words_of rest.now) }
{
    let (version, rest) = first_word(rest)?;
    let (table, rest) = first_word(rest)?;
    let (first, rest) = first_word(rest)?;
    let (count, rest) = first_word(rest)?;
    ends(rest)?;
    let version = at(version)?;
    let first = key(table, first)?;
    let count = number(count, 4_294_967_295)?;
    Some((version, first, count as u32))
}

/// The first and the last key of a part: no word, `TABLE` or `TABLE FIRST LAST`.
fn part(rest: &[u8]) -> Option<Option<(Key, Key)>>
    ensures { result ≡ part_of (words_of rest.now) }
{
    let Some((table, rest)) = first_word(rest) else {
        return Some(None);
    };
    let Some((first, rest)) = first_word(rest) else {
        let keys = table_keys(table)?;
        return Some(Some(keys));
    };
    let (last, rest) = first_word(rest)?;
    ends(rest)?;
    let low = key(table, first)?;
    let high = key(table, last)?;
    Some(Some((low, high)))
}

/// The first and the last key that a table may have.
fn table_keys(table: &[u8]) -> Option<(Key, Key)>
    ensures { option_map Some result ≡ part_of (table.now ∷ []) }
{
    let table = number(table, 65_535)? as u16;
    let low = Key { table, number: 0 };
    let high = Key {
        table,
        number: u64::MAX,
    };
    Some((low, high))
}

/// The version that a word names: `ALT`, `ALT@` or `ALT@CHECKPOINT`.
pub(crate) fn at(word: &[u8]) -> Option<At>
    ensures { result ≡ at_of word.now }
{
    let (before, behind) = first_piece(word, b'@');
    let alt = name(before)?;
    if before.len() == word.len() {
        return Some(At {
            alt,
            of: Of::Current,
        });
    }
    let of = meant(behind)?;
    Some(At { alt, of })
}

/// The records that the text after the `@` names.
fn meant(behind: &[u8]) -> Option<Of>
    ensures { result ≡ meant_behind behind.now }
{
    if behind.is_empty() {
        return Some(Of::Base);
    }
    let checkpoint = name(behind)?;
    Some(Of::Checkpoint(checkpoint))
}
