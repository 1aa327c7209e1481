//! What follows the first word of a line.
ghost use Rattle.std.specs.Prelude.{◌≡◌, [], option_map, MatchOption};
ghost use Rattle.vm_types.specs.declared.command.Command.TheVariants.{Grow};
ghost use Rattle.vm_cli.specs.lines.Names.{name_of};
ghost use Rattle.vm_cli.specs.lines.Requests.{grow_of, named_of, names_of, record_of};
ghost use Rattle.vm_cli.specs.lines.Spaces.{HasWord, words_of};

use crate::lines::number::{key, number};
use crate::lines::pieces::first_word;
use vm_types::{Key, Name};

/// `BLOCKS`
pub(crate) fn blocks(rest: &[u8]) -> Option<u32>
    ensures { option_map Grow result ≡ grow_of (words_of rest.now) }
{
    let (blocks, rest) = first_word(rest)?;
    ends(rest)?;
    let blocks = number(blocks, 4_294_967_295)?;
    Some(blocks as u32)
}

/// `ALT TABLE NUMBER`
pub(crate) fn record(rest: &[u8]) -> Option<(Name, Key)>
    ensures { result ≡ record_of (words_of rest.now) }
{
    let (alt, rest) = first_word(rest)?;
    let (table, rest) = first_word(rest)?;
    let (number, rest) = first_word(rest)?;
    ends(rest)?;
    let alt = name(alt)?;
    let key = key(table, number)?;
    Some((alt, key))
}

/// `NAME`
pub(crate) fn one_name(rest: &[u8]) -> Option<Name>
    ensures { result ≡ named_of (words_of rest.now) }
{
    let (word, rest) = first_word(rest)?;
    ends(rest)?;
    name(word)
}

/// `NAME NAME`
pub(crate) fn two_names(rest: &[u8]) -> Option<(Name, Name)>
    ensures { result ≡ names_of (words_of rest.now) }
{
    let (first, rest) = first_word(rest)?;
    let (second, rest) = first_word(rest)?;
    ends(rest)?;
    let first = name(first)?;
    let second = name(second)?;
    Some((first, second))
}

/// The name that a word is.
pub(crate) fn name(word: &[u8]) -> Option<Name>
    ensures { result ≡ name_of word.now }
{
    Name::new(word)
}

/// No word is left.
pub(crate) fn ends(rest: &[u8]) -> Option<()>
    ensures { MatchOption result (HasWord rest.now) (λ _. words_of rest.now ≡ []) }
{
    match first_word(rest) {
        None => Some(()),
        Some(_) => None,
    }
}
