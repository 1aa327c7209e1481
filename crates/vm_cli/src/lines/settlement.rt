//! Settlements in lines.
ghost use Rattle.std.specs.Prelude.{◌≡◌, ◌≢◌, [], IfOk, MatchOption, OnErr};
ghost use Rattle.vm_cli.specs.lines.Settlements.{SaysNoSide, SaysSide, for_all as settled_for_all, for_others as settled_for_others, is_settled as has_settlement, settled_of, settlement_of, side_for_all as side_for_all_of, side_of};
ghost use Rattle.vm_cli.specs.lines.Spaces.{words_of};

use crate::lines::number;
use crate::lines::pieces::{first_piece, first_word};
use std::alloc::{AllocError, Global};
use std::cmp::Ordering;
use vm_types::{Conflicts, Key, Settled, Side};

/// The settlements that all words of a line spell, in order.
pub(crate) fn settled(alloc: Global, line: &[u8]) -> Result<Option<Settled>, AllocError>
    ensures words { IfOk result (λ settled. settled ≡ settled_of (words_of line.now)) }
    ensures memory { OnErr result (words_of line.now ≢ []) }
{
    let mut sides = Vec::new(alloc);
    let mut rest = line;
    while let Some((word, after)) = first_word(rest) {
        let Some(side) = settlement(word) else {
            return Ok(None);
        };
        sides.push(side)?;
        rest = after;
    }
    Ok(Some(Settled::from_vec(sides)))
}

/// The side for all conflicts that the first word of a line spells, `all=SIDE`, and what stands after it.
pub(crate) fn first_side(line: &[u8]) -> Option<(Side, &[u8])>
    ensures { MatchOption result (SaysNoSide (words_of line.now))
        (λ p. SaysSide p.0 (words_of p.1.now) (words_of line.now)) }
{
    let (word, after) = first_word(line)?;
    let side = side_for_all(word)?;
    Some((side, after))
}

/// The side for all conflicts that a word spells: `all=SIDE`.
pub(crate) fn side_for_all(word: &[u8]) -> Option<Side>
    ensures { result ≡ side_for_all_of word.now }
{
    let (all, rest) = first_piece(word, b'=');
    if all == b"all".as_slice() {
        return side(rest);
    }
    None
}

/// These settlements, and after them one by this side for each other conflict.
pub(crate) fn for_all(
    alloc: Global,
    conflicts: &Conflicts,
    side: Side,
    settled: Settled,
) -> Result<Settled, AllocError>
    ensures { IfOk result (λ all. all ≡ settled_for_all side settled conflicts.now) }
{
    let mut sides = settled.into_vec();
    let others = for_others(alloc, conflicts, side, &sides)?;
    sides.extend_from_slice(&others)?;
    Ok(Settled::from_vec(sides))
}

/// A settlement by this side for each conflict that has none of these settlements.
fn for_others(
    alloc: Global,
    conflicts: &Conflicts,
    side: Side,
    settled: &[(Key, Side)],
) -> Result<Vec<(Key, Side)>, AllocError>
    ensures { IfOk result (λ others. others.items ≡ settled_for_others side settled.now conflicts.now) }
{
    let mut others = Vec::new(alloc);
    for i in 0..conflicts.len() {
        let key = conflicts.key(i);
        if !is_settled(settled, key) {
            others.push((key, side))?;
        }
    }
    Ok(others)
}

/// Whether a key has one of these settlements.
fn is_settled(settled: &[(Key, Side)], key: Key) -> bool
    ensures { result ≡ has_settlement settled.now key }
{
    settled
        .iter()
        .any(|side| key.cmp(&side.0) == Ordering::Equal)
}

/// The settlement that a word spells: `TABLE:NUMBER=SIDE`.
pub(crate) fn settlement(word: &[u8]) -> Option<(Key, Side)>
    ensures { result ≡ settlement_of word.now }
{
    let (table, rest) = first_piece(word, b':');
    let (number, rest) = first_piece(rest, b'=');
    let key = number::key(table, number)?;
    let side = side(rest)?;
    Some((key, side))
}

/// The side that a word names.
fn side(word: &[u8]) -> Option<Side>
    ensures { result ≡ side_of word.now }
{
    if word == b"mine".as_slice() {
        return Some(Side::Mine);
    }
    if word == b"theirs".as_slice() {
        return Some(Side::Theirs);
    }
    None
}
