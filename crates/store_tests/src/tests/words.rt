//! What the words of a script mean.
use std::alloc::Global;
use testkit::{Wrong, key, name, number, value};
use vm_types::{At, Command, Key, Of, Settled, Side, Value, ValueRef};

/// A version: `a`, `a@` for its base, or `a@c` for a checkpoint.
pub(super) fn version(word: &str) -> Result<At, Wrong> {
    let Some((alt, behind)) = word.split_once('@') else {
        let (alt, of) = (name(word)?, Of::Current);
        return Ok(At { alt, of });
    };
    let alt = name(alt)?;
    let of = match behind {
        "" => Of::Base,
        checkpoint => Of::Checkpoint(name(checkpoint)?),
    };
    Ok(At { alt, of })
}

/// A key and a side, as in `7:1=mine`.
fn settlement(word: &str) -> Result<(Key, Side), Wrong> {
    let (at, side) = word.split_once('=').ok_or(Wrong::Unreadable)?;
    let side = match side {
        "mine" => Side::Mine,
        "theirs" => Side::Theirs,
        _ => return Err(Wrong::Unreadable),
    };
    Ok((key(at)?, side))
}

fn merge(alloc: Global, alt: &str, settlements: &[&str]) -> Result<Command<'static>, Wrong> {
    let mut sides = Vec::new(alloc);
    for word in settlements {
        let side = settlement(word)?;
        sides.push(side)?;
    }
    Ok(Command::Merge {
        alt: name(alt)?,
        settled: Settled::from_vec(sides),
    })
}

/// The command of these words, if they are one. The value of a Put is lent from `lent`.
pub(super) fn command<'a>(
    alloc: Global,
    words: &[&str],
    lent: &'a mut Value,
) -> Result<Option<Command<'a>>, Wrong> {
    let command = match words {
        ["new", alt, parent] => Command::New {
            name: name(alt)?,
            parent: name(parent)?,
        },
        ["new", alt, parent, saved] => Command::NewAt {
            name: name(alt)?,
            parent: name(parent)?,
            checkpoint: name(saved)?,
        },
        ["drop", alt] => Command::Drop { alt: name(alt)? },
        ["put", alt, at, given] => {
            let (alt, key) = (name(alt)?, key(at)?);
            *lent = value(given)?;
            let value = ValueRef::from(&*lent);
            Command::Put { alt, key, value }
        }
        ["remove", alt, at] => Command::Remove {
            alt: name(alt)?,
            key: key(at)?,
        },
        ["checkpoint", alt, saved] => Command::Checkpoint {
            alt: name(alt)?,
            name: name(saved)?,
        },
        ["uncheck", alt, saved] => Command::Uncheck {
            alt: name(alt)?,
            name: name(saved)?,
        },
        ["back", alt, saved] => Command::Back {
            alt: name(alt)?,
            name: name(saved)?,
        },
        ["merge", alt, settlements @ ..] => merge(alloc, alt, settlements)?,
        ["post", alt] => Command::Post { alt: name(alt)? },
        ["commit"] => Command::Commit,
        ["rollback"] => Command::Rollback,
        ["reclaim"] => Command::Reclaim,
        ["grow", blocks] => Command::Grow {
            blocks: number(blocks)?,
        },
        _ => return Ok(None),
    };
    Ok(Some(command))
}
