//! The plain model by itself: an alternative in conflict with its parent is merged and posted.
use super::BLOCKS;
use super::cast::{alternative, key};
use plain_model::Plain;
use std::alloc::Global;
use std::test::Fail;
use testkit::{Reply, Wrong, top};
use vm_types::{
    Answer, Change, Command, Conflict, Key, Name, Refusal, Settled, Side, Value, ValueRef,
};

fn value(bytes: &[u8]) -> Value {
    Value::new(bytes).unwrap_or_default()
}

fn ring() -> Name {
    alternative(1)
}

fn put(plain: &mut Plain, alt: Name, n: u32, bytes: &[u8]) -> Reply {
    plain.apply(&Command::Put {
        alt,
        key: key(n),
        value: ValueRef::new(bytes).unwrap_or_default(),
    })
}

/// `ring` was made from `top`. Since then both gave the first key another value, and each put a
/// record.
fn forked(alloc: Global) -> Result<Plain, Wrong> {
    let mut plain = Plain::new(alloc, BLOCKS)?;
    put(&mut plain, top(), 0, b"duct")?;
    plain.apply(&Command::New {
        name: ring(),
        parent: top(),
    })?;
    put(&mut plain, top(), 0, b"pipe")?;
    put(&mut plain, top(), 1, b"pipe")?;
    put(&mut plain, ring(), 0, b"tube")?;
    put(&mut plain, ring(), 2, b"tube")?;
    Ok(plain)
}

fn merge(alloc: Global, plain: &mut Plain, sides: &[(Key, Side)]) -> Result<Reply, Wrong> {
    let settled = Settled::from_vec(Vec::from_slice(alloc, sides)?);
    Ok(plain.apply(&Command::Merge {
        alt: ring(),
        settled,
    }))
}

/// Whether these are all changes of `ring`.
fn has_changes(plain: &Plain, expected: &[Change]) -> Result<bool, Wrong> {
    Ok(plain.changes(&ring())?.as_slice() == expected)
}

/// Whether these are all conflicts of `ring`.
fn has_conflicts(plain: &Plain, expected: &[Conflict]) -> Result<bool, Wrong> {
    Ok(plain.conflicts(&ring())?.as_slice() == expected)
}

/// Whether `ring` shows what it put, and that both changed the first key.
fn shows_both_sides(plain: &Plain) -> Result<bool, Wrong> {
    let changed = Change {
        key: key(0),
        before: Some(value(b"duct")),
        after: Some(value(b"tube")),
    };
    let added = Change {
        key: key(2),
        before: None,
        after: Some(value(b"tube")),
    };
    let conflict = Conflict {
        key: key(0),
        base: Some(value(b"duct")),
        parent: Some(value(b"pipe")),
        mine: Some(value(b"tube")),
    };
    Ok(has_changes(plain, &[changed, added])? && has_conflicts(plain, &[conflict])?)
}

/// Whether `ring` shows what both put, with the value of `top` at the first key.
fn shows_the_merge(plain: &Plain) -> Result<bool, Wrong> {
    let added = Change {
        key: key(2),
        before: None,
        after: Some(value(b"tube")),
    };
    let merged = [
        (key(0), value(b"pipe")),
        (key(1), value(b"pipe")),
        (key(2), value(b"tube")),
    ];
    Ok(
        has_changes(plain, &[added])?
            && has_conflicts(plain, &[])?
            && plain.list(&ring())?.as_slice() == merged.as_slice(),
    )
}

/// Whether settlements that do not fit the conflict are refused, and so is a Post before the Merge.
fn refuses(alloc: Global, plain: &mut Plain) -> Result<bool, Wrong> {
    let unsettled = merge(alloc, plain, &[])?;
    let aside = merge(alloc, plain, &[(key(2), Side::Mine)])?;
    let twice = merge(
        alloc,
        plain,
        &[(key(0), Side::Mine), (key(0), Side::Theirs)],
    )?;
    let post = plain.apply(&Command::Post { alt: ring() });
    Ok(
        unsettled == Err(Refusal::Unsettled(1))
            && aside == Err(Refusal::NotInConflict(key(2)))
            && twice == Err(Refusal::SettledTwice(key(0)))
            && post == Err(Refusal::NotMerged),
    )
}

fn merges_and_posts(alloc: Global) -> Result<bool, Wrong> {
    let mut plain = forked(alloc)?;
    if !shows_both_sides(&plain)? || !refuses(alloc, &mut plain)? {
        return Ok(false);
    }
    let merged = merge(alloc, &mut plain, &[(key(0), Side::Theirs)])?;
    if merged != Ok(Answer::Merged(2)) || !shows_the_merge(&plain)? {
        return Ok(false);
    }
    let posted = plain.apply(&Command::Post { alt: ring() });
    Ok(
        posted == Ok(Answer::Done)
            && has_changes(&plain, &[])?
            && plain.get(&top(), key(2)) == Ok(Some(value(b"tube"))),
    )
}

#[test]
fn an_alternative_in_conflict_is_merged_and_posted(rt: HostRuntime) -> Result<(), Fail> {
    assert_eq!(rt; merges_and_posts(rt.alloc()), Ok(true));
    // Only an alternative with a parent has conflicts.
    let plain = forked(rt.alloc())?;
    let (first, absent) = (top(), alternative(2));
    assert!(rt; matches!(plain.conflicts(&first), Err(Refusal::IsTop)));
    assert!(rt; matches!(plain.conflicts(&absent), Err(Refusal::NoSuchAlternative)));
    assert!(rt; matches!(plain.changes(&absent), Err(Refusal::NoSuchAlternative)));
    Ok(())
}
