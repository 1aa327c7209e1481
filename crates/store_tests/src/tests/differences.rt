//! What an alternative changed since its base, and its conflicts with its parent.
use super::script::{ALONE, CACHED, NEW, Row, each};

const ON_BOTH: &[Row] = &[(
    "value that is written again is no change",
    NEW,
    "
        put top 1:1 x
        put top 1:1 x
        new a top
        put a 1:1 x
        changes a -> none",
)];

const IN_MEMORY: &[Row] = &[
    // The base of `top` has no records.
    (
        "changes are listed by rising keys",
        NEW,
        "
        put top 1:2 x
        put top 1:1 x
        new a top
        put top 1:1 z
        put a 1:3 y
        remove a 1:2
        put a 1:1 y
        changes a -> 1:1=x/y 1:2=x/~ 1:3=~/y
        changes top -> 1:1=~/z 1:2=~/x",
    ),
    (
        "conflicts want an alternative with a parent",
        NEW,
        "
        changes nope -> error 1 NoSuchAlternative
        conflicts nope -> error 1 NoSuchAlternative
        conflicts top -> error 6 IsTop
        changes top -> none",
    ),
];

#[test]
fn differences_are_listed(rt: HostRuntime) {
    each(&rt, CACHED, ON_BOTH);
    each(&rt, ALONE, IN_MEMORY);
}
