//! Alternatives and checkpoints.
use super::script::{ALONE, CACHED, NEW, Row, each};

const ON_BOTH: &[Row] = &[
    (
        "commands on alternatives are refused in their order",
        NEW,
        "
        new a top
        new b a
        drop a -> error 7 HasChildren
        drop top -> error 6 IsTop
        drop nope -> error 1 NoSuchAlternative
        new a nope -> error 1 NoSuchAlternative
        new a top -> error 2 AlternativeExists
        drop b
        drop a
        get a 1:1 -> error 1 NoSuchAlternative",
    ),
    (
        "commands on checkpoints are refused in their order",
        NEW,
        "
        new a top
        back a q -> error 3 NoSuchCheckpoint
        checkpoint a c
        checkpoint a c -> error 4 CheckpointExists
        uncheck top c -> error 3 NoSuchCheckpoint
        checkpoint top c
        uncheck a c
        uncheck a c -> error 3 NoSuchCheckpoint
        back top c
        checkpoint c c -> error 1 NoSuchAlternative
        uncheck c c -> error 1 NoSuchAlternative
        back c c -> error 1 NoSuchAlternative",
    ),
    // Opening makes 4 device calls, and the Commit 19.
    (
        "five hundred and eleven entries are the most",
        "",
        "
        format 64
        anew
        open
        checkpoints top 510
        checkpoint top more -> error 12 TooMany
        new a top -> error 12 TooMany
        commit
        close
        calls -> 23
        anew
        open
        checkpoint top k510 -> error 4 CheckpointExists
        uncheck top k077
        new a top",
    ),
    (
        "alternatives are listed in order of creation",
        NEW,
        "
        alts -> top
        new b top
        checkpoint b c
        new a b
        new d top
        alts -> top b<top a<b d<top
        drop a
        new a d
        alts -> top b<top d<top a<d",
    ),
];

const IN_MEMORY: &[Row] = &[
    (
        "alternatives show what their parent had",
        NEW,
        "
        put top 1:1 x
        new a top
        get a 1:1 -> x
        put top 1:1 z
        get a 1:1 -> x
        put a 1:1 y
        get a 1:1 -> y
        get top 1:1 -> z",
    ),
    (
        "back shows the records of the checkpoint",
        NEW,
        "
        new a top
        checkpoint a c
        put a 1:1 x
        checkpoint a d
        back a c
        get a 1:1 -> ~
        back a d
        get a 1:1 -> x
        back a c",
    ),
    (
        "versions are read and compared",
        NEW,
        "
        put top 1:1 x
        new a top
        put a 1:1 y
        checkpoint a c
        put a 1:2 z
        get_at a 1:1 -> y
        get_at a@ 1:1 -> x
        get_at a@c 1:2 -> ~
        look_at a@c 1:1 -> y
        look_at top@ 1:1 -> ~
        list_at a@ -> 1:1=x
        list_at a@c -> 1:1=y
        list_at a -> 1:1=y 1:2=z
        diff a@ a -> 1:1=x/y 1:2=~/z
        diff a a@ -> 1:1=y/x 1:2=z/~
        diff a@c a -> 1:2=~/z
        diff top a@ -> none
        get_at b@q 1:1 -> error 1 NoSuchAlternative
        look_at a@q 1:1 -> error 3 NoSuchCheckpoint
        list_at top@c -> error 3 NoSuchCheckpoint
        diff b a@q -> error 1 NoSuchAlternative
        diff a@q b -> error 3 NoSuchCheckpoint",
    ),
    (
        "parts of versions are read and compared",
        NEW,
        "
        put top 1:1 x
        put top 1:9 x
        put top 2:0 x
        new a top
        put a 1:1 y
        checkpoint a c
        put a 1:5 z
        remove a 2:0
        list_part a 1:1 1:9 -> 1:1=y 1:5=z 1:9=x
        list_part a 1:2 1:8 -> 1:5=z
        list_part a 1:5 1:5 -> 1:5=z
        list_part a 1:9 1:1 -> none
        list_part a@ 1:9 2:0 -> 1:9=x 2:0=x
        list_part a@c 0:0 65535:18446744073709551615 -> 1:1=y 1:9=x 2:0=x
        list_part top@ 0:0 65535:18446744073709551615 -> none
        list_from a 1:1 2 -> 1:1=y 1:5=z
        list_from a 1:2 2 -> 1:5=z 1:9=x
        list_from a 1:2 0 -> none
        list_from a@ 1:2 4294967295 -> 1:9=x 2:0=x
        list_from a@c 2:1 5 -> none
        diff_part a@ a 1:0 1:4 -> 1:1=x/y
        diff_part a@ a 1:2 2:0 -> 1:5=~/z 2:0=x/~
        diff_part a a@ 1:2 2:0 -> 1:5=z/~ 2:0=~/x
        diff_part a@c a 1:0 1:5 -> 1:5=~/z
        diff_part a@ a 2:0 1:0 -> none
        diff_part a a 0:0 9:0 -> none
        list_part b 1:1 1:9 -> error 1 NoSuchAlternative
        list_part a@q 1:9 1:1 -> error 3 NoSuchCheckpoint
        list_from b@q 1:1 0 -> error 1 NoSuchAlternative
        list_from top@c 1:1 1 -> error 3 NoSuchCheckpoint
        diff_part b a@q 1:1 1:9 -> error 1 NoSuchAlternative
        diff_part a@q b 1:9 1:1 -> error 3 NoSuchCheckpoint",
    ),
    (
        "checkpoints go with their alternative",
        NEW,
        "
        new a top
        checkpoint top c
        checkpoint a c
        drop a
        new a top
        back a c -> error 3 NoSuchCheckpoint
        back top c",
    ),
    // The name has the maximum length.
    (
        "versions are there after opening",
        NEW,
        "
        new nnnnnnnnnnnnnnnnnnnnnnnnnnnnnnnn top
        put nnnnnnnnnnnnnnnnnnnnnnnnnnnnnnnn 1:1 x
        checkpoint nnnnnnnnnnnnnnnnnnnnnnnnnnnnnnnn nnnnnnnnnnnnnnnnnnnnnnnnnnnnnnnn
        put nnnnnnnnnnnnnnnnnnnnnnnnnnnnnnnn 1:1 y
        commit
        uncheck nnnnnnnnnnnnnnnnnnnnnnnnnnnnnnnn nnnnnnnnnnnnnnnnnnnnnnnnnnnnnnnn
        close
        open
        get nnnnnnnnnnnnnnnnnnnnnnnnnnnnnnnn 1:1 -> y
        back nnnnnnnnnnnnnnnnnnnnnnnnnnnnnnnn nnnnnnnnnnnnnnnnnnnnnnnnnnnnnnnn
        get nnnnnnnnnnnnnnnnnnnnnnnnnnnnnnnn 1:1 -> x
        get top 1:1 -> ~",
    ),
    // The device calls are those of the opening.
    (
        "calls that change entries alone make no device call",
        "",
        "
        format 64
        anew
        open
        new a top
        checkpoint a c
        back a c
        alts -> top a<top
        checks a -> c
        uncheck a c
        drop a
        close
        calls -> 4",
    ),
    (
        "checkpoints are listed in order of creation",
        NEW,
        "
        checks top -> none
        new a top
        checkpoint top z
        checkpoint a z
        checkpoint top y
        checkpoint a y
        checkpoint top x
        checkpoint a x
        checks a -> z y x
        uncheck a z
        checkpoint a z
        checks a -> y x z
        checks top -> z y x
        checks x -> error 1 NoSuchAlternative",
    ),
];

#[test]
fn versions_are_made_shown_listed_and_refused(rt: HostRuntime) {
    each(&rt, CACHED, ON_BOTH);
    each(&rt, ALONE, IN_MEMORY);
}
