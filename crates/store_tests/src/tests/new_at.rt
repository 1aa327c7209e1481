//! Alternatives that begin at a checkpoint of their parent.
use super::script::{ALONE, CACHED, NEW, Row, each};

const ON_BOTH: &[Row] = &[
    (
        "alternative begins at a checkpoint",
        NEW,
        "
        put top 1:1 x
        checkpoint top c
        put top 1:1 z
        new a top c
        get a 1:1 -> x
        changes a -> none
        post a -> error 8 NotMerged
        merge a -> ok 1
        get a 1:1 -> z
        post a
        new b top q -> error 3 NoSuchCheckpoint
        new a top q -> error 2 AlternativeExists
        uncheck top c
        reclaim
        list top -> 1:1=z
        list a -> 1:1=z",
    ),
    // The checkpoint has changed records, so its base is not what it shows.
    (
        "base is what the checkpoint shows",
        NEW,
        "
        put top 1:1 x
        new a top
        put a 1:2 y
        checkpoint a c
        remove a 1:1
        remove a 1:2
        new b a c
        commit
        close
        open
        changes b -> none
        list b -> 1:1=x 1:2=y
        back b c -> error 3 NoSuchCheckpoint
        back a c
        post b",
    ),
    (
        "what is missing comes before too many",
        NEW,
        "
        checkpoints top 510
        new a nope q -> error 1 NoSuchAlternative
        new top top q -> error 2 AlternativeExists
        new a top q -> error 3 NoSuchCheckpoint
        new a top k001 -> error 12 TooMany
        uncheck top k002
        new a top k001",
    ),
];

const IN_MEMORY: &[Row] = &[
    // An opening of an empty store makes four device calls.
    (
        "beginning at a checkpoint makes no device call",
        NEW,
        "
        close
        anew
        open
        checkpoint top c
        new a top c
        close
        calls -> 4",
    ),
];

#[test]
fn alternatives_begin_at_checkpoints(rt: HostRuntime) {
    each(&rt, CACHED, ON_BOTH);
    each(&rt, ALONE, IN_MEMORY);
}
