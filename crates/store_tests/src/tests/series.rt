//! Series of changes: a Put or a Remove changes those blocks in their places that the series which
//! it continues took, and copies all others.
use super::records::TWO_RECORDS;
use super::script::{
    CACHED, LARGE, LARGE_AND_LATE, LATE, NEW, Row, Rows, SEVENTEEN, each, each_of, plays_on,
};

/// The first Put takes a block.
const FIRST_PUT: Rows = (
    "each put but the first takes no block",
    &[NEW, "?", "free -> 29"],
    &[
        &["puts top 1:1 1 v"],
        &["puts top 1:1 2 v"],
        &["puts top 1:1 5 v"],
    ],
);

const LOAD_AND_MERGE: &[Row] = &[
    // The seventeenth Put takes a second leaf, and a root.
    (
        "load takes the blocks of its tree alone",
        "",
        "
        format 256
        open
        puts top 1:1 20 76*240
        free -> 219
        reclaim
        free -> 219",
    ),
    // The Puts take blocks 34 and 35. The first change of the Merge, in the map of `top`, takes the
    // next one, which the second changes in its place. The last Put takes one more.
    (
        "merge changes in place what its own changes took",
        "",
        "
        format 256
        open
        new a top
        puts top 1:1 3 v
        puts a 2:1 2 v
        merge a -> ok 3
        free -> 219
        put a 1:4 w
        free -> 218
        list top -> 1:1=v 1:2=v 1:3=v
        list a -> 1:1=v 1:2=v 1:3=v 1:4=w 2:1=v 2:2=v",
    ),
];

const MARKINGS: &[Row] = &[
    // Thirteen Puts end the series of each other, and take a block each. The great value takes a
    // leaf of its own and a root, so 15 blocks are free, and the last Put marks: a leaf of `a` and
    // the three blocks of `top` are held.
    (
        "a series goes on over a marking",
        NEW,
        "
        new a top
        put top 1:1 v
        put a 1:1 v
        put top 1:2 v
        put a 1:2 v
        put top 1:3 v
        put a 1:3 v
        put top 1:4 v
        put a 1:4 v
        put top 1:5 v
        put a 1:5 v
        put top 1:6 v
        put a 1:6 v
        put top 1:7 v
        put top 1:8 61*4000
        free -> 15
        put top 1:1 w
        free -> 26
        list a -> 1:1=v 1:2=v 1:3=v 1:4=v 1:5=v 1:6=v
        get top 1:1 -> w
        get top 1:7 -> v",
    ),
    // Block 34 is committed, and thirteen Puts take blocks 35 to 47. The last Put finds 16 free
    // blocks and marks, which leaves 34, 46 and 47.
    (
        "what is committed is not changed after a marking",
        NEW,
        "
        put top 7:1 duct
        commit
        new a top
        put top 1:1 v
        put a 1:1 v
        put top 1:2 v
        put a 1:2 v
        put top 1:3 v
        put a 1:3 v
        put top 1:4 v
        put a 1:4 v
        put top 1:5 v
        put a 1:5 v
        put top 1:6 v
        put a 1:6 v
        put top 1:7 v
        free -> 16
        put top 1:1 w
        free -> 27
        close
        crash all=41
        open
        list top -> 7:1=duct",
    ),
];

/// What is shown after a crash in a series of changes of the seventeen records.
const SEVENTEEN_KEPT: &str = "
    close
    crash all=41
    open
    get top 1:1 -> 76*240
    get top 1:2 -> 76*240
    get top 1:16 -> 76*240
    get top 1:17 -> 76*240";

/// The root is in block 36, over leaves 34 and 35, which are committed. The first Put takes a leaf
/// and a root. The second one changes this leaf in its place, the third one takes the other leaf
/// and changes the root, and the Remove changes that leaf.
const FROM_BEFORE: Rows = (
    "blocks from before the series are not changed",
    &[
        SEVENTEEN,
        "open",
        "put top 1:1 w",
        "?",
        "?",
        "?",
        "?",
        SEVENTEEN_KEPT,
    ],
    &[
        &["", "", "", "free -> 25"],
        &["put top 1:2 w", "", "", "free -> 25"],
        &["put top 1:2 w", "put top 1:17 w", "", "free -> 24"],
        &[
            "put top 1:2 w",
            "put top 1:17 w",
            "remove top 1:16",
            "free -> 24",
        ],
    ],
);

/// Alternatives `a` under `top` and `b` under `a`, with a record each, in blocks 34 and 35.
const BRANCHES: &str = "
    format 64
    open
    new a top
    new b a
    put a 1:1 u
    checkpoint a k
    put b 2:2 u
    commit
    close
    anew
    open";

/// The first Put takes block 36, and the last one a copy of it. A Grow adds sixteen blocks, and the
/// Put of `b` takes one.
const ENDED: Rows = (
    "each other command that is served ends the series",
    &[BRANCHES, "put a 1:1 v", "?", "put a 1:2 w", "?"],
    &[
        &["new c top", "free -> 26"],
        &["new c a k", "free -> 26"],
        &["checkpoint a m", "free -> 26"],
        &["uncheck a k", "free -> 26"],
        &["back a k", "free -> 26"],
        &["drop b", "free -> 26"],
        &["merge a -> ok 0", "free -> 26"],
        &["post a", "free -> 26"],
        &["commit", "free -> 26"],
        &["reclaim", "free -> 26"],
        &["grow 80", "free -> 42"],
        &["put b 2:2 v", "free -> 25"],
        &["remove b 2:2", "free -> 26"],
    ],
);

const GOING_ON: Rows = (
    "queries and refused commands do not end it",
    &[BRANCHES, "put a 1:1 v", "?", "put a 1:2 w", "free -> 27"],
    &[
        &["get a 1:1 -> v"],
        &["get b 2:2 -> u"],
        &["list a -> 1:1=v"],
        &["changes a -> 1:1=~/v"],
        &["conflicts a -> none"],
        &["tally a -> 1 0 0 yes"],
        &["alts -> top a<top b<a"],
        &["checks a -> k"],
        &["free -> 27"],
        &["blocks -> 64"],
        &["new a top -> error 2 AlternativeExists"],
        &["checkpoint a k -> error 4 CheckpointExists"],
        &["put nope 1:1 w -> error 1 NoSuchAlternative"],
        &["remove a 9:9 -> error 5 NoSuchRecord"],
        &["remove b 9:9 -> error 5 NoSuchRecord"],
        &["merge a 1:1=mine -> error 10 NotInConflict 1:1"],
        &["post b -> error 8 NotMerged"],
    ],
);

const ON_EACH: &[Row] = &[
    // Both records are committed in block 35. With the last one, the tree is gone.
    (
        "removes change in place what the series took",
        TWO_RECORDS,
        "
        open
        remove top 7:2
        free -> 28
        close
        open
        put top 7:3 y
        free -> 28
        remove top 7:3
        remove top 7:2
        remove top 7:2 -> error 5 NoSuchRecord
        list top -> 7:1=duct
        remove top 7:1
        free -> 28
        list top -> none
        close
        open
        list top -> 7:1=duct 7:2=x",
    ),
    // The first Put takes block 36, the second 37, which the third changes in its place.
    (
        "a series begins after one that ended",
        BRANCHES,
        "
        put a 1:1 v
        new c top
        put a 1:2 w
        put a 1:3 w
        free -> 26",
    ),
];

#[test]
fn a_series_changes_in_place_what_it_took(rt: HostRuntime) {
    each_of(&rt, LATE, &FIRST_PUT);
    each(&rt, LARGE, LOAD_AND_MERGE);
    each(&rt, CACHED, MARKINGS);
    each_of(&rt, LATE, &FROM_BEFORE);
    each(&rt, LATE, ON_EACH);
}

#[test]
fn other_commands_that_are_served_end_a_series(rt: HostRuntime) {
    each_of(&rt, LATE, &ENDED);
    each_of(&rt, LATE, &GOING_ON);
}

/// The store closed, and opened again at its last commit.
const ANEW: &str = "
    commit
    close
    anew
    open";

/// The same after a crash that leaves nothing unsynced.
const CRASH: &str = "
    close
    crash all=41
    open";

/// All commands, with series of each kind among them, and an opening after each Commit.
#[test]
fn a_session_shows_the_same_on_each_disk(rt: HostRuntime) {
    let made = "
        puts top 1:1 9 v
        remove top 1:5
        put top 1:5 w
        new a top
        put a 1:1 x
        put a 1:2 x
        checkpoint a early
        put a 1:2 y
        remove a 1:3
        put a 2:1 z
        get a 1:2 -> y
        put a 2:1 zz
        changes a -> 1:1=v/x 1:2=v/y 1:3=v/~ 2:1=~/zz
        put a 2:2 z";
    let made_shown = "
        alts -> top a<top
        checks a -> early
        list top -> 1:1=v 1:2=v 1:3=v 1:4=v 1:5=w 1:6=v 1:7=v 1:8=v 1:9=v
        list a -> 1:1=x 1:2=y 1:4=v 1:5=w 1:6=v 1:7=v 1:8=v 1:9=v 2:1=zz 2:2=z
        get b 1:1 -> error 1 NoSuchAlternative";
    let branched = "
        put a 3:3 q
        put a 3:4 q
        new b a early
        put b 1:4 b
        put b 1:6 b
        back a early
        put top 1:1 t
        put top 1:9 t
        put top 1:10 t
        conflicts a -> 1:1=v/t/x
        tally a -> 2 3 1 no
        post a -> error 8 NotMerged
        merge a -> error 9 Unsettled 1
        merge a 1:1=theirs -> ok 3
        put a 1:11 a
        put a 1:12 a
        remove a 1:4
        changes a -> 1:2=v/x 1:4=v/~ 1:11=~/a 1:12=~/a
        uncheck a early
        post a";
    let branched_shown = "
        alts -> top a<top b<a
        checks a -> none
        list top -> 1:1=t 1:2=x 1:3=v 1:5=w 1:6=v 1:7=v 1:8=v 1:9=t 1:10=t 1:11=a 1:12=a
        list a -> 1:1=t 1:2=x 1:3=v 1:5=w 1:6=v 1:7=v 1:8=v 1:9=t 1:10=t 1:11=a 1:12=a
        list b -> 1:1=x 1:2=x 1:3=v 1:4=b 1:5=w 1:6=b 1:7=v 1:8=v 1:9=v
        tally b -> 2 6 1 no";
    let lost = "
        put top 9:9 lost
        put top 9:8 lost
        put b 9:9 lost
        remove b 9:9
        drop b
        reclaim
        puts a 5:1 9 lost";
    let grown = "
        conflicts b -> 1:4=v/~/b
        merge b 1:4=mine -> ok 5
        put b 1:12 bb
        drop a -> error 7 HasChildren
        new c top
        put c 7:1 c
        put c 7:2 c
        drop c
        grow 300
        puts b 8:1 6 p
        remove b 8:3
        remove b 8:2
        reclaim
        remove b 8:1";
    let grown_shown = "
        blocks -> 300
        alts -> top a<top b<a
        list b -> 1:1=t 1:2=x 1:3=v 1:4=b 1:5=w 1:6=b 1:7=v 1:8=v 1:9=t 1:10=t 1:11=a 1:12=bb \
            8:4=p 8:5=p 8:6=p
        changes b -> 1:4=~/b 1:6=v/b 1:12=a/bb 8:4=~/p 8:5=~/p 8:6=~/p
        list top -> 1:1=t 1:2=x 1:3=v 1:5=w 1:6=v 1:7=v 1:8=v 1:9=t 1:10=t 1:11=a 1:12=a";
    let row = [
        "format 256",
        "open",
        made,
        made_shown,
        ANEW,
        made_shown,
        // A leaf each for top, for the checkpoint and for a.
        "free -> 219",
        branched,
        branched_shown,
        ANEW,
        branched_shown,
        lost,
        CRASH,
        branched_shown,
        grown,
        grown_shown,
        ANEW,
        grown_shown,
    ];
    plays_on(&rt, LARGE_AND_LATE, "a session", &row);
}
