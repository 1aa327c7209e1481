//! How many blocks are free, and how many each command asks for and takes.
use super::script::{ALONE, CACHED, DUCT, LARGE, NEW, Row, SEVENTEEN, each};

const ON_BOTH: &[Row] = &[
    ("new store of 64 blocks has 30 free", NEW, "free -> 30"),
    // The Puts take one block, and the seventeenth record splits it in eight and nine: it takes one
    // more and a root. The first Remove takes a leaf and a root, and the others change these in
    // their places. That of the ninth leaves the first leaf alone: it writes no block.
    (
        "leaf is split and takes the place of the root again",
        NEW,
        "
        puts top 1:2 16 76*240
        put top 1:1 76*240
        free -> 27
        reclaim
        free -> 27
        remove top 1:17
        remove top 1:16
        remove top 1:15
        remove top 1:14
        remove top 1:13
        remove top 1:12
        remove top 1:11
        remove top 1:10
        remove top 1:9
        free -> 25
        reclaim
        free -> 29
        get top 1:1 -> 76*240
        get top 1:2 -> 76*240
        get top 1:8 -> 76*240
        get top 1:9 -> ~
        get top 1:10 -> ~
        get top 1:17 -> ~",
    ),
    // There are 30 data blocks. Each of the 14 checkpoints keeps one, so 16 are spare for the next
    // Put.
    (
        "checkpoints keep their blocks",
        NEW,
        "
        kept top 1:1 v 14
        commit
        put top 1:1 v -> error 13 Full
        uncheck top k001
        put top 1:1 v -> error 13 Full
        commit
        put top 1:1 v
        free -> 16",
    ),
];

const IN_MEMORY: &[Row] = &[
    (
        "reclaim frees what no version needs",
        DUCT,
        "
        open
        free -> 29
        put top 7:1 pipe
        put top 7:1 tube
        free -> 28
        reclaim
        free -> 28
        commit
        free -> 28
        reclaim
        free -> 29
        get top 7:1 -> tube",
    ),
    // The Put takes one of thirty blocks. A new alternative shares its parent's, and what is
    // refused takes none.
    (
        "what is refused takes no block",
        NEW,
        "
        put top 7:1 duct
        new a top
        free -> 29
        new a top -> error 2 AlternativeExists
        new b nope -> error 1 NoSuchAlternative
        free -> 29
        get nope 7:1 -> error 1 NoSuchAlternative
        free -> 29
        list nope -> error 1 NoSuchAlternative
        free -> 29",
    ),
    // Each Put ends the series of the other alternative. Fourteen take blocks 34 to 47. The
    // fifteenth finds sixteen free and marks: only blocks 46 and 47 stay held, and the Put takes
    // block 34.
    (
        "put marks where fewer than 17 blocks are free",
        NEW,
        "
        new a top
        put top 1:1 v
        free -> 29
        put a 1:1 v
        free -> 28
        put top 1:2 v
        free -> 27
        put a 1:2 v
        free -> 26
        put top 1:3 v
        free -> 25
        put a 1:3 v
        free -> 24
        put top 1:4 v
        free -> 23
        put a 1:4 v
        free -> 22
        put top 1:5 v
        free -> 21
        put a 1:5 v
        free -> 20
        put top 1:6 v
        free -> 19
        put a 1:6 v
        free -> 18
        put top 1:7 v
        free -> 17
        put a 1:7 v
        free -> 16
        put top 1:8 v
        free -> 27
        put a 1:8 v
        free -> 26
        close
        dirty -> 34 35 36 37 38 39 40 41 42 43 44 45 46 47",
    ),
    // A root over two leaves is the current map of both alternatives, and the base of one: each of
    // the three blocks is held once. Changing a record in one of them takes one more leaf and root.
    (
        "shared blocks are held once",
        SEVENTEEN,
        "
        open
        free -> 27
        put top 1:17 v
        free -> 25",
    ),
];

const MERGES: &[Row] = &[
    // Eight records stay, and nine come in: eight changes ask for 136 spare blocks. Beside the two
    // leaves, 28 are spare.
    (
        "merge is refused where too few blocks are spare",
        NEW,
        "
        new a top
        puts top 1:1 9 v
        puts a 2:1 8 v
        merge a -> error 13 Full
        free -> 28
        list top -> 1:1=v 1:2=v 1:3=v 1:4=v 1:5=v 1:6=v 1:7=v 1:8=v 1:9=v
        list a -> 2:1=v 2:2=v 2:3=v 2:4=v 2:5=v 2:6=v 2:7=v 2:8=v
        post a -> error 8 NotMerged
        put a 1:1 v
        free -> 28",
    ),
    // One record stays, and nine come in: one change asks for 17 spare blocks. The Puts take two of
    // 30, and the Merge one.
    (
        "merge asks for the changes of the smaller side alone",
        NEW,
        "
        new a top
        puts top 1:1 9 v
        put a 2:1 v
        free -> 28
        merge a -> ok 9
        free -> 27
        list a -> 1:1=v 1:2=v 1:3=v 1:4=v 1:5=v 1:6=v 1:7=v 1:8=v 1:9=v 2:1=v
        changes a -> 2:1=~/v",
    ),
    // The Puts take two blocks of 30, and the Merge one, in the map of `a`.
    (
        "merge makes the parent's changes in the own map where they are fewer",
        NEW,
        "
        new a top
        puts a 1:1 9 v
        put top 2:1 v
        free -> 28
        merge a -> ok 1
        free -> 27
        list a -> 1:1=v 1:2=v 1:3=v 1:4=v 1:5=v 1:6=v 1:7=v 1:8=v 1:9=v 2:1=v",
    ),
    // There are 30 data blocks. Each of the 13 checkpoints of `top` keeps one, and that of `a`
    // another, so 16 are spare, and one more after an Uncheck. A Merge of an alternative that
    // changed nothing, or whose parent did not, asks for none and takes none.
    (
        "merge of one record asks for seventeen spare blocks",
        NEW,
        "
        new a top
        new d top
        put a 2:1 v
        checkpoint a c
        kept top 1:1 v 13
        new b top
        merge a -> error 13 Full
        free -> 16
        merge b -> ok 0
        merge d -> ok 1
        free -> 16
        post b
        uncheck top k001
        merge a -> ok 1
        put a 1:1 v -> error 13 Full
        get a 1:1 -> v
        free -> 16",
    ),
];

const MERGES_IN_256_BLOCKS: &[Row] = &[
    // Before it, 220 of 222 blocks are free. The eight changes are made in the map of `top`. The
    // first takes a leaf, the next six change it in its place, and the eighth takes one more leaf
    // and a root.
    (
        "merge makes one change after another",
        "",
        "
        format 256
        open
        new a top
        puts top 1:1 9 76*240
        puts a 2:1 8 76*240
        free -> 220
        merge a -> ok 9
        free -> 217
        list a -> 1:1=76*240 1:2=76*240 1:3=76*240 1:4=76*240 1:5=76*240 1:6=76*240 1:7=76*240 \
            1:8=76*240 1:9=76*240 \
            2:1=76*240 2:2=76*240 2:3=76*240 2:4=76*240 2:5=76*240 2:6=76*240 2:7=76*240 2:8=76*240
        post a
        list top -> 1:1=76*240 1:2=76*240 1:3=76*240 1:4=76*240 1:5=76*240 1:6=76*240 1:7=76*240 \
            1:8=76*240 1:9=76*240 \
            2:1=76*240 2:2=76*240 2:3=76*240 2:4=76*240 2:5=76*240 2:6=76*240 2:7=76*240 \
            2:8=76*240",
    ),
    // Three records of `a` stay. The map of `top` has two leaves under a root. The first of the
    // three changes takes a leaf and a root, the second changes this leaf in its place, and the
    // third takes the other leaf.
    (
        "merge brings changes into a map of two levels",
        "",
        "
        format 256
        open
        puts top 1:1 20 76*240
        new a top
        put top 1:10 t
        remove top 1:5
        put top 1:21 t
        put top 1:2 t
        put top 1:20 t
        put a 1:30 m
        remove a 1:12
        put a 1:3 m
        free -> 213
        conflicts a -> none
        merge a -> ok 5
        free -> 210
        list a -> 1:1=76*240 1:2=t 1:3=m 1:4=76*240 1:6=76*240 1:7=76*240 1:8=76*240 1:9=76*240 \
            1:10=t 1:11=76*240 1:13=76*240 \
            1:14=76*240 1:15=76*240 1:16=76*240 1:17=76*240 1:18=76*240 1:19=76*240 1:20=t 1:21=t \
            1:30=m
        list top -> 1:1=76*240 1:2=t 1:3=76*240 1:4=76*240 1:6=76*240 1:7=76*240 1:8=76*240 \
            1:9=76*240 1:10=t 1:11=76*240 1:12=76*240 \
            1:13=76*240 1:14=76*240 1:15=76*240 1:16=76*240 1:17=76*240 1:18=76*240 1:19=76*240 \
            1:20=t 1:21=t
        changes a -> 1:3=76*240/m 1:12=76*240/~ 1:30=~/m
        merge a -> ok 0
        post a
        list top -> 1:1=76*240 1:2=t 1:3=m 1:4=76*240 1:6=76*240 1:7=76*240 1:8=76*240 1:9=76*240 \
            1:10=t 1:11=76*240 1:13=76*240 \
            1:14=76*240 1:15=76*240 1:16=76*240 1:17=76*240 1:18=76*240 1:19=76*240 1:20=t 1:21=t \
            1:30=m
        free -> 210
        changes a -> none",
    ),
];

#[test]
fn blocks_are_asked_for_taken_kept_and_freed(rt: HostRuntime) {
    each(&rt, CACHED, ON_BOTH);
    each(&rt, ALONE, IN_MEMORY);
    each(&rt, ALONE, MERGES);
    each(&rt, LARGE, MERGES_IN_256_BLOCKS);
}
