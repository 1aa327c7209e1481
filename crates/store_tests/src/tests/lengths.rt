//! Values of any length: they are put, shown and found again, and each leaf has as many as it has
//! room for.
mod blocks;
mod counts;
mod crashes;
mod damage;
mod merges;

use super::script::{
    CACHED, LARGE, LARGE_AND_LATE, NEW, RoomRow, Row, Rows, each, each_of, each_with_room, plays_on,
};

const ON_BOTH: &[Row] = &[
    (
        "reclaim frees the leaf of a value that went",
        NEW,
        "
        put top 7:1 61*4000
        free -> 29
        commit
        put top 7:1 duct
        free -> 28
        commit
        reclaim
        free -> 29
        get top 7:1 -> duct",
    ),
    (
        "value of zeros keeps its length",
        NEW,
        "
        put top 1:1 00*241
        put top 1:2 00*4000
        put top 1:3 00*240
        put top 1:4 ''
        commit
        close
        anew
        open
        get top 1:1 -> 00*241
        look top 1:2 -> 00*4000
        list top -> 1:1=00*241 1:2=00*4000 1:3=00*240 1:4=''",
    ),
    // Each Put takes one of the thirty blocks, and its checkpoint keeps it: fourteen leave 16.
    (
        "full is answered where fewer than 17 blocks are spare",
        NEW,
        "
        kept top 1:1 61*4000 14
        free -> 16
        commit
        put top 1:1 '' -> error 13 Full
        put top 1:2 61*4000 -> error 13 Full
        remove top 1:1 -> error 13 Full
        uncheck top k001
        put top 1:1 v -> error 13 Full
        commit
        put top 1:1 61*300
        free -> 16
        get top 1:1 -> 61*300",
    ),
    (
        "commands with values of any length stand in a list",
        NEW,
        "
        run put top 1:1 61*300 ; new a top ; put a 1:1 62*4000 ; put a 1:2 '' ; post a ; \
            remove top 1:3 ; commit -> ok ; ok ; ok ; ok ; ok ; error 5 NoSuchRecord ; ok ; end
        close
        anew
        open
        free -> 29
        list top -> 1:1=62*4000 1:2=''
        list a -> 1:1=62*4000 1:2=''
        changes a -> none",
    ),
    // The first leaf takes a block. The greatest value below the others takes one more and a root,
    // and the one between them two more. The first Remove drops a leaf and takes a root, which the
    // second changes in its place.
    (
        "leaf is split in two and in three",
        NEW,
        "
        put top 1:3 61*2000
        put top 1:5 62*2000
        free -> 29
        put top 1:1 63*4000
        free -> 27
        list top -> 1:1=63*4000 1:3=61*2000 1:5=62*2000
        put top 1:4 64*4000
        free -> 25
        list top -> 1:1=63*4000 1:3=61*2000 1:4=64*4000 1:5=62*2000
        reclaim
        free -> 25
        remove top 1:4
        remove top 1:1
        free -> 24
        list top -> 1:3=61*2000 1:5=62*2000
        reclaim
        free -> 27",
    ),
    (
        "value grows and shrinks at its key",
        NEW,
        "
        put top 1:1 ''
        put top 1:2 61
        put top 1:3 62*240
        put top 1:1 63*241
        put top 1:2 64*3000
        list top -> 1:1=63*241 1:2=64*3000 1:3=62*240
        free -> 29
        put top 1:2 65*4000
        list top -> 1:1=63*241 1:2=65*4000 1:3=62*240
        reclaim
        free -> 26
        put top 1:2 ''
        list top -> 1:1=63*241 1:2='' 1:3=62*240
        reclaim
        free -> 26
        commit
        close
        crash all=41
        open
        free -> 26
        list top -> 1:1=63*241 1:2='' 1:3=62*240",
    ),
];

const IN_256_BLOCKS: &[Row] = &[
    // Nineteen records of 212 bytes fill a leaf, and a record after all others leaves it whole: 11
    // leaves and the root. The other way round two leaves are as even as can be: 10 and 10 records
    // of 20.
    (
        "rising keys fill leaves whole",
        "",
        "
        format 256
        open
        puts top 1:1 200 61*200
        reclaim
        free -> 210",
    ),
];

const OPENED_AGAIN: &str = "
    free -> 29
    commit
    close
    crash all=41
    open
    free -> 29";

/// Each value alone is in block 34.
const EACH_LENGTH: Rows = (
    "values of each length are there after opening",
    &[NEW, "?", "?", OPENED_AGAIN, "?", "close", "?"],
    &[
        &[
            "put top 7:1 ''",
            "list top -> 7:1=''",
            "list top -> 7:1=''",
            "block 34 -> 0:4C454633 8:01 16:07 18:01",
        ],
        &[
            "put top 7:1 a",
            "list top -> 7:1=a",
            "list top -> 7:1=a",
            "block 34 -> 0:4C454633 8:01 16:07 18:01 26:01 28:61",
        ],
        &[
            "put top 7:1 61*240",
            "list top -> 7:1=61*240",
            "list top -> 7:1=61*240",
            "block 34 -> 0:4C454633 8:01 16:07 18:01 26:F0 28:61*240",
        ],
        &[
            "put top 7:1 61*241",
            "list top -> 7:1=61*241",
            "list top -> 7:1=61*241",
            "block 34 -> 0:4C454633 8:01 16:07 18:01 26:F1 28:61*241",
        ],
        &[
            "put top 7:1 61*4000",
            "list top -> 7:1=61*4000",
            "list top -> 7:1=61*4000",
            "block 34 -> 0:4C454633 8:01 16:07 18:01 26:A00F 28:61*4000",
        ],
    ],
);

const GROWN: &[RoomRow] = &[
    // The first Put takes block 34. The checkpoints keep it and the twenty leaves of the next Puts,
    // and the last Put takes one more.
    (
        "values are in new blocks of a store that grew",
        96,
        NEW,
        "
        put top 1:1 62*4000
        remove top 1:1
        grow 96
        reclaim
        free -> 62
        kept top 1:1 61*300 40
        put top 1:2 x
        free -> 21
        commit
        close
        block 73 -> 0:4C454633 8:01 16:01 18:01 26:2C01 28:61*300
        block 74 -> 0:4C454633 8:02 16:01 18:01 26:2C0101 30:02 38:2D01 40:61*300 340:78
        crash all=41
        open
        blocks -> 96
        free -> 21
        list top -> 1:1=61*300 1:2=x
        reclaim
        free -> 21
        back top k040
        list top -> 1:1=61*300",
    ),
];

#[test]
fn values_of_any_length_are_put_and_freed(rt: HostRuntime) {
    each(&rt, CACHED, ON_BOTH);
    each(&rt, LARGE, IN_256_BLOCKS);
    each_of(&rt, CACHED, &EACH_LENGTH);
    each_with_room(&rt, GROWN);
}

/// All kinds of commands with values of any length, each shown before and after an opening.
#[test]
fn a_session_with_values_of_any_length_shows_the_same_on_each_disk(rt: HostRuntime) {
    let anew = "
        commit
        close
        anew
        open";
    let crash = "
        close
        crash all=41
        open";
    let made = "
        puts top 1:1 9 61*1300
        put top 1:5 w
        remove top 1:6
        new a top
        checkpoint a early
        put a 1:1 62*4000
        puts a 2:1 9 63*241
        remove a 2:3
        put a 2:4 ''
        put top 1:2 64*300
        put top 1:3 65*2600";
    let made_shown = "
        list top -> 1:1=61*1300 1:2=64*300 1:3=65*2600 1:4=61*1300 1:5=w 1:7=61*1300 1:8=61*1300 \
            1:9=61*1300
        list a -> 1:1=62*4000 1:2=61*1300 1:3=61*1300 1:4=61*1300 1:5=w 1:7=61*1300 1:8=61*1300 \
            1:9=61*1300 2:1=63*241 2:2=63*241 2:4='' 2:5=63*241 2:6=63*241 2:7=63*241 2:8=63*241 \
            2:9=63*241
        changes a -> 1:1=61*1300/62*4000 2:1=~/63*241 2:2=~/63*241 2:4=~/'' 2:5=~/63*241 \
            2:6=~/63*241 2:7=~/63*241 2:8=~/63*241 2:9=~/63*241";
    let lost = "
        put top 1:1 66*300
        merge a -> error 9 Unsettled 1
        remove a 2:1
        puts a 3:1 9 67*2000
        reclaim";
    let merged = "
        conflicts a -> none
        merge a -> ok 2
        put a 1:3 ''
        uncheck a early
        post a
        grow 300
        remove top 1:1";
    let merged_shown = "
        list top -> 1:2=64*300 1:3='' 1:4=61*1300 1:5=w 1:7=61*1300 1:8=61*1300 1:9=61*1300 \
            2:1=63*241 2:2=63*241 2:4='' 2:5=63*241 2:6=63*241 2:7=63*241 2:8=63*241 2:9=63*241
        get a 1:1 -> 62*4000
        conflicts a -> none
        tally a -> 0 1 0 no";
    let row = [
        "format 256",
        "open",
        made,
        made_shown,
        anew,
        made_shown,
        "free -> 210",
        lost,
        crash,
        made_shown,
        merged,
        merged_shown,
        anew,
        merged_shown,
        "free -> 259",
    ];
    plays_on(&rt, LARGE_AND_LATE, "a session", &row);
}
