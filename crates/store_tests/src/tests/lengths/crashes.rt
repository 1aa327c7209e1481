//! Crashes and failures in changes that split leaves.
use crate::tests::script::{ALONE, CACHED, DUCT, NEW, Rows, each_of};

/// What is shown after a crash: only `duct`, and then the great value, which is put once more.
const ONLY_DUCT: &str = "
    open
    list top -> 7:1=duct
    free -> 29
    put top 7:2 61*4000
    get top 7:2 -> 61*4000
    commit
    close
    crash all=41
    open
    list top -> 7:1=duct 7:2=61*4000
    free -> 29";

const BOTH: &str = "
    open
    list top -> 7:1=duct 7:2=61*4000
    free -> 29";

const IN_THE_PUT: &str = "
    open
    put top 7:2 61*4000 -> error 15 Device
    get top 7:1 -> error 17 Failed
    close";

const IN_THE_COMMIT: &str = "
    open
    put top 7:2 61*4000
    commit -> error 15 Device
    get top 7:1 -> error 17 Failed
    close";

/// An opening makes five device calls. The Put reads the leaf and writes it. The Commit writes the
/// slot, syncs, writes the selector, in which an odd byte names the old slot, and syncs.
const PUTS: Rows = (
    "crash in a put of a great value or its commit shows before or after",
    &[DUCT, "?", "?", "?", "?"],
    &[
        &["stop 5 41 41", IN_THE_PUT, "crash", ONLY_DUCT],
        &["stop 6 41 41", IN_THE_PUT, "crash", ONLY_DUCT],
        &["stop 6 41 41", IN_THE_PUT, "crash all=00", ONLY_DUCT],
        &["stop 7 41 41", IN_THE_COMMIT, "crash", ONLY_DUCT],
        &["stop 7 41 41", IN_THE_COMMIT, "crash 35=FF", ONLY_DUCT],
        &["stop 8 41 41", IN_THE_COMMIT, "crash", ONLY_DUCT],
        &["stop 8 41 41", IN_THE_COMMIT, "crash all=FF", ONLY_DUCT],
        &["stop 9 A5 00", IN_THE_COMMIT, "crash", ONLY_DUCT],
        &["stop 9 FE 00", IN_THE_COMMIT, "crash", BOTH],
        &["stop 10 41 41", IN_THE_COMMIT, "crash 1=01", ONLY_DUCT],
        &["stop 10 41 41", IN_THE_COMMIT, "crash", BOTH],
    ],
);

/// A closed store in which three records are committed in one leaf, block 36. Opening it makes five
/// device calls.
const THREE: &str = "
    put top 1:1 61*1300
    put top 1:2 62*1300
    put top 1:3 63*1300
    commit
    close
    anew";

const AS_COMMITTED: &str = "
    open
    list top -> 1:1=61*1300 1:2=62*1300 1:3=63*1300
    free -> 29
    put top 1:2 64*4000
    commit
    close
    crash all=41
    open
    list top -> 1:1=61*1300 1:2=64*4000 1:3=63*1300
    free -> 26";

const IN_THREE: &str = "
    open
    list top -> 1:1=61*1300 1:2=64*4000 1:3=63*1300
    free -> 26";

const IN_THE_SPLIT: &str = "
    open
    put top 1:2 64*4000 -> error 15 Device
    close";

const AFTER_THE_SPLIT: &str = "
    open
    put top 1:2 64*4000
    commit -> error 15 Device
    close";

/// The Put reads the leaf, and writes three leaves and a root. The Commit makes four device calls.
const SPLITS: Rows = (
    "crash in a put that makes three leaves shows before or after",
    &[NEW, THREE, "?", "?", "?", "?"],
    &[
        &["stop 6 41 41", IN_THE_SPLIT, "crash", AS_COMMITTED],
        &["stop 7 41 41", IN_THE_SPLIT, "crash all=00", AS_COMMITTED],
        &["stop 8 41 41", IN_THE_SPLIT, "crash", AS_COMMITTED],
        &["stop 9 41 41", IN_THE_SPLIT, "crash all=FF", AS_COMMITTED],
        &["stop 10 41 41", AFTER_THE_SPLIT, "crash", AS_COMMITTED],
        &[
            "stop 11 41 41",
            AFTER_THE_SPLIT,
            "crash 34=00",
            AS_COMMITTED,
        ],
        &["stop 12 A5 00", AFTER_THE_SPLIT, "crash", AS_COMMITTED],
        &["stop 12 FE 00", AFTER_THE_SPLIT, "crash", IN_THREE],
        &["stop 13 41 41", AFTER_THE_SPLIT, "crash 1=01", AS_COMMITTED],
        &["stop 13 41 41", AFTER_THE_SPLIT, "crash", IN_THREE],
    ],
);

/// `top` has added a record, and `a` a great value, to the one of the base. An opening reads the top
/// blocks of three trees, that of `a` twice, and makes four calls more.
const TO_MERGE: &str = "
    format 64
    open
    put top 1:1 61*300
    new a top
    put a 1:2 62*4000
    put top 1:3 v
    commit
    close
    anew
    open
    close
    calls -> 8
    anew";

const IN_THE_MERGE: &str = "
    open
    merge a -> error 15 Device
    close";

const AFTER_THE_MERGE: &str = "
    open
    merge a -> ok 1
    commit -> error 15 Device
    close";

const NOT_MERGED: &str = "
    open
    list a -> 1:1=61*300 1:2=62*4000
    list top -> 1:1=61*300 1:3=v
    free -> 25
    merge a -> ok 1
    post a";

const MERGED: &str = "
    open
    list a -> 1:1=61*300 1:2=62*4000 1:3=v
    list top -> 1:1=61*300 1:3=v
    free -> 26
    post a";

const WHOLE: &str = "
    open
    merge a -> ok 1
    commit
    close
    calls -> 22";

/// The Merge reads the leaves of the base and of `top`, those of the base and of `a` with the root
/// above them, and the leaf of `top` once more, and writes two leaves and a root. The Commit makes
/// four calls.
const MERGES: Rows = (
    "crash in a merge of a great value shows before or after",
    &[TO_MERGE, "?", "?", "?", "?"],
    &[
        &[WHOLE, "", "", ""],
        &["stop 14 41 41", IN_THE_MERGE, "crash", NOT_MERGED],
        &["stop 15 41 41", IN_THE_MERGE, "crash", NOT_MERGED],
        &["stop 16 41 41", IN_THE_MERGE, "crash", NOT_MERGED],
        &["stop 17 41 41", IN_THE_MERGE, "crash all=00", NOT_MERGED],
        &["stop 18 41 41", AFTER_THE_MERGE, "crash", NOT_MERGED],
        &["stop 19 41 41", AFTER_THE_MERGE, "crash all=FF", NOT_MERGED],
        &["stop 20 A5 00", AFTER_THE_MERGE, "crash", NOT_MERGED],
        &["stop 20 FE 00", AFTER_THE_MERGE, "crash", MERGED],
        &["stop 21 41 41", AFTER_THE_MERGE, "crash 1=01", NOT_MERGED],
        &["stop 21 41 41", AFTER_THE_MERGE, "crash", MERGED],
    ],
);

const FAILED: &str = "
    open
    put top 1:2 64*4000 -> error 15 Device
    free -> error 17 Failed
    close
    anew";

/// A failure instead of a crash: the store is opened again, and shows the same.
const FAILURES: Rows = (
    "failure in a put that splits leaves what is committed",
    &[NEW, THREE, "?", FAILED, AS_COMMITTED],
    &[
        &["once 5"],
        &["once 6"],
        &["once 7"],
        &["once 8"],
        &["once 9"],
    ],
);

#[test]
fn crash_or_failure_in_a_change_that_splits_shows_before_or_after(rt: HostRuntime) {
    each_of(&rt, ALONE, &PUTS);
    each_of(&rt, ALONE, &SPLITS);
    each_of(&rt, ALONE, &MERGES);
    each_of(&rt, CACHED, &FAILURES);
}
