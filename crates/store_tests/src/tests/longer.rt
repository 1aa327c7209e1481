//! A store on a disk that has more blocks than the store, and that a crash may leave shorter.
use super::script::{CACHED, DUCT, On, RoomRow, Rows, each_of, each_with_room};

const ON_LONGER_DISKS: &[RoomRow] = &[
    // The disk was lengthened behind the store's back: its blocks from 64 on do not belong to the
    // store.
    (
        "a longer disk shows the same store",
        80,
        DUCT,
        "
        longer 80
        dirty -> 64 65 66 67 68 69 70 71 72 73 74 75 76 77 78 79
        open
        get top 7:1 -> duct
        free -> 29
        put top 7:2 pipe
        free -> 28
        commit
        close
        dirty -> none
        short 80
        open
        list top -> 7:1=duct 7:2=pipe
        # Both records lie in one leaf, as the only block of 30.
        free -> 29",
    ),
    (
        "a disk gets no longer than its room",
        80,
        DUCT,
        "
        longer 81 -> fault
        open
        get top 7:1 -> duct
        close
        longer 80
        longer 80
        longer 81 -> fault",
    ),
];

/// The rest of a row, after a crash that left some of the new blocks.
const ONLY_DUCT: &str = "
    open
    list top -> 7:1=duct
    free -> 29
    put top 7:2 pipe
    commit
    close
    longer 80
    crash all=41
    open
    list top -> 7:1=duct 7:2=pipe
    free -> 29";

const AFTER_A_CRASH: Rows = (
    "a crash that takes new blocks shows what was committed",
    &[DUCT, "longer 80", "?", ONLY_DUCT],
    &[
        &["short 64 all=41"],
        &["short 65 all=41"],
        &["short 79"],
        &["short 80 all=41"],
    ],
);

#[test]
fn a_store_is_the_same_on_a_longer_disk(rt: HostRuntime) {
    each_with_room(&rt, ON_LONGER_DISKS);
    let on = On { room: 80, ..CACHED };
    each_of(&rt, on, &AFTER_A_CRASH);
}
