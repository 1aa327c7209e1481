//! A crash in a command or after one, and what is shown afterwards.
use super::script::{ALONE, CACHED, DUCT, Row, Rows, each, each_of};

/// A Commit of `duct` that is stopped inside the write of the selector, which is device call 15:
/// formatting and opening take eleven, the Put writes block 34, and the Commit writes block 18,
/// syncs, and writes block 1.
const STOPPED_IN_THE_SELECTOR: &str = "
    format 64
    open
    put top 7:1 duct
    commit -> error 15 Device
    close
    calls -> 15
    crash
    open";

const IN_SLOT_A: &str = "
    get top 7:1 -> duct
    commit
    close
    block 1 -> none
    block 2 -> 0:534C4F5403 8:40 12:01 128:4103746F70 195:22
    anew
    open
    get top 7:1 -> duct";

const TORN_SELECTOR: Rows = (
    "a torn selector shows the old entries if it is even, and the new ones if it is odd",
    &["?", STOPPED_IN_THE_SELECTOR, "?"],
    &[
        &["stop 14 FE 00", "get top 7:1 -> ~"],
        &["stop 14 A5 00", IN_SLOT_A],
    ],
);

const IN_MEMORY: &[Row] = &[
    // Opening a new store makes four device calls, the Put one, and the Commit writes the slot,
    // syncs, and then writes the selector.
    (
        "selector that was torn to an even byte names slot A",
        "",
        "
        format 64
        stop 7 FE FE
        open
        put top 7:1 duct
        commit -> error 15 Device
        close
        crash
        open
        list top -> none",
    ),
];

const LAST_SYNC_FAILS: &[Row] = &[
    // The second Commit writes block 2, syncs, writes block 1, and its last sync is device call 22.
    (
        "commit whose last sync fails may be shown",
        "",
        "
        once 21
        format 64
        open
        put top 7:1 duct
        commit
        put top 7:1 pipe
        commit -> error 15 Device
        get top 7:1 -> error 17 Failed
        close
        calls -> 22
        anew
        open
        get top 7:1 -> pipe
        put top 7:2 x
        close
        dirty -> 34
        crash 34=FF
        open
        get top 7:1 -> pipe
        get top 7:2 -> ~",
    ),
    // Opening the store of `duct` makes five device calls, the Put two, and the Commit four. `pipe`
    // is then in block 35. The second Put takes block 34, and the Remove changes it in its place.
    (
        "what was removed and not committed leaves no trace",
        DUCT,
        "
        once 10
        open
        put top 7:1 pipe
        commit -> error 15 Device
        get top 7:1 -> error 17 Failed
        close
        anew
        open
        get top 7:1 -> pipe
        put top 7:2 x
        remove top 7:2
        get top 7:2 -> ~
        close
        dirty -> 34
        crash all=FF
        open
        get top 7:1 -> pipe
        get top 7:2 -> ~",
    ),
];

const PUT_PIPE: &str = "
    format 64
    open
    put top 7:1 duct
    commit
    put top 7:1 pipe
    close";

const ONLY_DUCT: &str = "
    open
    get top 7:1 -> duct";

const NOT_COMMITTED: Rows = (
    "put that is not committed is gone after a crash",
    &[PUT_PIPE, "?", ONLY_DUCT],
    &[&["crash 35=00"], &["crash 35=FF"]],
);

const CHANGED: &str = "
    open
    put top 7:1 pipe
    new spur top
    put top 7:2 x
    close
    dirty -> 35 36";

const NO_SPUR: &str = "
    open
    get top 7:1 -> duct
    get top 7:2 -> ~
    get spur 7:1 -> error 1 NoSuchAlternative";

/// The Puts write blocks 35 and 36. The crash puts other bytes into both.
const AFTER_A_CLOSING: Rows = (
    "crash after a closing shows what was committed",
    &[DUCT, CHANGED, "?", NO_SPUR],
    &[&["crash all=00"], &["crash all=41"], &["crash all=FF"]],
);

const STOPPED_IN_THE_SLOT: &str = "
    format 64
    open
    put top 7:1 duct
    commit
    put top 7:1 pipe
    commit -> error 15 Device
    close
    crash";

/// The second Commit is stopped inside its first write, which is device call 19.
const TORN_SLOT: Rows = (
    "slot that is not in use may be torn",
    &["?", STOPPED_IN_THE_SLOT, "?", ONLY_DUCT],
    &[
        &["stop 18 00 00", "block 2 -> none"],
        &["stop 18 41 41", "block 2 -> all=41"],
        &["stop 18 FF FF", "block 2 -> all=FF"],
    ],
);

#[test]
fn crash_shows_what_was_committed_before_or_after(rt: HostRuntime) {
    each_of(&rt, CACHED, &TORN_SELECTOR);
    each(&rt, ALONE, IN_MEMORY);
    each(&rt, CACHED, LAST_SYNC_FAILS);
    each_of(&rt, CACHED, &NOT_COMMITTED);
    each_of(&rt, ALONE, &AFTER_A_CLOSING);
    each_of(&rt, CACHED, &TORN_SLOT);
}
