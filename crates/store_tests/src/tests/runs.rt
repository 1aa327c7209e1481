//! Lists of commands.
use super::script::{ALONE, NEW, Row, each};

const LISTS: &[Row] = &[
    (
        "commands are answered in order",
        NEW,
        "
        run put top 7:1 duct ; put nope 7:1 duct ; commit \
            -> ok ; error 1 NoSuchAlternative ; ok ; end
        get top 7:1 -> duct
        close
        open
        get top 7:1 -> duct",
    ),
    ("empty list has no answers", NEW, "run -> end"),
    // Formatting and opening make eleven device calls, the Put one, and the Commit's first sync is
    // the third after these.
    (
        "list ends where the device fails",
        "",
        "
        once 13
        format 64
        open
        run put top 7:1 duct ; commit ; commit -> ok ; error 15 Device ; Device
        run commit -> Failed
        commit -> error 17 Failed
        close
        calls -> 14
        anew
        open
        get top 7:1 -> ~",
    ),
    // Of 64 blocks, 34 are the store's own. The first Put takes a leaf, and the second a copy of
    // it, since the commands between end the series. After that no version reaches the first leaf.
    (
        "reclaim in a list leaves the spare blocks free",
        NEW,
        "
        free -> 30
        run put top 7:1 duct ; new a top ; drop a ; put top 7:1 pipe -> ok ; ok ; ok ; ok ; end
        free -> 28
        run reclaim ; commit -> ok ; ok ; end
        free -> 29
        get top 7:1 -> pipe",
    ),
];

#[test]
fn lists_of_commands_are_answered(rt: HostRuntime) {
    each(&rt, ALONE, LISTS);
}
