//! Parts of a map: from one key to another, or a number of records from a key on, with the blocks
//! that they read.
use super::script::{Row, SEVENTEEN, plays_rows};

/// Three leaves, of which the first and the last have one great value each.
const LONG_ENDS: &str = "
    put 1 4000*a
    put 2 300*b
    put 3 300*c
    put 4 4000*d
    leaves -> 1 2 1";

/// Leaves of one or two records, at many levels.
const DEEP: &str = "
    new 1024
    sizes 3 8
    puts 1 40 1900*v
    level -> 4";

const ROWS: [Row; 9] = [
    (
        "nothing of the empty map",
        &[
            "
        part 0 9 -> none
        next 0 9 -> none
        calls -> 0",
        ],
    ),
    (
        "parts of one leaf",
        &[
            "
        puts 1 5 v
        part 2 4 -> 2=v 3=v 4=v
        part 1 5 -> 1=v 2=v 3=v 4=v 5=v
        part 0 9 -> 1=v 2=v 3=v 4=v 5=v
        part 3 3 -> 3=v
        part 5 6 -> 5=v
        part 0 0 -> none
        part 6 9 -> none
        part 4 2 -> none
        remove 3
        part 3 3 -> none
        part 2 3 -> 2=v
        part 3 4 -> 4=v",
        ],
    ),
    (
        "pages of one leaf",
        &[
            "
        puts 1 5 v
        next 3 0 -> none
        next 3 1 -> 3=v
        next 3 2 -> 3=v 4=v
        next 3 3 -> 3=v 4=v 5=v
        next 3 4 -> 3=v 4=v 5=v
        next 3 4294967295 -> 3=v 4=v 5=v
        next 0 2 -> 1=v 2=v
        next 6 1 -> none",
        ],
    ),
    (
        // Leaves of 1 to 8 and of 9 to 17, and the root.
        "reads no leaf beside the part but the one before it",
        &[
            SEVENTEEN,
            "
        list -> 1=240*v 2=240*v 3=240*v 4=240*v 5=240*v 6=240*v 7=240*v 8=240*v 9=240*v 10=240*v 11=240*v 12=240*v 13=240*v 14=240*v 15=240*v 16=240*v 17=240*v
        part 7 8 -> 7=240*v 8=240*v
        part 9 10 -> 9=240*v 10=240*v
        part 8 9 -> 8=240*v 9=240*v
        part 18 20 -> none
        part 12 11 -> none
        fresh
        part 7 8 -> 7=240*v 8=240*v
        calls -> 2
        part 9 10 -> 9=240*v 10=240*v
        calls -> 2
        part 8 9 -> 8=240*v 9=240*v
        calls -> 3
        part 18 20 -> none
        calls -> 2
        part 0 0 -> none
        calls -> 0
        part 12 11 -> none
        calls -> 2
        part 0 99 -> 1=240*v 2=240*v 3=240*v 4=240*v 5=240*v 6=240*v 7=240*v 8=240*v 9=240*v 10=240*v 11=240*v 12=240*v 13=240*v 14=240*v 15=240*v 16=240*v 17=240*v
        calls -> 3",
        ],
    ),
    (
        "a page ends in the leaf in which its count is full",
        &[
            SEVENTEEN,
            "
        fresh
        next 8 1 -> 8=240*v
        calls -> 2
        next 7 2 -> 7=240*v 8=240*v
        calls -> 2
        next 7 3 -> 7=240*v 8=240*v 9=240*v
        calls -> 3
        next 9 1 -> 9=240*v
        calls -> 2
        next 5 0 -> none
        calls -> 0
        next 17 9 -> 17=240*v
        calls -> 2
        next 18 9 -> none
        calls -> 2",
        ],
    ),
    (
        // The root and the leaves of the part.
        "great values at both ends are read inside the part alone",
        &[
            LONG_ENDS,
            "
        fresh
        part 1 4 -> 1=4000*a 2=300*b 3=300*c 4=4000*d
        calls -> 4
        part 2 3 -> 2=300*b 3=300*c
        calls -> 2
        part 1 2 -> 1=4000*a 2=300*b
        calls -> 3
        part 3 4 -> 3=300*c 4=4000*d
        calls -> 3
        next 1 1 -> 1=4000*a
        calls -> 2
        next 2 1 -> 2=300*b
        calls -> 2
        next 3 1 -> 3=300*c
        calls -> 2
        next 3 2 -> 3=300*c 4=4000*d
        calls -> 3",
        ],
    ),
    (
        // A path of a tree of at most six levels, and the neighbouring leaf.
        "a page of a deep tree costs a path",
        &[
            DEEP,
            "
        part 20 23 -> 20=1900*v 21=1900*v 22=1900*v 23=1900*v
        next 39 9 -> 39=1900*v 40=1900*v
        next 1 3 -> 1=1900*v 2=1900*v 3=1900*v
        part 41 99 -> none
        part 0 0 -> none",
        ],
    ),
    (
        "a block that is damaged is told where it is read",
        &[
            SEVENTEEN,
            "
        write all 36 07
        part 1 8 -> 1=240*v 2=240*v 3=240*v 4=240*v 5=240*v 6=240*v 7=240*v 8=240*v
        next 7 2 -> 7=240*v 8=240*v
        part 8 9 -> error Damaged 36
        next 7 3 -> error Damaged 36
        write all 37 07
        part 1 8 -> error Damaged 37
        part 0 0 -> none
        next 1 0 -> none",
        ],
    ),
    (
        "a device that fails",
        &[
            SEVENTEEN,
            "
        once 1
        part 7 8 -> error Device
        part 7 8 -> 7=240*v 8=240*v
        once 2
        next 8 2 -> error Device
        next 8 2 -> 8=240*v 9=240*v",
        ],
    ),
];

#[test]
fn gives_parts_and_pages(rt: HostRuntime) {
    plays_rows(&rt, &ROWS);
}
