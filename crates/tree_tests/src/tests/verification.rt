//! What is found under numbers, on disks whose blocks are written by hand.
use super::script::{Row, plays_rows};

const ROWS: [Row; 8] = [
    (
        "finds roots and marks, and reads each block once",
        &[
            "
        new 64
        write leaf 35 '' 1
        write leaf 36 '' 2
        write node 34 1 1:35 2:36
        verify 34 0 36 34 -> 34.1.1 none 36.0.2 34.1.1 marks 34 35 36 by 3",
        ],
    ),
    (
        "takes a root with one child",
        &[
            "
        new 64
        write leaf 35 '' 1
        write node 34 1 1:35
        verify 34 -> 34.1.1 marks 34 35 by 2",
        ],
    ),
    (
        "names the first block that is wrong",
        &[
            "
        new 64
        # A block of zeros, and a key twice.
        verify 40 -> error Damaged 40
        write leaf 34 '' 1 2
        set 34 30:01
        verify 34 -> error Damaged 34
        # A child of the wrong level.
        write leaf 35 '' 1
        write node 34 2 1:35
        verify 34 -> error Damaged 35
        # A child that begins with another key than its entry has.
        write leaf 35 '' 2
        write node 34 1 1:35
        verify 34 -> error Damaged 35
        # A child with a key that belongs to the next one.
        write leaf 35 '' 1 3
        write leaf 36 '' 3
        write node 34 1 1:35 3:36
        verify 34 -> error Damaged 35
        # Numbers that are out of range.
        verify 33 -> error Damaged 33
        verify 64 -> error Damaged 64
        write node 34 1 1:0
        verify 34 -> error Damaged 0",
        ],
    ),
    (
        "compares what was met before",
        &[
            "
        new 64
        # A block that is its own child, and two that are each other's.
        write node 34 1 1:34
        verify 34 -> error Damaged 34
        write node 34 2 1:35
        write node 35 1 1:34
        verify 34 -> error Damaged 34
        # A child twice.
        write leaf 36 '' 1 2
        write node 35 1 1:36 3:36
        verify 35 -> error Damaged 36
        # A root that is a child as well: of the wrong level, and under another key.
        write node 35 2 1:36
        verify 36 35 -> error Damaged 36
        write node 35 1 2:36
        verify 36 35 -> error Damaged 36
        # And as it should be.
        write node 35 1 1:36
        verify 36 35 36 -> 36.0.1 35.1.1 36.0.1 marks 35 36 by 2",
        ],
    ),
    (
        "takes trees of the given sizes only",
        &[
            "
        new 64
        write leaf 35 '' 1 2
        write leaf 36 '' 3 4 5
        write leaf 37 '' 6
        write leaf 39 '' 7
        write node 34 1 1:35 3:36 6:37
        write node 38 1 1:35 3:36 6:37 7:39
        sizes 3 2
        verify 34 -> 34.1.1 marks 34 35 36 37 by 4
        verify 38 -> error Damaged 38
        sizes 4 2
        verify 38 -> 38.1.1 marks 35 36 37 38 39 by 5
        sizes 3 1
        verify 34 -> error Damaged 34
        verify 36 -> 36.0.3 marks 36 by 1",
        ],
    ),
    (
        "takes leaves of values of any length",
        &[
            "
        new 64
        write records 34 1=4000*a 2=56*b
        write records 35 1='' 2=v 3=240*c 4=241*d 5=3500*e
        write node 36 1 1:34 5:37
        write records 37 5=4000*e
        verify 34 35 36 -> 34.0.1 35.0.1 36.1.1 marks 34 35 36 37 by 4",
        ],
    ),
    (
        "names a leaf that has another form",
        &[
            "
        new 64
        # The letters of earlier forms.
        write records 34 1=300*a 2=v
        set 34 0:4C454146
        verify 34 -> error Damaged 34
        set 34 0:4C454632
        verify 34 -> error Damaged 34
        set 34 0:4C4F4E47
        verify 34 -> error Damaged 34
        set 34 0:4C454633
        verify 34 -> 34.0.1 marks 34 by 1
        # A byte behind the values, also where a value becomes shorter.
        set 34 341:01
        verify 34 -> error Damaged 34
        set 34 341:00
        set 34 38:2C
        verify 34 -> error Damaged 34
        set 34 38:2D
        set 34 26:2E
        verify 34 -> error Damaged 34
        # The first value ends one byte earlier, and the second has it.
        set 34 26:2B
        leaf 34 -> 1=299*a 2=av
        verify 34 -> 34.0.1 marks 34 by 1
        # A value that is too long, below an inner block.
        write records 35 3=4000*b
        write node 36 1 1:34 3:35
        verify 36 -> 36.1.1 marks 34 35 36 by 3
        set 35 26:A1
        verify 36 -> error Damaged 35",
        ],
    ),
    (
        "stops where the device fails",
        &[
            "
        new 64
        write leaf 35 '' 1
        write node 34 1 1:35
        once 1
        verify 34 -> error Device
        verify 34 -> 34.1.1 marks 34 35 by 2",
        ],
    ),
];

#[test]
fn finds_what_lies_under_numbers(rt: HostRuntime) {
    plays_rows(&rt, &ROWS);
}
