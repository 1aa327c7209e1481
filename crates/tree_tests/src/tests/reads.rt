//! Single blocks, read by number.
use super::script::{Row, SEVENTEEN, plays_rows};

const ROWS: [Row; 2] = [
    (
        "reads leaves and inner blocks",
        &[
            SEVENTEEN,
            "
        node 1 37 -> 1:35 9:36
        leaf 36 -> 9=240*v 10=240*v 11=240*v 12=240*v 13=240*v 14=240*v 15=240*v 16=240*v 17=240*v
        node 2 37 -> error Damaged 37
        node 1 36 -> error Damaged 36
        leaf 37 -> error Damaged 37",
        ],
    ),
    (
        "reads blocks for data alone",
        &[
            "
        new 64
        data 0 -> error Damaged 0
        data 33 -> error Damaged 33
        data 34 -> none
        data 63 -> none
        data 64 -> error Damaged 64",
        ],
    ),
];

#[test]
fn reads_single_blocks(rt: HostRuntime) {
    plays_rows(&rt, &ROWS);
}
