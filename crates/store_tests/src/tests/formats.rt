//! What the blocks of a store hold, and what formatting refuses.
use super::script::{CACHED, DUCT, Row, Rows, each, each_of};

/// `ALTSTORE`, three and the block size; the selector of slot B; both slots, which begin with `SLOT`,
/// three and 64 blocks, with the entry of `top`, whose root is none in slot A and block 34 in slot B;
/// and a leaf of the record 7:1, `duct`.
const BLOCKS: &str = "
    written -> 0 1 2 18 34
    block 0 -> 0:414C5453544F524503 13:10
    block 1 -> 0:01
    block 2 -> 0:534C4F5403 8:40 12:01 128:4103746F70
    block 18 -> 0:534C4F5403 8:40 12:01 128:4103746F70 195:22
    block 34 -> 0:4C454633 8:01 16:07 18:01 26:04 28:64756374";

const ON_BOTH: &[Row] = &[
    (
        "commit leaves header, selector, slots and leaf",
        DUCT,
        BLOCKS,
    ),
    (
        "format refuses a bad size",
        "",
        "
        format 0 -> error 21 BadSize
        format 63 -> error 21 BadSize
        format 65 -> error 21 BadSize
        format 67108865 -> error 21 BadSize",
    ),
    (
        "odd selector names slot b",
        DUCT,
        "
        set 1 0:A5
        open
        get top 7:1 -> duct
        commit
        close
        block 1 -> none
        block 2 -> 0:534C4F5403 8:40 12:01 128:4103746F70 195:22
        anew
        open
        get top 7:1 -> duct",
    ),
    (
        "format leaves a store of an earlier format and no other disk",
        DUCT,
        "
        set 0 8:01
        format 64 -> error 20 AlreadyAStore
        block 0 -> 0:414C5453544F524501 13:10
        set 0 8:02
        format 64 -> error 20 AlreadyAStore
        block 0 -> 0:414C5453544F524502 13:10
        block 34 -> 0:4C454633 8:01 16:07 18:01 26:04 28:64756374
        set 0 8:04
        format 64
        block 0 -> 0:414C5453544F524503 13:10",
    ),
];

const AS_IT_WAS: Rows = (
    "format leaves a store as it was",
    &[DUCT, "format 64 -> error 20 AlreadyAStore", BLOCKS],
    &[&[]],
);

#[test]
fn format_commit_and_opening_agree(rt: HostRuntime) {
    each(&rt, CACHED, ON_BOTH);
    each_of(&rt, CACHED, &AS_IT_WAS);
}
