//! Leaves that a record has no room in, split in two or in three.
use super::spelled::{Lengths, key, leaf_of, letter, spelled};
use std::process::Abort;
use vm_block::{Placed, Split, lowest_key, put_record, records_len, split_record};
use vm_types::{Block, Value};

/// The records of a leaf, a number and a length for which it has no room, and the records of the
/// two or three leaves then.
type Row = (&'static str, Lengths, (u64, usize), &'static [Lengths]);

/// Sixteen records of 252 bytes each.
const SIXTEEN: Lengths = &[
    (2, 240),
    (4, 240),
    (6, 240),
    (8, 240),
    (10, 240),
    (12, 240),
    (14, 240),
    (16, 240),
    (18, 240),
    (20, 240),
    (22, 240),
    (24, 240),
    (26, 240),
    (28, 240),
    (30, 240),
    (32, 240),
];

/// A cut has a size: that of the larger of its two sides. The comments give the least.
const IN_TWO: [Row; 10] = [
    (
        "behind all others",
        SIXTEEN,
        (33, 37),
        &[SIXTEEN, &[(33, 37)]],
    ),
    // 2,268 after eight records and after nine: the first one is taken.
    (
        "before all others",
        SIXTEEN,
        (1, 240),
        &[
            &[
                (1, 240),
                (2, 240),
                (4, 240),
                (6, 240),
                (8, 240),
                (10, 240),
                (12, 240),
                (14, 240),
            ],
            &[
                (16, 240),
                (18, 240),
                (20, 240),
                (22, 240),
                (24, 240),
                (26, 240),
                (28, 240),
                (30, 240),
                (32, 240),
            ],
        ],
    ),
    // The last one is there, and the new one is not after all others: 2,076 after eight.
    (
        "the last grows",
        SIXTEEN,
        (32, 300),
        &[
            &[
                (2, 240),
                (4, 240),
                (6, 240),
                (8, 240),
                (10, 240),
                (12, 240),
                (14, 240),
                (16, 240),
            ],
            &[
                (18, 240),
                (20, 240),
                (22, 240),
                (24, 240),
                (26, 240),
                (28, 240),
                (30, 240),
                (32, 300),
            ],
        ],
    ),
    (
        "4,000 bytes below 4,000",
        &[(2, 4000)],
        (1, 4000),
        &[&[(1, 4000)], &[(2, 4000)]],
    ),
    (
        "4,000 bytes above 4,000",
        &[(1, 4000)],
        (2, 4000),
        &[&[(1, 4000)], &[(2, 4000)]],
    ),
    // 4,024 after two.
    (
        "an empty one below 4,000",
        &[(2, 4000), (3, 56)],
        (1, 0),
        &[&[(1, 0), (2, 4000)], &[(3, 56)]],
    ),
    // 4,012 after one.
    (
        "the first grows",
        &[(1, 2000), (2, 2000)],
        (1, 4000),
        &[&[(1, 4000)], &[(2, 2000)]],
    ),
    (
        "the second grows",
        &[(1, 2000), (2, 2000)],
        (2, 4000),
        &[&[(1, 2000)], &[(2, 4000)]],
    ),
    // 4,080 after one and after two.
    (
        "just in two",
        &[(1, 2000), (3, 2000)],
        (2, 2056),
        &[&[(1, 2000)], &[(2, 2056), (3, 2000)]],
    ),
    // 3,512 after five.
    (
        "all lengths",
        &[(1, 0), (2, 1), (3, 240), (4, 241), (5, 3500)],
        (0, 100),
        &[
            &[(0, 100), (1, 0), (2, 1), (3, 240), (4, 241)],
            &[(5, 3500)],
        ],
    ),
];

/// No cut makes two.
const IN_THREE: [Row; 4] = [
    (
        "a byte too many for two",
        &[(1, 2000), (3, 2000)],
        (2, 2057),
        &[&[(1, 2000)], &[(2, 2057)], &[(3, 2000)]],
    ),
    (
        "the one in the middle grows",
        &[(1, 1300), (2, 1300), (3, 1300)],
        (2, 4000),
        &[&[(1, 1300)], &[(2, 4000)], &[(3, 1300)]],
    ),
    (
        "the greatest beside short ones on both sides",
        &[(1, 0), (2, 240), (4, 241), (5, 3500)],
        (3, 4000),
        &[&[(1, 0), (2, 240)], &[(3, 4000)], &[(4, 241), (5, 3500)]],
    ),
    (
        "the greatest in a full leaf",
        SIXTEEN,
        (17, 4000),
        &[
            &[
                (2, 240),
                (4, 240),
                (6, 240),
                (8, 240),
                (10, 240),
                (12, 240),
                (14, 240),
                (16, 240),
            ],
            &[(17, 4000)],
            &[
                (18, 240),
                (20, 240),
                (22, 240),
                (24, 240),
                (26, 240),
                (28, 240),
                (30, 240),
                (32, 240),
            ],
        ],
    ),
];

/// The blocks that a split is written into, filled with sevens before.
#[derive(Drop)]
struct Parts {
    left: Block,
    middle: Block,
    right: Block,
}

/// Splits the leaf of a row, in which the record has no room.
fn split(rt: &impl Abort, row: &Row, parts: &mut Parts) -> Split {
    let (name, before, (number, len), _) = *row;
    assert!(rt; len <= Value::MAX_LEN, "{name}");
    let value = [letter(number, len); 4000];
    let mut block = leaf_of(rt, before);
    let old = block;
    let placed = put_record(&mut block, key(7, number), &value[..len]);
    assert!(rt; placed == Placed::TooBig && block == old, "{name}");
    split_record(
        &old,
        key(7, number),
        &value[..len],
        &mut parts.left,
        &mut parts.middle,
        &mut parts.right,
    )
}

fn sevens() -> Parts {
    Parts {
        left: [7; 4096],
        middle: [7; 4096],
        right: [7; 4096],
    }
}

/// The leaves of a row after its split must be these.
fn plays(rt: &impl Abort, row: &Row) {
    let mut parts = sevens();
    let made = split(rt, row, &mut parts);
    let middle = match row.3 {
        [left, right] => {
            assert!(rt; made == Split::Two, "{}", row.0);
            assert!(rt; parts.left == spelled(left), "{}, left", row.0);
            assert!(rt; parts.right == spelled(right), "{}, right", row.0);
            [7; 4096]
        }
        [left, middle, right] => {
            assert!(rt; made == Split::Three, "{}", row.0);
            assert!(rt; parts.left == spelled(left), "{}, left", row.0);
            assert!(rt; parts.right == spelled(right), "{}, right", row.0);
            spelled(middle)
        }
        _ => panic!(rt; "{}", row.0),
    };
    assert!(rt; parts.middle == middle, "{}, middle", row.0);
}

#[test]
fn leaf_is_cut_in_two_as_evenly_as_can_be_or_in_three(rt: HostRuntime) {
    for row in &IN_TWO {
        plays(&rt, row);
    }
    for row in &IN_THREE {
        plays(&rt, row);
    }
}

/// The leaf of 340 empty values, of every second number, and one more in it: 2,052 after 170.
#[test]
fn leaf_of_empty_values_is_cut_in_two(rt: HostRuntime) {
    let mut block = leaf_of(&rt, &[(0, 0)]);
    for n in 1..340_u64 {
        assert!(rt;
            put_record(&mut block, key(7, 2 * n), b"") == Placed::Put,
            "{n}"
        );
    }
    let mut parts = sevens();
    let (left, middle, right) = (&mut parts.left, &mut parts.middle, &mut parts.right);
    let made = split_record(&block, key(7, 1), b"a", left, middle, right);
    assert!(rt; made == Split::Two);
    assert!(rt; records_len(&parts.left) == 170);
    assert!(rt; records_len(&parts.right) == 171);
    assert!(rt; lowest_key(&parts.right) == key(7, 338));
}
