//! Values of any length in a leaf: as many as it has room for, and values that grow and shrink.
use super::spelled::{Lengths, key, leaf_of, put_len, spelled};
use std::process::Abort;
use vm_block::{Placed, Taken, is_leaf, record_value, records_len, remove_record};

/// The records of a leaf, a number and a length that are put into it, and the records then, none
/// if the leaf has no room.
type Row = (&'static str, Lengths, (u64, usize), Lengths);

/// A record takes twelve bytes and its value, and a leaf has room for 4,080.
const ROWS: [Row; 14] = [
    (
        "all lengths in one leaf",
        &[(1, 0), (2, 1), (3, 240), (5, 241)],
        (4, 3538),
        &[(1, 0), (2, 1), (3, 240), (4, 3538), (5, 241)],
    ),
    (
        "a byte more than there is room for",
        &[(1, 0), (2, 1), (3, 240), (5, 241)],
        (4, 3539),
        &[],
    ),
    (
        "the greatest value alone",
        &[(1, 0)],
        (1, 4000),
        &[(1, 4000)],
    ),
    (
        "beside the greatest",
        &[(1, 4000)],
        (2, 56),
        &[(1, 4000), (2, 56)],
    ),
    (
        "beside the greatest, a byte more",
        &[(1, 4000)],
        (2, 57),
        &[],
    ),
    (
        "the first grows",
        &[(1, 4), (2, 300), (3, 7)],
        (1, 241),
        &[(1, 241), (2, 300), (3, 7)],
    ),
    (
        "the second shrinks",
        &[(1, 4), (2, 300), (3, 7)],
        (2, 1),
        &[(1, 4), (2, 1), (3, 7)],
    ),
    (
        "the second becomes empty",
        &[(1, 4), (2, 300), (3, 7)],
        (2, 0),
        &[(1, 4), (2, 0), (3, 7)],
    ),
    (
        "an empty one grows",
        &[(1, 4), (2, 0), (3, 7)],
        (2, 4000),
        &[(1, 4), (2, 4000), (3, 7)],
    ),
    (
        "the last grows into all the room",
        &[(1, 4), (2, 300), (3, 7)],
        (3, 3740),
        &[(1, 4), (2, 300), (3, 3740)],
    ),
    (
        "the last grows beyond",
        &[(1, 4), (2, 300), (3, 7)],
        (3, 3741),
        &[],
    ),
    (
        "the same length",
        &[(1, 4), (2, 300), (3, 7)],
        (2, 300),
        &[(1, 4), (2, 300), (3, 7)],
    ),
    (
        "one of two that fill the leaf shrinks",
        &[(1, 2028), (2, 2028)],
        (1, 2027),
        &[(1, 2027), (2, 2028)],
    ),
    (
        "one of two that fill the leaf grows",
        &[(1, 2028), (2, 2028)],
        (1, 2029),
        &[],
    ),
];

/// Puts a record into the leaf of a row.
fn plays(rt: &impl Abort, row: &Row) {
    let (name, before, (number, len), after) = *row;
    let mut block = leaf_of(rt, before);
    assert!(rt; block == spelled(before), "{name}, before");
    let placed = put_len(rt, &mut block, number, len);
    if after.is_empty() {
        assert!(rt; placed == Placed::TooBig, "{name}");
        assert!(rt; block == spelled(before), "{name}, as it was");
    } else {
        assert!(rt; placed == Placed::Put, "{name}");
        assert!(rt; block == spelled(after), "{name}, after");
    }
}

#[test]
fn values_of_each_length_are_spelled_and_grow_and_shrink(rt: HostRuntime) {
    for len in [0, 1, 240, 241, 4000] {
        let block = leaf_of(&rt, &[(1, len)]);
        assert!(rt; block == spelled(&[(1, len)]), "{len}");
        assert!(rt; is_leaf(&block), "{len}");
        assert!(rt; record_value(&block, 0).len() == len, "{len}");
    }
    for row in &ROWS {
        plays(&rt, row);
    }
}

#[test]
fn leaf_has_340_empty_values(rt: HostRuntime) {
    let mut block = leaf_of(&rt, &[(1, 0)]);
    for number in 2..=340_u64 {
        assert!(rt;
            put_len(&rt, &mut block, number, 0) == Placed::Put,
            "{number}"
        );
    }
    assert!(rt; is_leaf(&block) && records_len(&block) == 340);
    assert!(rt; put_len(&rt, &mut block, 341, 0) == Placed::TooBig);
    assert!(rt; put_len(&rt, &mut block, 340, 1) == Placed::TooBig);
    assert!(rt; put_len(&rt, &mut block, 340, 0) == Placed::Put);
    assert!(rt; remove_record(&mut block, key(7, 170)) == Taken::Out);
    assert!(rt; put_len(&rt, &mut block, 341, 12) == Placed::TooBig);
    assert!(rt; put_len(&rt, &mut block, 1, 12) == Placed::Put);
    assert!(rt; is_leaf(&block) && records_len(&block) == 339);
}
