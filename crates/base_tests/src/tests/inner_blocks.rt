//! Inner blocks: their bytes, bytes that are not one, the descent, and a child replaced.
use super::spelled::{is_block, key};
use std::process::Abort;
use vm_block::{
    Child, Way, child_at, divide_child, divide_in_three, find_child, is_leaf, lowest_key,
    node_size, read_node, records_len, set_child, write_node,
};
use vm_types::{Block, Key};

fn child(table: u16, number: u64, block: u32) -> Child {
    Child {
        low: key(table, number),
        block,
    }
}

/// Whether a block is an inner block of this level and these children.
fn has(block: &Block, level: u8, children: &[Child]) -> bool {
    match read_node(block) {
        Some(node) => node.level == level && node.children.as_slice() == children,
        None => false,
    }
}

#[test]
fn inner_block_is_spelled_and_read(rt: HostRuntime) {
    let two =
        b"NODE\x01\0\0\0\x02\0\0\0\0\0\0\0\x01\0\x01\0\0\0\0\0\0\0\x23\0\0\0\x01\0\x0a\0\0\0\0\0\0\0\x24";
    let children = [child(1, 1, 35), child(1, 10, 36)];
    let mut block = [7; 4096];
    write_node(1, &children, &mut block);
    assert!(rt; is_block(&block, two));
    assert!(rt; has(&block, 1, &children));
    assert!(rt; !is_leaf(&block));
    assert!(rt; node_size(&block) == Some((1, 2)));
    assert!(rt; records_len(&block) == 0);
    assert!(rt; child_at(&block, 1) == child(1, 10, 36));

    let one = b"NODE\x01\0\0\0\x01\0\0\0\0\0\0\0\x01\0\x01\0\0\0\0\0\0\0\x22";
    let mut block = [7; 4096];
    write_node(1, &[child(1, 1, 34)], &mut block);
    assert!(rt; is_block(&block, one));
    assert!(rt; read_node(&block).is_some());
}

/// Whether the inner block of two children is no longer one with this byte at this offset.
fn is_refused_with(rt: &impl Abort, at: usize, byte: u8) -> bool {
    let mut block = [0; 4096];
    write_node(7, &[child(1, 1, 35), child(1, 10, 36)], &mut block);
    if at >= 4096 {
        return false;
    }
    block[at] = byte;
    let refused = read_node(&block).is_none();
    assert!(rt; node_size(&block).is_none() == refused);
    refused
}

#[test]
fn bytes_that_are_no_inner_block_are_refused(rt: HostRuntime) {
    assert!(rt;
        !is_refused_with(&rt, 26, 0),
        "a block of 0 is a form all the same"
    );
    for (at, byte, why) in [
        (0, b'L', "other letters"),
        (4, 0, "level 0"),
        (4, 8, "level 8"),
        (8, 0, "no child"),
        (9, 2, "too many children"),
        (12, 1, "a byte of the head"),
        (32, 1, "a key twice"),
        (16, 2, "keys that fall"),
        (44, 1, "a byte behind the children"),
        (4095, 1, "the last byte"),
    ] {
        assert!(rt; is_refused_with(&rt, at, byte), "{why}");
    }
}

#[test]
fn descent_goes_to_the_last_child_that_is_not_above(rt: HostRuntime) {
    let (first, second, third) = (child(1, 5, 35), child(2, 0, 36), child(2, 9, 34));
    let mut block = [0; 4096];
    write_node(3, &[first, second, third], &mut block);
    // Between two, below all, and the last.
    for (to, index, child) in [
        (key(2, 8), 1, second),
        (key(0, 0), 0, first),
        (key(2, 9), 2, third),
    ] {
        let way = Way {
            level: 3,
            count: 3,
            index,
            child,
        };
        assert!(rt; find_child(&block, to) == Some(way));
    }
    assert!(rt; lowest_key(&block) == key(1, 5));
    block[8] = 0;
    assert!(rt; find_child(&block, key(2, 8)).is_none(), "no child");
}

const OLD: Child = Child {
    low: Key {
        table: 1,
        number: 5,
    },
    block: 35,
};

const LEFT: Child = Child {
    low: Key {
        table: 1,
        number: 4,
    },
    block: 99,
};

const MIDDLE: Child = Child {
    low: Key {
        table: 1,
        number: 6,
    },
    block: 101,
};

const RIGHT: Child = Child {
    low: Key {
        table: 1,
        number: 7,
    },
    block: 100,
};

/// Which of three children becomes others, which these are, and the children then.
const ROWS: [(usize, &[Child], &[Child]); 7] = [
    (1, &[LEFT], &[OLD, LEFT, OLD]),
    (0, &[LEFT, RIGHT], &[LEFT, RIGHT, OLD, OLD]),
    (1, &[LEFT, RIGHT], &[OLD, LEFT, RIGHT, OLD]),
    (2, &[LEFT, RIGHT], &[OLD, OLD, LEFT, RIGHT]),
    (0, &[LEFT, MIDDLE, RIGHT], &[LEFT, MIDDLE, RIGHT, OLD, OLD]),
    (1, &[LEFT, MIDDLE, RIGHT], &[OLD, LEFT, MIDDLE, RIGHT, OLD]),
    (2, &[LEFT, MIDDLE, RIGHT], &[OLD, OLD, LEFT, MIDDLE, RIGHT]),
];

/// Puts others in the place of a child of an inner block of `count` children.
fn divide(rt: &impl Abort, block: &mut Block, count: usize, index: usize, others: &[Child]) {
    assert!(rt; index < count && count < 256);
    match others {
        [other] => set_child(block, index, *other),
        [left, right] => divide_child(block, count, index, *left, *right),
        [left, middle, right] if count < 255 => {
            divide_in_three(block, count, index, *left, *middle, *right);
        }
        _ => panic!(rt; "{} others", others.len()),
    }
}

/// Puts others in the place of one of these children, which must be those after it then.
fn plays(rt: &impl Abort, before: &[Child], index: usize, others: &[Child], after: &[Child]) {
    let count = before.len();
    assert!(rt; count <= 256 && after.len() <= 256);
    for level in [1, 7] {
        let mut block = [0; 4096];
        let mut written = [7; 4096];
        write_node(level, before, &mut block);
        write_node(level, after, &mut written);
        divide(rt, &mut block, count, index, others);
        let made = others.len();
        assert!(rt; block == written, "{index} of {count} becomes {made}");
    }
}

#[test]
fn child_becomes_others_where_it_stands(rt: HostRuntime) {
    for (index, others, after) in &ROWS {
        plays(&rt, &[OLD; 3], *index, others, after);
    }
    // The last of as many as there is room for.
    let mut after = [OLD; 256];
    after[255] = RIGHT;
    plays(&rt, &[OLD; 255], 254, &[OLD, RIGHT], &after);
    after[254] = MIDDLE;
    plays(&rt, &[OLD; 254], 253, &[OLD, MIDDLE, RIGHT], &after);
}
