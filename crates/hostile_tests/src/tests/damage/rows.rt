//! What is written on a disk, and what opening it then answers.
use super::pieces::Piece;
use super::pieces::Piece::{Bounds, Byte, Children, Empties, Leaf, Node, Slot, Word};
use vm_types::Refusal;

/// What is written on a store whose first alternative has one record in block 34, and then the
/// number of free blocks, or why the store is refused.
pub const ROWS: [(&'static [Piece], Result<u32, Refusal>); 26] = [
    (&[], Ok(29)),
    (&[Byte(0, 8, 2)], Err(Refusal::NotAStore)),
    (&[Byte(1, 0, 7)], Err(Refusal::Damaged(18))),
    (&[Word(2, 12, 0)], Err(Refusal::Damaged(2))),
    (&[Word(2, 12, 512)], Err(Refusal::Damaged(2))),
    (&[Byte(2, 16, 1)], Err(Refusal::Damaged(2))),
    (&[Children(39)], Ok(29)),
    (
        &[Children(39), Byte(3, 128, b'B')],
        Err(Refusal::Damaged(2)),
    ),
    (&[Slot(&[(b"b", b"top", 0, 0), (b"a", b"b", 0, 0)])], Ok(29)),
    (
        &[Slot(&[(b"a", b"b", 0, 0), (b"b", b"top", 0, 0)])],
        Err(Refusal::Damaged(2)),
    ),
    (&[Word(2, 8, 65)], Err(Refusal::BadSize)),
    (&[Byte(2, 256, 1), Byte(2, 4095, 9), Byte(3, 0, 7)], Ok(29)),
    (&[Leaf(34, &[1, 1])], Err(Refusal::Damaged(34))),
    (
        &[Node(34, 2, &[(1, 35)]), Leaf(35, &[1])],
        Err(Refusal::Damaged(35)),
    ),
    (
        &[Node(34, 1, &[(1, 35)]), Leaf(35, &[2])],
        Err(Refusal::Damaged(35)),
    ),
    (
        &[
            Node(34, 1, &[(1, 35), (3, 36)]),
            Leaf(35, &[1, 3]),
            Leaf(36, &[3]),
        ],
        Err(Refusal::Damaged(35)),
    ),
    (
        &[Node(34, 1, &[(1, 35), (3, 35)]), Leaf(35, &[1, 2])],
        Err(Refusal::Damaged(35)),
    ),
    (&[Node(34, 1, &[(1, 35)]), Leaf(35, &[1])], Ok(28)),
    (
        &[
            Node(34, 1, &[(1, 35), (2, 36)]),
            Leaf(35, &[1]),
            Leaf(36, &[2]),
            Slot(&[(b"a", b"top", 35, 34)]),
        ],
        Ok(27),
    ),
    (&[Node(34, 1, &[(1, 34)])], Err(Refusal::Damaged(34))),
    (&[Word(2, 128 + 67, 64)], Err(Refusal::Damaged(64))),
    (&[Word(2, 128 + 67, 33)], Err(Refusal::Damaged(33))),
    (&[Node(34, 1, &[(1, 0)])], Err(Refusal::Damaged(0))),
    (&[Node(34, 1, &[(1, 64)])], Err(Refusal::Damaged(64))),
    (&[Byte(2, 128 + 34, 4)], Err(Refusal::Damaged(2))),
    (&[Byte(2, 128 + 2, b' ')], Err(Refusal::Damaged(2))),
];

/// A leaf in block 34 with a value of 300 bytes, from byte 28 on.
const ONE: Piece = Bounds(34, &[(1, 300)]);

/// The letters LEAF, LEF2 and LONG as numbers.
const EARLIER: [u32; 3] = [0x4641_454C, 0x3246_454C, 0x474E_4F4C];

/// The same for formats and the forms of leaves.
pub const LEAF_ROWS: [(&'static [Piece], Result<u32, Refusal>); 52] = [
    (&[Byte(0, 8, 1)], Err(Refusal::NotAStore)),
    (&[Byte(0, 8, 4)], Err(Refusal::NotAStore)),
    (&[Byte(2, 4, 0)], Err(Refusal::Damaged(2))),
    (&[Byte(2, 4, 1)], Err(Refusal::Damaged(2))),
    (&[Byte(2, 4, 2)], Err(Refusal::Damaged(2))),
    (&[Byte(2, 4, 4)], Err(Refusal::Damaged(2))),
    (&[Byte(2, 5, 1)], Err(Refusal::Damaged(2))),
    (&[Word(34, 0, EARLIER[0])], Err(Refusal::Damaged(34))),
    (&[Word(34, 0, EARLIER[1])], Err(Refusal::Damaged(34))),
    (&[Word(34, 0, EARLIER[2])], Err(Refusal::Damaged(34))),
    // The head.
    (&[ONE], Ok(29)),
    (&[ONE, Byte(34, 0, b'M')], Err(Refusal::Damaged(34))),
    (&[ONE, Byte(34, 4, 1)], Err(Refusal::Damaged(34))),
    (&[ONE, Byte(34, 12, 1)], Err(Refusal::Damaged(34))),
    (&[ONE, Byte(34, 15, 1)], Err(Refusal::Damaged(34))),
    (&[ONE, Word(34, 8, 0)], Err(Refusal::Damaged(34))),
    (&[ONE, Word(34, 8, 2)], Err(Refusal::Damaged(34))),
    (&[ONE, Word(34, 8, 341)], Err(Refusal::Damaged(34))),
    (&[ONE, Word(34, 8, 65_537)], Err(Refusal::Damaged(34))),
    (&[Empties(34, 340)], Ok(29)),
    (
        &[Empties(34, 340), Byte(34, 8, 85)],
        Err(Refusal::Damaged(34)),
    ),
    (
        &[Empties(34, 340), Byte(34, 8, 83)],
        Err(Refusal::Damaged(34)),
    ),
    // Keys.
    (&[Bounds(34, &[(1, 10), (2, 20)])], Ok(29)),
    (
        &[Bounds(34, &[(1, 10), (1, 20)])],
        Err(Refusal::Damaged(34)),
    ),
    (
        &[Bounds(34, &[(2, 10), (1, 20)])],
        Err(Refusal::Damaged(34)),
    ),
    (
        &[Bounds(34, &[(1, 10), (2, 20)]), Byte(34, 16, 2)],
        Err(Refusal::Damaged(34)),
    ),
    (&[Bounds(34, &[(1, 10), (2, 20)]), Byte(34, 28, 2)], Ok(29)),
    // Ends.
    (
        &[Bounds(34, &[(1, 0), (2, 0), (3, 1), (4, 241), (5, 482), (6, 4000)])],
        Ok(29),
    ),
    (
        &[Bounds(34, &[(1, 300), (2, 299)])],
        Err(Refusal::Damaged(34)),
    ),
    (&[Bounds(34, &[(1, 4000)])], Ok(29)),
    (&[Bounds(34, &[(1, 4001)])], Err(Refusal::Damaged(34))),
    (&[Bounds(34, &[(1, 10), (2, 4010)])], Ok(29)),
    (
        &[Bounds(34, &[(1, 10), (2, 4011)])],
        Err(Refusal::Damaged(34)),
    ),
    (&[Bounds(34, &[(1, 4000), (2, 4056)])], Ok(29)),
    (
        &[Bounds(34, &[(1, 4000), (2, 4057)])],
        Err(Refusal::Damaged(34)),
    ),
    (
        &[Bounds(34, &[(1, 2000), (2, 65_535)])],
        Err(Refusal::Damaged(34)),
    ),
    (
        &[Bounds(34, &[(1, 65_535), (2, 20)])],
        Err(Refusal::Damaged(34)),
    ),
    // The value, which ends before byte 328.
    (&[ONE, Byte(34, 327, 0)], Ok(29)),
    (&[ONE, Byte(34, 28, b'b')], Ok(29)),
    (&[ONE, Byte(34, 328, 1)], Err(Refusal::Damaged(34))),
    (&[ONE, Byte(34, 4095, 1)], Err(Refusal::Damaged(34))),
    (&[ONE, Byte(34, 26, 0x2B)], Err(Refusal::Damaged(34))),
    (&[ONE, Byte(34, 26, 0x2D)], Ok(29)),
    // Leaves below an inner block, and in two trees.
    (&[Node(34, 1, &[(1, 35)]), Bounds(35, &[(1, 4000)])], Ok(28)),
    (
        &[Node(34, 1, &[(1, 35)]), Bounds(35, &[(1, 4001)])],
        Err(Refusal::Damaged(35)),
    ),
    (
        &[Node(34, 1, &[(1, 35)]), Bounds(35, &[(2, 300)])],
        Err(Refusal::Damaged(35)),
    ),
    (
        &[
            Node(34, 1, &[(1, 35), (2, 36), (3, 37)]),
            Bounds(35, &[(1, 1300)]),
            Bounds(36, &[(2, 4000)]),
            Bounds(37, &[(3, 1300)]),
        ],
        Ok(26),
    ),
    (
        &[
            Node(34, 1, &[(1, 35), (2, 36)]),
            Bounds(35, &[(1, 10), (2, 20)]),
            Bounds(36, &[(2, 4000)]),
        ],
        Err(Refusal::Damaged(35)),
    ),
    (&[ONE, Slot(&[(b"a", b"top", 34, 34)])], Ok(29)),
    (
        &[
            ONE,
            Slot(&[(b"a", b"top", 35, 34)]),
            Bounds(35, &[(1, 301), (2, 301)]),
        ],
        Ok(28),
    ),
    (
        &[
            ONE,
            Slot(&[(b"a", b"top", 35, 34)]),
            Bounds(35, &[(1, 301), (2, 300)]),
        ],
        Err(Refusal::Damaged(35)),
    ),
    (
        &[ONE, Slot(&[(b"a", b"top", 36, 34)])],
        Err(Refusal::Damaged(36)),
    ),
];
