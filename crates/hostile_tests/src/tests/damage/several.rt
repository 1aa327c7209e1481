//! Several damages of one disk, and which blocks are named.
use super::pieces::Piece;
use super::pieces::Piece::{Byte, Leaf, Node, Slot};

/// What is written on a store whose first alternative has one record in block 34, and then the
/// numbers that are named: the first that is met, and then the others in rising order. A block from 35
/// on that is not written is zero.
pub const SEVERAL: [(&'static [Piece], &'static [u32]); 17] = [
    (&[], &[]),
    (&[Byte(34, 0, 0)], &[34]),
    // A slot is named alone.
    (&[Byte(2, 16, 1), Byte(34, 0, 0)], &[2]),
    // Leaves under an inner block.
    (
        &[Node(34, 1, &[(1, 35), (2, 36), (3, 37)]), Leaf(35, &[1])],
        &[36, 37],
    ),
    (
        &[Node(34, 1, &[(1, 37), (2, 36), (3, 35)]), Leaf(36, &[2])],
        &[37, 35],
    ),
    // Roots: the current one before the base.
    (&[Slot(&[(b"a", b"top", 36, 35)])], &[36, 35]),
    (
        &[Byte(34, 0, 0), Slot(&[(b"a", b"top", 36, 35)])],
        &[34, 35, 36],
    ),
    // A damaged inner block hides what lies under it, unless another block lists that.
    (
        &[
            Node(34, 2, &[(1, 35), (5, 36)]),
            Node(35, 1, &[(1, 37)]),
            Byte(35, 0, 0),
            Node(36, 1, &[(5, 38)]),
        ],
        &[35, 38],
    ),
    (
        &[
            Node(34, 2, &[(1, 35), (5, 36)]),
            Node(35, 1, &[(1, 37)]),
            Byte(35, 0, 0),
            Node(36, 1, &[(5, 38)]),
            Slot(&[(b"a", b"top", 37, 0)]),
        ],
        &[35, 37, 38],
    ),
    // Other keys than are listed.
    (
        &[
            Node(34, 1, &[(1, 35), (3, 36)]),
            Leaf(35, &[2]),
            Leaf(36, &[4]),
        ],
        &[35, 36],
    ),
    (
        &[
            Node(34, 1, &[(1, 35), (3, 36), (5, 37)]),
            Leaf(35, &[1, 3]),
            Leaf(36, &[3, 4]),
        ],
        &[35, 37],
    ),
    // A key that is listed for a damaged child is under the inner block, and too high there.
    (
        &[
            Node(34, 2, &[(1, 35), (5, 36)]),
            Node(35, 1, &[(1, 37), (7, 38)]),
            Leaf(37, &[1]),
            Node(36, 1, &[(5, 39)]),
            Leaf(39, &[5]),
        ],
        &[38, 35],
    ),
    // A block that is whole where it is met first, and not where it is listed again.
    (
        &[
            Node(34, 1, &[(1, 35)]),
            Leaf(35, &[1]),
            Node(36, 1, &[(2, 35), (5, 37)]),
            Slot(&[(b"a", b"top", 36, 0)]),
        ],
        &[35, 37],
    ),
    // Wrong levels, and an inner block that is its own child.
    (
        &[
            Node(34, 2, &[(1, 35), (5, 36)]),
            Leaf(35, &[1]),
            Leaf(36, &[5]),
        ],
        &[35, 36],
    ),
    (&[Node(34, 1, &[(1, 34), (5, 35)])], &[34, 35]),
    // Numbers that are none of a data block: the first one that is met, and the blocks that list them.
    (&[Node(34, 1, &[(1, 35), (3, 5)]), Leaf(35, &[1])], &[5, 34]),
    (&[Node(34, 1, &[(1, 35), (3, 64)])], &[35, 34]),
];
