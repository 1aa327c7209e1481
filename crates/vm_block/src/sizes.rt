//! The limits of a block of a tree.

/// The maximum number of children of an inner block.
pub const MAX_CHILDREN: usize = 256;

/// The maximum level of an inner block, above the leaves, whose level is 0.
pub const MAX_LEVEL: u8 = 7;

/// The maximum number of records of a leaf, all of them with empty values.
pub const MAX_RECORDS: usize = 340;

/// How many bytes of a leaf its records may take: twelve for each, and its value.
pub const LEAF_ROOM: usize = 4080;
