//! Walks of trees in blocks: `mark` marks what lies under roots that are known to be sound,
//! `find_trees` finds the roots of the trees under block numbers and marks what lies under them,
//! `verify` validates the trees under untrusted block numbers, and `copy_tree` copies a tree to
//! another disk.
//!
//! It stands on `vm_types`, `vm_disk`, `vm_alloc`, `vm_block` and `vm_tree`. Its promises: the
//! walks only read the disk that they walk, with at most one read for each block that they mark or
//! copy; the marks grow by exactly what is reached; if each number has a tree, `find_trees` finds
//! them; `verify` is Ok exactly when each has one, unless the device fails or memory cannot be
//! allocated; and under the root of a copy lies the same map, in the copies of its blocks. Nothing
//! in a leaf names a block, so `mark` reads no leaf.
#![tactic(auto)]

mod form;
mod marks;
mod notes;
mod noting;
mod renumbering;
mod tree_copy;
mod trees;
mod verification;

pub use marks::mark;
pub use renumbering::Renumbering;
pub use tree_copy::{CopyFault, copy_tree};
pub use trees::find_trees;
pub use verification::{survey, verify};
