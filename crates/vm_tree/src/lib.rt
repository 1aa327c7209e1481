//! Maps in trees of blocks: a map is a root with inner blocks below it, and leaves with the
//! records. A change writes the blocks of one path, in their own places or as copies, and leaves
//! all others as they are.
//!
//! It stands on `vm_types`, `vm_disk`, `vm_alloc`, `vm_block` and `arrayvec`. Its one promise: the
//! new root has the map changed at one key, and at no moment does a block that was held, and is in
//! the baseline if one is given, have other bytes than before. Which map lies under a root, and in
//! which blocks of a disk, is defined here (`specs/Tree.antt`).
//!
//! A descent works on the bytes of blocks. It compares the head and the first key of each inner
//! block with what its parent says, and tests the whole form of a leaf, before any block is taken.
//! A block that differs is refused, and never copied or changed. A change of one child is made in
//! the bytes. `get`, `has` and `put` decode no block except a full inner block that splits, and
//! `scan` decodes no leaf. A part or a page of a map is read by the walk of `scan`. It enters no
//! child that has nothing of it, except one at each level: the one before its first record. The
//! walks of the crates above read single blocks with `data_at`, `load_data`, `node_into`, and
//! `scan` with `leaf_into` and `node_at`. A data block takes one read, and any other block none.
#![tactic(auto)]

mod block_reads;
mod block_writes;
mod child_lists;
mod faults;
mod insertion;
mod laws;
mod lookup;
mod ranges;
mod removal;
mod root;
mod window;

pub use block_reads::{data_at, is_data, leaf_into, load_data, node_at, node_into};
pub use faults::{ListFault, PutFault, TreeFault};
pub use insertion::put;
pub use laws::one_tree;
pub use lookup::{get, has};
pub use ranges::{scan, scan_from, scan_part};
pub use removal::remove;
pub use root::Root;
