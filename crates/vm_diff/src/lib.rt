//! Differences between two maps in trees of blocks.
//!
//! It stands on `vm_types`, `vm_disk`, `vm_block` and `vm_tree`. It promises exactly the keys at
//! which the maps differ, each once and in order, with both values, for at most as many reads as
//! there are blocks that only one of the trees has. Two walks go through both trees by rising keys,
//! and skip each subtree that comes next in both.
#![tactic(auto)]

mod children;
mod comparison;
mod cursor;
mod descent;
mod front;
mod part;
mod records;
mod shared;
mod steps;

pub use comparison::{changed, changed_part, same};
