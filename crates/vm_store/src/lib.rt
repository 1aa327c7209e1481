//! The store: commands and queries over any disk of blocks.
//!
//! It stands on vm_types for its words, on vm_disk and vm_block for disks and the contents of their
//! blocks, on vm_catalog for the entries and their slots, on vm_tree, vm_diff and vm_check for the
//! maps, and on vm_alloc for the blocks that are held. Its one promise: commands answer and change
//! what the model says, and a crash at any moment of them shows the model after a prefix of the
//! commands that is empty or ends with a commit, and that includes every commit that was
//! acknowledged.
#![tactic(auto)]

mod change_list;
mod laws;
mod series;
mod sides;
mod store;
mod tally;
mod version;
mod versions;

pub use laws::one_tree_shown;
pub use store::{Stop, Store, copy, format, open, open_surveyed, open_whole};
pub use tally::Tally;

/// The maximum number of children of an inner block.
const FAN: usize = vm_block::MAX_CHILDREN;

/// The maximum number of levels of a tree.
const LEVELS: usize = vm_block::MAX_LEVEL as usize + 1;
