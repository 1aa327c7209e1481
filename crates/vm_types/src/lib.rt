//! The words of the store: keys, values, names, commands, answers and refusals, the model that
//! every crate above is proved against, the result of merging two lists of changes, and the sizes
//! that all crates keep to.
//!
//! It stands on the standard library alone and knows nothing of disks. Its one promise: the limits
//! of a value and of a name hold exactly, and keys are ordered by table, then by number.
#![tactic(auto)]

mod answer;
mod at;
mod change;
mod changes;
mod command;
mod conflicts;
mod key;
pub mod laws;
mod merge;
mod name;
mod packed;
mod records;
mod refusal;
mod settlements;
mod sizes;
mod value;
mod values;

pub use answer::Answer;
pub use at::{At, Of};
pub use change::{Change, Conflict};
pub use changes::Changes;
pub use command::{Command, Settled, Side};
pub use conflicts::Conflicts;
pub use key::Key;
pub use merge::{MergePlan, conflicts_between, keys_in_conflict, plan_merge};
pub use name::Name;
pub use packed::{PackedIter, PackedList};
pub use records::Records;
pub use refusal::Refusal;
pub use settlements::settled_refusal;
pub use sizes::{BLOCK_SIZE, Block, BlockNumber, FIRST_DATA, MAX_BLOCKS, MAX_VERSIONS, MIN_BLOCKS};
pub use value::{Value, ValueRef};
