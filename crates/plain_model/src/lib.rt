//! A plain model of the store: alternatives with their checkpoints, and whole maps in lists.
//!
//! It stands on the words of vm_types. Its one promise: it answers and changes exactly what the
//! definitions say, so what the simulation finds equal in the store is what the definitions say.
#![tactic(auto)]

mod alternative;
mod held;
mod map;
mod map_changes;
mod plain;
mod settlements;
#[tactic(auto, unfolding(vm_types::specs::Step::or_refuse, vm_types::specs::Step::refuse_if, vm_types::specs::Step::refuse_found))]
mod steps;

pub use map_changes::changes;
pub use plain::Plain;
