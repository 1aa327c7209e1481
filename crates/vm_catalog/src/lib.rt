//! The catalog of a store: the list of alternatives and checkpoints with their roots, which is in
//! one of two slots on a disk, and the selector, which names that slot.
//!
//! It stands on `vm_types` for names, on `vm_disk` for disks and on `vm_block` for the forms of
//! blocks. Its one promise: `load` returns exactly the entries of a slot and only reads; and
//! whenever `publish` is stopped, a disk shows the entries from before it or the new ones, never a
//! mixture.
#![tactic(auto)]

mod laws;
mod ledger;
mod place;
mod reader;
mod selection;
mod writer;

pub use laws::one_catalog;
pub use place::first_block;
pub use reader::{LoadFault, Slot, load};
pub use selection::{select_slot, slot_in_use};
pub use writer::{publish, write_slot};
