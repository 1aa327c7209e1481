//! `libaltstore`: the store in memory, in the process of a program in C.
//!
//! It stands on vm_store, on vm_cli for lines and answers, on vm_disk for a disk in memory, and on
//! `io` for reading and writing a descriptor. Its one promise: lines are answered as the program
//! answers them, a store that is loaded shows what the blocks of its image show, and an image that
//! is saved has the blocks of its store.
#![tactic(auto)]

mod answers;
mod descriptor;
mod exports;
mod handle;
mod held;
mod image;
mod lifetime;
mod lines;
mod outcome;
mod parts;
mod session;
mod sessions;
mod slot;

pub use exports::{
    altstore_answers, altstore_ask, altstore_close, altstore_length, altstore_load,
    altstore_load_bytes, altstore_new, altstore_save,
};
pub use held::Held;
pub use session::Session;
pub use slot::Slot;
