//! What test crates have in common: why a test went wrong, the player of rows of text and the words
//! in them, and a disk that records what is done to it.
//!
//! It stands on `vm_types` and `vm_disk`, and no library stands on it.
#![tactic(auto)]

mod recording_disk;
mod script;
mod words;
mod wrong;

pub use recording_disk::{Fill, RecordingDisk};
pub use script::{Mismatch, Playable, filling, plays};
pub use words::{byte, key, many_of, name, number, top, value};
pub use wrong::{Reply, Wrong};
