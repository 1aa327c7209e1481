//! The program `altctl`: its words, the lines that it answers, and its files.
//!
//! It stands on vm_store, on vm_types, on vm_disk for files as disks, on vm_alloc for marks on
//! damaged blocks, on vm_block for the header of a store, on `clap` for its words, and on
//! `thiserror`, `itoa` and `memchr`. Its one promise: the job is the one that the words ask for,
//! each line is read and each value written by their rules, and whatever files, input and output
//! do, the program ends with a status of 0 to 4.
#![tactic(auto)]

mod answers;
mod lines;
mod program;
mod session;

pub use program::console::Console;
pub use program::file_lock::{NoLock, lock};
pub use program::mem_files::MemFiles;
pub use program::place::{Place, RealFiles};
pub use program::progress::{Cleared, Progress, Watched};
pub use program::task::{InMemory, Job, buffer_for};
pub use program::words::job;
pub use program::{refuse_lock, refuse_words, run_words, stop};
pub use session::batches::serve_batches;
pub use session::planners::serve_planners;
pub use session::{Grouping, Manner, OnCommand, OnRefusal, ServeFault, serve};
pub use vm_disk::FileDisk;
