//! Disks of blocks of 4,096 bytes: the trait that the layers above are written against, what it
//! promises while the device is honest and when it is not, and disks that keep the promise: one in
//! memory, one over a file, one that fails where a test asks it to, one that caches the most
//! recently used blocks of another, and one that delays the writes to another.
//!
//! It stands on `vm_types`, which gives it the block size, and on `lru` for the order of the blocks
//! that are kept, wait or were written. Its one promise: contracts know what an honest disk holds
//! at each moment, and with it everything that a crash at that moment may leave.
#![tactic(auto)]

mod cached;
mod delayed;
mod disk;
mod file;
mod fuse;
mod history;
mod kept;
mod layers;
mod memory;
mod positional;
mod rooms;
mod system;
mod waiting;

pub use cached::CachedDisk;
pub use delayed::DelayedDisk;
pub use disk::{DeviceFault, Disk, Need};
pub use file::FileDisk;
pub use fuse::FuseDisk;
pub use history::{History, noted_bytes};
pub use memory::MemDisk;
pub use positional::{MAX_ZEROS, Positional};
pub use system::{LAST_STANDARD, SystemFile, World};
