//! Sessions on the store and on the plain model side by side, and scripts with a device that fails
//! at each call in turn.
mod cast;
mod device_calls;
mod device_faults;
mod dice;
mod merges;
mod model;
mod scripts;
mod sessions;
mod states;
mod tally;
mod trees;

/// The minimum number of blocks of a store.
const BLOCKS: u32 = 64;
