//! The sizes that every crate above keeps to.

/// The size of a block in bytes.
pub const BLOCK_SIZE: usize = 4096;

/// The bytes of a block.
pub type Block = [u8; 4096];

/// Which block of a disk: 0 for the first one. A count of blocks is a `u32`.
pub type BlockNumber = u32;

/// The first block that may hold data. The blocks before it are the store's own.
pub const FIRST_DATA: u32 = 34;

/// The minimum number of blocks of a store.
pub const MIN_BLOCKS: u32 = 64;

/// The maximum number of blocks of a store.
pub const MAX_BLOCKS: u32 = 1 << 26;

/// The maximum number of alternatives and checkpoints of a store, together.
pub const MAX_VERSIONS: usize = 511;
