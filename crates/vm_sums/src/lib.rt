//! Checksums: a disk that keeps a sum in each block of the disk below.
//!
//! It stands on `vm_types`, `vm_disk` and `byteorder`. Its one promise: the disk is a disk, and what it shows in
//! a block is what the disk below holds there, with the number in the place of the sum exchanged for that number
//! XOR the sum of the block. So a block that was written with zero in that place, as every form of a block has it,
//! shows zero there as long as the disk below holds the bytes that were written; and where it holds others, or
//! those of another block, zero shows there by one chance in 2^32.
//!
//! The sum is the lower half of XXH64 of the block with its number in the place of the sum. Blocks 0 and 1, the
//! header and the selector, have none.
#![tactic(auto)]

mod sum;
mod summed;
#[cfg(test)]
mod tests;
mod xxh64;

pub use sum::{exchange_sum, is_without_sum};
pub use summed::SummedDisk;
pub use xxh64::hash;
