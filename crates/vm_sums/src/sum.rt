//! The sum in a block.
ghost use Rattle.std.specs.Prelude.{◌≡◌, ◌≤◌, ◌↔◌, true};
ghost use Rattle.vm_sums.specs.Sums.{IsWithoutSum, exchanged, sum_place, summed};

use crate::xxh64::hash;
use byteorder::{ByteOrder, LittleEndian};
use vm_types::{Block, BlockNumber, FIRST_DATA};

/// The place of the sum in block n.
fn place(n: BlockNumber) -> usize
    ensures place { result ≡ sum_place n }
    ensures within { result ≤ 124 }
{
    if n < FIRST_DATA { 124 } else { 12 }
}

/// Exchanges the number at a place for that number XOR the sum.
fn exchange(n: BlockNumber, place: usize, block: &mut Block)
    requires { place ≤ 124 }
    ensures { block.new ≡ exchanged n place block.old }
{
    let stored = LittleEndian::read_u32(&block[place..]);
    LittleEndian::write_u32(&mut block[place..], n);
    let sum = (hash(block) % (1 << 32)) as u32;
    LittleEndian::write_u32(&mut block[place..], stored ^ sum);
}

/// Exchanges the number in the place of a block's sum for that number XOR the sum: bytes 124 to 127 of a
/// block of a slot (2 to 33), bytes 12 to 15 of a data block. Done twice, it changes nothing.
pub fn exchange_sum(n: BlockNumber, block: &mut Block)
    ensures { block.new ≡ summed n block.old }
{
    if n >= 2 {
        exchange(n, place(n), block)
    }
}

/// Whether what block n shows is that of a block without a sum: the disk below holds zero in the
/// place of it.
pub fn is_without_sum(n: BlockNumber, block: &Block) -> bool
    ensures { (result ≡ true) ↔ IsWithoutSum n block.now }
{
    let mut below = *block;
    exchange_sum(n, &mut below);
    LittleEndian::read_u32(&below[place(n)..]) == 0
}
