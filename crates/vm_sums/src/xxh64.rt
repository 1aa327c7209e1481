//! XXH64 of a block.
ghost use Rattle.std.specs.Prelude.{◌≡◌, ◌+◌, ◌≤◌};
ghost use Rattle.vm_sums.specs.Hash.{after_stripe, first_lanes, hash_of, joined, lanes_after, merged, rounded, spread, word_at};

use byteorder::{ByteOrder, LittleEndian};
use vm_types::{BLOCK_SIZE, Block};

const PRIME_1: u64 = 0x9E37_79B1_85EB_CA87;

const PRIME_2: u64 = 0xC2B2_AE3D_27D4_EB4F;

const PRIME_3: u64 = 0x1656_67B1_9E37_79F9;

const PRIME_4: u64 = 0x85EB_CA77_C2B2_AE63;

/// How many bytes the lanes take in at once.
const STRIPE: usize = 32;

/// Four sums side by side, each of every fourth word.
#[derive(Clone, Copy)]
struct Lanes {
    first: u64,
    second: u64,
    third: u64,
    fourth: u64,
}

/// A lane after a word.
fn round(lane: u64, word: u64) -> u64
    ensures { result ≡ rounded lane word }
{
    lane.wrapping_add(word.wrapping_mul(PRIME_2))
        .rotate_left(31)
        .wrapping_mul(PRIME_1)
}

/// The word at a place.
fn word(bytes: &Block, at: usize) -> u64
    requires { at + 8 ≤ BLOCK_SIZE }
    ensures { result ≡ word_at at bytes.now }
{
    LittleEndian::read_u64(&bytes[at..])
}

impl Lanes {
    /// The lanes before the first stripe.
    fn new() -> Lanes
        ensures { result ≡ first_lanes }
    {
        Lanes {
            first: PRIME_1.wrapping_add(PRIME_2),
            second: PRIME_2,
            third: 0,
            fourth: 0_u64.wrapping_sub(PRIME_1),
        }
    }

    /// Takes in the stripe at a place.
    fn take(self, bytes: &Block, at: usize) -> Lanes
        requires { at + STRIPE ≤ BLOCK_SIZE }
        ensures { result ≡ after_stripe bytes.now at self }
    {
        Lanes {
            first: round(self.first, word(bytes, at)),
            second: round(self.second, word(bytes, at + 8)),
            third: round(self.third, word(bytes, at + 16)),
            fourth: round(self.fourth, word(bytes, at + 24)),
        }
    }

    /// The lanes as one number.
    fn join(self) -> u64
        ensures { result ≡ joined self }
    {
        let four = self
            .first
            .rotate_left(1)
            .wrapping_add(self.second.rotate_left(7))
            .wrapping_add(self.third.rotate_left(12))
            .wrapping_add(self.fourth.rotate_left(18));
        let one = merge(four, self.first);
        let two = merge(one, self.second);
        let three = merge(two, self.third);
        merge(three, self.fourth)
    }
}

/// A hash with a lane merged into it.
fn merge(hash: u64, lane: u64) -> u64
    ensures { result ≡ merged hash lane }
{
    (hash ^ round(0, lane))
        .wrapping_mul(PRIME_1)
        .wrapping_add(PRIME_4)
}

/// Each bit of a number spread over all of them.
fn avalanche(hash: u64) -> u64
    ensures { result ≡ spread hash }
{
    let once = (hash ^ (hash >> 33)).wrapping_mul(PRIME_2);
    let twice = (once ^ (once >> 29)).wrapping_mul(PRIME_3);
    twice ^ (twice >> 32)
}

/// The lanes after all stripes of a block.
fn taken_in(bytes: &Block) -> Lanes
    ensures { result ≡ lanes_after bytes.now 128 }
{
    let mut lanes = Lanes::new();
    for stripe in 0..BLOCK_SIZE / STRIPE {
        lanes = lanes.take(bytes, STRIPE * stripe);
    }
    lanes
}

/// XXH64 with seed 0 of the bytes of a block.
pub fn hash(bytes: &Block) -> u64
    ensures { result ≡ hash_of bytes.now }
{
    avalanche(taken_in(bytes).join().wrapping_add(BLOCK_SIZE as u64))
}
