//! A record of a leaf, found by its key in the bytes.
ghost use Rattle.std.specs.Prelude.{◌≡◌, ℕ, ◌+◌, ◌<◌, ◌≤◌, ◌^◌, ◌↔◌, length, take, slice_index_or};
ghost use Rattle.vm_types.specs.Places.{KeyFits, place};
ghost use Rattle.vm_block.specs.Leaf.{IsLeafHead, Record, values_of};
ghost use Rattle.vm_block.specs.Look.{IfRecords, IsLook, IsWithin, end_in};

use crate::keys::read_key;
use crate::leaf::leaf_len;
use crate::sizes::MAX_RECORDS;
use crate::way::choose;
use byteorder::{ByteOrder, LittleEndian};
use vm_types::{BLOCK_SIZE, Block, Key};

/// What a leaf has of a key.
#[derive(Clone, Copy, Debug, PartialEq, Eq)]
pub enum Look {
    /// The record at this index has it.
    Found(usize),
    /// No record has it. One that had would stand before the record at this index.
    Missing(usize),
}

/// How many records a leaf has. Some exactly where the bytes begin with the head of a leaf.
pub fn records_len(bytes: &Block) -> usize
    ensures few { result ≤ MAX_RECORDS }
    ensures headed { (0 < result) ↔ ((n : ℕ) × IsLeafHead bytes.now n) }
    ensures only { IfRecords bytes.now (λ rs. result ≡ length rs) }
{
    match leaf_len(bytes) {
        Some(count) => count,
        None => 0,
    }
}

/// Where a leaf has the key. It looks only at the keys on the way, and finds none in other bytes.
pub fn find_record(bytes: &Block, key: Key) -> Look
    ensures fits { KeyFits key }
    ensures within { IsWithin result }
    ensures only { IfRecords bytes.now (IsLook (place key) result) }
{
    let place = key.place();
    let count = records_len(bytes);
    if count == 0 {
        return Look::Missing(0);
    }
    let index = choose(bytes, 12, count, place);
    let there = read_key(&bytes[16 + 12 * index..]).place();
    if there == place {
        Look::Found(index)
    } else if there < place {
        Look::Missing(index + 1)
    } else {
        Look::Missing(index)
    }
}

/// Where the value before record `i` ends among the values of a leaf.
pub(crate) fn end_before(bytes: &Block, i: usize) -> usize
    requires { i ≤ MAX_RECORDS }
    ensures small { result < 2 ^ 16 }
    ensures only { IfRecords bytes.now (λ rs. i ≤ length rs → result ≡ length (values_of (take i rs))) }
{
    if i == 0 {
        return 0;
    }
    usize::from(LittleEndian::read_u16(&bytes[14 + 12 * i..]))
}

/// Where in the block the values stand of the records from `from` to before `to`.
pub(crate) fn values_range(bytes: &Block, from: usize, to: usize) -> (usize, usize)
    requires order { from ≤ to }
    requires few { to ≤ MAX_RECORDS }
    ensures order { result.0 ≤ result.1 }
    ensures within { result.1 ≤ BLOCK_SIZE }
    ensures low { IfRecords bytes.now (λ rs. to ≤ length rs → result.0 ≡ end_in rs from) }
    ensures high { IfRecords bytes.now (λ rs. to ≤ length rs → result.1 ≡ end_in rs to) }
{
    let start = 16 + 12 * records_len(bytes);
    let high = (start + end_before(bytes, to)).min(BLOCK_SIZE);
    let low = (start + end_before(bytes, from)).min(high);
    (low, high)
}

/// The value of the record at this index, if a leaf has it.
pub fn record_value(bytes: &Block, index: usize) -> &[u8]
    requires { index < MAX_RECORDS }
    ensures short { length result.now ≤ BLOCK_SIZE }
    ensures value { IfRecords bytes.now
        (λ rs. (d : Record) → index < length rs → result.now ≡ (slice_index_or rs index d).1) }
{
    let (low, high) = values_range(bytes, index, index + 1);
    &bytes[low..high]
}

/// The key of the record at this index, if a leaf has it.
pub fn record_key(bytes: &Block, index: usize) -> Key
    requires { index < MAX_RECORDS }
    ensures fits { KeyFits result }
    ensures key { IfRecords bytes.now
        (λ rs. (d : Record) → index < length rs → (slice_index_or rs index d).0 ≡ result) }
{
    read_key(&bytes[16 + 12 * index..])
}
