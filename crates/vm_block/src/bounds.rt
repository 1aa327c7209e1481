//! The entries of a leaf: each has a key, and says where the value ends among the values.
ghost use Rattle.std.specs.Prelude.{◌≡◌, ◌+◌, ◌*◌, ◌<◌, ◌≤◌, ◌^◌, ◌++◌, ◌↔◌, length, map, drop, IsTrue, IfSome, IsSome};
ghost use Rattle.std.specs.List.{flat_map};
ghost use Rattle.vm_block.specs.Bounds.{BoundFits, IsNext, IsSound, bound_of, bounds_of, last_end, moved};
ghost use Rattle.vm_block.specs.Leaf.{bound_bytes};

use crate::bytes::put;
use crate::keys::{read_key, write_key};
use byteorder::{ByteOrder, LittleEndian};
use vm_types::{Key, Value};

/// A record's key, and where its value ends among the values of the leaf.
#[derive(Clone, Copy, Debug, PartialEq, Eq)]
pub(crate) struct Bound {
    pub key: Key,
    pub end: u16,
}

pub(crate) fn read_bound(bytes: &[u8]) -> Bound
    requires { 12 ≤ length bytes.now }
    ensures spelled { bound_of bytes.now ≡ result }
    ensures fits { BoundFits result }
{
    Bound {
        key: read_key(bytes),
        end: LittleEndian::read_u16(&bytes[10..]),
    }
}

pub(crate) fn write_bound(bound: Bound, out: &mut [u8])
    requires { 12 ≤ length out.old }
    ensures { out.new ≡ bound_bytes bound ++ drop 12 out.old }
{
    write_key(bound.key, out);
    LittleEndian::write_u16(&mut out[10..], bound.end);
}

/// Whether an entry may follow, where the keys before it are below `low` and the values end at
/// `from`.
fn is_next(bound: Bound, low: u128, from: usize) -> bool
    requires { from < 2 ^ 16 }
    ensures { IsTrue result ↔ IsNext low from bound }
{
    let end = usize::from(bound.end);
    low <= bound.key.place() && from <= end && end <= from + Value::MAX_LEN
}

/// Where the last of `count` values ends, if each entry may follow those before it.
pub(crate) fn bounds_end(bytes: &[u8], count: usize) -> Option<usize>
    requires { 12 * count ≤ length bytes.now }
    ensures small { IfSome result (λ end. end < 2 ^ 16) }
    ensures found { IfSome result (λ end. IsSound 0 0 (bounds_of count bytes.now) × (end ≡ last_end 0 (bounds_of count bytes.now))) }
    ensures only { IsSound 0 0 (bounds_of count bytes.now) → IsSome result }
{
    let mut low = 0;
    let mut from = 0;
    for i in 0..count {
        let bound = read_bound(&bytes[12 * i..]);
        if !is_next(bound, low, from) {
            return None;
        }
        low = bound.key.place() + 1;
        from = usize::from(bound.end);
    }
    Some(from)
}

/// Writes `count` entries, of values that stood after `from` bytes of values, for values that
/// stand after `to`.
pub(crate) fn move_bounds(bytes: &[u8], count: usize, from: usize, to: usize, out: &mut [u8])
    requires there { 12 * count ≤ length bytes.now }
    requires room { 12 * count ≤ length out.old }
    requires small { to < 2 ^ 16 }
    ensures { out.new ≡ flat_map bound_bytes (map (moved from to) (bounds_of count bytes.now)) ++ drop (12 * count) out.old }
{
    if from == 0 && to == 0 {
        put(&bytes[..12 * count], out);
        return;
    }
    for i in 0..count {
        let bound = read_bound(&bytes[12 * i..]);
        let end = usize::from(bound.end).saturating_sub(from) + to;
        let bound = Bound {
            key: bound.key,
            end: end.min(65535) as u16,
        };
        write_bound(bound, &mut out[12 * i..]);
    }
}
