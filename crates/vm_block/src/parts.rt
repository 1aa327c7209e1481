//! Records as a part of a leaf has them, and a leaf that is written from three such parts.
ghost use Rattle.std.specs.Prelude.{◌≡◌, ◌+◌, ◌*◌, ◌-◌, ◌<◌, ◌≤◌, ◌^◌, ◌++◌, ◌∷◌, [], false, length, take, drop};
ghost use Rattle.std.specs.List.{flat_map};
ghost use Rattle.vm_types.specs.Places.{KeyFits};
ghost use Rattle.vm_block.specs.Bounds.{bounds_of};
ghost use Rattle.vm_block.specs.Leaf.{bound_bytes, bounds_from, leaf_bytes, values_of};
ghost use Rattle.vm_block.specs.Look.{IfRecords};
ghost use Rattle.vm_block.specs.Parts.{HasBounds, IfParts, IsPart, IsWritten, PartFits, part_size};

use crate::bounds::{Bound, move_bounds, write_bound};
use crate::bytes::{put, put_zeros};
use crate::leaf::write_leaf_head;
use crate::look::{end_before, values_range};
use crate::sizes::{LEAF_ROOM, MAX_RECORDS};
use vm_types::{Block, Key};

/// Records one after the other.
#[derive(Clone, Copy, Debug)]
pub(crate) struct Part<'a> {
    /// How many records.
    pub count: usize,
    /// How many bytes of values stand before theirs, according to their entries.
    pub before: usize,
    /// Their entries.
    pub bounds: &'a [u8],
    /// Their values.
    pub values: &'a [u8],
}

/// The records of a leaf from `from` to before `to`.
pub(crate) fn part_of(bytes: &Block, from: usize, to: usize) -> Part<'_>
    requires order { from ≤ to }
    requires few { to ≤ MAX_RECORDS }
    ensures fits { PartFits result }
    ensures only { IfRecords bytes.now (λ rs. to ≤ length rs → IsPart result (take (to - from) (drop from rs))) }
{
    let (low, high) = values_range(bytes, from, to);
    Part {
        count: to - from,
        before: end_before(bytes, from),
        bounds: &bytes[16 + 12 * from..16 + 12 * to],
        values: &bytes[low..high],
    }
}

/// No records.
pub(crate) fn no_part() -> Part<'static>
    ensures fits { PartFits result }
    ensures none { IsPart result [] }
{
    Part {
        count: 0,
        before: 0,
        bounds: &[],
        values: &[],
    }
}

/// The entry of a record on its own.
pub(crate) fn bound_alone(key: Key, len: usize) -> [u8; 12]
    requires { len < 2 ^ 16 }
    ensures fits { KeyFits key }
    ensures alone { bounds_of 1 result ≡ record { key = key; end = len } ∷ [] }
{
    let mut bound = [0; 12];
    write_bound(
        Bound {
            key,
            end: len as u16,
        },
        &mut bound,
    );
    bound
}

/// Writes the entries of three parts, one after the other.
fn write_bounds(front: &Part<'_>, middle: &Part<'_>, back: &Part<'_>, out: &mut [u8])
    requires front { HasBounds front.now }
    requires middle { HasBounds middle.now }
    requires back { HasBounds back.now }
    requires small { part_size front.now + part_size middle.now + part_size back.now ≤ LEAF_ROOM }
    requires room { 12 * (front.now.count + middle.now.count + back.now.count) ≤ length out.old }
    ensures { IfParts front.now middle.now back.now (λ rs. out.new ≡ flat_map bound_bytes (bounds_from 0 rs) ++ drop (12 * (front.now.count + middle.now.count + back.now.count)) out.old) }
{
    let next = front.values.len();
    let last = next + middle.values.len();
    move_bounds(front.bounds, front.count, front.before, 0, out);
    move_bounds(
        middle.bounds,
        middle.count,
        middle.before,
        next,
        &mut out[12 * front.count..],
    );
    move_bounds(
        back.bounds,
        back.count,
        back.before,
        last,
        &mut out[12 * (front.count + middle.count)..],
    );
}

/// Writes the values of three parts, one after the other.
fn write_values(front: &Part<'_>, middle: &Part<'_>, back: &Part<'_>, out: &mut [u8])
    requires { length front.now.values.now + length middle.now.values.now + length back.now.values.now ≤ length out.old }
    ensures { out.new ≡ ((front.now.values.now ++ middle.now.values.now) ++ back.now.values.now) ++ drop (length front.now.values.now + length middle.now.values.now + length back.now.values.now) out.old }
{
    let next = front.values.len();
    let last = next + middle.values.len();
    put(front.values, out);
    put(middle.values, &mut out[next..]);
    put(back.values, &mut out[last..]);
}

/// Writes the leaf of three parts, one after the other.
pub(crate) fn write_parts(front: &Part<'_>, middle: &Part<'_>, back: &Part<'_>, out: &mut Block)
    requires front { HasBounds front.now }
    requires middle { HasBounds middle.now }
    requires back { HasBounds back.now }
    requires room { part_size front.now + part_size middle.now + part_size back.now ≤ LEAF_ROOM }
    ensures { IfParts front.now middle.now back.now (λ rs. out.new ≡ leaf_bytes rs) }
{
    let count = front.count + middle.count + back.count;
    let len = front.values.len() + middle.values.len() + back.values.len();
    write_leaf_head(count as u32, out);
    write_bounds(front, middle, back, &mut out[16..]);
    write_values(front, middle, back, &mut out[16 + 12 * count..]);
    put_zeros(&mut out[16 + 12 * count + len..]);
}

/// Writes the leaf of three parts, one after the other, if they fit in one.
pub(crate) fn write_fitting(
    front: &Part<'_>,
    middle: &Part<'_>,
    back: &Part<'_>,
    out: &mut Block,
) -> bool
    requires front { PartFits front.now }
    requires middle { PartFits middle.now }
    requires back { PartFits back.now }
    ensures kept { result ≡ false → out.new ≡ out.old }
    ensures only { IfParts front.now middle.now back.now (λ rs. IsWritten result rs out.new) }
{
    let len = front.values.len() + middle.values.len() + back.values.len();
    if 12 * (front.count + middle.count + back.count) + len > LEAF_ROOM {
        return false;
    }
    write_parts(front, middle, back, out);
    true
}
