//! A leaf and one more record, written as two leaves or three.
ghost use Rattle.std.specs.Prelude.{◌≡◌, ◌+◌, ◌-◌, ◌<◌, ◌≤◌, ◌^◌, max, take, length};
ghost use Rattle.vm_types.specs.Bytes.{longest};
ghost use Rattle.vm_types.specs.Places.{with_record};
ghost use Rattle.vm_block.specs.Leaf.{RecordFits, size_of};
ghost use Rattle.vm_block.specs.Look.{IfRecords};
ghost use Rattle.vm_block.specs.Parts.{PartFits};
ghost use Rattle.vm_block.specs.Split.{IfComing, IsBestCut, IsComing, IsSplit, WritesCut, WritesThree, coming_count, larger};

use crate::changes::span;
use crate::look::{end_before, find_record, records_len};
use crate::parts::{Part, bound_alone, no_part, part_of, write_fitting};
use crate::sizes::LEAF_ROOM;
use vm_types::{Block, Key};

/// A record about to enter a leaf of `count` records: in place of those from `index` to
/// before `next`, of which there is one or none.
#[derive(Clone, Copy, Debug)]
pub(crate) struct Coming {
    pub index: usize,
    pub next: usize,
    pub count: usize,
    /// How many bytes its value has.
    pub len: usize,
}

/// How many leaves the records are in.
#[derive(Clone, Copy, Debug, PartialEq, Eq)]
pub enum Split {
    /// The left one and the right one. The middle one is unchanged.
    Two,
    /// The left one, the middle one and the right one.
    Three,
}

/// How many bytes of a leaf the first `h` records take.
fn front_size(bytes: &Block, coming: &Coming, h: usize) -> usize
    requires coming { IsComing coming.now }
    requires within { h ≤ coming_count coming.now }
    ensures small { result < 2 ^ 20 }
    ensures only { IfComing bytes.now coming.now (λ all. result ≡ size_of (take h all)) }
{
    if h <= coming.index {
        return 12 * h + end_before(bytes, h);
    }
    let at = coming.next + (h - coming.index - 1);
    let behind = end_before(bytes, at).saturating_sub(end_before(bytes, coming.next));
    12 * h + end_before(bytes, coming.index) + coming.len + behind
}

/// How many bytes the larger of two leaves takes.
fn larger_size(bytes: &Block, coming: &Coming, h: usize, total: usize) -> usize
    requires coming { IsComing coming.now }
    requires within { h ≤ coming_count coming.now }
    ensures only { IfComing bytes.now coming.now (λ all. total ≡ size_of all → result ≡ larger h all) }
{
    let front = front_size(bytes, coming, h);
    front.max(total.saturating_sub(front))
}

/// How many records the left of two leaves gets, so that they are as even as they can be.
fn best_cut(bytes: &Block, coming: &Coming) -> usize
    requires { IsComing coming.now }
    ensures above { 0 < result }
    ensures within { result ≤ coming_count coming.now }
    ensures only { IfComing bytes.now coming.now (IsBestCut result) }
{
    let many = coming.index + 1 + (coming.count - coming.next);
    let total = front_size(bytes, coming, many);
    let mut best = 1;
    let mut least = larger_size(bytes, coming, 1, total);
    for h in 2..many {
        let size = larger_size(bytes, coming, h, total);
        if size < least {
            best = h;
            least = size;
        }
    }
    best
}

/// Writes the records on both sides of a cut that is not after the one that comes, if they fit.
fn cut_before(
    bytes: &Block,
    coming: &Coming,
    part: &Part<'_>,
    cut: usize,
    left: &mut Block,
    right: &mut Block,
) -> bool
    requires coming { IsComing coming.now }
    requires part { PartFits part.now }
    requires before { cut ≤ coming.now.index }
    ensures { WritesCut result bytes.now coming.now part.now cut left.new right.new }
{
    let front = part_of(bytes, 0, cut);
    let middle = part_of(bytes, cut, coming.index);
    let back = part_of(bytes, coming.next, coming.count);
    write_fitting(&front, &no_part(), &no_part(), left)
        && write_fitting(&middle, part, &back, right)
}

/// The same of a cut after it, and after this many more.
fn cut_behind(
    bytes: &Block,
    coming: &Coming,
    part: &Part<'_>,
    more: usize,
    left: &mut Block,
    right: &mut Block,
) -> bool
    requires coming { IsComing coming.now }
    requires part { PartFits part.now }
    requires behind { coming.now.next + more ≤ coming.now.count }
    ensures { WritesCut result bytes.now coming.now part.now (coming.now.index + 1 + more) left.new right.new }
{
    let front = part_of(bytes, 0, coming.index);
    let middle = part_of(bytes, coming.next, coming.next + more);
    let back = part_of(bytes, coming.next + more, coming.count);
    write_fitting(&front, part, &middle, left)
        && write_fitting(&back, &no_part(), &no_part(), right)
}

/// Writes the records on both sides of a cut, if they fit.
fn write_cut(
    bytes: &Block,
    coming: &Coming,
    part: &Part<'_>,
    cut: usize,
    left: &mut Block,
    right: &mut Block,
) -> bool
    requires coming { IsComing coming.now }
    requires part { PartFits part.now }
    requires within { cut ≤ coming_count coming.now }
    ensures { WritesCut result bytes.now coming.now part.now cut left.new right.new }
{
    if cut <= coming.index {
        cut_before(bytes, coming, part, cut, left, right)
    } else {
        cut_behind(bytes, coming, part, cut - coming.index - 1, left, right)
    }
}

/// How many records the left of two leaves gets: all those of the leaf, if the one that comes is
/// after them, or else as many as make the two even.
fn chosen_cut(bytes: &Block, coming: &Coming) -> usize
    requires { IsComing coming.now }
    ensures above { 0 < coming.now.count → 0 < result }
    ensures within { result ≤ coming_count coming.now }
    ensures behind { coming.now.index ≡ coming.now.count → result ≡ coming.now.index }
    ensures only { coming.now.index < coming.now.count → IfComing bytes.now coming.now (IsBestCut result) }
{
    if coming.index == coming.count {
        coming.index
    } else {
        best_cut(bytes, coming)
    }
}

/// Writes the records before the one that comes, that one, and those after it.
fn write_three(
    bytes: &Block,
    coming: &Coming,
    part: &Part<'_>,
    left: &mut Block,
    middle: &mut Block,
    right: &mut Block,
)
    requires coming { IsComing coming.now }
    requires part { PartFits part.now }
    ensures { WritesThree bytes.now coming.now part.now left.new middle.new right.new }
{
    let front = part_of(bytes, 0, coming.index);
    let back = part_of(bytes, coming.next, coming.count);
    let none = no_part();
    let _first = write_fitting(&front, &none, &none, left);
    let _second = write_fitting(part, &none, &none, middle);
    let _third = write_fitting(&back, &none, &none, right);
}

/// Writes the records of a leaf, and one that has no room in it, as two leaves, or as three where
/// no cut makes two.
pub fn split_record(
    bytes: &Block,
    key: Key,
    value: &[u8],
    left: &mut Block,
    middle: &mut Block,
    right: &mut Block,
) -> Split
    requires { length value.now ≤ longest }
    ensures fits { RecordFits (key, value.now) }
    ensures two { result ≡ Split.Two → middle.new ≡ middle.old }
    ensures only { IfRecords bytes.now
        (λ rs. let all = with_record (key, value.now) rs in
        LEAF_ROOM < size_of all → IsSplit result (key, value.now) rs all left.new middle.new right.new) }
{
    let (index, next) = span(find_record(bytes, key));
    let coming = Coming {
        index,
        next,
        count: records_len(bytes).max(next),
        len: value.len(),
    };
    let bound = bound_alone(key, value.len());
    let part = Part {
        count: 1,
        before: 0,
        bounds: &bound,
        values: value,
    };
    let cut = chosen_cut(bytes, &coming);
    if write_cut(bytes, &coming, &part, cut, left, right) {
        return Split::Two;
    }
    write_three(bytes, &coming, &part, left, middle, right);
    Split::Three
}
