//! Series of changes: Puts and Removes in one alternative with no other command between them. A
//! block that was taken since a series began is only in the tree of its alternative's records, so a
//! change of the series changes it in its place.
ghost use Rattle.std.specs.Prelude.{◌≡◌, ◌↔◌, ◌⊎◌, Bool, List, length, None, Some, option_copied, IsTrue};
ghost use Rattle.vm_store.specs.Rest.{before_of, before_series};

use vm_alloc::{Baseline, Held};
use vm_types::Name;

/// Whether the series of this alternative goes on.
pub fn goes_on(series: &Option<Name>, alt: &Name) -> bool
    ensures { IsTrue result ↔ (series.now ≡ Some alt.now) }
{
    match series {
        Some(name) => name == alt,
        None => false,
    }
}

/// How many blocks of the store one change pays for, when the set of held blocks is copied.
const BLOCKS_COPIED_A_CHANGE: u32 = 16_384;

/// Copies the set of held blocks, provided enough changes came since it was last copied, these
/// included; otherwise counts these. On the whole, a change thus copies at most the same amount,
/// however large the store is.
pub fn copy_held(changes: &mut u32, more: usize, before: &mut Baseline, held: &Held) -> bool
    requires { length held.now ≡ length before.old }
    ensures copied { IsTrue result → before.new ≡ held.now }
    ensures many { length before.new ≡ length before.old }
{
    let paid = changes.saturating_add(more.min(u32::MAX as usize) as u32);
    if paid < before.blocks() / BLOCKS_COPIED_A_CHANGE {
        *changes = paid;
        return false;
    }
    *changes = 0;
    before.take(held);
    true
}

/// Continues this alternative's series. If it is not open, starts one with the currently held
/// blocks as its baseline, if they are copied for one more change; otherwise leaves no series open.
pub fn go_on(
    series: &mut Option<Name>,
    changes: &mut u32,
    before: &mut Baseline,
    held: &Held,
    alt: &Name,
)
    requires { length held.now ≡ length before.old }
    ensures series { (series.new ≡ Some alt.now) ⊎ (series.new ≡ None) }
    ensures before { series.new ≡ Some alt.now
        → ((series.old ≡ Some alt.now) × (before.new ≡ before.old)) ⊎ (before.new ≡ held.now) }
    ensures many { length before.new ≡ length before.old }
{
    if goes_on(series, alt) {
        return;
    }
    *series = if copy_held(changes, 1, before, held) {
        Some(*alt)
    } else {
        None
    };
}

/// The copy of the set of held blocks, if it was made.
pub fn if_copied(is_copied: bool, before: &Baseline) -> Option<&Baseline>
    ensures { (bits : List Bool) → (IsTrue is_copied → before.now ≡ bits)
        → before_of (option_copied result) bits ≡ bits }
{
    if is_copied { Some(before) } else { None }
}

/// The blocks that were held before the series, if one is open.
pub fn before_series<'a>(series: &Option<Name>, before: &'a Baseline) -> Option<&'a Baseline>
    ensures { option_copied result ≡ before_series series.now before.now }
{
    match series {
        Some(_) => Some(before),
        None => None,
    }
}
