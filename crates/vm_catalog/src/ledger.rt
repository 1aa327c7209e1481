//! Which entries a slot may have, and in which order.
ghost use Rattle.std.specs.Prelude.{◌≡◌, ◌<◌, ◌↔◌, length, take, drop, codes, false, IsTrue};
ghost use Rattle.std.specs.List.{list_any};
ghost use Rattle.vm_block.specs.Slot.{is_alternative, is_alternative_of, is_called_as, MayFollow, Follows, IsTopEntry, IsLedger};

use vm_block::{Entry, Kind};
use vm_types::Name;

/// The name of the alternative that has no parent.
const TOP: &[u8] = b"top";

/// Whether the entry is the alternative of this name.
fn is_alternative_of(name: &Name, entry: &Entry) -> bool
    ensures { result ≡ is_alternative_of name.now entry.now }
{
    entry.kind == Kind::Alternative && entry.name == *name
}

/// Whether two entries have the same name: two alternatives, or two checkpoints of one owner.
fn is_called_as(entry: &Entry, other: &Entry) -> bool
    ensures { result ≡ is_called_as entry.now other.now }
{
    entry.kind == other.kind
        && entry.name == other.name
        && (entry.kind == Kind::Alternative || entry.owner == other.owner)
}

/// Whether the entry is `top`: an alternative without a parent, with the empty base.
fn is_top(entry: &Entry) -> bool
    ensures { IsTrue result ↔ IsTopEntry entry.now }
{
    entry.kind == Kind::Alternative
        && entry.name.as_bytes() == TOP
        && entry.owner.is_none()
        && entry.base == 0
}

/// Whether the alternative of this name is among the entries.
fn has_alternative(entries: &[Entry], name: &Name) -> bool
    ensures { result ≡ list_any (is_alternative_of name.now) entries.now }
{
    entries.iter().any(|e| is_alternative_of(name, e))
}

/// Whether one of the entries has the same name as this one.
fn has_called_as(entries: &[Entry], entry: &Entry) -> bool
    ensures { result ≡ list_any (is_called_as entry.now) entries.now }
{
    entries.iter().any(|e| is_called_as(entry, e))
}

/// Whether the entry, if it is a checkpoint of `top`, has the empty base.
fn has_base_of_top(entry: &Entry, owner: &Name) -> bool
    ensures { IsTrue result
        ↔ (is_alternative entry.now.kind ≡ false → owner.now ≡ codes "top" → entry.now.base ≡ 0) }
{
    entry.kind == Kind::Alternative || owner.as_bytes() != TOP || entry.base == 0
}

/// Whether the entry may follow these.
fn may_follow(earlier: &[Entry], entry: &Entry) -> bool
    ensures { IsTrue result ↔ MayFollow earlier.now entry.now }
{
    match &entry.owner {
        Some(owner) => {
            has_base_of_top(entry, owner)
                && has_alternative(earlier, owner)
                && !has_called_as(earlier, entry)
        }
        None => false,
    }
}

/// Whether each entry except the first may follow those before it.
fn all_follow(entries: &[Entry]) -> bool
    requires { 0 < length entries.now }
    ensures { IsTrue result ↔ Follows (take 1 entries.now) (drop 1 entries.now) }
{
    for i in 1..entries.len() {
        if !may_follow(&entries[..i], &entries[i]) {
            return false;
        }
    }
    true
}

/// Whether `top` comes first, and each other entry may follow those before it: its owner is an
/// alternative among them, its name is new, and a checkpoint of `top` has the empty base.
pub(crate) fn is_ledger(entries: &[Entry]) -> bool
    ensures { IsTrue result ↔ IsLedger entries.now }
{
    match entries {
        [] => false,
        [top, ..] => is_top(top) && all_follow(entries),
    }
}
