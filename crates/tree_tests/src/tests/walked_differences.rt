//! Differences of two maps, found by the steps of a row.
ghost use Rattle.std.specs.Prelude.{◌<◌, IfSome};

use super::bench::Bench;
use super::words::{Wrong, add_value, key, root};
use std::alloc::Global;
use vm_diff::{changed, changed_part, same};
use vm_disk::Disk;
use vm_tree::Root;
use vm_types::Changes;

/// The index under which the root of this name is kept, if there may be one.
pub(super) fn place_of(name: &str) -> Option<usize>
    ensures { IfSome result (λ at. at < 3) }
{
    match name {
        "a" => Some(0),
        "b" => Some(1),
        "c" => Some(2),
        _ => None,
    }
}

/// The root that a word names or gives in numbers.
pub(super) fn root_of(bench: &Bench, word: &str) -> Result<Root, Wrong> {
    match place_of(word) {
        Some(at) => Ok(bench.kept[at]),
        None => root(word),
    }
}

pub(super) fn yes_or_no(is_so: bool) -> &'static str {
    if is_so { "yes" } else { "no" }
}

/// Appends a value, or its absence, to a text.
fn add_side(text: &mut String, value: Option<&[u8]>) -> Result<(), Wrong> {
    match value {
        Some(value) => add_value(text, value),
        None => Ok(text.push_str("~")?),
    }
}

/// Each change: a number with the values before and after, or their absence.
fn changes_text(alloc: Global, changes: &Changes) -> Result<String, Wrong> {
    let mut text = String::new(alloc);
    if changes.is_empty() {
        text.push_str("none")?;
    }
    for (key, before, after) in changes {
        write!(text, " {}=", key.number)?;
        add_side(&mut text, before)?;
        text.push_str(">")?;
        add_side(&mut text, after)?;
    }
    Ok(text)
}

/// The values that the map under the second root changes, and the number of device calls for it.
pub(super) fn differed(
    alloc: Global,
    bench: &mut Bench,
    first: &str,
    second: &str,
    tells_calls: bool,
) -> Result<String, Wrong> {
    let blocks = bench.disk.blocks();
    let before = bench.calls();
    let (first, second) = (root_of(bench, first)?, root_of(bench, second)?);
    let changes = changed(alloc, &mut bench.disk, blocks, first, second)?;
    let calls = bench.calls().saturating_sub(before);
    let mut text = changes_text(alloc, &changes)?;
    if tells_calls {
        write!(text, " by {calls}")?;
    }
    Ok(text)
}

/// The same from one number to another.
pub(super) fn differed_within(
    alloc: Global,
    bench: &mut Bench,
    roots: [&str; 2],
    low: u64,
    high: u64,
) -> Result<String, Wrong> {
    let blocks = bench.disk.blocks();
    let before = bench.calls();
    let (first, second) = (root_of(bench, roots[0])?, root_of(bench, roots[1])?);
    let (low, high) = (key(low), key(high));
    let changes = changed_part(alloc, &mut bench.disk, blocks, first, second, low, high)?;
    let calls = bench.calls().saturating_sub(before);
    let mut text = changes_text(alloc, &changes)?;
    write!(text, " by {calls}")?;
    Ok(text)
}

/// Whether two roots have the same map, and the number of device calls for the answer.
pub(super) fn compared(
    alloc: Global,
    bench: &mut Bench,
    first: &str,
    second: &str,
    tells_calls: bool,
) -> Result<String, Wrong> {
    let blocks = bench.disk.blocks();
    let before = bench.calls();
    let (first, second) = (root_of(bench, first)?, root_of(bench, second)?);
    let word = yes_or_no(same(&mut bench.disk, blocks, first, second)?);
    let calls = bench.calls().saturating_sub(before);
    if tells_calls {
        return Ok(format!(in alloc; "{word} by {calls}")?);
    }
    Ok(String::from_str(alloc, word)?)
}
