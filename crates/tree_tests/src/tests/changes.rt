//! The calls that change a map, made by the steps of a row.
ghost use Rattle.vm_tree.specs.Root.{AreSizes};

use super::bench::{Bench, Device, Sizes};
use super::walked_differences::{place_of, root_of};
use super::words::{Wrong, key, long, number, value};
use std::alloc::Global;
use vm_alloc::Baseline;
use vm_check::mark;
use vm_disk::Disk;
use vm_tree::{Root, put, remove};
use vm_types::Value;

fn put_in<const FAN: usize, const LEVELS: usize>(
    bench: &mut Bench,
    number: u64,
    value: &Value,
) -> Result<(), Wrong>
    requires { AreSizes FAN LEVELS }
{
    if bench.held.free_count() < 16 || bench.held.blocks() > bench.disk.blocks() {
        return Err(Wrong::Unreadable);
    }
    bench.root = put::<Device, FAN, LEVELS>(
        &mut bench.disk,
        &mut bench.held,
        bench.base.as_ref(),
        bench.root,
        key(number),
        value.as_bytes(),
    )?;
    Ok(())
}

fn put_sized(bench: &mut Bench, number: u64, value: &Value) -> Result<(), Wrong> {
    match bench.sizes {
        Sizes::Store => put_in::<256, 8>(bench, number, value),
        Sizes::DeepThrees => put_in::<3, 8>(bench, number, value),
        Sizes::DeepFours => put_in::<4, 8>(bench, number, value),
        Sizes::Fours => put_in::<4, 2>(bench, number, value),
        Sizes::Threes => put_in::<3, 2>(bench, number, value),
        Sizes::Flat => put_in::<3, 1>(bench, number, value),
    }
}

/// Puts this many records, from a key up or down.
fn put_all(
    bench: &mut Bench,
    first: u64,
    count: u32,
    given: &str,
    rises: bool,
) -> Result<(), Wrong> {
    let given = value(given)?;
    let mut number = first;
    for _ in 0..count {
        put_sized(bench, number, &given)?;
        number = if rises {
            number.saturating_add(1)
        } else {
            number.saturating_sub(1)
        };
    }
    Ok(())
}

/// The root without the record, if it was there.
fn removed<const FAN: usize, const LEVELS: usize>(
    bench: &mut Bench,
    number: u64,
) -> Result<Option<Root>, Wrong>
    requires { AreSizes FAN LEVELS }
{
    if bench.held.free_count() < 16 || bench.held.blocks() > bench.disk.blocks() {
        return Err(Wrong::Unreadable);
    }
    let root = remove::<Device, FAN, LEVELS>(
        &mut bench.disk,
        &mut bench.held,
        bench.base.as_ref(),
        bench.root,
        key(number),
    )?;
    Ok(root)
}

fn remove_sized(bench: &mut Bench, number: u64) -> Result<bool, Wrong> {
    let removed = match bench.sizes {
        Sizes::Store => removed::<256, 8>(bench, number)?,
        Sizes::Threes => removed::<3, 2>(bench, number)?,
        _ => return Err(Wrong::Unreadable),
    };
    match removed {
        Some(root) => {
            bench.root = root;
            Ok(true)
        }
        None => Ok(false),
    }
}

/// Holds exactly the blocks of the map, if a marking finds them.
fn let_go(bench: &mut Bench) -> Result<(), Wrong> {
    bench.marks.clear();
    if bench.marks.blocks() > bench.disk.blocks() {
        return Err(Wrong::Unreadable);
    }
    mark(&mut bench.disk, &[bench.root], &mut bench.marks)?;
    if bench.marks.blocks() != bench.held.blocks() {
        return Err(Wrong::Unreadable);
    }
    bench.held.replace(&bench.marks);
    Ok(())
}

/// The blocks that are held now.
fn held_now(alloc: Global, bench: &Bench) -> Result<Baseline, Wrong> {
    let mut base = Baseline::new(alloc, bench.held.blocks())?;
    if base.blocks() != bench.held.blocks() {
        return Err(Wrong::Unreadable);
    }
    base.take(&bench.held);
    Ok(base)
}

fn sizes(words: &[&str]) -> Result<Sizes, Wrong> {
    match words {
        ["3", "8"] => Ok(Sizes::DeepThrees),
        ["4", "8"] => Ok(Sizes::DeepFours),
        ["4", "2"] => Ok(Sizes::Fours),
        ["3", "2"] => Ok(Sizes::Threes),
        ["3", "1"] => Ok(Sizes::Flat),
        _ => Err(Wrong::Unreadable),
    }
}

/// Carries out a step that changes the map. Returns its answer, if these words are such a step.
pub(super) fn change(bench: &mut Bench, words: &[&str]) -> Result<Option<&'static str>, Wrong> {
    match words {
        ["put", number, given] => put_sized(bench, long(number)?, &value(given)?)?,
        ["puts", first, count, given] => {
            put_all(bench, long(first)?, number(count)?, given, true)?;
        }
        ["falls", first, count, given] => {
            put_all(bench, long(first)?, number(count)?, given, false)?;
        }
        ["remove", number] => {
            let was_there = remove_sized(bench, long(number)?)?;
            return Ok(Some(if was_there { "ok" } else { "none" }));
        }
        ["let", "go"] => let_go(bench)?,
        _ => return Ok(None),
    }
    Ok(Some("ok"))
}

/// Carries out a step that sets the start of the next ones. Tells whether these words are such a
/// step.
pub(super) fn begin(alloc: Global, bench: &mut Bench, words: &[&str]) -> Result<bool, Wrong> {
    match words {
        ["new", blocks] => *bench = Bench::new(alloc, number(blocks)?)?,
        ["once", passes] => bench.fail_after(alloc, number(passes)?)?,
        ["top", top] => bench.root = root_of(bench, top)?,
        ["keep", name] => {
            let at = place_of(name).ok_or(Wrong::Unreadable)?;
            bench.kept[at] = bench.root;
            bench.free = bench.held.free_count();
        }
        ["sizes", numbers @ ..] => bench.sizes = sizes(numbers)?,
        ["base"] => bench.base = Some(held_now(alloc, bench)?),
        ["no", "base"] => bench.base = None,
        _ => return Ok(false),
    }
    Ok(true)
}
