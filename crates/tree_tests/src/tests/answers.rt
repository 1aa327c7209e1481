//! The answers to the steps of a row.
use super::bench::Bench;
use super::blocks::{bytes_of, bytes_text, child_at, count_in, write_words};
use super::changes::{begin, change};
use super::copies::moved;
use super::walked_differences::{compared, differed, differed_within, root_of, yes_or_no};
use super::walks::{add_root, marked, verified};
use super::words::{Wrong, add_value, key, level, long, number};
use std::alloc::Global;
use vm_block::{record_key, record_value};
use vm_disk::Disk;
use vm_tree::{data_at, get, has, is_data, leaf_into, node_at, scan, scan_from, scan_part};
use vm_types::{Records, Refusal};

/// The value of a key, or `~`.
fn got(alloc: Global, bench: &mut Bench, number: u64) -> Result<String, Wrong> {
    let blocks = bench.disk.blocks();
    let mut room = [0; 4096];
    let mut text = String::new(alloc);
    match get(&mut bench.disk, blocks, bench.root, key(number), &mut room)? {
        Some(value) => add_value(&mut text, value)?,
        None => text.push_str("~")?,
    }
    Ok(text)
}

/// Whether a key has a value.
fn had(alloc: Global, bench: &mut Bench, number: u64) -> Result<String, Wrong> {
    let blocks = bench.disk.blocks();
    let is_so = has(&mut bench.disk, blocks, bench.root, key(number))?;
    Ok(String::from_str(alloc, yes_or_no(is_so))?)
}

fn records_text(alloc: Global, records: &Records) -> Result<String, Wrong> {
    let mut text = String::new(alloc);
    for (key, value) in records {
        write!(text, " {}=", key.number)?;
        add_value(&mut text, value)?;
    }
    Ok(text)
}

fn listed(alloc: Global, bench: &mut Bench) -> Result<String, Wrong> {
    let blocks = bench.disk.blocks();
    let records = scan(alloc, &mut bench.disk, blocks, bench.root)?;
    records_text(alloc, &records)
}

/// The records from one number to another.
fn part_text(alloc: Global, bench: &mut Bench, low: u64, high: u64) -> Result<String, Wrong> {
    let blocks = bench.disk.blocks();
    let (low, high) = (key(low), key(high));
    let records = scan_part(alloc, &mut bench.disk, blocks, bench.root, low, high)?;
    records_text(alloc, &records)
}

/// The first records from a number on, at most `count` of them.
fn page_text(alloc: Global, bench: &mut Bench, low: u64, count: u32) -> Result<String, Wrong> {
    let blocks = bench.disk.blocks();
    let records = scan_from(alloc, &mut bench.disk, blocks, bench.root, key(low), count)?;
    records_text(alloc, &records)
}

/// The records of a leaf.
fn leaf_text(alloc: Global, bench: &mut Bench, block: u32) -> Result<String, Wrong> {
    let blocks = bench.disk.blocks();
    let mut bytes = [1; 4096];
    let count = leaf_into(&mut bench.disk, blocks, block, &mut bytes)?;
    let mut text = String::new(alloc);
    for i in 0..count.min(340) {
        write!(text, " {}=", record_key(&bytes, i).number)?;
        add_value(&mut text, record_value(&bytes, i))?;
    }
    Ok(text)
}

/// The lowest key and the block of each child of an inner block of this level.
fn node_text(alloc: Global, bench: &mut Bench, above: u8, block: u32) -> Result<String, Wrong> {
    let blocks = bench.disk.blocks();
    let children = node_at(&mut bench.disk, blocks, above, block)?;
    let mut text = String::new(alloc);
    for child in children.as_slice() {
        write!(text, " {}:{}", child.low.number, child.block)?;
    }
    Ok(text)
}

/// The bytes of a data block.
fn data_text(alloc: Global, bench: &mut Bench, block: u32) -> Result<String, Wrong> {
    let mut bytes = [1; 4096];
    let blocks = bench.disk.blocks();
    let read = data_at(&mut bench.disk, blocks, block, &mut bytes);
    if read.is_ok() != is_data(blocks, block) {
        return Err(Wrong::Unreadable);
    }
    read?;
    bytes_text(alloc, &bytes)
}

/// How many records each leaf under a root of level 1 has.
fn leaf_counts(alloc: Global, bench: &mut Bench) -> Result<String, Wrong> {
    let mut text = String::new(alloc);
    for at in 0..256 {
        match child_at(&mut bench.disk, bench.root.block, at)? {
            Some(child) => {
                let count = count_in(&mut bench.disk, child.block)?;
                write!(text, " {count}")?;
            }
            None => return Ok(text),
        }
    }
    Ok(text)
}

fn dirty_blocks(alloc: Global, bench: &Bench) -> Result<String, Wrong> {
    let mut text = String::new(alloc);
    for n in 0..bench.disk.blocks() {
        if bench.disk.inner().is_dirty(n) {
            write!(text, " {n}")?;
        }
    }
    Ok(text)
}

/// The lowest key and the block of a child.
fn child_text(alloc: Global, bench: &mut Bench, block: u32, at: u32) -> Result<String, Wrong> {
    match child_at(&mut bench.disk, block, at)? {
        Some(child) => Ok(format!(in alloc; "{}:{}", child.low.number, child.block)?),
        None => Ok(String::from_str(alloc, "none")?),
    }
}

fn root_text(alloc: Global, bench: &Bench) -> Result<String, Wrong> {
    let mut text = String::new(alloc);
    add_root(&mut text, bench.root)?;
    Ok(text)
}

/// Holds the lowest free block.
fn taken(alloc: Global, bench: &mut Bench) -> Result<String, Wrong> {
    let block = bench.held.take().ok_or(Wrong::Unreadable)?;
    Ok(format!(in alloc; "{block}")?)
}

/// The answer to a step that looks at blocks.
fn look(alloc: Global, bench: &mut Bench, words: &[&str]) -> Result<String, Wrong> {
    match words {
        ["bytes", n] => bytes_text(alloc, &bytes_of(&mut bench.disk, number(n)?)?),
        ["count", n] => {
            let count = count_in(&mut bench.disk, number(n)?)?;
            Ok(format!(in alloc; "{count}")?)
        }
        ["child", n, at] => child_text(alloc, bench, number(n)?, number(at)?),
        ["leaves"] => leaf_counts(alloc, bench),
        ["dirty"] => dirty_blocks(alloc, bench),
        ["data", n] => data_text(alloc, bench, number(n)?),
        ["leaf", n] => leaf_text(alloc, bench, number(n)?),
        ["node", above, n] => node_text(alloc, bench, level(above)?, number(n)?),
        _ => Err(Wrong::Unreadable),
    }
}

/// The answer to a step that asks for what the map has, or walks the map.
fn ask(alloc: Global, bench: &mut Bench, words: &[&str]) -> Result<String, Wrong> {
    match words {
        ["get", number] => got(alloc, bench, long(number)?),
        ["has", number] => had(alloc, bench, long(number)?),
        ["list"] => listed(alloc, bench),
        ["part", low, high] => part_text(alloc, bench, long(low)?, long(high)?),
        ["next", low, count] => page_text(alloc, bench, long(low)?, number(count)?),
        ["root"] => root_text(alloc, bench),
        ["level"] => Ok(format!(in alloc; "{}", bench.root.level)?),
        ["spent"] => {
            let spent = bench.free.saturating_sub(bench.held.free_count());
            Ok(format!(in alloc; "{spent}")?)
        }
        ["free"] => Ok(format!(in alloc; "{}", bench.held.free_count())?),
        ["take"] => taken(alloc, bench),
        ["mark", roots @ ..] => marked(alloc, bench, roots),
        ["verify", numbers @ ..] => verified(alloc, bench, numbers),
        ["move", blocks, first, second] => moved(alloc, bench, number(blocks)?, [first, second]),
        ["differ", first, second] => differed(alloc, bench, first, second, true),
        ["within", first, second, low, high] => {
            differed_within(alloc, bench, [first, second], long(low)?, long(high)?)
        }
        ["values", first, second] => differed(alloc, bench, first, second, false),
        ["same", first, second] => compared(alloc, bench, first, second, true),
        ["equal", first, second] => compared(alloc, bench, first, second, false),
        ["above", first, second] => {
            let is_so = root_of(bench, first)?.level > root_of(bench, second)?.level;
            Ok(String::from_str(alloc, yes_or_no(is_so))?)
        }
        ["fresh"] => {
            bench.new_calls();
            Ok(String::from_str(alloc, "ok")?)
        }
        ["calls"] => Ok(format!(in alloc; "{}", bench.new_calls())?),
        ["sync"] => {
            bench.disk.sync()?;
            Ok(String::from_str(alloc, "ok")?)
        }
        _ => look(alloc, bench, words),
    }
}

/// The answer to a step, if it gives one.
fn given(alloc: Global, bench: &mut Bench, words: &[&str]) -> Result<String, Wrong> {
    if let Some(text) = change(bench, words)? {
        return Ok(String::from_str(alloc, text)?);
    }
    if begin(alloc, bench, words)? || write_words(&mut bench.disk, words)? {
        return Ok(String::from_str(alloc, "ok")?);
    }
    ask(alloc, bench, words)
}

/// The text of a fault.
fn fault_text(alloc: Global, fault: Refusal) -> Result<String, Wrong> {
    Ok(match fault {
        Refusal::Damaged(block) => format!(in alloc; "error Damaged {block}")?,
        _ => format!(in alloc; "error {}", fault.name())?,
    })
}

/// The answer to a step.
pub(super) fn answer(alloc: Global, bench: &mut Bench, words: &[&str]) -> Result<String, Wrong> {
    match given(alloc, bench, words) {
        Err(Wrong::Tree(fault)) => fault_text(alloc, fault),
        other => other,
    }
}
