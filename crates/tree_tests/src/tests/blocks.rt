//! The blocks of a disk, written and looked at by the steps of a row.
use super::words::{Wrong, byte, child, key, level, long, number, value};
use arrayvec::ArrayVec;
use std::alloc::Global;
use vm_block::{
    Child, Placed, first_record, is_leaf, put_record, read_node, records_len, write_node,
};
use vm_disk::Disk;
use vm_types::{Block, Refusal, Value};

pub(super) fn bytes_of<D: Disk>(disk: &mut D, n: u32) -> Result<Block, Wrong> {
    let mut bytes = [0; 4096];
    if n >= disk.blocks() {
        return Err(Wrong::Unreadable);
    }
    disk.read(n, &mut bytes)?;
    Ok(bytes)
}

fn write_block<D: Disk>(disk: &mut D, n: u32, bytes: &Block) -> Result<(), Wrong> {
    if n >= disk.blocks() {
        return Err(Wrong::Unreadable);
    }
    disk.write(n, bytes)?;
    Ok(())
}

/// Puts a record into a leaf that has room for it.
fn add_record(bytes: &mut Block, number: u64, value: &Value) -> Result<(), Wrong> {
    match put_record(bytes, key(number), value.as_bytes()) {
        Placed::Put => Ok(()),
        Placed::TooBig => Err(Wrong::Unreadable),
    }
}

/// A leaf of these keys, each with this value.
fn leaf(given: &str, numbers: &[&str]) -> Result<Block, Wrong> {
    let (first, others) = numbers.split_first().ok_or(Wrong::Unreadable)?;
    let given = value(given)?;
    let mut bytes = [0; 4096];
    first_record(key(long(first)?), given.as_bytes(), &mut bytes);
    for word in others {
        add_record(&mut bytes, long(word)?, &given)?;
    }
    Ok(bytes)
}

/// The number and the value of a record, as in `1=v`.
fn record(word: &str) -> Result<(u64, Value), Wrong> {
    let (number, given) = word.split_once('=').ok_or(Wrong::Unreadable)?;
    Ok((long(number)?, value(given)?))
}

/// A leaf of these keys, each with a value of its own.
fn records(words: &[&str]) -> Result<Block, Wrong> {
    let (first, others) = words.split_first().ok_or(Wrong::Unreadable)?;
    let (number, given) = record(first)?;
    let mut bytes = [0; 4096];
    first_record(key(number), given.as_bytes(), &mut bytes);
    for word in others {
        let (number, given) = record(word)?;
        add_record(&mut bytes, number, &given)?;
    }
    Ok(bytes)
}

/// An inner block of these children.
fn node(above: &str, words: &[&str]) -> Result<Block, Wrong> {
    let mut children: ArrayVec<Child, 256> = ArrayVec::new();
    for word in words {
        if children.is_full() {
            return Err(Wrong::Unreadable);
        }
        children.push(child(word)?);
    }
    let mut bytes = [0; 4096];
    write_node(level(above)?, children.as_slice(), &mut bytes);
    Ok(bytes)
}

/// An inner block of level 1 with this many children. Their lowest keys are 0, 32, 64 and so on,
/// and each is said to be in block 34.
fn fan(count: u32) -> Result<Block, Wrong> {
    let mut children: ArrayVec<Child, 256> = ArrayVec::new();
    for n in 0..count {
        if children.is_full() {
            return Err(Wrong::Unreadable);
        }
        children.push(Child {
            low: key(32 * u64::from(n)),
            block: 34,
        });
    }
    let mut bytes = [0; 4096];
    write_node(1, children.as_slice(), &mut bytes);
    Ok(bytes)
}

/// Sets bytes from an offset on, as in `0:534C`.
fn set_run(bytes: &mut Block, run: &str) -> Result<(), Wrong> {
    let (from, digits) = run.split_once(':').ok_or(Wrong::Unreadable)?;
    let from = number(from)? as usize;
    for (n, pair) in digits.as_bytes().chunks(2).enumerate() {
        let at = from.saturating_add(n);
        if at >= 4096 {
            return Err(Wrong::Unreadable);
        }
        bytes[at] = byte(str::from_utf8(pair)?)?;
    }
    Ok(())
}

/// Writes what the words say into a block, if they are a step that does.
pub(super) fn write_words<D: Disk>(disk: &mut D, words: &[&str]) -> Result<bool, Wrong> {
    let (n, bytes) = match words {
        ["write", "leaf", n, given, numbers @ ..] => (n, leaf(given, numbers)?),
        ["write", "records", n, words @ ..] => (n, records(words)?),
        ["write", "node", n, above, children @ ..] => (n, node(above, children)?),
        ["write", "fan", n, count] => (n, fan(number(count)?)?),
        ["write", "all", n, fill] => (n, [byte(fill)?; 4096]),
        ["copy", n, from] => (n, bytes_of(disk, number(from)?)?),
        ["set", n, run] => {
            let mut bytes = bytes_of(disk, number(n)?)?;
            set_run(&mut bytes, run)?;
            (n, bytes)
        }
        _ => return Ok(false),
    };
    write_block(disk, number(n)?, &bytes)?;
    Ok(true)
}

/// The nonzero bytes, each run after the offset of its first byte.
pub(super) fn bytes_text(alloc: Global, bytes: &Block) -> Result<String, Wrong> {
    let mut text = String::new(alloc);
    let mut before = 0;
    for (at, byte) in bytes.iter().enumerate() {
        if *byte != 0 {
            if before == 0 {
                write!(text, " {at}:")?;
            }
            write!(text, "{byte:02X}")?;
        }
        before = *byte;
    }
    Ok(text)
}

/// How many records a leaf has, or children an inner block.
pub(super) fn count_in<D: Disk>(disk: &mut D, n: u32) -> Result<usize, Wrong> {
    let bytes = bytes_of(disk, n)?;
    if is_leaf(&bytes) {
        return Ok(records_len(&bytes));
    }
    match read_node(&bytes) {
        Some(node) => Ok(node.children.len()),
        None => Err(Wrong::Tree(Refusal::Damaged(n))),
    }
}

/// The child of an inner block at this index, if there is one.
pub(super) fn child_at<D: Disk>(disk: &mut D, n: u32, at: u32) -> Result<Option<Child>, Wrong> {
    match read_node(&bytes_of(disk, n)?) {
        Some(node) => Ok(node.children.as_slice().get(at as usize).copied()),
        None => Err(Wrong::Tree(Refusal::Damaged(n))),
    }
}
