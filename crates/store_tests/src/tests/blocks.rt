//! The blocks of a disk in memory, looked at and changed by the steps of a script.
use std::alloc::Global;
use testkit::{Wrong, byte, number};
use vm_disk::{Disk, MemDisk};
use vm_types::Block;

fn bytes_of(disk: &mut MemDisk, n: u32) -> Result<Block, Wrong> {
    let mut bytes = [0; 4096];
    if n >= disk.blocks() {
        return Err(Wrong::Unreadable);
    }
    disk.read(n, &mut bytes)?;
    Ok(bytes)
}

pub(super) fn set_block(disk: &mut MemDisk, n: u32, bytes: &Block) -> Result<(), Wrong> {
    if n >= disk.blocks() {
        return Err(Wrong::Unreadable);
    }
    disk.write(n, bytes)?;
    Ok(())
}

/// Sets bytes from an offset on, as in `0:534C`.
fn set_run(bytes: &mut Block, run: &str) -> Result<(), Wrong> {
    let (from, digits) = run.split_once(':').ok_or(Wrong::Unreadable)?;
    let from = number(from)? as usize;
    for (n, pair) in digits.as_bytes().chunks(2).enumerate() {
        let at = from.saturating_add(n);
        if at >= 4096 {
            return Err(Wrong::Unreadable);
        }
        bytes[at] = byte(str::from_utf8(pair)?)?;
    }
    Ok(())
}

/// Sets bytes of a block.
pub(super) fn set_bytes(disk: &mut MemDisk, n: u32, runs: &[&str]) -> Result<(), Wrong> {
    let mut bytes = bytes_of(disk, n)?;
    for run in runs {
        set_run(&mut bytes, run)?;
    }
    set_block(disk, n, &bytes)
}

/// Only the first blocks of a disk.
pub(super) fn cut(alloc: Global, mut disk: MemDisk, blocks: u32) -> Result<MemDisk, Wrong> {
    let mut shorter = MemDisk::new(alloc, blocks)?;
    for n in 0..blocks {
        let bytes = bytes_of(&mut disk, n)?;
        set_block(&mut shorter, n, &bytes)?;
    }
    Ok(shorter)
}

/// How many bytes there are up to the first one of another kind.
fn alike(bytes: &[u8], kind: u8) -> usize {
    let mut count: usize = 0;
    for byte in bytes {
        if *byte != kind {
            return count;
        }
        count = count.saturating_add(1);
    }
    count
}

/// The nonzero bytes, each run after the offset of its first byte. A hundred or more of one kind
/// are a run of their own, as in `28:61*300`.
fn bytes_text(alloc: Global, bytes: &Block) -> Result<String, Wrong> {
    let mut text = String::new(alloc);
    if bytes[0] != 0 && *bytes == [bytes[0]; 4096] {
        write!(text, "all={:02X}", bytes[0])?;
        return Ok(text);
    }
    let mut in_run = false;
    let mut passed: usize = 0;
    for at in 0..4096 {
        if at < passed {
            continue;
        }
        let byte = bytes[at];
        let count = alike(&bytes[at..], byte);
        if byte != 0 && count < 100 {
            if !in_run {
                write!(text, " {at}:")?;
            }
            write!(text, "{byte:02X}")?;
            in_run = true;
            continue;
        }
        if byte != 0 {
            write!(text, " {at}:{byte:02X}*{count}")?;
        }
        in_run = false;
        passed = at.saturating_add(count);
    }
    Ok(text)
}

/// The blocks that have bytes other than zeros.
fn written(alloc: Global, disk: &mut MemDisk) -> Result<String, Wrong> {
    let mut text = String::new(alloc);
    for n in 0..disk.blocks() {
        if bytes_of(disk, n)? != [0; 4096] {
            write!(text, " {n}")?;
        }
    }
    Ok(text)
}

/// The answer to a step that looks at blocks, if these words are such a step.
pub(super) fn look(
    alloc: Global,
    disk: &mut MemDisk,
    words: &[&str],
) -> Result<Option<String>, Wrong> {
    match words {
        ["block", n] => {
            let bytes = bytes_of(disk, number(n)?)?;
            Ok(Some(bytes_text(alloc, &bytes)?))
        }
        ["written"] => Ok(Some(written(alloc, disk)?)),
        _ => Ok(None),
    }
}
