//! Rows for disks: steps, each with its answer, played over a disk.
//!
//! A call that fails is answered `fault`.
//!
//! | Step | Answer |
//! |---|---|
//! | `fill 2 7` | `ok`: each byte of block 2 is 7 from here on |
//! | `run 1 6 7 8` | `ok`: the same for blocks 1, 2 and 3, in one call |
//! | `grow 5` | `ok`: the disk has this many blocks |
//! | `sync` | `ok` |
//! | `holds 0 2` | `0 7`: the byte that fills each of these blocks, or `mixed` |
//! | `hand 0 2` | `0 7`: the same, for each block as loaded |
//! | `once 0 2` | `0 7`: the same, with each loaded by `Once` |
//! | `is 2 7` | `yes`: whether each byte of block 2 is 7 |
//! | `blocks` | `5`: how many blocks the disk has |
//! | `sure` | `3`: how many blocks of the disk in memory below a crash leaves at least |
//! | `dirty 1 2` | `no yes`: which blocks of that disk are not synced |
//! | `calls` | `5`: how many calls the fuse over it has had |
//! | `blown` | `no`: whether the fuse has failed one of them |
//!
//! | Step, over a disk in memory | Answer |
//! |---|---|
//! | `crash 1=8` | `ok`: a crash came, which fills block 1 with this byte if it is not synced |
//! | `short 3 1=8` | `ok`: the same, and only this many blocks are left |
use super::seen::{OverMemory, Seen, cached, late};
use std::alloc::Global;
use std::process::Abort;
use testkit::{Playable, Wrong, byte, filling, number, plays};
use vm_disk::{Disk, FuseDisk, MemDisk, Need};
use vm_types::Block;

/// The bytes of a block filled with this byte.
fn block(word: &str) -> Result<Block, Wrong> {
    Ok([byte(word)?; 4096])
}

fn fill<D: Disk>(disk: &mut D, n: u32, bytes: &Block) -> Result<(), Wrong> {
    if n >= disk.blocks() {
        return Err(Wrong::Unreadable);
    }
    disk.write(n, bytes)?;
    Ok(())
}

/// Fills three blocks in a row, from block n on, in one call.
fn fill_run<D: Disk>(disk: &mut D, n: u32, bytes: &[Block; 3]) -> Result<(), Wrong> {
    if n >= disk.blocks() || 3 > disk.blocks() - n {
        return Err(Wrong::Unreadable);
    }
    disk.write_run(n, bytes)?;
    Ok(())
}

fn grow<D: Disk>(disk: &mut D, blocks: u32) -> Result<(), Wrong> {
    if blocks < disk.blocks() {
        return Err(Wrong::Unreadable);
    }
    disk.extend(blocks)?;
    Ok(())
}

/// Carries out a step that changes the disk. Tells whether these words are one.
fn change<D: Disk>(disk: &mut D, words: &[&str]) -> Result<bool, Wrong> {
    match words {
        ["fill", n, byte] => fill(disk, number(n)?, &block(byte)?)?,
        ["run", n, first, second, third] => {
            let bytes = [block(first)?, block(second)?, block(third)?];
            fill_run(disk, number(n)?, &bytes)?;
        }
        ["grow", blocks] => grow(disk, number(blocks)?)?,
        ["sync"] => disk.sync()?,
        _ => return Ok(false),
    }
    Ok(true)
}

/// The byte that fills these, if there is one.
fn byte_in(bytes: &Block) -> Option<u8> {
    let first = bytes[0];
    bytes.iter().all(|byte| *byte == first).then_some(first)
}

/// The byte that fills a block, as read.
fn filling_of<D: Disk>(disk: &mut D, n: u32) -> Result<Option<u8>, Wrong> {
    let mut bytes = [0; 4096];
    if n >= disk.blocks() {
        return Err(Wrong::Unreadable);
    }
    disk.read(n, &mut bytes)?;
    Ok(byte_in(&bytes))
}

/// The same, as loaded.
fn filling_at_hand<D: Disk>(disk: &mut D, n: u32, need: Need) -> Result<Option<u8>, Wrong> {
    if n >= disk.blocks() {
        return Err(Wrong::Unreadable);
    }
    disk.load(n, need)?;
    Ok(byte_in(disk.at_hand()))
}

fn fillings<D: Disk>(
    disk: &mut D,
    blocks: &[&str],
    at_hand: Option<Need>,
    text: &mut String,
) -> Result<(), Wrong> {
    for n in blocks {
        let found = match at_hand {
            Some(need) => filling_at_hand(disk, number(n)?, need)?,
            None => filling_of(disk, number(n)?)?,
        };
        match found {
            Some(byte) => write!(text, " {byte}")?,
            None => write!(text, " mixed")?,
        }
    }
    Ok(())
}

fn yes_or_no(is_so: bool) -> &'static str {
    if is_so { "yes" } else { "no" }
}

fn dirty<D: Seen>(disk: &D, blocks: &[&str], text: &mut String) -> Result<(), Wrong> {
    let memory = disk.memory().ok_or(Wrong::Unreadable)?;
    for n in blocks {
        write!(text, " {}", yes_or_no(memory.is_dirty(number(n)?)))?;
    }
    Ok(())
}

/// A number that the disk, or one below it, has.
fn count<D: Seen>(disk: &D, of: &str) -> Option<u32> {
    match of {
        "blocks" => Some(disk.blocks()),
        "sure" => Some(disk.memory()?.sure()),
        "calls" => Some(disk.fuse()?.0),
        _ => None,
    }
}

/// Appends what the disk holds to a text.
fn look<D: Seen>(disk: &mut D, words: &[&str], text: &mut String) -> Result<(), Wrong> {
    match words {
        ["holds", blocks @ ..] => fillings(disk, blocks, None, text),
        ["hand", blocks @ ..] => fillings(disk, blocks, Some(Need::Again), text),
        ["once", blocks @ ..] => fillings(disk, blocks, Some(Need::Once), text),
        ["dirty", blocks @ ..] => dirty(disk, blocks, text),
        ["is", n, due] => {
            let found = filling_of(disk, number(n)?)?;
            text.push_str(yes_or_no(found == Some(byte(due)?)))?;
            Ok(())
        }
        ["blown"] => {
            let (_, blown) = disk.fuse().ok_or(Wrong::Unreadable)?;
            text.push_str(yes_or_no(blown))?;
            Ok(())
        }
        [of] => {
            let count = count(disk, of).ok_or(Wrong::Unreadable)?;
            write!(text, "{count}")?;
            Ok(())
        }
        _ => Err(Wrong::Unreadable),
    }
}

/// Appends the answer to a step to a text.
fn answer<D: Seen>(disk: &mut D, words: &[&str], text: &mut String) -> Result<(), Wrong> {
    if change(disk, words)? {
        text.push_str("ok")?;
        return Ok(());
    }
    look(disk, words, text)
}

/// The answer to a step.
fn given<D: Seen>(alloc: Global, disk: &mut D, words: &[&str]) -> Result<String, Wrong> {
    let mut text = String::new(alloc);
    match answer(disk, words, &mut text) {
        Err(Wrong::Device) => text.push_str("fault")?,
        other => other?,
    }
    Ok(text)
}

/// A disk that rows are played on.
#[derive(Drop)]
struct Bench<D>(D);

/// The disk after a crash that leaves this many blocks, or all.
fn crashed<D: Seen>(
    alloc: Global,
    disk: D,
    blocks: Option<u32>,
    fills: &[&str],
) -> Result<(Bench<D>, String), Wrong> {
    let filling = filling(alloc, disk.blocks(), fills)?;
    let left = disk.crashed(blocks, &filling)?;
    Ok((Bench(left), String::from_str(alloc, "ok")?))
}

impl<D: Seen> Playable for Bench<D> {
    fn play(self, alloc: Global, words: &[&str]) -> Result<(Bench<D>, String), Wrong> {
        let Bench(mut disk) = self;
        match words {
            ["crash", fills @ ..] => crashed(alloc, disk, None, fills),
            ["short", blocks, fills @ ..] => crashed(alloc, disk, Some(number(blocks)?), fills),
            _ => {
                let text = given(alloc, &mut disk, words)?;
                Ok((Bench(disk), text))
            }
        }
    }

    fn end(self) {}
}

/// Plays the lines of a text on a disk.
pub(super) fn plays_on<D: Seen, R: AllocGlobal + Abort>(
    rt: &R,
    name: &str,
    on: &str,
    disk: D,
    text: &str,
) -> D {
    match plays(rt.alloc(), Bench(disk), text) {
        Ok(Bench(disk)) => disk,
        Err(mismatch) => panic!(rt; "{name}, {on}, {mismatch}"),
    }
}

/// More calls than any row makes.
pub(super) const NEVER: u32 = 99;

/// Which calls of the disk in memory fail, by their numbers from 0 on: none, and they are not
/// counted; one, and the others go on; or all from one on.
#[derive(Clone, Copy)]
pub(super) enum Fails {
    Uncounted,
    Once(u32),
    From(u32),
}

/// What is over it: nothing, a cache of this many blocks, a delayed disk on which this many blocks
/// may wait, or such a disk over such a cache.
#[derive(Clone, Copy)]
pub(super) enum Over {
    Nothing,
    Cache(usize),
    Late(usize),
    LateOnCache(usize, usize),
}

/// Played on a disk, and then on the disk in memory below. A write that fails fills its block with
/// nines.
pub(super) struct Row {
    pub(super) name: &'static str,
    /// How many blocks the disk in memory has, and has room for.
    pub(super) blocks: u32,
    pub(super) room: u32,
    pub(super) fails: Fails,
    pub(super) over: Over,
    pub(super) steps: &'static str,
    pub(super) below: &'static str,
}

/// Plays a row on a disk, if there is one.
fn plays_row<D: OverMemory, R: AllocGlobal + Abort>(rt: &R, disk: Option<D>, row: &Row) {
    let Some(disk) = disk else {
        panic!(rt; "{}: no disk", row.name);
    };
    let disk = plays_on(rt, row.name, "above", disk, row.steps);
    let _memory = plays_on(rt, row.name, "below", disk.below(), row.below);
}

/// Plays a row on what is over a disk.
fn plays_over<D: OverMemory, R: AllocGlobal + Abort>(rt: &R, disk: D, row: &Row) {
    match row.over {
        Over::Nothing => plays_row(rt, Some(disk), row),
        Over::Cache(kept) => plays_row(rt, cached(rt.alloc(), disk, kept), row),
        Over::Late(waiting) => plays_row(rt, late(rt.alloc(), disk, waiting), row),
        Over::LateOnCache(waiting, kept) => match cached(rt.alloc(), disk, kept) {
            Some(cache) => plays_row(rt, late(rt.alloc(), cache, waiting), row),
            None => panic!(rt; "{}: no cache", row.name),
        },
    }
}

/// Plays rows, each on a disk of its own.
pub(super) fn plays_rows<R: AllocGlobal + Abort>(rt: &R, rows: &[Row]) {
    for row in rows {
        assert!(rt; row.blocks <= row.room, "{}", row.name);
        let Ok(memory) = MemDisk::with_room(rt.alloc(), row.blocks, row.room) else {
            panic!(rt; "{}: no memory", row.name);
        };
        match row.fails {
            Fails::Uncounted => plays_over(rt, memory, row),
            Fails::Once(call) => {
                assert!(rt; call < u32::MAX, "{}", row.name);
                plays_over(rt, FuseDisk::once(memory, call, [9; 4096]), row);
            }
            Fails::From(call) => {
                assert!(rt; call < u32::MAX, "{}", row.name);
                plays_over(rt, FuseDisk::stop(memory, call, [9; 4096]), row);
            }
        }
    }
}
