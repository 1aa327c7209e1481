//! Scripts: lines of steps, each with its answer, played over a disk in memory, and over others on
//! top of it.
//!
//! A refusal is `error` and its text. A record's key is `7:1`. `''` is the empty value, `~` no
//! value, and `none` an empty list. A hundred or more bytes of one kind are `61*300`.
//!
//! | Step, while a store is open | Answer |
//! |---|---|
//! | `new`, `drop`, `put`, `remove`, `checkpoint`, `uncheck`, `back`, `merge`, `post`, `commit`, `rollback`, `reclaim`, `grow` | `ok`, or `ok 1` for a merge |
//! | `puts top 1:1 17 v` | `ok`, if all seventeen puts are answered so |
//! | `checkpoints top 15` | the same for the checkpoints `k001` to `k015` |
//! | `kept top 1:1 v 15` | the same, with a put before each |
//! | `run put a 1:1 y ; commit` | `ok ; ok ; end`: how the list ended comes last |
//! | `get a 1:1`, `look a 1:1` | `y` |
//! | `list a` | `1:1=y 1:2=z` |
//! | `changes a` | `1:1=x/y`: the value before and after |
//! | `get_at a@ 1:1`, `look_at a@c 1:1`, `list_at a@c`, `diff a@ a` | the same for versions: `a@` is the base of a, `a@c` its checkpoint c |
//! | `list_part a 1:1 1:9`, `list_from a@ 1:1 5`, `diff_part a@ a 1:1 1:9` | the same from one key to another, or the first five from a key on |
//! | `conflicts a` | `1:1=x/z/y`: the value of the base, the parent's and its own |
//! | `tally a` | `2 3 1 no`: records changed since the base, by the parent since then, and in conflict, and whether it can be posted |
//! | `alts` | `top a<top` |
//! | `checks a` | `b c` |
//! | `free`, `blocks` | `30`: how many blocks are free, and how many the store has |
//! | `close` | `ok` |
//! | `copy 96 128` | `ok`: the store was copied to 96 blocks of a blank disk of 128, closed, and the copy is the device, taken anew |
//! | `copy 64 64 formatted`, `copy 64 64 once 5` | the same to a disk with a new store, and to one whose sixth call fails |
//!
//! | Step, while no store is open | Answer |
//! |---|---|
//! | `format 64`, `open`, `open whole` | `ok` |
//! | `calls` | `5`: the device calls since the device was last made new |
//! | `dirty` | `34 35`: the blocks that are not synced |
//! | `anew` | `ok`: the device is made new, with nothing in its cache |
//! | `written` | the device is made new; `0 1 2`: the blocks that have bytes other than zeros |
//! | `block 18` | the same; `0:534C 195:40`: its nonzero bytes, from these offsets on; or `all=41` |
//! | `once 5` | `ok`: the device is made new, and its sixth call fails |
//! | `stop 5 A5 00` | the same for each call from the sixth on: a write leaves A5 and then zeros in its block |
//! | `crash`, `crash all=41`, `crash 35=FF` | `ok`: the device is made new after a crash that may fill blocks |
//! | `zero 2` | the same, after a block was set to zeros |
//! | `set 18 0:534C 195:40` | the same, after bytes of a block were set, from these offsets on |
//! | `cut 21` | the same, with only this many of its blocks |
//! | `longer 80` | `ok`, or `fault`: the disk is asked to have this many blocks |
//! | `short 64`, `short 64 35=FF` | `ok`: the device is made new after a crash that leaves this many blocks, and may fill some |
use super::answers::{answer, refusal_text};
use super::blocks::{cut, look, set_block, set_bytes};
use super::over::OverMemory;
use std::alloc::Global;
use std::process::Abort;
use testkit::{Playable, Wrong, byte, filling, number, plays};
use vm_disk::{CachedDisk, DelayedDisk, Disk, FuseDisk, MemDisk};
use vm_store::{Store, copy, format, open, open_whole};
use vm_types::{Block, Refusal};

/// A new store, open.
pub(super) const NEW: &str = "
    format 64
    anew
    open";

/// A closed store in which `duct` is committed, in block 34. Opening it makes five device calls.
pub(super) const DUCT: &str = "
    format 64
    anew
    open
    put top 7:1 duct
    commit
    close
    anew";

/// A closed store in which `top` has seventeen records of 240 bytes in two leaves, of eight and of
/// nine, and `spur` under it the same map. Opening it makes seven device calls.
pub(super) const SEVENTEEN: &str = "
    format 64
    anew
    open
    puts top 1:2 16 76*240
    put top 1:1 76*240
    new spur top
    commit
    close
    anew";

/// A row of a table: its name, which is printed if it fails, the text before its own, and its own.
pub(super) type Row = (&'static str, &'static str, &'static str);

/// The same, with the room of the disk after the name.
pub(super) type RoomRow = (&'static str, u32, &'static str, &'static str);

/// Rows under one name: texts that are played one after another, and what stands in each row for
/// those that are `?`. If a row fails, the name and the number of the row are printed.
pub(super) type Rows = (
    &'static str,
    &'static [&'static str],
    &'static [&'static [&'static str]],
);

/// More device calls than any script makes.
const NEVER: u32 = 100_000;

/// A device, or the store that is open on it.
enum Bench<D: Disk> {
    Shut(D),
    Open(Store<D>),
}

/// What a step leaves, and its answer.
type Played<M> = Result<(Bench<FuseDisk<M>>, String), Wrong>;

/// A device that fails after this many calls: once, or every call from there on.
fn device<M: OverMemory>(
    alloc: Global,
    disk: MemDisk,
    passes: u32,
    torn: Option<Block>,
) -> Result<FuseDisk<M>, Wrong> {
    if passes > NEVER {
        return Err(Wrong::Unreadable);
    }
    let disk = M::over(alloc, disk)?;
    Ok(match torn {
        Some(torn) => FuseDisk::stop(disk, passes, torn),
        None => FuseDisk::once(disk, passes, [9; 4096]),
    })
}

/// The disk after a crash that leaves this many blocks.
fn short(alloc: Global, disk: MemDisk, blocks: u32, fills: &[&str]) -> Result<MemDisk, Wrong> {
    if blocks < disk.sure() || blocks > disk.blocks() {
        return Err(Wrong::Unreadable);
    }
    let filling = filling(alloc, blocks, fills)?;
    Ok(disk.crash_short(&filling, blocks))
}

/// The disk with other bytes.
fn changed(alloc: Global, mut disk: MemDisk, words: &[&str]) -> Result<MemDisk, Wrong> {
    match words {
        ["anew"] => {}
        ["crash", fills @ ..] => {
            let filling = filling(alloc, disk.blocks(), fills)?;
            return Ok(disk.crash(&filling));
        }
        ["short", blocks, fills @ ..] => return short(alloc, disk, number(blocks)?, fills),
        ["set", block, runs @ ..] => set_bytes(&mut disk, number(block)?, runs)?,
        ["zero", block] => set_block(&mut disk, number(block)?, &[0; 4096])?,
        ["cut", blocks] => return cut(alloc, disk, number(blocks)?),
        _ => return Err(Wrong::Unreadable),
    }
    Ok(disk)
}

/// A new device.
fn renewed<M: OverMemory>(
    alloc: Global,
    disk: MemDisk,
    words: &[&str],
) -> Result<FuseDisk<M>, Wrong> {
    match words {
        ["once", passes] => device(alloc, disk, number(passes)?, None),
        ["stop", passes, first, rest] => {
            let mut torn = [byte(rest)?; 4096];
            torn[0] = byte(first)?;
            device(alloc, disk, number(passes)?, Some(torn))
        }
        _ => device(alloc, changed(alloc, disk, words)?, NEVER, None),
    }
}

/// Asks for this many blocks, and tells whether they are there.
fn lengthen<D: Disk>(disk: &mut D, blocks: u32) -> Result<&'static str, Wrong> {
    if blocks < disk.blocks() {
        return Err(Wrong::Unreadable);
    }
    match disk.extend(blocks) {
        Ok(()) => Ok("ok"),
        Err(_) => Ok("fault"),
    }
}

fn dirty_blocks(alloc: Global, disk: &MemDisk) -> Result<String, Wrong> {
    let mut text = String::new(alloc);
    for n in 0..disk.blocks() {
        if disk.is_dirty(n) {
            write!(text, " {n}")?;
        }
    }
    Ok(text)
}

/// The store that was opened, or the disk with the refusal.
fn opened<M: OverMemory>(
    alloc: Global,
    opened: Result<Store<FuseDisk<M>>, (FuseDisk<M>, Refusal)>,
    ok: String,
) -> Played<M> {
    match opened {
        Ok(store) => Ok((Bench::Open(store), ok)),
        Err((disk, refusal)) => {
            let refused = refusal_text(alloc, refusal)?;
            Ok((Bench::Shut(disk), refused))
        }
    }
}

/// Plays a step while no store is open.
fn play_shut<M: OverMemory>(alloc: Global, mut disk: FuseDisk<M>, words: &[&str]) -> Played<M> {
    let ok = String::from_str(alloc, "ok")?;
    match words {
        ["format", blocks] => match format(disk, number(blocks)?) {
            Ok(disk) => Ok((Bench::Shut(disk), ok)),
            Err((disk, refusal)) => {
                let refused = refusal_text(alloc, refusal)?;
                Ok((Bench::Shut(disk), refused))
            }
        },
        ["open"] => opened(alloc, open(alloc, disk), ok),
        ["open", "whole"] => opened(alloc, open_whole(alloc, disk), ok),
        ["calls"] => {
            let calls = format!(in alloc; "{}", disk.calls())?;
            Ok((Bench::Shut(disk), calls))
        }
        ["longer", blocks] => {
            let text = String::from_str(alloc, lengthen(&mut disk, number(blocks)?)?)?;
            Ok((Bench::Shut(disk), text))
        }
        ["dirty"] => {
            let blocks = dirty_blocks(alloc, disk.inner().memory())?;
            Ok((Bench::Shut(disk), blocks))
        }
        _ => {
            let mut memory = disk.into_inner().below();
            match look(alloc, &mut memory, words)? {
                Some(text) => {
                    let disk = device(alloc, memory, NEVER, None)?;
                    Ok((Bench::Shut(disk), text))
                }
                None => {
                    let disk = renewed(alloc, memory, words)?;
                    Ok((Bench::Shut(disk), ok))
                }
            }
        }
    }
}

/// A disk of this many blocks for the copy of a store.
fn copy_target<M: OverMemory>(
    alloc: Global,
    available: &str,
    words: &[&str],
) -> Result<FuseDisk<M>, Wrong> {
    let blank = MemDisk::new(alloc, number(available)?)?;
    match words {
        [] => device(alloc, blank, NEVER, None),
        ["once", passes] => device(alloc, blank, number(passes)?, None),
        ["formatted"] => {
            let blank = device(alloc, blank, NEVER, None)?;
            format(blank, 64).map_err(|_| Wrong::Unreadable)
        }
        _ => Err(Wrong::Unreadable),
    }
}

/// Copies the store to this many blocks of another disk, which takes the place of its own.
fn play_copy<M: OverMemory>(
    alloc: Global,
    mut store: Store<FuseDisk<M>>,
    blocks: u32,
    target: FuseDisk<M>,
) -> Played<M> {
    match copy(&mut store, target, blocks) {
        Ok(disk) => {
            let _source = store.close();
            let disk = device(alloc, disk.into_inner().below(), NEVER, None)?;
            let ok = String::from_str(alloc, "ok")?;
            Ok((Bench::Shut(disk), ok))
        }
        Err((_target, refusal)) => match refusal_text(alloc, refusal) {
            Ok(refused) => Ok((Bench::Open(store), refused)),
            Err(_) => {
                let _disk = store.close();
                Err(Wrong::Memory)
            }
        },
    }
}

/// Plays a step while a store is open.
fn play_open<M: OverMemory>(
    alloc: Global,
    mut store: Store<FuseDisk<M>>,
    words: &[&str],
) -> Played<M> {
    if matches!(words, ["close"]) {
        let disk = store.close();
        let ok = String::from_str(alloc, "ok")?;
        return Ok((Bench::Shut(disk), ok));
    }
    if let ["copy", blocks, available, target @ ..] = words {
        return match (number(blocks), copy_target(alloc, available, target)) {
            (Ok(blocks), Ok(target)) => play_copy(alloc, store, blocks, target),
            _ => {
                let _disk = store.close();
                Err(Wrong::Unreadable)
            }
        };
    }
    match answer(alloc, &mut store, words) {
        Ok(text) => Ok((Bench::Open(store), text)),
        Err(wrong) => {
            let _disk = store.close();
            Err(wrong)
        }
    }
}

impl<M: OverMemory> Playable for Bench<FuseDisk<M>> {
    fn play(self, alloc: Global, words: &[&str]) -> Result<(Bench<FuseDisk<M>>, String), Wrong> {
        match self {
            Bench::Shut(disk) => play_shut(alloc, disk, words),
            Bench::Open(store) => play_open(alloc, store, words),
        }
    }

    fn end(self) {
        let _disk = match self {
            Bench::Shut(disk) => disk,
            Bench::Open(store) => store.close(),
        };
    }
}

/// The blank disks that a row is played on, one after another: how many blocks each has, and has
/// room for; it alone, then with a cache over it, and then with a disk over it that delays writes.
#[derive(Clone, Copy)]
pub(super) struct On {
    pub(super) blocks: u32,
    pub(super) room: u32,
    pub(super) cached: bool,
    pub(super) late: bool,
}

/// 64 blocks, in memory alone.
pub(super) const ALONE: On = On {
    blocks: 64,
    room: 64,
    cached: false,
    late: false,
};

/// The same, and once more over a cache.
pub(super) const CACHED: On = On {
    blocks: 64,
    room: 64,
    cached: true,
    late: false,
};

/// 64 blocks with room for 80, over a cache as well, and over a disk that delays writes.
pub(super) const LATE: On = On {
    blocks: 64,
    room: 80,
    cached: true,
    late: true,
};

/// 256 blocks, in memory alone.
pub(super) const LARGE: On = On {
    blocks: 256,
    room: 256,
    cached: false,
    late: false,
};

/// 256 blocks with room for 300, over a cache as well, and over a disk that delays writes.
pub(super) const LARGE_AND_LATE: On = On {
    blocks: 256,
    room: 300,
    cached: true,
    late: true,
};

/// Plays texts one after another on a blank disk.
fn plays_over<M: OverMemory, R: AllocGlobal + Abort>(
    rt: &R,
    on: On,
    over: &str,
    name: &str,
    texts: &[&str],
) {
    assert!(rt; on.blocks <= on.room, "{name}");
    let Ok(disk) = MemDisk::with_room(rt.alloc(), on.blocks, on.room) else {
        panic!(rt; "{name}, {over}: no memory");
    };
    let mut bench = match device::<M>(rt.alloc(), disk, NEVER, None) {
        Ok(device) => Bench::Shut(device),
        Err(wrong) => panic!(rt; "{name}, {over}: {wrong:?}"),
    };
    for text in texts {
        bench = match plays(rt.alloc(), bench, text) {
            Ok(bench) => bench,
            Err(mismatch) => panic!(rt; "{name}, {over}, {mismatch}"),
        };
    }
    bench.end();
}

/// The same on each of the disks.
pub(super) fn plays_on<R: AllocGlobal + Abort>(rt: &R, on: On, name: &str, texts: &[&str]) {
    plays_over::<MemDisk, R>(rt, on, "in memory", name, texts);
    if on.cached {
        plays_over::<CachedDisk<MemDisk>, R>(rt, on, "over a cache", name, texts);
    }
    if on.late {
        plays_over::<DelayedDisk<MemDisk>, R>(rt, on, "over a late disk", name, texts);
    }
}

/// Plays the rows of a table, each on disks of its own.
pub(super) fn each<R: AllocGlobal + Abort>(rt: &R, on: On, rows: &[Row]) {
    for (name, first, row) in rows {
        plays_on(rt, on, name, &[first, row]);
    }
}

/// The same on disks of 64 blocks with the row's room, and once more over a cache.
pub(super) fn each_with_room<R: AllocGlobal + Abort>(rt: &R, rows: &[RoomRow]) {
    for (name, room, first, row) in rows {
        let on = On {
            room: *room,
            ..CACHED
        };
        plays_on(rt, on, name, &[first, row]);
    }
}

/// These texts, with what a row has for those that are `?`.
fn filled(
    alloc: Global,
    texts: &[&'static str],
    row: &[&'static str],
) -> Result<Vec<&'static str>, Wrong> {
    let mut filled = Vec::new(alloc);
    let mut used: usize = 0;
    for text in texts {
        if *text == "?" {
            filled.push(*row.get(used).ok_or(Wrong::Unreadable)?)?;
            used = used.saturating_add(1);
        } else {
            filled.push(*text)?;
        }
    }
    if used != row.len() {
        return Err(Wrong::Unreadable);
    }
    Ok(filled)
}

/// Plays rows under one name, each on disks of its own.
pub(super) fn each_of<R: AllocGlobal + Abort>(rt: &R, on: On, rows: &Rows) {
    let (name, texts, rows) = rows;
    for (n, row) in rows.iter().enumerate() {
        let Ok(texts) = filled(rt.alloc(), texts, row) else {
            panic!(rt; "{name}, row {n}: no such row");
        };
        let Ok(name) = format!(in rt.alloc(); "{name}, row {n}") else {
            panic!(rt; "{name}, row {n}: no memory");
        };
        plays_on(rt, on, &name, &texts);
    }
}
