//! Scripts: lines of steps, each with its answer, played over a map in a tree on a disk in memory.
//!
//! A fault is `error` and its name, as in `error Damaged 36`. Keys are those of table 1, by number.
//! `''` is the empty value, `300*a` is 300 times the letter a, and `~` is no value. `none` is an
//! empty list, or the root of the empty map.
//!
//! | Step | Answer |
//! |---|---|
//! | `new 64` | `ok`: an empty map on a blank disk of this many blocks, with the store's sizes |
//! | `sizes 3 2` | `ok`: from here on an inner block has at most 3 children, and a tree 2 levels |
//! | `once 1` | `ok`: the disk fails the second device call after this |
//! | `put 5 v`, `puts 1 15 v` | `ok`: a record; fifteen from the key 1 on, if all of them are answered so |
//! | `falls 40 15 v` | `ok`: fifteen from the key 40 down |
//! | `remove 5` | `ok`, or `none` if there is no such record |
//! | `get 5`, `has 5` | `v`; `yes` |
//! | `list` | `1=v 2=v` |
//! | `part 1 9` | `1=v 2=v`: the records from one number to another |
//! | `next 1 2` | `1=v 2=v`: the first records from a number on, at most this many |
//! | `root`, `level` | `37.1.1`: its block, its level, and the lowest key; `1`: only the level |
//! | `keep a` | `ok`: `a` (or `b` or `c`) means this root from here on, as in `top a` |
//! | `spent` | `3`: how many blocks were taken since a root was last kept |
//! | `base`, `no base` | `ok`: the blocks that are held now stand as they are from here on, and others that are held are changed in their places; none is |
//! | `free` | `25`: how many blocks are free |
//! | `let go` | `ok`: exactly the blocks under the root are held |
//! | `top 35.1.0` | `ok`: this is the root from here on |
//! | `take` | `34`: the lowest free block is held |
//! | `fresh`, `calls` | `ok`; `2`: how many device calls were made since the last such step, or the start |
//! | `differ 36.0.1 37.0.1` | `2=v>w by 2`: the values that the second map changes, and the device calls |
//! | `within 36.0.1 37.0.1 2 5` | `2=v>w by 2`: the same from one number to another |
//! | `same 36.0.1 37.0.1` | `no by 2`: whether the maps are equal, and the device calls |
//! | `values a b`, `equal a b`, `above a b` | `2=v>w`, `no`: the same two without the calls; `yes`: whether the first root has the higher level |
//!
//! | Step | Answer |
//! |---|---|
//! | `mark 34.1.1 none` | `marks 34 35 by 1`: what is marked after a marking from these, and its device calls |
//! | `verify 34 0` | `34.1.1 none marks 34 35 by 2`: what is found under these numbers |
//! | `move 64 37.1.1 none` | `36.1.1 none by 3`: what lies under two roots is copied to a blank disk of this many blocks, which is the disk from here on: the roots of the copies, and the device calls of the source |
//! | `leaf 36`, `node 1 37` | `10=v 11=300*a`, `1:35 10:36`: what the readers of single blocks give |
//! | `data 34` | the bytes of a data block, as for `bytes` |
//!
//! | Step | Answer |
//! |---|---|
//! | `write leaf 34 v 1 2` | `ok`: a leaf of these keys with one value is written into the block |
//! | `write records 34 1=v 2=300*a` | the same for a leaf of records with values of their own |
//! | `write node 34 1 1:35 2:36` | the same for an inner block of level 1 |
//! | `write fan 35 256` | the same with this many children: 0:34, 32:34, 64:34 and so on |
//! | `write all 36 07`, `copy 36 35` | the same for one byte, and for the bytes of another block |
//! | `set 36 0:4E4F` | `ok`: these bytes of the block, from this offset on |
//! | `bytes 37` | `0:4E4F444501 8:02`: its nonzero bytes, from these offsets on |
//! | `count 35` | `9`: its records or children |
//! | `child 38 2` | `32:34`: its third child |
//! | `leaves` | `2 2 3`: the records of each leaf under a root of level 1 |
//! | `sync` | `ok` |
//! | `dirty` | `34 35`: the blocks that are not synced |
use super::answers::answer;
use super::bench::Bench;
use super::words::Wrong;
use std::alloc::Global;
use std::process::Abort;
use testkit::{Playable, plays};

/// Sixteen records in block 34, with block 48 also held, and then one before them, for which the
/// leaf has no room: leaves of 1 to 8 and of 9 to 17 in blocks 35 and 36, and the root in 37.
pub(super) const SEVENTEEN: &str = "
    new 64
    puts 2 15 240*v
    let go
    put 17 240*v
    put 1 240*v";

/// A full leaf of every second number up to 30 in block 34, and block 35 for an inner block over
/// it. Both are held.
pub(super) const FOREIGN: &str = "
    new 64
    write leaf 34 240*v 0 2 4 6 8 10 12 14 16 18 20 22 24 26 28 30
    take -> 34
    take -> 35
    top 35.1.0
    free -> 28";

/// The name of a row, and the texts that are played one after another, the first over a blank disk
/// of 64 blocks.
pub(super) type Row = (&'static str, &'static [&'static str]);

impl Playable for Bench {
    fn play(mut self, alloc: Global, words: &[&str]) -> Result<(Bench, String), testkit::Wrong> {
        match answer(alloc, &mut self, words) {
            Ok(text) => Ok((self, text)),
            Err(Wrong::Memory) => Err(testkit::Wrong::Memory),
            Err(_) => Err(testkit::Wrong::Unreadable),
        }
    }

    fn end(self) {}
}

/// Plays rows, each over a disk of its own.
pub(super) fn plays_rows<R: AllocGlobal + Abort>(rt: &R, rows: &[Row]) {
    for (name, texts) in rows {
        let Ok(mut bench) = Bench::new(rt.alloc(), 64) else {
            panic!(rt; "{name}: no memory");
        };
        for text in *texts {
            bench = match plays(rt.alloc(), bench, text) {
                Ok(bench) => bench,
                Err(mismatch) => panic!(rt; "{name}, {mismatch}"),
            };
        }
    }
}
