//! How long it takes to change one large tree, and to read its records.
ghost use Rattle.std.specs.Prelude.{◌≤◌};

use std::alloc::{AllocError, Global};
use std::io;
use std::time::{Clock, Instant};
use vm_alloc::{Held, Marks};
use vm_check::mark;
use vm_disk::{Disk, MemDisk};
use vm_tree::{Root, get, put};
use vm_types::{Block, Key, Refusal, Value};

const BLOCKS: u32 = 262_144;

const TIMES: u64 = 1_000_000;

/// The order of the keys.
#[derive(Clone, Copy, Debug)]
enum Order {
    Rising,
    Scattered,
}

impl Order {
    fn name(self) -> &'static str {
        match self {
            Order::Rising => "rising",
            Order::Scattered => "scattered",
        }
    }

    /// The nth key.
    fn key(self, n: u64) -> Key {
        let number = match self {
            Order::Rising => n,
            Order::Scattered => mixed(n),
        };
        Key { table: 1, number }
    }
}

/// A number that looks random. Each step is invertible, so different numbers stay different.
fn mixed(n: u64) -> u64 {
    let mut mixed = n.wrapping_mul(0x9E37_79B9_7F4A_7C15);
    mixed = (mixed ^ (mixed >> 30)).wrapping_mul(0xBF58_476D_1CE4_E5B9);
    mixed = (mixed ^ (mixed >> 27)).wrapping_mul(0x94D0_49BB_1331_11EB);
    mixed ^ (mixed >> 31)
}

/// A tree on a disk in memory.
#[derive(Drop)]
struct Plot {
    disk: MemDisk,
    held: Held,
    marks: Marks,
    root: Root,
    markings: u32,
}

impl Plot {
    fn new(alloc: Global, blocks: u32) -> Result<Plot, AllocError>
        requires enough { 64 ≤ blocks }
        requires few { blocks ≤ 1048576 }
    {
        Ok(Plot {
            disk: MemDisk::new(alloc, blocks)?,
            held: Held::new(alloc, blocks)?,
            marks: Marks::new(alloc, blocks)?,
            root: Root::default(),
            markings: 0,
        })
    }

    /// Holds the blocks of the tree, and no other data block.
    fn let_go(&mut self) -> Result<(), Refusal> {
        self.marks.clear();
        if self.marks.blocks() <= self.disk.blocks() {
            mark(&mut self.disk, &[self.root], &mut self.marks)?;
        }
        if self.marks.blocks() == self.held.blocks() {
            self.held.replace(&self.marks);
        }
        self.markings = self.markings.saturating_add(1);
        Ok(())
    }

    fn put(&mut self, key: Key, value: &Value) -> Result<(), Refusal> {
        if self.held.free_count() < 16 {
            self.let_go()?;
        }
        if self.held.free_count() < 16 || self.held.blocks() > self.disk.blocks() {
            return Err(Refusal::Memory);
        }
        self.root = put::<MemDisk, 256, 8>(
            &mut self.disk,
            &mut self.held,
            None,
            self.root,
            key,
            value.as_bytes(),
        )?;
        Ok(())
    }

    /// Whether the key has a value.
    fn has(&mut self, key: Key, room: &mut Block) -> Result<bool, Refusal> {
        let blocks = self.disk.blocks();
        let found = get(&mut self.disk, blocks, self.root, key, room)?;
        Ok(found.is_some())
    }
}

/// Puts records into an empty tree, and gets each of them.
fn measure_order<R: Print + Clock>(rt: &R, alloc: Global, order: Order) -> io::Result<()> {
    let mut plot = Plot::new(alloc, BLOCKS)?;
    let value = Value::new(&[7; 16]).unwrap_or_default();
    let name = order.name();

    let mut done: u64 = 0;
    let start = Instant::now(rt)?;
    for n in 0..TIMES {
        if plot.put(order.key(n), &value).is_ok() {
            done = done.wrapping_add(1);
        }
    }
    let spent = start.elapsed(rt)?;
    let markings = plot.markings;
    println!(rt;
        "put, {name}: {} us for {done}, {markings} markings",
        spent.as_micros()
    )?;

    let mut found: u64 = 0;
    let mut room = [0; 4096];
    let start = Instant::now(rt)?;
    for n in 0..TIMES {
        if plot.has(order.key(n), &mut room) == Ok(true) {
            found = found.wrapping_add(1);
        }
    }
    let spent = start.elapsed(rt)?;
    println!(rt; "get, {name}: {} us for {found}", spent.as_micros())
}

/// Puts a million records into one tree and gets each: first with rising keys, then with scattered
/// ones.
pub(super) fn measure<R: Print + Clock>(rt: &R, alloc: Global) -> io::Result<()> {
    measure_order(rt, alloc, Order::Rising)?;
    measure_order(rt, alloc, Order::Scattered)
}
