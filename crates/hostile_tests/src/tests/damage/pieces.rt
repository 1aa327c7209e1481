//! Pieces of a store, written on a disk by hand.
use crate::tests::{BLOCKS, name};
use std::alloc::Global;
use testkit::Wrong;
use vm_block::{Child, Entry, Kind, SlotName, write_header, write_node};
use vm_catalog::write_slot;
use vm_disk::{Disk, MemDisk};
use vm_types::{Block, Key};

/// An alternative: its name, its parent, and its current and its base root.
pub type Line = (&'static [u8], &'static [u8], u32, u32);

/// An entry of a leaf: its key in table 1, and where its value ends among the values.
pub type Bound = (u64, u16);

/// What is written on a disk.
#[derive(Clone, Copy)]
pub enum Piece {
    /// A block, one of its bytes, and what that is set to.
    Byte(u32, usize, u8),
    /// The same for four bytes.
    Word(u32, usize, u32),
    /// A leaf of keys of table 1, with empty values.
    Leaf(u32, &'static [u64]),
    /// A leaf with these entries, and as many values as the last one says. Each byte is an `a`.
    Bounds(u32, &'static [Bound]),
    /// A leaf of the keys from 1 to this one, with empty values.
    Empties(u32, u64),
    /// An inner block of a level: of each child the lowest key, in table 1, and the block.
    Node(u32, u8, &'static [(u64, u32)]),
    /// The entries of slot A, after `top` with root 34.
    Slot(&'static [Line]),
    /// Slot A with `top` and this many children of it, all of them empty.
    Children(usize),
}

use Piece::{Bounds, Byte, Children, Empties, Leaf, Node, Slot, Word};

pub(super) fn set_block(disk: &mut MemDisk, n: u32, bytes: &Block) -> Result<(), Wrong> {
    if n >= disk.blocks() {
        return Err(Wrong::Device);
    }
    disk.write(n, bytes)?;
    Ok(())
}

/// Sets bytes of a block.
fn set_bytes(disk: &mut MemDisk, n: u32, at: usize, bytes: &[u8]) -> Result<(), Wrong> {
    let mut block = [0; 4096];
    if n < disk.blocks() {
        disk.read(n, &mut block)?;
    }
    lay(&mut block, at, bytes);
    set_block(disk, n, &block)
}

/// Sets bytes of a block that is written afterwards.
fn lay(block: &mut Block, at: usize, bytes: &[u8]) {
    for (place, byte) in block.iter_mut().skip(at).zip(bytes) {
        *place = *byte;
    }
}

/// Writes a leaf, spelled by hand.
fn put_bounds(disk: &mut MemDisk, n: u32, bounds: &[Bound]) -> Result<(), Wrong> {
    let mut block = [0; 4096];
    let count = bounds.len().min(341);
    lay(&mut block, 0, b"LEF3");
    lay(&mut block, 8, &(count as u16).to_le_bytes());
    let mut last = 0;
    for (i, (number, end)) in bounds.iter().enumerate() {
        let at = i.wrapping_mul(12).wrapping_add(16);
        lay(&mut block, at, &[1]);
        lay(&mut block, at.wrapping_add(2), &number.to_le_bytes());
        lay(&mut block, at.wrapping_add(10), &end.to_le_bytes());
        last = *end;
    }
    for place in block
        .iter_mut()
        .skip(16 + 12 * count)
        .take(usize::from(last))
    {
        *place = b'a';
    }
    set_block(disk, n, &block)
}

fn put_leaf(alloc: Global, disk: &mut MemDisk, n: u32, numbers: &[u64]) -> Result<(), Wrong> {
    let mut bounds = Vec::new(alloc);
    for number in numbers {
        bounds.push((*number, 0))?;
    }
    put_bounds(disk, n, &bounds)
}

fn put_empties(alloc: Global, disk: &mut MemDisk, n: u32, last: u64) -> Result<(), Wrong> {
    let mut numbers = Vec::new(alloc);
    for number in 0..last {
        numbers.push(number.wrapping_add(1))?;
    }
    put_leaf(alloc, disk, n, &numbers)
}

fn put_node(
    alloc: Global,
    disk: &mut MemDisk,
    n: u32,
    level: u8,
    children: &[(u64, u32)],
) -> Result<(), Wrong> {
    let mut entries = Vec::new(alloc);
    for (number, block) in children {
        let low = Key {
            table: 1,
            number: *number,
        };
        let child = Child { low, block: *block };
        entries.push(child)?;
    }
    let mut bytes = [0; 4096];
    if entries.len() <= 256 {
        write_node(level, &entries, &mut bytes);
    }
    set_block(disk, n, &bytes)
}

fn entry(line: Line) -> Entry {
    Entry {
        kind: Kind::Alternative,
        name: name(line.0),
        owner: if line.1.is_empty() {
            None
        } else {
            Some(name(line.1))
        },
        current: line.2,
        base: line.3,
    }
}

/// Writes slot A.
fn write_entries(disk: &mut MemDisk, entries: &[Entry]) -> Result<(), Wrong> {
    if entries.len() <= 511 && disk.blocks() >= 34 {
        write_slot(disk, SlotName::A, BLOCKS, entries)?;
    }
    Ok(())
}

/// Makes the entries `top`, and these after it.
fn put_slot(alloc: Global, disk: &mut MemDisk, lines: &[Line]) -> Result<(), Wrong> {
    let mut entries = Vec::new(alloc);
    entries.push(entry((b"top", b"", 34, 0)))?;
    for line in lines {
        entries.push(entry(*line))?;
    }
    write_entries(disk, &entries)
}

/// Makes the entries `top`, and this many children of it.
fn put_children(alloc: Global, disk: &mut MemDisk, count: usize) -> Result<(), Wrong> {
    let mut entries = Vec::new(alloc);
    let top = entry((b"top", b"", 34, 0));
    entries.push(top)?;
    for n in 0..count {
        let digits = [b'n', b'0' + (n / 10 % 10) as u8, b'0' + (n % 10) as u8];
        let child = Entry {
            name: name(&digits),
            ..entry((b"n", b"top", 0, 0))
        };
        entries.push(child)?;
    }
    write_entries(disk, &entries)
}

fn put_piece(alloc: Global, disk: &mut MemDisk, piece: Piece) -> Result<(), Wrong> {
    match piece {
        Byte(n, at, byte) => set_bytes(disk, n, at, &[byte]),
        Word(n, at, word) => set_bytes(disk, n, at, &word.to_le_bytes()),
        Leaf(n, numbers) => put_leaf(alloc, disk, n, numbers),
        Bounds(n, bounds) => put_bounds(disk, n, bounds),
        Empties(n, last) => put_empties(alloc, disk, n, last),
        Node(n, level, children) => put_node(alloc, disk, n, level, children),
        Slot(lines) => put_slot(alloc, disk, lines),
        Children(count) => put_children(alloc, disk, count),
    }
}

/// A store whose first alternative has one record in block 34, with these pieces written over it.
pub(super) fn disk_of(alloc: Global, pieces: &[Piece]) -> Result<MemDisk, Wrong> {
    let mut disk = MemDisk::new(alloc, BLOCKS)?;
    let mut header = [0; 4096];
    write_header(&mut header);
    set_block(&mut disk, 0, &header)?;
    put_slot(alloc, &mut disk, &[])?;
    put_leaf(alloc, &mut disk, 34, &[1])?;
    for piece in pieces {
        put_piece(alloc, &mut disk, *piece)?;
    }
    Ok(disk)
}
