//! Disks that are changed by hand, and what opening them answers.
mod pieces;
mod rows;
mod several;

use super::BLOCKS;
use super::image::Image;
use pieces::{Piece, disk_of, set_block};
use rows::{LEAF_ROWS, ROWS};
use several::SEVERAL;
use std::alloc::Global;
use std::test::Fail;
use testkit::Wrong;
use vm_disk::MemDisk;
use vm_store::{Store, format, open, open_surveyed, open_whole};
use vm_types::Refusal;

/// A disk, opened.
type Opened = Result<Store<MemDisk>, (MemDisk, Refusal)>;

/// How many blocks are free in the store of a disk.
fn free_in(opened: Opened) -> Result<u32, Refusal> {
    match opened {
        Ok(store) => {
            let free = store.free();
            let _disk = store.close();
            free
        }
        Err((_, refusal)) => Err(refusal),
    }
}

/// A disk of this many blocks: the first ones of an image, and then zero bytes.
fn cut(alloc: Global, image: &Image, blocks: u32) -> Result<MemDisk, Wrong> {
    let mut disk = MemDisk::new(alloc, blocks)?;
    for n in 0..blocks {
        set_block(&mut disk, n, &image.block(n))?;
    }
    Ok(disk)
}

/// The answer to formatting a disk, and whether each block is as it was.
fn format_on(
    alloc: Global,
    disk: MemDisk,
    blocks: u32,
    before: &Image,
) -> Result<(Option<Refusal>, bool), Wrong> {
    let (mut disk, refusal) = match format(disk, blocks) {
        Ok(disk) => (disk, None),
        Err((disk, refusal)) => (disk, Some(refusal)),
    };
    let after = Image::of(alloc, &mut disk)?;
    for n in 0..BLOCKS {
        if after.block(n) != before.block(n) {
            return Ok((refusal, false));
        }
    }
    Ok((refusal, true))
}

/// What the two openings make of a disk with these pieces. `open` differs only where the other one
/// refuses.
fn openings(
    alloc: Global,
    pieces: &[Piece],
) -> Result<(Result<u32, Refusal>, Result<u32, Refusal>), Wrong> {
    let whole = free_in(open_whole(alloc, disk_of(alloc, pieces)?));
    let inner = free_in(open(alloc, disk_of(alloc, pieces)?));
    Ok((whole, inner))
}

/// The numbers that are named of a disk with these pieces: the first, and then the others.
fn named(alloc: Global, pieces: &[Piece]) -> Result<Vec<u32>, Wrong> {
    let mut damaged = None;
    let mut found = Vec::new(alloc);
    let first = match open_surveyed(alloc, disk_of(alloc, pieces)?, &mut damaged) {
        Ok(store) => {
            let _disk = store.close();
            return Ok(found);
        }
        Err((_, Refusal::Damaged(first))) => first,
        Err(_) => return Err(Wrong::Device),
    };
    found.push(first)?;
    if let Some(marks) = damaged {
        for n in 0..marks.blocks() {
            if n != first && marks.is_set(n) {
                found.push(n)?;
            }
        }
    }
    Ok(found)
}

#[test]
fn each_of_several_damages_is_named(rt: HostRuntime) -> Result<(), Fail> {
    for (row, (pieces, due)) in SEVERAL.iter().enumerate() {
        let found = named(rt.alloc(), pieces)?;
        assert!(rt; found.as_slice() == *due, "row {row}: {found:?}");
    }
    Ok(())
}

#[test]
fn each_damage_is_named(rt: HostRuntime) -> Result<(), Fail> {
    let mut missed = 0u32;
    for (row, (pieces, due)) in ROWS.iter().enumerate() {
        let (whole, inner) = openings(rt.alloc(), pieces)?;
        assert_eq!(rt; whole, *due, "row {row}");
        if inner != whole {
            assert!(rt; whole.is_err() && inner.is_ok(), "row {row} opened");
            missed = missed.saturating_add(1);
        }
    }
    // A leaf that begins with another key, overlaps the next one or is there twice, and an inner
    // block that is its own child.
    assert_eq!(rt; missed, 4);
    Ok(())
}

#[test]
fn each_damage_of_leaves_is_named(rt: HostRuntime) -> Result<(), Fail> {
    let mut missed = 0u32;
    for (row, (pieces, due)) in LEAF_ROWS.iter().enumerate() {
        let (whole, inner) = openings(rt.alloc(), pieces)?;
        assert_eq!(rt; whole, *due, "row {row}");
        if inner != whole {
            assert!(rt; whole.is_err() && inner.is_ok(), "row {row} opened");
            missed = missed.saturating_add(1);
        }
    }
    // The leaves under an inner block.
    assert_eq!(rt; missed, 3);
    Ok(())
}

#[test]
fn short_disks_and_stores_are_refused(rt: HostRuntime) -> Result<(), Fail> {
    let mut disk = disk_of(rt.alloc(), &[])?;
    let image = Image::of(rt.alloc(), &mut disk)?;
    let found = [
        free_in(open(rt.alloc(), cut(rt.alloc(), &image, 21)?)).err(),
        free_in(open(rt.alloc(), cut(rt.alloc(), &image, 63)?)).err(),
    ];
    let formatted = [
        format_on(rt.alloc(), disk, 64, &image)?,
        format_on(rt.alloc(), image.disk(rt.alloc())?, 63, &image)?,
    ];
    assert!(rt; found == [Some(Refusal::NotAStore); 2]);
    assert_eq!(rt;
        free_in(open(rt.alloc(), cut(rt.alloc(), &image, 65)?)),
        Ok(29)
    );
    assert!(rt;
        formatted
            == [
                (Some(Refusal::AlreadyAStore), true),
                (Some(Refusal::BadSize), true)
            ]
    );
    Ok(())
}
