//! How long it takes to find a free block.
use std::alloc::Global;
use std::io;
use std::time::{Clock, Instant};
use vm_alloc::{Held, Marks};

const BLOCKS: u32 = 1_048_576;

/// Takes every block of an empty map, and then the last thousand of one that is nearly full.
pub(super) fn measure<R: Print + Clock>(rt: &R, alloc: Global) -> io::Result<()> {
    let mut held = Held::new(alloc, BLOCKS)?;
    let start = Instant::now(rt)?;
    let sum = take_all(&mut held);
    let row = start.elapsed(rt)?;
    println!(rt; "in a row: {} ns (sum {sum})", row.as_nanos())?;

    let mut marks = Marks::new(alloc, BLOCKS)?;
    for n in 34..BLOCKS {
        if n % 1048 != 0 && n < marks.blocks() {
            marks.set(n);
        }
    }
    if marks.blocks() == held.blocks() {
        held.replace(&marks);
    }
    let free = held.free_count();
    let start = Instant::now(rt)?;
    let sum = take_all(&mut held);
    let scattered = start.elapsed(rt)?;
    println!(rt;
        "the last {free} scattered: {} ns (sum {sum})",
        scattered.as_nanos()
    )
}

/// Takes each free block, and adds up their numbers.
fn take_all(held: &mut Held) -> u64 {
    let mut sum: u64 = 0;
    for _ in 0..held.free_count() {
        if let Some(n) = held.take() {
            sum = sum.wrapping_add(u64::from(n));
        }
    }
    sum
}
