//! Held blocks and marks, with one word of flags and with more.
//!
//! | Step | Answer |
//! |---|---|
//! | `new 130` | `ok`: a store of this many blocks, no mark and an empty baseline |
//! | `new marks 66` | `ok`: no mark, in as many blocks |
//! | `take` | `34`: the lowest free block is held; `none` if there is no free one |
//! | `take 34 64` | `ok`: all blocks from 34 to 63 are taken one by one |
//! | `longer 71`, `back` | `ok`: the held blocks are extended to this many; they are as before that |
//! | `mark 35 48`, `unmark 35`, `clear` | `ok` |
//! | `longer marks 130` | `ok`: the marks are extended to this many blocks |
//! | `hold` | `ok`: exactly what is marked is held |
//! | `note`, `keep` | `ok`: the baseline is of what is held; it is only of what is still held |
//! | `free` | `30`: how many blocks are free |
//! | `blocks` | `130 66 130`: how many blocks there are, held or free, marked or not, and of the baseline |
//! | `held 33 34`, `marked 33 34`, `noted 33 34` | `yes no`: which of these are held, marked, or of the baseline |
use std::alloc::Global;
use std::mem;
use std::test::Fail;
use testkit::{Playable, Wrong, number, plays};
use vm_alloc::{Baseline, Held, Marks};

/// What the rows are played on.
#[derive(Drop)]
struct Bench {
    held: Held,
    /// The blocks that were held when they were extended last.
    shorter: Held,
    marks: Marks,
    baseline: Baseline,
}

impl Bench {
    fn new(alloc: Global, blocks: u32) -> Result<Bench, Wrong> {
        if blocks < 64 || blocks > 67_108_864 {
            return Err(Wrong::Unreadable);
        }
        Ok(Bench {
            held: Held::new(alloc, blocks)?,
            shorter: Held::new(alloc, 64)?,
            marks: Marks::new(alloc, blocks)?,
            baseline: Baseline::new(alloc, blocks)?,
        })
    }
}

/// Takes the blocks from `first` up to `end`, each of which must be the lowest free one.
fn take_all(held: &mut Held, first: u32, end: u32) -> Result<(), Wrong> {
    for n in first..end {
        if held.take() != Some(n) {
            return Err(Wrong::Differs(n));
        }
    }
    Ok(())
}

/// Extends the held blocks to this many.
fn extend(alloc: Global, bench: &mut Bench, blocks: u32) -> Result<(), Wrong> {
    if blocks < bench.held.blocks() || blocks > 67_108_864 {
        return Err(Wrong::Unreadable);
    }
    let longer = bench.held.extended(alloc, blocks)?;
    bench.shorter = mem::replace(&mut bench.held, longer);
    Ok(())
}

/// Marks of a store of this many blocks.
fn marks_of(alloc: Global, blocks: u32) -> Result<Marks, Wrong> {
    if blocks < 64 || blocks > 67_108_864 {
        return Err(Wrong::Unreadable);
    }
    Ok(Marks::new(alloc, blocks)?)
}

/// The same marks, extended to this many blocks.
fn extended(alloc: Global, marks: &Marks, blocks: u32) -> Result<Marks, Wrong> {
    if blocks < marks.blocks() || blocks > 67_108_864 {
        return Err(Wrong::Unreadable);
    }
    Ok(marks.extended(alloc, blocks)?)
}

/// Marks these blocks, or takes their marks away.
fn set_marks(marks: &mut Marks, blocks: &[&str], is_set: bool) -> Result<(), Wrong> {
    for word in blocks {
        let n = number(word)?;
        if n >= marks.blocks() {
            return Err(Wrong::Unreadable);
        }
        if is_set {
            marks.set(n);
        } else {
            marks.unset(n);
        }
    }
    Ok(())
}

/// Holds what is marked.
fn hold(held: &mut Held, marks: &Marks) -> Result<(), Wrong> {
    if marks.blocks() != held.blocks() {
        return Err(Wrong::Unreadable);
    }
    held.replace(marks);
    Ok(())
}

/// The baseline is of what is held, or only of what is still held.
fn note(baseline: &mut Baseline, held: &Held, is_new: bool) -> Result<(), Wrong> {
    if baseline.blocks() != held.blocks() {
        return Err(Wrong::Unreadable);
    }
    if is_new {
        baseline.take(held);
    } else {
        baseline.keep_held(held);
    }
    Ok(())
}

/// Carries out a step that changes something. Tells whether these words are one.
fn change(alloc: Global, bench: &mut Bench, words: &[&str]) -> Result<bool, Wrong> {
    match words {
        ["new", blocks] => *bench = Bench::new(alloc, number(blocks)?)?,
        ["new", "marks", blocks] => bench.marks = marks_of(alloc, number(blocks)?)?,
        ["take", first, end] => take_all(&mut bench.held, number(first)?, number(end)?)?,
        ["longer", blocks] => extend(alloc, bench, number(blocks)?)?,
        ["longer", "marks", blocks] => {
            bench.marks = extended(alloc, &bench.marks, number(blocks)?)?;
        }
        ["back"] => mem::swap(&mut bench.held, &mut bench.shorter),
        ["mark", blocks @ ..] => set_marks(&mut bench.marks, blocks, true)?,
        ["unmark", blocks @ ..] => set_marks(&mut bench.marks, blocks, false)?,
        ["clear"] => bench.marks.clear(),
        ["hold"] => hold(&mut bench.held, &bench.marks)?,
        ["note"] => note(&mut bench.baseline, &bench.held, true)?,
        ["keep"] => note(&mut bench.baseline, &bench.held, false)?,
        _ => return Ok(false),
    }
    Ok(true)
}

/// Whether a block is held, or marked, or one of the baseline.
fn is_so(bench: &Bench, what: &str, n: u32) -> Option<bool> {
    match what {
        "held" if n < bench.held.blocks() => Some(bench.held.is_held(n)),
        "marked" if n < bench.marks.blocks() => Some(bench.marks.is_set(n)),
        "noted" if n < bench.baseline.blocks() => Some(bench.baseline.has(n)),
        _ => None,
    }
}

/// The answer to a step that asks for something.
fn asked(bench: &mut Bench, words: &[&str], text: &mut String) -> Result<(), Wrong> {
    match words {
        ["take"] => match bench.held.take() {
            Some(n) => write!(text, "{n}")?,
            None => {}
        },
        ["free"] => write!(text, "{}", bench.held.free_count())?,
        ["blocks"] => {
            let (marks, baseline) = (bench.marks.blocks(), bench.baseline.blocks());
            write!(text, "{} {marks} {baseline}", bench.held.blocks())?;
        }
        [what, blocks @ ..] => {
            for word in blocks {
                let is_so = is_so(bench, what, number(word)?).ok_or(Wrong::Unreadable)?;
                text.push_str(if is_so { " yes" } else { " no" })?;
            }
        }
        [] => return Err(Wrong::Unreadable),
    }
    Ok(())
}

impl Playable for Bench {
    fn play(mut self, alloc: Global, words: &[&str]) -> Result<(Bench, String), Wrong> {
        let mut text = String::new(alloc);
        if change(alloc, &mut self, words)? {
            text.push_str("ok")?;
        } else {
            asked(&mut self, words, &mut text)?;
        }
        Ok((self, text))
    }

    fn end(self) {}
}

/// A name and steps.
const ROWS: [(&str, &str); 7] = [
    (
        "every block of one word is taken, and past it",
        "
        new 64
        blocks -> 64 64 64
        free -> 30
        take 34 64
        take -> none
        free -> 0
        new 65
        blocks -> 65 65 65
        free -> 31
        take 34 65
        take -> none
        free -> 0",
    ),
    // A mark of one of the store's own blocks changes nothing, nor does a second mark.
    (
        "what is marked is held",
        "
        new 130
        take -> 34
        take -> 35
        mark 7 35 48 48 129
        hold
        free -> 93
        held 33 129 128 -> yes yes no
        take -> 34
        take -> 36
        free -> 91",
    ),
    // A second time changes nothing.
    (
        "a mark is taken away, and marks are copied with more blocks",
        "
        new 130
        new marks 66
        mark 34 35 65
        unmark 35
        unmark 35
        blocks -> 130 66 130
        longer marks 130
        mark 129
        hold
        free -> 93
        held 34 35 65 129 -> yes no yes yes",
    ),
    (
        "the most blocks are held",
        "
        new 67108864
        free -> 67108830
        take -> 34
        blocks -> 67108864 67108864 67108864
        held 67108863 -> no",
    ),
    // The blocks that were extended are as they were.
    (
        "held blocks are extended within a word and past it",
        "
        new 70
        take -> 34
        take -> 35
        longer 70
        blocks -> 70 70 70
        free -> 34
        held 35 36 69 -> yes no no
        take -> 36
        back
        longer 71
        blocks -> 71 70 70
        free -> 35
        held 35 36 70 -> yes no no
        take -> 36
        back
        longer 128
        blocks -> 128 70 70
        free -> 92
        held 35 36 127 -> yes no no
        take -> 36
        back
        longer 129
        blocks -> 129 70 70
        free -> 93
        held 35 36 128 -> yes no no
        take -> 36
        back
        longer 1000
        blocks -> 1000 70 70
        free -> 964
        held 35 36 999 -> yes no no
        take -> 36
        back
        blocks -> 70 70 70
        free -> 34
        take 36 70
        take -> none
        free -> 0
        # All are held.
        new 64
        take 34 64
        take -> none
        longer 66
        take -> 64
        take -> 65
        take -> none
        free -> 0",
    ),
    (
        "marks are set and cleared",
        "
        new 65
        blocks -> 65 65 65
        mark 33 64 64
        marked 33 64 63 -> yes yes no
        clear
        marked 33 64 -> no no",
    ),
    (
        "a baseline keeps what is still held",
        "
        new 130
        mark 34 40 129
        hold
        blocks -> 130 130 130
        noted 0 -> no
        keep
        noted 40 -> no
        note
        noted 33 129 35 -> yes yes no
        # Block 40 is let go, and 35 is also held.
        clear
        mark 34 35 129
        hold
        keep
        noted 34 129 35 40 -> yes yes no no",
    ),
];

#[test]
fn blocks_are_taken_held_and_marked(rt: HostRuntime) -> Result<(), Fail> {
    for (name, steps) in &ROWS {
        let bench = Bench::new(rt.alloc(), 64)?;
        match plays(rt.alloc(), bench, steps) {
            Ok(_) => {}
            Err(mismatch) => panic!(&rt; "{name}, {mismatch}"),
        }
    }
    Ok(())
}
