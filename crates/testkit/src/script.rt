//! Texts of steps, each with its answer, and what they are played on.
//!
//! A line is a step, and after ` -> ` comes its answer, which is `ok` if the line gives none. An
//! answer without words is `none`. A line that begins with `#` is a comment.
use crate::words::{byte, number};
use crate::wrong::Wrong;
use std::alloc::Global;
use std::fmt;
use vm_types::Block;

/// What steps are played on.
pub trait Playable: Sized {
    /// Carries out a step. Returns what the next one is played on, and the answer.
    fn play(self, alloc: Global, words: &[&str]) -> Result<(Self, String), Wrong>;

    /// Ends what steps are played on.
    fn end(self);
}

/// A step that has another answer than the text gives, or none.
#[derive(Drop)]
pub struct Mismatch<'a> {
    /// The number of its line, counted from 0.
    pub line: usize,
    pub step: &'a str,
    pub due: &'a str,
    pub given: Result<String, Wrong>,
}

impl fmt::Display for Mismatch<'_> {
    fn fmt<W: fmt::Write>(&self, f: &mut fmt::Formatter<W>) -> fmt::Result {
        let (line, step, due) = (self.line, self.step, self.due);
        match &self.given {
            Ok(given) => write!(f, "line {line}: {step}: given {given}, due {due}"),
            Err(wrong) => write!(f, "line {line}: {step}: {wrong:?}, due {due}"),
        }
    }
}

/// Plays the lines of a text up to the first whose answer is another one.
pub fn plays<P: Playable>(alloc: Global, mut bench: P, text: &str) -> Result<P, Mismatch<'_>> {
    for (n, line) in text.lines().enumerate() {
        let line = line.trim();
        if line.is_empty() || line.starts_with('#') {
            continue;
        }
        let (step, due) = line.split_once(" -> ").unwrap_or((line, "ok"));
        let mismatch = |given| Mismatch {
            line: n,
            step,
            due,
            given,
        };
        let Ok(words) = step.split_whitespace().collect::<Vec<&str>>(alloc) else {
            bench.end();
            return Err(mismatch(Err(Wrong::Memory)));
        };
        match bench.play(alloc, &words) {
            Ok((next, given)) => {
                if !is_due(&given, due) {
                    next.end();
                    return Err(mismatch(Ok(given)));
                }
                bench = next;
            }
            Err(wrong) => return Err(mismatch(Err(wrong))),
        }
    }
    Ok(bench)
}

/// Whether an answer is the one that the text gives.
fn is_due(given: &str, due: &str) -> bool {
    let given = given.trim();
    let given = if given.is_empty() { "none" } else { given };
    given == due.trim()
}

/// What a crash leaves in blocks that are not synced: `all=41` fills each of these with this byte,
/// and `35=FF` one of them.
pub fn filling(alloc: Global, blocks: u32, words: &[&str]) -> Result<Vec<(u32, Block)>, Wrong> {
    let mut filling = Vec::new(alloc);
    for word in words {
        let (place, fill) = word.split_once('=').ok_or(Wrong::Unreadable)?;
        let fill = byte(fill)?;
        if place == "all" {
            for n in 0..blocks {
                filling.push((n, [fill; 4096]))?;
            }
        } else {
            filling.push((number(place)?, [fill; 4096]))?;
        }
    }
    Ok(filling)
}
