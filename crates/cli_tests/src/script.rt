//! A script: its lines and its cases.

use crate::step::Step;
use anyhow::{Context, Result, bail};
use std::alloc::Global;

/// A line, and the word that it begins with.
#[derive(Drop)]
pub struct Line<'a> {
    pub number: usize,
    pub mark: &'a str,
    /// What follows the mark and a space.
    pub rest: &'a str,
    pub whole: &'a str,
}

/// Steps over files, none of which exists yet, or sessions over a store.
#[derive(Drop)]
pub struct Case<'a> {
    pub title: &'a str,
    /// After how many calls the device of the store fails, once.
    pub store: Option<u32>,
    /// Each step has to give something other than what stands there, which shows that a difference
    /// is seen.
    pub differs: bool,
    pub steps: Vec<Step>,
}

impl Case<'_> {
    /// Takes a line. It begins a step or belongs to the last one.
    fn take(&mut self, alloc: Global, line: &Line<'_>) -> Result<()> {
        match self.steps.last_mut() {
            None if line.whole == "@ differs" => self.differs = true,
            None if line.mark == "@" => self.store = Some(device_calls(line.rest)?),
            None if line.mark == "$" => self.steps.push(Step::new(alloc, line, "")?)?,
            None => bail!("this line belongs to no step"),
            Some(last) if line.mark == "$" => {
                let step = Step::new(alloc, line, last.shown.as_str())?;
                self.steps.push(step)?;
            }
            Some(last) => last.take(alloc, line)?,
        }
        Ok(())
    }
}

/// After how many calls the device of a store fails. One that never does fails after more calls
/// than are made.
fn device_calls(text: &str) -> Result<u32> {
    if text == "store" {
        return Ok(1_000_000);
    }
    let Some(calls) = text.strip_prefix("store fails after ") else {
        bail!("{text:?} is no store");
    };
    Ok(calls.parse::<u32>()?)
}

/// The cases of a script.
pub(crate) fn cases<'a>(alloc: Global, script: &'a str) -> Result<Vec<Case<'a>>> {
    let mut cases = Vec::new(alloc);
    for (n, whole) in script.lines().enumerate() {
        let number = n.saturating_add(1);
        let (mark, rest) = whole.split_once(' ').unwrap_or((whole, ""));
        let line = Line {
            number,
            mark,
            rest,
            whole,
        };
        take(alloc, &mut cases, &line).context(format_args!("line {number}"))?;
    }
    Ok(cases)
}

/// Takes a line: an empty one, a note, the title of a case, or one that belongs to the last case.
fn take<'a>(alloc: Global, cases: &mut Vec<Case<'a>>, line: &Line<'a>) -> Result<()> {
    match cases.last_mut() {
        _ if line.whole.is_empty() || line.mark == "//" => {}
        _ if line.mark == "#" => cases.push(Case {
            title: line.rest,
            store: None,
            differs: false,
            steps: Vec::new(alloc),
        })?,
        Some(case) => case.take(alloc, line)?,
        None => bail!("this line belongs to no case"),
    }
    Ok(())
}
