//! A step: its words, what it reads, and what it has to give.

use crate::braces::{expand, words};
use crate::pipes::Output;
use crate::script::Line;
use anyhow::{Result, bail};
use std::alloc::Global;

/// What a step has to give.
#[derive(Drop)]
pub struct Due {
    /// Its status, or how its session ends.
    pub end: String,
    pub output: String,
    pub errors: String,
    /// Any errors will do, but there must be some.
    pub any_errors: bool,
    /// What the output begins with, and what it contains. If this is given, the whole output is not
    /// known.
    pub start: String,
    pub parts: Vec<String>,
    /// How many lines the output has.
    pub lines: Option<usize>,
    /// The maximum length in bytes of a line of the output.
    pub columns: usize,
}

/// A step, and what it gave.
#[derive(Drop)]
pub struct Step {
    pub number: usize,
    pub words: Vec<String>,
    pub input: String,
    pub input_fails: bool,
    pub due: Due,
    pub end: String,
    pub output: Output,
    pub errors: Output,
    /// Its input and output as the script has them, with two spaces before each line.
    pub shown: String,
    /// Those of the step before.
    session: String,
}

impl Step {
    /// A step of the words of this line, after a step that is shown so.
    pub(crate) fn new(alloc: Global, line: &Line<'_>, session: &str) -> Result<Step> {
        Ok(Step {
            number: line.number,
            words: words(alloc, line.rest)?,
            input: String::new(alloc),
            input_fails: false,
            due: Due {
                end: String::from_str(alloc, "0")?,
                output: String::new(alloc),
                errors: String::new(alloc),
                any_errors: false,
                start: String::new(alloc),
                parts: Vec::new(alloc),
                lines: None,
                columns: usize::MAX,
            },
            end: String::new(alloc),
            output: Output::new(alloc),
            errors: Output::new(alloc),
            shown: String::new(alloc),
            session: String::from_str(alloc, session)?,
        })
    }

    /// Takes a line of the script. One without a mark is a line of the output.
    pub(crate) fn take(&mut self, alloc: Global, line: &Line<'_>) -> Result<()> {
        match line.mark {
            "?" => self.due.end = String::from_str(alloc, line.rest)?,
            "@" => self.set(line.rest)?,
            "!" if line.rest == ".." => self.due.any_errors = true,
            "!" => push_line(&mut self.due.errors, line.rest)?,
            "^" => expand(&mut self.due.start, line.rest, "")?,
            "~" if line.rest == ".." => self.due.parts.push(String::new(alloc))?,
            "~" => {
                let mut part = String::new(alloc);
                expand(&mut part, line.rest, self.session.as_str())?;
                self.due.parts.push(part)?;
            }
            ">" => {
                push_shown(&mut self.shown, line.whole)?;
                push_line(&mut self.input, line.rest)?;
            }
            _ => {
                push_shown(&mut self.shown, line.whole)?;
                push_line(&mut self.due.output, line.whole)?;
            }
        }
        Ok(())
    }

    /// Sets how the input or an output fails, or what is counted in the output.
    fn set(&mut self, rest: &str) -> Result<()> {
        let Some((what, number)) = rest.rsplit_once(' ') else {
            bail!("{rest:?} sets nothing");
        };
        let number = number.parse::<usize>()?;
        match what {
            "input fails after" if number == self.input.len() => self.input_fails = true,
            "output takes" => self.output.room = Some(number),
            "output flushes" => self.output.flushes = Some(number),
            "errors flushes" => self.errors.flushes = Some(number),
            "lines" => self.due.lines = Some(number),
            "columns" => self.due.columns = number,
            "bytes" if number == last_line_len(self.due.output.as_str()) => {}
            _ => bail!("{rest:?} sets nothing, or is not so"),
        }
        Ok(())
    }
}

/// Appends a line as it is in the script.
fn push_shown(shown: &mut String, line: &str) -> Result<()> {
    shown.push_str("  ")?;
    shown.push_str(line)?;
    shown.push('\n')?;
    Ok(())
}

/// Appends the line that a text means, without a line feed if the text says that it has none.
fn push_line(lines: &mut String, text: &str) -> Result<()> {
    match text.strip_suffix("{end}") {
        Some(text) => expand(lines, text, ""),
        None => {
            expand(lines, text, "")?;
            lines.push('\n')?;
            Ok(())
        }
    }
}

/// The length in bytes of the last line, with its line feed.
fn last_line_len(text: &str) -> usize {
    match text.lines().last() {
        Some(line) => line.len().saturating_add(1),
        None => 0,
    }
}
