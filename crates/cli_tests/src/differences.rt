//! Differences between what a step gave and what was expected.

use crate::step::{Due, Step};
use anyhow::Result;
use std::fmt::Write;
use std::str;

/// Appends the differences of a step.
pub(crate) fn push_differences(step: &Step, text: &mut String) -> Result<()> {
    let before = text.len();
    let due = &step.due;
    let output = str::from_utf8(step.output.taken.as_slice())?;
    let errors = str::from_utf8(step.errors.taken.as_slice())?;
    compare("status", due.end.as_str(), step.end.as_str(), text)?;
    if !due.any_errors || !due.errors.is_empty() {
        compare("errors", due.errors.as_str(), errors, text)?;
    } else if errors.is_empty() {
        text.push_str("    errors: some wanted, none given\n")?;
    }
    if due.start.is_empty() && due.parts.is_empty() {
        compare("output", due.output.as_str(), output, text)?;
    } else if !due.output.is_empty() {
        text.push_str("    output: wanted whole and in parts\n")?;
    }
    look_for(due, output, text)?;
    if text.len() > before {
        let words = &step.words;
        writeln!(text, "    by the step of line {}: {words:?}", step.number)?;
    }
    Ok(())
}

/// Appends the first line in which one text differs from the other.
fn compare(what: &str, wanted: &str, given: &str, text: &mut String) -> Result<()> {
    if wanted == given {
        return Ok(());
    }
    let mut given_lines = given.lines();
    for (n, line) in wanted.lines().enumerate() {
        let came = given_lines.next();
        if came != Some(line) {
            writeln!(
                text,
                "    {what} behind {n} lines: wanted {line:?}, given {came:?}"
            )?;
            return Ok(());
        }
    }
    let more = given_lines.next();
    writeln!(
        text,
        "    {what}: no more wanted, given {more:?}, or a line feed"
    )?;
    Ok(())
}

/// Appends what is wrong with an output of which only this is known.
fn look_for(due: &Due, output: &str, text: &mut String) -> Result<()> {
    let start = due.start.as_str();
    if !output.starts_with(start) {
        writeln!(
            text,
            "    output: wanted at its start {start:?}, given {output:?}"
        )?;
    }
    for part in &due.parts {
        let part = part.as_str();
        if output.is_empty() || !output.contains(part) {
            writeln!(text, "    output: wanted in it {part:?}, given {output:?}")?;
        }
    }
    let mut lines = 0usize;
    for line in output.lines() {
        lines = lines.saturating_add(1);
        if line.len() > due.columns {
            writeln!(
                text,
                "    output: wanted up to {} bytes, given {line:?}",
                due.columns
            )?;
        }
    }
    if let Some(due) = due.lines
        && due != lines
    {
        writeln!(text, "    output: wanted {due} lines, given {lines}")?;
    }
    Ok(())
}
