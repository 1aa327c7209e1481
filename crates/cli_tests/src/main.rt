//! The program `cli_tests`: plays the scripts in the folder that it is started in.
//!
//! A script has cases, and a case has steps. Each step says what the program `altctl`, a session or
//! a file has to do and what it has to give. They are played over files in memory. It prints a line
//! for each case, and more if something else came, and then ends with an error.
#![tactic(auto)]

mod braces;
mod differences;
mod files;
mod pipes;
mod player;
mod script;
mod step;

use anyhow::{Context, Result, bail};
use std::fs;

/// How many cases were played, and how many of them gave something other than expected.
#[derive(Default, Drop)]
struct Tally {
    cases: u32,
    wrong: u32,
}

/// The names of the scripts, in order.
fn names(rt: &HostRuntime) -> Result<Vec<String>> {
    let alloc = rt.alloc();
    let mut names = Vec::new(alloc);
    for entry in fs::read_dir(rt, ".")? {
        let entry = entry?;
        let name = entry.file_name();
        if name.ends_with(".txt") {
            names.push(String::from_str(alloc, name)?)?;
        }
    }
    names.sort()?;
    Ok(names)
}

/// Plays the cases of a script.
fn play(rt: &HostRuntime, name: &str, tally: &mut Tally) -> Result<()> {
    let text = fs::read_to_string(rt, name)?;
    let cases = script::cases(rt.alloc(), text.as_str())?;
    println!(rt; "{name}: {} cases", cases.len())?;
    for case in cases {
        let title = case.title;
        let count = case.steps.len();
        let differences = player::play(rt.alloc(), case).context(title)?;
        println!(rt; "  {title}: {count}")?;
        print!(rt; "{differences}")?;
        tally.cases = tally.cases.saturating_add(1);
        tally.wrong = tally
            .wrong
            .saturating_add(u32::from(!differences.is_empty()));
    }
    Ok(())
}

fn main(rt: HostRuntime) -> Result<()> {
    let names = names(&rt)?;
    let mut tally = Tally::default();
    for name in &names {
        play(&rt, name.as_str(), &mut tally).context(name.as_str())?;
    }
    let Tally { cases, wrong } = tally;
    println!(rt; "{} files, {cases} cases, {wrong} wrong", names.len())?;
    if wrong > 0 {
        bail!("{wrong} cases are wrong");
    }
    Ok(())
}
