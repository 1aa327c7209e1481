//! Measurements of the store. Without words it prints its usage; each word is a measurement.
//!
//! It stands on the crates that it measures, and promises nothing: times are looked at, never
//! tested.
#![tactic(auto)]

mod blocks;
mod free_blocks;
mod trees;

use std::rt::Env;
use std::{env, io};

const USES: &str = "bench take     takes of free blocks, in a row and scattered
bench blocks   a leaf written and read
bench trees    a million records put and got, with rising keys and with scattered ones";

/// The requested measurement, if there is one.
fn first_word<R: Env + AllocGlobal>(rt: &R) -> io::Result<Option<String>> {
    let words: Vec<String> = env::args(rt)?.collect(rt.alloc())?;
    Ok(words.into_iter().nth(1))
}

fn main(rt: HostRuntime) -> io::Result<()> {
    match first_word(&rt)? {
        Some(word) if word.as_str() == "take" => free_blocks::measure(&rt, rt.alloc()),
        Some(word) if word.as_str() == "blocks" => blocks::measure(&rt),
        Some(word) if word.as_str() == "trees" => trees::measure(&rt, rt.alloc()),
        _ => println!(rt; "{USES}"),
    }
}
