//! What a store shows, as text.
use crate::memory_faults::{Wanting, Wrong};
use std::alloc::{AllocError, Global};
use std::str;
use vm_disk::MemDisk;
use vm_store::Store;
use vm_types::{Name, Refusal};

/// Why nothing is shown.
#[derive(Clone, Copy)]
enum Blind {
    /// A query was refused for lack of memory.
    Wanting(&'static str),
    /// Another reason.
    Other(Wrong),
}

impl From<AllocError> for Blind {
    fn from(_: AllocError) -> Blind {
        Blind::Other(Wrong::Again)
    }
}

/// What a query gives. It may only lack memory.
fn given<T>(query: &'static str, answer: Result<T, Refusal>) -> Result<T, Blind> {
    match answer {
        Ok(value) => Ok(value),
        Err(Refusal::Memory) => Err(Blind::Wanting(query)),
        Err(_) => Err(Blind::Other(Wrong::Found(query))),
    }
}

/// The bytes of a value as text.
fn shown(value: &[u8]) -> &str {
    str::from_utf8(value).unwrap_or("?")
}

/// A value as text, `~` for none.
fn text_of(value: Option<&[u8]>) -> &str {
    match value {
        Some(value) => shown(value),
        None => "~",
    }
}

/// Writes the records of an alternative, its changes, and its checkpoints.
fn write_maps(
    alloc: Global,
    store: &mut Store<MemDisk>,
    alt: &Name,
    text: &mut String,
) -> Result<(), Blind> {
    for (key, value) in &given("list", store.list(alloc, alt))? {
        writeln!(text, "{alt}: record {key} {}", shown(value))?;
    }
    for (key, before, after) in &given("changes", store.changes(alloc, alt))? {
        let (before, after) = (text_of(before), text_of(after));
        writeln!(text, "{alt}: change {key} {before} {after}")?;
    }
    for name in &given("checkpoints", store.checkpoints(alloc, alt))? {
        writeln!(text, "{alt}: checkpoint {name}")?;
    }
    Ok(())
}

/// Writes an alternative's conflicts with its parent.
fn write_conflicts(
    alloc: Global,
    store: &mut Store<MemDisk>,
    alt: &Name,
    text: &mut String,
) -> Result<(), Blind> {
    for (key, base, parent, mine) in &given("conflicts", store.conflicts(alloc, alt))? {
        let (base, parent, mine) = (text_of(base), text_of(parent), text_of(mine));
        writeln!(text, "{alt}: conflict {key} {base} {parent} {mine}")?;
    }
    Ok(())
}

fn see(alloc: Global, store: &mut Store<MemDisk>) -> Result<String, Blind> {
    let mut text = String::new(alloc);
    for (alt, parent) in &given("alternatives", store.alternatives(alloc))? {
        match parent {
            Some(parent) => writeln!(text, "alternative {alt} {parent}")?,
            None => writeln!(text, "alternative {alt} ~")?,
        }
        write_maps(alloc, store, alt, &mut text)?;
        if parent.is_some() {
            write_conflicts(alloc, store, alt, &mut text)?;
        }
    }
    let (Ok(blocks), Ok(free)) = (store.blocks(), store.free()) else {
        return Err(Blind::Other(Wrong::Found("blocks or free")));
    };
    writeln!(text, "blocks {blocks}\nfree {free}")?;
    Ok(text)
}

/// Everything that a store shows: alternatives, records, changes, conflicts, checkpoints, how many
/// blocks it has, and how many are free. If a query is refused for lack of memory, everything is
/// asked once more.
pub(crate) fn look(
    alloc: Global,
    store: &mut Store<MemDisk>,
    wanting: &mut Wanting,
) -> Result<String, Wrong> {
    let seen = match see(alloc, store) {
        Err(Blind::Wanting(query)) => {
            wanting.note(query);
            see(alloc, store)
        }
        seen => seen,
    };
    match seen {
        Ok(text) => Ok(text),
        Err(Blind::Wanting(query)) => Err(Wrong::Found(query)),
        Err(Blind::Other(wrong)) => Err(wrong),
    }
}

/// Checks whether the store shows this.
pub(crate) fn expect(
    alloc: Global,
    store: &mut Store<MemDisk>,
    before: &str,
    found: &'static str,
) -> Result<(), Wrong> {
    match see(alloc, store) {
        Ok(text) if text.as_str() == before => Ok(()),
        _ => Err(Wrong::Found(found)),
    }
}
