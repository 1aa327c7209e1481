//! The commands as lines.
use crate::commands::LINES;
use crate::memory_faults::{Wanting, Wrong};
use crate::sight::{expect, look};
use crate::stores::{new_store, reopen};
use std::alloc::Global;
use std::str;
use vm_cli::{Grouping, Manner, OnCommand, OnRefusal, serve};
use vm_disk::MemDisk;
use vm_store::Store;

/// The answer to a line that lacks memory.
const REFUSED: &[u8] = b"error 16 Memory\n";

/// More bytes than the answers to two of the lines have.
const ROOM: usize = 4096;

fn serve_lines(
    alloc: Global,
    store: &mut Store<MemDisk>,
    mut lines: &[u8],
) -> Result<Vec<u8>, Wrong> {
    let mut output = Vec::with_capacity(alloc, ROOM)?;
    let manner = Manner {
        on_command: OnCommand::CarryOut,
        on_refusal: OnRefusal::Ignore,
        grouping: Grouping::Lines,
    };
    match serve(alloc, &mut lines, &mut output, store, manner) {
        Ok(_) => Ok(output),
        Err(_) => Err(Wrong::Found("lines are not answered to their end")),
    }
}

/// Says a line, and `free` in the same session. If the first one lacks memory, the second is
/// answered, nothing has changed, and both are said once more.
fn say(
    alloc: Global,
    store: &mut Store<MemDisk>,
    line: &str,
    wanting: &mut Wanting,
) -> Result<Vec<u8>, Wrong> {
    let lines = format!(in alloc; "{line}\nfree\n")?;
    let before = look(alloc, store, wanting)?;
    let output = serve_lines(alloc, store, lines.as_bytes())?;
    if !output.starts_with(REFUSED) {
        return Ok(output);
    }
    wanting.note("line");
    let rest = output.strip_prefix(REFUSED).unwrap_or(b"".as_slice());
    if rest.is_empty() || !before.as_bytes().ends_with(rest) {
        return Err(Wrong::Found("the line behind a refused one is answered otherwise"));
    }
    expect(
        alloc,
        store,
        before.as_str(),
        "a refused line has changed the store",
    )?;
    serve_lines(alloc, store, lines.as_bytes())
}

fn say_all(
    alloc: Global,
    store: &mut Store<MemDisk>,
    wanting: &mut Wanting,
) -> Result<String, Wrong> {
    let mut text = String::from_str(alloc, "as lines:\n")?;
    for line in LINES {
        let output = say(alloc, store, line, wanting)?;
        match str::from_utf8(output.as_slice()) {
            Ok(answers) => text.push_str(answers)?,
            Err(_) => return Err(Wrong::Found("an answer is no text")),
        }
    }
    Ok(text)
}

pub(crate) fn carry_out(alloc: Global, wanting: &mut Wanting) -> Result<String, Wrong> {
    let mut store = new_store(alloc, wanting)?;
    let text = say_all(alloc, &mut store, wanting);
    let disk = store.close();
    reopen(alloc, disk, text?, wanting)
}
