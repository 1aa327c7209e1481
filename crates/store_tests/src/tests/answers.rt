//! What an open store answers to a step of a script, as text.
use super::words::{command, version};
use std::alloc::Global;
use std::fmt;
use testkit::{Wrong, key, many_of, name, number, value};
use vm_disk::Disk;
use vm_store::{Stop, Store};
use vm_types::{Answer, Changes, Command, Key, Records, Refusal, Value, ValueRef};

/// A value, or none, as a script shows it: `~` for none, `''` for the empty one, `61*300` for this
/// many bytes of one kind.
#[derive(Clone, Copy)]
struct Shown(Option<Value>);

impl fmt::Display for Shown {
    fn fmt<W: fmt::Write>(&self, f: &mut fmt::Formatter<W>) -> fmt::Result {
        let Some(value) = &self.0 else {
            return f.write_str("~");
        };
        if value.as_bytes().is_empty() {
            return f.write_str("''");
        }
        if let Some(byte) = many_of(value.as_bytes()) {
            return write!(f, "{byte:02X}*{}", value.as_bytes().len());
        }
        for byte in value.as_bytes() {
            f.write_char(char::from(*byte))?;
        }
        Ok(())
    }
}

/// The value of these bytes, or none, to be shown.
fn value_of(bytes: Option<&[u8]>) -> Shown {
    Shown(bytes.and_then(Value::new))
}

/// The answer to a call: a text, or a refusal.
type Given = Result<Result<String, Refusal>, Wrong>;

pub(super) fn refusal_text(alloc: Global, refusal: Refusal) -> Result<String, Wrong> {
    Ok(format!(in alloc; "error {refusal}")?)
}

fn reply_text(alloc: Global, reply: Result<Answer, Refusal>) -> Result<String, Wrong> {
    match reply {
        Ok(Answer::Done) => Ok(String::from_str(alloc, "ok")?),
        Ok(Answer::Merged(count)) => Ok(format!(in alloc; "ok {count}")?),
        Err(refusal) => refusal_text(alloc, refusal),
    }
}

fn value_text(alloc: Global, found: Result<Option<Value>, Refusal>) -> Given {
    let found = match found {
        Ok(found) => found,
        Err(refusal) => return Ok(Err(refusal)),
    };
    let mut text = String::new(alloc);
    write!(text, "{}", Shown(found))?;
    Ok(Ok(text))
}

/// The same for the bytes in the block that has the value.
fn lent_text(alloc: Global, found: Result<Option<&[u8]>, Refusal>) -> Given {
    let found = match found {
        Ok(found) => found,
        Err(refusal) => return Ok(Err(refusal)),
    };
    let mut text = String::new(alloc);
    write!(text, "{}", value_of(found))?;
    Ok(Ok(text))
}

fn records_text(alloc: Global, list: Result<Records, Refusal>) -> Given {
    let list = match list {
        Ok(list) => list,
        Err(refusal) => return Ok(Err(refusal)),
    };
    let mut text = String::new(alloc);
    for (key, value) in &list {
        write!(text, " {key}={}", Shown(Value::new(value)))?;
    }
    Ok(Ok(text))
}

fn changes_text(alloc: Global, list: Result<Changes, Refusal>) -> Given {
    let list = match list {
        Ok(list) => list,
        Err(refusal) => return Ok(Err(refusal)),
    };
    let mut text = String::new(alloc);
    for (key, before, after) in &list {
        let (before, after) = (value_of(before), value_of(after));
        write!(text, " {key}={before}/{after}")?;
    }
    Ok(Ok(text))
}

fn conflicts<D: Disk>(alloc: Global, store: &mut Store<D>, alt: &str) -> Given {
    let list = match store.conflicts(alloc, &name(alt)?) {
        Ok(list) => list,
        Err(refusal) => return Ok(Err(refusal)),
    };
    let mut text = String::new(alloc);
    for (key, base, parent, mine) in &list {
        let (base, parent, mine) = (value_of(base), value_of(parent), value_of(mine));
        write!(text, " {key}={base}/{parent}/{mine}")?;
    }
    Ok(Ok(text))
}

fn tally<D: Disk>(alloc: Global, store: &mut Store<D>, alt: &str) -> Given {
    let tally = match store.tally(alloc, &name(alt)?) {
        Ok(tally) => tally,
        Err(refusal) => return Ok(Err(refusal)),
    };
    let (changed, unmerged, conflicts) = (tally.changed, tally.unmerged, tally.conflicts);
    let post = if tally.can_post { "yes" } else { "no" };
    Ok(Ok(format!(in alloc; "{changed} {unmerged} {conflicts} {post}")?))
}

fn alternatives<D: Disk>(alloc: Global, store: &Store<D>) -> Given {
    let list = match store.alternatives(alloc) {
        Ok(list) => list,
        Err(refusal) => return Ok(Err(refusal)),
    };
    let mut text = String::new(alloc);
    for (name, parent) in &list {
        write!(text, " {name}")?;
        if let Some(parent) = parent {
            write!(text, "<{parent}")?;
        }
    }
    Ok(Ok(text))
}

fn checkpoints<D: Disk>(alloc: Global, store: &Store<D>, alt: &str) -> Given {
    let list = match store.checkpoints(alloc, &name(alt)?) {
        Ok(list) => list,
        Err(refusal) => return Ok(Err(refusal)),
    };
    let mut text = String::new(alloc);
    for name in &list {
        write!(text, " {name}")?;
    }
    Ok(Ok(text))
}

fn free<D: Disk>(alloc: Global, store: &Store<D>) -> Given {
    match store.free() {
        Ok(count) => Ok(Ok(format!(in alloc; "{count}")?)),
        Err(refusal) => Ok(Err(refusal)),
    }
}

fn blocks<D: Disk>(alloc: Global, store: &Store<D>) -> Given {
    match store.blocks() {
        Ok(count) => Ok(Ok(format!(in alloc; "{count}")?)),
        Err(refusal) => Ok(Err(refusal)),
    }
}

fn query<D: Disk>(alloc: Global, store: &mut Store<D>, words: &[&str]) -> Given {
    match words {
        ["get", alt, at] => value_text(alloc, store.get(&name(alt)?, key(at)?)),
        ["get_at", it, at] => value_text(alloc, store.get_at(&version(it)?, key(at)?)),
        ["look", alt, at] => {
            let mut room = [0; 4096];
            lent_text(alloc, store.look(&name(alt)?, key(at)?, &mut room))
        }
        ["look_at", it, at] => {
            let mut room = [0; 4096];
            lent_text(alloc, store.look_at(&version(it)?, key(at)?, &mut room))
        }
        ["list", alt] => records_text(alloc, store.list(alloc, &name(alt)?)),
        ["list_at", it] => records_text(alloc, store.list_at(alloc, &version(it)?)),
        ["list_part", it, low, high] => {
            let list = store.list_part(alloc, &version(it)?, key(low)?, key(high)?);
            records_text(alloc, list)
        }
        ["list_from", it, low, count] => {
            let list = store.list_from(alloc, &version(it)?, key(low)?, number(count)?);
            records_text(alloc, list)
        }
        ["changes", alt] => changes_text(alloc, store.changes(alloc, &name(alt)?)),
        ["diff", first, second] => {
            let list = store.diff(alloc, &version(first)?, &version(second)?);
            changes_text(alloc, list)
        }
        ["diff_part", first, second, low, high] => {
            let (low, high) = (key(low)?, key(high)?);
            let list = store.diff_part(alloc, &version(first)?, &version(second)?, low, high);
            changes_text(alloc, list)
        }
        ["conflicts", alt] => conflicts(alloc, store, alt),
        ["tally", alt] => tally(alloc, store, alt),
        ["alts"] => alternatives(alloc, store),
        ["checks", alt] => checkpoints(alloc, store, alt),
        ["free"] => free(alloc, store),
        ["blocks"] => blocks(alloc, store),
        _ => Err(Wrong::Unreadable),
    }
}

/// Puts a value into `count` records, from this one on, and returns the first answer that is not
/// `ok`.
fn put_all<D: Disk>(
    store: &mut Store<D>,
    alt: &str,
    from: Key,
    count: u32,
    given: &str,
) -> Result<Result<Answer, Refusal>, Wrong> {
    let (alt, given) = (name(alt)?, value(given)?);
    for n in 0..u64::from(count) {
        let key = Key {
            table: from.table,
            number: from.number.saturating_add(n),
        };
        let value = ValueRef::from(&given);
        let reply = store.apply(&Command::Put { alt, key, value });
        if reply != Ok(Answer::Done) {
            return Ok(reply);
        }
    }
    Ok(Ok(Answer::Done))
}

/// Names the state of an alternative `count` times, from `k001` on. If a value is given, puts it
/// into a record before each of these.
fn check_all<D: Disk>(
    alloc: Global,
    store: &mut Store<D>,
    alt: &str,
    count: u32,
    before: Option<(Key, Value)>,
) -> Result<Result<Answer, Refusal>, Wrong> {
    let alt = name(alt)?;
    for n in 0..count {
        let mut reply = Ok(Answer::Done);
        if let Some((key, value)) = &before {
            let (key, value) = (*key, ValueRef::from(value));
            reply = store.apply(&Command::Put { alt, key, value });
        }
        let saved = format!(in alloc; "k{:03}", n + 1)?;
        let name = name(&saved)?;
        reply = reply.and(store.apply(&Command::Checkpoint { alt, name }));
        if reply != Ok(Answer::Done) {
            return Ok(reply);
        }
    }
    Ok(Ok(Answer::Done))
}

/// Carries out a list of commands, with `;` between two. After the answers comes how the list
/// ended.
fn run<D: Disk>(alloc: Global, store: &mut Store<D>, words: &[&str]) -> Result<String, Wrong> {
    let mut lent = Vec::from_elem(alloc, Value::default(), words.len())?;
    let mut commands = Vec::new(alloc);
    let parts = words.split(|word| *word == ";");
    for (part, lent) in parts.zip(&mut lent) {
        if !part.is_empty() {
            let command = command(alloc, part, lent)?.ok_or(Wrong::Unreadable)?;
            if commands.push(command).is_err() {
                return Err(Wrong::Memory);
            }
        }
    }
    let (replies, stop) = store.run(alloc, &commands);
    let mut text = String::new(alloc);
    for reply in &replies {
        write!(text, "{} ; ", reply_text(alloc, *reply)?)?;
    }
    text.push_str(match stop {
        None => "end",
        Some(Stop::Device) => "Device",
        Some(Stop::Memory) => "Memory",
        Some(Stop::Failed) => "Failed",
    })?;
    Ok(text)
}

/// What the store answers to a step.
pub(super) fn answer<D: Disk>(
    alloc: Global,
    store: &mut Store<D>,
    words: &[&str],
) -> Result<String, Wrong> {
    match words {
        ["puts", alt, from, count, given] => {
            let reply = put_all(store, alt, key(from)?, number(count)?, given)?;
            return reply_text(alloc, reply);
        }
        ["checkpoints", alt, count] => {
            let reply = check_all(alloc, store, alt, number(count)?, None)?;
            return reply_text(alloc, reply);
        }
        ["kept", alt, at, given, count] => {
            let before = Some((key(at)?, value(given)?));
            let reply = check_all(alloc, store, alt, number(count)?, before)?;
            return reply_text(alloc, reply);
        }
        ["run", list @ ..] => return run(alloc, store, list),
        _ => {}
    }
    let mut lent = Value::default();
    if let Some(command) = command(alloc, words, &mut lent)? {
        return reply_text(alloc, store.apply(&command));
    }
    match query(alloc, store, words)? {
        Ok(text) => Ok(text),
        Err(refusal) => refusal_text(alloc, refusal),
    }
}
