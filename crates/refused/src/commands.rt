//! The list of commands, and the same list as lines.
use crate::memory_faults::Wrong;
use crate::stores::GROWN;
use std::alloc::Global;
use vm_types::{Answer, Command, Key, Name, Refusal, Settled, ValueRef};

/// The answer to a command.
pub type Reply = Result<Answer, Refusal>;

/// How many commands there are.
pub const COMMANDS: usize = 14;

/// Which of them is the merge, counted from 0.
pub const MERGE: usize = 6;

/// Which of them grows the store.
pub const GROW: usize = 9;

/// The commands as lines, and the queries after them.
pub const LINES: [&str; COMMANDS + 5] = [
    "put top 1 1 a",
    "new x top",
    "put x 1 1 b",
    "checkpoint x c",
    "commit",
    "put top 1 2 d",
    "merge x",
    "post x",
    "uncheck x c",
    "grow 80",
    "commit",
    "put top 1 3 e",
    "remove top 1 1",
    "commit",
    "list x",
    "changes x",
    "conflicts x",
    "alts",
    "checks x",
];

fn top() -> Name {
    let Some(name) = Name::new(b"top") else {
        unreachable!();
    };
    name
}

/// A name, or `top` if the bytes are not one.
fn name(bytes: &[u8]) -> Name {
    Name::new(bytes).unwrap_or(top())
}

fn key(number: u64) -> Key {
    Key { table: 1, number }
}

fn put(alt: Name, number: u64, bytes: &[u8]) -> Command<'_> {
    Command::Put {
        alt,
        key: key(number),
        value: ValueRef::new(bytes).unwrap_or_default(),
    }
}

/// The command of this number, from 0. Takes no memory.
pub(crate) fn command(alloc: Global, n: usize) -> Command<'static> {
    let (x, c) = (name(b"x"), name(b"c"));
    match n {
        0 => put(top(), 1, b"a"),
        1 => Command::New {
            name: x,
            parent: top(),
        },
        2 => put(x, 1, b"b"),
        3 => Command::Checkpoint { alt: x, name: c },
        5 => put(top(), 2, b"d"),
        MERGE => Command::Merge {
            alt: x,
            settled: Settled::from_vec(Vec::new(alloc)),
        },
        7 => Command::Post { alt: x },
        8 => Command::Uncheck { alt: x, name: c },
        GROW => Command::Grow { blocks: GROWN },
        11 => put(top(), 3, b"e"),
        12 => Command::Remove {
            alt: top(),
            key: key(1),
        },
        _ => Command::Commit,
    }
}

/// All of them, or all but one.
pub(crate) fn commands(
    alloc: Global,
    without: Option<usize>,
) -> Result<Vec<Command<'static>>, Wrong> {
    let mut commands = Vec::new(alloc);
    for n in 0..COMMANDS {
        if without != Some(n) {
            if commands.push(command(alloc, n)).is_err() {
                return Err(Wrong::Again);
            }
        }
    }
    Ok(commands)
}

/// Writes an answer in one or two words.
pub(crate) fn write_reply(text: &mut String, reply: Reply) -> Result<(), Wrong> {
    match reply {
        Ok(Answer::Done) => text.push_str("ok\n")?,
        Ok(Answer::Merged(count)) => writeln!(text, "ok {count}")?,
        Err(refusal) => writeln!(text, "error {refusal}")?,
    }
    Ok(())
}
