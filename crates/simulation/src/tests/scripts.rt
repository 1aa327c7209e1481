//! Fixed lists of commands, all of which are accepted.
use super::cast::{alternative, checkpoint, key};
use std::alloc::Global;
use testkit::{Reply, top};
use vm_types::{Answer, Command, Name, Settled, ValueRef};

/// A list of commands. The last one is a Commit.
#[derive(Clone, Copy, Debug, PartialEq, Eq)]
pub enum Script {
    /// Each kind of command except Merge and Post.
    Versions,
    /// An alternative is merged and posted, and the first one is changed after that.
    Posting,
}

fn put(alt: Name, n: u32, bytes: &[u8]) -> Command<'_> {
    Command::Put {
        alt,
        key: key(n),
        value: ValueRef::new(bytes).unwrap_or_default(),
    }
}

fn versions(n: u32) -> Command<'static> {
    let (ring, spur, dawn) = (alternative(1), alternative(2), checkpoint(0));
    match n {
        0 => put(top(), 0, b"duct"),
        1 => Command::New {
            name: ring,
            parent: top(),
        },
        2 => put(ring, 1, b"pipe"),
        3 => Command::Checkpoint {
            alt: ring,
            name: dawn,
        },
        5 => Command::Remove {
            alt: ring,
            key: key(0),
        },
        6 => put(top(), 1, b"pipe"),
        7 => Command::Back {
            alt: ring,
            name: dawn,
        },
        8 => Command::New {
            name: spur,
            parent: ring,
        },
        10 => Command::Uncheck {
            alt: ring,
            name: dawn,
        },
        11 => Command::Drop { alt: spur },
        12 => Command::Reclaim,
        13 => put(ring, 2, b"tube"),
        14 => Command::Remove {
            alt: top(),
            key: key(1),
        },
        15 => Command::Remove {
            alt: top(),
            key: key(0),
        },
        _ => Command::Commit,
    }
}

fn posting(alloc: Global, n: u32) -> Command<'static> {
    let (ring, dawn) = (alternative(1), checkpoint(0));
    match n {
        0 => put(top(), 1, b"a"),
        1 => Command::New {
            name: ring,
            parent: top(),
        },
        2 => put(ring, 1, b"b"),
        3 => Command::Checkpoint {
            alt: ring,
            name: dawn,
        },
        5 => put(top(), 2, b"d"),
        6 => Command::Merge {
            alt: ring,
            settled: Settled::from_vec(Vec::new(alloc)),
        },
        7 => Command::Post { alt: ring },
        8 => Command::Uncheck {
            alt: ring,
            name: dawn,
        },
        10 => put(top(), 3, b"e"),
        11 => Command::Remove {
            alt: top(),
            key: key(1),
        },
        _ => Command::Commit,
    }
}

impl Script {
    /// How many commands it has.
    pub(super) fn count(self) -> u32 {
        match self {
            Script::Versions => 17,
            Script::Posting => 13,
        }
    }

    /// How many calls the device can fail in: `format`, `open`, and the commands that read or write
    /// blocks. The end is counted as one of them.
    pub(super) fn stages(self) -> u32 {
        match self {
            Script::Versions => 13,
            Script::Posting => 12,
        }
    }

    /// The command of this number, from 0.
    pub(super) fn command(self, alloc: Global, n: u32) -> Command<'static> {
        match self {
            Script::Versions => versions(n),
            Script::Posting => posting(alloc, n),
        }
    }

    /// The answer to the command of this number.
    pub(super) fn answer(self, n: u32) -> Reply {
        match (self, n) {
            (Script::Posting, 6) => Ok(Answer::Merged(1)),
            _ => Ok(Answer::Done),
        }
    }

    pub(super) fn is_commit(self, alloc: Global, n: u32) -> bool {
        matches!(self.command(alloc, n), Command::Commit)
    }

    /// The number after that of the last Commit before the command of this number.
    pub(super) fn last_kept(self, alloc: Global, number: u32) -> u32 {
        let mut kept = 0;
        for n in 0..number {
            if self.is_commit(alloc, n) {
                kept = n + 1;
            }
        }
        kept
    }
}
