//! The lists of commands that runs carry out.
use super::{GROWN_BLOCKS, name};
use std::alloc::Global;
use testkit::{Reply, top};
use vm_types::{Answer, Command, Key, Settled, ValueRef};

/// Which commands a run carries out. The last one is a Commit.
#[derive(Clone, Copy, Debug, PartialEq, Eq)]
pub enum Script {
    /// `x` is made, changed, merged and posted, and `top` is changed after that.
    Posted,
    /// The same, and directly before the second Commit `y` begins at a checkpoint of `top`, and the
    /// store grows.
    Grown,
}

/// The greatest value of the run. Beside it, its leaf has room for a short one.
pub const GREAT: &'static [u8] = &[b'd'; 4000];

/// The last value of the run. The leaf of the greatest one has no room for it.
pub const LAST: &'static [u8] = &[b'e'; 100];

/// How many device calls `format`, `open` and the commands make if the store does not grow. The
/// Merge puts the record of `x` into the leaf of `top`. The last Put writes two leaves and a root
/// above them. The Remove goes on with its series, and reads and writes its leaf and the root once.
const CALLS: u32 = 7 + 4 + 1 + 2 + 4 + 2 + 6 + 4 + 4 + 4 + 4;

/// How many of these are writes or syncs.
const WRITES_AND_SYNCS: u32 = 6 + 1 + 1 + 1 + 4 + 1 + 1 + 4 + 3 + 2 + 4;

/// The key of this number in table 1.
pub(super) fn key(number: u64) -> Key {
    Key { table: 1, number }
}

/// Puts a value into an alternative.
pub(super) fn put<'a>(alt: &[u8], number: u64, bytes: &'a [u8]) -> Command<'a> {
    Command::Put {
        alt: name(alt),
        key: key(number),
        value: ValueRef::new(bytes).unwrap_or_default(),
    }
}

/// Merges into `x` what its parent changed.
pub(super) fn merge(alloc: Global) -> Command<'static> {
    Command::Merge {
        alt: name(b"x"),
        settled: Settled::from_vec(Vec::new(alloc)),
    }
}

/// The command of this number, from 0, without those that make `y` and let the store grow.
fn posted(alloc: Global, n: u32) -> Command<'static> {
    let (x, c) = (name(b"x"), name(b"c"));
    match n {
        0 => put(b"top", 1, b"a"),
        1 => Command::New {
            name: x,
            parent: top(),
        },
        2 => put(b"x", 1, b"b"),
        3 => Command::Checkpoint { alt: x, name: c },
        5 => put(b"top", 2, GREAT),
        6 => merge(alloc),
        7 => Command::Post { alt: x },
        8 => Command::Uncheck { alt: x, name: c },
        10 => put(b"top", 3, LAST),
        11 => Command::Remove {
            alt: top(),
            key: key(1),
        },
        _ => Command::Commit,
    }
}

/// The command of this number, from 0, with those.
fn grown(alloc: Global, n: u32) -> Command<'static> {
    let k = name(b"k");
    match n {
        0..=8 => posted(alloc, n),
        9 => Command::Checkpoint {
            alt: top(),
            name: k,
        },
        10 => Command::NewAt {
            name: name(b"y"),
            parent: top(),
            checkpoint: k,
        },
        11 => Command::Grow {
            blocks: GROWN_BLOCKS,
        },
        _ => posted(alloc, n.saturating_sub(3)),
    }
}

impl Script {
    /// How many device calls `format`, `open` and the commands make.
    pub(super) fn calls(self) -> u32 {
        match self {
            Script::Posted => CALLS,
            Script::Grown => CALLS + 1,
        }
    }

    /// How many of these are not reads.
    pub(super) fn changing_calls(self) -> u32 {
        match self {
            Script::Posted => WRITES_AND_SYNCS,
            Script::Grown => WRITES_AND_SYNCS + 1,
        }
    }

    /// How many commands are committed at first, and after each Commit.
    pub(super) fn kept(self) -> [u32; 4] {
        match self {
            Script::Posted => [0, 5, 10, 13],
            Script::Grown => [0, 5, 13, 16],
        }
    }

    /// How many commands there are.
    pub(super) fn count(self) -> u32 {
        self.kept()[3]
    }

    /// The command of this number, from 0.
    pub(super) fn command(self, alloc: Global, n: u32) -> Command<'static> {
        match self {
            Script::Posted => posted(alloc, n),
            Script::Grown => grown(alloc, n),
        }
    }

    /// The answer to the command of this number.
    pub(super) fn answer(self, n: u32) -> Reply {
        Ok(if n == 6 {
            Answer::Merged(1)
        } else {
            Answer::Done
        })
    }

    /// Whether the command of this number is a Commit.
    pub(super) fn is_commit(self, n: u32) -> bool {
        self.kept().contains(&n.saturating_add(1))
    }

    /// How many commands are committed before the one of this number.
    pub(super) fn committed(self, n: u32) -> u32 {
        let mut committed = 0;
        for count in self.kept() {
            if count <= n {
                committed = count;
            }
        }
        committed
    }
}
