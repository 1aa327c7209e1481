//! What the program is asked to do.
ghost use Rattle.std.specs.Prelude.{◌≡◌};
ghost use Rattle.vm_cli.specs.program.CachedLines.{buffer_for};

use crate::session::Manner;

/// How much of a file's disk a session keeps in memory.
#[derive(Clone, Copy, Debug, Drop, PartialEq, Eq)]
pub struct InMemory {
    /// Up to this many blocks that were used stay.
    pub cache: u32,
    /// Up to this many written blocks wait to be written to the file; if no word says it, the store's
    /// size does.
    pub buffer: Option<u32>,
}

/// The default is never less than this many written blocks.
pub const LEAST_BUFFER: u32 = 16_384;
/// The maximum number of written blocks that wait.
pub const MAX_BUFFER: u32 = 65_536;

/// How many written blocks may wait over a disk of this many blocks: as many as the words say, or a
/// quarter of the disk's, from 16,384 to 65,536.
pub fn buffer_for(said: Option<u32>, blocks: u32) -> u32
    ensures { result ≡ buffer_for said blocks }
{
    match said {
        Some(buffer) => buffer,
        None => (blocks / 4).max(LEAST_BUFFER).min(MAX_BUFFER),
    }
}

/// One task of the program. The name of its file is the one in the words it was read from.
#[derive(Debug, Drop, PartialEq, Eq)]
pub enum Job<'a> {
    /// Makes a file of this many zero blocks, and a store in it.
    Create {
        file: &'a str,
        blocks: u32,
    },
    /// Opens the store in a file, and answers the lines of the standard input: read only, if
    /// commands are refused.
    Run {
        file: &'a str,
        in_memory: InMemory,
        manner: Manner,
    },
    /// Opens the store in a file, and answers the lines of this input, as above.
    Do {
        file: &'a str,
        input: Vec<u8>,
        in_memory: InMemory,
        manner: Manner,
    },
    /// Opens the store in a file read only, and counts what it holds.
    Check {
        file: &'a str,
    },
    /// Opens the store in a file read only, and draws the tree of its alternatives.
    Tree {
        file: &'a str,
    },
    /// Opens the store in a file read only, and makes the file `to` with a copy of it, of as many
    /// blocks as the store has if no number is given.
    Copy {
        file: &'a str,
        to: &'a str,
        blocks: Option<u32>,
    },
}
