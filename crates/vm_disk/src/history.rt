//! Values that only contracts see, kept without bytes.
ghost use Rattle.std.specs.Prelude.{◌≡◌, [], ◌∷◌, reverse};

use std::mem;
use std::snapshot::Snapshot;
use vm_types::Block;

/// A value that was noted, and those before it. It has no bytes.
struct Past<T> {
    last: Snapshot<T>,
    before: Snapshot<Option<Past<T>>>,
}

impl<T> Drop for Past<T> {
    fn drop(self) {
        let Past { last: _, before: _ } = self;
    }
}

/// The values that were noted, the newest first, for contracts alone. It has no bytes, so noting a
/// value takes no memory and no time.
pub struct History<T> {
    newest: Snapshot<Option<Past<T>>>,
}

impl<T> Drop for History<T> {
    fn drop(self) {
        let History { newest: _ } = self;
    }
}

impl<T> History<T> {
    ghost use Rattle.vm_disk.specs.Past.{noted};

    pub fn new() -> History<T>
        ensures { noted result ≡ [] }
    {
        History {
            newest: Snapshot::of(&None),
        }
    }

    pub fn note(&mut self, value: &T)
        ensures { noted self.new ≡ value.now ∷ noted self.old }
    {
        let before = mem::replace(&mut self.newest, Snapshot::of(&None));
        let newest = Some(Past {
            last: Snapshot::of(value),
            before,
        });
        self.newest = Snapshot::of(&newest);
    }
}

ghost use Rattle.vm_disk.specs.Past.{noted};

/// Bytes, as if each had been noted in turn.
pub fn noted_bytes(bytes: &[u8]) -> History<u8>
    ensures { reverse (noted result) ≡ bytes.now }
{
    let mut kept = History::new();
    for byte in bytes {
        kept.note(byte);
    }
    kept
}

/// Blocks, as if each had been noted in turn.
pub(crate) fn noted_blocks(blocks: &[Block]) -> History<Block>
    ensures { reverse (noted result) ≡ blocks.now }
{
    let mut kept = History::new();
    for block in blocks {
        kept.note(block);
    }
    kept
}
