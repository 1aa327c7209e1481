//! What comes next in a walk, and the outcome of a step of two walks.
ghost use Rattle.std.specs.Prelude.{◌≡◌, ◌^◌, ◌≤◌};

use vm_tree::Root;
use vm_types::Key;

/// What comes next in a walk: a record with this key, or a subtree.
#[derive(Clone, Copy, Debug)]
pub(crate) enum Next {
    End,
    Record(Key),
    Subtree(Root),
}

impl Next {
    ghost use Rattle.vm_diff.specs.Front.{next_place};

    /// The rank of its first key. The end ranks above all keys.
    #[inline(always)]
    pub(crate) fn place(self) -> u128
        ensures place { result ≡ next_place self }
        ensures most { result ≤ 2 ^ 80 }
    {
        match self {
            Next::End => 1 << 80,
            Next::Record(key) => key.place(),
            Next::Subtree(top) => top.low.place(),
        }
    }
}

/// The outcome of a step of two walks.
#[derive(Clone, Copy, Debug)]
pub(crate) enum Step {
    /// Both are at their ends.
    Done,
    /// They advanced, and the differences ahead are the same as before.
    Moved,
    /// The first difference comes next. It is at this key.
    Found(Key),
}
