//! What an editor asks for.
use crate::{Key, Name, ValueRef};
use std::marker::Model;

/// How a conflict is settled: with the alternative's own value, or with the parent's.
#[derive(Clone, Copy, Debug, PartialEq, Eq, Hash)]
pub enum Side {
    Mine,
    Theirs,
}

impl Side {
    ghost use Rattle.std.specs.Prelude.{◌≡◌};
    ghost use Rattle.vm_types.specs.Map.{other_side};

    /// The other side.
    pub fn other(self) -> Side
        ensures { result ≡ other_side self }
    {
        match self {
            Side::Mine => Side::Theirs,
            Side::Theirs => Side::Mine,
        }
    }
}

/// Settlements of conflicts, each a key and a side, in the order in which they were given.
#[derive(Debug, Drop)]
pub struct Settled {
    sides: Vec<(Key, Side)>,
}

impl Model for Settled {
    ghost use Rattle.std.specs.Prelude.{List};
    ghost use Rattle.vm_types.specs.declared.key.Key.{Key};
    ghost use Rattle.vm_types.specs.declared.command.Side.{Side};

    ghost Value = { List (Key × Side) };

    ghost view = { λ s. s.sides.items };
}

impl Settled {
    ghost use Rattle.std.specs.Prelude.{◌≡◌};

    /// Settlements from a list. Takes no memory.
    pub fn from_vec(sides: Vec<(Key, Side)>) -> Self
        ensures { result ≡ sides.items }
    {
        Settled { sides }
    }

    /// Gives the list back. Takes no memory.
    pub fn into_vec(self) -> Vec<(Key, Side)>
        ensures { result.items ≡ self }
    {
        self.sides
    }

    pub fn as_slice(&self) -> &[(Key, Side)]
        ensures { result.now ≡ self.now }
    {
        self.sides.as_slice()
    }
}

/// A command to the store. The value of a Put is lent, so a command is small and takes no memory to
/// make.
#[derive(Debug, Drop)]
pub enum Command<'a> {
    /// Creates an alternative under the parent. It shows the parent's current records.
    New {
        name: Name,
        parent: Name,
    },
    /// Creates an alternative under the parent. It shows the records of a checkpoint of the parent.
    NewAt {
        name: Name,
        parent: Name,
        checkpoint: Name,
    },
    /// Removes an alternative that has no children, together with its checkpoints.
    Drop {
        alt: Name,
    },
    /// Sets the value of a record of the alternative.
    Put {
        alt: Name,
        key: Key,
        value: ValueRef<'a>,
    },
    /// Removes a record from the alternative.
    Remove {
        alt: Name,
        key: Key,
    },
    /// Names the present state of the alternative.
    Checkpoint {
        alt: Name,
        name: Name,
    },
    /// Removes a checkpoint.
    Uncheck {
        alt: Name,
        name: Name,
    },
    /// Goes back to a checkpoint, which stays.
    Back {
        alt: Name,
        name: Name,
    },
    /// Brings in what changed in the parent since the base.
    Merge {
        alt: Name,
        settled: Settled,
    },
    /// Makes the alternative's state the parent's.
    Post {
        alt: Name,
    },
    /// Makes the working state the committed one.
    Commit,
    /// Makes the committed state the working one: uncommitted changes are gone.
    Rollback,
    /// Frees each block that neither state needs.
    Reclaim,
    /// Grows the store to this many blocks in all, more than it has.
    Grow {
        blocks: u32,
    },
}
