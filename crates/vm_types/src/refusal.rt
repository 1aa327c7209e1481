//! Every refusal, in one place.
ghost use Rattle.std.specs.Prelude.{◌≡◌};

use crate::Key;
use std::fmt;

/// Why a call was refused.
#[derive(Clone, Copy, Debug, PartialEq, Eq, Hash)]
pub enum Refusal {
    /// The named alternative or parent isn't there.
    NoSuchAlternative,
    /// The name of the new alternative is already in use.
    AlternativeExists,
    /// The alternative has no such checkpoint.
    NoSuchCheckpoint,
    /// The alternative already has a checkpoint of this name.
    CheckpointExists,
    /// The record to be removed is absent.
    NoSuchRecord,
    /// The first alternative cannot be dropped, merged or posted, and it has no conflicts.
    IsTop,
    /// The alternative to be dropped has children.
    HasChildren,
    /// The base of the alternative to be posted isn't its parent's current state.
    NotMerged,
    /// This many conflicts have no settlement.
    Unsettled(u64),
    /// A settlement names a key that is in no conflict.
    NotInConflict(Key),
    /// A key is settled twice.
    SettledTwice(Key),
    /// All 511 entries of alternatives and checkpoints are taken.
    TooMany,
    /// Too few spare blocks are left for the record changes.
    Full,
    /// The tree has its maximum number of levels, and every block on the path to the new record is
    /// full.
    Deep,
    /// The device failed during this call.
    Device,
    /// A request for memory was refused during this call.
    Memory,
    /// An earlier command was answered by `Device`.
    Failed,
    /// This block violates the layout.
    Damaged(u32),
    /// The disk is too small for a store, or its first block is no header.
    NotAStore,
    /// The disk to be formatted is a store already.
    AlreadyAStore,
    /// The block count is out of range, exceeds the disk, or (for a store that grows) does not
    /// exceed its current size.
    BadSize,
}

impl Refusal {
    ghost use Rattle.vm_types.specs.Codes.{code_of, name_of};

    /// Its number, from 1 to 21.
    pub fn code(&self) -> u32
        ensures { result ≡ code_of self.now }
    {
        match self {
            Refusal::NoSuchAlternative => 1,
            Refusal::AlternativeExists => 2,
            Refusal::NoSuchCheckpoint => 3,
            Refusal::CheckpointExists => 4,
            Refusal::NoSuchRecord => 5,
            Refusal::IsTop => 6,
            Refusal::HasChildren => 7,
            Refusal::NotMerged => 8,
            Refusal::Unsettled(_) => 9,
            Refusal::NotInConflict(_) => 10,
            Refusal::SettledTwice(_) => 11,
            Refusal::TooMany => 12,
            Refusal::Full => 13,
            Refusal::Deep => 14,
            Refusal::Device => 15,
            Refusal::Memory => 16,
            Refusal::Failed => 17,
            Refusal::Damaged(_) => 18,
            Refusal::NotAStore => 19,
            Refusal::AlreadyAStore => 20,
            Refusal::BadSize => 21,
        }
    }

    /// Its name, without any count, key or block that it carries.
    pub fn name(&self) -> &'static str
        ensures { result.now ≡ name_of self.now }
    {
        match self {
            Refusal::NoSuchAlternative => "NoSuchAlternative",
            Refusal::AlternativeExists => "AlternativeExists",
            Refusal::NoSuchCheckpoint => "NoSuchCheckpoint",
            Refusal::CheckpointExists => "CheckpointExists",
            Refusal::NoSuchRecord => "NoSuchRecord",
            Refusal::IsTop => "IsTop",
            Refusal::HasChildren => "HasChildren",
            Refusal::NotMerged => "NotMerged",
            Refusal::Unsettled(_) => "Unsettled",
            Refusal::NotInConflict(_) => "NotInConflict",
            Refusal::SettledTwice(_) => "SettledTwice",
            Refusal::TooMany => "TooMany",
            Refusal::Full => "Full",
            Refusal::Deep => "Deep",
            Refusal::Device => "Device",
            Refusal::Memory => "Memory",
            Refusal::Failed => "Failed",
            Refusal::Damaged(_) => "Damaged",
            Refusal::NotAStore => "NotAStore",
            Refusal::AlreadyAStore => "AlreadyAStore",
            Refusal::BadSize => "BadSize",
        }
    }
}

/// Its number and its name, as in `7 HasChildren`, and then what it carries, as in `18 Damaged 34`.
impl fmt::Display for Refusal {
    ghost use Rattle.std.specs.Prelude.{Some};
    ghost use Rattle.vm_types.specs.Texts.{refusal_text};

    ghost output = { λ refusal. Some (refusal_text refusal) };

    fn fmt<W: fmt::Write>(&self, f: &mut fmt::Formatter<W>) -> fmt::Result {
        write!(f, "{} {}", self.code(), self.name())?;
        match self {
            Refusal::Unsettled(count) => write!(f, " {count}"),
            Refusal::NotInConflict(key) | Refusal::SettledTwice(key) => write!(f, " {key}"),
            Refusal::Damaged(block) => write!(f, " {block}"),
            _ => Ok(()),
        }
    }
}
