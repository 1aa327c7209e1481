//! What a walk has noted of damaged blocks.
ghost use Rattle.std.specs.Prelude.{ℕ, IsSome};
ghost use Rattle.vm_alloc.specs.Marks.{IsMarked};

use vm_alloc::Marks;
use vm_types::BlockNumber;

/// What a walk does behind a damaged block.
#[derive(Clone, Copy, Debug, PartialEq, Eq)]
pub(crate) enum OnDamage {
    /// It ends.
    Stop,
    /// It goes on, and notes each.
    GoOn,
}

/// The damaged blocks that a walk met.
#[derive(Drop)]
pub(crate) struct Notes {
    pub(crate) on_damage: OnDamage,
    /// What was noted first.
    pub(crate) first: Option<BlockNumber>,
    /// Marks on all of them.
    pub(crate) damaged: Marks,
    ghost told: { (n : ℕ) → IsMarked damaged n → IsSome first },
}
