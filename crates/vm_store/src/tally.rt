//! How far an alternative is from its base and from its parent, in numbers.

/// How far an alternative is from its base and from its parent, in numbers.
#[derive(Clone, Copy, Debug, PartialEq, Eq)]
pub struct Tally {
    /// How many records it changed since its base.
    pub changed: usize,
    /// How many records its parent changed since that base that it has not merged.
    pub unmerged: usize,
    /// How many of its records are in conflict with its parent's.
    pub conflicts: usize,
    /// Whether it can be posted: its parent's records are still those of its base.
    pub can_post: bool,
}
