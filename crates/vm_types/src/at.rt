//! The versions of an alternative that can be asked for.
use crate::Name;

/// Which records of an alternative are meant.
#[derive(Clone, Copy, Debug, PartialEq, Eq)]
pub enum Of {
    /// Its current records.
    Current,
    /// Its base: the records of its parent that it last took in. The base of `top` is empty.
    Base,
    /// The records of its checkpoint of this name.
    Checkpoint(Name),
}

/// A version: an alternative's current records, its base, or the records of one of its checkpoints.
#[derive(Clone, Copy, Debug, PartialEq, Eq)]
pub struct At {
    pub alt: Name,
    pub of: Of,
}
