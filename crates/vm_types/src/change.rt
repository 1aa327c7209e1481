//! Differences between two maps or among three.
use crate::{Key, Value};

/// A key at which two maps differ, with both values. Absence counts as a value.
#[derive(Clone, Copy, Debug, PartialEq, Eq)]
pub struct Change {
    pub key: Key,
    pub before: Option<Value>,
    pub after: Option<Value>,
}

/// A key that was changed differently in an alternative and in its parent since their base.
#[derive(Clone, Copy, Debug, PartialEq, Eq)]
pub struct Conflict {
    pub key: Key,
    pub base: Option<Value>,
    pub parent: Option<Value>,
    pub mine: Option<Value>,
}
