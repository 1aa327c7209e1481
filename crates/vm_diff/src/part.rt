//! The part of two maps that is compared.
use vm_types::Key;

/// From one key to another, both included.
#[derive(Clone, Copy, Debug)]
pub(crate) struct Part {
    pub(crate) low: Key,
    pub(crate) high: Key,
}
