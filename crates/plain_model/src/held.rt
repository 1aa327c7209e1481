//! The value of a record in the memory of its own bytes.
ghost use Rattle.std.specs.Prelude.{◌≡◌, ◌≤◌, length, IfOk};
ghost use Rattle.vm_types.specs.Bytes.{longest};

use std::alloc::{AllocError, Global};
use std::marker::Model;
use vm_types::Value;

/// A value that takes only the memory of its own bytes.
#[derive(Drop)]
pub struct Held {
    bytes: Vec<u8>,
}

impl Model for Held {
    ghost use Rattle.std.specs.Prelude.{ℕ, ◌≤◌, List, length};
    ghost use Rattle.vm_types.specs.Bytes.{longest};

    ghost Value = { List ℕ };

    ghost view = { λ h. h.bytes.items };

    ghost invariant = { λ h. length h.bytes.items ≤ longest };
}

impl Held {
    /// A value of these bytes.
    pub(super) fn new(alloc: Global, bytes: &[u8]) -> Result<Held, AllocError>
        requires { length bytes.now ≤ longest }
        ensures { IfOk result (λ held. held ≡ bytes.now) }
    {
        Ok(Held {
            bytes: Vec::from_slice(alloc, bytes)?,
        })
    }

    /// A copy of it.
    pub(super) fn copy(&self, alloc: Global) -> Result<Held, AllocError>
        ensures { IfOk result (λ copy. copy ≡ self.now) }
    {
        Held::new(alloc, &self.bytes)
    }

    pub(super) fn as_bytes(&self) -> &[u8]
        ensures bytes { result.now ≡ self.now }
        ensures short { length self.now ≤ longest }
    {
        &self.bytes
    }

    /// The same in the space of the longest possible value.
    pub(super) fn value(&self) -> Value
        ensures { result ≡ self.now }
    {
        match Value::new(&self.bytes) {
            Some(value) => value,
            None => unreachable!(),
        }
    }
}

impl PartialEq for Held {
    ghost use Rattle.std.specs.Str.{bytes_eq};
    ghost use Rattle.std.specs.Cmp.{partial_equiv_from_equiv};
    ghost use Rattle.std.specs.Cmp.Lexicographic.{nat_list_eq_equiv};

    ghost eq = { bytes_eq };

    ghost laws = { partial_equiv_from_equiv nat_list_eq_equiv };

    fn eq(&self, other: &Self) -> bool {
        self.as_bytes() == other.as_bytes()
    }
}
