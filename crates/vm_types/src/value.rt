//! What a record holds.
ghost use Rattle.std.specs.Prelude.{◌≡◌, ◌≤◌, ◌↔◌, ◌<◌, length, IsSome, IfSome, []};
ghost use Rattle.vm_types.specs.Bytes.{longest, padded};

use std::marker::Model;

/// The value of a record: 0 to 4,000 bytes, held inline. A list of values is packed, as in
/// [`Records`](crate::Records), and does not take 4,000 bytes for each.
#[derive(Clone, Copy, Debug)]
pub struct Value {
    bytes: [u8; Self::MAX_LEN],
    len: u16,
}

impl Model for Value {
    ghost use Rattle.std.specs.Prelude.{ℕ, List, take, length};
    ghost use Rattle.vm_types.specs.Bytes.{IsPadded, longest, padded, padded-counted, length-counted};

    ghost Value = { List ℕ };

    ghost view = { λ v. take v.len v.bytes };

    ghost invariant = { λ v. IsPadded longest v.len v.bytes };

    ghost inverse = { λ bytes. record { bytes = padded longest bytes; len = length bytes } };

    ghost inverse_ok = { λ v h. λ i. record { bytes = padded-counted longest v.len v.bytes h i; len = length-counted longest v.len v.bytes h i } };
}

impl Value {
    /// The maximum length of a value in bytes.
    pub const MAX_LEN: usize = 4000;

    /// A value with these bytes, if there are at most 4,000.
    pub fn new(bytes: &[u8]) -> Option<Self>
        ensures short { IsSome result ↔ (length bytes.now ≤ longest) }
        ensures value { IfSome result (λ v. v ≡ bytes.now) }
    {
        if bytes.len() > Self::MAX_LEN {
            return None;
        }
        let mut held = [0; Self::MAX_LEN];
        held[..bytes.len()].copy_from_slice(bytes);
        Some(Value {
            bytes: held,
            len: bytes.len() as u16,
        })
    }

    pub fn as_bytes(&self) -> &[u8]
        ensures bytes { result.now ≡ self.now }
        ensures short { length self.now ≤ longest }
    {
        &self.bytes[..usize::from(self.len)]
    }

    /// The bytes, padded with zero bytes to the maximum length.
    pub fn padded(&self) -> &[u8; Self::MAX_LEN]
        ensures bytes { result.now ≡ padded longest self.now }
        ensures short { length self.now ≤ longest }
    {
        &self.bytes
    }
}

/// The empty value.
impl Default for Value {
    fn default() -> Self
        ensures { result ≡ [] }
    {
        Value {
            bytes: [0; Self::MAX_LEN],
            len: 0,
        }
    }
}

impl PartialEq for Value {
    ghost use Rattle.std.specs.Str.{bytes_eq};
    ghost use Rattle.std.specs.Cmp.{partial_equiv_from_equiv};
    ghost use Rattle.std.specs.Cmp.Lexicographic.{nat_list_eq_equiv};

    ghost eq = { bytes_eq };

    ghost laws = { partial_equiv_from_equiv nat_list_eq_equiv };

    fn eq(&self, other: &Self) -> bool {
        self.as_bytes() == other.as_bytes()
    }
}

impl Eq for Value {
    ghost use Rattle.std.specs.Cmp.Lexicographic.{nat_list_eq_equiv};

    ghost laws = { nat_list_eq_equiv };
}

/// A value that something else holds: 0 to 4,000 bytes, lent. Takes no memory and copies nothing.
#[derive(Debug, Drop)]
pub struct ValueRef<'a> {
    bytes: &'a [u8],
}

impl<'a> Model for ValueRef<'a> {
    ghost use Rattle.std.specs.Prelude.{ℕ, List, ◌≤◌, length};
    ghost use Rattle.vm_types.specs.Bytes.{longest};

    ghost Value = { List ℕ };

    ghost view = { λ v. v.bytes.now };

    ghost invariant = { λ v. length v.bytes.now ≤ longest };
}

impl<'a> ValueRef<'a> {
    /// These bytes as a value, if there are at most 4,000.
    pub fn new(bytes: &'a [u8]) -> Option<Self>
        ensures short { IsSome result ↔ (length bytes.now ≤ longest) }
        ensures value { IfSome result (λ v. v ≡ bytes.now) }
    {
        if bytes.len() > Value::MAX_LEN {
            return None;
        }
        Some(ValueRef { bytes })
    }

    pub fn as_bytes(&self) -> &'a [u8]
        ensures bytes { result.now ≡ self.now }
        ensures short { length self.now ≤ longest }
    {
        self.bytes
    }
}

/// The empty value.
impl Default for ValueRef<'_> {
    fn default() -> Self
        ensures { result ≡ [] }
    {
        ValueRef { bytes: &[] }
    }
}

impl<'a> From<&'a Value> for ValueRef<'a> {
    fn from(value: &'a Value) -> Self
        ensures { result ≡ value.now }
    {
        ValueRef {
            bytes: value.as_bytes(),
        }
    }
}
