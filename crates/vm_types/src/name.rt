//! The names of alternatives and checkpoints.
ghost use Rattle.std.specs.Prelude.{◌≡◌, ◌≤◌, ◌<◌, ◌↔◌, length, IsSome, IfSome, IsTrue};
ghost use Rattle.vm_types.specs.Name.{IsName, IsNameByte};
ghost use Rattle.vm_types.specs.Bytes.{padded};

use std::cmp::Ordering;
use std::marker::Model;
use std::{fmt, str};

/// The name of an alternative or of a checkpoint: 1 to 32 ASCII letters, digits, `_`, `-` and `.`.
/// It holds its bytes inline. Names are ordered by their bytes.
#[derive(Clone, Copy)]
pub struct Name {
    bytes: [u8; 32],
    len: u8,
}

impl Model for Name {
    ghost use Rattle.std.specs.Prelude.{ℕ, List, take, length};
    ghost use Rattle.vm_types.specs.Bytes.{IsPadded, padded, padded-counted, length-counted};
    ghost use Rattle.vm_types.specs.Name.{IsNameIn};

    ghost Value = { List ℕ };

    ghost view = { λ v. take v.len v.bytes };

    ghost invariant = { λ v. IsNameIn 32 v.len v.bytes };

    ghost inverse = { λ bytes. record { bytes = padded 32 bytes; len = length bytes } };

    ghost inverse_ok = { λ v h. λ i. record { bytes = padded-counted 32 v.len v.bytes h.padding i; len = length-counted 32 v.len v.bytes h.padding i } };
}

/// Whether a name may contain this byte.
fn is_name_byte(byte: u8) -> bool
    ensures { IsTrue result ↔ IsNameByte byte }
{
    matches!(byte, b'a'..=b'z' | b'A'..=b'Z' | b'0'..=b'9' | b'_' | b'-' | b'.')
}

/// Whether these bytes are a valid name.
fn is_name(bytes: &[u8]) -> bool
    ensures { IsTrue result ↔ IsName bytes.now }
{
    !bytes.is_empty() && bytes.len() <= Name::MAX_LEN && bytes.iter().all(|b| is_name_byte(*b))
}

impl Name {
    /// The maximum length of a name in bytes.
    pub const MAX_LEN: usize = 32;

    /// The name with these bytes, if they are a valid name.
    pub fn new(bytes: &[u8]) -> Option<Self>
        ensures name { IsSome result ↔ IsName bytes.now }
        ensures value { IfSome result (λ name. name ≡ bytes.now) }
    {
        if !is_name(bytes) {
            return None;
        }
        let mut held = [0; 32];
        held[..bytes.len()].copy_from_slice(bytes);
        Some(Name {
            bytes: held,
            len: bytes.len() as u8,
        })
    }

    pub fn as_bytes(&self) -> &[u8]
        ensures bytes { result.now ≡ self.now }
        ensures name { IsName self.now }
    {
        &self.bytes[..self.len as usize]
    }

    /// The bytes, padded with zero bytes to the maximum length.
    pub fn padded(&self) -> &[u8; 32]
        ensures bytes { result.now ≡ padded 32 self.now }
        ensures name { IsName self.now }
    {
        &self.bytes
    }
}

impl PartialEq for Name {
    ghost use Rattle.std.specs.Str.{bytes_eq};
    ghost use Rattle.std.specs.Cmp.{partial_equiv_from_equiv};
    ghost use Rattle.std.specs.Cmp.Lexicographic.{nat_list_eq_equiv};

    ghost eq = { bytes_eq };

    ghost laws = { partial_equiv_from_equiv nat_list_eq_equiv };

    fn eq(&self, other: &Self) -> bool {
        self.as_bytes() == other.as_bytes()
    }
}

impl Eq for Name {
    ghost use Rattle.std.specs.Cmp.Lexicographic.{nat_list_eq_equiv};

    ghost laws = { nat_list_eq_equiv };
}

impl PartialOrd for Name {
    ghost use Rattle.std.specs.Prelude.{Some};
    ghost use Rattle.std.specs.Ordering.{nat_cmp};
    ghost use Rattle.std.specs.Cmp.Lexicographic.{slice_cmp, texts_po};

    ghost partial_cmp = { λ a b. Some (slice_cmp nat_cmp a b) };

    ghost laws = { texts_po };

    fn partial_cmp(&self, other: &Self) -> Option<Ordering> {
        Some(self.cmp(other))
    }
}

impl Ord for Name {
    ghost use Rattle.std.specs.Prelude.{refl};
    ghost use Rattle.std.specs.Ordering.{nat_cmp};
    ghost use Rattle.std.specs.Cmp.Lexicographic.{slice_cmp, nat_list_cmp_total, texts_ties};

    ghost cmp = { slice_cmp nat_cmp };

    ghost total = { nat_list_cmp_total };

    ghost matches_partial_cmp = { λ a b. refl };

    ghost matches_eq = { texts_ties };

    fn cmp(&self, other: &Self) -> Ordering {
        self.as_bytes().cmp(other.as_bytes())
    }
}

impl fmt::Display for Name {
    ghost use Rattle.std.specs.Prelude.{Some};

    ghost output = { λ name. Some name };

    fn fmt<W: fmt::Write>(&self, f: &mut fmt::Formatter<W>) -> fmt::Result {
        for byte in self.as_bytes() {
            f.write_char(char::from(*byte))?;
        }
        Ok(())
    }
}

impl fmt::Debug for Name {
    fn fmt<W: fmt::Write>(&self, f: &mut fmt::Formatter<W>) -> fmt::Result {
        write!(f, "Name({self})")
    }
}
