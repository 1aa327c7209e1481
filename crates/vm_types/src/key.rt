//! What a record is found by.
ghost use Rattle.std.specs.Prelude.{◌≡◌, ◌<◌, ◌^◌};
ghost use Rattle.vm_types.specs.Places.{place, KeyFits};

use std::fmt;

/// The key of a record: a table, and a number in it. Keys are ordered by table, then by number.
#[derive(Clone, Copy, Debug, Default, PartialEq, Eq, PartialOrd, Ord, Hash)]
pub struct Key {
    pub table: u16,
    pub number: u64,
}

impl Key {
    /// The key's rank among all keys, as one number.
    pub fn place(self) -> u128
        ensures place { result ≡ place self }
        ensures small { result < 2 ^ 80 }
        ensures fits { KeyFits self }
    {
        u128::from(self.table) * (1 << 64) + u128::from(self.number)
    }
}

impl fmt::Display for Key {
    ghost use Rattle.std.specs.Prelude.{Some};
    ghost use Rattle.vm_types.specs.Texts.{key_text};

    ghost output = { λ key. Some (key_text key) };

    fn fmt<W: fmt::Write>(&self, f: &mut fmt::Formatter<W>) -> fmt::Result {
        write!(f, "{}:{}", self.table, self.number)
    }
}
