//! Values that lie one after another in one run of bytes.
ghost use Rattle.std.specs.Prelude.{◌≡◌, ◌≤◌, ◌++◌, ℕ, List, [], All, length, map, option_copied, IfOk, IfSome, OnErr};
ghost use Rattle.vm_types.specs.Bytes.{longest};
ghost use Rattle.vm_types.specs.Pieces.{ArePieces, Extends, IsPiece, LiesIn, value_in};

use crate::Value;
use std::alloc::{AllocError, Global};
use std::marker::Model;

/// Where a value lies in a run of bytes, or that it is absent. Takes 16 bytes.
#[derive(Clone, Copy, Debug)]
pub struct Piece {
    start: usize,
    len: u16,
    there: bool,
}

impl Piece {
    const ABSENT: Self = Piece {
        start: 0,
        len: 0,
        there: false,
    };
}

/// One run of bytes, for the values of a list.
#[derive(Debug, Drop)]
pub struct Values {
    bytes: Vec<u8>,
}

impl Model for Values {
    ghost use Rattle.std.specs.Prelude.{ℕ, List};

    ghost Value = { List ℕ };

    ghost view = { λ v. v.bytes.items };
}

impl Values {
    /// No values. Takes no memory.
    pub(crate) fn new(alloc: Global) -> Self
        ensures { result ≡ [] }
    {
        Values {
            bytes: Vec::new(alloc),
        }
    }

    /// Appends a value, if there is one. If memory cannot be allocated, nothing changes.
    fn add(&mut self, value: Option<&[u8]>) -> Result<Piece, AllocError>
        requires { IfSome value (λ bytes. length bytes.now ≤ longest) }
        ensures more { Extends self.old self.new }
        ensures ok { IfOk result (IsPiece self.new (option_copied value.entry)) }
        ensures err { OnErr result (self.new ≡ self.old) }
    {
        let Some(bytes) = value else {
            return Ok(Piece::ABSENT);
        };
        let start = self.bytes.len();
        self.bytes.extend_from_slice(bytes)?;
        Ok(Piece {
            start,
            len: bytes.len() as u16,
            there: true,
        })
    }

    /// Appends each of these values. If memory cannot be allocated, some may have been appended.
    pub(crate) fn add_all<const N: usize>(
        &mut self,
        values: &[Option<&[u8]>],
    ) -> Result<[Piece; N], AllocError>
        requires count { length values.now ≡ N }
        requires short { All (λ value. IfSome value (λ bytes. length bytes.now ≤ longest)) values.now }
        ensures more { Extends self.old self.new }
        ensures ok { IfOk result (ArePieces self.new (map option_copied values.now)) }
    {
        let mut pieces = [Piece::ABSENT; N];
        for (i, value) in values.iter().enumerate() {
            pieces[i] = self.add(*value)?;
        }
        Ok(pieces)
    }

    /// The bytes of a value, if there is one.
    pub(crate) fn get(&self, piece: Piece) -> Option<&[u8]>
        requires { LiesIn (length self.now) piece }
        ensures value { option_copied result ≡ value_in self.now piece }
        ensures short { IfSome result (λ bytes. length bytes.now ≤ longest) }
    {
        if !piece.there {
            return None;
        }
        Some(&self.bytes[piece.start..piece.start + usize::from(piece.len)])
    }

    /// The value, if there is one.
    pub(crate) fn whole(&self, piece: Piece) -> Option<Value>
        requires { LiesIn (length self.now) piece }
        ensures { result ≡ value_in self.now piece }
    {
        self.get(piece).and_then(Value::new)
    }
}
