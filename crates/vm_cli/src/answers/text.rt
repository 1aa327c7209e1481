//! The text of an answer, composed inline.
ghost use Rattle.std.specs.Fmt.{decimal};
ghost use Rattle.std.specs.Prelude.{◌≡◌, ◌+◌, ◌<◌, ◌≤◌, ◌++◌, ◌∷◌, [], length};

use std::marker::Model;

/// The text of an answer, or a part of it, of at most `MAX_LEN` bytes, held inline.
#[derive(Drop)]
pub struct Text {
    bytes: [u8; Text::MAX_LEN],
    len: usize,
}

impl Model for Text {
    ghost use Rattle.std.specs.Prelude.{ℕ, List, take, ◌≤◌};
    ghost use Rattle.vm_cli.specs.declared.answers.text.TheConstants.Text.{MAX_LEN};

    ghost Value = { List ℕ };

    ghost view = { λ t. take t.len t.bytes };

    ghost invariant = { λ t. t.len ≤ MAX_LEN };
}

impl Text {
    /// The maximum length of a text in bytes.
    pub const MAX_LEN: usize = 65536;

    /// An empty text.
    pub(crate) fn new() -> Text
        ensures { result ≡ [] }
    {
        Text {
            bytes: [0; Text::MAX_LEN],
            len: 0,
        }
    }

    /// Appends one byte.
    pub(crate) fn push(&mut self, byte: u8)
        requires { length self.old < Text.MAX_LEN }
        ensures { self.new ≡ self.old ++ byte ∷ [] }
    {
        self.bytes[self.len] = byte;
        self.len += 1;
    }

    /// Appends bytes.
    pub(crate) fn push_bytes(&mut self, bytes: &[u8])
        requires { length self.old + length bytes.now ≤ Text.MAX_LEN }
        ensures { self.new ≡ self.old ++ bytes.now }
    {
        let end = self.len + bytes.len();
        self.bytes[self.len..end].copy_from_slice(bytes);
        self.len = end;
    }

    /// Appends a number in decimal digits.
    pub(crate) fn push_number(&mut self, number: u64)
        requires { length self.old + 20 ≤ Text.MAX_LEN }
        ensures written { self.new ≡ self.old ++ decimal number }
        ensures short { length self.new ≤ length self.old + 20 }
    {
        let mut buffer = itoa::Buffer::new();
        self.push_bytes(buffer.format(number).as_bytes());
    }

    /// Drops all bytes.
    pub(crate) fn clear(&mut self)
        ensures { self.new ≡ [] }
    {
        self.len = 0;
    }

    pub(crate) fn as_bytes(&self) -> &[u8]
        ensures { result.now ≡ self.now }
    {
        &self.bytes[..self.len]
    }
}
