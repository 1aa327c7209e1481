//! One line, as it is read.
use std::alloc::Global;

/// The maximum length of a line in bytes. The line feed at its end does not count; a carriage
/// return does.
pub const MAX_BYTES: usize = 1_048_576;

/// What became of the bytes of a line.
#[derive(Clone, Copy, Debug)]
pub enum LineKind {
    /// All are held.
    Kept,
    /// There are more than a line may have.
    Long,
    /// Memory for them could not be allocated.
    NoMemory,
}

/// The line that is being read.
#[derive(Drop)]
pub struct Line {
    pub bytes: Vec<u8>,
    pub kind: LineKind,
    pub is_empty: bool,
}

impl Line {
    ghost use Rattle.std.specs.Prelude.{◌≡◌, ℕ, List, ◌++◌, []};
    ghost use Rattle.vm_cli.specs.lines.Lines.{IsPart};
    ghost use Rattle.vm_cli.specs.lines.Input.{HoldsLine, without_return};

    /// An empty line.
    pub(crate) fn new(alloc: Global) -> Line
        ensures { HoldsLine result [] }
    {
        Line {
            bytes: Vec::new(alloc),
            kind: LineKind::Kept,
            is_empty: true,
        }
    }

    /// Appends bytes to the line.
    pub(crate) fn extend(&mut self, bytes: &[u8])
        requires { IsPart bytes.now }
        ensures { (part : List ℕ) → HoldsLine self.old part → HoldsLine self.new (part ++ bytes.now) }
    {
        if bytes.is_empty() {
            return;
        }
        self.is_empty = false;
        match self.kind {
            LineKind::Kept => {
                if self.bytes.len() + bytes.len() > MAX_BYTES {
                    self.kind = LineKind::Long;
                } else if self.bytes.extend_from_slice(bytes).is_err() {
                    self.kind = LineKind::NoMemory;
                }
            }
            LineKind::Long => {}
            LineKind::NoMemory => {}
        }
    }

    /// Begins the next line.
    pub(crate) fn clear(&mut self)
        ensures { HoldsLine self.new [] }
    {
        self.bytes.clear();
        self.kind = LineKind::Kept;
        self.is_empty = true;
    }

    /// The bytes that are held, without one carriage return at their end.
    pub(crate) fn text(&self) -> &[u8]
        ensures { result.now ≡ without_return self.now.bytes.items }
    {
        let bytes = self.bytes.as_slice();
        if bytes.is_empty() {
            return bytes;
        }
        let last = bytes.len() - 1;
        if bytes[last] != b'\r' {
            return bytes;
        }
        &bytes[..last]
    }
}
