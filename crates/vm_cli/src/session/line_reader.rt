//! An input, read line by line.
ghost use Rattle.std.specs.Prelude.{◌≡◌, ◌≤◌};
ghost use Rattle.vm_cli.specs.session.LineEndings.{ending_at};

use crate::lines::line::Line;
use crate::session::ServeFault;
use memchr::memchr;
use std::io::Read;

/// How the bytes that were read last end.
#[derive(Clone, Copy)]
pub(crate) enum Ending {
    /// A line ended.
    Line,
    /// The input ended within a line.
    HalfLine,
    /// The input ended behind a line, or has none.
    Input,
}

/// What was read of an input, and is no part of a line yet.
#[derive(Drop)]
pub(crate) struct LineReader {
    chunk: [u8; 8192],
    start: usize,
    end: usize,
    ghost in_order: { start ≤ end },
    ghost within: { end ≤ 8192 },
}

impl LineReader {
    ghost use Rattle.std.specs.Prelude.{ℕ, List, []};
    ghost use Rattle.vm_cli.specs.lines.Input.{HoldsLine};
    ghost use Rattle.vm_cli.specs.session.LineReading.{ReadsLine, unread_of};

    pub(crate) fn new() -> LineReader
        ensures { unread_of result ≡ [] }
    {
        LineReader {
            chunk: [0; 8192],
            start: 0,
            end: 0,
        }
    }

    /// Reads up to the end of a line, and appends its bytes to the line.
    pub(crate) fn read_line<R: Read>(
        &mut self,
        reader: &mut R,
        line: &mut Line,
    ) -> Result<Ending, ServeFault>
        ensures { (from : List ℕ) → HoldsLine line.old from → ReadsLine result from
            (R.remaining reader.old) (R.remaining reader.new) (unread_of self.old) (unread_of self.new) line.new }
    {
        for _ in 0..u64::MAX {
            let unread = &self.chunk[self.start..self.end];
            if let Some(end) = memchr(b'\n', unread) {
                line.extend(&unread[..end]);
                self.start += end + 1;
                return Ok(Ending::Line);
            }
            line.extend(unread);
            self.start = 0;
            self.end = 0;
            match reader.read(&mut self.chunk) {
                Ok(0) => return Ok(ending_of(line)),
                Ok(count) => self.end = count,
                Err(_) => return Err(ServeFault::Read),
            }
        }
        Err(ServeFault::Read)
    }
}

/// How an input ends whose last bytes are this line.
fn ending_of(line: &Line) -> Ending
    ensures { result ≡ ending_at line.now.is_empty }
{
    if line.is_empty {
        return Ending::Input;
    }
    Ending::HalfLine
}
