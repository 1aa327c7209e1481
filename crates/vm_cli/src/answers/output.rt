//! Bytes on their way to a writer.
ghost use Rattle.std.specs.Io.KnownBytes.{Keeps};
ghost use Rattle.vm_cli.specs.answers.Carried.{Gains};
ghost use Rattle.std.specs.Prelude.{◌≡◌, ℕ, OnErr, OnOk, take};

use std::io::Write;

/// The writer failed, took no byte of what was left, or could not be flushed.
#[derive(Clone, Copy, Debug, PartialEq, Eq)]
pub struct WriteFault;

/// Writes all the bytes. Unlike `write_all` it treats an interrupted call as a failure, and its
/// contract says what was written before one.
pub(crate) fn put_all<W: Write>(writer: &mut W, bytes: &[u8]) -> Result<(), WriteFault>
    ensures ok { OnOk result (Gains W.contents bytes.now writer.old writer.new) }
    ensures err { OnErr result ((k : ℕ) × Gains W.contents (take k bytes.now) writer.old writer.new) }
{
    let mut rest = bytes;
    while !rest.is_empty() {
        let Ok(count) = writer.write(rest) else {
            return Err(WriteFault);
        };
        if count == 0 {
            return Err(WriteFault);
        }
        rest = &rest[count..];
    }
    Ok(())
}

/// Flushes what the writer still holds.
pub(crate) fn flush<W: Write>(writer: &mut W) -> Result<(), WriteFault>
    ensures { Keeps (W.contents writer.old) (W.contents writer.new) }
{
    match writer.flush() {
        Ok(()) => Ok(()),
        Err(_) => Err(WriteFault),
    }
}
