//! A descriptor that C has opened.

use std::io::{Error, ErrorKind, Read, Result, Write};

/// A descriptor that is read and written in sequence, and never closed here. A failed read counts
/// as the end.
#[derive(Drop)]
pub struct Descriptor {
    pub fd: i32,
}

impl Read for Descriptor {
    fn read(&mut self, buf: &mut [u8]) -> Result<usize> {
        Ok(io::read_full(self.fd, buf))
    }
}

impl Write for Descriptor {
    fn write(&mut self, buf: &[u8]) -> Result<usize> {
        if io::write_all(self.fd, buf) {
            Ok(buf.len())
        } else {
            Err(Error::from(ErrorKind::Other))
        }
    }

    fn flush(&mut self) -> Result<()> {
        Ok(())
    }
}
