//! An input and outputs that may fail.

use std::alloc::Global;
use std::io::{self, ErrorKind, Read, Write};

/// Gives its bytes, and then ends or fails.
#[derive(Drop)]
pub struct Input<'a> {
    pub bytes: &'a [u8],
    pub fails: bool,
}

impl Read for Input<'_> {
    fn read(&mut self, buf: &mut [u8]) -> io::Result<usize> {
        if self.fails && self.bytes.is_empty() {
            return Err(io::Error::from(ErrorKind::Other));
        }
        self.bytes.read(buf)
    }
}

/// Keeps what it takes. If its room is limited, it takes one byte at a time, and then none. If its
/// flushes are limited, it keeps a bar for each, and then they fail.
#[derive(Drop)]
pub struct Output {
    pub taken: Vec<u8>,
    pub room: Option<usize>,
    pub flushes: Option<usize>,
}

impl Output {
    pub(crate) fn new(alloc: Global) -> Output {
        Output {
            taken: Vec::new(alloc),
            room: None,
            flushes: None,
        }
    }
}

impl Write for Output {
    fn write(&mut self, buf: &[u8]) -> io::Result<usize> {
        let Some(room) = self.room else {
            self.taken.extend_from_slice(buf)?;
            return Ok(buf.len());
        };
        if self.taken.len() >= room || buf.is_empty() {
            return Ok(0);
        }
        self.taken.push(buf[0])?;
        Ok(1)
    }

    fn flush(&mut self) -> io::Result<()> {
        match self.flushes {
            None => Ok(()),
            Some(0) => Err(io::Error::from(ErrorKind::Other)),
            Some(left) => {
                self.flushes = Some(left - 1);
                self.taken.push(b'|')?;
                Ok(())
            }
        }
    }
}
