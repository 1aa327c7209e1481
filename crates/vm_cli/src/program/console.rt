//! Help for whoever types lines on a terminal: a prompt, and the help of `altctl run` for the word
//! `help`.
//!
//! Both are written only to the standard error, and no contract says what is written there. If the
//! standard input or error is not a terminal, the input is passed on as it is.

use crate::program::help;
use crate::program::progress::Cleared;
use std::io::{self, IsTerminal, Read, Write};

/// The prompt for a line.
const PROMPT: &[u8] = b"> ";

/// The line that asks for help.
const HELP: &[u8] = b"help\n";

/// The standard input, from a terminal or not.
#[derive(Drop)]
pub struct Console<'a, S> {
    input: Cleared<'a, S>,
    terminal: Option<HostRuntime>,
}

impl<'a, S: IsTerminal> Console<'a, S> {
    /// The input of the program. There is a prompt if it and the standard error are terminals.
    pub fn new(rt: &HostRuntime, input: Cleared<'a, S>) -> Console<'a, S> {
        let terminal = if input.is_terminal() && rt.stderr().is_terminal() {
            Some(*rt)
        } else {
            None
        };
        Console { input, terminal }
    }
}

impl<S: Read> Read for Console<'_, S> {
    fn read(&mut self, buf: &mut [u8]) -> io::Result<usize> {
        let Some(rt) = &self.terminal else {
            return self.input.read(buf);
        };
        self.input.clear();
        let _ = rt.stderr().write(PROMPT);
        let count = self.input.read(buf)?;
        if count == 0 {
            // The input ends after a prompt, whose line has no end yet.
            let _ = rt.stderr().write(b"\n");
            return Ok(0);
        }
        if &buf[..count] != HELP {
            return Ok(count);
        }
        let _ = rt.stderr().write_all(help::RUN_AFTER.as_bytes());
        let _ = rt.stderr().write(b"\n");
        // An empty line takes its place. It has no answer.
        buf[0] = b'\n';
        Ok(1)
    }
}
