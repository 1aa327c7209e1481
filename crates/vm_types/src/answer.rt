//! What an accepted command is answered.

/// The answer to a command that was accepted.
#[derive(Clone, Copy, Debug, PartialEq, Eq, Hash)]
pub enum Answer {
    Done,
    /// The answer to a Merge, with the number of records that it changed in the alternative.
    Merged(usize),
}
