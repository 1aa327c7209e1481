//! Why a test has no result, or another one than expected.
use std::alloc::{AllocError, AllocFailed};
use std::fmt;
use std::num::ParseIntError;
use std::str::Utf8Error;
use vm_disk::DeviceFault;
use vm_types::{Answer, Refusal};

/// The answer to a command.
pub type Reply = Result<Answer, Refusal>;

/// What went wrong.
#[derive(Clone, Copy, Debug, PartialEq, Eq)]
pub enum Wrong {
    /// Memory for the test itself could not be allocated.
    Memory,
    /// A device call of the test itself failed.
    Device,
    /// The words of a step mean nothing.
    Unreadable,
    /// A call was refused that should have been served.
    Refused(Refusal),
    /// A command was answered with the first, and not with the second, which was expected.
    Answer(Reply, Reply),
    /// Something else is shown than expected.
    Shown,
    /// The same, for a test that counts: this is its number.
    Differs(u32),
    /// A store is shown where there should be none, or none where there should be one.
    NoStore,
    /// The store does not have this number of blocks.
    Blocks(u32),
    /// The store does not have this number of free blocks.
    Free(u32),
    /// The device failed, and no call answered so.
    Hidden,
}

impl From<AllocError> for Wrong {
    fn from(_: AllocError) -> Wrong {
        Wrong::Memory
    }
}

/// Lets a test's function end with `list.push(item)?`.
impl<T: Drop> From<AllocFailed<T>> for Wrong {
    fn from(_: AllocFailed<T>) -> Wrong {
        Wrong::Memory
    }
}

impl From<fmt::Error> for Wrong {
    fn from(_: fmt::Error) -> Wrong {
        Wrong::Memory
    }
}

impl From<ParseIntError> for Wrong {
    fn from(_: ParseIntError) -> Wrong {
        Wrong::Unreadable
    }
}

impl From<Utf8Error> for Wrong {
    fn from(_: Utf8Error) -> Wrong {
        Wrong::Unreadable
    }
}

impl From<DeviceFault> for Wrong {
    fn from(_: DeviceFault) -> Wrong {
        Wrong::Device
    }
}

impl From<Refusal> for Wrong {
    fn from(refusal: Refusal) -> Wrong {
        Wrong::Refused(refusal)
    }
}

/// What `open` and `format` return when they refuse: the disk comes back, and the test ends.
impl<D: Drop> From<(D, Refusal)> for Wrong {
    fn from(refused: (D, Refusal)) -> Wrong {
        Wrong::Refused(refused.1)
    }
}
