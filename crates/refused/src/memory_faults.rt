//! What was refused for lack of memory, and what is wrong.
use std::alloc::AllocError;

/// Why the commands are not carried out to the end.
#[derive(Clone, Copy, Debug)]
pub enum Wrong {
    /// They must be started over.
    Again,
    /// This is not as it should be.
    Found(&'static str),
}

impl From<AllocError> for Wrong {
    fn from(_: AllocError) -> Wrong {
        Wrong::Again
    }
}

/// What was last refused for lack of memory, and how many refusals there were.
#[derive(Clone, Copy, Debug)]
pub struct Wanting {
    pub what: &'static str,
    pub times: u32,
}

impl Default for Wanting {
    fn default() -> Wanting {
        Wanting { what: "", times: 0 }
    }
}

impl Wanting {
    pub(crate) fn is_none(&self) -> bool {
        self.times == 0
    }

    pub(crate) fn note(&mut self, what: &'static str) {
        self.what = what;
        self.times = self.times.saturating_add(1);
    }
}
