//! The numbers with which calls say how they ended.
ghost use Rattle.std.specs.Prelude.{◌≡◌};
ghost use Rattle.altstore.specs.Outcomes.{asked_code};

use vm_cli::ServeFault;

/// Everything was done.
pub const DONE: u32 = 0;
/// There is no store behind the handle.
pub const CLOSED: u32 = 101;
/// There already is a store behind the handle.
pub const OPEN: u32 = 102;
/// The image could not be read.
pub const UNREAD: u32 = 103;
/// The image could not be written.
pub const UNWRITTEN: u32 = 104;
/// A line was refused, and its answer says why.
pub const LINE_REFUSED: u32 = 105;

/// Memory for the answers, the image or the store could not be allocated: the number of that
/// refusal.
pub const MEMORY: u32 = 16;
/// The store had already failed, or failed in the call: the number of that refusal.
pub const FAILED: u32 = 17;

/// How a call that passed lines ended.
pub fn asked(asked: &Result<bool, ServeFault>) -> u32
    ensures { result ≡ asked_code asked.now }
{
    match asked {
        Ok(false) => DONE,
        Ok(true) => LINE_REFUSED,
        Err(ServeFault::Refused) => LINE_REFUSED,
        Err(ServeFault::Write) => MEMORY,
        Err(ServeFault::Store) => FAILED,
        Err(ServeFault::Read) => UNREAD,
        Err(ServeFault::Unsure) => FAILED,
    }
}
