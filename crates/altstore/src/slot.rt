//! A handle, as C keeps it.
ghost use Rattle.std.specs.Prelude.{◌≡◌, None, Some, IsSome, false, true};

use crate::held::Held;

/// A handle: closed, or with a session behind it. All zeros is a closed one.
#[repr(C)]
pub struct Slot {
    pub(crate) is_open: bool,
    pub(crate) held: Held,
    ghost tied: { is_open ≡ true → IsSome held.value },
}
