//! Which blocks of a store are held and which are free.
//!
//! It stands on `vm_types`, which gives it the sizes of a store, and knows neither a disk nor the
//! contents of a block. Its one promise: `take` returns the lowest block that was not held, and
//! None exactly when all are held. A contract sees `Held`, `Marks` and `Baseline` as one flag per
//! block.
#![tactic(auto)]

mod baseline;
mod flags;
mod held;
mod marks;
mod words;

pub use baseline::Baseline;
pub use held::Held;
pub use marks::Marks;
