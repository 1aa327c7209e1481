//! Devices that fail at each of their calls in turn, and disks with blocks that no store wrote.
mod changes;
mod commands;
mod damage;
mod halts;
mod image;
mod layers;
mod reader;
mod runs;
mod states;
mod stops;

use testkit::top;
use vm_types::Name;

/// The minimum number of blocks of a store.
const BLOCKS: u32 = 64;

/// How many blocks a grown store has. Disks have room for that many.
const GROWN_BLOCKS: u32 = 80;

/// A name, or `top` if the bytes are not one.
fn name(bytes: &[u8]) -> Name {
    Name::new(bytes).unwrap_or(top())
}
