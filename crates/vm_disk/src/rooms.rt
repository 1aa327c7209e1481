//! Frames for the bytes of blocks, by block number.
ghost use Rattle.std.specs.Prelude.{◌≡◌, ℕ, nat_eq};
ghost use Rattle.std.specs.Bool.{OnTrue};
ghost use Rattle.std.specs.Map.{lookup};
ghost use Rattle.std.specs.Option.{option_copied};
ghost use Rattle.vm_disk.specs.Kept.{first_in, keeps, rooms_in};

use lru::LruCache;
use vm_types::{Block, BlockNumber};

/// A frame: room for the bytes of one block.
pub(crate) type Room = Box<Block>;

/// The bytes of block n, if it is among these.
pub(crate) fn find(rooms: &LruCache<BlockNumber, Room>, n: BlockNumber) -> Option<&Block>
    ensures { option_copied result ≡ lookup (nat_eq n) (rooms_in rooms.now) }
{
    if rooms.is_empty() {
        return None;
    }
    match rooms.peek(&n) {
        Some(room) => Some(&**room),
        None => None,
    }
}

/// Makes block n the most recently used of these, and tells whether it is among them.
pub(crate) fn promote(rooms: &mut LruCache<BlockNumber, Room>, n: BlockNumber) -> bool
    ensures answer { result ≡ keeps n (rooms_in rooms.old) }
    ensures first { OnTrue result
        (first_in (rooms_in rooms.new) ≡ lookup (nat_eq n) (rooms_in rooms.old)) }
    ensures same { (k : ℕ) → lookup (nat_eq k) (rooms_in rooms.new) ≡ lookup (nat_eq k) (rooms_in rooms.old) }
    ensures limit { rooms.new.cap ≡ rooms.old.cap }
{
    if rooms.is_empty() {
        return false;
    }
    rooms.promote(&n)
}

/// The bytes of the most recently used of these.
pub(crate) fn newest(rooms: &LruCache<BlockNumber, Room>) -> Option<&Block>
    ensures { option_copied result ≡ first_in (rooms_in rooms.now) }
{
    let (_, room) = rooms.peek_mru()?;
    Some(room)
}

/// Gives a frame these bytes.
pub(crate) fn fill(room: &mut Room, bytes: &Block)
    ensures { room.new.value ≡ bytes.now }
{
    **room = *bytes;
}
