//! A key in its 10 bytes.
ghost use Rattle.std.specs.Prelude.{◌≡◌, ◌≤◌, ◌++◌, length, take, drop};
ghost use Rattle.vm_types.specs.Places.{KeyFits};
ghost use Rattle.vm_block.specs.Leaf.{key_bytes};

use byteorder::{ByteOrder, LittleEndian};
use vm_types::Key;

pub(crate) fn write_key(key: Key, out: &mut [u8])
    requires { 10 ≤ length out.old }
    ensures { out.new ≡ key_bytes key ++ drop 10 out.old }
{
    LittleEndian::write_u16(out, key.table);
    LittleEndian::write_u64(&mut out[2..], key.number);
}

pub(crate) fn read_key(bytes: &[u8]) -> Key
    requires { 10 ≤ length bytes.now }
    ensures spelled { take 10 bytes.now ≡ key_bytes result }
    ensures fits { KeyFits result }
{
    Key {
        table: LittleEndian::read_u16(bytes),
        number: LittleEndian::read_u64(&bytes[2..]),
    }
}
