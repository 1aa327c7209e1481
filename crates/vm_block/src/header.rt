//! Block 0, which identifies a store.
ghost use Rattle.std.specs.Prelude.{◌≡◌, ◌↔◌, IsTrue};
ghost use Rattle.vm_block.specs.Header.{header_bytes, header_bytes_of, IsEarlierHeader, IsHeader};

use crate::bytes::{put, put_zeros};
use byteorder::{ByteOrder, LittleEndian};
use vm_types::{BLOCK_SIZE, Block};

/// The number of the format of a store. The header has it, and so has the head of each slot.
pub const FORMAT: u32 = 3;

/// Writes the header of a store of the format with this number.
fn write_header_of(format: u32, out: &mut Block)
    ensures { out.new ≡ header_bytes_of format }
{
    put(b"ALTSTORE", out);
    LittleEndian::write_u32(&mut out[8..], format);
    LittleEndian::write_u32(&mut out[12..], BLOCK_SIZE as u32);
    put_zeros(&mut out[16..]);
}

/// Writes the header of a store.
pub fn write_header(out: &mut Block)
    ensures { out.new ≡ header_bytes }
{
    write_header_of(FORMAT, out);
}

/// Whether the block is the header of a store of the format with this number.
fn is_header_of(format: u32, bytes: &Block) -> bool
    ensures { IsTrue result ↔ (bytes.now ≡ header_bytes_of format) }
{
    let mut header = [0; 4096];
    write_header_of(format, &mut header);
    *bytes == header
}

/// Whether the block is the header of a store.
pub fn is_header(bytes: &Block) -> bool
    ensures { IsTrue result ↔ IsHeader bytes.now }
{
    is_header_of(FORMAT, bytes)
}

/// Whether the block is the header of a store of an earlier format, which this program does not
/// read.
pub fn is_earlier_header(bytes: &Block) -> bool
    ensures { IsTrue result ↔ IsEarlierHeader bytes.now }
{
    is_header_of(1, bytes) || is_header_of(2, bytes)
}
