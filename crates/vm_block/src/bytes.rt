//! Bytes put into a block, and the zero bytes after them.
ghost use Rattle.std.specs.Prelude.{◌≡◌, ◌≤◌, ◌++◌, ◌↔◌, length, drop, IsTrue};
ghost use Rattle.vm_block.specs.Padding.{IsFramed, zeros};

/// Copies the bytes to the front.
pub(crate) fn put(bytes: &[u8], out: &mut [u8])
    requires { length bytes.now ≤ length out.old }
    ensures { out.new ≡ bytes.now ++ drop (length bytes.now) out.old }
{
    out[..bytes.len()].copy_from_slice(bytes);
}

/// Makes every byte zero.
pub(crate) fn put_zeros(out: &mut [u8])
    ensures { out.new ≡ zeros (length out.old) }
{
    out.fill(0);
}

/// Whether every byte is zero.
pub(crate) fn are_zero(bytes: &[u8]) -> bool
    ensures { IsTrue result ↔ (bytes.now ≡ zeros (length bytes.now)) }
{
    let mut bits = 0;
    for byte in bytes {
        bits |= *byte;
    }
    bits == 0
}

/// Whether the bytes begin with the head and are zero from `end` on.
pub(crate) fn is_framed(bytes: &[u8], head: &[u8], end: usize) -> bool
    requires { end ≤ length bytes.now }
    ensures { IsTrue result ↔ IsFramed bytes.now head.now end }
{
    bytes.starts_with(head) && are_zero(&bytes[end..])
}
