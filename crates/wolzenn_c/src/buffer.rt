//! Copies to the buffers of a C program.

ghost use Rattle.std.specs.Prelude.{◌≡◌, ◌≤◌, length};
ghost use Rattle.wolzenn_c.specs.Buffers.{begun_with, Copies};

use crate::codes::{DONE, SMALL};

/// Copies bytes to the start of a buffer, if it has room for them.
pub fn copy_to(bytes: &[u8], buffer: &mut [u8]) -> u32
    ensures { Copies bytes.now buffer.old result buffer.new }
{
    if buffer.len() < bytes.len() {
        return SMALL;
    }
    put(bytes, buffer);
    DONE
}

/// Copies bytes to the start of a buffer, which has room for them.
pub fn put(bytes: &[u8], buffer: &mut [u8])
    requires { length bytes.now ≤ length buffer.old }
    ensures { buffer.new ≡ begun_with bytes.now buffer.old }
{
    buffer[..bytes.len()].copy_from_slice(bytes);
}
