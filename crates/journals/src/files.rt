// A file, piece by piece.
ghost use Rattle.std.specs.Prelude.{◌≤◌};

use std::io::Read;
use system::read_full;

// The most bytes that the calls of a journal have, and a wanted text.
pub const CALLS: usize = 1024;

pub const WANTED: usize = 32768;

// The next n bytes of a file, at the start of a buffer.
pub fn bytes(file: &mut impl Read, n: usize) -> [u8; WANTED]
    requires { n ≤ 32768 }
{
    let mut buffer = [0u8; WANTED];
    read_full(file, &mut buffer[..n]);
    buffer
}
