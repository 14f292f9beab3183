// What the files of answers hold: little-endian words, rows, and parts that may be cut.
ghost use Rattle.std.specs.Prelude.{◌≡◌, ◌-◌, take, drop};

use std::io::Read;
use system::read_full;

// The next N bytes of a file; zeros where it has ended.
pub fn next_bytes<const N: usize>(file: &mut impl Read) -> [u8; N] {
    let mut bytes = [0u8; N];
    read_full(file, &mut bytes);
    bytes
}

// The next word of a file; 0 where it has ended.
pub fn next(file: &mut impl Read) -> u32 {
    u32::from_le_bytes(next_bytes(file))
}

// The same as a length or a place.
pub fn next_size(file: &mut impl Read) -> usize {
    next(file) as usize
}

// The bytes of s from a on and before e, those that are there.
pub fn part(s: &[u8], a: usize, e: usize) -> &[u8]
    ensures { result.now ≡ take (e - a) (drop a s.now) }
{
    let e = e.min(s.len());
    &s[a.min(e)..e]
}
