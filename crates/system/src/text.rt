// Texts in lent buffers: what is put behind what, and where a line ends.
ghost use Rattle.std.specs.Prelude.{◌≡◌, ◌==◌, ◌+◌, ◌-◌, ◌<◌, ◌≤◌, ◌++◌, min, length, take, position, IfSome};
ghost use Rattle.io.specs.Counts.{IsPrefixLen};

use std::fmt::Display;
use std::io::{Cursor, Write};

// A value as it is displayed, at the start of a buffer, and how many bytes of it fit.
pub fn written(value: impl Display + Drop, out: &mut [u8]) -> usize
    ensures { IsPrefixLen result out.new }
{
    let mut rest = Cursor::new(&mut out[..]);
    // What does not fit is left out.
    let _ = write!(rest, "{value}");
    let n = rest.position() as usize;
    n.min(out.len())
}

// Puts the bytes of `piece` after the first n of a text, as far as they fit, and gives the length.
pub fn join(out: &mut [u8], n: usize, piece: &[u8]) -> usize
    ensures in_bounds { IsPrefixLen result out.new }
    ensures size { result ≡ min (n + length piece.now) (length out.old) }
    ensures text { take result out.new ≡ take n out.old ++ take (result - n) piece.now }
{
    let start = n.min(out.len());
    let end = start + piece.len().min(out.len() - start);
    out[start..end].copy_from_slice(&piece[..end - start]);
    end
}

// The place of a text's first newline.
pub fn newline_in(text: &[u8]) -> Option<usize>
    ensures in_bounds { IfSome result (λ n. n < length text.now) }
    ensures place { result ≡ position (λ byte. byte == 10) text.now }
{
    text.iter().position(|byte| *byte == b'\n')
}
