// An input line by line, in a buffer of fixed size. A line ends with a newline: bytes after
// the last one are no line.
ghost use Rattle.std.specs.Prelude.{◌≡◌, ◌+◌, ◌<◌, ◌≤◌};

use crate::saying::{say_line, say_long};
use std::io::Read;
use system::newline_in;

// A line with its newline fits, unless it is too long.
const CHUNK: usize = 65536;

// More turns than any run takes.
const TURNS: u64 = 0x100_0000_0000;

// How many lines there were, and which part of the buffer comes next.
#[derive(Clone, Copy)]
struct Place {
    lines: u64,
    from: usize,
    to: usize,
    // Whether the start of the next line was dropped, since the line does not fit.
    long: bool,
    ghost in_order: { from ≤ to },
    ghost in_buffer: { to ≤ 65536 },
}

// The next line, of `size` bytes, is said; of one whose start was dropped only that. Whether it
// could be written.
fn line_turn(place: &mut Place, out: &impl Print, buffer: &[u8; CHUNK], size: usize) -> bool
    requires { place.old.from + size < place.old.to }
    ensures next { place.old.lines < 1099511627776 → place.new.lines ≡ place.old.lines + 1 }
    ensures most { place.new.lines ≤ place.old.lines + 1 }
{
    let end = place.from + size;
    let line = &buffer[place.from..end];
    let long = place.long;
    place.lines = place.lines.saturating_add(1);
    place.from = end + 1;
    place.long = false;
    if long {
        say_long(out).is_ok()
    } else {
        say_line(out, line, place.lines).is_ok()
    }
}

// No line is whole: what there is of the next one moves to the start of the buffer, and more is
// read behind it, unless it fills the buffer: then the line is too long, and its start is dropped.
// Whether more came: not where the input has ended or the read fails.
fn fill_turn(place: &mut Place, input: &mut impl Read, buffer: &mut [u8; CHUNK]) -> bool
    ensures { place.new.lines ≡ place.old.lines }
{
    let n = place.to - place.from;
    buffer.copy_within(place.from..place.to, 0);
    let kept = if n < CHUNK { n } else { 0 };
    let size = input.read(&mut buffer[kept..]).unwrap_or(0);
    place.from = 0;
    place.to = kept + size;
    place.long = place.long || n == CHUNK;
    size > 0
}

// Whether there may be more lines.
fn turn(
    place: &mut Place,
    input: &mut impl Read,
    out: &impl Print,
    buffer: &mut [u8; CHUNK],
) -> bool
    ensures { place.new.lines ≤ place.old.lines + 1 }
{
    match newline_in(&buffer[place.from..place.to]) {
        Some(size) => line_turn(place, out, buffer, size),
        None => fill_turn(place, input, buffer),
    }
}

// Says what each line is. Nothing says that the input ends, so the turns are counted.
pub(crate) fn say_all(input: &mut impl Read, out: &impl Print, buffer: &mut [u8; CHUNK]) {
    let mut place = Place {
        lines: 0,
        from: 0,
        to: 0,
        long: false,
    };
    for _ in 0..TURNS {
        if !turn(&mut place, input, out, buffer) {
            return;
        }
    }
}
