// The standard streams.
use crate::text::written;
use std::fmt::Display;
use std::io::{Error, ErrorKind, Result, Write};

// POSIX's numbers of the three.
pub const STDIN: i32 = 0;

pub const STDOUT: i32 = 1;

pub const STDERR: i32 = 2;

// A stream as a writer, by its number, for those who have no handle of it.
#[derive(Clone, Copy)]
pub struct Stream(pub i32);

impl Write for Stream {
    fn write(&mut self, bytes: &[u8]) -> Result<usize> {
        if io::write_all(self.0, bytes) {
            Ok(bytes.len())
        } else {
            Err(Error::from(ErrorKind::WriteZero))
        }
    }

    fn flush(&mut self) -> Result<()> {
        Ok(())
    }
}

// At least the bytes of any line that is said but for the names in it.
const LINE: usize = 512;

// Writes a line to standard error, whole where it fits the buffer, so that programs which share a
// terminal do not part each other's lines. Where that fails there is nobody to tell, here and below.
pub fn say(line: impl Display + Drop) {
    let mut text = [0u8; LINE];
    let n = written(format_args!("{line}\n"), &mut text);
    if n < LINE {
        io::write_all(STDERR, &text[..n]);
    } else {
        let _ = writeln!(Stream(STDERR), "{line}");
    }
}

// Writes a line to standard error, of pieces that need not be text.
pub fn say_pieces(pieces: &[&[u8]]) {
    for piece in pieces {
        io::write_all(STDERR, piece);
    }
    io::write_all(STDERR, b"\n");
}

// Writes a line to standard error: what it is about, a colon and what is said of it.
pub fn say_of(what: &[u8], said: impl Display + Drop) {
    io::write_all(STDERR, what);
    say(format_args!(": {said}"));
}
