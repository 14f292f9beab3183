// What the system says of a failure.
ghost use Rattle.std.specs.Prelude.{◌≡◌, ◌↔◌, IsTrue, IfOk, IfSome};
ghost use Rattle.io.specs.Counts.{IsPrefixLen};
ghost use Rattle.std.specs.IoError.{error_kind};

use crate::streams::say_pieces;
use crate::text::written;
use std::io::{Error, ErrorKind};

// The most bytes of an error's text.
const TEXT: usize = 128;

// The place of the last blank before a bracket, or the text's length where there is none.
fn bracket_place(text: &[u8]) -> usize
    ensures { IsPrefixLen result text.now }
{
    text.windows(2)
        .rposition(|pair| pair == b" (".as_slice())
        .unwrap_or(text.len())
}

// The system's words for an error at the start of buf, and their length; what std itself refuses is
// told in std's words. Std puts the system's number in brackets behind its words.
pub fn error_text(error: &Error, buf: &mut [u8]) -> usize
    ensures { IsPrefixLen result buf.new }
{
    let n = written(error, buf);
    match error.raw_os_error() {
        Some(_) => bracket_place(&buf[..n]),
        None => n,
    }
}

// Writes a line to standard error: what failed, as the caller names it, a colon and the error's
// text.
pub fn fail(what: &[u8], error: &Error) {
    let mut text = [0u8; TEXT];
    let n = error_text(error, &mut text);
    say_pieces(&[what, b": ", &text[..n]]);
}

// What came of it, unless it failed: then that is said, as `fail` says it.
pub fn got<T>(what: &[u8], done: Result<T, Error>) -> Option<T>
    ensures none_made { IfSome result (λ value. done ≡ Ok value) }
    ensures none_lost { IfOk done (λ value. result ≡ Some value) }
{
    match done {
        Ok(value) => Some(value),
        Err(error) => {
            fail(what, &error);
            None
        }
    }
}

// Whether there is no such file (ENOENT).
pub fn is_missing(error: &Error) -> bool
    ensures { IsTrue result ↔ (error_kind error.now ≡ ErrorKind.NotFound) }
{
    error.kind() == ErrorKind::NotFound
}

// Whether there is such a file already (EEXIST).
pub fn is_taken(error: &Error) -> bool
    ensures { IsTrue result ↔ (error_kind error.now ≡ ErrorKind.AlreadyExists) }
{
    error.kind() == ErrorKind::AlreadyExists
}

// Whether the system has no such thing for this file (EINVAL).
pub fn is_invalid(error: &Error) -> bool
    ensures { IsTrue result ↔ (error_kind error.now ≡ ErrorKind.InvalidInput) }
{
    error.kind() == ErrorKind::InvalidInput
}
