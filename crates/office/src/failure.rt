// What fails with a file is said on standard error, with the system's words.
use std::io::Error;
use system::{got, say_of};

// Says that a file was not read to its end: a read of it has failed, and the next one has not.
pub(crate) fn say_unread(name: &[u8]) {
    say_of(name, "it could not be read to its end: try again");
}

// Whether it is done; else what failed is said.
pub(crate) fn is_done(name: &[u8], done: Result<(), Error>) -> bool {
    got(name, done).is_some()
}
