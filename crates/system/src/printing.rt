// Printing on standard output.
use crate::errors::got;
use std::fmt::Display;

// Whether all of it could be written to standard output; else what failed is said.
pub fn print(out: &impl Print, text: &[u8]) -> bool {
    got(b"standard output", out.write_all(text)).is_some()
}

// The same of a line.
pub fn print_line(out: &impl Print, line: impl Display + Drop) -> bool {
    got(b"standard output", out.println(line)).is_some()
}
