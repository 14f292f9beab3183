// What reaches outside a program, over std and its handles: arguments, files by name, the system's
// words for a failure, the process and its host, a short rest. What is open is read, written,
// measured and put on its device by std's own traits.
#![tactic(auto)]

mod arguments;
mod errors;
mod files;
mod printing;
mod process;
mod streams;
mod text;

pub use arguments::{arg, arg_count, argument, is_arg};
pub use errors::{error_text, fail, got, is_invalid, is_missing, is_taken};
pub use files::{create, is_link, open_append, open_read, open_update, opened, read_full, remove};
pub use printing::{print, print_line};
pub use process::{host_name, process_number, rest};
pub use streams::{STDERR, STDIN, STDOUT, Stream, say, say_of, say_pieces};
pub use text::{join, newline_in, written};
