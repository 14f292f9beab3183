// Names of files: arguments, and names that stand beside a journal's.
ghost use Rattle.std.specs.Prelude.{◌≤◌, length, IfSome};

use std::rt::Env;
use system::{join, say};

// The most bytes of a name with what is put behind it.
pub(crate) const NAME: usize = 4096;

// Argument i as the name of a file, in a buffer; where it is none that is said.
pub(crate) fn argument<'a>(env: &impl Env, i: usize, name: &'a mut [u8; NAME]) -> Option<&'a [u8]>
    ensures { IfSome result (λ text. length text.now ≤ length name.old) }
{
    match system::argument(env, i, name) {
        Ok(0) => say_no_name(i, "empty"),
        Ok(n) => return Some(&name[..n]),
        Err(_) => say_no_name(i, "too long"),
    }
    None
}

// Says what is wrong with the name that argument i is.
fn say_no_name(i: usize, wrong: &str) {
    say(format_args!("argument {i}: the name of a file is {wrong}"));
}

// The name of a file beside another, in a buffer: the same with something put behind it. One that
// does not fit fills the buffer, and no file can have so long a name.
pub(crate) fn beside<'a>(of: &[u8], ending: &[u8], name: &'a mut [u8; NAME]) -> &'a [u8]
    ensures { length result.now ≤ length name.old }
{
    let n = join(name, 0, of);
    let n = join(name, n, ending);
    &name[..n]
}

// Whether a name is just `-`, which stands for standard input.
pub(crate) fn is_dash(name: &[u8]) -> bool {
    name == b"-".as_slice()
}
