// The calls of standard input, read as they come. The program `journals` reads calls too, of bytes
// that are there already: one reader for both would take a trait with a contract, which is no
// plainer.
ghost use Rattle.std.specs.Prelude.{◌≡◌, ◌≤◌};
ghost use Rattle.base.specs.Words.{word_at};
ghost use Rattle.listing.specs.Calls.{operation_in, call_in};

use base::words::word;
use listing::call::{Read, call_in, operation_in, size_of};
use system::STDIN;
use worksheet::showing::Lent;

// What is read, and its size in bytes.
#[derive(Clone, Copy)]
pub struct Next {
    pub read: Read,
    pub size: usize,
}

fn operation_of(lent: Lent, head: &[u8; 4]) -> u32
    ensures { result ≡ operation_in lent (word_at head.now 0) }
{
    operation_in(lent, word(head, 0))
}

// The rest of a call, whose first word has been read.
fn rest_call(operation: u32) -> Next
    ensures { result.size ≤ 28 }
{
    let mut s = [0u8; 24];
    let n = size_of(operation);
    let got = io::read_full(STDIN, &mut s[..n]);
    let read = if got < n {
        Read::Bad
    } else {
        from_rest(operation, &s)
    };
    Next { read, size: 4 + n }
}

fn from_rest(operation: u32, s: &[u8; 24]) -> Read
    ensures { result ≡ call_in operation s.now }
{
    call_in(operation, s)
}

// The next call of an input over what is lent.
pub fn next_call(lent: Lent) -> Next
    ensures { result.size ≤ 28 }
{
    let mut head = [0u8; 4];
    match io::read_full(STDIN, &mut head) {
        0 => Next {
            read: Read::End,
            size: 0,
        },
        1..=3 => Next {
            read: Read::Bad,
            size: 0,
        },
        _ => rest_call(operation_of(lent, &head)),
    }
}
