// The files that showings are made from: a year file, or an F2 record and a month file.
ghost use Rattle.std.specs.Prelude.{◌+◌, ◌≤◌, length, IfSome};
ghost use Rattle.io.specs.Counts.{IsPrefixLen};

use crate::failure::say_unread;
use crate::name::{NAME, argument};
use listing::spoken::SPOKEN;
use packing::YEAR_MOST;
use sitting::{Heard, Sitting, hear};
use std::io::Read;
use std::rt::{Env, Files};
use system::{got, opened, read_full, say_of};
use worksheet::showing::Lent;

// What is lent to each call of a journal: a year file, or a record and a month file.
#[derive(Clone, Copy)]
pub(crate) struct Source<'a> {
    pub lent: Lent,
    pub a: &'a [u8],
    pub b: &'a [u8],
}

impl<'a> Source<'a> {
    // Hears line `number` of a journal over these files.
    pub(crate) fn hear(
        self,
        sitting: Sitting,
        line: &[u8],
        number: u64,
        text: &mut [u8; SPOKEN],
    ) -> Heard
        ensures { IsPrefixLen result.size text.new }
    {
        hear(sitting, line, number, self.lent, self.a, self.b, text)
    }
}

// Reads an input into a buffer, and gives how many bytes it has; none where it is not read to its
// end, which is said. Where there is more, it does not fit, which `say_long` says, or, where the
// buffer is not full, a read before the last one has failed.
pub(crate) fn read_whole<F: Fn()>(
    input: &mut impl Read,
    name: &[u8],
    buffer: &mut [u8],
    say_long: F,
) -> Option<usize>
    requires { F.IsAlwaysCallable say_long }
    ensures { IfSome result (λ n. n ≤ length buffer.old) }
{
    let n = read_full(input, buffer);
    let mut more = [0u8; 1];
    if got(name, input.read(&mut more))? == 0 {
        return Some(n);
    }
    if n == buffer.len() {
        say_long();
    } else {
        say_unread(name);
    }
    None
}

// The file that argument i names, at the start of a buffer, and how many bytes it has.
fn read_file(rt: &(impl Files + Env), i: usize, buffer: &mut [u8]) -> Option<usize>
    ensures { IfSome result (λ n. n ≤ length buffer.old) }
{
    let mut name = [0u8; NAME];
    let name = argument(rt, i, &mut name)?;
    let mut file = opened(rt, name)?;
    read_whole(&mut file, name, buffer, || {
        say_of(
            name,
            "too long: desk takes files of at most 1048576 bytes, a pair's together",
        )
    })
}

fn load_pair<'a>(rt: &(impl Files + Env), buffer: &'a mut [u8]) -> Option<Source<'a>>
    ensures { IfSome result (λ s. length s.a.now + length s.b.now ≤ length buffer.old) }
{
    let first = read_file(rt, 3, buffer)?;
    let second = read_file(rt, 4, &mut buffer[first..])?;
    let (a, rest) = buffer.split_at(first);
    Some(Source {
        lent: Lent::Pair,
        a,
        b: &rest[..second],
    })
}

fn load_year<'a>(rt: &(impl Files + Env), buffer: &'a mut [u8]) -> Option<Source<'a>>
    ensures { IfSome result (λ s. length s.a.now + length s.b.now ≤ length buffer.old) }
{
    let n = read_file(rt, 3, buffer)?;
    Some(Source {
        lent: Lent::Year,
        a: &buffer[..n],
        b: b"",
    })
}

// The year file that argument 3 names, or, where a pair is meant, the record and the month file
// that it and the next one name.
pub(crate) fn load<'a>(
    rt: &(impl Files + Env),
    pair: bool,
    buffer: &'a mut [u8; YEAR_MOST],
) -> Option<Source<'a>>
    ensures { IfSome result (λ s. length s.a.now + length s.b.now ≤ 1048576) }
{
    // `pair` and no enum: the public `run`, `say` and `audit` take it so.
    if pair {
        load_pair(rt, buffer)
    } else {
        load_year(rt, buffer)
    }
}
