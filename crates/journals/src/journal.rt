// The journals: an open and the calls that follow it, answered as `replay` answers them, over one
// pair of files, and over year files as `replay year` does. Of each journal the file has the 14 or
// 15 words, the calls and the wanted text.
ghost use Rattle.std.specs.Prelude.{◌≡◌, ◌≤◌, length};

use crate::files::{CALLS, WANTED, bytes};
use crate::wanted::{is_said, say};
use base::month_file::{MONTH_FILE, RECORD};
use base::refusal::Refusal;
use base::words::word;
use listing::answer::{ANSWER, refusal_text, stopped_text};
use listing::call::{Read, START, YEAR_START, call_in, operation_in, size_of};
use listing::turn::answered;
use maps::inputs::{FIELD_BYTES, SHEET_BYTES};
use packing::YEAR_MOST;
use std::io::Read as Input;
use std::rt::Files;
use system::{opened, read_full};
use tally::{Tally, counted, counted_all, next, next_bytes, next_size, none, print_line};
use worksheet::desks;
use worksheet::desks::{Outcome, Worksheet};
use worksheet::journal::Call;
use worksheet::showing::Lent;

// What stands at a place of the calls, and its size in bytes. `replaying` reads the same of
// standard input, piece by piece.
#[derive(Clone, Copy)]
struct Next {
    read: Read,
    size: usize,
}

// A call cut short, with the bytes that are left.
fn cut_short(left: usize) -> Next
    ensures { result.size ≡ left }
{
    Next {
        read: Read::Bad,
        size: left,
    }
}

// What stands at the start of the calls that are left.
fn next_call(lent: Lent, calls: &[u8]) -> Next
    requires { 1 ≤ length calls.now }
    ensures some { 1 ≤ result.size }
    ensures within { result.size ≤ length calls.now }
{
    let left = calls.len();
    if left < 4 {
        return cut_short(left);
    }
    let operation = operation_in(lent, word(calls, 0));
    let size = 4 + size_of(operation);
    if left < size {
        return cut_short(left);
    }
    Next {
        read: call_in(operation, &calls[4..size]),
        size,
    }
}

// The worksheet that a call leaves, and what is still wanted behind its answer.
fn say_call<'a>(
    w: Worksheet,
    call: Call,
    lent: Lent,
    a: &[u8],
    b: &[u8],
    wanted: &'a [u8],
) -> Option<(Worksheet, &'a [u8])> {
    let mut text = [0u8; ANSWER];
    let turn = answered(w, call, lent, a, b, &mut text);
    let left = say(wanted, &text[..turn.size])?;
    Some((turn.sheet, left))
}

// The line of the byte of an input at which a journal stops.
fn say_stop(wanted: &[u8], at: u64) -> Option<&[u8]> {
    let mut text = [0u8; ANSWER];
    let n = stopped_text(at, &mut text);
    say(wanted, &text[..n])
}

// Call by call, of which the first starts at `start`; what is still wanted behind all that is said.
fn say_calls<'a>(
    w: Worksheet,
    calls: &[u8],
    lent: Lent,
    a: &[u8],
    b: &[u8],
    start: u32,
    wanted: &'a [u8],
) -> Option<&'a [u8]>
    requires { length calls.now ≤ 1024 }
{
    let mut w = w;
    let mut wanted = wanted;
    let mut rest = calls;
    // No `for`: by how much a turn goes on is what the call before it says.
    while !rest.is_empty() {
        let next = next_call(lent, rest);
        match next.read {
            Read::Call(call) => {
                let (sheet, left) = say_call(w, call, lent, a, b, wanted)?;
                w = sheet;
                wanted = left;
            }
            Read::Bad => {
                let from = calls.len() - rest.len();
                return say_stop(wanted, u64::from(start) + from as u64);
            }
            Read::End => return Some(wanted),
        }
        rest = &rest[next.size..];
    }
    Some(wanted)
}

fn say_refusal(why: Refusal, wanted: &[u8]) -> Option<&[u8]> {
    let mut text = [0u8; ANSWER];
    let n = refusal_text(why, &mut text);
    say(wanted, &text[..n])
}

fn opened_as(lent: Lent, words: &[u8]) -> Outcome {
    match lent {
        Lent::Pair => desks::sheet_opened(words),
        Lent::Year => desks::opened(words),
    }
}

fn is_replay(
    words: &[u8],
    calls: &[u8],
    lent: Lent,
    a: &[u8],
    b: &[u8],
    start: u32,
    wanted: &[u8],
) -> bool
    requires { length calls.now ≤ 1024 }
{
    let o = opened_as(lent, words);
    let left = match o.answer {
        Ok(()) => say_calls(o.sheet, calls, lent, a, b, start, wanted),
        Err(why) => say_refusal(why, wanted),
    };
    is_said(left)
}

// The bytes of the words that open a journal.
fn words_size(lent: Lent) -> usize
    ensures { result ≤ 60 }
{
    match lent {
        Lent::Pair => SHEET_BYTES,
        Lent::Year => FIELD_BYTES,
    }
}

// The next journal of the file.
fn is_journal(file: &mut impl Input, lent: Lent, files: &[u8], month: &[u8], start: u32) -> bool {
    let n = words_size(lent);
    let words = bytes(file, n);
    let c = next_size(file);
    if c > CALLS {
        return false;
    }
    let calls = bytes(file, c);
    let o = next_size(file);
    if o > WANTED {
        return false;
    }
    let text = bytes(file, o);
    is_replay(
        &words[..n],
        &calls[..c],
        lent,
        files,
        month,
        start,
        &text[..o],
    )
}

fn replay_all(file: &mut impl Input) {
    let count = next(file);
    let record = next_bytes::<RECORD>(file);
    let month = next_bytes::<MONTH_FILE>(file);
    let t = counted_all(none(), count, || {
        is_journal(file, Lent::Pair, &record, &month, START)
    });
    print_line(b"journals", t);
}

// The journals over a year file, whose bytes are the file's next.
fn replay_over(file: &mut impl Input, t: Tally, year: &mut [u8]) -> Tally
    requires { length year.old ≤ 1048576 }
{
    read_full(file, year);
    let start = YEAR_START + year.len() as u32;
    let count = next(file);
    let year: &[u8] = year;
    counted_all(t, count, || is_journal(file, Lent::Year, year, b"", start))
}

// The journals over the next year file, which is read into a buffer.
fn replay_in(file: &mut impl Input, t: Tally, year: &mut [u8]) -> Tally
    requires { length year.old ≤ 1048576 }
{
    let size = next_size(file);
    if year.len() < size {
        return counted(t, false);
    }
    replay_over(file, t, &mut year[..size])
}

// Of a reference to an array the length is known to a proof, where that of so large an array in a
// local is not.
fn replay_with(file: &mut impl Input, t: Tally, year: &mut [u8; YEAR_MOST]) -> Tally {
    replay_in(file, t, year)
}

fn replay_next(file: &mut impl Input, t: Tally) -> Tally {
    let mut year = [0u8; YEAR_MOST];
    replay_with(file, t, &mut year)
}

fn replay_years(file: &mut impl Input) {
    let mut t = none();
    for _ in 0..next(file) {
        t = replay_next(file, t);
    }
    print_line(b"journals over a year", t);
}

pub fn replay(rt: &impl Files) {
    if let Some(mut file) = opened(rt, b"journals.bin") {
        replay_all(&mut file);
    }
    if let Some(mut file) = opened(rt, b"year-journals.bin") {
        replay_years(&mut file);
    }
}
