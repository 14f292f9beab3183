// The sheets: inputs good and bad, damaged, cut short or longer than needed, answered as `sheet`
// answers them. Of each case the file has the 14 words, what is made of its record and month file,
// and the wanted text.
ghost use Rattle.std.specs.Prelude.{◌≤◌};

use crate::files::{WANTED, bytes};
use base::month_file::{MONTH_FILE, RECORD};
use listing::answer::ANSWER;
use listing::sheet::sheet_answer;
use maps::inputs::SHEET_BYTES;
use std::io::Read;
use std::rt::Files;
use system::{opened, read_full};
use tally::{counted_all, next, next_size, none, part, print_line};

// The bytes of a record and its month file, and of the longest input: the words, the two files and
// more.
pub const PAIR: usize = RECORD + MONTH_FILE;

const INPUT: usize = SHEET_BYTES + PAIR + 1000;

// Where the month file starts in an input whose record is whole.
const MONTH_START: usize = SHEET_BYTES + RECORD;

// What `sheet` makes of an input.
fn is_answer(input: &[u8], wanted: &[u8]) -> bool {
    let mut text = [0u8; ANSWER];
    let words = part(input, 0, SHEET_BYTES);
    let record = part(input, SHEET_BYTES, MONTH_START);
    let month = part(input, MONTH_START, INPUT);
    let n = sheet_answer(words, record, month, &mut text);
    &text[..n] == wanted
}

// An input with the next bytes of a file from a on and before e.
fn filled(file: &mut impl Read, input: [u8; INPUT], a: usize, e: usize) -> [u8; INPUT]
    requires a_le_e { a ≤ e }
    requires e_bound { e ≤ 47512 }
{
    let mut input = input;
    read_full(file, &mut input[a..e]);
    input
}

fn skip(file: &mut impl Read, n: usize)
    requires { n ≤ 7904 }
{
    let mut over = [0u8; RECORD];
    read_full(file, &mut over[..n]);
}

// An input with the first r bytes of the record after its words, then the month file. They are read
// anew from the file's start, where they follow its first word.
fn with_files(rt: &impl Files, input: [u8; INPUT], r: usize) -> [u8; INPUT]
    requires { r ≤ 7904 }
{
    let Some(mut file) = opened(rt, b"sheets-in.bin") else {
        return input;
    };
    skip(&mut file, 4);
    let with_record = filled(&mut file, input, SHEET_BYTES, SHEET_BYTES + r);
    skip(&mut file, RECORD - r);
    filled(
        &mut file,
        with_record,
        SHEET_BYTES + r,
        SHEET_BYTES + MONTH_FILE + r,
    )
}

// An input with a byte of its month file changed, where there is such a byte.
fn with_change(input: [u8; INPUT], r: usize, changed: usize, b: u8) -> [u8; INPUT]
    requires { r ≤ 7904 }
{
    let mut input = input;
    if changed < MONTH_FILE {
        input[SHEET_BYTES + r + changed] = b;
    }
    input
}

// The next case of the file. Past its month file an input has aa.
fn is_case(rt: &impl Files, file: &mut impl Read) -> bool {
    let words = filled(file, [0xaau8; INPUT], 0, SHEET_BYTES);
    let r = next_size(file);
    // The month file's length, which the whole length gives.
    next(file);
    let changed = next_size(file);
    let b = (next(file) % 256) as u8;
    let n = next_size(file);
    let o = next_size(file);
    if r > RECORD || o > WANTED {
        return false;
    }
    let text = bytes(file, o);
    let input = with_change(with_files(rt, words, r), r, changed, b);
    is_answer(part(&input, 0, n), part(&text, 0, o))
}

fn replay_all(rt: &impl Files, file: &mut impl Read) {
    let count = next(file);
    let mut over = [0u8; PAIR];
    read_full(file, &mut over);
    let t = counted_all(none(), count, || is_case(rt, file));
    print_line(b"sheets", t);
}

pub fn replay(rt: &impl Files) {
    if let Some(mut file) = opened(rt, b"sheets-in.bin") {
        replay_all(rt, &mut file);
    }
}
