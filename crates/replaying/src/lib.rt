// The desks' journal: an open and the calls that follow it, from standard input, with the answer to
// each on standard output.
#![tactic(auto)]

mod calls;

ghost use Rattle.std.specs.Prelude.{◌≡◌, List, ◌≤◌, length};
ghost use Rattle.base.specs.Words.{word_at};
ghost use Rattle.worksheet.specs.Showing.{lent_as};
ghost use Rattle.worksheet.specs.Journal.{Call as Called, step, run};
ghost use Rattle.worksheet.specs.Calls.{called};
ghost use Rattle.listing.specs.Turn.{blank};

use base::month_file::{MONTH_FILE, RECORD};
use base::refusal::Refusal;
use base::words::word;
use calls::next_call;
use listing::answer::{ANSWER, refusal_text, stopped_text};
use listing::call::{Read, START, YEAR_START};
use listing::turn::answered;
use maps::inputs::{FIELD_BYTES, SHEET_BYTES};
use packing::YEAR_MOST;
use system::{STDIN, STDOUT};
use worksheet::desks::{Worksheet, opened, sheet_opened};
use worksheet::journal::Call;
use worksheet::showing::Lent;

// More calls than any input has.
const TURNS: u64 = 0x100_0000_0000;

// Answers a call, and hands on the worksheet that it leaves.
fn answer(w: Worksheet, call: Call, lent: Lent, a: &[u8], b: &[u8]) -> Worksheet
    ensures { result ≡ (step (lent_as lent a.now b.now) (called call blank) w).sheet }
{
    let mut text = [0u8; ANSWER];
    let turn = answered(w, call, lent, a, b, &mut text);
    let n = turn.size;
    io::write_all(STDOUT, &text[..n]);
    turn.sheet
}

// The line of a byte where the words are no call.
fn stop(at: u64) {
    let mut text = [0u8; ANSWER];
    let n = stopped_text(at, &mut text);
    io::write_all(STDOUT, &text[..n]);
}

// Call by call, of which the first starts at `start`: the worksheet is always the one that the
// calls read so far leave (the contract says: that some calls leave). Nothing says that the input
// ends, so the turns are counted.
fn answer_all(w: Worksheet, lent: Lent, a: &[u8], b: &[u8], start: u32) -> Worksheet
    ensures { (cs : List Called) × (result ≡ (run (lent_as lent a.now b.now) cs w).sheet) }
{
    let mut w = w;
    let mut at = start as u64;
    for _turn in 0..TURNS {
        let next = next_call(lent);
        match next.read {
            Read::Call(call) => w = answer(w, call, lent, a, b),
            Read::Bad => {
                stop(at);
                return w;
            }
            Read::End => return w,
        }
        at += next.size as u64;
    }
    w
}

fn refuse(why: Refusal) {
    let mut text = [0u8; ANSWER];
    let n = refusal_text(why, &mut text);
    io::write_all(STDOUT, &text[..n]);
}

fn replay_pair(words: &[u8], f2: &[u8], file: &[u8]) {
    let o = sheet_opened(words);
    match o.answer {
        Ok(()) => {
            answer_all(o.sheet, Lent::Pair, f2, file, START);
        }
        Err(why) => refuse(why),
    }
}

// A journal over a pair of files: the 14 words, the F2 record and the month file of `sheet`, then
// calls until the input ends.
pub fn over_pair() {
    let mut words = [0u8; SHEET_BYTES];
    let mut record = [0u8; RECORD];
    let mut month = [0u8; MONTH_FILE];
    let a = io::read_full(STDIN, &mut words);
    let b = io::read_full(STDIN, &mut record);
    let c = io::read_full(STDIN, &mut month);
    replay_pair(&words[..a], &record[..b], &month[..c]);
}

// The year file of the input, read into a buffer, and its calls; none where the file is not whole.
fn replay_into(w: Worksheet, year: &mut [u8])
    requires { length year.old ≤ 1048576 }
{
    let mut head = [0u8; 4];
    let got = io::read_full(STDIN, &mut head);
    if got < 4 {
        return;
    }
    let size = year_size(&head);
    if year.len() < size {
        stop(FIELD_BYTES as u64);
        return;
    }
    let n = io::read_full(STDIN, &mut year[..size]);
    if n < size {
        return;
    }
    answer_all(w, Lent::Year, &year[..n], b"", YEAR_START + size as u32);
}

// Of a reference to an array the length is known to a proof, where that of so large an array in a
// local is not.
fn replay_with(w: Worksheet, year: &mut [u8; YEAR_MOST]) {
    replay_into(w, year);
}

fn replay_year(w: Worksheet) {
    let mut year = [0u8; YEAR_MOST];
    replay_with(w, &mut year);
}

fn year_size(head: &[u8; 4]) -> usize
    ensures { result ≡ word_at head.now 0 }
{
    word(head, 0) as usize
}

// A journal over a year file: 15 words, the file's length in a word, the file, then calls until the
// input ends. The open is judged before anything else is looked at.
pub fn over_year() {
    let mut words = [0u8; FIELD_BYTES];
    let n = io::read_full(STDIN, &mut words);
    let o = opened(&words[..n]);
    match o.answer {
        Ok(()) => replay_year(o.sheet),
        Err(why) => refuse(why),
    }
}
