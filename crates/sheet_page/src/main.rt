// One sheet: 14 little-endian words, an F2 record and a month file on standard input, and the 151
// figures or the refusal on standard output. `sheet page` prints the fields, names the figures and
// adds their decimals and units.
// Its src/ is copied to the crate sheet_page, as the gate runs a crate once and refuses links.
#![tactic(auto)]

use base::month_file::{MONTH_FILE, RECORD};
use listing::answer::ANSWER;
use listing::page::PAGE;
use listing::sheet::{page_answer, sheet_answer};
use maps::inputs::SHEET_BYTES;
use std::io::Read;
use system::{arg_count, is_arg, read_full, say};

// Two of three lines: one for both would have to state what a closure promises of its buffer.
fn print_sheet(out: &impl Print, words: &[u8], record: &[u8], month: &[u8]) {
    let mut text = [0u8; ANSWER];
    let n = sheet_answer(words, record, month, &mut text);
    let _ = out.write_all(&text[..n]);
}

fn print_page(out: &impl Print, words: &[u8], record: &[u8], month: &[u8]) {
    let mut text = [0u8; PAGE];
    let n = page_answer(words, record, month, &mut text);
    let _ = out.write_all(&text[..n]);
}

// Reads the words, the record and the month file, each as far as the input goes, and has them
// answered.
fn run<F: FnOnce(&[u8], &[u8], &[u8])>(input: &mut impl Read, answer: F)
    requires { F.IsAlwaysCallable answer }
{
    let mut words = [0u8; SHEET_BYTES];
    let mut record = [0u8; RECORD];
    let mut month = [0u8; MONTH_FILE];
    let a = read_full(input, &mut words);
    let b = read_full(input, &mut record);
    let c = read_full(input, &mut month);
    answer(&words[..a], &record[..b], &month[..c]);
}

fn main(rt: HostRuntime) {
    let mut input = rt.stdin();
    let count = arg_count(&rt);
    if count < 2 {
        run(&mut input, |words, record, month| {
            print_sheet(&rt, words, record, month)
        });
    } else if count == 2 && is_arg(&rt, 1, b"page") {
        run(&mut input, |words, record, month| {
            print_page(&rt, words, record, month)
        });
    } else {
        say("usage: sheet [page] < INPUT");
    }
}
