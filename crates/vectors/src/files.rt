// The files: damaged month files, month records, index tables, every word of three pairs of files
// and every blended coefficient of two, in what `oracle files` writes.
use crate::row::is_float;
use base::blend::{COFION, PLANE};
use base::files::{cofion, hmym};
use base::index::index_check;
use base::month_file::{MONTH_FILE, RECORD, month_file_check, month_record, month_record_check};
use base::number;
use base::refusal::{Report, Verdict};
use base::words::{integer, table_word, word};
use std::io::Read;
use std::rt::Files;
use system::{opened, read_full};
use tally::{Tally, counted, counted_all, next, next_size, none, part, print_line};

// A file's bytes, as many as the buffer takes; false where there is no such file, which is said.
pub fn load(rt: &impl Files, path: &[u8], buf: &mut [u8]) -> bool {
    match opened(rt, path) {
        Some(mut file) => {
            read_full(&mut file, buf);
            true
        }
        None => false,
    }
}

pub fn is_report(v: Verdict, wanted: u32, place: u32) -> bool {
    let Report(number, at) = Report::from(v);
    number == wanted && at == place
}

fn walk(month: &[u8; 38616], len: usize) -> Verdict {
    month_file_check(part(month, 0, len))
}

// One damaged month file: cut to a length, with one byte changed.
fn is_walk(file: &mut impl Read, month: [u8; 38616]) -> bool {
    let len = next_size(file);
    let at = next_size(file);
    let b = (next(file) % 256) as u8;
    let number = next(file);
    let place = next(file);
    let mut damaged = month;
    if at < 38616 {
        damaged[at] = b;
    }
    is_report(walk(&damaged, len), number, place)
}

fn walks(file: &mut impl Read, month: [u8; 38616]) -> Tally {
    counted_all(none(), 2204, || is_walk(file, month))
}

// Whether a record is the wanted part: by its length and its first and last words.
fn is_part(s: &[u8], start: usize, record: &[u8], accepted: bool) -> bool {
    if !accepted {
        return record.is_empty();
    }
    if start > 86944 {
        return false;
    }
    record.len() == RECORD
        && word(record, 0) == word(s, start)
        && word(record, RECORD - 4) == word(s, start + RECORD - 4)
}

fn is_record(file: &mut impl Read, daw: &[u8]) -> bool {
    let len = next_size(file);
    let month = next(file);
    let number = next(file);
    let place = next(file);
    let start = next_size(file);
    let s = part(daw, 0, len);
    is_report(month_record_check(s, month), number, place)
        && is_part(s, start, month_record(s, month), number == 0)
}

fn records(file: &mut impl Read, daw: &[u8]) -> Tally {
    counted_all(none(), 450, || is_record(file, daw))
}

fn checked(month: &[u8; 244]) -> Verdict {
    index_check(month)
}

// An index table, in its place in a month file that ends with it.
fn is_index(file: &mut impl Read) -> bool {
    let mut month = [0u8; 244];
    read_full(file, &mut month[4..244]);
    let number = next(file);
    let place = next(file);
    is_report(checked(&month), number, place)
}

fn indexes(file: &mut impl Read) -> Tally {
    counted_all(none(), 3160, || is_index(file))
}

// Whether a table's word is the Rust's: its number, or that it is none.
fn is_word(w: Option<f32>, wanted: u32) -> bool {
    match w {
        Some(x) => is_float(x, wanted),
        None => wanted % 0x8000_0000 >= 0x7f80_0000,
    }
}

// The n words of tables from `at` on.
fn floats(file: &mut impl Read, s: &[u8], at: usize, n: usize, t: Tally) -> Tally {
    let mut t = t;
    for k in 0..n {
        let place = at.wrapping_add(k.wrapping_mul(4));
        t = counted(t, is_word(table_word(s, place), next(file)));
    }
    t
}

fn integers(file: &mut impl Read, month: &[u8], t: Tally) -> Tally {
    let mut t = t;
    for k in 0..60usize {
        t = counted(t, integer(month, 4 + 4 * k) == number::signed(next(file)));
    }
    t
}

// Where the bodies of the records after the first start, which stand between markers of four bytes,
// and how many words each has.
const BODIES: [(usize, usize); 8] = [
    (252, 2796),
    (11444, 1332),
    (16780, 882),
    (20316, 792),
    (23492, 480),
    (25420, 1782),
    (32556, 1100),
    (36964, 396),
];

// Every word of a pair, as the Rust reads it.
fn words(file: &mut impl Read, record: &[u8], month: &[u8]) -> Tally {
    let t = floats(file, record, 0, 1976, none());
    let mut t = integers(file, month, t);
    for (start, n) in BODIES {
        t = floats(file, month, start, n, t);
    }
    t
}

// Whether each float is the file's next.
fn are_next(file: &mut impl Read, all: &[f32], t: Tally) -> Tally {
    let mut t = t;
    for x in all {
        t = counted(t, is_float(*x, next(file)));
    }
    t
}

// The blended coefficients of a pair at the next sunspot number. The array is lent with what no map
// has, so that a refusal would count.
fn cofions(file: &mut impl Read, record: &[u8], month: &[u8], ssn: f32, t: Tally) -> Tally {
    let mut all = [-12345.0f32; COFION];
    let _ = cofion(record, month, ssn, &mut all);
    are_next(file, &all, t)
}

fn heights(file: &mut impl Read, month: &[u8], ssn: f32, t: Tally) -> Tally {
    let mut all = [-12345.0f32; PLANE];
    let _ = hmym(month, ssn, &mut all);
    are_next(file, &all, t)
}

fn blends(file: &mut impl Read, record: &[u8], month: &[u8], t: Tally) -> Tally {
    let mut t = t;
    for _ in 0..15u32 {
        let ssn = number::float32(next(file));
        t = cofions(file, record, month, ssn, t);
        t = heights(file, month, ssn, t);
    }
    t
}

fn replay_walks(rt: &impl Files, file: &mut impl Read) {
    let mut month = [0xaau8; 38616];
    if load(rt, b"calm.month", &mut month) {
        print_line(b"walks", walks(file, month));
    }
}

fn replay_records(rt: &impl Files, file: &mut impl Read) {
    let mut daw = [0u8; 15808];
    if load(rt, b"calm.daw", &mut daw) {
        print_line(b"records", records(file, &daw));
    }
}

// One pair of files against the next answers of words.bin and, where its words are all finite, of
// blends.bin.
fn replay_pair(
    rt: &impl Files,
    daw_path: &[u8],
    month_path: &[u8],
    words_file: &mut impl Read,
    are_finite: bool,
    blends_file: &mut impl Read,
) {
    let mut daw = [0u8; 15808];
    let mut month = [0u8; MONTH_FILE];
    if !load(rt, daw_path, &mut daw) {
        return;
    }
    if !load(rt, month_path, &mut month) {
        return;
    }
    let record = month_record(&daw, 2);
    print_line(b"words", words(words_file, record, &month));
    if are_finite {
        print_line(b"blends", blends(blends_file, record, &month, none()));
    }
}

fn replay_pairs(rt: &impl Files, words_file: &mut impl Read, blends_file: &mut impl Read) {
    replay_pair(
        rt,
        b"calm.daw",
        b"calm.month",
        words_file,
        true,
        blends_file,
    );
    replay_pair(
        rt,
        b"wild.daw",
        b"wild.month",
        words_file,
        false,
        blends_file,
    );
    replay_pair(
        rt,
        b"huge.daw",
        b"huge.month",
        words_file,
        true,
        blends_file,
    );
}

pub fn replay(rt: &impl Files) {
    if let Some(mut file) = opened(rt, b"walks.bin") {
        replay_walks(rt, &mut file);
    }
    if let Some(mut file) = opened(rt, b"records.bin") {
        replay_records(rt, &mut file);
    }
    if let Some(mut file) = opened(rt, b"indexes.bin") {
        print_line(b"indexes", indexes(&mut file));
    }
    let words_file = opened(rt, b"words.bin");
    let blends_file = opened(rt, b"blends.bin");
    if let (Some(mut words_file), Some(mut blends_file)) = (words_file, blends_file) {
        replay_pairs(rt, &mut words_file, &mut blends_file);
    }
}
