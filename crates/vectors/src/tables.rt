// The tables: the answers of tables.bin over two pairs of files, cut and damaged, and of what is
// handed back every byte, which words.bin has.
use crate::files;
use crate::row::counted_rows;
use base::month_file::RECORD;
use base::{tables, words};
use std::io::Read;
use std::rt::Files;
use system::{opened, read_full};
use tally::{next, part, print_line};

// A row's answer: the refusal, the part's place in its file, and its first word in words.bin.
#[derive(Clone, Copy)]
struct Answer {
    number: u32,
    place: u32,
    start: usize,
    size: usize,
    first: usize,
}

// The word at `at` of a row.
fn index(row: &[u8], at: usize) -> usize {
    words::word(row, at) as usize
}

fn wanted(row: &[u8]) -> Answer {
    Answer {
        number: words::word(row, 20),
        place: words::word(row, 24),
        start: index(row, 28),
        size: index(row, 32),
        first: index(row, 36),
    }
}

// Whether a table is handed back, or refused, as wanted.
fn is_answer<'a>(
    number: u32,
    record: &'a [u8],
    month: &'a [u8],
    all: &[u8; 46384],
    w: Answer,
) -> bool {
    let v = tables::table_check(number, record, month);
    let table = tables::table(number, record, month);
    if !files::is_report(v, w.number, w.place) || table.len() != w.size {
        return false;
    }
    if w.number != 0 {
        return true;
    }
    let place = tables::table_place(number);
    if w.first > 11596 {
        return false;
    }
    place.start == w.start && place.size == w.size && all[4 * w.first..].starts_with(table)
}

fn is_damaged<'a>(
    number: u32,
    record: &'a [u8],
    month: &'a [u8; 38616],
    length: usize,
    all: &[u8; 46384],
    w: Answer,
) -> bool {
    is_answer(number, record, part(month, 0, length), all, w)
}

// A table of files cut to a length, one byte of the month file changed.
fn is_table(row: &[u8], record: &[u8], month: [u8; 38616], all: &[u8; 46384]) -> bool {
    let at = index(row, 12);
    let mut damaged = month;
    if at < 38616 {
        damaged[at] = (words::word(row, 16) % 256) as u8;
    }
    is_damaged(
        words::word(row, 0),
        part(record, 0, index(row, 4)),
        &damaged,
        index(row, 8),
        all,
        wanted(row),
    )
}

// One pair of files against the next answers of tables.bin and the next words of words.bin. The
// record is month 2's; bytes aa follow it and the month file.
fn replay_pair(
    rt: &impl Files,
    daw_path: &[u8],
    month_path: &[u8],
    file: &mut impl Read,
    words_file: &mut impl Read,
) {
    let mut daw = [0xaau8; 15872];
    let mut month = [0xaau8; 38616];
    let mut all = [0u8; 46384];
    read_full(words_file, &mut all);
    if !files::load(rt, daw_path, &mut daw) {
        return;
    }
    if !files::load(rt, month_path, &mut month) {
        return;
    }
    let count = next(file);
    let record = &daw[RECORD..15872];
    let t = counted_rows(
        file,
        count,
        &mut [0u8; 40],
        |row| is_table(row, record, month, &all),
    );
    print_line(b"tables", t);
}

pub fn replay(rt: &impl Files) {
    let file = opened(rt, b"tables.bin");
    let words_file = opened(rt, b"words.bin");
    if let (Some(mut file), Some(mut words_file)) = (file, words_file) {
        replay_pair(rt, b"calm.daw", b"calm.month", &mut file, &mut words_file);
        replay_pair(rt, b"wild.daw", b"wild.month", &mut file, &mut words_file);
    }
}
