// Words of the tables that are finite numbers or not, in what `oracle finite` writes: a good pair of
// files with up to three words changed, and what the checks of both files and of the month file
// answer.
use crate::files;
use crate::row::counted_rows;
use base::files::{file_check, files_check};
use base::month_file::{MONTH_FILE, RECORD};
use base::words::word;
use std::io::Read;
use std::rt::Files;
use system::opened;
use tally::{next_bytes, part, print_line};

// Puts a word's bytes into a file from a place on, as far as they fit.
fn put(s: &mut [u8], at: u32, w: u32) {
    if let Some(rest) = s.get_mut(at as usize..) {
        for (old, new) in rest.iter_mut().zip(w.to_le_bytes()) {
            *old = new;
        }
    }
}

// A change: which file, the byte in it, and the word to put there.
fn change(file: u32, at: u32, w: u32, record: &mut [u8; RECORD], month: &mut [u8; MONTH_FILE]) {
    if file == 0 {
        put(record, at, w);
    } else {
        put(month, at, w);
    }
}

fn are_answers(row: &[u8], record: &[u8; RECORD], month: &[u8; MONTH_FILE]) -> bool {
    let both = files_check(record, month);
    let alone = file_check(month);
    files::is_report(both, word(row, 40), word(row, 44))
        && files::is_report(alone, word(row, 48), word(row, 52))
}

fn is_answered(row: &[u8], record: [u8; RECORD], month: [u8; MONTH_FILE]) -> bool {
    let mut record = record;
    let mut month = month;
    let changes = word(row, 0) as usize;
    for one in part(row, 4, 40).chunks_exact(12).take(changes) {
        change(
            word(one, 0),
            word(one, 4),
            word(one, 8),
            &mut record,
            &mut month,
        );
    }
    are_answers(row, &record, &month)
}

// The files are the record of month 2, which stands behind that of month 1, and the month file.
fn replay_rows(file: &mut impl Read, daw: &mut impl Read, month: &mut impl Read) {
    next_bytes::<RECORD>(daw);
    let record = next_bytes::<RECORD>(daw);
    let month = next_bytes::<MONTH_FILE>(month);
    let t = counted_rows(
        file,
        1478,
        &mut [0u8; 56],
        |row| is_answered(row, record, month),
    );
    print_line(b"finite words", t);
}

pub fn replay(rt: &impl Files) {
    let file = opened(rt, b"finite.bin");
    let daw = opened(rt, b"calm.daw");
    let month = opened(rt, b"calm.month");
    if let (Some(mut file), Some(mut daw), Some(mut month)) = (file, daw, month) {
        replay_rows(&mut file, &mut daw, &mut month);
    }
}
