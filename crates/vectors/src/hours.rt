// The hour step: the 318 coefficients of the six maps at each sunspot number and hour of hours.bin,
// over the files that it holds. In its first files every coefficient is its own place among the
// 2,604 and no map has a harmonic: what is wanted there is where each series starts.
use crate::files;
use crate::row::is_float;
use crate::sheets::LENT;
use base::month_file::{MONTH_FILE, RECORD};
use base::words;
use maps::ionosphere::hour_maps;
use maps::ionosphere::starts::AB_ROWS;
use std::io::Read;
use std::rt::Files;
use system::opened;
use tally::{Tally, counted_all, next, next_bytes, none, print_line};

// The bytes of a row: the sunspot number, the hour and what is wanted.
const ROW: usize = 1280;

// Whether the array holds what a row wants.
fn is_wanted(ab: &[f32; AB_ROWS], row: &[u8; ROW]) -> bool {
    ab.iter()
        .zip(row[8..].chunks_exact(4))
        .all(|(x, wanted)| is_float(*x, words::word(wanted, 0)))
}

// All of the array must be overwritten.
fn is_hour(row: &[u8; ROW], record: &[u8; RECORD], month: &[u8; MONTH_FILE]) -> bool {
    let mut ab = [LENT; AB_ROWS];
    let ssn = words::float(row, 0);
    let gmt = words::float(row, 4);
    let v = hour_maps(record, month, ssn, gmt, &mut ab);
    files::is_report(v, 0, 0) && is_wanted(&ab, row)
}

// A pair of files and the hours worked out from it.
fn section(file: &mut impl Read, t: Tally) -> Tally {
    let record = next_bytes::<RECORD>(file);
    let month = next_bytes::<MONTH_FILE>(file);
    let count = next(file);
    counted_all(t, count, || is_hour(&next_bytes(file), &record, &month))
}

fn sections(file: &mut impl Read) -> Tally {
    let mut t = none();
    for _ in 0..next(file) {
        t = section(file, t);
    }
    t
}

pub fn replay(rt: &impl Files) {
    if let Some(mut file) = opened(rt, b"hours.bin") {
        print_line(b"hours", sections(&mut file));
    }
}
