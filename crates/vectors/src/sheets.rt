// The sheets: all 151 figures of each sheet of sheets.bin, over the files that it holds; and the
// refusals of refused-sheets.bin, which leave the buffer as it was.
use crate::row::is_float;
use base::angle::Degrees;
use base::month_file::{MONTH_FILE, RECORD};
use base::words;
use maps::figures;
use maps::figures::FIGURES;
use maps::inputs::{Factors, Inputs, MagneticPole, Route, inputs_in};
use std::io::Read;
use std::rt::Files;
use system::opened;
use tally::{Tally, counted_all, next, next_bytes, next_size, none, part, print_line};
use worksheet::showing::drawn;

// What no sheet has: each buffer is lent full of it.
pub const LENT: f32 = -12345.0;

// The bytes of a row: the inputs' words, the number of points and the figures.
const ROW: usize = 664;

// The largest buffer that is lent to a refused showing.
const LARGEST: usize = 200;

// Whether the buffer holds a row's figures.
fn is_figures(out: &[f32; FIGURES], row: &[u8; ROW]) -> bool {
    out.iter()
        .zip(row[60..].chunks_exact(4))
        .all(|(x, wanted)| is_float(*x, words::word(wanted, 0)))
}

// All of the buffer must be overwritten.
fn is_sheet(row: &[u8; ROW], record: &[u8; RECORD], month: &[u8; MONTH_FILE]) -> bool {
    let mut out = [LENT; FIGURES];
    match figures::figures(inputs_in(row), record, month, &mut out) {
        Ok(count) => count == words::word(row, 56) && is_figures(&out, row),
        Err(_) => false,
    }
}

// A pair of files and the sheets made of it.
fn section(file: &mut impl Read, t: Tally) -> Tally {
    let record = next_bytes::<RECORD>(file);
    let month = next_bytes::<MONTH_FILE>(file);
    let count = next(file);
    counted_all(t, count, || is_sheet(&next_bytes(file), &record, &month))
}

fn replay_sheets(file: &mut impl Read) {
    let mut t = none();
    for _ in 0..next(file) {
        t = section(file, t);
    }
    print_line(b"sheets", t);
}

// Inputs in range.
fn in_range() -> Inputs {
    Inputs {
        month: 4,
        ssn: 70.0,
        gmt: 12.0,
        route: Route {
            tlat: Degrees(53.5),
            tlong: Degrees(8.1),
            rlat: Degrees(64.1),
            rlong: Degrees(-21.9),
            long_path: 0,
        },
        psc: Factors {
            e: 1.0,
            f1: 1.0,
            f2: 1.0,
            es: 0.7,
        },
        pole: MagneticPole::built_in(),
        model: 0,
    }
}

fn is_as_lent(out: &[f32; LARGEST]) -> bool {
    out.iter().all(|x| *x == LENT)
}

// Files cut to a length, one byte of the month file changed, and a buffer of some length.
fn is_refused(file: &mut impl Read, record: &[u8; RECORD], month: [u8; MONTH_FILE]) -> bool {
    let record_length = next_size(file);
    let month_length = next_size(file);
    let at = next_size(file);
    let b = (next(file) % 256) as u8;
    let size = next_size(file);
    let number = next(file);
    let place = next(file);
    let mut damaged = month;
    if at < MONTH_FILE {
        damaged[at] = b;
    }
    if size > LARGEST {
        return false;
    }
    let mut out = [LENT; LARGEST];
    let record = part(record, 0, record_length);
    let month = part(&damaged, 0, month_length);
    match drawn(in_range(), record, month, &mut out[..size]) {
        Ok(count) => number == 0 && count > 0,
        Err(why) => why.number() == number && why.place() == place && is_as_lent(&out),
    }
}

fn replay_refused(file: &mut impl Read) {
    let record = next_bytes::<RECORD>(file);
    let month = next_bytes::<MONTH_FILE>(file);
    let count = next(file);
    let t = counted_all(none(), count, || is_refused(file, &record, month));
    print_line(b"refused sheets", t);
}

pub fn replay(rt: &impl Files) {
    if let Some(mut file) = opened(rt, b"sheets.bin") {
        replay_sheets(&mut file);
    }
    if let Some(mut file) = opened(rt, b"refused-sheets.bin") {
        // One record that is good and one that is not.
        replay_refused(&mut file);
        replay_refused(&mut file);
    }
}
