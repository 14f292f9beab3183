// The clocks: the times of clocks.bin, in three sections. A row is little-endian words: what is
// asked, number and place of the refusal, the times.
use crate::row::{counted_rows, is_float};
use base::angle::Degrees;
use base::refusal::Refusal;
use base::words;
use maps::ionosphere::clocks;
use maps::ionosphere::clocks::Direction;
use std::io::Read;
use std::rt::Files;
use system::opened;
use tally::{Tally, next, print_line};

fn degrees(row: &[u8], at: usize) -> Degrees {
    Degrees(words::float(row, at))
}

// 1, or -1 as a word.
fn direction(w: u32) -> Direction {
    if w == 1 {
        Direction::ToLocal
    } else {
        Direction::ToUniversal
    }
}

// Whether a row has this refusal.
fn is_refusal(why: Refusal, row: &[u8], number_at: usize, place_at: usize) -> bool {
    why.number() == words::word(row, number_at) && why.place() == words::word(row, place_at)
}

fn is_shift(row: &[u8]) -> bool {
    let towards = direction(words::word(row, 8));
    match clocks::cngtim(words::float(row, 0), degrees(row, 4), towards) {
        Ok(s) => {
            words::word(row, 12) == 0
                && is_float(s.time, words::word(row, 20))
                && is_float(s.day, words::word(row, 24))
        }
        Err(why) => is_refusal(why, row, 12, 16),
    }
}

fn is_hour(row: &[u8]) -> bool {
    let local = words::word(row, 4) != 0;
    match clocks::geotim(
        words::word(row, 0),
        local,
        degrees(row, 8),
        degrees(row, 12),
    ) {
        Ok(h) => {
            words::word(row, 16) == 0
                && is_float(h.gmt, words::word(row, 24))
                && is_float(h.lmt_tx, words::word(row, 28))
                && is_float(h.gmtr, words::word(row, 32))
        }
        Err(why) => is_refusal(why, row, 16, 20),
    }
}

fn is_local_time(row: &[u8]) -> bool {
    match clocks::geotim_clck(words::float(row, 0), degrees(row, 4)) {
        Ok(clck) => words::word(row, 8) == 0 && is_float(clck, words::word(row, 16)),
        Err(why) => is_refusal(why, row, 8, 12),
    }
}

// The rows of a section, which are read into a lent row.
fn rows<F: Fn(&[u8]) -> bool>(file: &mut impl Read, row: &mut [u8], is_right: F) -> Tally
    requires { F.IsAlwaysCallable is_right }
{
    let count = next(file);
    counted_rows(file, count, row, is_right)
}

pub fn replay(rt: &impl Files) {
    if let Some(mut file) = opened(rt, b"clocks.bin") {
        print_line(
            b"cngtim",
            rows(&mut file, &mut [0u8; 28], |row| is_shift(row)),
        );
        print_line(
            b"geotim",
            rows(&mut file, &mut [0u8; 36], |row| is_hour(row)),
        );
        print_line(
            b"geotim_clck",
            rows(&mut file, &mut [0u8; 20], |row| is_local_time(row)),
        );
    }
}
