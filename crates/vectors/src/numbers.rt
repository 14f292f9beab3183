// The arithmetic: the answers of data/numbers.bin, function by function. A row is three
// little-endian words of 64 bits: the function's number, the argument and the answer, as oracle/
// writes them. A row of function 0 holds the name of the function that follows.
ghost use Rattle.std.specs.Prelude.{◌≤◌};

use crate::row::print_groups;
use base::angle::{Degrees, Radians};
use base::{constants, elementary, number, words};
use maps::geometry;
use maps::inputs::MagneticPole;
use std::rt::Files;
use system::opened;

// The bytes of a row.
const ROW: usize = 24;

fn word(row: &[u8], at: usize) -> u64
    requires { at ≤ 16 }
{
    u64::from(words::word(row, at)) | u64::from(words::word(row, at + 4)) << 32
}

fn low(w: u64) -> u32 {
    (w % 4294967296) as u32
}

fn high(w: u64) -> u32 {
    (w / 4294967296) as u32
}

fn single(w: u64) -> f32 {
    number::float32(low(w))
}

fn from_single(x: f32) -> u64 {
    number::bits32(x) as u64
}

// The constants in their order, and the built-in pole after them.
fn constant(k: u64) -> f32 {
    let list = constants::all();
    if k < 9 {
        return list[k as usize];
    }
    let pole = MagneticPole::built_in();
    match k {
        9 => pole.lat.0,
        10 => pole.lon.0,
        _ => 0.0 / 0.0,
    }
}

// The functions of one `f32`.
fn of_single(f: u64, x: f32) -> f32 {
    match f {
        1 => number::abs32(x),
        8 => number::sqrt32(x),
        30 => elementary::sin32(x),
        31 => elementary::cos32(x),
        32 => elementary::atan32(x),
        33 => elementary::acos32(x),
        34 => elementary::exp32(x),
        35 => elementary::ln32(x),
        _ => x,
    }
}

// The functions of one `f64`.
fn of_double(f: u64, x: f64) -> f64 {
    match f {
        2 => number::abs64(x),
        7 => number::sqrt64(x),
        20 => elementary::sin64(x),
        21 => elementary::cos64(x),
        22 => elementary::atan64(x),
        23 => elementary::acos64(x),
        24 => elementary::exp64(x),
        25 => elementary::ln64(x),
        _ => x,
    }
}

// The angles, which have types of their own.
fn radians(x: f32) -> f32 {
    Degrees(x).to_radians().0
}

fn degrees(x: f32) -> f32 {
    Radians(x).to_degrees().0
}

// What `base` answers, and `maps` for `sign`, as a row's word.
fn answer(f: u64, w: u64) -> u64 {
    let x = single(w);
    let d = number::float64(w);
    match f {
        3 => from_single(number::min(x, number::float32(high(w)))),
        4 => from_single(number::max(x, number::float32(high(w)))),
        5 => number::bits64(number::widen(x)),
        6 => from_single(number::narrow(d)),
        10 => from_single(number::from_i32(number::signed(low(w)))),
        11 => number::to_u64(d),
        12 => number::is_negative(d) as u64,
        13 => from_single(geometry::sign(x, number::float32(high(w)))),
        40 => from_single(constant(w)),
        41 => from_single(radians(x)),
        42 => from_single(degrees(x)),
        1 | 8 | 30..=35 => from_single(of_single(f, x)),
        _ => number::bits64(of_double(f, d)),
    }
}

// Whether the port gives a row's answer.
fn is_right(f: u64, w: u64, wanted: u64) -> bool {
    if f == 9 {
        number::to_i32(single(w)) == number::signed(low(wanted))
    } else {
        answer(f, w) == wanted
    }
}

// A row of function 0 heads a group.
fn is_heading(row: &[u8]) -> bool {
    word(row, 0) == 0
}

pub fn replay(rt: &impl Files) {
    if let Some(mut file) = opened(rt, b"numbers.bin") {
        print_groups(
            &mut file,
            1000000,
            &mut [0u8; ROW],
            b"numbers",
            8,
            |row| is_heading(row),
            |row| is_right(word(row, 0), word(row, 8), word(row, 16)),
        );
    }
}
