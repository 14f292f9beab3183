// A year file: twelve month files and both `.daw` files as parts of one, behind a directory of 14
// pairs of offset and length.
ghost use Rattle.std.specs.Prelude.{◌≡◌, ◌+◌, ◌^◌, ◌<◌, ◌≤◌, length};
ghost use Rattle.base.specs.MonthFile.{IsPart};
ghost use Rattle.base.specs.Year.{offset_at, length_at, end_at, floor_at, keeps_rules, year_check, pair_part, year_month, year_model};

use crate::ranges::{is_bit, is_month};
use crate::refusal::{Refusal, Verdict};
use crate::tables::Place;
use crate::words::word;

// The parts of a year file: months 1 to 12, then CCIR, then URSI.
pub const PARTS: usize = 14;

// The bytes of their pairs, with which the file starts.
pub const DIRECTORY: usize = 8 * PARTS;

// Where the part of pair k, counted from 0, starts.
fn offset(year: &[u8], k: usize) -> usize
    requires { k < 14 }
    ensures answer { result ≡ offset_at year.now k }
    ensures bound { result < 2 ^ 32 }
{
    word(year, 8 * k) as usize
}

// How many bytes it has.
fn size(year: &[u8], k: usize) -> usize
    requires { k < 14 }
    ensures answer { result ≡ length_at year.now k }
    ensures bound { result < 2 ^ 32 }
{
    word(year, 8 * k + 4) as usize
}

// Where it ends. Offset and length are u32, their sum need not be: it does not wrap.
fn end(year: &[u8], k: usize) -> usize
    requires { k < 14 }
    ensures { result ≡ end_at year.now k }
{
    offset(year, k) + size(year, k)
}

// Where the part of pair k may start at the earliest.
fn floor(year: &[u8], k: usize) -> usize
    requires { k < 14 }
    ensures { result ≡ floor_at year.now k }
{
    if k == 0 { DIRECTORY } else { end(year, k - 1) }
}

// Whether pair k, counted from 0, is wholly there and keeps its rules.
fn keeps_rules(year: &[u8], k: usize) -> bool
    requires { k < 14 }
    ensures { result ≡ keeps_rules year.now k }
{
    8 * k + 8 <= year.len()
        && floor(year, k) <= offset(year, k)
        && (k < PARTS - 1 || end(year, k) <= year.len())
}

// The verdict on a year file's directory: 19 with the lowest pair, 1 to 14, that is not wholly
// there or breaks a rule. What stands in the parts is not looked at.
pub fn year_check(year: &[u8]) -> Verdict
    ensures { result ≡ year_check year.now }
{
    for k in 0..PARTS {
        if !keeps_rules(year, k) {
            return Err(Refusal::Year(k as u32 + 1));
        }
    }
    Ok(())
}

// Where the part of pair k, counted from 0, lies: start and size in bytes, 0 and 0 where the pair is
// not wholly there or its part not within the file.
fn pair_place(year: &[u8], k: usize) -> Place
    requires { k < 14 }
    ensures start { result.start ≡ (pair_part year.now k).from }
    ensures size { result.size ≡ (pair_part year.now k).size }
    ensures within { result.start + result.size ≤ length year.now }
{
    if year.len() < 8 * k + 8 || year.len() < end(year, k) {
        return Place { start: 0, size: 0 };
    }
    Place {
        start: offset(year, k),
        size: size(year, k),
    }
}

// Where the month file of a month lies in a year file: start and size in bytes. 0 and 0 for a month
// outside 1 to 12, and where its pair is not wholly there or the part not within the file; whether
// the directory keeps its rules is for `year_check`.
pub fn month_place(year: &[u8], month: u32) -> Place
    ensures start { result.start ≡ (year_month year.now month).from }
    ensures size { result.size ≡ (year_month year.now month).size }
    ensures within { result.start + result.size ≤ length year.now }
{
    if is_month(month) {
        pair_place(year, month as usize - 1)
    } else {
        Place { start: 0, size: 0 }
    }
}

// Where the `.daw` file of a model, 0 CCIR and 1 URSI, lies in a year file, as `month_place` has
// it; 0 and 0 for any other word.
pub fn model_place(year: &[u8], model: u32) -> Place
    ensures start { result.start ≡ (year_model year.now model).from }
    ensures size { result.size ≡ (year_model year.now model).size }
    ensures within { result.start + result.size ≤ length year.now }
{
    if is_bit(model) {
        pair_place(year, 12 + model as usize)
    } else {
        Place { start: 0, size: 0 }
    }
}

// The month file of a month, the part of the year file at `month_place`.
pub fn year_month(year: &[u8], month: u32) -> &[u8]
    ensures { IsPart (year_month year.now month) year.entry result }
{
    let at = month_place(year, month);
    let a = at.start;
    let e = a + at.size;
    &year[a..e]
}

// The `.daw` file of a model, the part of the year file at `model_place`.
pub fn year_model(year: &[u8], model: u32) -> &[u8]
    ensures { IsPart (year_model year.now model) year.entry result }
{
    let at = model_place(year, model);
    let a = at.start;
    let e = a + at.size;
    &year[a..e]
}
