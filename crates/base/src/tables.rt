// The tables of a month by number: which are there, and their bytes as parts of the files lent.
ghost use Rattle.std.specs.Prelude.{◌≡◌};
ghost use Rattle.base.specs.MonthFile.{IsPart};
ghost use Rattle.base.specs.Tables.{part_of, table_check, table_part, table_file};

use crate::month_file::{MONTH_FILE, RECORD, month_file_check};
use crate::refusal::{Refusal, Verdict};

// Where a table, or a part of a year file, starts in the file that holds it, and how many bytes it
// has. Of one that is not there both are 0, with no Option: the clauses `start` and `size` of
// `table_place`, `month_place` and `model_place` say so.
#[derive(Clone, Copy)]
pub struct Place {
    pub start: usize,
    pub size: usize,
}

// Where the tables that the code names start in the month file.
pub const IKIM: usize = 4;

pub const FAKP: usize = 252;

pub const XFM3CF: usize = 16780;

pub const ANEW: usize = 23492;

pub const BNEW: usize = 23504;

pub const ACHI: usize = 23516;

pub const BCHI: usize = 23524;

pub const FAKMAP: usize = 23532;

pub const ABMAP: usize = 25388;

pub const XESMCF: usize = 25420;

pub const XPMAP: usize = 28836;

pub const XESLCF: usize = 32556;

pub const XESUCF: usize = 34756;

pub const XERCOF: usize = 36964;

// Where the last table ends: before the last marker.
pub const TABLES_END: usize = MONTH_FILE - 4;

// Start and size of the F2 planes, then of `ikim` to `xercof`.
const PLACES: [[usize; 2]; 21] = [
    [0, RECORD],
    [IKIM, 240],
    [FAKP, 11136],
    [11388, 48],
    [11444, 1200],
    [12644, 672],
    [13316, 3456],
    [XFM3CF, 3528],
    [20316, 2304],
    [22620, 864],
    [ANEW, 12],
    [BNEW, 12],
    [ACHI, 8],
    [BCHI, 8],
    [FAKMAP, 1856],
    [ABMAP, 24],
    [XESMCF, 3416],
    [XPMAP, 3712],
    [XESLCF, 2200],
    [XESUCF, 2200],
    [XERCOF, 1584],
];

// Start and size in bytes of a table, 0 in the F2 record and 1 to 20 in the month file; 0 and 0
// where there is no such table.
pub fn table_place(number: u32) -> Place
    ensures start { result.start ≡ (part_of number).from }
    ensures size { result.size ≡ (part_of number).size }
{
    if 20 < number {
        return Place { start: 0, size: 0 };
    }
    let row = PLACES[number as usize];
    Place {
        start: row[0],
        size: row[1],
    }
}

// Whether there is such a table and both files are whole: 13 for a number above 20, then 8, 9, 10,
// for every number alike.
pub fn table_check(number: u32, f2: &[u8], month: &[u8]) -> Verdict
    ensures { result ≡ table_check number f2.now month.now }
{
    if 20 < number {
        return Err(Refusal::Table);
    }
    if f2.len() < RECORD {
        return Err(Refusal::Record);
    }
    month_file_check(month)
}

// A table's bytes, a part of the file that holds them; where `table_check` refuses, the empty part
// at the F2 record's start.
pub fn table<'a>(number: u32, f2: &'a [u8], month: &'a [u8]) -> &'a [u8]
    ensures { IsPart
        (table_part number f2.now month.now)
        (table_file number f2.entry month.entry)
        result }
{
    let verdict = table_check(number, f2, month);
    match verdict {
        Ok(()) => {
            let place = table_place(number);
            let a = place.start;
            let e = a + place.size;
            if number == 0 { &f2[a..e] } else { &month[a..e] }
        }
        Err(_) => &f2[0..0],
    }
}
