// A year file packed from an installation's files.
#![tactic(auto)]

ghost use Rattle.std.specs.Prelude.{◌≡◌, ℕ, ◌+◌, ◌≤◌, ◌++◌, length, get_or, drop};
ghost use Rattle.base.specs.Fill.{fill};
ghost use Rattle.base.specs.Words.{four_bytes};
ghost use Rattle.packing.specs.Pack.{part_check, size_of_year, sealed_file};

use base::files::{daw_check, file_check};
use base::refusal::Verdict;
use base::year::{DIRECTORY, PARTS};

// The most bytes of a year file that the programs take.
pub const YEAR_MOST: usize = 0x10_0000;

// The sizes of the parts of a year file, in bytes.
pub type Sizes = [u32; PARTS];

// The verdict on a file that is to be part k of a year file, counted from 0: 9, 10, 23 and 11 on
// the twelve month files; 8 on a `.daw` file that does not reach to the end of month 12's record,
// and so has not the records of all months, and 23 by their words.
pub fn part_check(k: usize, part: &[u8]) -> Verdict
    ensures { result ≡ part_check k part.now }
{
    if k < 12 {
        file_check(part)
    } else {
        daw_check(part)
    }
}

// The bytes of a year file with parts of these sizes.
fn size_of_year(sizes: &Sizes) -> usize
    ensures { result ≡ size_of_year sizes.now }
{
    DIRECTORY + sizes.iter().map(|n| *n as usize).sum::<usize>()
}

// Writes a word, little-endian.
fn put_word(out: &mut [u8; YEAR_MOST], at: usize, w: u32)
    requires { at + 4 ≤ 112 }
    ensures { out.new ≡ fill (λ (k : ℕ). get_or (four_bytes w) k 0) at out.old 4 }
{
    out[at..at + 4].copy_from_slice(&w.to_le_bytes());
}

// Makes the buffer a year file: its parts, of these sizes, lie in it one after the other behind the
// place of the directory, which is written; nothing else moves. Gives the year file's size in
// bytes, or 0 where that would be more than 1,048,576.
pub fn seal(year: &mut [u8; YEAR_MOST], sizes: &Sizes) -> usize
    ensures file { let l = year.old in
        year.new ≡ sealed_file sizes.now l ++ drop result l }
    ensures count { result ≡ length (sealed_file sizes.now year.old) }
    ensures bound { result ≤ 1048576 }
{
    // 0, and no Option: the clause `count` says so.
    let n = size_of_year(sizes);
    if year.len() < n {
        return 0;
    }
    let mut at = DIRECTORY as u32;
    for (k, size) in sizes.iter().enumerate() {
        put_word(year, 8 * k, at);
        put_word(year, 8 * k + 4, *size);
        at += *size;
    }
    n
}
