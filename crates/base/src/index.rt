// The index table `ikim` of a month file: its check, and its words.
ghost use Rattle.std.specs.Prelude.{◌≡◌, ℕ, ◌<◌, ◌≤◌, length, slice_index};
ghost use Rattle.base.specs.Number.{signed_of};
ghost use Rattle.base.specs.Words.{word_at};
ghost use Rattle.base.specs.MonthFile.{month_file_size};
ghost use Rattle.base.specs.Index.{ikim_place, ikim_at, index_of, rows, harmonics, exceeds, climbs, good_map, index_check};

use crate::refusal::{Refusal, Verdict};
use crate::tables::IKIM;
use crate::words::{read_words, word};

// The word j of the map k of `ikim`, both counted from 0.
fn ikim_word(month: &[u8], k: usize, j: usize) -> u32
    requires { (k < 6) × (j < 10) }
    ensures { result ≡ word_at month.now (ikim_place k j) }
{
    word(month, IKIM + (k * 10 + j) * 4)
}

// Whether q exceeds p by an even number and is at most 75. A word that is negative as a signed
// number is too large here.
fn is_next(p: u32, q: u32) -> bool
    requires { p ≤ 75 }
    ensures { result ≡ exceeds (signed_of p) (signed_of q) }
{
    p < q && (q - p) % 2 == 0 && q <= 75
}

// Whether the words 1 to 8 of a map climb from its word 0.
fn is_ladder(month: &[u8], k: usize) -> bool
    requires { (k < 6) × (word_at month.now (ikim_place k 0) ≤ 75) }
    ensures { result ≡ climbs (ikim_at month.now k) 8 0 }
{
    let mut p = ikim_word(month, k, 0);
    for j in 0..8 {
        let q = ikim_word(month, k, j + 1);
        if q == p {
            return true;
        }
        if !is_next(p, q) {
            return false;
        }
        p = q;
    }
    true
}

// The rows and the harmonics of each map: two tables, since specs/Index.antt has them as two lists.
const ROWS: [u32; 6] = [55, 61, 55, 76, 49, 22];

const HARMONICS: [u32; 6] = [2, 3, 2, 6, 4, 4];

// Whether the map k is good.
fn is_good(month: &[u8], k: usize) -> bool
    requires { k < 6 }
    ensures { result ≡ good_map (ikim_at month.now k) (slice_index rows k) (slice_index harmonics k) }
{
    ikim_word(month, k, 8) < ROWS[k]
        && ikim_word(month, k, 9) <= HARMONICS[k]
        && (1..=75).contains(&ikim_word(month, k, 0))
        && is_ladder(month, k)
}

// Document 01's index check of a month file: 11 with the lowest bad map, 1 to 6, as its place.
pub fn index_check(month: &[u8]) -> Verdict
    ensures { result ≡ index_check month.now }
{
    for k in 0..6 {
        if !is_good(month, k) {
            return Err(Refusal::Index(k as u32 + 1));
        }
    }
    Ok(())
}

// The words of `ikim`, ten for each of six maps.
pub const INDEX: usize = 60;

pub type IndexTable = [u32; INDEX];

// The 60 words of `ikim`, of a file that was checked. The words that the index check does not leave
// free are the signed ones too.
pub(crate) fn index_of(month: &[u8], out: &mut IndexTable)
    requires { month_file_size ≤ length month.now }
    ensures { out.new ≡ index_of month.now }
{
    read_words(month, IKIM, out);
}
