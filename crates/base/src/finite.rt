// Whether the words of the tables are finite numbers, and the first that is none. A run of words is
// a place and a count, and no slice, as the definitions `all_finite` and `first_other` have it.
ghost use Rattle.std.specs.Prelude.{◌≡◌, ℕ, ◌+◌, ◌*◌, ◌≤◌, length, Ok};
ghost use Rattle.std.specs.Float.Ieee.Scale.{finite};
ghost use Rattle.base.specs.Words.{float_at};
ghost use Rattle.base.specs.MonthFile.{record_size, month_file_check};
ghost use Rattle.base.specs.Finite.{all_finite, first_other, record_words_check, table_words_check};

use crate::month_file::RECORD;
use crate::refusal::{Refusal, Verdict, refuse_unless};
use crate::tables::{FAKP, TABLES_END};
use crate::words::{whole_word, word};

// Whether all n words from `at` on are finite.
fn are_finite(s: &[u8], at: usize, n: usize) -> bool
    requires { (at ≤ 65536) × (n ≤ 65536) × (at + 4 * n ≤ length s.now) }
    ensures { result ≡ all_finite s.now at n }
{
    // An exponent is all ones exactly where the word without its sign and the exponent's lowest bit
    // add up to the sign's bit or more. The sums are gathered and looked at once, so that the loop
    // has no branch and is compiled to four words at a time.
    let mut seen = 0u32;
    for i in 0..n {
        seen |= whole_word(s, at + 4 * i) % 0x8000_0000 + 0x80_0000;
    }
    seen < 0x8000_0000
}

fn is_finite(s: &[u8], at: usize) -> bool
    ensures { result ≡ finite (float_at s.now at) }
{
    // By its bits: with std's test a search to the last word took half as long again.
    word(s, at) % 0x8000_0000 < 0x7f80_0000
}

// The byte of the first of n words from `at` on that is no finite number; the byte behind them
// where all are.
fn first_other(s: &[u8], at: usize, n: usize) -> usize
    requires { (at ≤ 65536) × (n ≤ 65536) × (at + 4 * n ≤ length s.now) }
    ensures { result ≡ first_other s.now at n }
{
    if are_finite(s, at, n) {
        return at + 4 * n;
    }
    for i in 0..n {
        if !is_finite(s, at + 4 * i) {
            return at + 4 * i;
        }
    }
    at + 4 * n
}

// 23 with the first word of so many F2 records, which are there, that is no finite number.
pub(crate) fn record_words_check(daw: &[u8], months: usize) -> Verdict
    requires { (months ≤ 12) × (months * record_size ≤ length daw.now) }
    ensures { result ≡ record_words_check daw.now months }
{
    let at = first_other(daw, 0, months * (RECORD / 4));
    refuse_unless(at == months * RECORD, Refusal::RecordWord(at as u32))
}

// 23 with the first word of the month file's tables, `ikim` left out, that is no finite number.
pub(crate) fn table_words_check(month: &[u8]) -> Verdict
    requires { month_file_check month.now ≡ Ok tt }
    ensures { result ≡ table_words_check month.now }
{
    // The markers between the tables are looked at too: the walk has found them right, and each is
    // a finite number by its pattern.
    let at = first_other(month, FAKP, (TABLES_END - FAKP) / 4);
    refuse_unless(at == TABLES_END, Refusal::MonthWord(at as u32))
}
