// The month's record of the `.daw` file, and the month file's walk.
ghost use Rattle.std.specs.Prelude.{◌≡◌, ℕ, ◌<◌, ◌==◌};
ghost use Rattle.base.specs.Words.{word_at};
ghost use Rattle.base.specs.MonthFile.{IsPart, month_record_check, month_part, month_file_check};

use crate::ranges::month_check;
use crate::refusal::{Refusal, Verdict, refuse_unless};
use crate::words::word;

// The bytes of an F2 record, a month's part of the `.daw` file.
pub const RECORD: usize = 7904;

// The bytes of a month file that are read.
pub const MONTH_FILE: usize = 38552;

// Whether the `.daw` file has a month's record: 1 for a month outside 1 to 12, then 8 for a file of
// under month times 7,904 bytes.
#[tactic(auto, unfolding(crate::specs::MonthFile::month_record_check))]
pub fn month_record_check(s: &[u8], month: u32) -> Verdict
    ensures { result ≡ month_record_check s.now month }
{
    month_check(month)?;
    refuse_unless(month as usize * RECORD <= s.len(), Refusal::Record)
}

// A month's 7,904 bytes, a part of the `.daw` file; where `month_record_check` refuses, the empty
// part at the file's start.
pub fn month_record(s: &[u8], month: u32) -> &[u8]
    ensures { IsPart (month_part s.now month) s.entry result }
{
    let verdict = month_record_check(s, month);
    match verdict {
        Ok(()) => {
            let a = (month as usize - 1) * RECORD;
            let e = a + RECORD;
            &s[a..e]
        }
        Err(_) => &s[0..0],
    }
}

// The bytes of the month file's nine records.
const SIZES: [usize; 9] = [240, 11184, 5328, 3528, 3168, 1920, 7128, 4400, 1584];

fn is_marker(s: &[u8], at: usize, n: usize) -> bool
    ensures { result ≡ (word_at s.now at == n) }
{
    word(s, at) as usize == n
}

// Document 01's walk through a month file in fours: 9 where four bytes are not there, 10 at a wrong
// marker, whichever comes first, with that byte's place.
pub fn month_file_check(s: &[u8]) -> Verdict
    ensures { result ≡ month_file_check s.now }
{
    // What lies between two markers is only asked to be there, so of each record the markers and
    // the file's length are looked at; where the file ends within a record, the walk in fours stops
    // at the last multiple of four.
    let mut at = 0usize;
    for k in 0..9 {
        // By index: a loop over the array copies it to the stack with each call.
        let n = SIZES[k];
        if s.len() < at + 4 {
            return Err(Refusal::Ended((s.len() / 4 * 4) as u32));
        }
        if !is_marker(s, at, n) {
            return Err(Refusal::Marker(at as u32));
        }
        if s.len() < at + n + 8 {
            return Err(Refusal::Ended((s.len() / 4 * 4) as u32));
        }
        if !is_marker(s, at + n + 4, n) {
            return Err(Refusal::Marker((at + n + 4) as u32));
        }
        at += n + 8;
    }
    Ok(())
}
