// The files of `base::month_file` and `base::files`, the tables of `base::tables` and the year file of
// `base::year`.
ghost use Rattle.std.specs.Prelude.{◌≡◌};
ghost use Rattle.base.specs.Refusal.{written_over};
ghost use Rattle.base.specs.MonthFile.{month_file_check, month_record_check, month_part};
ghost use Rattle.base.specs.Tables.{table_check, table_part};
ghost use Rattle.base.specs.Blend.{cofion_of, hmym_of};
ghost use Rattle.base.specs.Files.{file_check, files_check};
ghost use Rattle.base.specs.Year.{year_check, year_month, year_model, year_month_check, year_model_check};
ghost use Rattle.jutetrowel.specs.Answers.{answer_of, span_of, span_unless, placed};

use crate::answers::{Answer, Span};
use base::blend::{HeightMap, SixMaps};
use base::month_file::RECORD;
use base::ranges::{model_check, month_check};
use base::refusal::Refusal;
use base::tables::Place;
use base::{files, month_file, tables, year};

// The month file's walk in fours: 9 where four bytes are not there, 10 at a wrong marker, with that
// byte's place.
pub fn jt_month_file_check(s: &[u8]) -> Answer
    ensures { result ≡ answer_of (month_file_check s.now) }
{
    Answer::from(month_file::month_file_check(s))
}

// Whether a month file can be used: 9 or 10 by its walk, then 23 by the words of its tables, then 11
// by its index table.
pub fn jt_file_check(month: &[u8]) -> Answer
    ensures { result ≡ answer_of (file_check month.now) }
{
    Answer::from(files::file_check(month))
}

// Where a month's record lies in the `.daw` file.
fn record_place(daw: &[u8], month: u32) -> Result<Place, Refusal>
    ensures { let s = daw.now in
        placed result ≡ span_of (month_record_check s month) (month_part s month) }
{
    month_file::month_record_check(daw, month)?;
    Ok(Place {
        start: (month as usize - 1) * RECORD,
        size: RECORD,
    })
}

// Where a month's record lies in the `.daw` file: start and size in bytes. Refuses 1, 8, with zeros
// for both.
pub fn jt_month_record(daw: &[u8], month: u32) -> Span
    ensures { let s = daw.now in
        result ≡ span_of (month_record_check s month) (month_part s month) }
{
    Span::from(record_place(daw, month))
}

// Where a table lies, number 0 in the F2 record, 1 to 20 in the month file: start and size in
// bytes. Refuses 13, 8, 9, 10, with zeros for both.
#[tactic(auto, using(crate::proofs::crossing::Spans::spans))]
pub fn jt_table(number: u32, f2: &[u8], month: &[u8]) -> Span
    ensures { let f = f2.now in
        let m = month.now in
        result ≡ span_of (table_check number f m) (table_part number f m) }
{
    let verdict = tables::table_check(number, f2, month);
    Span::from(verdict.and(Ok(tables::table_place(number))))
}

// The verdict on a year file's directory: 19 with the lowest pair, 1 to 14, that is not wholly there
// or breaks a rule.
pub fn jt_year_check(year: &[u8]) -> Answer
    ensures { result ≡ answer_of (year_check year.now) }
{
    Answer::from(year::year_check(year))
}

// Where the month file of a month lies in a year file: start and size in bytes. Refuses 1, 19, with
// zeros for both.
#[tactic(auto, using(crate::proofs::crossing::Spans::spans))]
pub fn jt_year_month(year: &[u8], month: u32) -> Span
    ensures { let s = year.now in
        result ≡ span_unless (year_month_check s month) (year_month s month) }
{
    let verdict = month_check(month).and(year::year_check(year));
    Span::from(verdict.and(Ok(year::month_place(year, month))))
}

// Where the `.daw` file of a model, 0 CCIR and 1 URSI, lies in a year file: start and size in bytes.
// Refuses 7, 19, with zeros for both.
#[tactic(auto, using(crate::proofs::crossing::Spans::spans))]
pub fn jt_year_model(year: &[u8], model: u32) -> Span
    ensures { let s = year.now in
        result ≡ span_unless (year_model_check s model) (year_model s model) }
{
    let verdict = model_check(model).and(year::year_check(year));
    Span::from(verdict.and(Ok(year::model_place(year, model))))
}

// The blended coefficients of the six maps at a sunspot number. Refuses 8, 9, 10, 23, 11; the
// array stays as it is.
pub fn jt_cofion(f2: &[u8], month: &[u8], ssn: f32, out: &mut SixMaps) -> Answer
    ensures answer { result ≡ answer_of (files_check f2.now month.now) }
    ensures buffer { let f = f2.now in
        let m = month.now in
        out.new ≡ written_over (files_check f m) (cofion_of f m ssn) out.old }
{
    Answer::from(files::cofion(f2, month, ssn, out))
}

// The blended coefficients of the height map at a sunspot number. Refuses 9, 10, 23, 11; the
// array stays as it is.
pub fn jt_hmym(month: &[u8], ssn: f32, out: &mut HeightMap) -> Answer
    ensures answer { result ≡ answer_of (file_check month.now) }
    ensures buffer { let m = month.now in
        out.new ≡ written_over (file_check m) (hmym_of m ssn) out.old }
{
    Answer::from(files::hmym(month, ssn, out))
}
