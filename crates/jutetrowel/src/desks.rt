// The calls of `worksheet::journal`, over a worksheet of 96 lent words. A call that is refused
// leaves them, bit for bit.
#![tactic(auto, unfolding(crate::specs::Calls::words_left, worksheet::specs::Journal::step))]

ghost use Rattle.std.specs.Prelude.{◌≡◌, []};
ghost use Rattle.worksheet.specs.declared.inputs.Edit.TheVariants.{Sunspot, Hour, Path, Psc, Pole, Month, Model};
ghost use Rattle.worksheet.specs.Desks.{opened_of};
ghost use Rattle.worksheet.specs.Showing.{pair, yearly};
ghost use Rattle.worksheet.specs.Journal.{begin, change, commit, cancel, take_back, show as showCall, step};
ghost use Rattle.worksheet.specs.Calls.{called};
ghost use Rattle.jutetrowel.specs.Answers.{answer_of};
ghost use Rattle.jutetrowel.specs.Fields.{route_typed, factors_of, pole_typed};
ghost use Rattle.jutetrowel.specs.Words.{worksheet_of, words_after};
ghost use Rattle.jutetrowel.specs.Calls.{answer_numbers, Shows, words_left, Made};

use crate::answers::{Answer, Showing};
use crate::fields::{factors, pole, route};
use crate::words::{SHEET_WORDS, load, settle};
use worksheet::desks::opened;
use worksheet::inputs::Edit;
use worksheet::journal;
use worksheet::journal::Call;
use worksheet::showing::{Lent, show, show_year};

// A worksheet from 15 little-endian words, of which bytes that are not there count as 0, into the 96
// words lent. Refuses the first bad field; the 96 words stay.
pub fn jt_open(words: &[u8], sheet: &mut [u32; SHEET_WORDS]) -> Answer
    ensures answer { result ≡ answer_of (opened_of words.now).answer }
    ensures sheet { sheet.new ≡ words_after (opened_of words.now) sheet.old }
{
    let new = opened(words);
    settle(sheet, new.answer, new.sheet)
}

// Makes a call that needs no files. A showing has no buffer here: it is refused.
fn made(sheet: &mut [u32; SHEET_WORDS], call: Call) -> Answer
    ensures answer { let s = step (pair [] []) (called call []) (worksheet_of sheet.old) in
        result ≡ answer_numbers s.answer }
    ensures sheet { sheet.new ≡ words_left (pair [] []) (called call []) sheet.old }
{
    let next = journal::make(load(sheet), call, Lent::Pair, b"", b"", &mut []);
    match next.answer {
        journal::Answer::Told(verdict) => settle(sheet, verdict, next.sheet),
        journal::Answer::Shown(shown) => Answer::from(shown),
    }
}

// Begins a desk's draft, a copy of the inputs. Refuses 14, then 15 where it has one.
pub fn jt_begin(sheet: &mut [u32; SHEET_WORDS], desk: u32) -> Answer
    ensures { Made (begin desk) sheet.old result sheet.new }
{
    made(sheet, Call::Begin(desk))
}

// Changes the sunspot number of a desk's draft. Refuses 14, 16, then the field, 2.
pub fn jt_change_sunspot(sheet: &mut [u32; SHEET_WORDS], desk: u32, ssn: f32) -> Answer
    ensures { Made (change desk (Sunspot ssn)) sheet.old result sheet.new }
{
    made(sheet, Call::Change(desk, Edit::Sunspot(ssn)))
}

// Changes the hour of a desk's draft. Refuses 14, 16, then the field, 3.
pub fn jt_change_hour(sheet: &mut [u32; SHEET_WORDS], desk: u32, gmt: f32) -> Answer
    ensures { Made (change desk (Hour gmt)) sheet.old result sheet.new }
{
    made(sheet, Call::Change(desk, Edit::Hour(gmt)))
}

// Changes the path of a desk's draft, its ends in degrees. Refuses 14, 16, then the fields, 4 and
// 5, and 7 for a flag that is neither 0 nor 1.
pub fn jt_change_path(
    sheet: &mut [u32; SHEET_WORDS],
    desk: u32,
    tlat: f32,
    tlong: f32,
    rlat: f32,
    rlong: f32,
    long_path: u32,
) -> Answer
    ensures { Made (change desk (Path (route_typed tlat tlong rlat rlong long_path)))
        sheet.old result sheet.new }
{
    let e = Edit::Path(route(tlat, tlong, rlat, rlong, long_path));
    made(sheet, Call::Change(desk, e))
}

// Changes the four factors of a desk's draft. Refuses 14, 16, then the fields, 6.
pub fn jt_change_factors(
    sheet: &mut [u32; SHEET_WORDS],
    desk: u32,
    psc_e: f32,
    psc_f1: f32,
    psc_f2: f32,
    psc_es: f32,
) -> Answer
    ensures { Made (change desk (Psc (factors_of psc_e psc_f1 psc_f2 psc_es)))
        sheet.old result sheet.new }
{
    let e = Edit::Psc(factors(psc_e, psc_f1, psc_f2, psc_es));
    made(sheet, Call::Change(desk, e))
}

// Changes the magnetic pole of a desk's draft, in degrees. Refuses 14, 16, then the fields, 4 and
// 5.
pub fn jt_change_pole(
    sheet: &mut [u32; SHEET_WORDS],
    desk: u32,
    pole_lat: f32,
    pole_lon: f32,
) -> Answer
    ensures { Made (change desk (Pole (pole_typed pole_lat pole_lon)))
        sheet.old result sheet.new }
{
    let e = Edit::Pole(pole(pole_lat, pole_lon));
    made(sheet, Call::Change(desk, e))
}

// Changes the month of a desk's draft. Refuses 14, 16, then the field, 1. Shown over a pair of files,
// the new month's sun goes with the files that are lent: they are the caller's to exchange.
pub fn jt_change_month(sheet: &mut [u32; SHEET_WORDS], desk: u32, month: u32) -> Answer
    ensures { Made (change desk (Month month)) sheet.old result sheet.new }
{
    made(sheet, Call::Change(desk, Edit::Month(month)))
}

// Changes the F2 model of a desk's draft, 0 CCIR and 1 URSI. Refuses 14, 16, then the field, 7.
// Over a pair of files it picks nothing: the record is the caller's to exchange.
pub fn jt_change_model(sheet: &mut [u32; SHEET_WORDS], desk: u32, model: u32) -> Answer
    ensures { Made (change desk (Model model)) sheet.old result sheet.new }
{
    made(sheet, Call::Change(desk, Edit::Model(model)))
}

// Makes a desk's draft the inputs. Refuses 14, 16, then 17 where the draft is stale.
pub fn jt_commit(sheet: &mut [u32; SHEET_WORDS], desk: u32) -> Answer
    ensures { Made (commit desk) sheet.old result sheet.new }
{
    made(sheet, Call::Commit(desk))
}

// Drops a desk's draft; nothing else moves. Refuses 14, then 16 where there is none.
pub fn jt_cancel(sheet: &mut [u32; SHEET_WORDS], desk: u32) -> Answer
    ensures { Made (cancel desk) sheet.old result sheet.new }
{
    made(sheet, Call::Cancel(desk))
}

// Brings back the earlier set of inputs. Refuses 18 where there is none.
pub fn jt_take_back(sheet: &mut [u32; SHEET_WORDS]) -> Answer
    ensures { Made take_back sheet.old result sheet.new }
{
    made(sheet, Call::TakeBack)
}

// The number of points, with the figures of a desk's draft, of the worksheet for desk 0, in the
// buffer. Refuses as `show`; the buffer stays. The files are taken as lent, whatever month and model
// the inputs shown have.
pub fn jt_show(
    sheet: &[u32; SHEET_WORDS],
    desk: u32,
    f2: &[u8],
    file: &[u8],
    out: &mut [f32],
) -> Showing
    ensures { Shows (step (pair f2.now file.now)
        (showCall desk out.old) (worksheet_of sheet.now)).answer
        result out.new }
{
    Showing::from(show(load(sheet), desk, f2, file, out))
}

// The same over a year file, of which the month and the model shown pick the parts. Refuses as
// `show_year`; the buffer stays.
pub fn jt_show_year(sheet: &[u32; SHEET_WORDS], desk: u32, year: &[u8], out: &mut [f32]) -> Showing
    ensures { Shows (step (yearly year.now)
        (showCall desk out.old) (worksheet_of sheet.now)).answer
        result out.new }
{
    Showing::from(show_year(load(sheet), desk, year, out))
}
