// A showing: the figures of the worksheet's inputs or of a desk's draft, over a year file, of which
// it takes the parts of the inputs' month and model, or over a pair of files: `f2`, the F2 record,
// and `file`, the month file. That a pair is of the inputs' month and model is the caller's word: a
// month changed in the draft shown, or by a commit or take-back since the pair was chosen, gives
// the new month's sun over the files as they are lent.
ghost use Rattle.std.specs.Prelude.{◌≡◌, ℕ, length, get_or};
ghost use Rattle.std.specs.Float.{nan};
ghost use Rattle.base.specs.Fill.{fill};
ghost use Rattle.worksheet.specs.Showing.{pair, yearly, lent_as, year_files_check, inputs_shown, asked_check, judged_check, drawn_of, drawn_buffer, show_of, show_buffer};

use crate::desks::{Worksheet, desk_check, draft_at, draft_check, inputs_of};
use crate::inputs::inputs_check;
use base::files::files_check;
use base::month_file::{month_record, month_record_check};
use base::ranges::{model_check, month_check};
use base::refusal::{Refusal, Verdict};
use base::year::{year_check, year_model, year_month};
use maps::figures::{FIGURES, figures};
use maps::inputs::Inputs;

// How the two slices lent to the calls of a journal are read. They go beside it, and not in it:
// `make`, `answered`, `spoken`, `hear`, `gather` and `page_part` are public and take `lent`, `a`
// and `b`.
#[derive(Clone, Copy)]
pub enum Lent {
    // An F2 record and a month file.
    Pair,
    // A year file; the second slice is not looked at.
    Year,
}

// The inputs that a showing of the desk is of: 0 is the worksheet. A stale draft is shown all the
// same.
#[tactic(auto, unfolding(crate::specs::Showing::inputs_shown))]
pub fn inputs_shown(w: Worksheet, desk: u32) -> Inputs
    ensures { result ≡ inputs_shown desk w }
{
    if desk == 0 {
        w.inputs
    } else {
        inputs_of(draft_at(w, desk), w.inputs)
    }
}

#[tactic(auto, unfolding(crate::specs::Showing::asked_check))]
fn asked_check(w: Worksheet, desk: u32) -> Verdict
    ensures { result ≡ asked_check desk w }
{
    if desk == 0 {
        return Ok(());
    }
    desk_check(desk)?;
    draft_check(draft_at(w, desk))
}

// What is refused before the buffer and the files are looked at.
#[tactic(auto, unfolding(crate::specs::Showing::judged_check))]
fn judged_check(w: Worksheet, desk: u32) -> Verdict
    ensures { result ≡ judged_check desk w }
{
    asked_check(w, desk)?;
    inputs_check(inputs_shown(w, desk))
}

// The figures of inputs, which nothing judges here, into a lent buffer: 12 where it has not 151
// numbers, then the refusals of the record and the month file. Refused, the buffer stays as it is.
pub fn drawn(i: Inputs, f2: &[u8], file: &[u8], out: &mut [f32]) -> Result<u32, Refusal>
    ensures answer { result ≡ drawn_of (pair f2.now file.now i) i out.old }
    ensures buffer { let files = pair f2.now file.now in
        out.new ≡ drawn_buffer (files i) i out.old }
{
    if out.len() != FIGURES {
        return Err(Refusal::Figures);
    }
    let mut all = [0.0f32; FIGURES];
    let count = figures(i, f2, file, &mut all)?;
    out.copy_from_slice(&all);
    Ok(count)
}

// What a showing of a month and a model over a year file is refused by, where its desk, its other
// fields and its buffer pass: 1 and 7 by the two words, 19 by the directory, 8 where the model's
// part has not the month's record, then 9 and 10 of the month's part, 23 of the record and of that
// part, and 11.
#[tactic(auto, unfolding(crate::specs::Showing::year_files_check, crate::specs::Showing::year_files))]
pub fn year_files_check(year: &[u8], month: u32, model: u32) -> Verdict
    ensures { result ≡ year_files_check year.now month model }
{
    month_check(month)?;
    model_check(model)?;
    year_check(year)?;
    let daw = year_model(year, model);
    month_record_check(daw, month)?;
    files_check(month_record(daw, month), year_month(year, month))
}

// As `drawn`, over a year file, of which the inputs' month and model pick the parts: 12, then 19 by
// its directory, 8 where the model's part has not the month's record, and the month file's
// refusals.
fn drawn_year(i: Inputs, year: &[u8], out: &mut [f32]) -> Result<u32, Refusal>
    ensures answer { result ≡ drawn_of (yearly year.now i) i out.old }
    ensures buffer { out.new ≡ drawn_buffer (yearly year.now i) i out.old }
{
    if out.len() != FIGURES {
        return Err(Refusal::Figures);
    }
    year_check(year)?;
    let daw = year_model(year, i.model);
    month_record_check(daw, i.month)?;
    let record = month_record(daw, i.month);
    let file = year_month(year, i.month);
    drawn(i, record, file, out)
}

// The number of points, with the figures of a desk's draft, of the worksheet for desk 0, in the
// buffer. Refuses 14, 16, the 15 fields of the inputs shown, 12, 8, 9, 10, 23, 11; the buffer stays
// as it was lent. The files are taken as lent, whatever month and model the inputs shown have.
pub fn show(
    w: Worksheet,
    desk: u32,
    f2: &[u8],
    file: &[u8],
    out: &mut [f32],
) -> Result<u32, Refusal>
    ensures answer { result ≡ show_of (pair f2.now file.now) desk out.old w }
    ensures buffer { let files = pair f2.now file.now in
        out.new ≡ show_buffer files desk out.old w }
{
    judged_check(w, desk)?;
    drawn(inputs_shown(w, desk), f2, file, out)
}

// The same over a year file: of the month and model of the inputs shown. Refuses 14, 16, the 15
// fields of the inputs shown, 12, 19, 8, 9, 10, 23, 11; the buffer stays as it was lent.
pub fn show_year(w: Worksheet, desk: u32, year: &[u8], out: &mut [f32]) -> Result<u32, Refusal>
    ensures answer { result ≡ show_of (yearly year.now) desk out.old w }
    ensures buffer { out.new ≡ show_buffer (yearly year.now) desk out.old w }
{
    judged_check(w, desk)?;
    drawn_year(inputs_shown(w, desk), year, out)
}

// The same over what is lent, which is read as `lent` says. `show` and `show_year` stay apart: C
// calls each of them.
pub(crate) fn show_lent(
    w: Worksheet,
    desk: u32,
    lent: Lent,
    a: &[u8],
    b: &[u8],
    out: &mut [f32],
) -> Result<u32, Refusal>
    ensures answer { result ≡ show_of (lent_as lent a.now b.now) desk out.old w }
    ensures buffer { let files = lent_as lent a.now b.now in
        out.new ≡ show_buffer files desk out.old w }
{
    match lent {
        Lent::Pair => show(w, desk, a, b, out),
        Lent::Year => show_year(w, desk, a, out),
    }
}
