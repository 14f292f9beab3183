// A turn of a journal: a call made on the worksheet, and its answer's text.
ghost use Rattle.std.specs.Prelude.{◌≡◌, take};
ghost use Rattle.io.specs.Counts.{IsPrefixLen};
ghost use Rattle.worksheet.specs.Showing.{lent_as};
ghost use Rattle.worksheet.specs.Journal.{step};
ghost use Rattle.worksheet.specs.Calls.{called};
ghost use Rattle.listing.specs.Turn.{blank, handed_text, answer_text};

use crate::answer::{ANSWER, shown_text, verdict_text};
use maps::figures::FIGURES;
use worksheet::desks::Worksheet;
use worksheet::journal::{Answer, Call, make};
use worksheet::showing::Lent;

// The worksheet that a call leaves, and how many bytes its answer's text has.
#[derive(Clone, Copy)]
pub struct Turn {
    pub sheet: Worksheet,
    pub size: usize,
}

fn handed_text(a: Answer, figures: &[f32; FIGURES], out: &mut [u8; ANSWER]) -> usize
    ensures text { take result out.new ≡ handed_text a figures.now }
    ensures count { IsPrefixLen result out.new }
{
    match a {
        Answer::Told(v) => verdict_text(v, out),
        Answer::Shown(s) => shown_text(s, figures, out),
    }
}

// Makes a call over what is lent (an F2 record and a month file, or a year file), a showing with a
// buffer of zeros, writes the text of its answer and gives its length beside the worksheet that the
// call leaves.
pub fn answered(
    w: Worksheet,
    call: Call,
    lent: Lent,
    a: &[u8],
    b: &[u8],
    out: &mut [u8; ANSWER],
) -> Turn
    ensures sheet { result.sheet ≡ (step (lent_as lent a.now b.now) (called call blank) w).sheet }
    ensures text { let s = step (lent_as lent a.now b.now) (called call blank) w in
        take result.size out.new ≡ answer_text s.answer }
    ensures count { IsPrefixLen result.size out.new }
{
    let mut figures = [0.0f32; FIGURES];
    let next = make(w, call, lent, a, b, &mut figures);
    let size = handed_text(next.answer, &figures, out);
    Turn {
        sheet: next.sheet,
        size,
    }
}
