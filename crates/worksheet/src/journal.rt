// The calls on a worksheet as one type, and one function that makes any of them.
ghost use Rattle.std.specs.Prelude.{◌≡◌};
ghost use Rattle.worksheet.specs.Showing.{lent_as};
ghost use Rattle.worksheet.specs.Journal.{step_of, step};
ghost use Rattle.worksheet.specs.Calls.{called, buffer_after, next_of};

use crate::desks;
use crate::desks::{Outcome, Worksheet};
use crate::inputs::Edit;
use crate::showing::{Lent, show_lent};
use base::refusal::{Refusal, Verdict};

// Desks are any number; those that are none are refused. Show 0 is the worksheet's.
#[derive(Clone, Copy)]
pub enum Call {
    Begin(u32),
    Change(u32, Edit),
    Commit(u32),
    Cancel(u32),
    TakeBack,
    Show(u32),
}

#[derive(Clone, Copy)]
pub enum Answer {
    Told(Verdict),
    // Unless it is refused, the figures are in the lent buffer.
    Shown(Result<u32, Refusal>),
}

// A call's answer, and the worksheet that it leaves, a refused call too (`desks::Outcome`).
#[derive(Clone, Copy)]
pub struct Next {
    pub answer: Answer,
    pub sheet: Worksheet,
}

#[tactic(auto, unfolding(crate::specs::Calls::next_of))]
fn told(o: Outcome) -> Next
    ensures { result ≡ next_of (step_of o) }
{
    Next {
        answer: Answer::Told(o.answer),
        sheet: o.sheet,
    }
}

// Makes a call on a worksheet, over what is lent (an F2 record and a month file, or a year file)
// and a figures buffer; only a showing reads the files and writes the buffer. Over a pair a showing
// takes the files as lent, whatever month and model the inputs shown have.
pub fn make(w: Worksheet, call: Call, lent: Lent, a: &[u8], b: &[u8], out: &mut [f32]) -> Next
    ensures answer { let s = step (lent_as lent a.now b.now) (called call out.old) w in
        result ≡ next_of s }
    ensures buffer { let s = step (lent_as lent a.now b.now) (called call out.old) w in
        out.new ≡ buffer_after s.answer out.old }
{
    match call {
        Call::Begin(desk) => told(desks::begin(w, desk)),
        Call::Change(desk, e) => told(desks::change(w, desk, e)),
        Call::Commit(desk) => told(desks::commit(w, desk)),
        Call::Cancel(desk) => told(desks::cancel(w, desk)),
        Call::TakeBack => told(desks::take_back(w)),
        Call::Show(desk) => Next {
            answer: Answer::Shown(show_lent(w, desk, lent, a, b, out)),
            sheet: w,
        },
    }
}
