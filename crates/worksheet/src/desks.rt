// The worksheet and the calls that move it: open, begin, change, commit, cancel and take back.
// Each decides first, makes the worksheet that it would leave, and takes that or the old one.
ghost use Rattle.std.specs.Prelude.{◌≡◌};
ghost use Rattle.worksheet.specs.Desks.{draft_at, with_draft, inputs_of, stale_of, moved_to, outcome, is_desk, desk_check, closed_check, draft_check, fresh_check, earlier_check, fresh_sheet, open_of, opened_of, sheet_opened_of, begin_check, begin_of, change_check, edited_draft, change_of, commit_check, commit_of, cancel_check, without_draft, cancel_of, take_back_of};

use crate::inputs::{Edit, apply, edit_check, inputs_check};
use base::refusal::{Refusal, Verdict, refuse_unless};
use maps::inputs::{Inputs, inputs_in, sheet_inputs_in};

#[derive(Clone, Copy)]
pub enum Draft {
    Closed,
    Fresh(Inputs),
    // Another desk committed, or there was a take-back, since the draft was begun.
    Stale(Inputs),
}

// Four drafts and no array of them: to a definition an array is a list of any length, so that the
// laws over every worksheet would need a premise.
#[derive(Clone, Copy)]
pub struct Worksheet {
    pub inputs: Inputs,
    // What a take-back returns, if there is such a set.
    pub earlier: Option<Inputs>,
    pub d1: Draft,
    pub d2: Draft,
    pub d3: Draft,
    pub d4: Draft,
}

// A call's answer, and the worksheet that it leaves. No Result of a worksheet: a refusal hands it
// back as it was, of which the laws of demand 3 speak.
#[derive(Clone, Copy)]
pub struct Outcome {
    pub answer: Verdict,
    pub sheet: Worksheet,
}

// The draft of a desk; any number but 1 to 4 has none.
#[tactic(auto, unfolding(crate::specs::Desks::draft_at))]
pub(crate) fn draft_at(w: Worksheet, desk: u32) -> Draft
    ensures { result ≡ draft_at desk w }
{
    match desk {
        1 => w.d1,
        2 => w.d2,
        3 => w.d3,
        4 => w.d4,
        _ => Draft::Closed,
    }
}

#[tactic(auto, unfolding(crate::specs::Desks::with_draft))]
fn with_draft(w: Worksheet, desk: u32, d: Draft) -> Worksheet
    ensures { result ≡ with_draft desk d w }
{
    // One literal and no match: five arms that copy the whole worksheet take 1.4 to 2 times as long.
    Worksheet {
        d1: if desk == 1 { d } else { w.d1 },
        d2: if desk == 2 { d } else { w.d2 },
        d3: if desk == 3 { d } else { w.d3 },
        d4: if desk == 4 { d } else { w.d4 },
        ..w
    }
}

// The inputs in a draft; i where there is no draft.
#[tactic(auto, unfolding(crate::specs::Desks::inputs_of))]
pub(crate) fn inputs_of(d: Draft, i: Inputs) -> Inputs
    ensures { result ≡ inputs_of d i }
{
    match d {
        Draft::Closed => i,
        Draft::Fresh(x) | Draft::Stale(x) => x,
    }
}

#[tactic(auto, unfolding(crate::specs::Desks::stale_of))]
fn stale(d: Draft) -> Draft
    ensures { result ≡ stale_of d }
{
    match d {
        Draft::Fresh(x) => Draft::Stale(x),
        Draft::Stale(_) | Draft::Closed => d,
    }
}

// New inputs and a new earlier set; every open draft turns stale.
#[tactic(auto, unfolding(crate::specs::Desks::moved_to))]
fn moved_to(i: Inputs, e: Option<Inputs>, w: Worksheet) -> Worksheet
    ensures { result ≡ moved_to i e w }
{
    Worksheet {
        inputs: i,
        earlier: e,
        d1: stale(w.d1),
        d2: stale(w.d2),
        d3: stale(w.d3),
        d4: stale(w.d4),
    }
}

// A refusal hands the worksheet back as it was.
#[tactic(auto, unfolding(crate::specs::Desks::outcome))]
fn decided(verdict: Verdict, after: Worksheet, w: Worksheet) -> Outcome
    ensures { result ≡ outcome verdict after w }
{
    Outcome {
        answer: verdict,
        sheet: if verdict.is_ok() { after } else { w },
    }
}

fn is_desk(desk: u32) -> bool
    ensures { result ≡ is_desk desk }
{
    1 <= desk && desk <= 4
}

pub(crate) fn desk_check(desk: u32) -> Verdict
    ensures { result ≡ desk_check desk }
{
    refuse_unless(is_desk(desk), Refusal::Desk)
}

#[tactic(auto, unfolding(crate::specs::Desks::closed_check))]
fn closed_check(d: Draft) -> Verdict
    ensures { result ≡ closed_check d }
{
    match d {
        Draft::Closed => Ok(()),
        Draft::Fresh(_) | Draft::Stale(_) => Err(Refusal::Drafted),
    }
}

#[tactic(auto, unfolding(crate::specs::Desks::draft_check))]
pub(crate) fn draft_check(d: Draft) -> Verdict
    ensures { result ≡ draft_check d }
{
    match d {
        Draft::Closed => Err(Refusal::NoDraft),
        Draft::Fresh(_) | Draft::Stale(_) => Ok(()),
    }
}

#[tactic(auto, unfolding(crate::specs::Desks::fresh_check))]
fn fresh_check(d: Draft) -> Verdict
    ensures { result ≡ fresh_check d }
{
    match d {
        Draft::Closed | Draft::Fresh(_) => Ok(()),
        Draft::Stale(_) => Err(Refusal::Stale),
    }
}

#[tactic(auto, unfolding(crate::specs::Desks::earlier_check))]
fn earlier_check(e: Option<Inputs>) -> Verdict
    ensures { result ≡ earlier_check e }
{
    refuse_unless(e.is_some(), Refusal::NothingEarlier)
}

fn fresh_sheet(i: Inputs) -> Worksheet
    ensures { result ≡ fresh_sheet i }
{
    Worksheet {
        inputs: i,
        earlier: None,
        d1: Draft::Closed,
        d2: Draft::Closed,
        d3: Draft::Closed,
        d4: Draft::Closed,
    }
}

// A worksheet with all desks closed and nothing to take back, and the verdict on its inputs. What
// stands beside a refusal holds the refused inputs: drop it.
pub fn open(i: Inputs) -> Outcome
    ensures { result ≡ open_of i }
{
    Outcome {
        answer: inputs_check(i),
        sheet: fresh_sheet(i),
    }
}

// The worksheet of 15 little-endian words, as `open` makes it of their inputs; bytes that are not
// there count as 0, and later ones are not looked at.
pub fn opened(words: &[u8]) -> Outcome
    ensures { result ≡ opened_of words.now }
{
    open(inputs_in(words))
}

// The worksheet of a sheet's 14 words, with model 0; a 15th does not count.
pub fn sheet_opened(words: &[u8]) -> Outcome
    ensures { result ≡ sheet_opened_of words.now }
{
    open(sheet_inputs_in(words))
}

// A fresh draft for a desk, a copy of the worksheet's inputs. Refuses 14 for a desk that is not 1
// to 4, then 15 where the desk has a draft; the worksheet stays.
pub fn begin(w: Worksheet, desk: u32) -> Outcome
    ensures { result ≡ begin_of desk w }
{
    let check = desk_check(desk).and(closed_check(draft_at(w, desk)));
    decided(check, with_draft(w, desk, Draft::Fresh(w.inputs)), w)
}

#[tactic(auto, unfolding(crate::specs::Desks::edited_draft))]
fn edited_draft(e: Edit, d: Draft) -> Draft
    ensures { result ≡ edited_draft e d }
{
    match d {
        Draft::Closed => d,
        Draft::Fresh(x) => Draft::Fresh(apply(e, x)),
        Draft::Stale(x) => Draft::Stale(apply(e, x)),
    }
}

// A desk's draft with the changed fields in the place of its own; a stale one stays stale. Refuses
// 14, 16 where there is no draft, then the changed fields; the worksheet stays.
pub fn change(w: Worksheet, desk: u32, e: Edit) -> Outcome
    ensures { result ≡ change_of desk e w }
{
    let d = draft_at(w, desk);
    let check = desk_check(desk).and(draft_check(d)).and(edit_check(e));
    decided(check, with_draft(w, desk, edited_draft(e, d)), w)
}

// A desk's draft becomes the inputs and these the earlier set; the desk closes and every other open
// draft turns stale. Refuses 14, 16, then 17 where the draft is stale; the worksheet stays.
pub fn commit(w: Worksheet, desk: u32) -> Outcome
    ensures { result ≡ commit_of desk w }
{
    let d = draft_at(w, desk);
    let check = desk_check(desk).and(draft_check(d)).and(fresh_check(d));
    let moved = moved_to(inputs_of(d, w.inputs), Some(w.inputs), w);
    decided(check, with_draft(moved, desk, Draft::Closed), w)
}

fn without_draft(w: Worksheet, desk: u32) -> Worksheet
    ensures { result ≡ without_draft desk w }
{
    with_draft(w, desk, Draft::Closed)
}

// A desk's draft goes; nothing else moves. Refuses 14, then 16 where there is no draft.
pub fn cancel(w: Worksheet, desk: u32) -> Outcome
    ensures { result ≡ cancel_of desk w }
{
    let check = desk_check(desk).and(draft_check(draft_at(w, desk)));
    decided(check, without_draft(w, desk), w)
}

// The earlier set returns and none is left; every open draft turns stale. Refuses 18 where there is
// no earlier set; the worksheet stays.
pub fn take_back(w: Worksheet) -> Outcome
    ensures { result ≡ take_back_of w }
{
    let set = w.earlier.unwrap_or(w.inputs);
    decided(earlier_check(w.earlier), moved_to(set, None, w), w)
}
