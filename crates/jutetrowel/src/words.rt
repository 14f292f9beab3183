// A worksheet's value in 96 words that the caller lends: the inputs, the earlier set and the drafts
// of desks 1 to 4, 16 words each.
ghost use Rattle.std.specs.Prelude.{◌≡◌, ◌+◌, ◌≤◌, ◌++◌, take, drop};
ghost use Rattle.base.specs.Refusal.{written_over};
ghost use Rattle.jutetrowel.specs.Answers.{answer_of};
ghost use Rattle.jutetrowel.specs.Words.{set_size, sheet_size, inputs_in, earlier_in, draft_in, worksheet_of, set_words, earlier_words, draft_words, sheet_words};

use crate::answers::Answer;
use base::refusal::Verdict;
use maps::inputs::{FIELDS, Inputs, from_words, to_words};
use worksheet::desks::{Draft, Worksheet};

// The words of a set: what it is, and its fields.
const SET: usize = FIELDS + 1;

// Where the sets after the inputs' start.
const EARLIER: usize = SET;

const DRAFT_1: usize = EARLIER + SET;

const DRAFT_2: usize = DRAFT_1 + SET;

const DRAFT_3: usize = DRAFT_2 + SET;

const DRAFT_4: usize = DRAFT_3 + SET;

// The words of a worksheet.
pub const SHEET_WORDS: usize = DRAFT_4 + SET;

// The 15 fields of the set at `at`.
fn inputs_in(sheet: &[u32; SHEET_WORDS], at: usize) -> Inputs
    requires { at + set_size ≤ sheet_size }
    ensures { result ≡ inputs_in sheet.now at }
{
    let mut fields = [0u32; FIELDS];
    fields.copy_from_slice(&sheet[at + 1..at + SET]);
    from_words(&fields)
}

#[tactic(auto, unfolding(crate::specs::Words::earlier_in))]
fn earlier_in(sheet: &[u32; SHEET_WORDS], at: usize) -> Option<Inputs>
    requires { at + set_size ≤ sheet_size }
    ensures { result ≡ earlier_in sheet.now at }
{
    if sheet[at] == 0 {
        None
    } else {
        Some(inputs_in(sheet, at))
    }
}

#[tactic(auto, unfolding(crate::specs::Words::draft_in))]
fn draft_in(sheet: &[u32; SHEET_WORDS], at: usize) -> Draft
    requires { at + set_size ≤ sheet_size }
    ensures { result ≡ draft_in sheet.now at }
{
    match sheet[at] {
        0 => Draft::Closed,
        1 => Draft::Fresh(inputs_in(sheet, at)),
        _ => Draft::Stale(inputs_in(sheet, at)),
    }
}

// The worksheet that the words hold; any 96 words hold one.
#[tactic(auto, unfolding(crate::specs::Words::worksheet_of))]
pub(crate) fn load(sheet: &[u32; SHEET_WORDS]) -> Worksheet
    ensures { result ≡ worksheet_of sheet.now }
{
    Worksheet {
        inputs: inputs_in(sheet, 0),
        earlier: earlier_in(sheet, EARLIER),
        d1: draft_in(sheet, DRAFT_1),
        d2: draft_in(sheet, DRAFT_2),
        d3: draft_in(sheet, DRAFT_3),
        d4: draft_in(sheet, DRAFT_4),
    }
}

// The words of a set that is there.
#[tactic(auto, unfolding(crate::specs::Words::set_words))]
fn set_words(what: u32, i: Inputs) -> [u32; SET]
    ensures { result ≡ set_words what i }
{
    let mut set = [what; SET];
    set[1..].copy_from_slice(&to_words(i));
    set
}

#[tactic(auto, unfolding(crate::specs::Words::earlier_words))]
fn earlier_words(e: Option<Inputs>) -> [u32; SET]
    ensures { result ≡ earlier_words e }
{
    match e {
        None => [0u32; SET],
        Some(i) => set_words(1, i),
    }
}

#[tactic(auto, unfolding(crate::specs::Words::draft_words))]
fn draft_words(d: Draft) -> [u32; SET]
    ensures { result ≡ draft_words d }
{
    match d {
        Draft::Closed => [0u32; SET],
        Draft::Fresh(i) => set_words(1, i),
        Draft::Stale(i) => set_words(2, i),
    }
}

// Writes a set's words from the place `at` on.
fn put(out: &mut [u32; SHEET_WORDS], at: usize, set: [u32; SET])
    requires { at + set_size ≤ sheet_size }
    ensures { out.new ≡ take at out.old ++ (set ++ drop (at + set_size) out.old) }
{
    out[at..at + SET].copy_from_slice(&set);
}

// A worksheet's words. Of a set that is not there all are 0.
fn words_of(w: Worksheet) -> [u32; SHEET_WORDS]
    ensures { result ≡ sheet_words w }
{
    let mut out = [0u32; SHEET_WORDS];
    put(&mut out, 0, set_words(1, w.inputs));
    put(&mut out, EARLIER, earlier_words(w.earlier));
    put(&mut out, DRAFT_1, draft_words(w.d1));
    put(&mut out, DRAFT_2, draft_words(w.d2));
    put(&mut out, DRAFT_3, draft_words(w.d3));
    put(&mut out, DRAFT_4, draft_words(w.d4));
    out
}

// A call's verdict as it crosses, with the worksheet that it leaves in the lent words; refused,
// they stay.
pub(crate) fn settle(sheet: &mut [u32; SHEET_WORDS], verdict: Verdict, w: Worksheet) -> Answer
    ensures answer { result ≡ answer_of verdict }
    ensures sheet { sheet.new ≡ written_over verdict (sheet_words w) sheet.old }
{
    if verdict.is_ok() {
        *sheet = words_of(w);
    }
    Answer::from(verdict)
}
