// What an audit gathers from a journal's text: the calls of its first lines, made on a worksheet
// one after the other, and of each its mark, the number of its line and where that begins.
ghost use Rattle.std.specs.Prelude.{◌≡◌, List, ℕ, ◌+◌, ◌-◌, ◌<◌, ◌≤◌, length, take, drop, set, position, ◌==◌};
ghost use Rattle.worksheet.specs.Showing.{Source, lent_as};
ghost use Rattle.worksheet.specs.Journal.{step, entry_of};
ghost use Rattle.worksheet.specs.Calls.{called};
ghost use Rattle.wording.specs.declared.line.Line.TheVariants as line;
ghost use Rattle.wording.specs.Written.{call_written};
ghost use Rattle.listing.specs.Turn.{blank};
ghost use Rattle.auditing.specs.Marks.{mark_of};
ghost use Rattle.auditing.specs.Gathered.{line_at, GatheredNone, Gathers, handed_good, stage_of, opened_as, gathering, with_call, GoesOn};

use crate::marks::mark_of;
use base::refusal::Verdict;
use maps::figures::FIGURES;
use wording::line::{Line, line_in};
use wording::written::{WrittenCall, WrittenInputs, call_written, inputs_written};
use worksheet::desks;
use worksheet::desks::Worksheet;
use worksheet::journal::{Answer, make};
use worksheet::showing::Lent;

// What the lines so far told.
#[derive(Clone, Copy)]
pub enum Stage {
    // Nothing: they are blank.
    Waiting,
    // An open that was accepted, and the calls after it.
    Sits,
    // A line was no call, or the open was refused.
    Ended,
}

// Where the journal sits: the worksheet after its calls, how many these are, the number of the
// open's line, and the byte of the text where that line begins. Else no call counts. A stage beside
// them, and not their enum: the clauses of `page_part` name `g.count`.
#[derive(Clone, Copy)]
pub struct Gathered {
    pub stage: Stage,
    pub sheet: Worksheet,
    pub count: usize,
    pub opened: usize,
    pub start: usize,
}

// As `system` has it, on which this crate does not stand.
fn newline_in(text: &[u8]) -> Option<usize>
    ensures { result ≡ position (λ c. c == 10) text.now }
{
    text.iter().position(|c| *c == b'\n')
}

// The place of the first newline from `from` on, or the text's length where there is none: the line
// that begins at `from` ends before it. Past the text's end it is `from`, and the line is empty.
pub fn line_end(text: &[u8], from: usize) -> usize
    ensures place { result ≡ from + length (line_at text.now from) }
    ensures line { let s = text.now in
        take (result - from) (drop from s) ≡ line_at s from }
    ensures within { from ≤ length text.now → result ≤ length text.now }
{
    if from > text.len() {
        return from;
    }
    let rest = &text[from..];
    from + newline_in(rest).unwrap_or(rest.len())
}

// Whether an answer is no refusal.
fn is_accepted(a: Answer) -> bool
    ensures { result ≡ handed_good a }
{
    match a {
        Answer::Told(v) => v.is_ok(),
        Answer::Shown(s) => s.is_ok(),
    }
}

// The worksheet that a call leaves, and the call's mark.
#[derive(Clone, Copy)]
struct Marked {
    sheet: Worksheet,
    mark: u64,
}

// Makes a call, a showing with a buffer of zeros.
fn made(w: Worksheet, c: WrittenCall, lent: Lent, a: &[u8], b: &[u8]) -> Marked
    ensures sheet { let source = lent_as lent a.now b.now in
        result.sheet ≡ (step source (called (call_written c) blank) w).sheet }
    ensures mark { let source = lent_as lent a.now b.now in
        result.mark ≡ mark_of (entry_of source (called (call_written c) blank) w) }
{
    let call = call_written(c);
    let mut figures = [0.0f32; FIGURES];
    let next = make(w, call, lent, a, b, &mut figures);
    Marked {
        sheet: next.sheet,
        mark: mark_of(call, is_accepted(next.answer)),
    }
}

// Writes x at place k, if there is room. By index, since over `get_mut` the proof did not close.
fn put_at<T: Copy>(out: &mut [T], k: usize, x: T)
    ensures { out.new ≡ set out.old k x }
{
    if k < out.len() {
        out[k] = x;
    }
}

// Before any line.
fn nothing() -> Gathered
    ensures { GatheredNone Stage.Waiting result }
{
    Gathered {
        stage: Stage::Waiting,
        sheet: desks::opened(b"").sheet,
        count: 0,
        opened: 0,
        start: 0,
    }
}

fn ended(g: Gathered) -> Gathered
    ensures { GatheredNone Stage.Ended result }
{
    Gathered {
        stage: Stage::Ended,
        count: 0,
        ..g
    }
}

fn stage_of(v: Verdict) -> Stage
    ensures { result ≡ stage_of v }
{
    match v {
        Ok(()) => Stage::Sits,
        Err(_) => Stage::Ended,
    }
}

// The open alone, on line n, which begins at byte s.
fn opened_as(o: WrittenInputs, n: usize, s: usize) -> Gathered
    ensures { result ≡ opened_as o n s }
{
    let first = desks::open(inputs_written(o));
    Gathered {
        stage: stage_of(first.answer),
        sheet: first.sheet,
        count: 0,
        opened: n,
        start: s,
    }
}

// With the open of line n, which begins at byte s: only the first call of a journal is one.
fn with_open(g: Gathered, o: WrittenInputs, n: usize, s: usize) -> Gathered
    ensures told { (source : Source) (marks numbers starts : List ℕ) →
        let old = gathering g marks numbers starts in
        let new = gathering result marks numbers starts in
        GoesOn source n s (line.Open o) old new }
    ensures count { result.count ≤ g.count }
{
    match g.stage {
        Stage::Waiting => opened_as(o, n, s),
        Stage::Sits | Stage::Ended => ended(g),
    }
}

// With the call of line n, which begins at byte s, on the worksheet so far.
fn with_made(
    g: Gathered,
    c: WrittenCall,
    n: usize,
    s: usize,
    lent: Lent,
    a: &[u8],
    b: &[u8],
    marks: &mut [u64],
    numbers: &mut [usize],
    starts: &mut [usize],
) -> Gathered
    requires { g.count < n }
    ensures { let source = lent_as lent a.now b.now in
        let old = gathering g marks.old numbers.old starts.old in
        let new = gathering result marks.new numbers.new starts.new in
        new ≡ with_call source c n s old }
{
    let k = g.count;
    let m = made(g.sheet, c, lent, a, b);
    put_at(marks, k, m.mark);
    put_at(numbers, k, n);
    put_at(starts, k, s);
    Gathered {
        stage: Stage::Sits,
        sheet: m.sheet,
        count: k + 1,
        ..g
    }
}

// With the call of line n, which begins at byte s: there has to be a worksheet.
fn with_call(
    g: Gathered,
    c: WrittenCall,
    n: usize,
    s: usize,
    lent: Lent,
    a: &[u8],
    b: &[u8],
    marks: &mut [u64],
    numbers: &mut [usize],
    starts: &mut [usize],
) -> Gathered
    requires { g.count < n }
    ensures told { let source = lent_as lent a.now b.now in
        let old = gathering g marks.old numbers.old starts.old in
        let new = gathering result marks.new numbers.new starts.new in
        GoesOn source n s (line.Call c) old new }
    ensures count { result.count ≤ n }
{
    match g.stage {
        Stage::Sits => with_made(g, c, n, s, lent, a, b, marks, numbers, starts),
        Stage::Waiting | Stage::Ended => ended(g),
    }
}

// With line n, which begins at byte s.
fn with_line(
    g: Gathered,
    l: Line,
    n: usize,
    s: usize,
    lent: Lent,
    a: &[u8],
    b: &[u8],
    marks: &mut [u64],
    numbers: &mut [usize],
    starts: &mut [usize],
) -> Gathered
    requires { g.count < n }
    ensures told { let source = lent_as lent a.now b.now in
        let old = gathering g marks.old numbers.old starts.old in
        let new = gathering result marks.new numbers.new starts.new in
        GoesOn source n s l old new }
    ensures count { result.count ≤ n }
{
    match l {
        Line::Blank => g,
        Line::Open(o) => with_open(g, o, n, s),
        Line::Call(c) => with_call(g, c, n, s, lent, a, b, marks, numbers, starts),
        Line::Wrong(_) => ended(g),
    }
}

// The first k lines of a journal's text, fewer where there are fewer: a newline ends a line. Each
// call is made over what is lent, as `make` has it, and leaves its mark, the number of its line and
// the byte where that begins, from which on the text reads as it, in the three buffers, as far as
// there is room; all are counted.
pub fn gather(
    text: &[u8],
    k: usize,
    lent: Lent,
    a: &[u8],
    b: &[u8],
    marks: &mut [u64],
    numbers: &mut [usize],
    starts: &mut [usize],
) -> Gathered
    ensures told { let source = lent_as lent a.now b.now in
        let s = text.now in
        Gathers source s k result marks.new numbers.new starts.new }
    ensures rooms { (length marks.new ≡ length marks.old)
        × ((length numbers.new ≡ length numbers.old)
        × (length starts.new ≡ length starts.old)) }
{
    let mut g = nothing();
    let mut at = 0;
    for n in 0..k {
        let end = line_end(text, at);
        if end >= text.len() {
            return g;
        }
        let l = line_in(&text[at..end]);
        g = with_line(g, l, n + 1, at, lent, a, b, marks, numbers, starts);
        at = end + 1;
    }
    g
}
