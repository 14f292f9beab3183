// A sitting at the worksheet: a journal's lines heard one after the other, each with what is said
// of it.
#![tactic(auto)]

ghost use Rattle.std.specs.Prelude.{◌≡◌, ℕ, take};
ghost use Rattle.io.specs.Counts.{IsPrefixLen};
ghost use Rattle.worksheet.specs.Showing.{Source, lent_as};
ghost use Rattle.worksheet.specs.Journal.{step};
ghost use Rattle.worksheet.specs.Calls.{called};
ghost use Rattle.listing.specs.Turn.{blank};
ghost use Rattle.wording.specs.Written.{call_written};
ghost use Rattle.sitting.specs.Sitting.{first_sitting, ended_by, sitting_after, opened_by, hear_open, hear_wrong};
ghost use Rattle.sitting.specs.Sitting.{made_by, hear_call, hearing};

use listing::fault::{again_text, fault_text, unopened_text};
use listing::spoken::{SPOKEN, opened_text, spoken};
use maps::figures::FIGURES;
use wording::line::{Fault, Line, line_in};
use wording::written::{WrittenCall, WrittenInputs, call_written, inputs_written};
use worksheet::desks::{Outcome, Worksheet, open, opened};
use worksheet::journal::make;
use worksheet::showing::Lent;

// What the lines so far left.
#[derive(Clone, Copy)]
pub enum Sitting {
    // Nothing is open yet. The worksheet in it is none that anything was opened with.
    Waiting(Worksheet),
    // The worksheet that is open.
    Open(Worksheet),
    // Something was no call, or the open was refused: nothing is heard any more. The worksheet is
    // the last one, or the one that the open was refused with.
    Ended(Worksheet),
}

// The sitting after a line, and how many bytes are said of it.
#[derive(Clone, Copy)]
pub struct Heard {
    pub sitting: Sitting,
    pub size: usize,
}

// A sitting before its first line. The worksheet in it is none that anything was opened with.
pub fn waiting() -> Sitting
    ensures { result ≡ first_sitting }
{
    Sitting::Waiting(opened(b"").sheet)
}

// What an open leaves: a refused one gives no worksheet.
fn sitting_after(done: Outcome) -> Sitting
    ensures { result ≡ sitting_after done.answer done.sheet }
{
    match done.answer {
        Ok(()) => Sitting::Open(done.sheet),
        Err(_) => Sitting::Ended(done.sheet),
    }
}

// Nothing is heard any more: the worksheet stays.
fn ended(s: Sitting) -> Sitting
    ensures { result ≡ ended_by s }
{
    match s {
        Sitting::Waiting(w) | Sitting::Open(w) | Sitting::Ended(w) => Sitting::Ended(w),
    }
}

// Nothing is heard any more, and this much is said.
fn ended_with(s: Sitting, size: usize) -> Heard
    ensures { result ≡ record { sitting = ended_by s; size = size } }
{
    Heard {
        sitting: ended(s),
        size,
    }
}

// The open of a journal that nothing is open on yet.
fn open_first(number: u64, o: WrittenInputs, out: &mut [u8; SPOKEN]) -> Heard
    ensures sitting { result.sitting ≡ (opened_by number o).sitting }
    ensures text { take result.size out.new ≡ (opened_by number o).text }
    ensures count { IsPrefixLen result.size out.new }
{
    let done = open(inputs_written(o));
    Heard {
        sitting: sitting_after(done),
        size: opened_text(done.answer, number, out),
    }
}

// What is said of an open by the sitting: a journal has one, its first call.
fn hear_open(s: Sitting, number: u64, o: WrittenInputs, out: &mut [u8; SPOKEN]) -> Heard
    ensures sitting { result.sitting ≡ (hear_open number o s).sitting }
    ensures text { take result.size out.new ≡ (hear_open number o s).text }
    ensures count { IsPrefixLen result.size out.new }
{
    match s {
        Sitting::Waiting(_) => open_first(number, o, out),
        Sitting::Open(_) => ended_with(s, again_text(number, out)),
        Sitting::Ended(_) => ended_with(s, 0),
    }
}

// A call on the worksheet that is open.
fn call_open(
    w: Worksheet,
    number: u64,
    c: WrittenCall,
    lent: Lent,
    a: &[u8],
    b: &[u8],
    out: &mut [u8; SPOKEN],
) -> Heard
    ensures sitting { let source = lent_as lent a.now b.now in
        result.sitting ≡ (made_by source number c w).sitting }
    ensures text { let source = lent_as lent a.now b.now in
        take result.size out.new ≡ (made_by source number c w).text }
    ensures count { IsPrefixLen result.size out.new }
{
    let turn = spoken(w, call_written(c), number, lent, a, b, out);
    Heard {
        sitting: Sitting::Open(turn.sheet),
        size: turn.size,
    }
}

// What is said of a call by the sitting: it stands after the open.
fn hear_call(
    s: Sitting,
    number: u64,
    c: WrittenCall,
    lent: Lent,
    a: &[u8],
    b: &[u8],
    out: &mut [u8; SPOKEN],
) -> Heard
    ensures sitting { let source = lent_as lent a.now b.now in
        result.sitting ≡ (hear_call source number c s).sitting }
    ensures text { let source = lent_as lent a.now b.now in
        take result.size out.new ≡ (hear_call source number c s).text }
    ensures count { IsPrefixLen result.size out.new }
{
    match s {
        Sitting::Waiting(_) => ended_with(s, unopened_text(number, out)),
        Sitting::Open(w) => call_open(w, number, c, lent, a, b, out),
        Sitting::Ended(_) => ended_with(s, 0),
    }
}

// What is said of a line that is no call by the sitting: nothing, once the journal has ended.
fn hear_wrong(s: Sitting, number: u64, f: Fault, out: &mut [u8; SPOKEN]) -> Heard
    ensures sitting { result.sitting ≡ (hear_wrong number f s).sitting }
    ensures text { take result.size out.new ≡ (hear_wrong number f s).text }
    ensures count { IsPrefixLen result.size out.new }
{
    match s {
        Sitting::Waiting(_) | Sitting::Open(_) => ended_with(s, fault_text(number, f, out)),
        Sitting::Ended(_) => ended_with(s, 0),
    }
}

// Hears line `number` of a journal over what is lent (an F2 record and a month file, or a year
// file): reads it, makes its call on the worksheet and writes what is said of it.
pub fn hear(
    s: Sitting,
    line: &[u8],
    number: u64,
    lent: Lent,
    a: &[u8],
    b: &[u8],
    out: &mut [u8; SPOKEN],
) -> Heard
    ensures sitting { let source = lent_as lent a.now b.now in
        result.sitting ≡ (hearing source number s line.now).sitting }
    ensures text { let source = lent_as lent a.now b.now in
        take result.size out.new ≡ (hearing source number s line.now).text }
    ensures count { IsPrefixLen result.size out.new }
{
    match line_in(line) {
        Line::Blank => Heard {
            sitting: s,
            size: 0,
        },
        Line::Open(o) => hear_open(s, number, o, out),
        Line::Call(c) => hear_call(s, number, c, lent, a, b, out),
        Line::Wrong(f) => hear_wrong(s, number, f, out),
    }
}

// The worksheet after a call, whatever files are lent: none, so that a showing costs nothing.
fn sheet_after(w: Worksheet, c: WrittenCall) -> Worksheet
    ensures { (source : Source) → result ≡ (step source (called (call_written c) blank) w).sheet }
{
    let mut figures = [0.0f32; FIGURES];
    make(w, call_written(c), Lent::Pair, b"", b"", &mut figures).sheet
}

fn pass_open(s: Sitting, o: WrittenInputs) -> Sitting
    ensures { (n : ℕ) → result ≡ (hear_open n o s).sitting }
{
    match s {
        Sitting::Waiting(_) => sitting_after(open(inputs_written(o))),
        Sitting::Open(_) | Sitting::Ended(_) => ended(s),
    }
}

fn pass_call(s: Sitting, c: WrittenCall) -> Sitting
    ensures { (source : Source) (n : ℕ) → result ≡ (hear_call source n c s).sitting }
{
    match s {
        Sitting::Open(w) => Sitting::Open(sheet_after(w, c)),
        Sitting::Waiting(_) | Sitting::Ended(_) => ended(s),
    }
}

// The sitting that a line leaves, over any files and as any line of the journal, with nothing said.
pub fn pass(s: Sitting, line: &[u8]) -> Sitting
    ensures { (source : Source) (n : ℕ) → result ≡ (hearing source n s line.now).sitting }
{
    match line_in(line) {
        Line::Blank => s,
        Line::Open(o) => pass_open(s, o),
        Line::Call(c) => pass_call(s, c),
        Line::Wrong(_) => ended(s),
    }
}
