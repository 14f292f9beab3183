// What a call of a journal is answered, in words for people who read no hexadecimal digits.
ghost use Rattle.std.specs.Prelude.{◌≡◌, ◌++◌, ◌+◌, ◌≤◌, length, take};
ghost use Rattle.io.specs.Counts.{IsPrefixLen};
ghost use Rattle.worksheet.specs.Showing.{lent_as};
ghost use Rattle.worksheet.specs.Journal.{step};
ghost use Rattle.worksheet.specs.Calls.{called};
ghost use Rattle.wording.specs.Token.{ascii};
ghost use Rattle.listing.specs.Text.{Puts, HasRoom};
ghost use Rattle.listing.specs.Survey.{refused_line};
ghost use Rattle.listing.specs.Turn.{blank};
ghost use Rattle.listing.specs.Spoken.{line_mark, verdict_words, points_noun, points_words, shown_words, spoken_text, spoken_verdict, inputs_asked, desk_asked, handed_words};

use crate::columns::{COLUMNS, put_columns};
use crate::reason::put_refused;
use crate::text::Text;
use crate::turn::Turn;
use base::refusal::{Refusal, Verdict};
use maps::figures::FIGURES;
use maps::inputs::Inputs;
use worksheet::desks::Worksheet;
use worksheet::journal::{Answer, Call, make};
use worksheet::showing::{Lent, inputs_shown};

// At least the bytes of the longest answer: a line before the page, and an empty one after it.
pub const SPOKEN: usize = COLUMNS + 64;

#[tactic(auto, using(crate::proofs::Sizes::sizes), unfolding(crate::specs::Spoken::line_mark))]
pub(crate) fn put_line_mark(text: &mut Text, line: u64)
    requires { HasRoom text.old 27 }
    ensures { Puts text.old (line_mark line) text.new }
{
    text.put(b"line ");
    text.put_number(line);
    text.put(b": ");
}

#[tactic(auto, using(crate::proofs::Sizes::sizes), unfolding(crate::specs::Survey::refused_line))]
fn put_refused_line(text: &mut Text, why: Refusal)
    requires { HasRoom text.old 95 }
    ensures { Puts text.old (refused_line why) text.new }
{
    put_refused(text, why);
    text.put(b"\n");
}

#[tactic(auto, unfolding(crate::specs::Spoken::verdict_words))]
fn put_verdict_words(text: &mut Text, v: Verdict)
    requires { HasRoom text.old 95 }
    ensures { Puts text.old (verdict_words v) text.new }
{
    match v {
        Ok(()) => text.put(b"accepted\n"),
        Err(why) => put_refused_line(text, why),
    }
}

fn points_noun(count: u32) -> &'static [u8]
    ensures { result.now ≡ ascii (points_noun count) }
{
    match count {
        1 => b" point\n",
        _ => b" points\n",
    }
}

// Puts `shown`, how many points, the page and an empty line.
#[tactic(auto, using(crate::proofs::Sizes::sizes), unfolding(crate::specs::Spoken::points_words))]
fn put_points_words(text: &mut Text, i: Inputs, count: u32, figures: &[f32; FIGURES])
    requires { HasRoom text.old 10026 }
    ensures { Puts text.old (points_words i count figures.now) text.new }
{
    text.put(b"shown, ");
    text.put_number(count as u64);
    text.put(points_noun(count));
    put_columns(text, i, count, figures);
    text.put(b"\n");
}

#[tactic(auto, unfolding(crate::specs::Spoken::shown_words))]
fn put_shown_words(text: &mut Text, i: Inputs, s: Result<u32, Refusal>, figures: &[f32; FIGURES])
    requires { HasRoom text.old 10026 }
    ensures { Puts text.old (shown_words i s figures.now) text.new }
{
    match s {
        Ok(count) => put_points_words(text, i, count, figures),
        Err(why) => put_refused_line(text, why),
    }
}

#[tactic(auto, unfolding(crate::specs::Spoken::handed_words))]
fn put_handed_words(text: &mut Text, i: Inputs, a: Answer, figures: &[f32; FIGURES])
    requires { HasRoom text.old 10026 }
    ensures { Puts text.old (handed_words i a figures.now) text.new }
{
    match a {
        Answer::Told(v) => put_verdict_words(text, v),
        Answer::Shown(s) => put_shown_words(text, i, s, figures),
    }
}

// The desk that a call asks to see; 0, the worksheet, for one that shows nothing.
fn desk_asked(call: Call) -> u32
    ensures { result ≡ desk_asked call }
{
    match call {
        Call::Show(desk) => desk,
        _ => 0,
    }
}

// Writes the line of a journal's number and the words of an answer.
#[tactic(auto, using(crate::proofs::Sizes::sizes))]
fn handed_spoken(
    line: u64,
    i: Inputs,
    a: Answer,
    figures: &[f32; FIGURES],
    out: &mut [u8; SPOKEN],
) -> usize
    ensures text { take result out.new ≡ line_mark line ++ handed_words i a figures.now }
    ensures count { IsPrefixLen result out.new }
{
    let mut text = Text::new(out);
    put_line_mark(&mut text, line);
    put_handed_words(&mut text, i, a, figures);
    text.len()
}

// Makes a call, that of the journal's line `line`, as `turn::answered` does, writes its answer in
// words, a showing's with the page of what is shown, and gives the length in bytes beside the
// worksheet that the call leaves.
pub fn spoken(
    w: Worksheet,
    call: Call,
    line: u64,
    lent: Lent,
    a: &[u8],
    b: &[u8],
    out: &mut [u8; SPOKEN],
) -> Turn
    ensures sheet { result.sheet ≡ (step (lent_as lent a.now b.now) (called call blank) w).sheet }
    ensures text { let s = step (lent_as lent a.now b.now) (called call blank) w in
        take result.size out.new ≡ spoken_text line (inputs_asked call w) s.answer }
    ensures count { IsPrefixLen result.size out.new }
{
    let mut figures = [0.0f32; FIGURES];
    let asked = inputs_shown(w, desk_asked(call));
    let next = make(w, call, lent, a, b, &mut figures);
    let size = handed_spoken(line, asked, next.answer, &figures, out);
    Turn {
        sheet: next.sheet,
        size,
    }
}

// Writes what an opening is answered, that of the journal's line `line`, and gives its length in
// bytes.
#[tactic(auto, using(crate::proofs::Sizes::sizes), unfolding(crate::specs::Spoken::spoken_verdict))]
pub fn opened_text(v: Verdict, line: u64, out: &mut [u8; SPOKEN]) -> usize
    ensures text { take result out.new ≡ spoken_verdict line v }
    ensures count { IsPrefixLen result out.new }
{
    let mut text = Text::new(out);
    put_line_mark(&mut text, line);
    put_verdict_words(&mut text, v);
    text.len()
}
