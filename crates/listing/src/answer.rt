// Answers as text: each function writes one into a lent buffer and gives its length.
ghost use Rattle.std.specs.Prelude.{◌≡◌, ◌+◌, ◌≤◌, length, take};
ghost use Rattle.io.specs.Counts.{IsPrefixLen};
ghost use Rattle.listing.specs.Text.{Puts, HasRoom};
ghost use Rattle.listing.specs.Answer.{glyph_of, hex_of, line_of, lines_of, refusal_text, verdict_text, points_text, shown_text, sheet_text, stopped_text};

use crate::text::Text;
use base::number;
use base::refusal::{Refusal, Verdict};
use maps::figures::FIGURES;

// The bytes of the longest answer: `points`, a number of ten digits, and a line of nine bytes for
// each figure.
pub const ANSWER: usize = 18 + 9 * FIGURES;

// The lowercase hexadecimal digit of d as a byte of text, of its last one where d has more.
pub fn glyph(d: u32) -> u8
    ensures { result ≡ glyph_of d }
{
    let d = d % 16;
    if d < 10 { 48 + d as u8 } else { 87 + d as u8 }
}

// A word's eight hexadecimal digits, the highest first.
pub(crate) fn hex(w: u32) -> [u8; 8]
    ensures { result ≡ hex_of w }
{
    // Written out: eight digits read plainer than a loop with its invariant.
    [
        glyph(w / 0x1000_0000),
        glyph(w / 0x100_0000),
        glyph(w / 0x10_0000),
        glyph(w / 0x1_0000),
        glyph(w / 0x1000),
        glyph(w / 0x100),
        glyph(w / 0x10),
        glyph(w),
    ]
}

// The line of a figure: its bits in hexadecimal digits, 7fc00000 for any NaN.
#[tactic(auto, using(crate::proofs::Sizes::sizes), unfolding(crate::specs::Answer::line_of))]
fn put_line(text: &mut Text, x: f32)
    requires { HasRoom text.old (length (line_of x)) }
    ensures { Puts text.old (line_of x) text.new }
{
    text.put(&hex(number::bits32(x)));
    text.put(b"\n");
}

fn put_lines(text: &mut Text, figures: &[f32])
    requires { HasRoom text.old (length (lines_of figures.now)) }
    ensures { Puts text.old (lines_of figures.now) text.new }
{
    for x in figures {
        put_line(text, *x);
    }
}

// Puts the line of a refusal: `refused`, number, place.
#[tactic(auto, using(crate::proofs::Sizes::sizes), unfolding(crate::specs::Answer::refusal_text))]
pub(crate) fn put_refusal(text: &mut Text, why: Refusal)
    requires { HasRoom text.old (length (refusal_text why)) }
    ensures { Puts text.old (refusal_text why) text.new }
{
    text.put(b"refused ");
    text.put_number(why.number() as u64);
    text.put(b" ");
    text.put_number(why.place() as u64);
    text.put(b"\n");
}

// The line `points`, number, and the lines of the figures.
#[tactic(auto, using(crate::proofs::Sizes::sizes), unfolding(crate::specs::Answer::points_text))]
fn put_points(text: &mut Text, count: u32, figures: &[f32])
    requires { HasRoom text.old (length (points_text count figures.now)) }
    ensures { Puts text.old (points_text count figures.now) text.new }
{
    text.put(b"points ");
    text.put_number(count as u64);
    text.put(b"\n");
    put_lines(text, figures);
}

// Writes the line of a refusal and gives its length in bytes.
#[tactic(auto, using(crate::proofs::Sizes::sizes))]
pub fn refusal_text(why: Refusal, out: &mut [u8; ANSWER]) -> usize
    ensures text { take result out.new ≡ refusal_text why }
    ensures count { IsPrefixLen result out.new }
{
    let mut text = Text::new(out);
    put_refusal(&mut text, why);
    text.len()
}

// Writes the line of a call that shows nothing, `accepted` or the refusal's, and gives its length
// in bytes.
#[tactic(auto, using(crate::proofs::Sizes::sizes), unfolding(crate::specs::Answer::verdict_text))]
pub fn verdict_text(v: Verdict, out: &mut [u8; ANSWER]) -> usize
    ensures text { take result out.new ≡ verdict_text v }
    ensures count { IsPrefixLen result out.new }
{
    let mut text = Text::new(out);
    match v {
        Ok(()) => text.put(b"accepted\n"),
        Err(why) => put_refusal(&mut text, why),
    }
    text.len()
}

// Writes what a showing in a journal answers, `points` and the figures' lines or the refusal's
// line, and gives its length in bytes.
#[tactic(auto, using(crate::proofs::Sizes::sizes), unfolding(crate::specs::Answer::shown_text))]
pub fn shown_text(
    s: Result<u32, Refusal>,
    figures: &[f32; FIGURES],
    out: &mut [u8; ANSWER],
) -> usize
    ensures text { take result out.new ≡ shown_text s figures.now }
    ensures count { IsPrefixLen result out.new }
{
    let mut text = Text::new(out);
    match s {
        Ok(count) => put_points(&mut text, count, figures),
        Err(why) => put_refusal(&mut text, why),
    }
    text.len()
}

// Writes what a sheet by itself answers, the figures' lines alone or the refusal's line, and gives
// its length in bytes.
#[tactic(auto, using(crate::proofs::Sizes::sizes), unfolding(crate::specs::Answer::sheet_text))]
pub fn sheet_text(
    s: Result<u32, Refusal>,
    figures: &[f32; FIGURES],
    out: &mut [u8; ANSWER],
) -> usize
    ensures text { take result out.new ≡ sheet_text s figures.now }
    ensures count { IsPrefixLen result out.new }
{
    let mut text = Text::new(out);
    match s {
        Ok(_) => put_lines(&mut text, figures),
        Err(why) => put_refusal(&mut text, why),
    }
    text.len()
}

// Writes the line where bytes make no call, with the place of the first of them, and gives its
// length in bytes.
#[tactic(auto, using(crate::proofs::Sizes::sizes), unfolding(crate::specs::Answer::stopped_text))]
pub fn stopped_text(at: u64, out: &mut [u8; ANSWER]) -> usize
    ensures text { take result out.new ≡ stopped_text at }
    ensures count { IsPrefixLen result out.new }
{
    let mut text = Text::new(out);
    text.put(b"stopped at ");
    text.put_number(at);
    text.put(b"\n");
    text.len()
}
